// The records of a case, kind by kind. Each function puts all records of one kind.
ghost use Rattle.std.specs.Prelude.{◌≡◌, ◌++◌, ◌+◌, ◌*◌, ◌≤◌, ◌<◌, length};
ghost use Rattle.arrayvec.specs.ArrayVec.{array_vec_len, Extends};
ghost use Rattle.rack.specs.Writing.{up_to, pr_bytes, ob_bytes, qf_bytes, lg_bytes};
ghost use Rattle.spelling.specs.Parts.{net_bytes, arcs_bytes, bounds_at};

use crate::{push_bytes, push_row};
use arrayvec::ArrayVec;
use rack::{Arcs, Bounds, Log, Net, Observable, Pairs};

// Puts NT or PT, with the letters of its mark.
pub fn push_net<const N: usize, const PLACES: usize>(
    file: &mut ArrayVec<u8, N>,
    mark: &[u8; 2],
    net: &Net<PLACES>,
)
    requires few { net.now.places ≤ PLACES }
    requires fits { array_vec_len file.old + 4 + net.now.places ≤ N }
    ensures { Extends file.old (net_bytes mark.now net.now) file.new }
{
    push_bytes(file, mark);
    push_bytes(file, &[net.places, net.cap]);
    push_bytes(file, &net.first[..usize::from(net.places)]);
}

// Puts the TR or PX records, with the letters of their mark, off rows that are width wide.
pub fn push_arcs<const N: usize, const TRANSITIONS: usize, const CELLS: usize>(
    file: &mut ArrayVec<u8, N>,
    mark: &[u8; 2],
    arcs: &Arcs<TRANSITIONS, CELLS>,
    width: usize,
)
    requires few { arcs.now.count ≤ TRANSITIONS }
    requires narrow { width < 256 }
    requires rows { arcs.now.count * width ≤ CELLS }
    requires fits { array_vec_len file.old + arcs.now.count * (5 + width + width) ≤ N }
    ensures { Extends file.old (up_to arcs.now.count (arcs_bytes mark.now width arcs.now)) file.new }
{
    let pre = &arcs.pre[..];
    let post = &arcs.post[..];
    for t in 0..usize::from(arcs.count) {
        let row = t * width;
        push_bytes(file, mark);
        file.push(arcs.labels[t]);
        push_row(file, &pre[row..row + width]);
        push_row(file, &post[row..row + width]);
    }
}

// Puts the PR records.
pub fn push_pr<const N: usize>(file: &mut ArrayVec<u8, N>, pairs: &Pairs)
    requires few { pairs.now.count ≤ 32 }
    requires fits { array_vec_len file.old + 128 ≤ N }
    ensures { Extends file.old (up_to pairs.now.count (pr_bytes pairs.now)) file.new }
{
    for k in 0..usize::from(pairs.count) {
        push_bytes(file, &[b'P', b'R', pairs.higher[k], pairs.lower[k]]);
    }
}

// Puts OB.
#[tactic(auto, unfolding(rack::specs::Writing::ob_bytes))]
pub fn push_ob<const N: usize>(file: &mut ArrayVec<u8, N>, observable: &Observable)
    requires { array_vec_len file.old + 35 ≤ N }
    ensures { Extends file.old (ob_bytes observable.now) file.new }
{
    push_bytes(file, b"OB");
    push_row(file, &observable.flags);
}

// Puts the bounds of one QF: least and most of each of the pattern's places.
fn push_bounds<const N: usize>(file: &mut ArrayVec<u8, N>, least: &[u8], most: &[u8])
    requires same { length least.now ≡ length most.now }
    requires fits { array_vec_len file.old + length least.now * 2 ≤ N }
    ensures { Extends file.old (up_to (length least.now) (bounds_at least.now most.now)) file.new }
{
    for (p, low) in least.iter().enumerate() {
        push_bytes(file, &[*low, most[p]]);
    }
}

// Puts the QF records of a pattern of so many places.
pub fn push_qf<const N: usize>(file: &mut ArrayVec<u8, N>, bounds: &Bounds, places: u8)
    requires few { bounds.now.count ≤ 8 }
    requires narrow { places ≤ 8 }
    requires fits { array_vec_len file.old + 144 ≤ N }
    ensures { Extends file.old (up_to bounds.now.count (qf_bytes places bounds.now)) file.new }
{
    let places = usize::from(places);
    for g in 0..usize::from(bounds.count) {
        let row = g * 8;
        push_bytes(file, b"QF");
        push_bounds(
            file,
            &bounds.least[row..row + places],
            &bounds.most[row..row + places],
        );
    }
}

// Puts LG.
#[tactic(auto, unfolding(rack::specs::Writing::lg_bytes))]
pub fn push_lg<const N: usize>(file: &mut ArrayVec<u8, N>, log: &Log)
    requires few { log.now.count ≤ 40 }
    requires fits { array_vec_len file.old + 43 ≤ N }
    ensures { Extends file.old (lg_bytes log.now) file.new }
{
    push_bytes(file, &[b'L', b'G', log.count]);
    push_bytes(file, &log.labels[..usize::from(log.count)]);
}
