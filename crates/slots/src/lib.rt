// The slots of a case: what a right record puts into them. Each kind of record has a struct of its own in the case,
// so a record changes that struct alone. What a record says stands in rack's specs/Records.antt; whether it is right,
// crate records tells.
// Kept: (file, at) stay two parameters: mark_list is asked at three offsets of one file, so a struct would be made
// anew.

#![tactic(auto)]

mod stores;

ghost use Rattle.std.specs.Prelude.{◌≡◌, ◌+◌, ◌*◌, ◌≤◌, ◌<◌, length};
ghost use Rattle.rack.specs.Bytes.{byte};
ghost use Rattle.rack.specs.Records.{NetIs, net_says, ArcsIs, arcs_says, pr_says, ObIs, ob_says};
ghost use Rattle.rack.specs.Records.{qf_end, qf_says, lg_end, lg_says};
ghost use Rattle.rack.specs.Layout.{case_of_zeros};

use rack::{Arcs, Bounds, Case, Log, Net, Observable, Pairs};
use stores::{fill_up, mark_list, put_bounds};

// NT and PT: a net's places, cap and first tokens.
#[tactic(auto, unfolding(rack::specs::Records::net_says))]
pub fn add_net<const PLACES: usize>(file: &[u8], at: usize) -> Net<PLACES>
    requires { NetIs PLACES file.now at }
    ensures { result ≡ net_says PLACES file.now at }
{
    let places = file[at + 2];
    let first = at + 4;
    Net {
        places,
        cap: file[at + 3],
        first: fill_up(&file[first..first + usize::from(places)]),
    }
}

// TR and PX: one more transition, in rows of a width.
#[tactic(auto, unfolding(rack::specs::Records::arcs_says))]
pub fn add_arcs<const TRANSITIONS: usize, const CELLS: usize>(
    mut arcs: Arcs<TRANSITIONS, CELLS>,
    width: usize,
    file: &[u8],
    at: usize,
) -> Arcs<TRANSITIONS, CELLS>
    requires few { TRANSITIONS < 256 }
    requires cells { TRANSITIONS * width ≤ CELLS }
    requires right { ArcsIs TRANSITIONS width arcs.count file.now at }
    ensures { result ≡ arcs_says width arcs.entry file.now at }
{
    let row = usize::from(arcs.count);
    arcs.labels[row] = file[at + 2];
    let outputs = mark_list(&mut arcs.pre, row, width, file, at + 3);
    mark_list(&mut arcs.post, row, width, file, outputs);
    arcs.count += 1;
    arcs
}

// PR: one more pair.
#[tactic(auto, unfolding(rack::specs::Records::pr_says))]
pub fn add_pr(mut pairs: Pairs, file: &[u8], at: usize) -> Pairs
    requires { (pairs.count < 32) × (at + 4 ≤ length file.now) }
    ensures { result ≡ pr_says pairs file.now at }
{
    let last = usize::from(pairs.count);
    pairs.higher[last] = file[at + 2];
    pairs.lower[last] = file[at + 3];
    pairs.count += 1;
    pairs
}

// OB: the observable labels.
#[tactic(auto, unfolding(rack::specs::Records::ob_says))]
pub fn add_ob(file: &[u8], at: usize) -> Observable
    requires { ObIs file.now at }
    ensures { result ≡ ob_says file.now at }
{
    let mut flags = [0; 32];
    mark_list(&mut flags, 0, 32, file, at + 2);
    Observable { flags }
}

// QF: one more set of bounds, in a row of its own.
#[tactic(auto, unfolding(rack::specs::Records::qf_says))]
pub fn add_qf(mut bounds: Bounds, file: &[u8], at: usize, places: u8) -> Bounds
    requires { (bounds.count < 8) × (places ≤ 8) × (qf_end places at ≤ length file.now) }
    ensures { result ≡ qf_says places bounds file.now at }
{
    let base = usize::from(bounds.count) * 8;
    let width = usize::from(places);
    put_bounds(&mut bounds.least, base, file, at + 2, width);
    put_bounds(&mut bounds.most, base, file, at + 3, width);
    bounds.count += 1;
    bounds
}

// LG: the log.
#[tactic(auto, unfolding(rack::specs::Records::lg_says))]
pub fn add_lg(file: &[u8], at: usize) -> Log
    requires { (byte file.now (at + 2) ≤ 40) × (lg_end file.now at ≤ length file.now) }
    ensures { result ≡ lg_says file.now at }
{
    let count = file[at + 2];
    let labels = at + 3;
    Log {
        count,
        labels: fill_up(&file[labels..labels + usize::from(count)]),
    }
}

// The case of all zeros.
#[tactic(auto, unfolding(rack::specs::Layout::case_of_zeros))]
pub fn zero_case() -> Case
    ensures { result ≡ case_of_zeros }
{
    Case {
        net: Net {
            places: 0,
            cap: 0,
            first: [0; 16],
        },
        arcs: Arcs {
            count: 0,
            labels: [0; 48],
            pre: [0; 768],
            post: [0; 768],
        },
        pairs: Pairs {
            count: 0,
            higher: [0; 32],
            lower: [0; 32],
        },
        observable: Observable { flags: [0; 32] },
        pattern: Net {
            places: 0,
            cap: 0,
            first: [0; 8],
        },
        links: Arcs {
            count: 0,
            labels: [0; 16],
            pre: [0; 128],
            post: [0; 128],
        },
        bounds: Bounds {
            count: 0,
            least: [0; 64],
            most: [0; 64],
        },
        log: Log {
            count: 0,
            labels: [0; 40],
        },
    }
}
