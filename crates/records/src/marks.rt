// Marks: which one stands at an offset of a file, and which may follow which.
ghost use Rattle.std.specs.Prelude.{◌≡◌, ◌≤◌, length};
ghost use Rattle.rack.specs.Marks.{mark_found};
ghost use Rattle.records.specs.Following.{may_come};

use rack::Mark;

// An entry of the table: the kind of the column may come next, or it may not.
const Y: bool = true;

const N: bool = false;

// "Which mark may follow which is a fixed table": a row for each kind, a column for each kind that may come next.
const FOLLOWS: [[bool; 9]; 9] = [
    [N, Y, Y, Y, N, N, N, N, N], // NT
    [N, Y, Y, Y, N, N, N, N, N], // TR
    [N, N, Y, Y, N, N, N, N, N], // PR
    [N, N, N, N, Y, N, N, N, N], // OB
    [N, N, N, N, N, Y, Y, N, N], // PT
    [N, N, N, N, N, Y, Y, N, N], // PX
    [N, N, N, N, N, N, Y, Y, N], // QF
    [N, N, N, N, N, N, N, N, Y], // LG
    [N, N, N, N, N, N, N, N, N], // EN
];

// The mark that stands at `at`, if one does.
#[tactic(auto, unfolding(rack::specs::Marks::mark_of))]
pub fn mark_at(file: &[u8], at: usize) -> Option<Mark>
    requires { at ≤ length file.now }
    ensures { result ≡ mark_found file.now at }
{
    match &file[at..] {
        [b'N', b'T', ..] => Some(Mark::Nt),
        [b'T', b'R', ..] => Some(Mark::Tr),
        [b'P', b'R', ..] => Some(Mark::Pr),
        [b'O', b'B', ..] => Some(Mark::Ob),
        [b'P', b'T', ..] => Some(Mark::Pt),
        [b'P', b'X', ..] => Some(Mark::Px),
        [b'Q', b'F', ..] => Some(Mark::Qf),
        [b'L', b'G', ..] => Some(Mark::Lg),
        [b'E', b'N', ..] => Some(Mark::En),
        _ => None,
    }
}

// Whether the mark `next` may stand after the mark `last`, or as the first of all. NT comes first. What is no mark may
// stand nowhere.
pub fn may_follow(last: Option<Mark>, next: Option<Mark>) -> bool
    ensures { result ≡ may_come last next }
{
    match (last, next) {
        (_, None) => false,
        (None, Some(next)) => next == Mark::Nt,
        (Some(last), Some(next)) => FOLLOWS[last.number()][next.number()],
    }
}
