// The kinds of the corpus that ask for runs or about one: the verdict, the listing and the replay. Each module says
// what its entries hold and what it prints; `ask` takes one entry and prints its line. Where the corpus ends too
// early there is no line. What an entry comes to is printed; the answer only tells of a read or a write that failed.

#![tactic(auto)]

pub mod listings;
pub mod replays;
pub mod verdicts;

// What the rooms for runs are full of beforehand, and the work room.
const FULL: u8 = 170;

const WORK_FULL: u8 = 255;
