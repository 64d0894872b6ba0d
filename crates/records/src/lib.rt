// The records of a case file, one at a time: which mark stands at an offset, which may follow which, whether a record
// is right and where it ends. What a right record is stands in rack's specs/Records.antt; what it puts into the case,
// crate slots does.

#![tactic(auto)]

mod fields;
mod marks;
mod stretch;

pub use fields::read_record;
pub use marks::{mark_at, may_follow};

// What refuses a file: a record that is wrong, at the refusal's place.
#[derive(Clone, Copy, Debug, PartialEq, Eq)]
pub struct Misplaced {
    pub place: usize,
}
