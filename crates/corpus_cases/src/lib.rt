// The kinds of the corpus that ask of one file: reading and writing it again, and the checks 2 to 9. Writing a case
// in memory is in corpus_writes. Each module says what its entries hold and what it prints; `ask` takes one entry and
// prints its line. Where the corpus ends too early there is no line. What an entry comes to is printed; the answer
// only tells of a read or a write that failed.

#![tactic(auto)]

pub mod checks;
pub mod files;
