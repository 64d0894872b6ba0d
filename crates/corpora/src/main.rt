// Asks the proved calls every question of the corpus, and prints for each what the second program says of it: a line
// for each entry. An entry begins with a byte for its kind; each kind has a module in corpus_cases or corpus_runs, or
// the crate corpus_writes, which says what else its entries hold. A further kind is a variant of Kind, its number, a
// module and an arm of `ask`.

#![tactic(auto)]

use corpus_cases::{checks, files};
use corpus_runs::{listings, replays, verdicts};
use std::io::Read;
use std::{fmt, io};

// The kinds of entries.
#[derive(Clone, Copy, Debug, PartialEq, Eq)]
enum Kind {
    Files,
    Checks,
    Verdicts,
    Listings,
    Replays,
    Writes,
}

// A number that stands for no kind.
#[derive(Clone, Copy, Debug, PartialEq, Eq)]
struct NoSuchKind;

impl fmt::Display for NoSuchKind {
    fn fmt<W: fmt::Write>(&self, f: &mut fmt::Formatter<W>) -> fmt::Result {
        write!(f, "no such kind")
    }
}

impl TryFrom<usize> for Kind {
    type Error = NoSuchKind;

    fn try_from(number: usize) -> Result<Self, NoSuchKind> {
        match number {
            0 => Ok(Kind::Files),
            1 => Ok(Kind::Checks),
            2 => Ok(Kind::Verdicts),
            3 => Ok(Kind::Listings),
            4 => Ok(Kind::Replays),
            5 => Ok(Kind::Writes),
            _ => Err(NoSuchKind),
        }
    }
}

// No corpus has more entries.
const MOST_ENTRIES: usize = 100000;

// How long a room is, so that it serves every entry: for a part of one, for a run or a file that is written, for work.
const PART: usize = 131072;

const RUN: usize = 4096;

const WORK: usize = 65536;

// The rooms: two for parts of an entry, two for runs or a file that is written, and one for work.
#[derive(Drop)]
struct Rooms {
    file: [u8; PART],
    given: [u8; PART],
    run: [u8; RUN],
    other: [u8; RUN],
    work: [u8; WORK],
}

// Takes an entry of this kind.
fn ask(rt: &impl Print, kind: Kind, from: &mut impl Read, rooms: &mut Rooms) -> io::Result<()> {
    let Rooms {
        file,
        given,
        run,
        other,
        work,
    } = rooms;
    match kind {
        Kind::Files => files::ask(rt, from, file),
        Kind::Checks => checks::ask(rt, from, file, given, work),
        Kind::Verdicts => verdicts::ask(rt, from, file, run, other, work),
        Kind::Listings => listings::ask(rt, from, file, given, run, work),
        Kind::Replays => replays::ask(rt, from, given, file),
        Kind::Writes => corpus_writes::ask(rt, from, file, run),
    }
}

// Takes every entry.
fn all(rt: &impl Print, from: &mut impl Read, rooms: &mut Rooms) -> io::Result<()> {
    for _ in 0..MOST_ENTRIES {
        let Some(number) = corpus::number::<1>(from)? else {
            return Ok(());
        };
        match Kind::try_from(number) {
            Ok(kind) => ask(rt, kind, from, rooms)?,
            Err(none) => println!(rt; "{none}")?,
        }
    }
    Ok(())
}

fn main(rt: HostRuntime) -> io::Result<()> {
    let mut from = corpus::open(&rt)?;
    let mut rooms = Rooms {
        file: [0; PART],
        given: [0; PART],
        run: [0; RUN],
        other: [0; RUN],
        work: [0; WORK],
    };
    all(&rt, &mut from, &mut rooms)
}
