// The kind of the corpus that asks the writer: a case in memory, the room that is lent and the file that it must hold
// then. Prints `written` and the file's length, or the refusal: 14 for a case that no file reads as, 11 with the
// length that is needed. The room is lent full of 170, a byte that no file has; the line says so if the file is
// another one, or if anything beyond it has changed. `ask` takes one entry and prints its line, as in corpus_cases;
// where the corpus ends too early there is no line.

#![tactic(auto)]

mod memory;

use rack::{Case, Written};
use report::{Refused, first};
use std::io;
use std::io::Read;

// What the room is full of beforehand.
const FULL: u8 = 170;

// The line of one entry.
fn answer(rt: &impl Print, case: Case, room: &mut [u8], file: &[u8]) -> io::Result<()> {
    room.fill(FULL);
    let n = match writer::write_case(room, case) {
        Written::Bytes(n) => {
            print!(rt; "written {n}")?;
            n
        }
        Written::Refused(number, beside) => {
            print!(rt; "{}", Refused(number, beside))?;
            0
        }
    };
    if first(room, n) != file {
        print!(rt; ", other bytes")?;
    }
    if !corpus::still(room, n, FULL) {
        print!(rt; ", room changed")?;
    }
    println!(rt)
}

// Takes an entry: the room's length, the file that is to be written, which is empty for a refusal, and a case in
// memory.
pub fn ask(
    rt: &impl Print,
    from: &mut impl Read,
    file: &mut [u8],
    room: &mut [u8],
) -> io::Result<()> {
    let Some(length) = corpus::number::<2>(from)? else {
        return Ok(());
    };
    let Some(n) = corpus::part(from, file)? else {
        return Ok(());
    };
    let Some(room) = room.get_mut(..length) else {
        return Ok(());
    };
    answer(rt, memory::case(from)?, room, first(file, n))
}
