// A file: read and written again. Prints `same` and its length, or the refusal. Beside that it holds the log that is
// shown against the log of the case.
use rack::{Case, LONGEST_FILE, Outcome, Written};
use report::{Refused, first};
use std::io;
use std::io::Read;

// What comes of writing a case whose file is at hand.
fn again(rt: &impl Print, file: &[u8], case: Case) -> io::Result<()> {
    if first(&case.log.labels, usize::from(case.log.count)) != reader::log_of(file) {
        return println!(rt; "log not shown");
    }
    let mut room = [0u8; LONGEST_FILE];
    match writer::write_case(&mut room, case) {
        Written::Bytes(n) if first(&room, n) == file => println!(rt; "same {n}"),
        Written::Bytes(_) => println!(rt; "other bytes"),
        Written::Refused(number, beside) => println!(rt; "{}", Refused(number, beside)),
    }
}

// The line of one file.
fn answer(rt: &impl Print, file: &[u8]) -> io::Result<()> {
    let reading = reader::read_case(file);
    match reading.outcome {
        Outcome::Whole => again(rt, file, reading.case),
        Outcome::Refused(number, beside) => println!(rt; "{}", Refused(number, beside)),
    }
}

// Takes an entry: a file.
pub fn ask(rt: &impl Print, from: &mut impl Read, room: &mut [u8]) -> io::Result<()> {
    match corpus::part(from, room)? {
        Some(n) => answer(rt, first(room, n)),
        None => Ok(()),
    }
}
