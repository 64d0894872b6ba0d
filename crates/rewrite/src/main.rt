// rewrite: reads a case file on standard input and writes the bytes that come of reading and writing it again, or one
// line that says why it is refused. It keeps one byte more than the longest file has.

#![tactic(auto)]

use rack::{Case, LONGEST_FILE, Outcome, Written};
use report::Refused;
use std::io;

// Writes a case that was read.
fn write(rt: &impl Print, case: Case) -> io::Result<()> {
    let mut room = [0u8; LONGEST_FILE];
    match writer::write_case(&mut room, case) {
        Written::Bytes(n) => rt.write_all(report::first(&room, n)),
        Written::Refused(number, beside) => println!(rt; "{}", Refused(number, beside)),
    }
}

fn main(rt: HostRuntime) -> io::Result<()> {
    let mut file = [0u8; LONGEST_FILE + 1];
    let n = input::read_full(&mut rt.stdin(), &mut file)?;
    let reading = reader::read_case(&file[..n]);
    match reading.outcome {
        Outcome::Whole => write(&rt, reading.case),
        Outcome::Refused(number, beside) => println!(rt; "{}", Refused(number, beside)),
    }
}
