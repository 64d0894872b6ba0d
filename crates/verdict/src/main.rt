// verdict: reads a case file on standard input and prints the verdict's word, then a line for each shown run: F
// (matching) or C (other), its length, its numbers; or one line that says why it is refused. It keeps one byte more
// than the longest file has.

#![tactic(auto)]

use rack::{LONGEST_FILE, WORK_ROOM};
use report::Judgement;
use std::io;

fn main(rt: HostRuntime) -> io::Result<()> {
    let mut file = [0u8; LONGEST_FILE + 1];
    let mut matching = [0u8; 2048];
    let mut other = [0u8; 2048];
    let mut work = [0u8; WORK_ROOM];
    let n = input::read_full(&mut rt.stdin(), &mut file)?;
    let judged = judge::judge(&file[..n], &mut matching, &mut other, &mut work);
    let judgement = Judgement {
        judged,
        matching: &matching,
        other: &other,
        between: "\n",
    };
    println!(rt; "{judgement}")
}
