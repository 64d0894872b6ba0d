// checks: reads a case file on standard input and prints the first of the refusals 2 to 9 that speaks, or `accepted`
// and the number of reachable product markings. It keeps one byte more than the longest file has.

#![tactic(auto)]

use plan::{PLAN, Plan};
use rack::{LONGEST_FILE, WORK_ROOM};
use report::Refused;
use std::io;

fn main(rt: HostRuntime) -> io::Result<()> {
    let mut file = [0u8; LONGEST_FILE + 1];
    let mut plan = Plan::from([0; PLAN]);
    let mut work = [0u8; WORK_ROOM];
    let n = input::read_full(&mut rt.stdin(), &mut file)?;
    match admit::open(&file[..n], WORK_ROOM, &mut plan, &mut work) {
        Ok(rows) => println!(rt; "accepted {rows}"),
        Err(refusal) => println!(rt; "{}", Refused::from(refusal)),
    }
}
