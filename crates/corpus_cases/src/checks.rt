// A file and its table: the checks 1 to 9. Prints `accepted` and the number of reachable product markings, or the
// refusal. The work room is lent full of 255. Where the case is accepted, its first rows are the reachable product
// markings in ascending order of their bytes: the table says which, and the line says so if they differ; nothing is
// promised of the bytes behind them. After a refusal every byte is a zero, and the line says so if one is not.
use plan::{PLAN, Plan};
use rack::WORK_ROOM;
use report::{Refused, first};
use std::io;
use std::io::Read;

// What the room is full of beforehand.
const FULL: u8 = 255;

// The line of one entry.
fn answer(rt: &impl Print, file: &[u8], table: &[u8], work: &mut [u8]) -> io::Result<()> {
    work.fill(FULL);
    let mut plan = Plan::from([0; PLAN]);
    match admit::open(file, WORK_ROOM, &mut plan, work) {
        Ok(rows) if first(work, table.len()) == table => println!(rt; "accepted {rows}"),
        Ok(rows) => println!(rt; "accepted {rows}, table differs"),
        Err(refusal) if corpus::still(work, 0, 0) => println!(rt; "{}", Refused::from(refusal)),
        Err(refusal) => println!(rt; "{}, work room not cleared", Refused::from(refusal)),
    }
}

// Takes an entry: a file, and the table of its reachable product markings, which is empty for a refusal.
pub fn ask(
    rt: &impl Print,
    from: &mut impl Read,
    file: &mut [u8],
    table: &mut [u8],
    work: &mut [u8],
) -> io::Result<()> {
    let Some(n) = corpus::part(from, file)? else {
        return Ok(());
    };
    let Some(rows) = corpus::part(from, table)? else {
        return Ok(());
    };
    answer(rt, first(file, n), first(table, rows), work)
}
