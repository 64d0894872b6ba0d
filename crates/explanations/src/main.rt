// explanations LIMIT: reads a case file on standard input and prints a line for each explanation that is at most LIMIT
// long, in order: F (matching) or C (other), its length, its numbers; then `end`; or one line that says why it is
// refused. It keeps one byte more than the longest file has. LIMIT is any number of 64 bits, in at most 32 decimal
// digits. Any other call gets one line on standard error.

#![tactic(auto)]

ghost use Rattle.std.specs.Prelude.{◌≡◌, ◌≤◌, length, IfOk, OnErr};
ghost use Rattle.explanations.specs.Turns.{shown_of, LaterSays};

use arguments::argument;
use rack::{LONGEST_FILE, Listed, WORK_ROOM};
use report::Listing;
use std::io;

// How to call the program.
fn usage(rt: &impl Eprint) -> io::Result<()> {
    eprintln!(rt;
        "usage: explanations LIMIT, with a case file on standard input; LIMIT 0 to {}",
        usize::MAX
    )
}

// Prints the line of an answer, with the room that the run was written to, and gives the run's length; none where the
// line is the last.
fn show(rt: &impl Print, listed: Listed, room: &[u8]) -> io::Result<Option<usize>>
    ensures { IfOk result (λ s. s ≡ shown_of listed) }
{
    println!(rt; "{}", Listing { listed, room })?;
    Ok(match listed {
        Listed::Matching(n) | Listed::Other(n) => Some(n),
        Listed::End | Listed::Refused(_, _) => None,
    })
}

// The line of the explanation after the given run. It comes later than that.
fn show_next(
    rt: &impl Print,
    file: &[u8],
    limit: usize,
    given: &[u8],
    room: &mut [u8],
    work: &mut [u8],
) -> io::Result<Option<usize>>
    requires { (length room.old ≡ 24) × (length given.now ≤ 24) }
    ensures ok { IfOk result (λ s. LaterSays given.now s room.new) }
    ensures err { OnErr result (length room.new ≡ length room.old) }
{
    let listed = listing::next(file, limit, given, room, work);
    show(rt, listed, room)
}

// A line for each explanation. Each comes later than the one before, and there are only so many runs of at most 24
// bytes: that is why it ends, and the measure is how far the rank of the run is below the top (specs/Turns.antt).
fn all(rt: &impl Print, file: &[u8], limit: usize, work: &mut [u8]) -> io::Result<()> {
    let mut room = [0u8; 24];
    let first = listing::first(file, limit, &mut room, work);
    let mut shown = show(rt, first, &room)?;
    while let Some(n) = shown {
        let given = room;
        shown = show_next(rt, file, limit, &given[..n], &mut room, work)?;
    }
    Ok(())
}

fn main(rt: HostRuntime) -> io::Result<()> {
    if arguments::count(&rt) != 2 {
        return usage(&rt);
    }
    let Some(limit) = argument(&rt, 1, usize::MAX) else {
        return usage(&rt);
    };
    let mut file = [0u8; LONGEST_FILE + 1];
    let n = input::read_full(&mut rt.stdin(), &mut file)?;
    let mut work = [0u8; WORK_ROOM];
    all(&rt, &file[..n], limit, &mut work)
}
