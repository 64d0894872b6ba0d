// The listing of explanations: the calls `first` and `next`, over every file and every length of room. They open the
// file (checks 1, 12 and 2 to 9), look at the given run (13), work out what can still be finished in so many firings,
// and give the next explanation by a depth-first search. What their answers mean stands in rack's
// specs/ListingOutcome.antt.

#![tactic(auto)]

ghost use Rattle.rack.specs.Listing.{from_start, after};
ghost use Rattle.rack.specs.Outcome.{zeroed};
ghost use Rattle.rack.specs.ListingOutcome.{ListingIs};
ghost use Rattle.listing.specs.Asking.{asked_of, listed_of};
ghost use Rattle.listing.specs.Barred.{Barred};
ghost use Rattle.listing.specs.CaseListed.{Listing, CaseListed};

use crate::giving::{give, is_good};
use plan::{PLAN, Plan};
use rack::{LIMIT_MOST, Listed, Refusal, WORK_ROOM};
use steps::table::Table;

mod giving; // giving.rt: giving a run that has been found

// The checks that look at no file, 1 and 12, by the work room's length and the limit.
fn barred(bytes: usize, limit: usize) -> Result<(), Refusal>
    ensures { Barred bytes limit result }
{
    if bytes < WORK_ROOM {
        return Err(Refusal::WorkRoom);
    }
    if LIMIT_MOST < limit {
        return Err(Refusal::Limit);
    }
    Ok(())
}

// The explanation that is asked for, of a case that passes the checks 2 to 9, whose reachable markings are the first
// rows of the work room.
fn of_case(
    plan: &Plan,
    rows: usize,
    limit: usize,
    given: Option<&[u8]>,
    room: &mut [u8],
    work: &mut [u8],
) -> Result<Listed, Refusal>
    requires { Listing plan.now work.old rows limit }
    ensures { CaseListed plan.now limit (asked_of given.entry) room.old (listed_of result) room.new }
{
    if let Some(run) = given
        && !is_good(run, limit, plan.transitions())
    {
        return Err(Refusal::GivenRun);
    }
    // nothing within the limit explains a log that is longer
    if limit < plan.events() {
        return Ok(Listed::End);
    }
    ahead::fill(plan, work, rows, limit);
    let table = Table {
        plan,
        room: work,
        rows,
    };
    // Kept: an array and a length. The project allocates no heap, and what stands behind the run is looked at by none.
    let mut run = [0u8; LIMIT_MOST];
    let sought = match given {
        None => seek::first(&table, limit, &mut run),
        Some(given) => seek::next(&table, limit, given, &mut run),
    };
    give(sought, &run, room)
}

// The explanation that is asked for: the first check that speaks, 1, 12 and 2 to 9, leaves at once.
fn of_file(
    file: &[u8],
    limit: usize,
    given: Option<&[u8]>,
    room: &mut [u8],
    work: &mut [u8],
) -> Result<Listed, Refusal>
    ensures { ListingIs file.now limit (asked_of given.entry) room.old work.old (listed_of result) room.new (zeroed work.old) }
{
    barred(work.len(), limit)?;
    let mut plan = Plan::from([0; PLAN]);
    let rows = admit::open(file, WORK_ROOM, &mut plan, work)?;
    of_case(&plan, rows, limit, given, room, work)
}

// The answer of a call that asks from the start, or after a given run. Whatever it is, the work room is all zeros
// afterwards.
fn list(file: &[u8], limit: usize, given: Option<&[u8]>, room: &mut [u8], work: &mut [u8]) -> Listed
    ensures { ListingIs file.now limit (asked_of given.entry) room.old work.old result room.new work.new }
{
    let listed = of_file(file, limit, given, room, work);
    work.fill(0);
    match listed {
        Ok(listed) => listed,
        Err(refusal) => Listed::Refused(refusal.number(), refusal.beside()),
    }
}

// The first explanation of the case in a file, at most the limit long, with its mark; or the end. Its bytes are
// written to the front of the room, and nothing else there changes; the end and a refusal change nothing. The work
// room is all zeros afterwards, however long it is.
pub fn first(file: &[u8], limit: usize, room: &mut [u8], work: &mut [u8]) -> Listed
    ensures { ListingIs file.now limit from_start room.old work.old result room.new work.new }
{
    list(file, limit, None, room, work)
}

// The same after a given run: the first explanation that comes later than it, whether or not it explains anything
// itself.
pub fn next(file: &[u8], limit: usize, given: &[u8], room: &mut [u8], work: &mut [u8]) -> Listed
    ensures { ListingIs file.now limit (after given.now) room.old work.old result room.new work.new }
{
    list(file, limit, Some(given), room, work)
}
