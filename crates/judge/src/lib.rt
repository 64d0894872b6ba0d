// The verdict on a rack log: the call `judge`, over every file and every length of room. It opens the file (checks 1 to
// 9), searches the nodes that runs keeping to the log can be in, and shows the first explanation of each kind. What its
// answers mean stands in rack's specs/VerdictOutcome.antt.

#![tactic(auto)]

ghost use Rattle.std.specs.Prelude.{◌≡◌, true, false};
ghost use Rattle.rack.specs.VerdictOutcome.{VerdictIs};
ghost use Rattle.judge.specs.CaseJudged.{answer_of, Shown};
ghost use Rattle.judge.specs.Kinds.{KindSays, run_length, ToWrite, PlaceWritten};

use plan::{PLAN, Plan};
use rack::{Judged, Refusal, Verdict, WORK_ROOM};
use search::{Place, Searched};
use steps::table::Table;

// How long the run to a place is, 0 where there is none.
fn length(place: Option<Place>) -> usize
    ensures { result ≡ run_length place }
{
    place.map_or(0, |place| place.depth)
}

// Writes the run to a place, if there is one, to the front of out.
fn write(table: &Table, met: usize, place: Option<Place>, out: &mut [u8])
    requires { ToWrite table.now.plan.now table.now.room.now table.now.rows met place out.old }
    ensures { PlaceWritten table.now.plan.now table.now.room.now place out.old out.new }
{
    if let Some(place) = place {
        search::write_run(table, met, place, out);
    }
}

// The verdict by the first explanation of each kind that the search has met: they are shown where each fits its room.
fn show(
    table: &Table,
    found: Searched,
    matching: &mut [u8],
    other: &mut [u8],
) -> Result<Judged, Refusal>
    requires first { KindSays table.now.plan.now table.now.room.now table.now.rows found.met true found.matching }
    requires second { KindSays table.now.plan.now table.now.room.now table.now.rows found.met false found.other }
    ensures { Shown table.now.plan.now matching.old other.old (answer_of result) matching.new other.new }
{
    let verdict = match (found.matching, found.other) {
        (Some(_), None) => Verdict::Faulty,
        (None, Some(_)) => Verdict::Safe,
        (Some(_), Some(_)) => Verdict::Ambiguous,
        (None, None) => return Err(Refusal::Unexplained),
    };
    let judged = Judged {
        verdict,
        matching: length(found.matching),
        other: length(found.other),
    };
    if matching.len() < judged.matching {
        return Err(Refusal::LentRoom(judged.matching));
    }
    if other.len() < judged.other {
        return Err(Refusal::LentRoom(judged.other));
    }
    write(table, found.met, found.matching, matching);
    write(table, found.met, found.other, other);
    Ok(judged)
}

// The verdict on a case file, or the first check that speaks.
fn judge_file(
    file: &[u8],
    matching: &mut [u8],
    other: &mut [u8],
    work: &mut [u8],
) -> Result<Judged, Refusal>
    ensures { VerdictIs file.now matching.old other.old work.old (answer_of result) matching.new other.new work.new }
{
    let mut plan = Plan::from([0; PLAN]);
    let rows = admit::open(file, WORK_ROOM, &mut plan, work)?;
    let found = search::search(&plan, work, rows);
    let table = Table {
        plan: &plan,
        room: work,
        rows,
    };
    let shown = show(&table, found, matching, other);
    room::clear(work);
    shown
}

// The verdict on a case file. The run that is shown of each kind is written to the front of its room, one byte for each
// firing, and nothing else in the two rooms changes; a refusal changes neither. The work room is all zeros afterwards,
// however long it is.
pub fn judge(file: &[u8], matching: &mut [u8], other: &mut [u8], work: &mut [u8]) -> Judged
    ensures { VerdictIs file.now matching.old other.old work.old result matching.new other.new work.new }
{
    match judge_file(file, matching, other, work) {
        Ok(judged) => judged,
        Err(refusal) => Judged::from(refusal),
    }
}
