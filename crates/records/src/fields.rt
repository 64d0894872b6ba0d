// The fields of records: whether those of the record at an offset are right, and where it ends. Each reader of a
// record is handed the file, the offset of the record's mark, and what it has to know of the records before; that the
// mark is there is known already. A wrong record's place is the offset of its mark.
// Kept: (file, at) stay two parameters: read_list is asked at three offsets of one file, so a struct would be made
// anew.
ghost use Rattle.std.specs.Prelude.{◌+◌, ◌≤◌, length};
ghost use Rattle.rack.specs.Records.{NetIs, net_end, ArcsIs, arcs_end, PrIs, pr_end, QfIs, qf_end, LgIs, lg_end};
ghost use Rattle.rack.specs.Layout.{FieldsAre, end_at};
ghost use Rattle.records.specs.Answer.{Answers};

use crate::Misplaced;
use crate::stretch::{all_bounded, all_observed, all_within, read_list};
use rack::{Case, Mark, Pairs};

// NT and PT: a net of at most `most` places.
fn read_net(file: &[u8], at: usize, most: u8) -> Result<usize, Misplaced>
    requires { at ≤ length file.now }
    ensures { Answers (NetIs most file.now at) (net_end file.now at) at result }
{
    let refusal = Misplaced { place: at };
    let [_, _, places, cap, ..] = &file[at..] else {
        return Err(refusal);
    };
    if !(1..=most).contains(places) || !(1..=15).contains(cap) {
        return Err(refusal);
    }
    let first = file[at + 4..].get(..usize::from(*places)).ok_or(refusal)?;
    if all_within(first, *cap) {
        Ok(at + 4 + first.len())
    } else {
        Err(refusal)
    }
}

// TR and PX: a transition of a net that has `places` places. `count` others came before, and there may be `most` in
// all.
fn read_arcs(file: &[u8], at: usize, most: u8, places: u8, count: u8) -> Result<usize, Misplaced>
    requires { at + 2 ≤ length file.now }
    ensures { Answers (ArcsIs most places count file.now at) (arcs_end file.now at) at result }
{
    let refusal = Misplaced { place: at };
    let label = file.get(at + 2).ok_or(refusal)?;
    if most <= count || 32 <= *label {
        return Err(refusal);
    }
    let outputs = read_list(file, at + 3, places, at)?;
    read_list(file, outputs, places, at)
}

// PR: a pair of numbers below `transitions`, which comes after the last of the pairs so far.
fn read_pr(file: &[u8], at: usize, transitions: u8, pairs: Pairs) -> Result<usize, Misplaced>
    requires { at ≤ length file.now }
    ensures { Answers (PrIs transitions pairs file.now at) (pr_end file.now at) at result }
{
    let refusal = Misplaced { place: at };
    let [_, _, higher, lower, ..] = &file[at..] else {
        return Err(refusal);
    };
    let count = usize::from(pairs.count);
    if 32 <= count || transitions <= *higher || transitions <= *lower {
        return Err(refusal);
    }
    if count == 0 || (pairs.higher[count - 1], pairs.lower[count - 1]) < (*higher, *lower) {
        Ok(at + 4)
    } else {
        Err(refusal)
    }
}

// QF: bounds for each of the pattern's places, none above the pattern's cap. `count` others came before.
fn read_qf(file: &[u8], at: usize, places: u8, cap: u8, count: u8) -> Result<usize, Misplaced>
    requires { at + 2 ≤ length file.now }
    ensures { Answers (QfIs places cap count file.now at) (qf_end places at) at result }
{
    let from = at + 2;
    let places = usize::from(places);
    if count < 8 && 2 * places <= file.len() - from && all_bounded(file, at, places, cap) {
        Ok(from + 2 * places)
    } else {
        Err(Misplaced { place: at })
    }
}

// LG: the log's labels, each of them observable.
fn read_lg(file: &[u8], at: usize, flags: &[u8; 32]) -> Result<usize, Misplaced>
    requires { at + 2 ≤ length file.now }
    ensures { Answers (LgIs flags.now file.now at) (lg_end file.now at) at result }
{
    let refusal = Misplaced { place: at };
    let (count, rest) = file[at + 2..].split_first().ok_or(refusal)?;
    let labels = rest.get(..usize::from(*count)).ok_or(refusal)?;
    if *count <= 40 && all_observed(labels, flags) {
        Ok(at + 3 + labels.len())
    } else {
        Err(refusal)
    }
}

// Reads the record at `at`, whose mark is `mark`, after records that say what `case` holds.
pub fn read_record(file: &[u8], at: usize, mark: Mark, case: &Case) -> Result<usize, Misplaced>
    requires { at + 2 ≤ length file.now }
    ensures { Answers (FieldsAre mark case.now file.now at) (end_at mark case.now file.now at) at result }
{
    match mark {
        Mark::Nt => read_net(file, at, 16),
        Mark::Tr => read_arcs(file, at, 48, case.net.places, case.arcs.count),
        Mark::Pr => read_pr(file, at, case.arcs.count, case.pairs),
        Mark::Ob => read_list(file, at + 2, 32, at),
        Mark::Pt => read_net(file, at, 8),
        Mark::Px => read_arcs(file, at, 16, case.pattern.places, case.links.count),
        Mark::Qf => read_qf(
            file,
            at,
            case.pattern.places,
            case.pattern.cap,
            case.bounds.count,
        ),
        Mark::Lg => read_lg(file, at, &case.observable.flags),
        Mark::En => Ok(at + 2),
    }
}
