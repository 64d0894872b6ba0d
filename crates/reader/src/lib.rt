// The reader of case files. read_case gives the case that a file holds, or refuses it with the place of its first wrong
// record; log_of shows the log's labels where they stand in the file. Every file is taken, of any length. What a right
// file is stands in rack's specs/Layout.antt. The records one by one are left to the crates records and slots.

#![tactic(auto)]

ghost use Rattle.std.specs.Prelude.{◌≡◌};
ghost use Rattle.rack.specs.CaseFileOutcome.{ReaderIs, LogIs};
ghost use Rattle.rack.specs.Layout.{FieldsAre, added};
ghost use Rattle.reader.specs.Answer.{refusal};
ghost use Rattle.reader.specs.RowsFit.{RowsFit};

use rack::{Case, Mark, Outcome, Reading, Refusal};
use records::{Misplaced, mark_at, may_follow, read_record};
use slots::{add_arcs, add_lg, add_net, add_ob, add_pr, add_qf, zero_case};

// Refusal 2 at a place, with the case of all zeros.
fn refused(place: usize) -> Reading
    ensures { result ≡ refusal place }
{
    let refusal = Refusal::Layout(place);
    Reading {
        outcome: Outcome::Refused(refusal.number(), refusal.beside()),
        case: zero_case(),
    }
}

// Adds to the case what a right record says. Each record changes its own part of the case where it stands: nothing
// hands the whole case on, which would keep a copy of it.
fn add(case: &mut Case, mark: Mark, file: &[u8], at: usize)
    requires fields { FieldsAre mark case.old file.now at }
    requires rows { RowsFit case.old }
    ensures { case.new ≡ added mark case.old file.now at }
{
    match mark {
        Mark::Nt => case.net = add_net(file, at),
        Mark::Tr => case.arcs = add_arcs(case.arcs, 16, file, at),
        Mark::Pr => case.pairs = add_pr(case.pairs, file, at),
        Mark::Ob => case.observable = add_ob(file, at),
        Mark::Pt => case.pattern = add_net(file, at),
        Mark::Px => case.links = add_arcs(case.links, 8, file, at),
        Mark::Qf => case.bounds = add_qf(case.bounds, file, at, case.pattern.places),
        Mark::Lg => case.log = add_lg(file, at),
        Mark::En => {}
    }
}

// Reads a file from the left, a record at a time: the case that it holds, or refusal 2 with the place of the first
// wrong record.
pub fn read_case(file: &[u8]) -> Reading
    ensures { ReaderIs file.now result }
{
    let mut case = zero_case();
    let mut last = None;
    let mut at = 0;
    while last != Some(Mark::En) {
        let next = mark_at(file, at);
        let mark = match next {
            Some(mark) if may_follow(last, next) => mark,
            _ => return refused(at),
        };
        let end = match read_record(file, at, mark, &case) {
            Ok(end) => end,
            Err(Misplaced { place }) => return refused(place),
        };
        add(&mut case, mark, file, at);
        last = Some(mark);
        at = end;
    }
    if at < file.len() {
        return refused(at);
    }
    Reading {
        outcome: Outcome::Whole,
        case,
    }
}

// The log's labels, as the stretch of the file that holds them: no copy, so the answer's address is bound too. For a
// file that is refused it is the empty stretch at the file's front.
pub fn log_of(file: &[u8]) -> &[u8]
    ensures { LogIs file.now file.entry.ref_ptr result.now result.ref_ptr }
{
    let reading = read_case(file);
    match reading.outcome {
        Outcome::Whole => {
            let count = usize::from(reading.case.log.count);
            let from = file.len() - (count + 2);
            &file[from..from + count]
        }
        Outcome::Refused(_, _) => {
            let front = 0;
            &file[front..front]
        }
    }
}
