// A file and the rooms that are lent: the verdict. Prints its word and the shown runs, or the refusal. The rooms for
// runs are lent full of 170, the work room full of 255; the line says so if anything beyond the shown runs has
// changed, or the work room is not all zeros afterwards.
use crate::{FULL, WORK_FULL};
use report::{Judgement, first};
use std::io;
use std::io::Read;

// The lengths of the rooms that are lent.
#[derive(Clone, Copy, Debug, PartialEq, Eq)]
struct Asking {
    matching: usize,
    other: usize,
    work: usize,
}

// Reads the lengths of the rooms; none where the corpus ends.
fn asked(from: &mut impl Read) -> io::Result<Option<Asking>> {
    let matching = corpus::number::<2>(from)?;
    let other = corpus::number::<2>(from)?;
    let work = corpus::number::<3>(from)?;
    let (Some(matching), Some(other), Some(work)) = (matching, other, work) else {
        return Ok(None);
    };
    Ok(Some(Asking {
        matching,
        other,
        work,
    }))
}

// The line of one entry.
fn answer(
    rt: &impl Print,
    file: &[u8],
    matching: &mut [u8],
    other: &mut [u8],
    work: &mut [u8],
) -> io::Result<()> {
    matching.fill(FULL);
    other.fill(FULL);
    work.fill(WORK_FULL);
    let judged = judge::judge(file, matching, other, work);
    let judgement = Judgement {
        judged,
        matching,
        other,
        between: " ",
    };
    print!(rt; "{judgement}")?;
    if !corpus::still(matching, judged.matching, FULL) {
        print!(rt; ", matching room changed")?;
    }
    if !corpus::still(other, judged.other, FULL) {
        print!(rt; ", other room changed")?;
    }
    if !corpus::still(work, 0, 0) {
        print!(rt; ", work room not zeros")?;
    }
    println!(rt)
}

// Takes an entry: the lengths of the matching run's room, of the other run's and of the work room, and a file. There is
// no line where the rooms that are at hand are not so long.
pub fn ask(
    rt: &impl Print,
    from: &mut impl Read,
    file: &mut [u8],
    matching: &mut [u8],
    other: &mut [u8],
    work: &mut [u8],
) -> io::Result<()> {
    let Some(asking) = asked(from)? else {
        return Ok(());
    };
    let Some(n) = corpus::part(from, file)? else {
        return Ok(());
    };
    let (Some(matching), Some(other), Some(work)) = (
        matching.get_mut(..asking.matching),
        other.get_mut(..asking.other),
        work.get_mut(..asking.work),
    ) else {
        return Ok(());
    };
    answer(rt, first(file, n), matching, other, work)
}
