// A file, what the listing is asked, and the rooms that are lent. Prints the run that it gives and its mark, `end`, or
// the refusal. The room for the run is lent full of 170, the work room full of 255; the line says so if anything beyond
// the run given has changed, or the work room is not all zeros afterwards.
use crate::{FULL, WORK_FULL};
use rack::Listed;
use report::{Listing, first};
use std::io;
use std::io::Read;

// What is asked: the limit, whether after a given run and not from the start, and the lengths of the two rooms.
#[derive(Clone, Copy, Debug, PartialEq, Eq)]
struct Asking {
    limit: usize,
    after: bool,
    room: usize,
    work: usize,
}

// Reads what is asked; none where the corpus ends.
fn asked(from: &mut impl Read) -> io::Result<Option<Asking>> {
    let limit = corpus::number::<3>(from)?;
    let after = corpus::number::<1>(from)?;
    let room = corpus::number::<2>(from)?;
    let work = corpus::number::<3>(from)?;
    let (Some(limit), Some(after), Some(room), Some(work)) = (limit, after, room, work) else {
        return Ok(None);
    };
    Ok(Some(Asking {
        limit,
        after: after == 1,
        room,
        work,
    }))
}

// The line of one entry: after the given run, or from the start where there is none.
fn answer(
    rt: &impl Print,
    file: &[u8],
    limit: usize,
    given: Option<&[u8]>,
    room: &mut [u8],
    work: &mut [u8],
) -> io::Result<()> {
    room.fill(FULL);
    work.fill(WORK_FULL);
    let listed = match given {
        Some(given) => listing::next(file, limit, given, room, work),
        None => listing::first(file, limit, room, work),
    };
    let length = match listed {
        Listed::Matching(n) | Listed::Other(n) => n,
        Listed::End | Listed::Refused(_, _) => 0,
    };
    print!(rt; "{}", Listing { listed, room })?;
    if !corpus::still(room, length, FULL) {
        print!(rt; ", room changed")?;
    }
    if !corpus::still(work, 0, 0) {
        print!(rt; ", work room not zeros")?;
    }
    println!(rt)
}

// Takes an entry: the limit, 1 for a listing after a run and else 0, the lengths of the run's room and of the work
// room, that run, and a file. There is no line where the rooms that are at hand are not so long.
pub fn ask(
    rt: &impl Print,
    from: &mut impl Read,
    file: &mut [u8],
    given: &mut [u8],
    room: &mut [u8],
    work: &mut [u8],
) -> io::Result<()> {
    let Some(asking) = asked(from)? else {
        return Ok(());
    };
    let Some(r) = corpus::part(from, given)? else {
        return Ok(());
    };
    let Some(n) = corpus::part(from, file)? else {
        return Ok(());
    };
    let (Some(room), Some(work)) = (room.get_mut(..asking.room), work.get_mut(..asking.work)) else {
        return Ok(());
    };
    let given = asking.after.then_some(first(given, r));
    answer(rt, first(file, n), asking.limit, given, room, work)
}
