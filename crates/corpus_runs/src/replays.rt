// A file, a run and a budget: the replay. Prints what was fired, the marking reached, whether it is final, why it
// stopped and whether the run explains the log; or the refusal.
use report::{Replay, first};
use std::io;
use std::io::Read;

// The answer for one run. The case is read again for the number of places.
fn answer(rt: &impl Print, file: &[u8], run: &[u8], budget: u16) -> io::Result<()> {
    let case = reader::read_case(file).case;
    let replay = Replay {
        done: retrace::retrace(file, run, budget),
        places: case.net.places,
        pattern_places: case.pattern.places,
        before_marking: "",
        between: " | ",
    };
    println!(rt; "{replay}")
}

// Takes an entry: a budget, a run and a file.
pub fn ask(
    rt: &impl Print,
    from: &mut impl Read,
    run: &mut [u8],
    file: &mut [u8],
) -> io::Result<()> {
    let Some(budget) = corpus::number::<2>(from)? else {
        return Ok(());
    };
    let Some(r) = corpus::part(from, run)? else {
        return Ok(());
    };
    let Some(n) = corpus::part(from, file)? else {
        return Ok(());
    };
    // Kept: `as`. std has no `From` for a narrower type, and `try_from` would answer an error that the proof excludes.
    answer(rt, first(file, n), first(run, r), budget as u16)
}
