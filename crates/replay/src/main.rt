// replay BUDGET N N ..: reads a case file on standard input, fires the given numbers on it, at most BUDGET of them, and
// prints how many it fired, the marking then reached, whether that is final, why it stopped, and whether the run
// explains the log, each on a line; or one line that says why it is refused. It keeps one byte more than the longest
// file has. BUDGET is 0 to 65535 and each N 0 to 255, in at most 32 decimal digits; there are at most 65,536 of the N,
// which is more than any budget. Any other call gets one line on standard error.

#![tactic(auto)]

ghost use Rattle.std.specs.Prelude.{◌≤◌, length};

use arguments::argument;
use rack::LONGEST_FILE;
use report::Replay;
use std::env::Env;
use std::io;

// How many of the N a call has at most.
const MOST: usize = 65536;

// How to call the program.
fn usage(rt: &impl Eprint) -> io::Result<()> {
    let call = "usage: replay BUDGET N .., with a case file on standard input";
    let bounds = "BUDGET 0 to 65535, each N 0 to 255, at most 65536 of them";
    eprintln!(rt; "{call}; {bounds}")
}

// Puts the numbers of the arguments from the second on into the run, or answers none where one of them is no number.
fn take_run(rt: &impl Env, run: &mut [u8]) -> Option<()>
    requires { length run.old ≤ 65536 }
{
    for (i, number) in run.iter_mut().enumerate() {
        // Kept: `as`. std has no `From` for a narrower type, and that it fits is proved.
        *number = argument(rt, i + 2, 255)? as u8;
    }
    Some(())
}

// Replays the run on the case of a file. The case is read again for the number of places. It has a stack frame of its
// own, so that a wrong call, which gets one line, takes no room for it.
#[inline(never)]
fn answer(rt: &impl Print, file: &[u8], run: &[u8], budget: u16) -> io::Result<()> {
    let case = reader::read_case(file).case;
    let replay = Replay {
        done: retrace::retrace(file, run, budget),
        places: case.net.places,
        pattern_places: case.pattern.places,
        before_marking: "marking ",
        between: "\n",
    };
    println!(rt; "{replay}")
}

fn main(rt: HostRuntime) -> io::Result<()> {
    // The program's name, BUDGET and the N.
    let count = match arguments::count(&rt) {
        n @ 2..=65538 => n - 2,
        _ => return usage(&rt),
    };
    let Some(budget) = argument(&rt, 1, 65535) else {
        return usage(&rt);
    };
    let mut run = [0u8; MOST];
    if take_run(&rt, &mut run[..count]).is_none() {
        return usage(&rt);
    }
    let mut file = [0u8; LONGEST_FILE + 1];
    let n = input::read_full(&mut rt.stdin(), &mut file)?;
    // Kept: `as`. std has no `From` for a narrower type, and that it fits is proved.
    answer(&rt, &file[..n], &run[..count], budget as u16)
}
