// How the programs take their input: all of it, or as much as a room has place for.

#![tactic(auto)]

ghost use Rattle.std.specs.Prelude.{◌≡◌, ◌≤◌, length, IfOk, OnErr};

use std::io;
use std::io::Read;

// Reads until the room is full or the reader ends, and answers how many bytes stand at the front of the room then.
// Where a read fails, what it has read so far stays there.
// Kept: `read_exact` is an error where the reader ends early, and does not say how much it has read by then.
pub fn read_full<R: Read>(from: &mut R, room: &mut [u8]) -> io::Result<usize>
    ensures ok { IfOk result (λ n. n ≤ length room.new) }
    ensures err { OnErr result (length room.new ≡ length room.old) }
{
    let mut done = 0;
    while done < room.len() {
        let n = from.read(&mut room[done..])?;
        if n == 0 {
            break;
        }
        done += n;
    }
    Ok(done)
}
