// Reads a corpus: numbers, the low byte first, and parts, each with its length in three bytes before it. The second
// program writes the corpus, and what it says of each entry. Beside that: looking whether a room still holds the byte
// that it was filled with. What is read no contract can say: it comes from outside. The contracts fix the range of
// what is read, and all that `still` does.

#![tactic(auto)]

ghost use Rattle.std.specs.Prelude.{◌≡◌, ◌<◌, ◌≤◌, ◌^◌, length, IfOk, IfSome, OnErr};
ghost use Rattle.walks.specs.Says.{Says};
ghost use Rattle.corpus.specs.Takes.{ReadSays};
ghost use Rattle.corpus.specs.Rooms.{Still};

use input::read_full;
use std::fs::File;
use std::io;
use std::io::Read;
use std::rt::Files;

// Opens the corpus of the program that is run.
pub fn open<R: Files>(rt: &R) -> io::Result<R::File> {
    File::open(rt, "corpus")
}

// The number that bytes hold.
fn held(bytes: &[u8]) -> usize
    requires { length bytes.now ≤ 8 }
    ensures { result < 256 ^ length bytes.now }
{
    let mut n = 0;
    for byte in bytes.iter().rev() {
        n = n * 256 + usize::from(*byte);
    }
    n
}

// A number of so many bytes, or none where the corpus ends.
pub fn number<const BYTES: usize>(from: &mut impl Read) -> io::Result<Option<usize>>
    requires { BYTES ≤ 8 }
    ensures { IfOk result (ReadSays (256 ^ BYTES)) }
{
    let mut bytes = [0u8; BYTES];
    if read_full(from, &mut bytes)? < BYTES {
        return Ok(None);
    }
    Ok(Some(held(&bytes)))
}

// The next part, with its length in three bytes before it. A part that is longer than the room ends the corpus.
pub fn part(from: &mut impl Read, room: &mut [u8]) -> io::Result<Option<usize>>
    ensures ok { IfOk result (λ part. IfSome part (λ n. n ≤ length room.new)) }
    ensures err { OnErr result (length room.new ≡ length room.old) }
{
    let Some(n) = number::<3>(from)? else {
        return Ok(None);
    };
    if room.len() < n || read_full(from, &mut room[..n])? < n {
        return Ok(None);
    }
    Ok(Some(n))
}

// Whether every byte of a room from `from` on is v.
pub fn still(room: &[u8], from: usize, v: u8) -> bool
    ensures { Says result (Still room.now from v) }
{
    room.iter().skip(from).all(|byte| *byte == v)
}
