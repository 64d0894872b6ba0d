// A case in memory as it stands in the corpus: the fields of rack::Case one after the other, each byte of each array,
// whether the case uses it or not. 2,153 bytes in this order, the lengths in brackets:
//   net          places (1), cap (1), first tokens (16)
//   arcs         count (1), labels (48), pre (768), post (768)
//   pairs        count (1), higher (32), lower (32)
//   observable   flags (32)
//   pattern      places (1), cap (1), first tokens (8)
//   links        count (1), labels (16), pre (128), post (128)
//   bounds       count (1), least (64), most (64)
//   log          count (1), labels (40)
// Any bytes make a case here. Where the corpus ends too early zeros stand in; the entry's line then tells.
use input::read_full;
use rack::{Arcs, Bounds, Case, Log, Net, Observable, Pairs};
use std::io;
use std::io::Read;

// So many bytes.
fn bytes<const N: usize>(from: &mut impl Read) -> io::Result<[u8; N]> {
    let mut bytes = [0u8; N];
    read_full(from, &mut bytes)?;
    Ok(bytes)
}

// One byte.
fn byte(from: &mut impl Read) -> io::Result<u8> {
    let [byte] = bytes::<1>(from)?;
    Ok(byte)
}

fn net<const PLACES: usize>(from: &mut impl Read) -> io::Result<Net<PLACES>> {
    Ok(Net {
        places: byte(from)?,
        cap: byte(from)?,
        first: bytes(from)?,
    })
}

fn arcs<const TRANSITIONS: usize, const CELLS: usize>(
    from: &mut impl Read,
) -> io::Result<Arcs<TRANSITIONS, CELLS>> {
    Ok(Arcs {
        count: byte(from)?,
        labels: bytes(from)?,
        pre: bytes(from)?,
        post: bytes(from)?,
    })
}

fn pairs(from: &mut impl Read) -> io::Result<Pairs> {
    Ok(Pairs {
        count: byte(from)?,
        higher: bytes(from)?,
        lower: bytes(from)?,
    })
}

fn observable(from: &mut impl Read) -> io::Result<Observable> {
    Ok(Observable {
        flags: bytes(from)?,
    })
}

fn bounds(from: &mut impl Read) -> io::Result<Bounds> {
    Ok(Bounds {
        count: byte(from)?,
        least: bytes(from)?,
        most: bytes(from)?,
    })
}

fn log(from: &mut impl Read) -> io::Result<Log> {
    Ok(Log {
        count: byte(from)?,
        labels: bytes(from)?,
    })
}

// The case that stands next in the corpus.
pub fn case(from: &mut impl Read) -> io::Result<Case> {
    Ok(Case {
        net: net(from)?,
        arcs: arcs(from)?,
        pairs: pairs(from)?,
        observable: observable(from)?,
        pattern: net(from)?,
        links: arcs(from)?,
        bounds: bounds(from)?,
        log: log(from)?,
    })
}
