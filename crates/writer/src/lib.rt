// The writer of case files. write_case puts the bytes of a case into a lent room, or refuses: 14 for a case that no
// file reads as, and 11, with the length that is needed, for a room that is too short. What it writes is read back
// first, so that no other case is ever written. The bytes of a case stand in rack's specs/Writing.antt; that reading
// and writing undo each other, in proofs/RoundTrip.antt.

#![tactic(auto)]

ghost use Rattle.std.specs.Prelude.{◌≡◌};
ghost use Rattle.rack.specs.Layout.{ReadsAs};
ghost use Rattle.rack.specs.Writing.{bytes_of};
ghost use Rattle.rack.specs.CaseFileOutcome.{WriterIs};
ghost use Rattle.spelling.specs.Limits.{Limits};
ghost use Rattle.walks.specs.Says.{Says};

use arrayvec::ArrayVec;
use pieces::{push_arcs, push_bytes, push_lg, push_net, push_ob, push_pr, push_qf};
use rack::{Case, LONGEST_FILE, Outcome, Refusal, Written};
use reader::read_case;

// Whether the counts of a case are within the limits.
fn within_limits(c: &Case) -> bool
    ensures { Says result (Limits c.now) }
{
    c.net.places <= 16
        && c.arcs.count <= 48
        && c.pairs.count <= 32
        && c.pattern.places <= 8
        && c.links.count <= 16
        && c.bounds.count <= 8
        && c.log.count <= 40
}

// The file of a case: all its records, in the table's order.
fn file_of(c: &Case) -> ArrayVec<u8, LONGEST_FILE>
    requires { Limits c.now }
    ensures { result.items ≡ bytes_of c.now }
{
    let mut file = ArrayVec::new();
    push_net(&mut file, b"NT", &c.net);
    push_arcs(&mut file, b"TR", &c.arcs, 16);
    push_pr(&mut file, &c.pairs);
    push_ob(&mut file, &c.observable);
    push_net(&mut file, b"PT", &c.pattern);
    push_arcs(&mut file, b"PX", &c.links, 8);
    push_qf(&mut file, &c.bounds, c.pattern.places);
    push_lg(&mut file, &c.log);
    push_bytes(&mut file, b"EN");
    file
}

// Whether two cases are the same.
// Kept: `reading.case == *c` in `reads_as` is not proved: `search` meets all that is known of the reading, and stops.
fn same_case(a: &Case, b: &Case) -> bool
    ensures { Says result (a.now ≡ b.now) }
{
    a == b
}

// Whether a file reads as the case c.
fn reads_as(file: &[u8], c: &Case) -> bool
    ensures { Says result (ReadsAs file.now c.now) }
{
    let reading = read_case(file);
    match reading.outcome {
        Outcome::Whole => same_case(&reading.case, c),
        Outcome::Refused(_, _) => false,
    }
}

// Writes the file of a case to the front of room, and answers its length. The file is made in a room of its own and
// read back before the lent room is touched: a refusal leaves room as it was, and else only the file's bytes change.
pub fn write_case(room: &mut [u8], c: Case) -> Written
    ensures { WriterIs c room.old result room.new }
{
    if !within_limits(&c) {
        return Written::from(Refusal::Unwritable);
    }
    let file = file_of(&c);
    let bytes = file.as_slice();
    if !reads_as(bytes, &c) {
        return Written::from(Refusal::Unwritable);
    }
    let length = bytes.len();
    if room.len() < length {
        return Written::from(Refusal::LentRoom(length));
    }
    room[..length].copy_from_slice(bytes);
    Written::Bytes(length)
}
