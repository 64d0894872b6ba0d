// The bytes of a file, put at its end one after the other. The functions of module kinds put all records of one kind.
// What the bytes are stands in rack's specs/Writing.antt.

#![tactic(auto)]

mod kinds;

ghost use Rattle.std.specs.Prelude.{◌≡◌, ◌++◌, ◌+◌, ◌≤◌, ◌<◌, length};
ghost use Rattle.arrayvec.specs.ArrayVec.{array_vec_len, Extends};
ghost use Rattle.rack.specs.Writing.{row_bytes};

use arrayvec::ArrayVec;
pub use kinds::{push_arcs, push_lg, push_net, push_ob, push_pr, push_qf};

// Puts some bytes.
pub fn push_bytes<const N: usize>(file: &mut ArrayVec<u8, N>, bytes: &[u8])
    requires { array_vec_len file.old + length bytes.now ≤ N }
    ensures { Extends file.old bytes.now file.new }
{
    file.try_extend_from_slice(bytes).unwrap();
}

// Puts those of a row's places that hold 1, with their count before them.
pub fn push_row<const N: usize>(file: &mut ArrayVec<u8, N>, row: &[u8])
    requires narrow { length row.now < 256 }
    requires fits { array_vec_len file.old + 1 + length row.now ≤ N }
    ensures { Extends file.old (row_bytes row.now 0 (length row.now)) file.new }
{
    // Kept: `as`. std has no `From` for a narrower type, and that it fits is proved.
    file.push(row.iter().filter(|x| **x == 1).count() as u8);
    for (p, x) in row.iter().enumerate() {
        if *x == 1 {
            file.push(p as u8);
        }
    }
}
