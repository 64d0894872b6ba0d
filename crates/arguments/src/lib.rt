// The numbers that a program's arguments spell in decimal digits, and how many arguments there are.

#![tactic(auto)]

ghost use Rattle.std.specs.Prelude.{◌≡◌, ◌≤◌, IfSome};
ghost use Rattle.arguments.specs.Numbers.{spelled};

use std::env::{Env, FillError};

// No more digits of an argument are looked at.
const LONGEST: usize = 32;

// The number that decimal digits spell, if there is any and it is at most `most`.
// Kept: `str::parse` takes `+1` too, which `spelled` does not.
fn number(digits: &[u8], most: usize) -> Option<usize>
    ensures { result ≡ spelled digits.now most }
{
    if digits.is_empty() {
        return None;
    }
    let mut value = 0usize;
    for digit in digits {
        if !digit.is_ascii_digit() {
            return None;
        }
        value = value
            .checked_mul(10)?
            .checked_add(usize::from(digit - b'0'))?;
    }
    if value <= most { Some(value) } else { None }
}

// The number that argument i spells, if there is that argument, in at most 32 digits, and it spells one that is at
// most `most`. What the arguments are no contract can say; `number` is proved to read them as `spelled` does.
pub fn argument(rt: &impl Env, i: usize, most: usize) -> Option<usize>
    ensures { IfSome result (λ n. n ≤ most) }
{
    let mut room = [0u8; LONGEST];
    let n = rt.arg(i, &mut room).ok()?;
    number(&room[..n], most)
}

// Whether there is an argument i, of whatever length.
fn stands(rt: &impl Env, i: usize) -> bool {
    let mut room = [0u8; 1];
    !matches!(rt.arg(i, &mut room), Err(FillError::NotPresent))
}

// How many arguments there are, the program's name among them.
pub fn count(rt: &impl Env) -> usize {
    (0..usize::MAX)
        .find(|i| !stands(rt, *i))
        .unwrap_or(usize::MAX)
}
