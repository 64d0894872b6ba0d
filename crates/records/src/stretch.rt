// Stretches of a file: the tests that a record's bytes have to pass.
ghost use Rattle.std.specs.Prelude.{◌≡◌, ◌+◌, ◌*◌, ◌≤◌, length};
ghost use Rattle.walks.specs.Below.{all_below, every};
ghost use Rattle.rack.specs.Bytes.{at_most, rising, list_end, ListIs};
ghost use Rattle.rack.specs.Records.{bounds, observed};
ghost use Rattle.records.specs.Answer.{Answers};

use crate::Misplaced;

// Whether each of the bytes is at most `cap`.
pub fn all_within(bytes: &[u8], cap: u8) -> bool
    ensures { result ≡ every (at_most cap) bytes.now }
{
    bytes.iter().all(|&byte| byte <= cap)
}

// Whether each of the labels is observable.
pub fn all_observed(labels: &[u8], flags: &[u8; 32]) -> bool
    ensures { result ≡ every (observed flags.now) labels.now }
{
    labels
        .iter()
        .all(|&label| label < 32 && flags[usize::from(label)] == 1)
}

// Whether the bounds of the QF record at `at` are in order for each of the places: least at most most, most at most
// `cap`.
pub fn all_bounded(file: &[u8], at: usize, places: usize, cap: u8) -> bool
    requires { at + 2 + 2 * places ≤ length file.now }
    ensures { result ≡ all_below places (bounds file.now at cap) }
{
    (0..places).all(|p| {
        let (least, most) = (file[at + 2 + 2 * p], file[at + 3 + 2 * p]);
        least <= most && most <= cap
    })
}

// Whether the numbers rise strictly, each below `bound`.
fn all_rising(numbers: &[u8], bound: u8) -> bool
    ensures { result ≡ rising 0 bound numbers.now }
{
    let mut low = 0;
    for number in numbers {
        if usize::from(*number) < low || bound <= *number {
            return false;
        }
        low = usize::from(*number) + 1;
    }
    true
}

// Reads the counted list at `at`, whose numbers have to rise strictly, each below `bound`. A list that is not so is
// refused at `place`.
pub fn read_list(file: &[u8], at: usize, bound: u8, place: usize) -> Result<usize, Misplaced>
    requires { at ≤ length file.now }
    ensures { Answers (ListIs bound file.now at) (list_end file.now at) place result }
{
    let refusal = Misplaced { place };
    let (count, rest) = file[at..].split_first().ok_or(refusal)?;
    let numbers = rest.get(..usize::from(*count)).ok_or(refusal)?;
    if all_rising(numbers, bound) {
        Ok(at + 1 + numbers.len())
    } else {
        Err(refusal)
    }
}
