// Giving a run that has been found, and the test of a given run.
ghost use Rattle.walks.specs.Says.{Says};
ghost use Rattle.listing.specs.Asking.{listed_of};
ghost use Rattle.listing.specs.Giving.{GiveSays, Short, GoodRun};

use rack::{LIMIT_MOST, Listed, Refusal};
use seek::Sought;

// The answer for what was found: the run is written to the front of the room where it fits.
pub fn give(
    sought: Option<Sought>,
    run: &[u8; LIMIT_MOST],
    room: &mut [u8],
) -> Result<Listed, Refusal>
    requires { Short sought }
    ensures { GiveSays run.now room.old sought (listed_of result) room.new }
{
    let Some(Sought { long, matching }) = sought else {
        return Ok(Listed::End);
    };
    if room.len() < long {
        return Err(Refusal::LentRoom(long));
    }
    room[..long].copy_from_slice(&run[..long]);
    if matching {
        Ok(Listed::Matching(long))
    } else {
        Ok(Listed::Other(long))
    }
}

// Whether a given run is within the limit and holds numbers of transitions only.
pub fn is_good(given: &[u8], limit: usize, transitions: usize) -> bool
    ensures { Says result (GoodRun given.now limit transitions) }
{
    given.len() <= limit && given.iter().all(|t| usize::from(*t) < transitions)
}
