// Replay: fires the numbers of a given run one by one, from the initial marking of the case in a file, and says how
// many it fired, what it reached and why it stopped. A run of any length and every budget from 0 to 65,535 are taken;
// no room is lent. What the answer is stands in rack's specs/Replay.antt and specs/ReplayOutcome.antt.

#![tactic(auto)]

ghost use Rattle.std.specs.Prelude.{◌≡◌};
ghost use Rattle.rack.specs.Refusal.{PatternOver};
ghost use Rattle.rack.specs.Refused.{number_of, beside_of};
ghost use Rattle.rack.specs.WellFormed.{WellFormed};
ghost use Rattle.rack.specs.ReplayOutcome.{ReplayIs, replay_of, replay_refused};

use crate::firing::fire;
use engine::Product;
use plan::{PLAN, Plan};
use rack::{Outcome, Refusal, Replayed, Stop};

mod firing; // firing.rt: the firings, one after the other

// What the firings of a run came to: how many they were, the marking after them, the position in the log, if they kept
// to it, and why there was no other.
#[derive(Clone, Copy, Debug, PartialEq, Eq)]
struct Fired {
    pub fired: usize,
    pub marking: Product,
    pub at: Option<usize>,
    pub stop: Stop,
}

// A refused replay: it fired none, and gives zeros and "no".
fn refused(refusal: Refusal) -> Replayed
    ensures { result ≡ replay_refused (number_of refusal) (beside_of refusal) }
{
    Replayed {
        fired: 0,
        system: [0; 16],
        pattern: [0; 8],
        matches: false,
        stop: Stop::Refused(refusal.number(), refusal.beside()),
        explains: false,
    }
}

// Replays a run on a case whose nets have passed the checks.
fn replay(plan: &Plan, run: &[u8], budget: u16) -> Replayed
    requires well_formed { WellFormed plan.now }
    requires fact { PatternOver plan.now → ⊥ }
    ensures { result ≡ replay_of plan.now run.now budget }
{
    let done = fire(plan, run, usize::from(budget));
    let explains = done.fired == run.len() && done.at.is_some_and(|at| at == plan.events());
    Replayed {
        fired: done.fired,
        system: done.marking.system.tokens(),
        pattern: done.marking.pattern.tokens(),
        matches: engine::is_final(plan, done.marking.pattern),
        stop: done.stop,
        explains,
    }
}

// Replays a run on the case of a file, firing at most `budget` transitions; or refuses by the first of the checks 2 to
// 7 that speaks. The plan of the case is made once; the checks and the firings are lent it.
pub fn retrace(file: &[u8], run: &[u8], budget: u16) -> Replayed
    ensures { ReplayIs file.now run.now budget result }
{
    let reading = reader::read_case(file);
    match reading.outcome {
        Outcome::Refused(_, place) => refused(Refusal::Layout(place)),
        Outcome::Whole => {
            let mut plan = Plan::from([0; PLAN]);
            plan.hold(&reading.case);
            match pattern::check_pattern(&plan) {
                Err(refusal) => refused(refusal),
                Ok(()) => replay(&plan, run, budget),
            }
        }
    }
}
