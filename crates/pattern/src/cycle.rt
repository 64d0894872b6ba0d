// Refusal 3: "priority pairs close a cycle, a pair of one transition with itself included".
ghost use Rattle.std.specs.Prelude.{◌<◌};
ghost use Rattle.walks.specs.Says.{Says};
ghost use Rattle.rack.specs.Refusal.{PairCycle};
ghost use Rattle.rack.specs.WellFormed.{WellFormed};
ghost use Rattle.pattern.specs.Chains.{Down};
ghost use Rattle.pattern.specs.Outcome.{OpenSays};

use plan::Plan;
use rack::SystemTransition;

// A transition that is to be marked next: a pair leads to it from a marked one, and it has no mark yet.
fn open_pair(marks: &[bool; 48], plan: &Plan) -> Option<SystemTransition>
    requires { WellFormed plan.now }
    ensures { OpenSays plan.now marks.now result }
{
    for k in 0..plan.pairs() {
        let under = plan.lower(k);
        if marks[plan.higher(k).0] && !marks[under.0] {
            return Some(under);
        }
    }
    None
}

// Whether a chain of pairs, perhaps of none, leads from one transition down to another: marks spread from the one along
// the pairs until no pair leads from a marked transition to one that is not.
fn leads_down(from: SystemTransition, goal: SystemTransition, plan: &Plan) -> bool
    requires well_formed { WellFormed plan.now }
    requires from_bound { (from.0 < 48) × (goal.0 < 48) }
    ensures { Says result (Down plan.now from.0 goal.0) }
{
    let mut marks = [false; 48];
    marks[from.0] = true;
    while let Some(t) = open_pair(&marks, plan) {
        marks[t.0] = true;
    }
    marks[goal.0]
}

// Whether some pair's lower transition leads back to its higher one. Every pair is tried: a cycle of more pairs would
// show from any other of them too, but a pair of one transition with itself shows only from that pair.
pub fn has_cycle(plan: &Plan) -> bool
    requires { WellFormed plan.now }
    ensures { Says result (PairCycle plan.now) }
{
    (0..plan.pairs()).any(|pair| leads_down(plan.lower(pair), plan.higher(pair), plan))
}
