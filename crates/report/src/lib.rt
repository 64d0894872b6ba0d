// How the programs print their answers: each is a struct that implements Display, with no line end. What it is printed
// as stands in specs/Texts.antt.

#![tactic(auto)]

ghost use Rattle.std.specs.Prelude.{◌≡◌, Some, take, if◌then◌else◌};
ghost use Rattle.rack.specs.Refused.{number_of, beside_of};
ghost use Rattle.report.specs.Texts.{refused_text, run_text, tokens_text};
ghost use Rattle.report.specs.Texts.{judgement_text, listing_text, made_text, replay_text};

use rack::{Judged, Listed, Refusal, Replayed, Stop, Verdict};
use std::fmt;

// The first n bytes of a slice, or all of it where it has fewer.
pub fn first(bytes: &[u8], n: usize) -> &[u8]
    ensures { result.now ≡ take n bytes.now }
{
    &bytes[..n.min(bytes.len())]
}

// A refusal: its number and the number beside it.
#[derive(Clone, Copy, Debug, PartialEq, Eq)]
pub struct Refused(pub u8, pub usize);

impl From<Refusal> for Refused {
    ghost from_gives = { λ r s. s ≡ record { 0 = number_of r; 1 = beside_of r } };

    fn from(refusal: Refusal) -> Refused {
        Refused(refusal.number(), refusal.beside())
    }
}

impl fmt::Display for Refused {
    ghost output = { λ r. Some (refused_text r.0 r.1) };

    fn fmt<W: fmt::Write>(&self, f: &mut fmt::Formatter<W>) -> fmt::Result {
        write!(f, "refused {} {}", self.0, self.1)
    }
}

// A run: its length, then its numbers, each with a blank before it.
#[derive(Clone, Copy, Debug, PartialEq, Eq)]
pub struct Run<'a>(pub &'a [u8]);

impl<'a> fmt::Display for Run<'a> {
    ghost output = { λ r. Some (run_text r.0.now) };

    fn fmt<W: fmt::Write>(&self, f: &mut fmt::Formatter<W>) -> fmt::Result {
        write!(f, "{}", self.0.len())?;
        for number in self.0 {
            write!(f, " {number}")?;
        }
        Ok(())
    }
}

// Counts of tokens with a blank between each two.
#[derive(Clone, Copy, Debug, PartialEq, Eq)]
pub struct Tokens<'a>(pub &'a [u8]);

impl<'a> fmt::Display for Tokens<'a> {
    ghost output = { λ t. Some (tokens_text t.0.now) };

    fn fmt<W: fmt::Write>(&self, f: &mut fmt::Formatter<W>) -> fmt::Result {
        if let Some((count, rest)) = self.0.split_first() {
            write!(f, "{count}")?;
            for count in rest {
                write!(f, " {count}")?;
            }
        }
        Ok(())
    }
}

// A verdict: its word and the shown runs, F (matching) or C (other), with a text before each. The runs stand at the
// front of their rooms.
#[derive(Clone, Copy, Debug, PartialEq, Eq)]
pub struct Judgement<'a> {
    pub judged: Judged,
    pub matching: &'a [u8],
    pub other: &'a [u8],
    pub between: &'a str,
}

impl<'a> fmt::Display for Judgement<'a> {
    ghost output = { λ j. Some (judgement_text j) };

    fn fmt<W: fmt::Write>(&self, f: &mut fmt::Formatter<W>) -> fmt::Result {
        let between = self.between;
        let matching = Run(first(self.matching, self.judged.matching));
        let other = Run(first(self.other, self.judged.other));
        match self.judged.verdict {
            Verdict::Faulty => write!(f, "faulty{between}F {matching}"),
            Verdict::Safe => write!(f, "safe{between}C {other}"),
            Verdict::Ambiguous => {
                write!(f, "ambiguous{between}F {matching}")?;
                write!(f, "{between}C {other}")
            }
            Verdict::Refused(number, beside) => Refused(number, beside).fmt(f),
        }
    }
}

// An answer of the listing: F (matching) or C (other) and the run, which stands at the front of the room; or the end.
#[derive(Clone, Copy, Debug, PartialEq, Eq)]
pub struct Listing<'a> {
    pub listed: Listed,
    pub room: &'a [u8],
}

impl<'a> fmt::Display for Listing<'a> {
    ghost output = { λ l. Some (listing_text l) };

    fn fmt<W: fmt::Write>(&self, f: &mut fmt::Formatter<W>) -> fmt::Result {
        match self.listed {
            Listed::Matching(n) => write!(f, "F {}", Run(first(self.room, n))),
            Listed::Other(n) => write!(f, "C {}", Run(first(self.room, n))),
            Listed::End => write!(f, "end"),
            Listed::Refused(number, beside) => Refused(number, beside).fmt(f),
        }
    }
}

// A replay on a case whose nets have so many places, or its refusal: how many numbers it fired, the marking with a text
// before it, whether that is final, why it stopped, and whether the run explains the log, with a text between them.
#[derive(Clone, Copy, Debug, PartialEq, Eq)]
pub struct Replay<'a> {
    pub done: Replayed,
    pub places: u8,
    pub pattern_places: u8,
    pub before_marking: &'a str,
    pub between: &'a str,
}

// One of two texts.
fn either(first_one: bool, one: &'static str, other: &'static str) -> &'static str
    ensures { result.now ≡ (if first_one then one.now else other.now) }
{
    if first_one { one } else { other }
}

// A replay that was made, and why it stopped.
#[derive(Clone, Copy, Debug, PartialEq, Eq)]
struct Made<'a>(Replay<'a>, &'a str);

impl<'a> fmt::Display for Made<'a> {
    ghost output = { λ m. Some (made_text m.0 m.1.now) };

    fn fmt<W: fmt::Write>(&self, f: &mut fmt::Formatter<W>) -> fmt::Result {
        let Made(replay, why) = *self;
        let Replay {
            done,
            places,
            pattern_places,
            before_marking,
            between,
        } = replay;
        let fired = done.fired;
        let system = Tokens(first(&done.system, usize::from(places)));
        let pattern = Tokens(first(&done.pattern, usize::from(pattern_places)));
        let matches = either(done.matches, "final", "not final");
        let explains = either(done.explains, "explains", "no");
        write!(
            f,
            "fired {fired}{between}{before_marking}{system} | {pattern}"
        )?;
        write!(f, "{between}{matches}{between}{why}{between}{explains}")
    }
}

impl<'a> fmt::Display for Replay<'a> {
    ghost output = { λ r. Some (replay_text r) };

    fn fmt<W: fmt::Write>(&self, f: &mut fmt::Formatter<W>) -> fmt::Result {
        match self.done.stop {
            Stop::RunEnded => Made(*self, "run ended").fmt(f),
            Stop::BudgetSpent => Made(*self, "budget spent").fmt(f),
            Stop::NotFirable => Made(*self, "not firable").fmt(f),
            Stop::CapPassed => Made(*self, "cap passed").fmt(f),
            Stop::Refused(number, beside) => Refused(number, beside).fmt(f),
        }
    }
}
