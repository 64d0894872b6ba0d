// The rack: the case in memory and the answers of every call. What each of them means stands in specs/, beside the
// sentences of document 01. A case keeps one struct for each kind of record; slots that a case does not use hold
// zeros. The only functions here give a mark's row, a refusal's two numbers, and what a refusal answers in two calls.

#![tactic(auto)]

ghost use Rattle.std.specs.Prelude.{◌≡◌};
ghost use Rattle.rack.specs.Marks as marks;
ghost use Rattle.rack.specs.Refused.{number_of, beside_of, judged_of};

// How long the work room of the verdict and of the listing must be: `work_room` in specs/Refusal.antt.
pub const WORK_ROOM: usize = 51200;

// How many pattern markings and how many product markings may be reachable: `pattern_most`, `product_most` in
// specs/Refusal.antt.
pub const PATTERN_MOST: usize = 64;

pub const PRODUCT_MOST: usize = 512;

// The largest limit of the listing: `limit_most` in specs/ListingOutcome.antt.
pub const LIMIT_MOST: usize = 24;

// "The longest file has 2,496 bytes.": `longest_file` in specs/CaseFileOutcome.antt.
pub const LONGEST_FILE: usize = 2496;

// Kept: arrays with a count beside. The project allocates no heap, and `case_of_zeros` and `WellFormed` speak of the
// slots that a case does not use: they hold zeros.

// NT and PT: how many places a net has, its cap, and each place's first tokens. The system has at most 16 places and
// the pattern 8.
#[derive(Clone, Copy, Debug, PartialEq, Eq)]
pub struct Net<const PLACES: usize> {
    pub places: u8,
    pub cap: u8,
    pub first: [u8; PLACES],
}

// TR and PX: the transitions of a net. Row t of pre and of post is as wide as the net may have places, w, and holds 1
// where an arc stands and else 0: pre[t * w + p] says whether place p is an input of transition t, post[t * w + p]
// whether it is an output. The system has at most 48 transitions in 768 cells, rows 16 wide; the pattern 16 in 128,
// rows 8 wide.
#[derive(Clone, Copy, Debug, PartialEq, Eq)]
pub struct Arcs<const TRANSITIONS: usize, const CELLS: usize> {
    pub count: u8,
    pub labels: [u8; TRANSITIONS],
    pub pre: [u8; CELLS],
    pub post: [u8; CELLS],
}

// PR: the priority pairs; pair k says that transition higher[k] is above transition lower[k].
#[derive(Clone, Copy, Debug, PartialEq, Eq)]
pub struct Pairs {
    pub count: u8,
    pub higher: [u8; 32],
    pub lower: [u8; 32],
}

// OB: flags[e] is 1 where label e is observable, else 0.
#[derive(Clone, Copy, Debug, PartialEq, Eq)]
pub struct Observable {
    pub flags: [u8; 32],
}

// QF: bounds g ask of pattern place p that it holds from least[g * 8 + p] up to most[g * 8 + p] tokens.
#[derive(Clone, Copy, Debug, PartialEq, Eq)]
pub struct Bounds {
    pub count: u8,
    pub least: [u8; 64],
    pub most: [u8; 64],
}

// LG: the labels of the log.
#[derive(Clone, Copy, Debug, PartialEq, Eq)]
pub struct Log {
    pub count: u8,
    pub labels: [u8; 40],
}

// A case. The system is net and arcs; the pattern is pattern (its places) and links (its arcs).
#[derive(Clone, Copy, Debug, PartialEq, Eq)]
pub struct Case {
    pub net: Net<16>,
    pub arcs: Arcs<48, 768>,
    pub pairs: Pairs,
    pub observable: Observable,
    pub pattern: Net<8>,
    pub links: Arcs<16, 128>,
    pub bounds: Bounds,
    pub log: Log,
}

// Kept: a type for each net. 01 names one tuple struct for system transition numbers and one for the pattern's.

// The number of a transition of the system, and the number of one of the pattern. Each net counts its own from zero.
#[derive(Clone, Copy, Debug, PartialEq, Eq)]
pub struct SystemTransition(pub usize);

#[derive(Clone, Copy, Debug, PartialEq, Eq)]
pub struct PatternTransition(pub usize);

// The kind of a record, by its mark.
#[derive(Clone, Copy, Debug, PartialEq, Eq)]
pub enum Mark {
    Nt,
    Tr,
    Pr,
    Ob,
    Pt,
    Px,
    Qf,
    Lg,
    En,
}

impl Mark {
    // Its row and its column in the table of marks.
    pub fn number(self) -> usize
        ensures { result ≡ marks.number_of self }
    {
        self as usize
    }
}

// The checks, each with what stands beside its number where that is not 0: the place of the first wrong record, the
// length that is needed.
#[derive(Clone, Copy, Debug, PartialEq, Eq)]
pub enum Refusal {
    WorkRoom,
    Layout(usize),
    Cycle,
    PatternCount,
    PatternCap,
    TwoJoin,
    FinalLeft,
    ProductCount,
    SystemCap,
    Unexplained,
    LentRoom(usize),
    Limit,
    GivenRun,
    Unwritable,
}

impl Refusal {
    // Its number.
    pub fn number(self) -> u8
        ensures { result ≡ number_of self }
    {
        match self {
            Refusal::WorkRoom => 1,
            Refusal::Layout(_) => 2,
            Refusal::Cycle => 3,
            Refusal::PatternCount => 4,
            Refusal::PatternCap => 5,
            Refusal::TwoJoin => 6,
            Refusal::FinalLeft => 7,
            Refusal::ProductCount => 8,
            Refusal::SystemCap => 9,
            Refusal::Unexplained => 10,
            Refusal::LentRoom(_) => 11,
            Refusal::Limit => 12,
            Refusal::GivenRun => 13,
            Refusal::Unwritable => 14,
        }
    }

    // The number beside it.
    pub fn beside(self) -> usize
        ensures { result ≡ beside_of self }
    {
        match self {
            Refusal::Layout(place) => place,
            Refusal::LentRoom(needed) => needed,
            _ => 0,
        }
    }
}

// Kept: the answers of the calls are enums of their own. 01 has the refusal case carry its number and the number beside
// it, and a refused reading hold the case of all zeros (`ReaderIs`, `WriterIs`, `VerdictIs`, `ListingIs`, `ReplayIs`).

// Reader: the file reads as the case, or is refused. A refusal carries its number and the number beside it, here as
// in every other answer.
#[derive(Clone, Copy, Debug, PartialEq, Eq)]
pub enum Outcome {
    Whole,
    Refused(u8, usize),
}

#[derive(Clone, Copy, Debug, PartialEq, Eq)]
pub struct Reading {
    pub outcome: Outcome,
    pub case: Case,
}

// Writer: how many bytes were written, or the refusal.
#[derive(Clone, Copy, Debug, PartialEq, Eq)]
pub enum Written {
    Bytes(usize),
    Refused(u8, usize),
}

impl From<Refusal> for Written {
    ghost use Rattle.std.specs.Prelude.{◌≡◌};
    ghost use Rattle.rack.specs.Refused.{number_of, beside_of};
    ghost use Rattle.rack.specs.declared.Written.TheVariants.{Refused};

    ghost from_gives = { λ r w. w ≡ Refused (number_of r) (beside_of r) };

    fn from(refusal: Refusal) -> Written {
        Written::Refused(refusal.number(), refusal.beside())
    }
}

// Verdict: its kind, and how long the shown runs are.
#[derive(Clone, Copy, Debug, PartialEq, Eq)]
pub enum Verdict {
    Faulty,
    Safe,
    Ambiguous,
    Refused(u8, usize),
}

#[derive(Clone, Copy, Debug, PartialEq, Eq)]
pub struct Judged {
    pub verdict: Verdict,
    pub matching: usize,
    pub other: usize,
}

impl From<Refusal> for Judged {
    ghost from_gives = { λ r j. j ≡ judged_of r };

    fn from(refusal: Refusal) -> Judged {
        Judged {
            verdict: Verdict::Refused(refusal.number(), refusal.beside()),
            matching: 0,
            other: 0,
        }
    }
}

// Listing: an explanation that matches or one that does not, with its length; the end; or the refusal.
#[derive(Clone, Copy, Debug, PartialEq, Eq)]
pub enum Listed {
    Matching(usize),
    Other(usize),
    End,
    Refused(u8, usize),
}

// Replay: why it stopped.
#[derive(Clone, Copy, Debug, PartialEq, Eq)]
pub enum Stop {
    RunEnded,
    BudgetSpent,
    NotFirable,
    CapPassed,
    Refused(u8, usize),
}

// Replay: how many firings were made, the tokens of the system's and of the pattern's places after them, whether that
// is final (what was fired matches), why it stopped, and whether the run explains the log.
#[derive(Clone, Copy, Debug, PartialEq, Eq)]
pub struct Replayed {
    pub fired: usize,
    pub system: [u8; 16],
    pub pattern: [u8; 8],
    pub matches: bool,
    pub stop: Stop,
    pub explains: bool,
}
