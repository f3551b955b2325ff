//! What a test claims of a run.

ghost use Rattle.std.specs.Prelude.{◌≡◌, ◌<ℤ◌, ◌≤◌, ◌<◌, ◌^◌, int_lt, int_le, unsigned_abs};
ghost use Rattle.words.specs.Numbers.{value};
ghost use Rattle.expect.specs.Claims.{holds, related};

use cpu::Machine;
use space::{Chan, Eras, Linear};
use words::Word;

/// How a word has to stand to another.
#[derive(Clone, Copy, PartialEq, Eq, Debug, Drop)]
pub enum Relation {
    /// `=`: it is the same word.
    Same,
    /// `<>`: it is another word.
    Other,
    /// `<`: its number is less.
    Less,
    /// `>`: its number is greater.
    Greater,
    /// `<=`: its number is not greater.
    AtMost,
    /// `>=`: its number is not less.
    AtLeast,
}

/// The word at an erasable place stands so to a word.
#[derive(Clone, Copy, Debug, Drop)]
pub struct Condition {
    /// The place.
    pub place: Eras,
    /// How.
    pub relation: Relation,
    /// The word that it is compared with.
    pub word: Word,
}

/// A word that is put out on a channel, by its number among those of the channel.
#[derive(Clone, Copy, Debug, Drop)]
pub struct Sought {
    /// The channel.
    pub channel: Chan,
    /// How many words come before it on the channel.
    pub before: u64,
    /// The word.
    pub word: Word,
    /// The most cycles that have passed when it is put out.
    pub within: u64,
}

/// A note of a kind, by its number, at a place.
#[derive(Clone, Copy, Debug, Drop)]
pub struct Spot {
    /// The kind.
    pub kind: u64,
    /// The place.
    pub place: Linear,
}

/// How many notes at a place a line lists at most.
pub(crate) const MOST_SPOTS: usize = 8;

/// The notes that a run may have.
#[derive(Clone, Copy, Debug, Drop)]
pub struct Allowed {
    /// Those of some kinds, which have the sum of their numbers, anywhere.
    pub kinds: u64,
    /// How many are listed with a place.
    pub count: usize,
    /// Those, from the first on.
    pub spots: [Option<Spot>; MOST_SPOTS],
}

/// What is claimed of a run of some steps.
#[derive(Clone, Copy, Debug, Drop)]
pub enum Claim {
    /// A word is put out, as that one of its channel, and in time.
    Puts(Sought),
    /// So many words are put out on a channel, and no more.
    PutsNoMore(Chan, u64),
    /// A condition holds after each step.
    Always(Condition),
    /// It holds after no step.
    Never(Condition),
    /// It holds after the last step.
    AtEnd(Condition),
    /// The program comes to a place, and the condition holds each time.
    At(Linear, Condition),
    /// A routine at a place is called so often.
    Calls(Linear, u64),
    /// It is called, and each call takes at most so many cycles.
    CallsWithin(Linear, u64),
    /// The run has no note but those that it may have.
    Notes(Allowed),
    /// `check` tells no error of the source, and no warning.
    Check,
    /// So many instructions of the program are executed, or more.
    Covered(u64),
}

/// A claim, with the test that states it.
#[derive(Clone, Copy, Debug, Drop)]
pub struct Stated {
    /// The number of the test in its text, from 1 on.
    pub test: u64,
    /// The number of its line, from 1 on.
    pub line: u64,
    /// The claim.
    pub claim: Claim,
}

impl Condition {
    /// Whether it holds of a machine.
    pub(crate) fn holds(&self, machine: &Machine) -> bool
        ensures { result ≡ holds self.now machine.now }
    {
        related(self.relation, machine.word(self.place), self.word)
    }
}

/// Whether a word stands so to another.
fn related(relation: Relation, word: Word, other: Word) -> bool
    ensures { result ≡ related relation word other }
{
    match relation {
        Relation::Same => word == other,
        Relation::Other => word != other,
        Relation::Less => value(word) < value(other),
        Relation::Greater => value(other) < value(word),
        Relation::AtMost => value(word) <= value(other),
        Relation::AtLeast => value(other) <= value(word),
    }
}

/// The bit of the sign, and all bits.
const SIGN: u16 = 0o40000;

const ALL_BITS: i32 = 0o77777;

/// The number that a word stands for: 0 for both zeros.
fn value(word: Word) -> i32
    ensures { result ≡ value word }
{
    let bits = word.to_u16();
    if bits < SIGN {
        i32::from(bits)
    } else {
        i32::from(bits) - ALL_BITS
    }
}
