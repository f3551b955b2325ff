//! What a chain comes from besides words that its steps wrote.

ghost use Rattle.std.specs.Prelude.{◌≡◌};
ghost use Rattle.origins.specs.Lines.{same_input, same_origin};

use crate::tally::Tally;
use feed::{Input, Interrupt};
use space::{Bank, Offset};

/// What a step brings into a chain that no step before it wrote.
#[derive(Clone, Copy, PartialEq, Eq, Debug)]
pub enum Origin {
    /// An input that was taken.
    Taken(Input),
    /// The word at a place of fixed memory: a bank, and an offset in it.
    Fixed(Bank, Offset),
}

/// An origin, with the steps of a chain that have it.
#[derive(Clone, Copy, PartialEq, Eq, Debug)]
pub struct OriginLine {
    /// The origin.
    pub origin: Origin,
    /// The steps.
    pub tally: Tally,
}

impl Default for Origin {
    fn default() -> Origin {
        Origin::Taken(Input::Interrupt(Interrupt::new(1)))
    }
}

impl Default for OriginLine {
    fn default() -> OriginLine {
        OriginLine {
            origin: Origin::default(),
            tally: Tally::none(),
        }
    }
}

/// Whether two inputs are one, at whatever cycles they come.
fn is_same_input(one: &Input, other: &Input) -> bool
    ensures { result ≡ same_input one.now other.now }
{
    match *one {
        Input::Count(counter, sequence) => match *other {
            Input::Count(same, like) => counter.place() == same.place() && sequence == like,
            Input::Word(..) => false,
            Input::Interrupt(_) => false,
        },
        Input::Word(channel, word) => match *other {
            Input::Count(..) => false,
            Input::Word(same, like) => channel == same && word == like,
            Input::Interrupt(_) => false,
        },
        Input::Interrupt(interrupt) => match *other {
            Input::Count(..) => false,
            Input::Word(..) => false,
            Input::Interrupt(same) => interrupt == same,
        },
    }
}

/// Whether two origins are one.
pub(crate) fn is_same(one: &Origin, other: &Origin) -> bool
    ensures { result ≡ same_origin one.now other.now }
{
    match *one {
        Origin::Taken(input) => match *other {
            Origin::Taken(same) => is_same_input(&input, &same),
            Origin::Fixed(..) => false,
        },
        Origin::Fixed(bank, offset) => match *other {
            Origin::Taken(_) => false,
            Origin::Fixed(same, place) => bank == same && offset == place,
        },
    }
}
