//! Why a source is not joined.

use crate::place::Place;
use std::alloc::AllocError;

/// Why a file that a line stands for is not read.
#[derive(Clone, Copy, PartialEq, Eq, Debug, Drop)]
pub enum Why {
    /// Its name is not one of a file in the folder of the source or below it.
    Outside,
    /// It is being read.
    Loop,
    /// Too many files stand within one another.
    TooDeep,
    /// It is not there.
    Missing,
    /// All files have too many bytes together.
    TooLarge,
}

/// A line that stands for a file which is not read.
#[derive(Clone, Copy, PartialEq, Eq, Debug, Drop)]
pub struct Refusal {
    /// The line.
    pub place: Place,
    /// Why.
    pub why: Why,
}

/// Why a source is not joined.
#[derive(Clone, Copy, PartialEq, Eq, Debug, Drop)]
pub enum Unjoined {
    /// A growth of memory was refused.
    NoMemory,
    /// A line stands for a file that is not read.
    Refused(Refusal),
}

impl From<AllocError> for Unjoined {
    ghost use Rattle.included.specs.declared.refusal.Unjoined.{Unjoined};
    ghost use Rattle.std.specs.Prelude.{◌≡◌};

    ghost from_gives = { λ _ e. e ≡ Unjoined.NoMemory };

    fn from(_: AllocError) -> Unjoined {
        Unjoined::NoMemory
    }
}
