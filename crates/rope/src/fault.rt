//! Why a rope can't be made.

ghost use Rattle.std.specs.Prelude.{◌≡◌, ◌++◌, Some, codes, decimal};
ghost use Rattle.rope.specs.Faults.{number_of};

use std::fmt;

/// Why a rope can't be made.
#[derive(Clone, Copy, PartialEq, Eq, Debug, Drop)]
pub enum RopeFault {
    /// There was no memory for it.
    NoMemory,
    /// An image ends before its 73,728 bytes.
    Short,
    /// A byte stands after the 73,728 of an image.
    Long,
    /// In an image of version 1 the low byte of a word, at this place among its bytes, is odd.
    LowBit(u32),
    /// In an image of version 2 the two bytes of a word, the low one at this place, have an even number of one bits.
    BadParity(u32),
    /// A read failed.
    ReadFailed,
}

impl RopeFault {
    /// The number that the fault is told by.
    pub fn number(self) -> u8
        ensures { result ≡ number_of self }
    {
        match self {
            RopeFault::NoMemory => 2,
            RopeFault::Short => 3,
            RopeFault::Long => 4,
            RopeFault::LowBit(_) | RopeFault::BadParity(_) => 5,
            RopeFault::ReadFailed => 6,
        }
    }
}

impl fmt::Display for RopeFault {
    ghost output = { λ fault. Some (codes "E" ++ decimal (number_of fault)) };

    fn fmt<W: fmt::Write>(&self, f: &mut fmt::Formatter<W>) -> fmt::Result {
        write!(f, "E{}", self.number())
    }
}

impl std::error::Error for RopeFault {}
