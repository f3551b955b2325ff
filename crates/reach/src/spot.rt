//! Words of fixed memory, and how they are come to.

ghost use Rattle.std.specs.Prelude.{◌≡◌, ◌<◌, ◌≤◌};
ghost use Rattle.reach.specs.Marks.{IsSpot, how_number, number, spots};

use space::{Addr12, Bank};

/// How a word is come to.
#[derive(Clone, Copy, PartialEq, Eq, Debug)]
pub enum How {
    /// It is executed: whether under extracode, and whether INDEX left a sum for it.
    Executes(bool, bool),
    /// An instruction reads it.
    Reads,
}

/// A word of fixed memory, and how it is come to.
#[derive(Clone, Copy, PartialEq, Eq, Debug)]
pub struct Spot {
    /// Its bank.
    pub bank: Bank,
    /// The address at which it is come to, from 02000 on.
    pub address: Addr12,
    /// How it is.
    pub how: How,
}

/// How many addresses of 12 bits there are.
const ADDRESSES: usize = 0o10000;

/// How many ways there are to come to a word.
const WAYS: usize = 5;

/// How many spots there are.
pub(crate) const SPOTS: usize = 0o50 * ADDRESSES * WAYS;

impl Spot {
    /// Its number.
    pub(crate) fn number(self) -> usize
        ensures value { result ≡ number self }
        ensures within { result < spots }
        ensures is { IsSpot self }
    {
        let place = usize::from(self.bank.number()) * ADDRESSES
            + usize::from(self.address.number());
        place * WAYS + self.how.number()
    }
}

impl How {
    /// Its number.
    fn number(self) -> usize
        ensures value { result ≡ how_number self }
        ensures within { result ≤ 4 }
    {
        match self {
            How::Executes(false, false) => 0,
            How::Executes(true, false) => 1,
            How::Executes(false, true) => 2,
            How::Executes(true, true) => 3,
            How::Reads => 4,
        }
    }
}

impl Default for Spot {
    fn default() -> Spot {
        Spot {
            bank: Bank::try_new(0).unwrap(),
            address: Addr12::of_low_bits(0),
            how: How::Reads,
        }
    }
}
