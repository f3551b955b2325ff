//! How often a way may come to a place.

ghost use Rattle.std.specs.Prelude.{◌≡◌};
ghost use Rattle.bound.specs.Bounds.{stands_at};

use crate::site::Site;
use space::{Bank, Offset};

/// A place of fixed memory, and how often a way through a routine comes to it at most.
#[derive(Clone, Copy, PartialEq, Eq, Debug)]
pub struct Limit {
    /// Its bank.
    pub bank: Bank,
    /// Its offset in the bank.
    pub offset: Offset,
    /// How often.
    pub most: u32,
}

/// A limit, and what it costs to come to its place.
#[derive(Clone, Copy)]
pub(crate) struct Charge {
    /// The limit.
    pub(crate) limit: Limit,
    /// The cycles.
    pub(crate) weight: u32,
}

impl Limit {
    /// Whether a word stands at its place.
    pub(crate) fn has(&self, site: &Site) -> bool
        ensures { result ≡ stands_at self.now site.now }
    {
        self.bank.number() == site.bank.number()
            && self.offset.number() == Offset::of_low_bits(site.address.number()).number()
    }
}
