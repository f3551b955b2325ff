//! Places, and the registers that select them.

ghost use Rattle.std.specs.Prelude.{◌<◌};

use crate::numbers::{Bank, Eras, Offset};

/// A place in erasable memory, or in a bank of fixed memory.
#[derive(Clone, Copy, PartialEq, Eq, Debug)]
pub enum Linear {
    /// An erasable place.
    Erasable(Eras),
    /// A bank of fixed memory, and an offset in it.
    Fixed(Bank, Offset),
}

/// The bank registers EB (0 to 7) and FB (0 to 037), and the superbank bit.
#[derive(Clone, Copy, PartialEq, Eq, Debug)]
pub struct Banks {
    /// The erasable bank.
    pub eb: u16,
    /// The fixed bank, before the superbank bit counts.
    pub fb: u16,
    /// Whether the superbank bit is set.
    pub sup: bool,
    ghost eb_in_range: { eb < 0o10 },
    ghost fb_in_range: { fb < 0o40 },
}
