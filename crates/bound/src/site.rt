//! Words of fixed memory that are executed.

ghost use Rattle.std.specs.Prelude.{◌≡◌};
ghost use Rattle.bound.specs.Counting.{is_plain};
ghost use Rattle.bound.specs.Inside.Checks.{same, same_mode};
ghost use Rattle.bound.specs.Turns.{entry};

use space::{Addr12, Bank};

/// How a word is come to.
#[derive(Clone, Copy, PartialEq, Eq, Debug)]
pub struct Mode {
    /// Whether extracode is in force.
    pub extra: bool,
    /// Whether INDEX left a sum for it.
    pub indexed: bool,
    /// Whether Q holds the way back.
    pub held: bool,
    /// Whether the way back leads to a bank that FB and the superbank select.
    pub banked: bool,
}

/// A word of fixed memory that is executed.
#[derive(Clone, Copy, PartialEq, Eq, Debug)]
pub struct Site {
    /// Its bank.
    pub bank: Bank,
    /// The address at which it is come to, from 02000 on.
    pub address: Addr12,
    /// How it is come to.
    pub mode: Mode,
}

impl Mode {
    /// Where a routine begins.
    pub(crate) fn entry(banked: bool) -> Mode
        ensures { result ≡ entry banked }
    {
        Mode {
            extra: false,
            indexed: false,
            held: true,
            banked,
        }
    }

    /// Whether nothing waits: no extracode, no sum of INDEX.
    pub(crate) fn is_plain(&self) -> bool
        ensures { result ≡ is_plain self.now }
    {
        !self.extra && !self.indexed
    }

    /// Whether it is another one.
    fn is(&self, other: &Mode) -> bool
        ensures { result ≡ same_mode self.now other.now }
    {
        self.extra == other.extra
            && self.indexed == other.indexed
            && self.held == other.held
            && self.banked == other.banked
    }
}

impl Site {
    /// Whether it is another one.
    pub(crate) fn is(&self, other: &Site) -> bool
        ensures { result ≡ same self.now other.now }
    {
        self.bank.number() == other.bank.number()
            && self.address.number() == other.address.number()
            && self.mode.is(&other.mode)
    }
}

impl Default for Site {
    fn default() -> Site {
        Site {
            bank: Bank::try_new(0).unwrap(),
            address: Addr12::of_low_bits(0),
            mode: Mode::entry(false),
        }
    }
}
