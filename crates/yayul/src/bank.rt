//! The banks of erasable memory.

ghost use Rattle.std.specs.Prelude.{◌≡◌, ◌/◌, ◌<◌};

use std::marker::Model;

/// How many words an erasable bank holds.
const BANK_SIZE: u16 = 0o400;

/// A bank of erasable memory: 0 to 7.
#[derive(Clone, Copy, PartialEq, Eq, Debug)]
pub struct ErasableBank {
    number: u16,
}

impl Model for ErasableBank {
    ghost use Rattle.std.specs.Prelude.{ℕ, ◌<◌};

    ghost Value = { ℕ };

    ghost view = { λ b. b.number };

    ghost invariant = { λ b. b.number < 0o10 };

    ghost inverse = { λ n. record { number = n } };
}

impl ErasableBank {
    /// The bank of an erasable place.
    pub(crate) fn of_place(place: u16) -> ErasableBank
        requires { place < 0o4000 }
        ensures { result ≡ place / 0o400 }
    {
        ErasableBank {
            number: place / BANK_SIZE,
        }
    }

    /// Its number.
    pub fn number(self) -> u16
        ensures value { result ≡ self }
        ensures range { result < 0o10 }
    {
        self.number
    }
}
