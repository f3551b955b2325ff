//! The banks of fixed memory.

ghost use Rattle.std.specs.Prelude.{◌≡◌, ◌<◌};
ghost use Rattle.std.specs.Option.{SomeIff};

use space::Bank;
use std::marker::Model;

/// A bank that fixed memory has: 0 to 043.
#[derive(Clone, Copy, PartialEq, Eq, Debug)]
pub struct FixedBank {
    bank: Bank,
}

impl Model for FixedBank {
    ghost use Rattle.std.specs.Prelude.{ℕ, ◌<◌};

    ghost Value = { ℕ };

    ghost view = { λ b. b.bank };

    ghost invariant = { λ b. b.bank < 0o44 };

    ghost inverse = { λ n. record { bank = n } };
}

impl FixedBank {
    /// The number as a bank of fixed memory, where it is one.
    pub fn try_new(number: u16) -> Option<FixedBank>
        ensures { SomeIff result (number < 0o44) number }
    {
        match Bank::try_new(number) {
            Some(bank) if number < 0o44 => Some(FixedBank { bank }),
            _ => None,
        }
    }

    /// Bank 2, whose words stand at 04000.
    pub fn two() -> FixedBank
        ensures { result ≡ 2 }
    {
        match Bank::try_new(2) {
            Some(bank) => FixedBank { bank },
            None => unreachable!(),
        }
    }

    /// Bank 3, whose words stand at 06000.
    pub fn three() -> FixedBank
        ensures { result ≡ 3 }
    {
        match Bank::try_new(3) {
            Some(bank) => FixedBank { bank },
            None => unreachable!(),
        }
    }

    /// The bank as one that a program may select.
    pub fn bank(self) -> Bank
        ensures value { result ≡ self }
        ensures range { result < 0o44 }
    {
        self.bank
    }
}
