//! Interrupts that are asked for.

ghost use Rattle.std.specs.Prelude.{◌≡◌, ◌+◌, ◌-◌, ◌≤◌, ◌<◌};
ghost use Rattle.std.specs.Option.{SomeIff};

use std::marker::Model;

/// How many interrupts there are.
pub const INTERRUPTS: u8 = 10;

/// The number of an interrupt, 1 to 10.
#[derive(Clone, Copy, PartialEq, Eq, Debug)]
pub struct Interrupt {
    number: u8,
}

impl Model for Interrupt {
    ghost use Rattle.std.specs.Prelude.{ℕ, ◌≤◌};

    ghost Value = { ℕ };

    ghost view = { λ r. r.number };

    ghost invariant = { λ r. (1 ≤ r.number) × (r.number ≤ 10) };

    ghost inverse = { λ n. record { number = n } };
}

impl Interrupt {
    /// The interrupt of this number, where there is one.
    pub fn try_new(number: u8) -> Option<Interrupt>
        ensures { SomeIff result ((1 ≤ number) × (number ≤ 10)) number }
    {
        if (1..=INTERRUPTS).contains(&number) {
            Some(Interrupt { number })
        } else {
            None
        }
    }

    /// The interrupt of this number.
    pub fn new(number: u8) -> Interrupt
        requires low { 1 ≤ number }
        requires high { number ≤ 10 }
        ensures { result ≡ number }
    {
        Interrupt { number }
    }

    /// Its number.
    pub fn number(self) -> u8
        ensures value { result ≡ self }
        ensures low { 1 ≤ result }
        ensures high { result ≤ 10 }
    {
        self.number
    }

    /// Its index among the interrupts, counted from 0.
    pub fn index(self) -> usize
        ensures value { result ≡ self - 1 }
        ensures number { result + 1 ≡ self }
        ensures range { result < 10 }
    {
        usize::from(self.number) - 1
    }
}
