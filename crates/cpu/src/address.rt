//! Addresses of 10 bits, and operands of words.

ghost use Rattle.std.specs.Prelude.{◌≡◌, ◌<◌, ◌%◌, ◌^◌};
ghost use Rattle.cpu.specs.Effects.{first_of, greatest_short, greatest_address};

use space::{Addr12, Chan};
use std::marker::Model;

/// An address of 10 bits, 0 to 01777. It leads to an erasable place.
#[derive(Clone, Copy, PartialEq, Eq, Debug)]
pub(crate) struct Addr10 {
    number: u16,
}

impl Model for Addr10 {
    ghost use Rattle.std.specs.Prelude.{ℕ, ◌<◌};

    ghost Value = { ℕ };

    ghost view = { λ a. a.number };

    ghost invariant = { λ a. a.number < 0o2000 };

    ghost inverse = { λ n. record { number = n } };
}

impl Addr10 {
    /// The address in a word's low 10 bits.
    pub(crate) fn of_word(word: u16) -> Addr10
        ensures { result ≡ word % 2 ^ 10 }
    {
        Addr10 {
            number: word % 0o2000,
        }
    }

    /// Its number.
    pub(crate) fn number(self) -> u16
        ensures value { result ≡ self }
        ensures range { result < 0o2000 }
    {
        self.number
    }

    /// The address before it, which is the greatest before 0.
    pub(crate) fn before(self) -> Addr10
        ensures { result ≡ first_of greatest_short self }
    {
        Addr10 {
            number: if self.number == 0 {
                0o1777
            } else {
                self.number - 1
            },
        }
    }

    /// The same address of 12 bits.
    pub(crate) fn widen(self) -> Addr12
        ensures value { result ≡ self }
        ensures range { result < 0o2000 }
    {
        address(self.number)
    }
}

/// The number as an address of 12 bits.
pub(crate) fn address(number: u16) -> Addr12
    requires { number < 0o10000 }
    ensures { result ≡ number }
{
    Addr12::of_low_bits(number)
}

/// The address before it, which is the greatest before 0.
pub(crate) fn before(operand: Addr12) -> Addr12
    ensures { result ≡ first_of greatest_address operand }
{
    let number = operand.number();
    address(if number == 0 { 0o7777 } else { number - 1 })
}

/// The address in a word's low 12 bits.
pub(crate) fn address_of_word(word: u16) -> Addr12
    ensures { result ≡ word % 2 ^ 12 }
{
    Addr12::of_low_bits(word)
}

/// The channel in a word's low 9 bits.
pub(crate) fn channel_of_word(word: u16) -> Chan
    ensures { result ≡ word % 2 ^ 9 }
{
    Chan::of_low_bits(word)
}
