//! Words of 15 bits in ones' complement.

ghost use Rattle.std.specs.Prelude.{◌≡◌, ◌%◌, ◌<◌, ◌^◌, ◌++◌, Some, OkIff, codes, decimal};
ghost use Rattle.words.specs.Faults.{number_of_no_word};
ghost use Rattle.words.specs.Numbers.{value, neg, extend, modular_difference};
ghost use Rattle.words.specs.BitSums.{and_sum, or_sum, xor_sum};
ghost use Rattle.words.specs.Products.{is_minus, magnitude, signed};

use super::wide::Wide;
use std::fmt;
use std::marker::Model;

/// Fifteen bits in ones' complement, bit 15 the sign: +0 is 00000, -0 is 77777.
#[derive(Clone, Copy, PartialEq, Eq, Debug, Drop)]
pub struct Word {
    pub(crate) bits: u16,
}

impl Model for Word {
    ghost use Rattle.std.specs.Prelude.{ℕ, ◌<◌, ◌^◌};

    ghost Value = { ℕ };

    ghost view = { λ w. w.bits };

    ghost invariant = { λ w. w.bits < 2 ^ 15 };

    ghost inverse = { λ n. record { bits = n } };
}

/// Why a number is no word.
#[derive(Debug, Drop)]
pub enum WordFault {
    /// The number is above 77777.
    OutOfWord,
}

impl WordFault {
    /// The number that the fault is told by.
    pub fn number(&self) -> u8
        ensures { result ≡ number_of_no_word self.now }
    {
        match self {
            WordFault::OutOfWord => 1,
        }
    }
}

impl fmt::Display for WordFault {
    ghost output = { λ fault. Some (codes "E" ++ decimal (number_of_no_word fault)) };

    fn fmt<W: fmt::Write>(&self, f: &mut fmt::Formatter<W>) -> fmt::Result {
        write!(f, "E{}", self.number())
    }
}

impl std::error::Error for WordFault {}

pub(crate) const GREATEST_WORD: u16 = 0o77777;

pub(crate) const SIGN: u16 = 0o40000;

impl Word {
    /// The word +0.
    pub const ZERO: Word = Word { bits: 0 };

    /// The word of these 15 bits, or `OutOfWord` where the number has more.
    pub fn try_from_u16(number: u16) -> Result<Word, WordFault>
        ensures { OkIff result (number < 2 ^ 15) number }
    {
        if number > GREATEST_WORD {
            return Err(WordFault::OutOfWord);
        }
        Ok(Word { bits: number })
    }

    /// The word of a number's low 15 bits.
    pub fn of_low_bits(number: u16) -> Word
        ensures { result ≡ number % 2 ^ 15 }
    {
        Word {
            bits: number & GREATEST_WORD,
        }
    }

    /// The 15 bits as a number.
    pub fn to_u16(self) -> u16
        ensures value { result ≡ self }
        ensures range { result < 2 ^ 15 }
    {
        self.bits
    }

    /// The wide of the same value: bit 15 is copied into bit 16.
    #[tactic(auto, using(crate::proofs::Bits::extend_bits))]
    pub fn extend(self) -> Wide
        ensures { result ≡ extend self }
    {
        Wide {
            bits: self.bits | (self.bits & SIGN) << 1,
        }
    }

    /// The complement.
    pub fn neg(self) -> Word
        ensures { result ≡ neg self }
    {
        Word {
            bits: self.bits ^ GREATEST_WORD,
        }
    }

    /// Each bit that stands in both.
    #[tactic(auto, using(crate::proofs::Sums::and_is_sum))]
    pub fn and(self, other: Word) -> Word
        ensures { result ≡ and_sum 15 self other }
    {
        Word {
            bits: self.bits & other.bits,
        }
    }

    /// Each bit that stands in one of them at least.
    #[tactic(auto, using(crate::proofs::Sums::or_is_sum, crate::proofs::Sums::or_in_word))]
    pub fn or(self, other: Word) -> Word
        ensures { result ≡ or_sum 15 self other }
    {
        Word {
            bits: self.bits | other.bits,
        }
    }

    /// Each bit that stands in exactly one of them.
    #[tactic(auto, using(crate::proofs::Sums::xor_is_sum, crate::proofs::Sums::xor_in_word))]
    pub fn xor(self, other: Word) -> Word
        ensures { result ≡ xor_sum 15 self other }
    {
        Word {
            bits: self.bits ^ other.bits,
        }
    }

    /// The difference of the bit patterns as unsigned numbers modulo 2^15, less one from 40000 on.
    pub fn modular_sub(self, other: Word) -> Word
        ensures { result ≡ modular_difference self other }
    {
        let difference = self.bits.wrapping_sub(other.bits) & GREATEST_WORD;
        Word {
            bits: if difference < SIGN {
                difference
            } else {
                difference - 1
            },
        }
    }

    pub(crate) fn is_minus(self) -> bool
        ensures { result ≡ is_minus self }
    {
        self.bits >= SIGN
    }

    pub(crate) fn magnitude(self) -> u16
        ensures value { result ≡ magnitude self }
        ensures range { result < 2 ^ 14 }
    {
        if self.is_minus() {
            self.bits ^ GREATEST_WORD
        } else {
            self.bits
        }
    }

    /// A word of a magnitude and a sign.
    pub(crate) fn of_magnitude(magnitude: u16, minus: bool) -> Word
        requires { magnitude < 2 ^ 14 }
        ensures { result ≡ signed minus magnitude }
    {
        let word = Word { bits: magnitude };
        if minus { word.neg() } else { word }
    }

    /// The whole number that a word stands for.
    pub(crate) fn value(self) -> i32
        ensures { result ≡ value self }
    {
        let magnitude = i32::from(self.magnitude());
        if self.is_minus() {
            -magnitude
        } else {
            magnitude
        }
    }
}
