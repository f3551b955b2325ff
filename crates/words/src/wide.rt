//! Wides of 16 bits in ones' complement.

ghost use Rattle.std.specs.Prelude.{◌≡◌, ◌+◌, ◌-◌, ◌%◌, ◌^◌};
ghost use Rattle.words.specs.Numbers.{neg_wide, sum, correct, dabs};
ghost use Rattle.words.specs.BitSums.{and_sum, or_sum, xor_sum};
ghost use Rattle.words.specs.Signs.{over, is_zero, is_minus_wide};

use super::word::Word;
use std::marker::Model;

/// Sixteen bits in ones' complement: bit 16 is the true sign, and bit 15 the overflow position.
#[derive(Clone, Copy, PartialEq, Eq, Debug, Drop)]
pub struct Wide {
    pub(crate) bits: u16,
}

impl Model for Wide {
    ghost use Rattle.std.specs.Prelude.{ℕ, ◌<◌, ◌^◌};

    ghost Value = { ℕ };

    ghost view = { λ w. w.bits };

    ghost inverse = { λ n. record { bits = n } };
}

/// The overflow that a wide shows: none where bits 16 and 15 are equal, else one of bit 16's sign.
#[derive(Clone, Copy, PartialEq, Eq, Debug, Drop)]
pub enum Overflow {
    /// Bits 16 and 15 are equal.
    No,
    /// Bit 16 is 0, and bit 15 is 1.
    Plus,
    /// Bit 16 is 1, and bit 15 is 0.
    Minus,
}

const SIGN: u16 = 0o100000;

const LOW_BITS: u16 = 0o37777;

const WIDE_BITS: u32 = 16;

impl Wide {
    /// The wide +0.
    pub const ZERO: Wide = Wide { bits: 0 };

    /// The wide -0.
    pub const MINUS_ZERO: Wide = Wide { bits: 0o177777 };

    /// The wide +1.
    pub const ONE: Wide = Wide { bits: 1 };

    /// The wide of these 16 bits.
    pub fn of_u16(number: u16) -> Wide
        ensures { result ≡ number }
    {
        Wide { bits: number }
    }

    /// The 16 bits as a number.
    pub fn to_u16(self) -> u16
        ensures { result ≡ self }
    {
        self.bits
    }

    /// The sum with end-around carry, which is +0 only for +0 and +0.
    pub fn add(self, other: Wide) -> Wide
        ensures sum { result ≡ sum self other }
        ensures congruent { result % (2 ^ 16 - 1) ≡ (self + other) % (2 ^ 16 - 1) }
        ensures zero { result ≡ 0 → self + other ≡ 0 }
    {
        let total = u32::from(self.bits) + u32::from(other.bits);
        let folded = (total & 0o177777) + (total >> WIDE_BITS);
        Wide {
            bits: folded as u16,
        }
    }

    /// The complement.
    pub fn neg(self) -> Wide
        ensures { result ≡ neg_wide self }
    {
        Wide { bits: !self.bits }
    }

    /// Each bit that stands in both.
    #[tactic(auto, using(crate::proofs::Sums::and_is_sum))]
    pub fn and(self, other: Wide) -> Wide
        ensures { result ≡ and_sum 16 self other }
    {
        Wide {
            bits: self.bits & other.bits,
        }
    }

    /// Each bit that stands in one of them at least.
    #[tactic(auto, using(crate::proofs::Sums::or_is_sum))]
    pub fn or(self, other: Wide) -> Wide
        ensures { result ≡ or_sum 16 self other }
    {
        Wide {
            bits: self.bits | other.bits,
        }
    }

    /// Each bit that stands in exactly one of them.
    #[tactic(auto, using(crate::proofs::Sums::xor_is_sum))]
    pub fn xor(self, other: Wide) -> Wide
        ensures { result ≡ xor_sum 16 self other }
    {
        Wide {
            bits: self.bits ^ other.bits,
        }
    }

    /// Whether it is +0 or -0.
    pub fn is_zero(self) -> bool
        ensures { result ≡ is_zero self }
    {
        self == Wide::ZERO || self == Wide::MINUS_ZERO
    }

    /// Whether bit 16 is set.
    pub fn is_minus(self) -> bool
        ensures { result ≡ is_minus_wide self }
    {
        self.bits >= SIGN
    }

    /// The overflow that bits 16 and 15 show.
    pub fn overflow(self) -> Overflow
        ensures { result ≡ over self }
    {
        match self.bits >> 14 {
            1 => Overflow::Plus,
            2 => Overflow::Minus,
            _ => Overflow::No,
        }
    }

    /// The word of bit 16 and bits 14 to 1.
    #[tactic(auto, using(crate::proofs::Bits::correct_bits))]
    pub fn correct(self) -> Word
        ensures { result ≡ correct self }
    {
        Word {
            bits: (self.bits & LOW_BITS) | (self.bits & SIGN) >> 1,
        }
    }

    /// The 16-bit magnitude less one, not below +0.
    pub fn dabs(self) -> Wide
        ensures { result ≡ dabs self }
    {
        let magnitude = if self.bits < SIGN {
            self.bits
        } else {
            !self.bits
        };
        Wide {
            bits: magnitude.saturating_sub(1),
        }
    }
}
