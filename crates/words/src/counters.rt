//! The steps of counters.

ghost use Rattle.std.specs.Prelude.{◌≡◌};
ghost use Rattle.words.specs.Counters.{summed, shifted_out, pinc, minc, dinc, pcdu, mcdu, shinc, shanc};

use super::wide::{Overflow, Wide};
use super::word::{GREATEST_WORD, SIGN, Word};

/// What a counter's step carries out: the overflow of plus or minus one, or a one that a doubling shifts out.
#[derive(Clone, Copy, PartialEq, Eq, Debug, Drop)]
pub enum Carry {
    /// Nothing is carried out.
    No,
    /// Plus one has overflowed.
    Plus,
    /// Minus one has overflowed.
    Minus,
    /// A doubling has shifted a one out.
    ShiftedOut,
}

/// What a counter's step gives.
#[derive(Clone, Copy, PartialEq, Eq, Debug, Drop)]
pub struct CounterStep {
    /// The counter's next word.
    pub word: Word,
    /// What is carried out.
    pub carry: Carry,
}

impl CounterStep {
    /// The step that a sum makes: the sum corrected, and its overflow.
    fn of_sum(sum: Wide) -> CounterStep
        ensures { result ≡ summed sum }
    {
        let carry = match sum.overflow() {
            Overflow::No => Carry::No,
            Overflow::Plus => Carry::Plus,
            Overflow::Minus => Carry::Minus,
        };
        CounterStep {
            word: sum.correct(),
            carry,
        }
    }

    fn without_carry(word: Word) -> CounterStep
        ensures word { result.word ≡ word }
        ensures carry { result.carry ≡ Carry.No }
    {
        CounterStep {
            word,
            carry: Carry::No,
        }
    }
}

impl Word {
    /// Plus one, with the sum's overflow.
    pub fn pinc(self) -> CounterStep
        ensures { result ≡ pinc self }
    {
        CounterStep::of_sum(self.extend().add(Wide::ONE))
    }

    /// Minus one, with the sum's overflow.
    pub fn minc(self) -> CounterStep
        ensures { result ≡ minc self }
    {
        CounterStep::of_sum(self.extend().add(Wide::ONE.neg()))
    }

    /// The magnitude less one, not below 0, with the same sign, but +0 where it is 0. Nothing is carried out.
    pub fn dinc(self) -> CounterStep
        ensures { result ≡ dinc self }
    {
        let magnitude = self.magnitude().saturating_sub(1);
        CounterStep::without_carry(Word::of_magnitude(magnitude, magnitude != 0 && self.is_minus()))
    }

    /// Plus one modulo 2^15. Nothing is carried out.
    pub fn pcdu(self) -> CounterStep
        ensures { result ≡ pcdu self }
    {
        CounterStep::without_carry(Word {
            bits: self.bits + 1 & GREATEST_WORD,
        })
    }

    /// Minus one modulo 2^15. Nothing is carried out.
    pub fn mcdu(self) -> CounterStep
        ensures { result ≡ mcdu self }
    {
        CounterStep::without_carry(Word {
            bits: self.bits.wrapping_sub(1) & GREATEST_WORD,
        })
    }

    /// Doubled modulo 2^15, with the old bit 15 shifted out.
    pub fn shinc(self) -> CounterStep
        ensures { result ≡ shinc self }
    {
        CounterStep {
            word: Word {
                bits: self.bits << 1 & GREATEST_WORD,
            },
            carry: self.shifted_out(),
        }
    }

    /// Doubled modulo 2^15 and plus one, with the old bit 15 shifted out.
    #[tactic(auto, using(crate::proofs::Bits::shanc_bits))]
    pub fn shanc(self) -> CounterStep
        ensures { result ≡ shanc self }
    {
        CounterStep {
            word: Word {
                bits: (self.bits << 1 & GREATEST_WORD) | 1,
            },
            carry: self.shifted_out(),
        }
    }

    fn shifted_out(self) -> Carry
        ensures { result ≡ shifted_out self }
    {
        if self.bits & SIGN == 0 {
            Carry::No
        } else {
            Carry::ShiftedOut
        }
    }
}
