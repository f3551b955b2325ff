//! The edits that the editing cells make of a word.

ghost use Rattle.std.specs.Prelude.{◌≡◌};
ghost use Rattle.words.specs.Edits.{cyr, cyl, sr, edop};

use super::word::{GREATEST_WORD, SIGN, Word};

impl Word {
    /// A cycle right by one.
    pub fn cyr(self) -> Word
        ensures { result ≡ cyr self }
    {
        Word {
            bits: self.bits >> 1 | (self.bits & 1) << 14,
        }
    }

    /// A cycle left by one.
    #[tactic(auto, using(crate::proofs::Bits::cyl_bits))]
    pub fn cyl(self) -> Word
        ensures { result ≡ cyl self }
    {
        Word {
            bits: (self.bits << 1 & GREATEST_WORD) | self.bits >> 14,
        }
    }

    /// A shift right by one, which keeps bit 15 and copies it into bit 14.
    #[tactic(auto, using(crate::proofs::Bits::sr_bits))]
    pub fn sr(self) -> Word
        ensures { result ≡ sr self }
    {
        Word {
            bits: self.bits >> 1 | self.bits & SIGN,
        }
    }

    /// Bits 14 to 8 in the place of bits 7 to 1, zeros above.
    pub fn edop(self) -> Word
        ensures { result ≡ edop self }
    {
        Word {
            bits: self.bits >> 7 & 0o177,
        }
    }
}
