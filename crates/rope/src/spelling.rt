//! The versions of the image, and how each spells a word in two bytes.

ghost use Rattle.std.specs.Prelude.{◌≡◌, ◌%◌, ◌∷◌, [], true, length};
ghost use Rattle.rope.specs.Image.{lowest_bit, spelled};
ghost use Rattle.rope.specs.Reading.{AllSpellWords, spells_word, fault_at};
ghost use Rattle.rope.specs.Steps.{Spells};

use crate::fault::RopeFault;
use words::Word;

/// How an image spells its words in two bytes each, high byte first.
#[derive(Clone, Copy, PartialEq, Eq, Debug, Drop)]
pub enum Version {
    /// Twice the word: the lowest bit is 0.
    One,
    /// Twice the word and a parity bit, by which every two bytes have an odd number of one bits.
    Two,
}

impl Version {
    // The lowest bit of a word's two bytes.
    fn lowest_bit(self, word: Word) -> u16
        ensures { result ≡ lowest_bit self word }
    {
        match self {
            Version::One => 0,
            Version::Two => (word.to_u16().count_ones() as u16 + 1) % 2,
        }
    }

    // The two bytes of a word.
    pub(crate) fn spelled(self, word: Word) -> [u8; 2]
        ensures { result ≡ spelled self word }
    {
        (word.to_u16() * 2 + self.lowest_bit(word)).to_be_bytes()
    }

    // Whether two bytes spell a word.
    #[tactic(auto, using(crate::proofs::Spellings::ones_of_pair))]
    pub(crate) fn spells_word(self, high: u8, low: u8) -> bool
        ensures { result ≡ spells_word self high low }
    {
        match self {
            Version::One => low % 2 == 0,
            Version::Two => u16::from_be_bytes([high, low]).count_ones() % 2 == 1,
        }
    }

    // Whether every two of some bytes spell a word. All are tested, so that many are at once.
    pub(crate) fn all_spell(self, bytes: &[u8]) -> bool
        requires { length bytes.now % 2 ≡ 0 }
        ensures { result ≡ true → AllSpellWords self bytes.now (length bytes.now) }
    {
        let mut all = true;
        for number in 0..bytes.len() / 2 {
            all &= self.spells_word(bytes[2 * number], bytes[2 * number + 1]);
        }
        all
    }

    // The word that two bytes spell, where they spell one.
    pub(crate) fn word_of(self, high: u8, low: u8) -> Option<Word>
        ensures { Spells self high low result }
    {
        if self.spells_word(high, low) {
            Some(half(high, low))
        } else {
            None
        }
    }

    // The fault of two bytes that spell no word, with the low one at this place.
    pub(crate) fn fault_at(self, at: u32) -> RopeFault
        ensures { result ≡ fault_at self at }
    {
        match self {
            Version::One => RopeFault::LowBit(at),
            Version::Two => RopeFault::BadParity(at),
        }
    }
}

// The word of two bytes that spell one.
#[tactic(auto, using(crate::proofs::Spellings::half_spelled))]
pub(crate) fn half(high: u8, low: u8) -> Word
    ensures { (version : Version) → spells_word version high low ≡ true → high ∷ low ∷ [] ≡ spelled version result }
{
    Word::of_low_bits(u16::from_be_bytes([high, low]) / 2)
}
