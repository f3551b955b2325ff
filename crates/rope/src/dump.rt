//! Images whose bytes may have any parity.

ghost use Rattle.std.specs.Prelude.{◌≡◌, ◌<◌, ◌+◌, true, length, IfOk, if◌then◌else◌};
ghost use Rattle.words.specs.Devices.{one_more};
ghost use Rattle.rope.specs.Places.{banks};
ghost use Rattle.rope.specs.Reading.{image_length, has_read_failed};
ghost use Rattle.rope.specs.Dumps.{ReadsDump, byte_of, has_parity, word_of};

use crate::fault::RopeFault;
use crate::image::bank_at;
use crate::memory::{BANK_WORDS, PLACES};
use crate::spelling::Version;
use space::{Bank, Offset};
use std::alloc::Global;
use std::marker::Model;
use words::{Read, ReadFault, Word, read_text};

/// How many bytes an image has.
const IMAGE_BYTES: usize = 2 * PLACES;

/// The bytes of an image, whatever words they spell.
#[derive(Drop)]
pub struct Dump {
    bytes: Vec<u8>,
}

impl Model for Dump {
    ghost use Rattle.std.specs.Prelude.{◌≡◌, ℕ, List, length};
    ghost use Rattle.std.specs.Coded.{coded_ℕ, coded_list};
    ghost use Rattle.rope.specs.Reading.{image_length};

    ghost Value = { List ℕ };

    ghost coded = { coded_list coded_ℕ };

    ghost view = { λ d. d.bytes.items };

    ghost invariant = { λ d. length d.bytes.items ≡ image_length };
}

impl Dump {
    /// Reads the 73,728 bytes of an image, and that none stands after them.
    ///
    /// Errors: `Short` where they end before, `Long` where one more stands, `NoMemory`, `ReadFailed`.
    pub fn read<R: Read>(alloc: Global, reader: &mut R) -> Result<Dump, RopeFault>
        ensures bytes { R.told ≡ true → ReadsDump (R.left reader.old) (R.left reader.new) result }
        ensures whole { IfOk result (λ dump. length dump ≡ image_length) }
        ensures failures { R.failures reader.new
            ≡ (if has_read_failed result then one_more (R.failures reader.old) else R.failures reader.old) }
    {
        match read_text(alloc, reader, IMAGE_BYTES) {
            Ok(bytes) => {
                if bytes.len() == IMAGE_BYTES {
                    Ok(Dump { bytes })
                } else {
                    Err(RopeFault::Short)
                }
            }
            Err(ReadFault::NoMemory) => Err(RopeFault::NoMemory),
            Err(ReadFault::ReadFailed) => Err(RopeFault::ReadFailed),
            Err(ReadFault::TooLong) => Err(RopeFault::Long),
        }
    }

    /// Whether the two bytes of the word at a place have an odd number of one bits.
    pub fn has_parity(&self, bank: Bank, offset: Offset) -> bool
        requires { bank < banks }
        ensures { result ≡ has_parity self.now bank offset }
    {
        let first = byte_of(bank, offset);
        Version::Two.spells_word(self.bytes[first], self.bytes[first + 1])
    }

    /// The word at a place, whatever the lowest bit of its two bytes.
    pub fn word(&self, bank: Bank, offset: Offset) -> Word
        requires { bank < banks }
        ensures { result ≡ word_of self.now bank offset }
    {
        let first = byte_of(bank, offset);
        Word::of_low_bits(u16::from_be_bytes([self.bytes[first], self.bytes[first + 1]]) / 2)
    }
}

/// The number of the first of the two bytes of the word at a place, counted from 0.
pub fn byte_of(bank: Bank, offset: Offset) -> usize
    requires { bank < banks }
    ensures number { result ≡ byte_of bank offset }
    ensures within { result + 1 < image_length }
{
    let first_word = BANK_WORDS
        * usize::from(bank_at(BANK_WORDS * usize::from(bank.number())).number());
    2 * (first_word + usize::from(offset.number()))
}
