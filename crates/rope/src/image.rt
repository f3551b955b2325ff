//! The image of fixed memory, as it is written.

ghost use Rattle.std.specs.Prelude.{◌≡◌, ◌*◌, ◌<◌, ◌/◌, ◌%◌, true};
ghost use Rattle.words.specs.Devices.{Writes, failures_after};
ghost use Rattle.rope.specs.Places.{banks, bank_words, fixed_places};
ghost use Rattle.rope.specs.Image.{bank_of_entry, image_part, image};

use crate::memory::{BANK_WORDS, ENTRIES, Rope};
use crate::spelling::Version;
use arrayvec::ArrayVec;
use space::{Bank, Offset};
use words::{Write, WriteFailed, push_all, write_all};

/// How many bytes the words of a bank are written as.
const BANK_BYTES: usize = 2 * BANK_WORDS;

impl Rope {
    /// Writes the image of 73,728 bytes: banks 2, 3, 0, 1, 4 to 043, in each bank the words by rising offsets, each as
    /// two bytes as the version spells it. A place without a word gives those of the word 0. A bank is one write.
    ///
    /// After a failure a beginning of it was written.
    pub fn write<W: Write>(&self, out: &mut W, version: Version) -> Result<(), WriteFailed>
        ensures written { W.told ≡ true → Writes (W.written out.old) (W.written out.new) (image version self.now)
            result }
        ensures failures { W.failures out.new ≡ failures_after (W.failures out.old) result }
    {
        for entry in 0..ENTRIES {
            self.write_bank(entry, out, version)?;
        }
        Ok(())
    }

    // Writes the bank at an entry of the image.
    fn write_bank<W: Write>(
        &self,
        entry: usize,
        out: &mut W,
        version: Version,
    ) -> Result<(), WriteFailed>
        requires { entry < banks }
        ensures written { W.told ≡ true → Writes (W.written out.old) (W.written out.new)
            (image_part version self.now (bank_words * entry) bank_words) result }
        ensures failures { W.failures out.new ≡ failures_after (W.failures out.old) result }
    {
        write_all(out, self.spelled_bank(entry, version).as_slice())
    }

    // The bytes of the bank at an entry of the image.
    fn spelled_bank(&self, entry: usize, version: Version) -> ArrayVec<u8, BANK_BYTES>
        requires { entry < banks }
        ensures { result.items ≡ image_part version self.now (bank_words * entry) bank_words }
    {
        let bank = bank_at(BANK_WORDS * entry);
        let mut bytes = ArrayVec::new();
        for offset in 0..BANK_WORDS {
            let word = self.word(bank, offset_at(offset));
            push_all(&mut bytes, &version.spelled(word));
        }
        bytes
    }
}

// The bank of a position.
pub(crate) fn bank_at(position: usize) -> Bank
    requires { position < fixed_places }
    ensures { result ≡ bank_of_entry (position / bank_words) }
{
    let entry = (position / BANK_WORDS) as u16;
    let number = match entry {
        0 | 1 => entry + 2,
        2 | 3 => entry - 2,
        _ => entry,
    };
    Bank::try_new(number).unwrap()
}

// The offset of a position in its bank.
pub(crate) fn offset_at(position: usize) -> Offset
    ensures { result ≡ position % bank_words }
{
    Offset::try_new((position % BANK_WORDS) as u16).unwrap()
}
