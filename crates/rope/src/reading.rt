//! Ropes from their images.

ghost use Rattle.std.specs.Prelude.{◌≡◌, ◌<◌, ◌≤◌, ◌+◌, ◌*◌, ◌%◌, ◌++◌, ℕ, List, length, true, IfOk, IfErr};
ghost use Rattle.std.specs.Prelude.{if◌then◌else◌};
ghost use Rattle.words.specs.Devices.{one_more, failures_after};
ghost use Rattle.rope.specs.Places.{bank_words, fixed_places};
ghost use Rattle.rope.specs.Reading.{ReadsImage, IsFull, AllSpellWords, has_read_failed};
ghost use Rattle.rope.specs.Steps.{AllStand, GoesOn, FaultGoesOn, TakesByte, TakesPair, TakesWord};
ghost use Rattle.rope.specs.declared.spelling.Version.{Version};
ghost use Rattle.rope.specs.declared.fault.RopeFault.TheVariants.{ReadFailed};

use crate::fault::RopeFault;
use crate::image::{bank_at, offset_at};
use crate::memory::{BANK_WORDS, PLACES, Rope};
use crate::spelling::{Version, half};
use std::alloc::Global;
use words::{Read, Word};

impl Rope {
    /// Reads an image of a version to its end, and answers the rope of which it is the image, with a word at every
    /// place.
    ///
    /// `NoMemory` is told before any byte is read. Else the first fault is told that is met in the order of the bytes:
    /// `Short` where they end before 73,728, `Long` where one more stands, `LowBit` of version 1 or `BadParity` of
    /// version 2 where two bytes spell no word, `ReadFailed` where a read failed. No byte after two wrong ones is read.
    pub fn read<R: Read>(alloc: Global, reader: &mut R, version: Version) -> Result<Rope, RopeFault>
        ensures bytes { R.told ≡ true → ReadsImage version (R.left reader.old) (R.left reader.new) result }
        ensures full { IfOk result (λ rope. IsFull rope) }
        ensures failures { R.failures reader.new
            ≡ (if has_read_failed result then one_more (R.failures reader.old) else R.failures reader.old) }
    {
        let mut rope = Rope::empty(alloc)?;
        let mut position = 0;
        while position < PLACES {
            position = rope.read_on(reader, position, version)?;
        }
        match next_byte(reader)? {
            None => Ok(rope),
            Some(_) => Err(RopeFault::Long),
        }
    }

    // Reads on from a position: the words of its bank that stand ready, or else one word. Answers the position after
    // them.
    fn read_on<R: Read>(
        &mut self,
        reader: &mut R,
        position: usize,
        version: Version,
    ) -> Result<usize, RopeFault>
        requires { position < fixed_places }
        ensures next { IfOk result (λ next. (position < next) × (next ≤ fixed_places)) }
        ensures goes { R.told ≡ true → IfOk result
            (λ next. GoesOn version (R.left reader.old) self.old position (R.left reader.new) self.new next) }
        ensures stand { IfOk result (λ next. AllStand self.old position → AllStand self.new next) }
        ensures fault { R.told ≡ true → IfErr result
            (λ fault. FaultGoesOn version (R.left reader.old) self.old position (R.left reader.new) fault) }
        ensures failures { R.failures reader.new
            ≡ (if has_read_failed result then one_more (R.failures reader.old) else R.failures reader.old) }
    {
        let count = self.take_ready(reader, position, version);
        if count > 0 {
            return Ok(position + count);
        }
        let word = read_word(reader, position, version)?;
        self.set_slot(bank_at(position), offset_at(position), word);
        Ok(position + 1)
    }

    // Takes the words that stand ready at a position and after it in its bank, if all their bytes spell words, and
    // answers how many.
    fn take_ready<R: Read>(&mut self, reader: &mut R, position: usize, version: Version) -> usize
        requires { position < fixed_places }
        ensures within { position + result ≤ fixed_places }
        ensures goes { R.told ≡ true → GoesOn version (R.left reader.old) self.old position (R.left reader.new) self.new
            (position + result) }
        ensures stand { AllStand self.old position → AllStand self.new (position + result) }
        ensures failures { R.failures reader.new ≡ R.failures reader.old }
    {
        let ready = reader.ready();
        let count = (ready.len() / 2).min(BANK_WORDS - position % BANK_WORDS);
        let bytes = &ready[..2 * count];
        if !version.all_spell(bytes) {
            return 0;
        }
        self.set_spelled(position, bytes, count);
        if reader.pass(2 * count) { count } else { 0 }
    }

    // Sets the words that some bytes spell at a position and after it in its bank.
    fn set_spelled(&mut self, position: usize, bytes: &[u8], count: usize)
        requires place { position < fixed_places }
        requires room { position % bank_words + count ≤ bank_words }
        requires bytes { length bytes.now ≡ 2 * count }
        ensures goes { (version : Version) (rest : List ℕ) → AllSpellWords version bytes.now (2 * count)
            → GoesOn version (bytes.now ++ rest) self.old position rest self.new (position + count) }
        ensures kept { (version : Version) (rest : List ℕ)
            → GoesOn version rest self.old position rest self.new position }
        ensures stand { AllStand self.old position → AllStand self.new (position + count) }
    {
        let bank = bank_at(position);
        let first = position % BANK_WORDS;
        for number in 0..count {
            let word = half(bytes[2 * number], bytes[2 * number + 1]);
            self.set_slot(bank, offset_at(first + number), word);
        }
    }
}

// The word at a position of an image, from its two bytes.
fn read_word<R: Read>(reader: &mut R, position: usize, version: Version) -> Result<Word, RopeFault>
    requires { position < fixed_places }
    ensures word { R.told ≡ true → TakesWord version position (R.left reader.old) (R.left reader.new) result }
    ensures failures { R.failures reader.new
        ≡ (if has_read_failed result then one_more (R.failures reader.old) else R.failures reader.old) }
{
    let Some(pair) = next_pair(reader)? else {
        return Err(RopeFault::Short);
    };
    match version.word_of(pair[0], pair[1]) {
        Some(word) => Ok(word),
        None => Err(version.fault_at(2 * position as u32 + 1)),
    }
}

// The next two bytes, where two are left.
fn next_pair<R: Read>(reader: &mut R) -> Result<Option<[u8; 2]>, RopeFault>
    ensures pair { R.told ≡ true → TakesPair (R.left reader.old) (R.left reader.new) result }
    ensures fault { IfErr result (λ e. e ≡ ReadFailed) }
    ensures failures { R.failures reader.new ≡ failures_after (R.failures reader.old) result }
{
    let mut pair = [0; 2];
    match reader.read(&mut pair) {
        Ok(0) => Ok(None),
        Ok(1) => match next_byte(reader)? {
            Some(low) => Ok(Some([pair[0], low])),
            None => Ok(None),
        },
        Ok(_) => Ok(Some(pair)),
        Err(_) => Err(RopeFault::ReadFailed),
    }
}

// The next byte, where one is left.
fn next_byte<R: Read>(reader: &mut R) -> Result<Option<u8>, RopeFault>
    ensures byte { R.told ≡ true → TakesByte (R.left reader.old) (R.left reader.new) result }
    ensures fault { IfErr result (λ e. e ≡ ReadFailed) }
    ensures failures { R.failures reader.new ≡ failures_after (R.failures reader.old) result }
{
    let mut byte = [0];
    match reader.read(&mut byte) {
        Ok(0) => Ok(None),
        Ok(_) => Ok(Some(byte[0])),
        Err(_) => Err(RopeFault::ReadFailed),
    }
}
