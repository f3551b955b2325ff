//! Fixed memory.

ghost use Rattle.std.specs.Prelude.{◌≡◌, ◌<◌, ℕ, true, false, None, IfOk, IfErr, replicate, length, slice_index_or};
ghost use Rattle.rope.specs.Places.{place_number, banks, no_words, with_word, slot_at, stands, word_at};
ghost use Rattle.rope.specs.Slots.{slot_count};
ghost use Rattle.rope.specs.declared.fault.RopeFault.TheVariants.{NoMemory};

use crate::fault::RopeFault;
use crate::slot::Slot;
use space::{Bank, Offset};
use std::alloc::{AllocError, Global};
use std::marker::Model;
use words::Word;

/// How many banks hold words.
const BANKS: u16 = space::FIXED_BANKS;

/// The words of one bank.
pub(crate) const BANK_WORDS: usize = space::BANK_WORDS as usize;

/// How many banks an image has.
pub(crate) const ENTRIES: usize = BANKS as usize;

/// The places of the banks 0 to 043.
pub(crate) const PLACES: usize = ENTRIES * BANK_WORDS;

/// The slots, which those of the banks 044 to 047 are among: no word is looked up by a test of its bank.
const SLOTS: usize = 0o50 * BANK_WORDS;

/// Fixed memory, seen as the words that stand in it, each at its bank and offset.
#[derive(Drop)]
pub struct Rope {
    slots: Vec<Slot>,
}

impl Model for Rope {
    ghost use Rattle.std.specs.Prelude.{◌≡◌, ℕ, vec_len};
    ghost use Rattle.std.specs.Ordering.{nat_cmp};
    ghost use Rattle.std.specs.Coded.{coded_ℕ};
    ghost use Rattle.std.specs.FinMap as map;
    ghost use Rattle.rope.specs.Slots.{words_of, slot_count, IsEmptyBeyond};

    ghost Value = { map.FinMap nat_cmp ℕ };

    ghost coded = { map.code coded_ℕ coded_ℕ };

    ghost view = { λ r. words_of r.slots.items };

    ghost invariant = { λ r. (vec_len r.slots ≡ slot_count) × IsEmptyBeyond r.slots.items };
}

impl Rope {
    /// A rope without a word, or `NoMemory`.
    pub fn empty(alloc: Global) -> Result<Rope, RopeFault>
        ensures ok { IfOk result (λ r. r ≡ no_words) }
        ensures nothing { IfOk result (λ r. (bank offset : ℕ) → stands r bank offset ≡ false) }
        ensures err { IfErr result (λ e. e ≡ NoMemory) }
    {
        match empty_slots(alloc) {
            Ok(slots) => Ok(Rope { slots }),
            Err(_) => Err(RopeFault::NoMemory),
        }
    }

    /// The same words again, or `NoMemory`.
    pub fn copied(&self, alloc: Global) -> Result<Rope, RopeFault>
        ensures ok { IfOk result (λ r. r ≡ self.now) }
        ensures err { IfErr result (λ e. e ≡ NoMemory) }
    {
        let Ok(slots) = copied_slots(alloc, &self.slots) else {
            return Err(RopeFault::NoMemory);
        };
        Ok(Rope { slots })
    }

    /// Whether a word stands at this place.
    pub fn has(&self, bank: Bank, offset: Offset) -> bool
        ensures { result ≡ stands self.now bank offset }
    {
        self.slot(bank, offset).stands()
    }

    /// The word at this place, 0 where none stands. In the banks 044 to 047 none ever does.
    pub fn word(&self, bank: Bank, offset: Offset) -> Word
        ensures { result ≡ word_at self.now bank offset }
    {
        self.slot(bank, offset).word()
    }

    /// Adds a word at a place of the banks 0 to 043 where none stands.
    pub fn put(&mut self, bank: Bank, offset: Offset, word: Word)
        requires exists { bank < banks }
        requires free { stands self.old bank offset ≡ false }
        ensures { self.new ≡ with_word self.old bank offset word }
    {
        self.set_slot(bank, offset, word);
    }

    /// Puts a later word at a place where one stands, and changes no other. No memory is taken.
    pub fn set(&mut self, bank: Bank, offset: Offset, later: Word)
        requires { stands self.old bank offset ≡ true }
        ensures { self.new ≡ with_word self.old bank offset later }
    {
        self.set_slot(bank, offset, later);
    }

    // The word at this place from now on.
    pub(crate) fn set_slot(&mut self, bank: Bank, offset: Offset, word: Word)
        requires { bank < banks }
        ensures { self.new ≡ with_word self.old bank offset word }
    {
        self.slots[slot_number(bank, offset)] = Slot::of(word);
    }

    // The word at this place, where one stands.
    fn slot(&self, bank: Bank, offset: Offset) -> Slot
        ensures { result ≡ slot_at self.now bank offset }
    {
        slot_of(&self.slots, slot_number(bank, offset))
    }
}

fn slot_of(slots: &[Slot], number: usize) -> Slot
    requires { number < length slots.now }
    ensures { result ≡ slice_index_or slots.now number None }
{
    slots[number]
}

// The sum is of 16 bits, so that LLVM makes one of it and of the quotient and the remainder of an address.
fn slot_number(bank: Bank, offset: Offset) -> usize
    ensures { result ≡ place_number bank offset }
{
    usize::from(bank.number() * space::BANK_WORDS + offset.number())
}

// The slots, all of them empty.
fn empty_slots(alloc: Global) -> Result<Vec<Slot>, AllocError>
    ensures { IfOk result (λ v. v.items ≡ replicate slot_count None) }
{
    let mut slots = Vec::with_capacity(alloc, SLOTS)?;
    slots.resize(SLOTS, Slot::EMPTY)?;
    Ok(slots)
}

// The same slots again.
fn copied_slots(alloc: Global, slots: &[Slot]) -> Result<Vec<Slot>, AllocError>
    ensures { IfOk result (λ v. v.items ≡ slots.now) }
{
    let mut copy = Vec::with_capacity(alloc, SLOTS)?;
    copy.extend_from_slice(slots)?;
    Ok(copy)
}
