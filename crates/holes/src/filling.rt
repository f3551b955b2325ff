//! Holes that take their words from another fixed memory.

ghost use Rattle.std.specs.Prelude.{◌≡◌, IfOk, IfErr};
ghost use Rattle.rope.specs.declared.fault.RopeFault.TheVariants.{NoMemory};
ghost use Rattle.holes.specs.Holes.{filled, filled_at, filled_banks, filled_in, is_hole_at};
ghost use Rattle.rope.specs.Places.{bank_words};

use audit::{bank_of, offset_of};
use rope::{Rope, RopeFault};
use space::{BANK_WORDS, Bank, FIXED_BANKS, Offset};
use std::alloc::Global;

/// Words with those of another fixed memory in the holes, or `NoMemory`. The holes are the places where a word stands,
/// and `other` has another one.
pub fn filled(alloc: Global, words: &Rope, other: &Rope, from: &Rope) -> Result<Rope, RopeFault>
    ensures ok { IfOk result (λ r. r ≡ filled words.now other.now from.now) }
    ensures err { IfErr result (λ e. e ≡ NoMemory) }
{
    let mut filled = words.copied(alloc)?;
    fill(&mut filled, other, from);
    Ok(filled)
}

// Fills the holes.
fn fill(words: &mut Rope, other: &Rope, from: &Rope)
    ensures { words.new ≡ filled words.old other.now from.now }
{
    for number in 0..FIXED_BANKS {
        fill_bank(words, other, from, bank_of(number));
    }
}

// Fills those of a bank.
fn fill_bank(words: &mut Rope, other: &Rope, from: &Rope, bank: Bank)
    ensures { words.new ≡ filled_in words.old other.now from.now bank bank_words }
{
    for number in 0..BANK_WORDS {
        fill_place(words, other, from, bank, offset_of(number));
    }
}

// Fills a place, where it is a hole.
#[tactic(auto, unfolding(crate::specs::Holes::filled_at))]
fn fill_place(words: &mut Rope, other: &Rope, from: &Rope, bank: Bank, offset: Offset)
    ensures { words.new ≡ filled_at words.old other.now from.now bank offset }
{
    if is_hole_at(words, other, bank, offset) {
        words.set(bank, offset, from.word(bank, offset));
    }
}

/// Whether a place is a hole.
pub(crate) fn is_hole_at(words: &Rope, other: &Rope, bank: Bank, offset: Offset) -> bool
    ensures { result ≡ is_hole_at words.now other.now bank offset }
{
    words.has(bank, offset) && words.word(bank, offset) != other.word(bank, offset)
}
