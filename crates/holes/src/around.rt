//! The words of an image around the holes of a source.

ghost use Rattle.std.specs.Prelude.{◌≡◌, ◌<◌};
ghost use Rattle.holes.specs.Holes.{around_at, around_banks, around_holes, around_in};
ghost use Rattle.rope.specs.Places.{bank_words, banks};

use crate::filling::is_hole_at;
use audit::{bank_of, offset_of};
use rope::Rope;
use space::{BANK_WORDS, Bank, FIXED_BANKS, Offset};

/// Puts the words of an image at all places but the holes, which keep their words. The holes are the places where a
/// word stands, and `other` has another one. No memory is taken.
pub fn put_around_holes(words: &mut Rope, other: &Rope, image: &Rope)
    ensures { words.new ≡ around_holes words.old other.now image.now }
{
    for number in 0..FIXED_BANKS {
        put_in_bank(words, other, image, bank_of(number));
    }
}

// Puts those of a bank.
fn put_in_bank(words: &mut Rope, other: &Rope, image: &Rope, bank: Bank)
    requires { bank < banks }
    ensures { words.new ≡ around_in words.old other.now image.now bank bank_words }
{
    for number in 0..BANK_WORDS {
        put_at(words, other, image, bank, offset_of(number));
    }
}

// Puts the word of a place, unless it is a hole.
#[tactic(auto, unfolding(crate::specs::Holes::around_at))]
fn put_at(words: &mut Rope, other: &Rope, image: &Rope, bank: Bank, offset: Offset)
    requires { bank < banks }
    ensures { words.new ≡ around_at words.old other.now image.now bank offset }
{
    if is_hole_at(words, other, bank, offset) {
        return;
    }
    let word = image.word(bank, offset);
    if words.has(bank, offset) {
        words.set(bank, offset, word);
    } else {
        words.put(bank, offset, word);
    }
}
