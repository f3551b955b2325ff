//! The sums of the banks in the orders of their bits and bytes, and what a program wants of them.

ghost use Rattle.std.specs.Prelude.{◌≡◌, ◌<◌, ◌≤◌};
ghost use Rattle.rope.specs.Image.{lowest_bit};
ghost use Rattle.rope.specs.Places.{bank_words};
ghost use Rattle.audit.specs.FormSums.{form_sum, form_sum_before, form_word, holds_sum, is_by_number};

use crate::lines::offset_of;
use crate::orders::{Order, partner, word_in};
use crate::sums::added;
use rope::{Rope, Version};
use space::{BANK_WORDS, Bank};
use words::Word;

/// Whether a sum is that of the bank that stands in place of another where banks stand by their numbers.
pub(crate) fn is_by_number(bank: Bank, total: Word) -> bool
    ensures { result ≡ is_by_number bank total }
{
    bank.number() < 4 && holds_sum(partner(bank), total)
}

/// Whether a sum is the number of its bank, or the complement of it.
pub fn holds_sum(bank: Bank, total: Word) -> bool
    ensures { result ≡ holds_sum bank total }
{
    let number = Word::of_low_bits(bank.number());
    total == number || total == number.neg()
}

/// The sum of the words that the bytes of a bank are in an order.
pub(crate) fn form_sum(order: Order, rope: &Rope, version: Version, bank: Bank) -> Word
    ensures { result ≡ form_sum order version rope.now bank }
{
    let mut total = Word::ZERO;
    for number in 0..BANK_WORDS {
        let word = rope.word(bank, offset_of(number));
        total = added(total, form_word(order, version, word));
    }
    total
}

/// The word that the two bytes of a word are in an order.
pub(crate) fn form_word(order: Order, version: Version, word: Word) -> Word
    ensures { result ≡ form_word order version word }
{
    word_in(order, 2 * word.to_u16() + lowest_bit(version, word))
}

/// The lowest bit of a word's two bytes.
pub(crate) fn lowest_bit(version: Version, word: Word) -> u16
    ensures bit { result ≡ lowest_bit version word }
    ensures range { result ≤ 1 }
{
    match version {
        Version::One => 0,
        Version::Two => (word.to_u16().count_ones() as u16 + 1) % 2,
    }
}
