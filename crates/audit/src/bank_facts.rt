//! What the words of a bank, their parities and their sum tell together.

ghost use Rattle.std.specs.Prelude.{◌≡◌, ◌+◌, ◌-◌, ◌*◌, ◌^◌, ◌==◌, ◌<◌, ◌≤◌, ◌||◌, true};
ghost use Rattle.rope.specs.Places.{banks, bank_words};
ghost use Rattle.audit.specs.BankFacts.{all_before, bit_of, count_before, counted_before, counted_words, dead_bit};
ghost use Rattle.audit.specs.BankFacts.{dead_bit_before, even_words, even_words_before, has_loops, has_loops_at};
ghost use Rattle.audit.specs.BankFacts.{is_always, is_blank, is_copy, is_dead, is_loop, is_lost, is_turned, is_uniform};
ghost use Rattle.audit.specs.BankFacts.{is_wrong, mended_sum, mended_word, mends, with_bit_cleared, with_bit_turned};
ghost use Rattle.audit.specs.BankFacts.{wrong_words};

use crate::form_sums::holds_sum;
use crate::lines::{bank_of, offset_of};
use crate::ranges::{all_below, count_below};
use crate::sums::added;
use rope::Dump;
use space::{BANK_WORDS, Bank, FIXED_BANKS, Linear, Offset, window};
use words::Word;

/// From so many words of wrong parity on a bit that is the same in all words is told whatever the sum.
const MANY_WORDS: u16 = 32;

/// The bits of an offset.
const OFFSET_BITS: u32 = 10;

/// Whether most words of an image have two bytes with an even number of one bits. Banks of one word alone, which are
/// empty or lost, do not count.
pub(crate) fn is_turned(image: &Dump) -> bool
    ensures { result ≡ is_turned image.now }
{
    let (counted, even) = parities_in_all(image);
    counted < 2 * even
}

/// Of how many words of an image the parities count, and how many of these have two bytes with an even number of one
/// bits.
#[tactic(auto, using(crate::proofs::Folds::parity_steps))]
fn parities_in_all(image: &Dump) -> (u32, u32)
    ensures counted { result.0 ≡ counted_before image.now banks }
    ensures even { result.1 ≡ even_words_before image.now banks }
    ensures few { result.1 ≤ 1024 * banks }
{
    let (mut counted, mut even) = (0, 0);
    for number in 0..FIXED_BANKS {
        let (counts, evens) = parities_in(image, bank_of(number));
        counted += counts;
        even += evens;
    }
    (counted, even)
}

/// Of how many words of a bank the parities count, and how many of these have two bytes with an even number of one
/// bits: of none where all are one.
fn parities_in(image: &Dump, bank: Bank) -> (u32, u32)
    requires { bank < banks }
    ensures counted { result.0 ≡ counted_words image.now bank }
    ensures even { result.1 ≡ even_words image.now bank }
    ensures few_counted { result.0 ≤ 1024 }
    ensures few_even { result.1 ≤ 1024 }
{
    if is_uniform(image, bank) {
        (0, 0)
    } else {
        (
            u32::from(BANK_WORDS),
            u32::from(wrong_words(image, false, bank)),
        )
    }
}

/// Whether the parity at a place is wrong.
pub(crate) fn is_wrong(image: &Dump, turned: bool, bank: Bank, offset: Offset) -> bool
    requires { bank < banks }
    ensures { result ≡ is_wrong image.now turned bank offset }
{
    if turned {
        image.has_parity(bank, offset)
    } else {
        !image.has_parity(bank, offset)
    }
}

/// How many words of a bank have a wrong parity.
pub(crate) fn wrong_words(image: &Dump, turned: bool, bank: Bank) -> u16
    requires { bank < banks }
    ensures count { result ≡ wrong_words image.now turned bank }
    ensures few { result ≤ bank_words }
{
    count_below(
        BANK_WORDS,
        |number| is_wrong(image, turned, bank, offset_of(number)),
    )
}

/// A word with one of its bits turned, of which 1 is the lowest; by 0 it stays.
pub(crate) fn with_bit_turned(word: Word, bit: u32) -> Word
    requires { bit < 16 }
    ensures { result ≡ with_bit_turned word bit }
{
    if bit == 0 {
        word
    } else {
        word.xor(Word::of_low_bits(power_of_two(bit - 1)))
    }
}

/// A power of two that a word has a bit for.
fn power_of_two(count: u32) -> u16
    requires { count ≤ 14 }
    ensures value { result ≡ 2 ^ count }
    ensures some { 1 ≤ result }
    ensures few { result < 2 ^ 15 }
{
    1 << count
}

/// The sum of a bank, with a bit turned in each of its words of wrong parity.
#[tactic(auto, using(crate::proofs::Folds::mended_first, crate::proofs::Folds::mended_more))]
pub(crate) fn mended_sum(image: &Dump, turned: bool, bank: Bank, bit: u32) -> Word
    requires bank { bank < banks }
    requires bit { bit < 16 }
    ensures { result ≡ mended_sum image.now turned bank bit }
{
    let mut total = Word::ZERO;
    for number in 0..BANK_WORDS {
        total = added(
            total,
            mended_word(image, turned, bank, bit, offset_of(number)),
        );
    }
    total
}

/// The word at a place, with a bit turned where its parity is wrong.
pub(crate) fn mended_word(image: &Dump, turned: bool, bank: Bank, bit: u32, offset: Offset) -> Word
    requires bank { bank < banks }
    requires bit { bit < 16 }
    ensures { result ≡ mended_word image.now turned bank bit offset }
{
    let word = image.word(bank, offset);
    if is_wrong(image, turned, bank, offset) {
        with_bit_turned(word, bit)
    } else {
        word
    }
}

/// Whether a bank's sum is its own, where a bit is turned in each of its words of wrong parity.
pub(crate) fn mends(image: &Dump, turned: bool, bank: Bank, bit: u32) -> bool
    requires bank { bank < banks }
    requires bit { bit < 16 }
    ensures { result ≡ mends image.now turned bank bit }
{
    holds_sum(bank, mended_sum(image, turned, bank, bit))
}

/// Whether all words of a bank are its first one.
pub(crate) fn is_uniform(image: &Dump, bank: Bank) -> bool
    requires { bank < banks }
    ensures { result ≡ is_uniform image.now bank }
{
    let first = image.word(bank, offset_of(0)).to_u16();
    all_below(
        BANK_WORDS,
        |number| image.word(bank, offset_of(number)).to_u16() == first,
    )
}

/// Whether a bank has the words of another.
pub(crate) fn is_copy(image: &Dump, bank: Bank, other: Bank) -> bool
    requires bank { bank < banks }
    requires other { other < banks }
    ensures { result ≡ is_copy image.now bank other }
{
    all_below(BANK_WORDS, |number| {
        let offset = offset_of(number);
        image.word(bank, offset).to_u16() == image.word(other, offset).to_u16()
    })
}

/// Whether all words of a bank that have the right parity are 00000.
pub(crate) fn is_blank(image: &Dump, turned: bool, bank: Bank) -> bool
    requires { bank < banks }
    ensures { result ≡ is_blank image.now turned bank }
{
    all_below(BANK_WORDS, |number| {
        let offset = offset_of(number);
        is_wrong(image, turned, bank, offset) || image.word(bank, offset).to_u16() == 0
    })
}

/// A bit of a word, of which 1 is the lowest.
fn bit_of(word: u16, bit: u32) -> u16
    requires { bit ≤ 15 }
    ensures bit { result ≡ bit_of word bit }
    ensures range { result ≤ 1 }
{
    word / power_of_two(bit.saturating_sub(1)) % 2
}

/// Whether a bit is the same in all words of a bank.
pub(crate) fn is_always(image: &Dump, bank: Bank, bit: u32, value: u16) -> bool
    requires bank { bank < banks }
    requires some { 1 ≤ bit }
    requires few { bit ≤ 15 }
    ensures { result ≡ is_always image.now bank bit value }
{
    all_below(
        BANK_WORDS,
        |number| bit_of(image.word(bank, offset_of(number)).to_u16(), bit) == value,
    )
}

/// Whether a bit is the same in all words of a bank, and its sum says that it is lost, or many parities do.
pub(crate) fn is_lost(image: &Dump, turned: bool, bank: Bank, bit: u32) -> bool
    requires bank { bank < banks }
    requires some { 1 ≤ bit }
    requires few { bit ≤ 15 }
    ensures { result ≡ is_lost image.now turned bank bit }
{
    (is_always(image, bank, bit, 0) || is_always(image, bank, bit, 1))
        && (mends(image, turned, bank, bit) || MANY_WORDS <= wrong_words(image, turned, bank))
}

/// How many bits of a bank's words are lost.
pub(crate) fn lost_bits(image: &Dump, turned: bool, bank: Bank) -> u16
    requires { bank < banks }
    ensures count { result ≡ count_before (λ n. is_lost image.now turned bank (n + 1)) 15 }
    ensures few { result ≤ 15 }
{
    count_below(
        15,
        |number| is_lost(image, turned, bank, u32::from(number) + 1),
    )
}

/// How many ways there are to turn a bit that make a bank's sum right.
pub(crate) fn ways_to_mend(image: &Dump, turned: bool, bank: Bank) -> u16
    requires { bank < banks }
    ensures count { result ≡ count_before (mends image.now turned bank) 16 }
    ensures few { result ≤ 16 }
{
    count_below(16, |bit| mends(image, turned, bank, u32::from(bit)))
}

/// An offset with one of its bits 0, of which 1 is the lowest.
fn with_bit_cleared(offset: Offset, bit: u32) -> Offset
    requires some { 1 ≤ bit }
    requires few { bit ≤ 10 }
    ensures { result ≡ with_bit_cleared offset bit }
{
    let number = offset.number();
    offset_of(number - bit_of(number, bit) * power_of_two(bit - 1))
}

/// Whether a bit of the offset leads to the same word of a bank, 0 or 1.
fn is_dead(image: &Dump, bank: Bank, bit: u32) -> bool
    requires bank { bank < banks }
    requires some { 1 ≤ bit }
    requires few { bit ≤ 10 }
    ensures { result ≡ is_dead image.now bank bit }
{
    all_below(BANK_WORDS, |number| {
        let offset = offset_of(number);
        image.word(bank, offset).to_u16()
            == image.word(bank, with_bit_cleared(offset, bit)).to_u16()
    })
}

/// The highest bit of the offset that leads to the same words of a bank, 0 or 1; 0 where none does.
#[tactic(auto, using(crate::proofs::Folds::dead_steps))]
pub(crate) fn dead_bit(image: &Dump, bank: Bank) -> u32
    requires { bank < banks }
    ensures bit { result ≡ dead_bit image.now bank }
    ensures few { result ≤ 10 }
{
    let mut dead = 0;
    for number in 0..OFFSET_BITS {
        if is_dead(image, bank, number + 1) {
            dead = number + 1;
        }
    }
    dead
}

/// Whether the words of a bank are those of the places where a bit of the offset has a value: two of them, one after
/// another, are TC to their own places there.
pub(crate) fn has_loops(image: &Dump, bank: Bank, bit: u32, value: u16) -> bool
    requires bank { bank < banks }
    requires few { bit ≤ 10 }
    ensures { result ≡ has_loops image.now bank bit value }
{
    !(loops(image, bank, bit, value) == 0)
}

/// At how many places two of them begin.
fn loops(image: &Dump, bank: Bank, bit: u32, value: u16) -> u16
    requires bank { bank < banks }
    requires few { bit ≤ 10 }
    ensures count { result ≡ count_before (has_loops_at image.now bank bit value) (bank_words - 1) }
    ensures few { result ≤ bank_words }
{
    count_below(
        BANK_WORDS - 1,
        |number| has_loops_at(image, bank, bit, value, number),
    )
}

/// Whether the word of an offset and the next one are, and stand there.
fn has_loops_at(image: &Dump, bank: Bank, bit: u32, value: u16, number: u16) -> bool
    requires bank { bank < banks }
    requires few { bit ≤ 10 }
    requires offset { number < bank_words - 1 }
    ensures { result ≡ has_loops_at image.now bank bit value number }
{
    (bit_of(number, bit) == value && bit_of(number + 1, bit) == value)
        && (is_loop(image, bank, offset_of(number)) && is_loop(image, bank, offset_of(number + 1)))
}

/// Whether a word of a bank is a TC to its own place.
fn is_loop(image: &Dump, bank: Bank, offset: Offset) -> bool
    requires { bank < banks }
    ensures { result ≡ is_loop image.now bank offset }
{
    image.word(bank, offset).to_u16() == window(Linear::Fixed(bank, offset)).number()
}
