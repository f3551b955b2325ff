//! In which form an image most likely stands.

ghost use Rattle.std.specs.Prelude.{◌≡◌, ◌/◌, ◌%◌, ◌==◌, ◌<◌, ◌≤◌};
ghost use Rattle.rope.specs.Forms.{reordered};
ghost use Rattle.rope.specs.Places.{banks, bank_words, fixed_places};
ghost use Rattle.audit.specs.BankFacts.{all_before, count_before, is_uniform};
ghost use Rattle.audit.specs.Orders.{arrangement_in, arrangement_of, bytes_at, has_full_bank, held_in, holds_in};
ghost use Rattle.audit.specs.Orders.{is_all, is_by_number, is_complemented, most_of, order_of, parity_bit};
ghost use Rattle.audit.specs.Orders.{stands_by_number, sum_in_before, word_in_at, words_of};
ghost use Rattle.audit.specs.WordOrders.{by_extends, bytes_exchanged, extend, no_extend, partner, word_in};

use crate::bank_facts::{is_turned, is_uniform, wrong_words};
use crate::form_sums::{holds_sum, lowest_bit};
use crate::lines::{bank_of, offset_of};
use crate::ranges::{all_below, count_below};
use crate::sums::added;
use rope::{Dump, Version};
use space::{BANK_WORDS, Bank, FIXED_BANKS, Offset};
use words::Word;

/// An order of the bits and bytes of words.
#[derive(Clone, Copy, Drop)]
pub enum Order {
    /// As `agcws asm` writes an image.
    Written,
    /// The low byte of each word first.
    Exchanged,
    /// The parity bit below the highest bit.
    Hardware,
    /// Both.
    ExchangedHardware,
}

/// How an image stands.
#[derive(Clone, Copy, Drop)]
pub struct Arrangement {
    /// The order of the bits and bytes.
    pub order: Order,
    /// Each bit is the other one.
    pub is_complemented: bool,
    /// The banks stand by their numbers, and not 2, 3, 0 and 1 first.
    pub is_numbered: bool,
}

/// How many banks stand elsewhere where all stand by their numbers: the first ones.
const FIRST_BANKS: u16 = 4;

/// How many words fixed memory has.
pub const PLACES: u16 = 36 * 1024;

/// EXTEND.
pub(crate) const EXTEND: u16 = 0o6;

/// EXTEND with each bit the other one.
pub(crate) const NO_EXTEND: u16 = 0o77771;

/// So many more words of the one than of the other tell whether words are complemented.
const MANY_EXTENDS: u16 = 32;

/// How an image stands: in the order in which most banks have their own sums, complemented or not by what EXTEND is or
/// by its empty banks, and by the sums of the first four banks whether they stand by their numbers.
pub(crate) fn arrangement_of(image: &Dump) -> Arrangement
    ensures { result ≡ arrangement_of image.now }
{
    arrangement_in(order_of(image), image, is_turned(image))
}

/// How an image stands in an order.
fn arrangement_in(order: Order, image: &Dump, turned: bool) -> Arrangement
    ensures { result ≡ arrangement_in order image.now turned }
{
    Arrangement {
        order,
        is_complemented: is_complemented(order, image, turned),
        is_numbered: is_by_number(order, image),
    }
}

/// The order in which most banks have their own sums.
fn order_of(image: &Dump) -> Order
    ensures { result ≡ order_of image.now }
{
    most_of(
        held_in(Order::Written, image),
        held_in(Order::Exchanged, image),
        held_in(Order::Hardware, image),
        held_in(Order::ExchangedHardware, image),
    )
}

/// Whether the first four banks stand by their numbers, and some has more than one word.
fn is_by_number(order: Order, image: &Dump) -> bool
    ensures { result ≡ is_by_number order image.now }
{
    stand_by_number(order, image) && !are_uniform(image)
}

/// Whether each of the first four banks of more than one word has the sum of the one that stands in its place by the
/// numbers.
fn stand_by_number(order: Order, image: &Dump) -> bool
    ensures { result ≡ all_before (stands_by_number order image.now) 4 }
{
    all_below(
        FIRST_BANKS,
        |number| stands_by_number(order, image, bank_of(number)),
    )
}

/// Whether one of the first four banks has.
fn stands_by_number(order: Order, image: &Dump, bank: Bank) -> bool
    requires { bank < 4 }
    ensures { result ≡ stands_by_number order image.now bank }
{
    is_uniform(image, bank) || holds_sum(partner(bank), sum_in(order, image, bank))
}

/// Which of the first four banks stands in place of another of them where all stand by their numbers.
pub(crate) fn partner(bank: Bank) -> Bank
    requires { bank < 4 }
    ensures { result ≡ partner bank }
{
    let number = bank.number();
    if number < 2 {
        bank_of(number + 2)
    } else {
        bank_of(number - 2)
    }
}

/// Whether all words of each of the first four banks are one.
fn are_uniform(image: &Dump) -> bool
    ensures { result ≡ all_before (is_uniform image.now) 4 }
{
    all_below(FIRST_BANKS, |number| is_uniform(image, bank_of(number)))
}

/// Whether an image is complemented in an order.
fn is_complemented(order: Order, image: &Dump, turned: bool) -> bool
    ensures { result ≡ is_complemented order image.now turned }
{
    by_extends(
        words_of(order, image, EXTEND),
        words_of(order, image, NO_EXTEND),
        has_full_bank(order, image, turned),
    )
}

/// Whether words are complemented, by how many are EXTEND and how many its complement; where neither are many more, by
/// another sign.
pub(crate) fn by_extends(extends: u16, others: u16, otherwise: bool) -> bool
    requires extends { extends ≤ fixed_places }
    requires others { others ≤ fixed_places }
    ensures { result ≡ by_extends extends others otherwise }
{
    if extends + MANY_EXTENDS < others {
        true
    } else if others + MANY_EXTENDS < extends {
        false
    } else {
        otherwise
    }
}

/// How many words of an image are this one in an order.
fn words_of(order: Order, image: &Dump, word: u16) -> u16
    ensures count { result ≡ words_of order image.now word }
    ensures few { result ≤ fixed_places }
{
    count_below(PLACES, |number| is_word(order, image, word, number))
}

/// Whether the word of a number is this one.
fn is_word(order: Order, image: &Dump, word: u16, number: u16) -> bool
    requires { number < fixed_places }
    ensures { result ≡ (word_in_at order image.now (number / bank_words) (number % bank_words) == word) }
{
    let (bank, offset) = (bank_of(number / BANK_WORDS), offset_of(number % BANK_WORDS));
    word_in_at(order, image, bank, offset).to_u16() == word
}

/// Whether all words of some bank are 77777, and of none 00000.
fn has_full_bank(order: Order, image: &Dump, turned: bool) -> bool
    ensures { result ≡ has_full_bank order image.now turned }
{
    0 < banks_of(order, image, turned, 0o77777) && banks_of(order, image, turned, 0) == 0
}

/// How many banks have this word alone.
fn banks_of(order: Order, image: &Dump, turned: bool, word: u16) -> u16
    ensures count { result ≡ count_before (is_all order image.now turned word) banks }
    ensures few { result ≤ banks }
{
    count_below(
        FIXED_BANKS,
        |number| is_all(order, image, turned, word, bank_of(number)),
    )
}

/// Whether all words of a bank are this one, and have the right parity.
fn is_all(order: Order, image: &Dump, turned: bool, word: u16, bank: Bank) -> bool
    requires { bank < banks }
    ensures { result ≡ is_all order image.now turned word bank }
{
    are_all(order, image, word, bank) && wrong_words(image, turned, bank) == 0
}

/// Whether all words of a bank are this one.
fn are_all(order: Order, image: &Dump, word: u16, bank: Bank) -> bool
    requires { bank < banks }
    ensures { result ≡ all_before (λ offset. word_in_at order image.now bank offset == word) bank_words }
{
    all_below(
        BANK_WORDS,
        |number| word_in_at(order, image, bank, offset_of(number)).to_u16() == word,
    )
}

/// The order in which most banks have their own sums, by how many have: as written, where no other has more.
fn most_of(written: u16, exchanged: u16, hardware: u16, both: u16) -> Order
    ensures { result ≡ most_of written exchanged hardware both }
{
    if exchanged <= written && hardware <= written && both <= written {
        Order::Written
    } else if hardware <= exchanged && both <= exchanged {
        Order::Exchanged
    } else if both <= hardware {
        Order::Hardware
    } else {
        Order::ExchangedHardware
    }
}

/// How many banks of more than one word have their own sums in an order.
fn held_in(order: Order, image: &Dump) -> u16
    ensures count { result ≡ held_in order image.now }
    ensures few { result ≤ banks }
{
    count_below(
        FIXED_BANKS,
        |number| holds_in(order, image, bank_of(number)),
    )
}

/// Whether a bank of more than one word has its own sum in an order.
fn holds_in(order: Order, image: &Dump, bank: Bank) -> bool
    requires { bank < banks }
    ensures { result ≡ holds_in order image.now bank }
{
    !is_uniform(image, bank) && holds_sum(bank, sum_in(order, image, bank))
}

/// The sum of a bank's words in an order.
#[tactic(auto, using(crate::proofs::OrderSums::sum_first, crate::proofs::OrderSums::sum_more))]
fn sum_in(order: Order, image: &Dump, bank: Bank) -> Word
    requires { bank < banks }
    ensures { result ≡ sum_in_before order image.now bank bank_words }
{
    let mut total = Word::ZERO;
    for number in 0..BANK_WORDS {
        total = added(total, word_in_at(order, image, bank, offset_of(number)));
    }
    total
}

/// The word that the two bytes at a place are in an order.
fn word_in_at(order: Order, image: &Dump, bank: Bank, offset: Offset) -> Word
    requires { bank < banks }
    ensures { result ≡ word_in_at order image.now bank offset }
{
    word_in(order, bytes_at(image, bank, offset))
}

/// The two bytes at a place as a number.
fn bytes_at(image: &Dump, bank: Bank, offset: Offset) -> u16
    requires { bank < banks }
    ensures { result ≡ bytes_at image.now bank offset }
{
    2 * image.word(bank, offset).to_u16() + parity_bit(image, bank, offset)
}

/// The parity bit that stands at a place.
fn parity_bit(image: &Dump, bank: Bank, offset: Offset) -> u16
    requires { bank < banks }
    ensures bit { result ≡ parity_bit image.now bank offset }
    ensures range { result ≤ 1 }
{
    let bit = lowest_bit(Version::Two, image.word(bank, offset));
    if image.has_parity(bank, offset) {
        bit
    } else {
        1 - bit
    }
}

/// The word that two bytes are in an order.
pub(crate) fn word_in(order: Order, bytes: u16) -> Word
    ensures { result ≡ word_in order bytes }
{
    match order {
        Order::Written => Word::of_low_bits(bytes / 2),
        Order::Exchanged => Word::of_low_bits(bytes_exchanged(bytes) / 2),
        Order::Hardware => of_hardware(bytes),
        Order::ExchangedHardware => of_hardware(bytes_exchanged(bytes)),
    }
}

/// Two bytes, the second one first.
fn bytes_exchanged(bytes: u16) -> u16
    ensures { result ≡ bytes_exchanged bytes }
{
    bytes % 0o400 * 0o400 + bytes / 0o400
}

/// The word that two bytes are where the parity bit stands below the highest one.
fn of_hardware(bytes: u16) -> Word
    ensures { result ≡ reordered bytes / 2 }
{
    Word::of_low_bits(bytes / 0o100000 * 0o40000 + bytes % 0o40000)
}
