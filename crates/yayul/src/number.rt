//! The numbers of a source.

ghost use Rattle.std.specs.Prelude.{◌≡◌, ◌==◌, ◌-◌, ℕ, length, slice_get, take};
ghost use Rattle.std.specs.Option.{option_map};
ghost use Rattle.agc_text.specs.Digits.{digits_value, sized};
ghost use Rattle.yayul.specs.Forms.{is_sign, first_is, is_marked_decimal, number_value, number_in, octal_in, at_most};
ghost use Rattle.yayul.specs.Forms.{is_digits, greatest_number};

use crate::language::Numeral;
use agc_text::{Number, decimal_value, octal_value};
use words::Word;

/// The greatest number of a source.
const GREATEST_NUMBER: u16 = 0o77777;

// A number, which is at most 077777.
pub(crate) fn number_in(text: &[u8]) -> Numeral
    ensures { result ≡ number_in text.now }
{
    match number_value(text) {
        Some(number) => numeral_of(number),
        None => Numeral::NoForm,
    }
}

// A number of octal digits alone, which is at most 077777.
pub(crate) fn octal_in(text: &[u8]) -> Numeral
    ensures { result ≡ octal_in text.now }
{
    match octal_value(text) {
        Some(number) => numeral_of(number),
        None => Numeral::NoForm,
    }
}

// Whether a text is digits alone, or digits followed by `D`.
pub fn is_digits(text: &[u8]) -> bool
    ensures { result ≡ is_digits text.now }
{
    let digits = if is_marked_decimal(text) {
        without_last(text)
    } else {
        text
    };
    decimal_value(digits).is_some()
}

// Whether a text begins with `+` or `-`.
pub fn begins_with_sign(text: &[u8]) -> bool
    ensures { result ≡ first_is is_sign text.now }
{
    match text.first() {
        Some(byte) => *byte == b'+' || *byte == b'-',
        None => false,
    }
}

// The value of a number: digits in octal, or digits and a `D` in decimal.
pub fn number_value(text: &[u8]) -> Option<Number>
    ensures { result ≡ option_map sized (number_value text.now) }
{
    if is_marked_decimal(text) {
        decimal_value(without_last(text))
    } else {
        octal_value(text)
    }
}

fn is_marked_decimal(text: &[u8]) -> bool
    ensures { result ≡ is_marked_decimal text.now }
{
    match text.last() {
        Some(byte) => *byte == b'D',
        None => false,
    }
}

pub(crate) fn without_last(text: &[u8]) -> &[u8]
    ensures { result.now ≡ take (length text.now - 1) text.now }
{
    &text[..text.len().saturating_sub(1)]
}

// The number as a word, where it is at most 077777.
fn numeral_of(number: Number) -> Numeral
    ensures { (n : ℕ) → number ≡ sized n → result ≡ at_most greatest_number n }
{
    match number {
        Number::Small(number) => match u16::try_from(number) {
            Ok(number) if number <= GREATEST_NUMBER => Numeral::Is(Word::of_low_bits(number)),
            _ => Numeral::TooLarge,
        },
        Number::Large => Numeral::TooLarge,
    }
}
