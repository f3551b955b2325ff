//! Decimal constants.

ghost use Rattle.std.specs.Prelude.{◌≡◌, ◌==◌, ◌≤◌, ◌<◌, ◌^◌, ℕ, length};
ghost use Rattle.std.specs.Option.{option_map};
ghost use Rattle.agc_text.specs.Digits.{sized};
ghost use Rattle.yayul.specs.Forms.{at_most, greatest_magnitude, scaled, before_point, whole_in, fraction_in};
ghost use Rattle.yayul.specs.Forms.{magnitude_in, complemented, decimal_in};

use crate::language::Numeral;
use agc_text::{Number, decimal, decimal_value, length_before_byte};
use words::Word;

/// The greatest magnitude of a word.
const GREATEST_MAGNITUDE: u16 = 0o37777;

/// The most decimals of a fraction.
const MOST_DECIMALS: usize = 9;

// The word of a decimal constant.
pub(crate) fn decimal_in(text: &[u8]) -> Numeral
    ensures { result ≡ decimal_in text.now }
{
    match text {
        [b'+', magnitude @ ..] => magnitude_in(magnitude),
        [b'-', magnitude @ ..] => complemented(magnitude_in(magnitude)),
        _ => magnitude_in(text),
    }
}

// The complement of a word.
pub(crate) fn complemented(number: Numeral) -> Numeral
    ensures { result ≡ complemented number }
{
    match number {
        Numeral::Is(word) => Numeral::Is(word.neg()),
        Numeral::TooLarge => Numeral::TooLarge,
        Numeral::NoForm => Numeral::NoForm,
    }
}

// Digits; or a fraction: digits or none, a point and 1 to 9 digits.
fn magnitude_in(text: &[u8]) -> Numeral
    ensures { result ≡ magnitude_in text.now }
{
    let whole = before_point(text);
    if whole.len() < text.len() {
        return fraction_in(whole, &text[whole.len() + 1..]);
    }
    match decimal_value(text) {
        Some(number) => magnitude_of(number),
        None => Numeral::NoForm,
    }
}

// What stands before the first point.
pub(crate) fn before_point(text: &[u8]) -> &[u8]
    ensures value { result.now ≡ before_point text.now }
    ensures within { length result.now ≤ length text.now }
{
    &text[..length_before_byte(text, b'.')]
}

// The number as a word, where it is one of a plus sign.
fn magnitude_of(number: Number) -> Numeral
    ensures { (n : ℕ) → number ≡ sized n → result ≡ at_most greatest_magnitude n }
{
    match number {
        Number::Small(number) => word_of(u64::from(number)),
        Number::Large => Numeral::TooLarge,
    }
}

// A number as a word, where it is at most the greatest magnitude.
fn word_of(number: u64) -> Numeral
    ensures { result ≡ at_most greatest_magnitude number }
{
    match u16::try_from(number) {
        Ok(number) if number <= GREATEST_MAGNITUDE => Numeral::Is(Word::of_low_bits(number)),
        _ => Numeral::TooLarge,
    }
}

// A fraction of its digits before and after the point.
fn fraction_in(whole: &[u8], decimals: &[u8]) -> Numeral
    ensures { result ≡ fraction_in whole.now decimals.now }
{
    let Some(number) = decimal(decimals, MOST_DECIMALS) else {
        return Numeral::NoForm;
    };
    match is_zero(whole) {
        Some(true) => scaled(number, unit_of(decimals.len())),
        Some(false) => Numeral::TooLarge,
        None => Numeral::NoForm,
    }
}

// Whether digits, or none, are zero.
fn is_zero(whole: &[u8]) -> Option<bool>
    ensures { result ≡ option_map (λ w. w == 0) (whole_in whole.now) }
{
    if whole.is_empty() {
        return Some(true);
    }
    match decimal_value(whole) {
        Some(number) => Some(number == Number::Small(0)),
        None => None,
    }
}

// How many units of so many decimals there are in 1.
fn unit_of(count: usize) -> u64
    requires { count ≤ 9 }
    ensures value { result ≡ 10 ^ count }
    ensures some { 1 ≤ result }
    ensures few { result ≤ 10 ^ 9 }
{
    10_u64.pow(count as u32)
}

// The fraction that so many units of 1 are, times 2^14, to the nearest.
fn scaled(number: u64, unit: u64) -> Numeral
    requires number { number < 10 ^ 9 }
    requires some { 1 ≤ unit }
    requires few { unit ≤ 10 ^ 9 }
    ensures { result ≡ at_most greatest_magnitude (scaled number unit) }
{
    word_of((number * 0o100000 + unit) / (2 * unit))
}
