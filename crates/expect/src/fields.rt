//! The fields of a text of tests.

ghost use Rattle.std.specs.Prelude.{◌≡◌, ◌≤◌, length, option_and_then};
ghost use Rattle.commands.specs.NamedPlaces.{words_on};
ghost use Rattle.expect.specs.Fields.{decimal_in, moved_in, magnitude_in, relation_in, value_in};

use crate::claim::Relation;
use agc_text::{decimal, octal};
use commands::moved_on;
pub(crate) use commands::{begins_with_plus, channel_in, count_in, is_word};
use feed::word_in;
use space::Linear;
use words::Word;

/// The most digits of a decimal number.
const DIGITS: usize = 5;

/// The most digits of a distance in words.
const OCTAL_DIGITS: usize = 5;

/// The place so many words on, in the same bank, as a field says that begins with a plus sign.
pub(crate) fn moved_in(place: Linear, field: &[u8]) -> Option<Linear>
    requires { 1 ≤ length field.now }
    ensures { result ≡ moved_in place field.now }
{
    match octal(&field[1..], OCTAL_DIGITS) {
        Some(words) => moved_on(words, place),
        None => None,
    }
}

/// How a word has to stand to another.
pub(crate) fn relation_in(field: &[u8]) -> Option<Relation>
    ensures { result ≡ relation_in field.now }
{
    if is_word(field, "=") {
        Some(Relation::Same)
    } else if is_word(field, "<>") {
        Some(Relation::Other)
    } else if is_word(field, "<") {
        Some(Relation::Less)
    } else if is_word(field, ">") {
        Some(Relation::Greater)
    } else if is_word(field, "<=") {
        Some(Relation::AtMost)
    } else if is_word(field, ">=") {
        Some(Relation::AtLeast)
    } else {
        None
    }
}

/// A word: decimal where D ends it, else 1 to 5 octal digits.
pub(crate) fn value_in(field: &[u8]) -> Option<Word>
    ensures { result ≡ value_in field.now }
{
    let length = field.len();
    if length > 0 && field[length - 1] == b'D' {
        decimal_in(&field[..length - 1])
    } else {
        word_in(field)
    }
}

/// A decimal number that a word holds, with a sign or without.
fn decimal_in(text: &[u8]) -> Option<Word>
    ensures { result ≡ decimal_in text.now }
{
    if text.is_empty() {
        return None;
    }
    if &text[..1] == "-".as_bytes() {
        match magnitude_in(&text[1..]) {
            Some(word) => Some(word.neg()),
            None => None,
        }
    } else if &text[..1] == "+".as_bytes() {
        magnitude_in(&text[1..])
    } else {
        magnitude_in(text)
    }
}

/// A decimal number that a word holds.
fn magnitude_in(text: &[u8]) -> Option<Word>
    ensures { result ≡ magnitude_in text.now }
{
    match decimal(text, DIGITS) {
        Some(number) if number <= 0o37777 => Some(Word::of_low_bits(number as u16)),
        Some(_) => None,
        None => None,
    }
}
