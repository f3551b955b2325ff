//! What a line of a table of names gives.

ghost use Rattle.std.specs.Prelude.{◌≡◌};
ghost use Rattle.agc_text.specs.Fields.{runs, texts};
ghost use Rattle.names.specs.Tables.{entry, entry_of, erasable_value, fixed_value, listed_in, named, number_in};
ghost use Rattle.names.specs.Tables.{place_in};

use agc_text::{before_comment, is_text, octal, split_field};
use commands::unnamed_place;
use space::Linear;
use symbols::{FixedBank, Name, Value};
use words::Word;

/// The most digits of a number.
const OCTAL_DIGITS: usize = 5;

/// What a line gives.
#[derive(Drop)]
pub(crate) enum Entry {
    /// No field stands.
    Nothing,
    /// A name, and what it stands for.
    Names(Name, Value),
    /// It has another form.
    Wrong,
}

/// What a line gives.
#[tactic(auto, unfolding(crate::specs::Tables::entry))]
pub(crate) fn entry_in(line: &[u8]) -> Entry
    ensures { result ≡ entry line.now }
{
    if is_text(line) {
        entry_of(before_comment(line))
    } else {
        Entry::Wrong
    }
}

/// What the fields of a line give.
fn entry_of(text: &[u8]) -> Entry
    ensures { result ≡ entry_of (texts (runs text.now)) }
{
    let Some((name, rest)) = split_field(text) else {
        return Entry::Nothing;
    };
    let Some((first, rest)) = split_field(rest) else {
        return Entry::Wrong;
    };
    let Some((second, rest)) = split_field(rest) else {
        return named(name, place_in(first));
    };
    match split_field(rest) {
        Some(_) => Entry::Wrong,
        None => named(name, listed_in(first, second)),
    }
}

/// A name with its value, where both have their form.
fn named(name: &[u8], value: Option<Value>) -> Entry
    ensures { result ≡ named name.now value }
{
    match value {
        None => Entry::Wrong,
        Some(value) => match Name::try_new(name) {
            Some(name) => Entry::Names(name, value),
            None => Entry::Wrong,
        },
    }
}

/// A value by its kind, as a listing has it.
fn listed_in(kind: &[u8], text: &[u8]) -> Option<Value>
    ensures { result ≡ listed_in kind.now text.now }
{
    if kind == "FIXED".as_bytes() {
        fixed_value(place_in(text)?)
    } else if kind == "ERASABLE".as_bytes() {
        erasable_value(place_in(text)?)
    } else if kind == "NUM".as_bytes() {
        number_in(text)
    } else {
        None
    }
}

/// A place alone.
fn place_in(text: &[u8]) -> Option<Value>
    ensures { result ≡ place_in text.now }
{
    match unnamed_place(text)? {
        Linear::Erasable(place) => Some(Value::Erasable(place)),
        Linear::Fixed(bank, offset) => match FixedBank::try_new(bank.number()) {
            Some(bank) => Some(Value::Fixed(bank, offset)),
            None => None,
        },
    }
}

/// A value that is an erasable place.
fn erasable_value(value: Value) -> Option<Value>
    ensures { result ≡ erasable_value value }
{
    match value {
        Value::Erasable(_) => Some(value),
        Value::Num(_) | Value::Fixed(..) => None,
    }
}

/// A value that is a fixed place.
fn fixed_value(value: Value) -> Option<Value>
    ensures { result ≡ fixed_value value }
{
    match value {
        Value::Fixed(..) => Some(value),
        Value::Num(_) | Value::Erasable(_) => None,
    }
}

/// A number that a word holds.
fn number_in(text: &[u8]) -> Option<Value>
    ensures { result ≡ number_in text.now }
{
    match octal(text, OCTAL_DIGITS) {
        Some(number) if number <= 0o77777 => Some(Value::Num(Word::of_low_bits(number as u16))),
        Some(_) => None,
        None => None,
    }
}
