//! Which values an argument takes.

ghost use Rattle.std.specs.Prelude.{◌≡◌, ◌&&◌, nat_le};
ghost use Rattle.command_line.specs.Values.{takes_value, takes_many, word_count, takes_number, accepts, is_among};
ghost use Rattle.command_line.specs.Values.{is_within};

use crate::row::{MOST_LINKS, MOST_STEPS, Value};

/// Whether it takes a value at all.
pub(crate) fn takes_value(value: Value) -> bool
    ensures { result ≡ takes_value value }
{
    !matches!(value, Value::Nothing)
}

/// Whether it takes any number of words, one after another.
pub(crate) fn takes_many(value: Value) -> bool
    ensures { result ≡ takes_many value }
{
    matches!(value, Value::Texts | Value::SomeTexts)
}

/// How many words it takes at once.
pub(crate) fn word_count(value: Value) -> usize
    ensures { result ≡ word_count value }
{
    match value {
        Value::TwoTexts => 2,
        _ => 1,
    }
}

/// Whether a number below zero is a value of it, which is then no number that it takes.
pub(crate) fn takes_number(value: Value) -> bool
    ensures { result ≡ takes_number value }
{
    matches!(value, Value::Steps)
}

/// The least and the most number that it takes, where it takes a number.
pub(crate) fn bounds(value: Value) -> Option<(u64, u64)> {
    match value {
        Value::Step | Value::Steps => Some((0, MOST_STEPS)),
        Value::Links => Some((1, MOST_LINKS)),
        _ => None,
    }
}

/// The names of which it takes one, where it does.
pub(crate) fn choices(value: Value) -> Option<&'static [&'static str]> {
    match value {
        Value::OneOf(names) | Value::OneOfMany(names) => Some(names),
        _ => None,
    }
}

/// Whether a text is a value of it.
pub(crate) fn accepts(value: Value, text: &str) -> bool
    ensures { result ≡ accepts value text.now }
{
    match value {
        Value::OneOf(names) | Value::OneOfMany(names) => is_among(names, text),
        Value::Step | Value::Steps => is_within(text, 0, MOST_STEPS),
        Value::Links => is_within(text, 1, MOST_LINKS),
        _ => true,
    }
}

/// Whether a text is one of some.
pub(crate) fn is_among(names: &[&str], text: &str) -> bool
    ensures { result ≡ is_among names.now text.now }
{
    for name in names {
        if *name == text {
            return true;
        }
    }
    false
}

// Whether a text is a number between two, both within.
fn is_within(text: &str, least: u64, most: u64) -> bool
    ensures { result ≡ is_within least most text.now }
{
    match text.parse::<u64>() {
        Ok(number) => is_between(number, least, most),
        Err(_) => false,
    }
}

fn is_between(number: u64, least: u64, most: u64) -> bool
    ensures { result ≡ (nat_le least number && nat_le number most) }
{
    least <= number && number <= most
}
