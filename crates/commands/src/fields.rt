//! The fields of commands.

ghost use Rattle.std.specs.Prelude.{◌≡◌};
ghost use Rattle.agc_text.specs.Tables.{same_name};
ghost use Rattle.commands.specs.Commands.{count_in, channel_in, bank_in, offset_in};

use agc_text::{decimal, octal};
use space::{Bank, Chan, Offset};

/// The most digits of a step, and of a number of steps.
const COUNT_DIGITS: usize = 15;

/// The most digits of places, channels and words.
pub(crate) const OCTAL_DIGITS: usize = 5;

/// Whether a field is a word.
pub fn is_word(field: &[u8], word: &str) -> bool
    ensures { result ≡ same_name field.now word.now }
{
    field == word.as_bytes()
}

/// A step, or a number of steps.
pub fn count_in(field: &[u8]) -> Option<u64>
    ensures { result ≡ count_in field.now }
{
    decimal(field, COUNT_DIGITS)
}

/// A channel.
pub fn channel_in(field: &[u8]) -> Option<Chan>
    ensures { result ≡ channel_in field.now }
{
    match octal(field, OCTAL_DIGITS) {
        Some(number) if number <= 0o777 => Chan::try_new(number as u16),
        Some(_) => None,
        None => None,
    }
}

// A bank of a place, which may have no words.
pub(crate) fn bank_in(field: &[u8]) -> Option<Bank>
    ensures { result ≡ bank_in field.now }
{
    match octal(field, OCTAL_DIGITS) {
        Some(number) if number <= 0o47 => Bank::try_new(number as u16),
        Some(_) => None,
        None => None,
    }
}

// An offset.
pub(crate) fn offset_in(field: &[u8]) -> Option<Offset>
    ensures { result ≡ offset_in field.now }
{
    match octal(field, OCTAL_DIGITS) {
        Some(number) if number <= 0o1777 => Offset::try_new(number as u16),
        Some(_) => None,
        None => None,
    }
}
