//! The names of symbols, by their form.

ghost use Rattle.std.specs.Prelude.{◌≡◌, ◌==◌, if◌then◌else◌, Some, None};
ghost use Rattle.std.specs.List.{list_any};
ghost use Rattle.yayul.specs.Forms.{is_name};

use crate::number::{begins_with_sign, is_digits};
use symbols::{NAME_LENGTH, Name};

// The name of these characters, where they have the form of one.
pub(crate) fn name_of(text: &[u8]) -> Option<Name>
    ensures { result ≡ (if is_name text.now then Some text.now else None) }
{
    if is_name(text) {
        Name::try_new(text)
    } else {
        None
    }
}

// Whether a text has the form of a name.
pub fn is_name(text: &[u8]) -> bool
    ensures { result ≡ is_name text.now }
{
    !text.is_empty()
        && text.len() <= NAME_LENGTH
        && !holds_dollar_sign(text)
        && !begins_with_sign(text)
        && !is_digits(text)
}

pub(crate) fn holds_dollar_sign(text: &[u8]) -> bool
    ensures { result ≡ list_any (λ byte. byte == 0o44) text.now }
{
    text.iter().any(|byte| *byte == b'$')
}
