//! The bytes of the fields of a line.

ghost use Rattle.std.specs.Prelude.{◌≡◌};
ghost use Rattle.std.specs.Option.{option_map};
ghost use Rattle.agc_text.specs.Views.{piece};
ghost use Rattle.warnings.specs.Fields.{begins, is_signed, text_of};

use agc_text::Field;

/// The bytes of a field, none where it does not stand.
pub fn text_of(field: Option<Field<'_>>) -> &[u8]
    ensures { result.now ≡ text_of (option_map piece field.entry) }
{
    match field {
        Some(field) => field.text,
        None => b"",
    }
}

/// Whether a text begins with a byte.
pub fn begins(byte: u8, text: &[u8]) -> bool
    ensures { result ≡ begins byte text.now }
{
    match text.first() {
        Some(first) => *first == byte,
        None => false,
    }
}

/// Whether a plus or a minus sign stands first.
pub fn is_signed(text: &[u8]) -> bool
    ensures { result ≡ is_signed text.now }
{
    begins(b'+', text) || begins(b'-', text)
}
