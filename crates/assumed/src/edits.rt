//! What is made of a line of an assumed form.

ghost use Rattle.std.specs.Prelude.{◌≡◌, false};
ghost use Rattle.std.specs.Option.{option_map, option_map_or};
ghost use Rattle.agc_text.specs.Views.{piece};
ghost use Rattle.agc_text.specs.Tables.{same_name};
ghost use Rattle.yayul.specs.Forms.{is_digits, is_marked_decimal};
ghost use Rattle.yayul.specs.Readings.{parts_in};
ghost use Rattle.assumed.specs.Sources.{taken_by, taken_in};
ghost use Rattle.assumed.specs.Wordings.{before_operand, digits_edit, edit_in, edit_of, erases_number};
ghost use Rattle.assumed.specs.Wordings.{has_late, has_late_digit, marked, operator_edit, takes_digits};

use crate::wording::Wording;
use agc_text::Field;
use yayul::{Reading, Role, is_count, is_digits};

/// Some bytes of a line in place of others.
#[derive(Clone, Copy, Drop)]
pub(crate) struct LineEdit {
    /// From this place on.
    pub(crate) start: usize,
    /// So many bytes are kept.
    pub(crate) kept: usize,
    /// So many after them are replaced.
    pub(crate) cut: usize,
    /// What stands in their place.
    pub(crate) text: &'static [u8],
}

/// The first of some wordings that has a line's form, and what it makes of the line.
pub(crate) fn taken_by(wordings: &[Wording], parts: &Reading<'_>) -> Option<(Wording, LineEdit)>
    ensures { option_map taken_in result ≡ taken_by wordings.now (parts_in parts.now) }
{
    let Some((wording, more)) = wordings.split_first() else {
        return None;
    };
    match edit_of(*wording, parts) {
        Some(edit) => Some((*wording, edit)),
        None => taken_by(more, parts),
    }
}

// What a wording makes of a line, where it has the form.
fn edit_of(wording: Wording, parts: &Reading<'_>) -> Option<LineEdit>
    ensures { option_map edit_in result ≡ edit_of wording (parts_in parts.now) }
{
    match wording {
        Wording::MajorMode => operator_edit(b"MM", b"DEC", parts),
        Wording::NounVerb => operator_edit(b"NV", b"VN", parts),
        Wording::FarBanks => operator_edit(b"2BCADR", b"2CADR", parts),
        Wording::Pointer => operator_edit(b"DNPTR", b"CA", parts),
        Wording::BankWord => operator_edit(b"BBCON*", b"OCT 66100", parts),
        Wording::EraseCount if erases_number(parts) => before_operand(b"+", parts),
        Wording::EraseAddress if erases_number(parts) => operator_edit(b"ERASE", b"EQUALS", parts),
        Wording::EraseCount | Wording::EraseAddress => None,
        Wording::DecimalDigits => digits_edit(parts),
    }
}

// The operator of a name is replaced.
fn operator_edit(name: &[u8], text: &'static [u8], parts: &Reading<'_>) -> Option<LineEdit>
    ensures { option_map edit_in result ≡ operator_edit name.now text.now (parts_in parts.now) }
{
    match parts.operator {
        Some(operator) if operator.text == name => Some(LineEdit {
            start: operator.start,
            kept: 0,
            cut: operator.text.len(),
            text,
        }),
        _ => None,
    }
}

// Whether ERASE stands with digits alone.
fn erases_number(parts: &Reading<'_>) -> bool
    ensures { result ≡ erases_number (parts_in parts.now) }
{
    is_named(parts.operator, b"ERASE") && has_digits(parts.operand) && parts.offset.is_none()
}

fn is_named(field: Option<Field<'_>>, name: &[u8]) -> bool
    ensures { result ≡ option_map_or (λ p. same_name p.text name.now) (option_map piece field.entry) false }
{
    match field {
        Some(field) => field.text == name,
        None => false,
    }
}

fn has_digits(field: Option<Field<'_>>) -> bool
    ensures { result ≡ option_map_or (λ p. is_digits p.text) (option_map piece field.entry) false }
{
    match field {
        Some(field) => is_digits(field.text),
        None => false,
    }
}

// A text stands right before the operand.
fn before_operand(text: &'static [u8], parts: &Reading<'_>) -> Option<LineEdit>
    ensures { option_map edit_in result ≡ before_operand text.now (parts_in parts.now) }
{
    match parts.operand {
        Some(operand) => Some(LineEdit {
            start: operand.start,
            kept: 0,
            cut: 0,
            text,
        }),
        None => None,
    }
}

// A D stands after digits with an 8 or a 9, of the operand, else of the offset.
fn digits_edit(parts: &Reading<'_>) -> Option<LineEdit>
    ensures { option_map edit_in result ≡ digits_edit (parts_in parts.now) }
{
    match parts.role {
        Some(role) if !takes_digits(role) => match marked(parts.operand) {
            Some(edit) => Some(edit),
            None => marked(parts.offset),
        },
        _ => None,
    }
}

// Whether an operator takes octal digits alone, or decimal ones as they stand.
fn takes_digits(role: Role) -> bool
    ensures { result ≡ takes_digits role }
{
    match role {
        Role::Octal | Role::OctalPair | Role::VerbNoun | Role::Decimal | Role::DecimalPair => true,
        _ => false,
    }
}

// A D stands right after a field of such digits.
fn marked(field: Option<Field<'_>>) -> Option<LineEdit>
    ensures { option_map edit_in result ≡ marked (option_map piece field.entry) }
{
    match field {
        Some(field) if has_late_digit(field.text) => Some(LineEdit {
            start: field.start,
            kept: field.text.len(),
            cut: 0,
            text: b"D",
        }),
        _ => None,
    }
}

// Whether a text is digits, or a sign and digits, one of them 8 or 9, and no D after them.
fn has_late_digit(text: &[u8]) -> bool
    ensures { result ≡ has_late_digit text.now }
{
    (is_digits(text) || is_count(text)) && !is_marked_decimal(text) && has_late(text)
}

// Whether a D ends a text.
fn is_marked_decimal(text: &[u8]) -> bool
    ensures { result ≡ is_marked_decimal text.now }
{
    match text.last() {
        Some(byte) => *byte == b'D',
        None => false,
    }
}

// Whether an 8 or a 9 is among some bytes.
fn has_late(text: &[u8]) -> bool
    ensures { result ≡ has_late text.now }
{
    text.iter().any(|byte| *byte == b'8' || *byte == b'9')
}
