//! A register's or a counter's name that stands for another place.

ghost use Rattle.std.specs.Prelude.{◌≡◌};
ghost use Rattle.yayul.specs.Readings.{parts_in};
ghost use Rattle.warnings.specs.Warnings.{is_same_number, is_zero, is_elsewhere, takes_register};

use crate::fields::text_of;
use crate::roles::Class;
use crate::standing::{is_same_known, small_number};
use crate::warning::has_alone;
use agc_text::{Number, octal_value};
use symbols::register_place;
use yayul::Reading;

/// Whether a register's name stands for another place.
pub(crate) fn takes_register(place: Option<u32>, parts: &Reading<'_>) -> bool
    ensures { result ≡ takes_register place (parts_in parts.now) }
{
    let name = text_of(parts.label);
    match register_place(name) {
        Some(register) => !is_zero(name) && is_elsewhere(place, register, parts),
        None => false,
    }
}

// Whether a line gives another number than that of a register; or stands for a place or has a word, and its place is
// not known to be the register's.
fn is_elsewhere(place: Option<u32>, register: &[u8], parts: &Reading<'_>) -> bool
    ensures { result ≡ is_elsewhere place register.now (parts_in parts.now) }
{
    if Class::Equals.has(parts.role) {
        has_alone(Class::Equals.has(parts.role), parts)
            && octal_value(text_of(parts.operand)).is_some()
            && !is_same_number(text_of(parts.operand), register)
    } else {
        !is_same_known(place, small_number(octal_value(register)))
    }
}

fn is_same_number(a: &[u8], b: &[u8]) -> bool
    ensures { result ≡ is_same_number a.now b.now }
{
    match (octal_value(a), octal_value(b)) {
        (Some(Number::Small(a)), Some(Number::Small(b))) => a == b,
        _ => false,
    }
}

// ZERO, which is often a constant.
fn is_zero(text: &[u8]) -> bool
    ensures { result ≡ is_zero text.now }
{
    text == b"ZERO".as_slice()
}
