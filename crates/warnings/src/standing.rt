//! Where a line stands, as far as the fields of the lines before it tell.

ghost use Rattle.std.specs.Prelude.{◌≡◌, ◌||◌};
ghost use Rattle.yayul.specs.Readings.{parts_in};
ghost use Rattle.warnings.specs.Warnings.{number_beside, place_past, place_after, bank_after, is_same_known};
ghost use Rattle.warnings.specs.Warnings.{leads_on, small_number};

use crate::fields::text_of;
use crate::flow::word_count;
use crate::roles::Class;
use crate::warning::{has_alone, reserves_one};
use agc_text::{Number, octal_value};
use yayul::Reading;

/// One past the last place of bank 3, as SETLOC takes it.
const END: u32 = 0o10000;

/// The number of the place that follows a line, by that of the place before it.
pub(crate) fn place_after(place: Option<u32>, parts: &Reading<'_>) -> Option<u32>
    ensures { result ≡ place_after place (parts_in parts.now) }
{
    if Class::Setloc.has(parts.role) {
        number_beside(Class::Setloc.has(parts.role), parts)
    } else if Class::NamesBank.has(parts.role) {
        None
    } else if Class::Erase.has(parts.role) {
        if reserves_one(parts) {
            place_past(1, place)
        } else {
            None
        }
    } else {
        place_past(word_count(parts), place)
    }
}

/// The bank behind whose words the next stands, after a line.
pub(crate) fn bank_after(bank: Option<u32>, parts: &Reading<'_>) -> Option<u32>
    ensures { result ≡ bank_after bank (parts_in parts.now) }
{
    if Class::Setloc.has(parts.role) {
        None
    } else if Class::NamesBank.has(parts.role) {
        number_beside(Class::NamesBank.has(parts.role), parts)
    } else {
        bank
    }
}

/// Whether a line leads to the place where it stands.
pub(crate) fn leads_on(place: Option<u32>, bank: Option<u32>, parts: &Reading<'_>) -> bool
    ensures { result ≡ leads_on place bank (parts_in parts.now) }
{
    is_same_known(place, number_beside(Class::Setloc.has(parts.role), parts))
        || is_same_known(bank, number_beside(Class::NamesBank.has(parts.role), parts))
}

/// Whether two numbers are known and the same.
pub(crate) fn is_same_known(one: Option<u32>, other: Option<u32>) -> bool
    ensures { result ≡ is_same_known one other }
{
    match (one, other) {
        (Some(one), Some(other)) => one == other,
        _ => false,
    }
}

// The place after so many words.
fn place_past(count: u8, place: Option<u32>) -> Option<u32>
    ensures { result ≡ place_past count place }
{
    match place {
        Some(number) if number < END => Some(number + u32::from(count)),
        _ => None,
    }
}

// The number that a line's operand is in octal, where this is so of its operator and no offset stands.
fn number_beside(condition: bool, parts: &Reading<'_>) -> Option<u32>
    ensures { result ≡ number_beside condition (parts_in parts.now) }
{
    if has_alone(condition, parts) {
        small_number(octal_value(text_of(parts.operand)))
    } else {
        None
    }
}

/// A number that is told itself.
pub(crate) fn small_number(number: Option<Number>) -> Option<u32>
    ensures { result ≡ small_number number }
{
    match number {
        Some(Number::Small(number)) => Some(number),
        _ => None,
    }
}
