//! The places of commands.

ghost use Rattle.std.specs.Prelude.{◌≡◌, option_and_then};
ghost use Rattle.std.specs.Option.{option_map};
ghost use Rattle.space.specs.declared.place.Linear.TheVariants as Place;
ghost use Rattle.commands.specs.Commands.{numbered_place, symbol_place, fixed_place_in, place_in, erasable_number};
ghost use Rattle.commands.specs.Commands.{erasable_in, bank_in, offset_in};

use crate::fields::{OCTAL_DIGITS, bank_in, offset_in};
use agc_text::{length_before_byte, octal};
use space::Eras;
use space::place::Linear;
use symbols::{Symbols, Value, place_of};
use words::Word;

// The place of a number.
pub(crate) fn numbered_place(field: &[u8]) -> Option<Linear>
    ensures { result ≡ numbered_place field.now }
{
    match octal(field, OCTAL_DIGITS) {
        Some(number) if number <= 0o77777 => {
            place_of(Value::Num(Word::of_low_bits(number as u16)))
        }
        Some(_) => None,
        None => None,
    }
}

// The place of a symbol.
fn symbol_place(symbols: &Symbols, field: &[u8]) -> Option<Linear>
    ensures { result ≡ symbol_place symbols.now field.now }
{
    match symbols.symbol(field) {
        Some(value) => place_of(value),
        None => None,
    }
}

// A place.
pub(crate) fn place_in(symbols: &Symbols, field: &[u8]) -> Option<Linear>
    ensures { result ≡ place_in symbols.now field.now }
{
    match numbered_place(field) {
        Some(place) => return Some(place),
        None => {}
    }
    match symbol_place(symbols, field) {
        Some(place) => Some(place),
        None => fixed_place_in(field),
    }
}

// A bank, a comma and an offset.
pub(crate) fn fixed_place_in(field: &[u8]) -> Option<Linear>
    ensures { result ≡ fixed_place_in field.now }
{
    let length = length_before_byte(field, b',');
    if length < field.len() {
        fixed_place_of(&field[..length], &field[length + 1..])
    } else {
        None
    }
}

// A bank and an offset.
fn fixed_place_of(bank: &[u8], offset: &[u8]) -> Option<Linear>
    ensures { result ≡ option_and_then (λ b. option_map (λ o. Place.Fixed b o) (offset_in offset.now))
        (bank_in bank.now) }
{
    match bank_in(bank) {
        Some(number) => match offset_in(offset) {
            Some(place) => Some(Linear::Fixed(number, place)),
            None => None,
        },
        None => None,
    }
}

/// The number of an erasable place.
pub fn erasable_number(place: Linear) -> Option<Eras>
    ensures { result ≡ erasable_number place }
{
    match place {
        Linear::Erasable(number) => Some(number),
        Linear::Fixed(..) => None,
    }
}

// An erasable place.
pub(crate) fn erasable_in(symbols: &Symbols, field: &[u8]) -> Option<Eras>
    ensures { result ≡ erasable_in symbols.now field.now }
{
    match place_in(symbols, field) {
        Some(place) => erasable_number(place),
        None => None,
    }
}
