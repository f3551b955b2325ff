//! The places of the commands of an extended session.

ghost use Rattle.std.specs.Prelude.{◌≡◌, ◌≤◌, ◌==◌, All, IfSome, length, option_and_then, if◌then◌else◌};
ghost use Rattle.agc_text.specs.Fields.{runs, texts};
ghost use Rattle.space.specs.Places.{window};
ghost use Rattle.commands.specs.NamedPlaces.{in_erasable_bank, in_fixed_bank, erasable_bank_in};
ghost use Rattle.commands.specs.NamedPlaces.{place_of_bank, listed_place, unnamed_place, further_place, named_place};
ghost use Rattle.commands.specs.NamedPlaces.{own_place, moved_on, begins_with_plus, words_on, place_first, after_place};

use crate::fields::{OCTAL_DIGITS, bank_in};
use crate::places::{fixed_place_in, numbered_place, place_in};
use agc_text::{length_before_byte, octal, split_field};
use space::place::Linear;
use space::{BANK_WORDS, Bank, Eras, Offset, window};
use symbols::{Symbols, register_place};

/// How many words an erasable bank has.
const ERASABLE_BANK_WORDS: u16 = 0o400;

// The place that some fields begin with.
pub(crate) fn place_first(symbols: &Symbols, rest: &[u8]) -> Option<Linear>
    ensures { result ≡ place_first symbols.now (texts (runs rest.now)) }
{
    let (field, rest) = split_field(rest)?;
    let place = named_place(symbols, field);
    match split_field(rest) {
        None => place,
        Some((next, _)) => moved_by(place, next),
    }
}

// A place, moved on by a field that begins with a plus sign.
fn moved_by(place: Option<Linear>, field: &[u8]) -> Option<Linear>
    ensures { result ≡ (if begins_with_plus field.now then option_and_then (λ k. option_and_then (moved_on k) place)
        (words_on field.now) else place) }
{
    if !begins_with_plus(field) {
        return place;
    }
    let words = words_on(field)?;
    match place {
        Some(place) => moved_on(words, place),
        None => None,
    }
}

// What stands after the place that some fields begin with.
pub(crate) fn after_place(rest: &[u8]) -> &[u8]
    requires { All (λ field. length field ≤ 80) (texts (runs rest.now)) }
    ensures fields { texts (runs result.now) ≡ after_place (texts (runs rest.now)) }
    ensures short { All (λ field. length field ≤ 80) (texts (runs result.now)) }
{
    let Some((_, after)) = split_field(rest) else {
        return rest;
    };
    match split_field(after) {
        Some((next, more)) if begins_with_plus(next) => more,
        _ => after,
    }
}

/// A place as any session takes it; where no symbol has the name, by a register's or a counter's, or as a listing has
/// it.
pub fn named_place(symbols: &Symbols, field: &[u8]) -> Option<Linear>
    ensures { result ≡ named_place symbols.now field.now }
{
    if let Some(place) = place_in(symbols, field) {
        return Some(place);
    }
    if symbols.symbol(field).is_some() {
        return None;
    }
    further_place(field)
}

/// A place for which no symbol is needed: a number's, a bank and an offset as `02,0013`, or as a listing has it, as
/// `02,4013` and
/// `E3,1400`.
pub fn unnamed_place(field: &[u8]) -> Option<Linear>
    ensures { result ≡ unnamed_place field.now }
{
    if let Some(place) = numbered_place(field) {
        return Some(place);
    }
    match fixed_place_in(field) {
        Some(place) => Some(place),
        None => listed_place(field),
    }
}

// A place that neither any session knows nor a symbol names.
fn further_place(field: &[u8]) -> Option<Linear>
    ensures { result ≡ further_place field.now }
{
    match own_place(field) {
        Some(place) => Some(place),
        None => listed_place(field),
    }
}

// The place of a register or of a counter, by its own name.
fn own_place(field: &[u8]) -> Option<Linear>
    ensures { result ≡ own_place field.now }
{
    numbered_place(register_place(field)?)
}

// A place as a listing has it.
fn listed_place(field: &[u8]) -> Option<Linear>
    ensures { result ≡ listed_place field.now }
{
    let length = length_before_byte(field, b',');
    if length == field.len() {
        return None;
    }
    let address = octal(&field[length + 1..], OCTAL_DIGITS)?;
    place_of_bank(&field[..length], address)
}

// The place of a bank that a program reaches at an address.
fn place_of_bank(bank: &[u8], address: u64) -> Option<Linear>
    ensures { result ≡ place_of_bank bank.now address }
{
    if !bank.is_empty() && &bank[..1] == "E".as_bytes() {
        in_erasable_bank(erasable_bank_in(bank)?, address)
    } else {
        in_fixed_bank(bank_in(bank)?, address)
    }
}

// An erasable bank.
fn erasable_bank_in(text: &[u8]) -> Option<u16>
    requires { 1 ≤ length text.now }
    ensures bank { result ≡ erasable_bank_in text.now }
    ensures few { IfSome result (λ n. n ≤ 7) }
{
    match octal(&text[1..], OCTAL_DIGITS) {
        Some(number) if number <= 7 => Some(number as u16),
        Some(_) => None,
        None => None,
    }
}

// The place of an erasable bank.
fn in_erasable_bank(bank: u16, address: u64) -> Option<Linear>
    requires { bank ≤ 7 }
    ensures { result ≡ in_erasable_bank bank address }
{
    let offset = (address % u64::from(ERASABLE_BANK_WORDS)) as u16;
    let place = Eras::of_low_bits(ERASABLE_BANK_WORDS * bank + offset);
    if is_reached_at(address, Linear::Erasable(place)) {
        Some(Linear::Erasable(place))
    } else {
        None
    }
}

// The place of a fixed bank.
fn in_fixed_bank(bank: Bank, address: u64) -> Option<Linear>
    ensures { result ≡ in_fixed_bank bank address }
{
    let offset = Offset::of_low_bits((address % u64::from(BANK_WORDS)) as u16);
    if is_reached_at(address, Linear::Fixed(bank, offset)) {
        Some(Linear::Fixed(bank, offset))
    } else {
        None
    }
}

// Whether a program reaches a place at an address.
fn is_reached_at(address: u64, place: Linear) -> bool
    ensures { result ≡ (window place == address) }
{
    u64::from(window(place).number()) == address
}

/// Whether a field begins with a plus sign.
pub fn begins_with_plus(field: &[u8]) -> bool
    ensures { result ≡ begins_with_plus field.now }
{
    !field.is_empty() && &field[..1] == "+".as_bytes()
}

// The number of words after a plus sign.
fn words_on(field: &[u8]) -> Option<u64>
    requires { 1 ≤ length field.now }
    ensures { result ≡ words_on field.now }
{
    octal(&field[1..], OCTAL_DIGITS)
}

/// The place so many words on, in the same bank.
pub fn moved_on(words: u64, place: Linear) -> Option<Linear>
    ensures { result ≡ moved_on words place }
{
    match place {
        Linear::Erasable(place) => {
            if words < 0o4000 && u64::from(place.number()) + words < 0o4000 {
                Some(Linear::Erasable(Eras::of_low_bits(place.number() + words as u16)))
            } else {
                None
            }
        }
        Linear::Fixed(bank, offset) => {
            if words < 0o2000 && u64::from(offset.number()) + words < 0o2000 {
                Some(Linear::Fixed(bank, Offset::of_low_bits(offset.number() + words as u16)))
            } else {
                None
            }
        }
    }
}
