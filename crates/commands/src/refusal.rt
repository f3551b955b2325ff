//! What an extended session says of a line that is no command.

ghost use Rattle.std.specs.Prelude.{◌≡◌, ◌+◌, ◌≤◌, ◌++◌, All, IfSome, drop, find, if◌then◌else◌, length, take};
ghost use Rattle.std.specs.Option.{option_map};
ghost use Rattle.agc_text.specs.Fields.{runs, texts};
ghost use Rattle.commands.specs.Commands.{before_comma, after_comma};
ghost use Rattle.commands.specs.Refusals.{begins_with_place, breakpoint_place_field, place_field, is_no_symbol};
ghost use Rattle.commands.specs.Refusals.{missing_symbol, erasable_breakpoint_field, erasable_field};
ghost use Rattle.commands.specs.Refusals.{is_in_fixed_memory, fixed_field, octal_fields, is_beyond_octal, is_no_octal};
ghost use Rattle.commands.specs.Refusals.{is_octal, is_numbered, no_such, wrong_form, refusal_line};

use crate::fields::is_word;
use crate::named_places::{begins_with_plus, named_place};
use crate::phrase::Phrase;
use crate::subject::channel_named;
use crate::usage::usage_of;
use agc_text::{decimal_value, length_before_byte, octal_value, split_field};
use space::place::Linear;
use symbols::Symbols;

// The refusal of a line that is no command.
pub(crate) fn refusal_line(symbols: &Symbols, name: &[u8], rest: &[u8]) -> Phrase
    requires name { length name.now ≤ 80 }
    requires fields { All (λ field. length field ≤ 80) (texts (runs rest.now)) }
    ensures { result ≡ refusal_line symbols.now name.now (texts (runs rest.now)) }
{
    let mut phrase = Phrase::new();
    phrase.push(b"E50 COMMAND ");
    match usage_of(name) {
        None => {
            phrase.push(b"no command ");
            phrase.push(name);
        }
        Some(usage) => push_wrong_form(&mut phrase, symbols, name, rest, usage.takes.as_bytes()),
    }
    phrase.push(b"\n");
    phrase
}

// Adds why a line has no form of its command.
fn push_wrong_form(phrase: &mut Phrase, symbols: &Symbols, name: &[u8], rest: &[u8], takes: &[u8])
    requires phrase { length phrase.old ≤ 12 }
    requires name { length name.now ≤ 80 }
    requires fields { All (λ field. length field ≤ 80) (texts (runs rest.now)) }
    requires takes { length takes.now ≤ 48 }
    ensures text { phrase.new ≡ phrase.old ++ wrong_form symbols.now name.now (texts (runs rest.now)) takes.now }
    ensures short { length phrase.new ≤ 184 }
{
    if let Some(field) = number_not_octal(symbols, name, rest) {
        phrase.push(b"numbers of places, channels and words are octal, and ");
        phrase.push(field);
        phrase.push(b" has a digit 8 or 9");
    } else if let Some(symbol) = missing_symbol(symbols, name, rest) {
        push_no_such(phrase, symbol);
    } else if let Some(field) = fixed_field(symbols, name, rest) {
        phrase.push(field);
        phrase.push(b" is in fixed memory, whose words never change");
    } else {
        phrase.push(name);
        phrase.push(b" takes ");
        phrase.push(takes);
    }
}

// Adds what is said of a field that names no place.
fn push_no_such(phrase: &mut Phrase, field: &[u8])
    requires phrase { length phrase.old ≤ 12 }
    requires field { length field.now ≤ 80 }
    ensures text { phrase.new ≡ phrase.old ++ no_such field.now }
    ensures short { length phrase.new ≤ 184 }
{
    if is_numbered(field) {
        phrase.push(b"no place ");
        phrase.push(field);
        phrase.push(
            b": places are octal, to 7777, or BANK,OFFSET to 47,1777, or as a listing has them",
        );
    } else {
        phrase.push(b"no symbol ");
        phrase.push(field);
    }
}

// Whether a field is the number of a place, or a bank and an octal number beside a comma.
fn is_numbered(field: &[u8]) -> bool
    ensures { result ≡ is_numbered field.now }
{
    let length = length_before_byte(field, b',');
    let first = if !field.is_empty() && &field[..1] == "E".as_bytes() {
        &field[1.min(length)..length]
    } else {
        &field[..length]
    };
    is_octal(field) || is_octal(first) && length < field.len() && is_octal(&field[length + 1..])
}

// Whether octal digits stand there.
fn is_octal(text: &[u8]) -> bool
    ensures { result ≡ is_octal text.now }
{
    octal_value(text).is_some()
}

// The first of the fields in which octal numbers stand that is none.
fn number_not_octal<'a>(symbols: &Symbols, name: &[u8], rest: &'a [u8]) -> Option<&'a [u8]>
    requires { All (λ field. length field ≤ 80) (texts (runs rest.now)) }
    ensures field { option_map (λ field. field.now) result
        ≡ find (is_no_octal symbols.now) (octal_fields name.now (texts (runs rest.now))) }
    ensures short { IfSome result (λ field. length field.now ≤ 80) }
{
    let (first, more) = split_field(rest)?;
    if is_word(name, "break") {
        return first_not_octal(symbols, more);
    }
    let begins_with_place = begins_with_place(name);
    if !begins_with_place && !is_word(name, "chan") {
        return None;
    }
    if is_no_octal(symbols, first) {
        return Some(first);
    }
    match split_field(more) {
        Some((next, _))
            if begins_with_place && begins_with_plus(next) && is_no_octal(symbols, next) => {
            Some(next)
        }
        _ => None,
    }
}

// The first of three fields that is no octal number.
fn first_not_octal<'a>(symbols: &Symbols, rest: &'a [u8]) -> Option<&'a [u8]>
    requires { All (λ field. length field ≤ 80) (texts (runs rest.now)) }
    ensures field { option_map (λ field. field.now) result
        ≡ find (is_no_octal symbols.now) (take 3 (texts (runs rest.now))) }
    ensures short { IfSome result (λ field. length field.now ≤ 80) }
{
    let (first, rest) = split_field(rest)?;
    if is_no_octal(symbols, first) {
        return Some(first);
    }
    let (second, rest) = split_field(rest)?;
    if is_no_octal(symbols, second) {
        return Some(second);
    }
    match split_field(rest) {
        Some((third, _)) if is_no_octal(symbols, third) => Some(third),
        _ => None,
    }
}

// Whether a field that is no symbol has digits of which one is 8 or 9: alone, after a plus sign, or beside a comma.
fn is_no_octal(symbols: &Symbols, field: &[u8]) -> bool
    ensures { result ≡ is_no_octal symbols.now field.now }
{
    if symbols.symbol(field).is_some() {
        return false;
    }
    let length = length_before_byte(field, b',');
    let first = if begins_with_plus(field) {
        &field[1..]
    } else {
        &field[..length]
    };
    is_beyond_octal(first) || length < field.len() && is_beyond_octal(&field[length + 1..])
}

// Whether decimal digits stand there, of which one is 8 or 9.
fn is_beyond_octal(text: &[u8]) -> bool
    ensures { result ≡ is_beyond_octal text.now }
{
    decimal_value(text).is_some() && octal_value(text).is_none()
}

// The symbol that is missing where a place is named.
fn missing_symbol<'a>(symbols: &Symbols, name: &[u8], rest: &'a [u8]) -> Option<&'a [u8]>
    requires { All (λ field. length field ≤ 80) (texts (runs rest.now)) }
    ensures symbol { option_map (λ symbol. symbol.now) result
        ≡ missing_symbol symbols.now (place_field name.now (texts (runs rest.now))) }
    ensures short { IfSome result (λ symbol. length symbol.now ≤ 80) }
{
    match place_field(name, rest) {
        Some(field) if is_no_symbol(symbols, field) => Some(field),
        _ => None,
    }
}

// Whether a field names no place, and is no symbol and no channel.
fn is_no_symbol(symbols: &Symbols, field: &[u8]) -> bool
    ensures { result ≡ is_no_symbol symbols.now field.now }
{
    named_place(symbols, field).is_none()
        && symbols.symbol(field).is_none()
        && channel_named(symbols, field).is_none()
}

// The field that names a place.
fn place_field<'a>(name: &[u8], rest: &'a [u8]) -> Option<&'a [u8]>
    requires { All (λ field. length field ≤ 80) (texts (runs rest.now)) }
    ensures field { option_map (λ field. field.now) result ≡ place_field name.now (texts (runs rest.now)) }
    ensures short { IfSome result (λ field. length field.now ≤ 80) }
{
    let (first, rest) = split_field(rest)?;
    if begins_with_place(name) {
        Some(first)
    } else if is_word(name, "break") {
        breakpoint_place_field(first, rest)
    } else {
        None
    }
}

// Whether it is the name of a command that begins with a place.
fn begins_with_place(name: &[u8]) -> bool
    ensures { result ≡ begins_with_place name.now }
{
    is_word(name, "mem")
        || is_word(name, "last")
        || is_word(name, "why")
        || is_word(name, "list")
        || is_word(name, "value")
        || is_word(name, "never")
}

// The field of `break` that names a place.
fn breakpoint_place_field<'a>(kind: &[u8], rest: &'a [u8]) -> Option<&'a [u8]>
    requires { All (λ field. length field ≤ 80) (texts (runs rest.now)) }
    ensures field { option_map (λ field. field.now) result ≡ breakpoint_place_field kind.now (texts (runs rest.now)) }
    ensures short { IfSome result (λ field. length field.now ≤ 80) }
{
    let (field, _) = split_field(rest)?;
    if is_word(kind, "chan") {
        None
    } else {
        Some(field)
    }
}

// The field that names an erasable place alone, where it names one of fixed memory.
fn fixed_field<'a>(symbols: &Symbols, name: &[u8], rest: &'a [u8]) -> Option<&'a [u8]>
    requires { All (λ field. length field ≤ 80) (texts (runs rest.now)) }
    ensures field { option_map (λ field. field.now) result
        ≡ fixed_field symbols.now (erasable_field name.now (texts (runs rest.now))) }
    ensures short { IfSome result (λ field. length field.now ≤ 80) }
{
    match erasable_field(name, rest) {
        Some(field) if is_in_fixed_memory(named_place(symbols, field)) => Some(field),
        _ => None,
    }
}

// Whether a place is one of fixed memory.
fn is_in_fixed_memory(place: Option<Linear>) -> bool
    ensures { result ≡ is_in_fixed_memory place }
{
    matches!(place, Some(Linear::Fixed(..)))
}

// The field that names an erasable place alone.
fn erasable_field<'a>(name: &[u8], rest: &'a [u8]) -> Option<&'a [u8]>
    requires { All (λ field. length field ≤ 80) (texts (runs rest.now)) }
    ensures field { option_map (λ field. field.now) result ≡ erasable_field name.now (texts (runs rest.now)) }
    ensures short { IfSome result (λ field. length field.now ≤ 80) }
{
    let (first, rest) = split_field(rest)?;
    if is_word(name, "last") || is_word(name, "why") {
        Some(first)
    } else if is_word(name, "break") {
        erasable_breakpoint_field(first, rest)
    } else {
        None
    }
}

// The field of `break` that names an erasable place alone.
fn erasable_breakpoint_field<'a>(kind: &[u8], rest: &'a [u8]) -> Option<&'a [u8]>
    requires { All (λ field. length field ≤ 80) (texts (runs rest.now)) }
    ensures field { option_map (λ field. field.now) result
        ≡ erasable_breakpoint_field kind.now (texts (runs rest.now)) }
    ensures short { IfSome result (λ field. length field.now ≤ 80) }
{
    let (field, _) = split_field(rest)?;
    if is_word(kind, "word") || is_word(kind, "change") {
        Some(field)
    } else {
        None
    }
}
