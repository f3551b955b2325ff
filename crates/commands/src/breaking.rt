//! What `break` takes in an extended session.

ghost use Rattle.std.specs.Prelude.{◌≡◌, ◌≤◌, ◌∷◌, length, All};
ghost use Rattle.agc_text.specs.Fields.{runs, texts};
ghost use Rattle.commands.specs.Extended.{bits_of, break_form, broken_at, if_none};
ghost use Rattle.commands.specs.Extended.{subject_alone, watches, watches_bits};

use crate::command::{Breakpoint, Command};
use crate::extended::{ExtendedLine, place_alone, sole};
use crate::fields::{channel_in, is_word};
use crate::named_places::after_place;
use crate::subject::{Subject, channel_subject, erasable_first, place_subject};
use agc_text::split_field;
use feed::word_in;
use space::Chan;
use symbols::Symbols;
use words::Word;

/// What `break` takes but for a channel and a word alone.
pub(crate) fn break_form(symbols: &Symbols, rest: &[u8]) -> Option<ExtendedLine>
    requires { All (λ field. length field ≤ 80) (texts (runs rest.now)) }
    ensures { result ≡ break_form symbols.now (texts (runs rest.now)) }
{
    let (kind, more) = split_field(rest)?;
    broken_by(symbols, kind, more)
}

// The breakpoint of a kind and of the fields after it.
fn broken_by(symbols: &Symbols, kind: &[u8], rest: &[u8]) -> Option<ExtendedLine>
    requires { All (λ field. length field ≤ 80) (texts (runs rest.now)) }
    ensures { result ≡ break_form symbols.now (kind.now ∷ texts (runs rest.now)) }
{
    if is_word(kind, "at") {
        let place = place_alone(symbols, rest)?;
        Some(broken_at(Breakpoint::Place(place)))
    } else if is_word(kind, "word") {
        watches(symbols, rest)
    } else if is_word(kind, "chan") {
        watches_bits(rest)
    } else if is_word(kind, "exec") {
        let place = place_alone(symbols, rest)?;
        Some(broken_at(Breakpoint::Executed(place)))
    } else if is_word(kind, "change") {
        let subject = subject_alone(symbols, rest)?;
        Some(broken_at(Breakpoint::Changed(subject)))
    } else {
        None
    }
}

// An erasable place or a channel, where no field stands after it.
fn subject_alone(symbols: &Symbols, rest: &[u8]) -> Option<Subject>
    requires { All (λ field. length field ≤ 80) (texts (runs rest.now)) }
    ensures { result ≡ subject_alone symbols.now (texts (runs rest.now)) }
{
    let (field, more) = split_field(rest)?;
    match alone(place_subject(symbols, rest), after_place(rest)) {
        Some(subject) => Some(subject),
        None => alone(channel_subject(symbols, field), more),
    }
}

// A subject, where no field stands after it.
fn alone(subject: Option<Subject>, rest: &[u8]) -> Option<Subject>
    ensures { result ≡ if_none (texts (runs rest.now)) subject }
{
    match split_field(rest) {
        None => subject,
        Some(_) => None,
    }
}

// `break` of an erasable place and a word.
fn watches(symbols: &Symbols, rest: &[u8]) -> Option<ExtendedLine>
    requires { All (λ field. length field ≤ 80) (texts (runs rest.now)) }
    ensures { result ≡ watches symbols.now (texts (runs rest.now)) }
{
    let place = erasable_first(symbols, rest)?;
    let word = word_in(sole(after_place(rest))?)?;
    Some(broken_at(Breakpoint::Word(place, word)))
}

// `break` of a channel, a word and a mask.
fn watches_bits(rest: &[u8]) -> Option<ExtendedLine>
    ensures { result ≡ watches_bits (texts (runs rest.now)) }
{
    let (channel, rest) = split_field(rest)?;
    let (word, rest) = split_field(rest)?;
    let (mask, rest) = split_field(rest)?;
    match split_field(rest) {
        None => bits_of(channel_in(channel), word_in(word), word_in(mask)),
        Some(_) => None,
    }
}

// A breakpoint on some bits of a channel, where all that it needs stands.
fn bits_of(channel: Option<Chan>, word: Option<Word>, mask: Option<Word>) -> Option<ExtendedLine>
    ensures { result ≡ bits_of channel word mask }
{
    let channel = channel?;
    let word = word?;
    let mask = mask?;
    Some(broken_at(Breakpoint::Bits(channel, word, mask)))
}

// One breakpoint more.
fn broken_at(breakpoint: Breakpoint) -> ExtendedLine
    ensures { result ≡ broken_at breakpoint }
{
    ExtendedLine::Common(Command::Break(breakpoint))
}
