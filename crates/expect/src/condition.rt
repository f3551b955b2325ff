//! The condition that a line states.

ghost use Rattle.std.specs.Prelude.{◌≡◌, ◌≤◌};
ghost use Rattle.agc_text.specs.Fields.{runs, texts};
ghost use Rattle.commands.specs.Commands.{erasable_number};
ghost use Rattle.expect.specs.Lines.{condition_at, related_at, compared_at, ended_at, moved_at, with_cell, with_moved};

use crate::claim::{Condition, Relation};
use crate::fields::{begins_with_plus, moved_in, relation_in, value_in};
use crate::refusal::{Asked, Wrong};
use agc_text::split_field;
use commands::{erasable_number, named_place};
use space::{Eras, Linear};
use symbols::Symbols;

/// The condition that some fields state, of which the first has a number: a place, a relation and a word.
pub(crate) fn condition_at(symbols: &Symbols, at: u64, fields: &[u8]) -> Result<Condition, Wrong>
    requires { at ≤ 8 }
    ensures { result ≡ condition_at symbols.now at (texts (runs fields.now)) }
{
    let Some((field, rest)) = split_field(fields) else {
        return Err(wrong(at, Asked::Cell));
    };
    match named_place(symbols, field) {
        Some(place) => moved_at(at, place, rest),
        None => Err(wrong(at, Asked::Cell)),
    }
}

/// The same, where a place is known that may be moved on.
fn moved_at(at: u64, place: Linear, fields: &[u8]) -> Result<Condition, Wrong>
    requires { at ≤ 8 }
    ensures { result ≡ moved_at at place (texts (runs fields.now)) }
{
    match split_field(fields) {
        Some((field, rest)) if begins_with_plus(field) => {
            with_moved(at, moved_in(place, field), rest)
        }
        Some(_) => with_cell(at, at + 1, place, fields),
        None => with_cell(at, at + 1, place, fields),
    }
}

/// The same, where it was moved on.
fn with_moved(at: u64, place: Option<Linear>, fields: &[u8]) -> Result<Condition, Wrong>
    requires { at ≤ 8 }
    ensures { result ≡ with_moved at place (texts (runs fields.now)) }
{
    match place {
        Some(place) => with_cell(at, at + 2, place, fields),
        None => Err(wrong(at + 1, Asked::Offset)),
    }
}

/// The same, where the place is to be erasable, and what follows has a number.
fn with_cell(at: u64, next: u64, place: Linear, fields: &[u8]) -> Result<Condition, Wrong>
    requires { next ≤ 10 }
    ensures { result ≡ with_cell at next (erasable_number place) (texts (runs fields.now)) }
{
    match erasable_number(place) {
        Some(place) => related_at(place, next, fields),
        None => Err(wrong(at, Asked::Cell)),
    }
}

/// The same, where the place is known.
fn related_at(place: Eras, at: u64, fields: &[u8]) -> Result<Condition, Wrong>
    requires { at ≤ 10 }
    ensures { result ≡ related_at place at (texts (runs fields.now)) }
{
    let Some((field, rest)) = split_field(fields) else {
        return Err(wrong(at, Asked::Relation));
    };
    match relation_in(field) {
        Some(relation) => compared_at(place, relation, at + 1, rest),
        None => Err(wrong(at, Asked::Relation)),
    }
}

/// The same, where the place and the relation are known.
fn compared_at(place: Eras, relation: Relation, at: u64, fields: &[u8]) -> Result<Condition, Wrong>
    requires { at ≤ 11 }
    ensures { result ≡ compared_at place relation at (texts (runs fields.now)) }
{
    let Some((field, rest)) = split_field(fields) else {
        return Err(wrong(at, Asked::Word));
    };
    match (value_in(field), split_field(rest)) {
        (None, _) => Err(wrong(at, Asked::Word)),
        (Some(_), Some(_)) => Err(wrong(at + 1, Asked::End)),
        (Some(word), None) => Ok(Condition {
            place,
            relation,
            word,
        }),
    }
}

/// At a field something is asked for.
pub(crate) fn wrong(field: u64, asked: Asked) -> Wrong
    ensures { result ≡ record { field = field; asked = asked } }
{
    Wrong { field, asked }
}
