//! What a line of a test claims.

ghost use Rattle.std.specs.Prelude.{◌≡◌, ◌≤◌};
ghost use Rattle.agc_text.specs.Fields.{runs, texts};
ghost use Rattle.expect.specs.Lines.{claiming, claims_of, condition_at, moved_place_at, place_at, with_moved_place};
ghost use Rattle.expect.specs.declared.claim.Claim.TheVariants.{At};
ghost use Rattle.expect.specs.Texts.{listed};

use crate::calls::{calls_at, ended};
use crate::channel::{alone, channel_at};
use crate::claim::Claim;
use crate::condition::{condition_at, wrong};
use crate::fields::{begins_with_plus, is_word, moved_in};
use crate::notes::{covered_at, notes_at};
use crate::refusal::{Asked, Wrong};
use agc_text::split_field;
use commands::named_place;
use space::{Chan, Linear};
use symbols::Symbols;

/// Words on a channel that are not read yet.
#[derive(Clone, Copy, Drop)]
pub(crate) struct Words<'a> {
    /// The channel.
    pub(crate) channel: Chan,
    /// The most cycles after which each may come.
    pub(crate) within: u64,
    /// The number of the first among the fields.
    pub(crate) at: u8,
    /// The fields.
    pub(crate) fields: &'a [u8],
}

/// What a line claims.
#[derive(Clone, Copy, Drop)]
pub(crate) enum Line<'a> {
    /// One claim.
    One(Claim),
    /// Words on a channel.
    Words(Words<'a>),
}

/// What a line claims, by its fields.
pub(crate) fn line_of<'a>(symbols: &Symbols, fields: &'a [u8]) -> Result<Line<'a>, Wrong>
    ensures { listed result ≡ claims_of symbols.now (texts (runs fields.now)) }
{
    let Some((name, rest)) = split_field(fields) else {
        return Err(wrong(0, Asked::Claim));
    };
    if is_word(name, "CHANNEL") {
        channel_at(1, rest)
    } else if is_word(name, "ALWAYS") {
        match condition_at(symbols, 1, rest) {
            Ok(condition) => Ok(Line::One(Claim::Always(condition))),
            Err(wrong) => Err(wrong),
        }
    } else if is_word(name, "NEVER") {
        match condition_at(symbols, 1, rest) {
            Ok(condition) => Ok(Line::One(Claim::Never(condition))),
            Err(wrong) => Err(wrong),
        }
    } else if is_word(name, "AT") {
        place_at(symbols, 1, rest)
    } else if is_word(name, "CALLS") {
        alone(calls_at(symbols, 1, rest))
    } else if is_word(name, "NOTES") {
        alone(notes_at(symbols, 1, rest))
    } else if is_word(name, "CHECK") {
        alone(ended(1, Claim::Check, rest))
    } else if is_word(name, "COVERED") {
        alone(covered_at(1, rest))
    } else {
        Err(wrong(0, Asked::Claim))
    }
}

/// What a line claims of a place, or of the end.
fn place_at<'a>(symbols: &Symbols, at: u64, fields: &'a [u8]) -> Result<Line<'a>, Wrong>
    requires { at ≤ 1 }
    ensures { listed result ≡ place_at symbols.now at (texts (runs fields.now)) }
{
    let Some((field, rest)) = split_field(fields) else {
        return Err(wrong(at, Asked::Place));
    };
    if is_word(field, "END") {
        return match condition_at(symbols, at + 1, rest) {
            Ok(condition) => Ok(Line::One(Claim::AtEnd(condition))),
            Err(wrong) => Err(wrong),
        };
    }
    match named_place(symbols, field) {
        Some(place) => moved_place_at(symbols, at, place, rest),
        None => Err(wrong(at, Asked::Place)),
    }
}

/// The same of a place that may be moved on.
fn moved_place_at<'a>(
    symbols: &Symbols,
    at: u64,
    place: Linear,
    fields: &'a [u8],
) -> Result<Line<'a>, Wrong>
    requires { at ≤ 1 }
    ensures { listed result ≡ moved_place_at symbols.now at place (texts (runs fields.now)) }
{
    match split_field(fields) {
        Some((field, rest)) if begins_with_plus(field) => match moved_in(place, field) {
            Some(place) => claim_at(symbols, at + 2, place, rest),
            None => Err(wrong(at + 1, Asked::Offset)),
        },
        Some(_) => claim_at(symbols, at + 1, place, fields),
        None => claim_at(symbols, at + 1, place, fields),
    }
}

/// A condition at a place.
fn claim_at<'a>(symbols: &Symbols, at: u64, place: Linear, fields: &[u8]) -> Result<Line<'a>, Wrong>
    requires { at ≤ 3 }
    ensures { listed result ≡ claiming (At place) (condition_at symbols.now at (texts (runs fields.now))) }
{
    match condition_at(symbols, at, fields) {
        Ok(condition) => Ok(Line::One(Claim::At(place, condition))),
        Err(wrong) => Err(wrong),
    }
}
