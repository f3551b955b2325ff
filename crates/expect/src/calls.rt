//! What a line claims of the calls of a routine.

ghost use Rattle.std.specs.Prelude.{◌≡◌, ◌≤◌};
ghost use Rattle.agc_text.specs.Fields.{runs, texts};
ghost use Rattle.expect.specs.Lines.{called_at, calls_at, ended_at, limit_at, limit_unit_at, with_calls};

use crate::claim::Claim;
use crate::condition::wrong;
use crate::fields::{count_in, is_word};
use crate::refusal::{Asked, Wrong};
use agc_text::split_field;
use commands::named_place;
use space::Linear;
use symbols::Symbols;

/// What a line claims of a routine, whose name stands first; it has a number among the fields.
pub(crate) fn calls_at(symbols: &Symbols, at: u64, fields: &[u8]) -> Result<Claim, Wrong>
    requires { at ≤ 1 }
    ensures { result ≡ calls_at symbols.now at (texts (runs fields.now)) }
{
    let Some((field, rest)) = split_field(fields) else {
        return Err(wrong(at, Asked::Routine));
    };
    match named_place(symbols, field) {
        Some(place) => called_at(place, at + 1, rest),
        None => Err(wrong(at, Asked::Routine)),
    }
}

/// How often it is called, or for how long.
fn called_at(place: Linear, at: u64, fields: &[u8]) -> Result<Claim, Wrong>
    requires { at ≤ 2 }
    ensures { result ≡ called_at place at (texts (runs fields.now)) }
{
    let Some((field, rest)) = split_field(fields) else {
        return Err(wrong(at, Asked::Calls));
    };
    if is_word(field, "WITHIN") {
        return limit_at(place, at + 1, rest);
    }
    match count_in(field) {
        Some(times) => ended(at + 1, Claim::Calls(place, times), rest),
        None => Err(wrong(at, Asked::Calls)),
    }
}

/// The most cycles of a call.
fn limit_at(place: Linear, at: u64, fields: &[u8]) -> Result<Claim, Wrong>
    requires { at ≤ 3 }
    ensures { result ≡ limit_at place at (texts (runs fields.now)) }
{
    let Some((field, rest)) = split_field(fields) else {
        return Err(wrong(at, Asked::Cycles));
    };
    match count_in(field) {
        Some(most) => limit_unit_at(place, most, at + 1, rest),
        None => Err(wrong(at, Asked::Cycles)),
    }
}

/// CYCLES after that.
fn limit_unit_at(place: Linear, most: u64, at: u64, fields: &[u8]) -> Result<Claim, Wrong>
    requires { at ≤ 4 }
    ensures { result ≡ limit_unit_at place most at (texts (runs fields.now)) }
{
    match split_field(fields) {
        Some((field, rest)) if is_word(field, "CYCLES") => {
            ended(at + 1, Claim::CallsWithin(place, most), rest)
        }
        Some(_) => Err(wrong(at, Asked::Unit)),
        None => Err(wrong(at, Asked::Unit)),
    }
}

/// A claim, after which nothing more may stand.
pub(crate) fn ended(at: u64, claim: Claim, fields: &[u8]) -> Result<Claim, Wrong>
    ensures { result ≡ ended_at at claim (texts (runs fields.now)) }
{
    match split_field(fields) {
        Some(_) => Err(wrong(at, Asked::End)),
        None => Ok(claim),
    }
}
