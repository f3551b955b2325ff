//! What a line claims of a channel.

ghost use Rattle.std.specs.Prelude.{◌≡◌, ◌≤◌};
ghost use Rattle.agc_text.specs.Fields.{runs, texts};
ghost use Rattle.expect.specs.Lines.{alone, channel_at, cycles_at, nothing_at, nothing_more, puts_at, some_words_at};
ghost use Rattle.expect.specs.Lines.{unit_at};
ghost use Rattle.expect.specs.Texts.{listed};

use crate::claim::Claim;
use crate::condition::wrong;
use crate::fields::{channel_in, count_in, is_word};
use crate::line::{Line, Words};
use crate::refusal::{Asked, Wrong};
use crate::statement::has_field;
use agc_text::split_field;
use space::Chan;

/// A number of cycles that no run has.
const MOST_CYCLES: u64 = 1 << 63;

/// What a line claims of a channel, whose number stands first; it has a number among the fields.
pub(crate) fn channel_at(at: u64, fields: &[u8]) -> Result<Line<'_>, Wrong>
    requires { at ≤ 1 }
    ensures { listed result ≡ channel_at at (texts (runs fields.now)) }
{
    let Some((field, rest)) = split_field(fields) else {
        return Err(wrong(at, Asked::Channel));
    };
    match channel_in(field) {
        Some(channel) => puts_at(channel, at + 1, rest),
        None => Err(wrong(at, Asked::Channel)),
    }
}

/// What follows the channel.
fn puts_at(channel: Chan, at: u64, fields: &[u8]) -> Result<Line<'_>, Wrong>
    requires { at ≤ 2 }
    ensures { listed result ≡ puts_at channel at (texts (runs fields.now)) }
{
    let Some((field, rest)) = split_field(fields) else {
        return Err(wrong(at, Asked::Put));
    };
    if is_word(field, "NOTHING") {
        alone(nothing_more(channel, 0, at + 1, rest))
    } else if is_word(field, "WITHIN") {
        cycles_at(channel, at + 1, rest)
    } else {
        some_words_at(channel, MOST_CYCLES, at, fields)
    }
}

/// A claim alone.
pub(crate) fn alone<'a>(claim: Result<Claim, Wrong>) -> Result<Line<'a>, Wrong>
    ensures { listed result ≡ alone claim }
{
    match claim {
        Ok(claim) => Ok(Line::One(claim)),
        Err(wrong) => Err(wrong),
    }
}

/// No more words than so many; and no more fields.
fn nothing_more(channel: Chan, before: u64, at: u64, fields: &[u8]) -> Result<Claim, Wrong>
    ensures { result ≡ nothing_more channel before at (texts (runs fields.now)) }
{
    match split_field(fields) {
        Some(_) => Err(wrong(at, Asked::End)),
        None => Ok(Claim::PutsNoMore(channel, before)),
    }
}

/// NOTHING after some words.
pub(crate) fn nothing_at(channel: Chan, before: u64, at: u64, fields: &[u8]) -> Result<Claim, Wrong>
    requires { at ≤ 2000 }
    ensures { result ≡ nothing_at channel before at (texts (runs fields.now)) }
{
    match split_field(fields) {
        Some((field, rest)) if is_word(field, "NOTHING") => {
            nothing_more(channel, before, at + 1, rest)
        }
        Some(_) => Err(wrong(at, Asked::Nothing)),
        None => Err(wrong(at, Asked::Nothing)),
    }
}

/// A number and CYCLES, and words that come within so many of them.
fn cycles_at(channel: Chan, at: u64, fields: &[u8]) -> Result<Line<'_>, Wrong>
    requires { at ≤ 3 }
    ensures { listed result ≡ cycles_at channel at (texts (runs fields.now)) }
{
    let Some((field, rest)) = split_field(fields) else {
        return Err(wrong(at, Asked::Cycles));
    };
    match count_in(field) {
        Some(within) => unit_at(channel, within, at + 1, rest),
        None => Err(wrong(at, Asked::Cycles)),
    }
}

/// CYCLES, and words that come within so many of them.
fn unit_at(channel: Chan, within: u64, at: u64, fields: &[u8]) -> Result<Line<'_>, Wrong>
    requires { at ≤ 4 }
    ensures { listed result ≡ unit_at channel within at (texts (runs fields.now)) }
{
    match split_field(fields) {
        Some((field, rest)) if is_word(field, "CYCLES") => {
            some_words_at(channel, within, at + 1, rest)
        }
        Some(_) => Err(wrong(at, Asked::Unit)),
        None => Err(wrong(at, Asked::Unit)),
    }
}

/// One word at least.
fn some_words_at(channel: Chan, within: u64, at: u64, fields: &[u8]) -> Result<Line<'_>, Wrong>
    requires { at ≤ 5 }
    ensures { listed result ≡ some_words_at channel within at (texts (runs fields.now)) }
{
    if !has_field(fields) {
        return Err(wrong(at, Asked::Put));
    }
    Ok(Line::Words(Words {
        channel,
        within,
        at: at as u8,
        fields,
    }))
}
