//! What the tests of a text claim.

ghost use Rattle.std.specs.Prelude.{◌≡◌, ◌+◌, ◌≤◌, ◌<◌, ◌^◌, ◌++◌, ◌∷◌, [], List, length, Ok, IfOk, IfErr, OnOk};
ghost use Rattle.std.specs.Option.{option_map};
ghost use Rattle.agc_text.specs.Fields.{runs, texts};
ghost use Rattle.agc_text.specs.Lines.{lines};
ghost use Rattle.expect.specs.Lines.{alone, claims_of, is_then, word_of_line, words_at};
ghost use Rattle.expect.specs.Statements.{Statement as Spoken, statements};
ghost use Rattle.expect.specs.Texts.{Adds, Refuses, and_lines, claims_after, name_of};

use crate::channel::nothing_at;
use crate::claim::{Allowed, Claim, Sought, Spot, Stated};
use crate::condition::wrong;
use crate::fields::{is_word, value_in};
use crate::line::{Line, Words, line_of};
use crate::refusal::{Asked, ExpectFault, Refusal, Wrong};
use crate::statement::{has_field, next_statement};
use agc_text::split_field;
use space::Linear;
use std::alloc::Global;
use symbols::Symbols;

/// The most words of a line.
const MOST_WORDS: u64 = 1000;

/// The number of a test, and that of a line of it.
#[derive(Clone, Copy, Drop)]
struct Place {
    test: u64,
    line: u64,
}

/// What the tests of a text claim, before which so many lines stand, where the symbols of a program stand. The first
/// line that is refused is told, or that memory ran out.
pub fn claims_in(
    alloc: Global,
    symbols: &Symbols,
    before: u64,
    text: &[u8],
) -> Result<Vec<Stated>, ExpectFault>
    requires { before + length text.now ≤ 2 ^ 20 }
    ensures claims { IfOk result (λ claims. claims_after symbols.now 0 (statements before (lines text.now))
        ≡ Ok claims.items) }
    ensures fault { IfErr result (Refuses (claims_after symbols.now 0 (statements before (lines text.now)))) }
{
    let mut claims = Vec::new(alloc);
    let mut rest = text;
    let mut line = before;
    let mut tests = 0;
    while let Some(statement) = next_statement(rest, line) {
        rest = statement.rest;
        line = statement.line;
        let place = Place { test: tests, line };
        tests = take_statement(&mut claims, symbols, place, statement.fields)?;
    }
    Ok(claims)
}

/// Adds what a statement claims, before which so many tests have begun, and answers how many have after it.
fn take_statement(
    claims: &mut Vec<Stated>,
    symbols: &Symbols,
    place: Place,
    fields: &[u8],
) -> Result<u64, ExpectFault>
    requires { place.test ≤ 2 ^ 20 }
    ensures taken { IfOk result (λ tests. (more : List Spoken) →
        and_lines claims.old.items (claims_after symbols.now place.test
        (record { line = place.line; fields = texts (runs fields.now) } ∷ more))
        ≡ and_lines claims.new.items (claims_after symbols.now tests more)) }
    ensures one { IfOk result (λ tests. tests ≤ place.test + 1) }
    ensures fault { IfErr result (λ fault. (more : List Spoken) →
        Refuses (and_lines claims.old.items (claims_after symbols.now place.test
        (record { line = place.line; fields = texts (runs fields.now) } ∷ more))) fault) }
{
    match name_of(fields) {
        Some(name) => {
            if has_field(name) {
                Ok(place.test + 1)
            } else {
                Err(refused(place.line, wrong(1, Asked::Name)))
            }
        }
        None => {
            if place.test == 0 {
                return Err(refused(place.line, wrong(0, Asked::Test)));
            }
            match add_line(claims, symbols, place, fields) {
                Ok(()) => Ok(place.test),
                Err(fault) => Err(fault),
            }
        }
    }
}

/// The name of a test, where a statement begins one: what follows TEST.
pub(crate) fn name_of(fields: &[u8]) -> Option<&[u8]>
    ensures { option_map (λ name. texts (runs name.now)) result ≡ name_of (texts (runs fields.now)) }
{
    match split_field(fields) {
        Some((word, name)) if is_word(word, "TEST") => Some(name),
        Some(_) => None,
        None => None,
    }
}

/// Adds what a line claims.
fn add_line(
    claims: &mut Vec<Stated>,
    symbols: &Symbols,
    place: Place,
    fields: &[u8],
) -> Result<(), ExpectFault>
    ensures { Adds (claims_of symbols.now (texts (runs fields.now))) place.test place.line claims.old.items
        claims.new.items result }
{
    match line_of(symbols, fields) {
        Ok(Line::One(claim)) => add(claims, place, claim),
        Ok(Line::Words(words)) => add_words(claims, place, &words, 0, words.fields),
        Err(wrong) => Err(refused(place.line, wrong)),
    }
}

/// Adds a claim.
fn add(claims: &mut Vec<Stated>, place: Place, claim: Claim) -> Result<(), ExpectFault>
    ensures ok { OnOk result (claims.new.items
        ≡ claims.old.items ++ record { test = place.test; line = place.line; claim = claim } ∷ []) }
    ensures fault { IfErr result (λ e. e ≡ ExpectFault.NoMemory) }
{
    // (The prover does not look for the types of what an array of the claim holds.)
    let _held: Option<(Allowed, Spot, Linear)> = None;
    let stated = Stated {
        test: place.test,
        line: place.line,
        claim,
    };
    match claims.push(stated) {
        Ok(()) => Ok(()),
        Err(_) => Err(ExpectFault::NoMemory),
    }
}

/// Adds words on a channel, after so many before them.
fn add_words(
    claims: &mut Vec<Stated>,
    place: Place,
    words: &Words<'_>,
    before: u64,
    fields: &[u8],
) -> Result<(), ExpectFault>
    requires { before ≤ 1000 }
    ensures { Adds (words_at words.now.channel words.now.within words.now.at before (texts (runs fields.now)))
        place.test place.line claims.old.items claims.new.items result }
{
    let Some((field, rest)) = split_field(fields) else {
        return Ok(());
    };
    if is_then(before, field) {
        let claim = nothing_at(
            words.channel,
            before,
            u64::from(words.at) + before + 1,
            rest,
        );
        return add_read(claims, place, claim);
    }
    match word_of_line(words, before, field) {
        Ok(claim) => {
            add(claims, place, claim)?;
            add_words(claims, place, words, before + 1, rest)
        }
        Err(wrong) => Err(refused(place.line, wrong)),
    }
}

/// Whether THEN follows some words.
fn is_then(before: u64, field: &[u8]) -> bool
    ensures { result ≡ is_then before field.now }
{
    is_word(field, "THEN") && before > 0
}

/// A word on a channel, after so many before it.
fn word_of_line(words: &Words<'_>, before: u64, field: &[u8]) -> Result<Claim, Wrong>
    requires { before ≤ 1000 }
    ensures value { result ≡ word_of_line words.now.channel words.now.within words.now.at before field.now }
    ensures few { IfOk result (λ _. before < 1000) }
{
    let at = u64::from(words.at) + before;
    if before == MOST_WORDS {
        return Err(wrong(at, Asked::FewerWords));
    }
    match value_in(field) {
        Some(word) => Ok(Claim::Puts(Sought {
            channel: words.channel,
            before,
            word,
            within: words.within,
        })),
        None => Err(wrong(at, Asked::Put)),
    }
}

/// Adds a claim, where one was read.
fn add_read(
    claims: &mut Vec<Stated>,
    place: Place,
    claim: Result<Claim, Wrong>,
) -> Result<(), ExpectFault>
    ensures { Adds (alone claim) place.test place.line claims.old.items claims.new.items result }
{
    match claim {
        Ok(claim) => add(claims, place, claim),
        Err(wrong) => Err(refused(place.line, wrong)),
    }
}

/// A line is refused.
fn refused(line: u64, wrong: Wrong) -> ExpectFault
    ensures { result ≡ ExpectFault.Refused (record { line = line; wrong = wrong }) }
{
    ExpectFault::Refused(Refusal { line, wrong })
}
