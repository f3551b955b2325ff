//! What a text of tests runs.

ghost use Rattle.std.specs.Prelude.{◌≡◌, ◌+◌, ◌-◌, ◌∷◌, ◌≤◌, ◌^◌, length, Option, IfOk, IfSome};
ghost use Rattle.std.specs.Option.{option_map};
ghost use Rattle.agc_text.specs.Fields.{runs, texts};
ghost use Rattle.agc_text.specs.Lines.{lines};
ghost use Rattle.expect.specs.Statements.{statements};
ghost use Rattle.expect.specs.Texts.{IsTold, after_feed, after_source, heading_of, setting, steps_field, steps_of};
ghost use Rattle.expect.specs.Texts.{until_in};

use crate::condition::wrong;
use crate::fields::{count_in, is_word};
use crate::refusal::{Asked, Refusal};
use crate::statement::{Statement, next_statement};
use agc_text::split_field;

/// The most steps of a run.
const MOST_STEPS: u64 = 1_099_511_627_774;

/// What a text of tests runs, and its tests, which are not read yet.
#[derive(Clone, Copy, Drop)]
pub struct Expectation<'a> {
    /// The path of the source.
    pub source: &'a [u8],
    /// The path of the feed, where there is one.
    pub feed: Option<&'a [u8]>,
    /// How many steps are made.
    pub steps: u64,
    /// Whether fewer are made where the program idles before.
    pub until_idle: bool,
    /// How many lines stand before the tests.
    pub line: u64,
    /// The lines of the tests.
    pub tests: &'a [u8],
}

/// What a text of tests runs: after a line SOURCE, a line FEED or none, and a line STEPS, with UNTIL IDLE or without;
/// its tests follow. The first line that is another is told.
pub fn expectation_in(text: &[u8]) -> Result<Expectation<'_>, Refusal>
    requires { length text.now ≤ 2 ^ 20 }
    ensures heading { IsTold (heading_of (statements 0 (lines text.now))) result }
    ensures few { IfOk result (λ e. e.line + length e.tests.now ≤ 2 ^ 20) }
    ensures steps { IfOk result (λ e. e.steps ≤ 2 ^ 40 - 2) }
{
    let Some(first) = next_statement(text, 0) else {
        return Err(refused(0, Asked::Source));
    };
    match setting("SOURCE", first.fields) {
        Some(source) => after_source(source, first.line, first.rest),
        None => Err(refused(first.line, Asked::Source)),
    }
}

/// The same, where the source is known, and so many lines are read.
fn after_source<'a>(source: &'a [u8], line: u64, text: &'a [u8]) -> Result<Expectation<'a>, Refusal>
    requires { line + length text.now ≤ 2 ^ 20 }
    ensures heading { IsTold (after_source source.now (statements line (lines text.now))) result }
    ensures few { IfOk result (λ e. e.line + length e.tests.now ≤ 2 ^ 20) }
    ensures steps { IfOk result (λ e. e.steps ≤ 2 ^ 40 - 2) }
{
    let Some(next) = next_statement(text, line) else {
        return Err(refused(0, Asked::Steps));
    };
    match setting("FEED", next.fields) {
        Some(feed) => after_feed(source, Some(feed), next.line, next.rest),
        None => with_steps(source, None, &next),
    }
}

/// The same, where the feed is known.
fn after_feed<'a>(
    source: &'a [u8],
    feed: Option<&'a [u8]>,
    line: u64,
    text: &'a [u8],
) -> Result<Expectation<'a>, Refusal>
    requires { line + length text.now ≤ 2 ^ 20 }
    ensures heading { IsTold (after_feed source.now (option_map (λ f. f.now) feed.entry)
        (statements line (lines text.now))) result }
    ensures few { IfOk result (λ e. e.line + length e.tests.now ≤ 2 ^ 20) }
    ensures steps { IfOk result (λ e. e.steps ≤ 2 ^ 40 - 2) }
{
    match next_statement(text, line) {
        Some(next) => with_steps(source, feed, &next),
        None => Err(refused(0, Asked::Steps)),
    }
}

/// The same, where the statement is known that is to tell how many steps are made.
fn with_steps<'a>(
    source: &'a [u8],
    feed: Option<&'a [u8]>,
    next: &Statement<'a>,
) -> Result<Expectation<'a>, Refusal>
    requires { next.now.line + length next.now.rest.now ≤ 2 ^ 20 }
    ensures heading { IsTold (after_feed source.now (option_map (λ f. f.now) feed.entry)
        (record { line = next.now.line; fields = texts (runs next.now.fields.now) }
        ∷ statements next.now.line (lines next.now.rest.now))) result }
    ensures few { IfOk result (λ e. e.line + length e.tests.now ≤ 2 ^ 20) }
    ensures steps { IfOk result (λ e. e.steps ≤ 2 ^ 40 - 2) }
{
    let Some(steps) = steps_of(steps_field(next.fields)) else {
        return Err(refused(next.line, Asked::Steps));
    };
    match until_in(next.fields) {
        Some(until_idle) => Ok(Expectation {
            source,
            feed,
            steps,
            until_idle,
            line: next.line,
            tests: next.rest,
        }),
        None => Err(Refusal {
            line: next.line,
            wrong: wrong(2, Asked::UntilIdle),
        }),
    }
}

/// The field after STEPS.
fn steps_field(fields: &[u8]) -> Option<&[u8]>
    ensures { option_map (λ value. value.now) result ≡ steps_field (texts (runs fields.now)) }
{
    let (name, rest) = split_field(fields)?;
    let (value, _) = split_field(rest)?;
    if is_word(name, "STEPS") {
        Some(value)
    } else {
        None
    }
}

/// Whether UNTIL IDLE follows the number of steps, or nothing.
fn until_in(fields: &[u8]) -> Option<bool>
    ensures { result ≡ until_in (texts (runs fields.now)) }
{
    let (_, rest) = split_field(fields)?;
    let (_, rest) = split_field(rest)?;
    let Some((until, rest)) = split_field(rest) else {
        return Some(false);
    };
    let (idle, rest) = split_field(rest)?;
    if split_field(rest).is_some() {
        return None;
    }
    if is_word(until, "UNTIL") && is_word(idle, "IDLE") {
        Some(true)
    } else {
        None
    }
}

/// A number of steps that a run may have.
fn steps_of(text: Option<&[u8]>) -> Option<u64>
    ensures steps { result ≡ steps_of (option_map (λ t. t.now) text.entry) }
    ensures few { IfSome result (λ steps. steps ≤ 2 ^ 40 - 2) }
{
    match count_in(text?) {
        Some(steps) if steps <= MOST_STEPS => Some(steps),
        Some(_) => None,
        None => None,
    }
}

/// The field after a word, where no other stands.
fn setting<'a>(word: &str, fields: &'a [u8]) -> Option<&'a [u8]>
    ensures { option_map (λ value. value.now) result ≡ setting word.now (texts (runs fields.now)) }
{
    let (name, rest) = split_field(fields)?;
    let (value, rest) = split_field(rest)?;
    if is_word(name, word) && split_field(rest).is_none() {
        Some(value)
    } else {
        None
    }
}

/// A line is refused at its first field.
pub(crate) fn refused(line: u64, asked: Asked) -> Refusal
    ensures { result ≡ record { line = line; wrong = record { field = 0; asked = asked } } }
{
    Refusal {
        line,
        wrong: wrong(0, asked),
    }
}
