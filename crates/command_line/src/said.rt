//! What is said where the words of a subcommand are wrong.

use crate::forms::{letters_in, option_in};
use crate::help::push_values;
use crate::names::{ACCESS, COVER, DEBUG, FEED, IMAGE, RUN, STEPS, TRACE};
use crate::reader::{Given, Reader, Refusal};
use crate::reading::{is_given, option_row, wrong_value};
use crate::row::Row;
use crate::rows::HELP_OPTION;
use crate::rules::{excludes, first_conflict};
use crate::usage::{
    Called, has_row, push_all, push_argument, push_plain_usage, push_usage, required,
};
use crate::values::{bounds, choices};
use std::alloc::{AllocError, Global};
use std::num::IntErrorKind;

/// Where more is told.
pub(crate) const MORE: &str = "\n\nFor more information, try '--help'.\n";

/// What is said of options that go with `--image`, where this is missing.
const NO_IMAGE: &str =
    "\n--rope, --parity, --form and --symbols go with --image, by which SRC is a rope image.\n";

/// What is said of a run, a trace or a profile without a feed.
const NO_FEED: &str =
    "\nFEED is missing, which stands before N: where a program takes no inputs, it is /dev/null.\n";

/// What is said of a session without a feed.
const NO_FEED_OF_SESSION: &str =
    "\nFEED is missing: where a program takes no inputs, it is /dev/null.\n";

/// What is said of the words of a subcommand that are refused.
pub(crate) fn said(
    alloc: Global,
    called: Called<'_>,
    reader: &Reader<'_>,
    refusal: Refusal,
    last: &str,
) -> Result<String, AllocError> {
    let mut text = String::from_str(alloc, "error: ")?;
    match refusal {
        Refusal::UnknownOption | Refusal::UnknownLetter => push_unknown(&mut text, reader.word)?,
        Refusal::Unexpected => {
            push_unexpected(&mut text, "", reader.word)?;
            push_plain(alloc, &mut text, called)?;
        }
        Refusal::UnneededValue => push_unneeded(alloc, &mut text, called, reader)?,
        Refusal::Conflict => push_conflict(alloc, &mut text, called, reader.given.as_slice())?,
        Refusal::Missing => {
            return missing(alloc, text, called, reader.given.as_slice(), last);
        }
        Refusal::NoMemory | Refusal::Help => return Err(AllocError),
        _ => {
            if let Some(row) = reader.open_row {
                push_value_refusal(alloc, &mut text, called, reader, refusal, row)?;
            }
        }
    }
    text.push_str(MORE)?;
    Ok(text)
}

/// Adds that a word is not expected.
pub(crate) fn push_unexpected(
    text: &mut String,
    before: &str,
    word: &str,
) -> Result<(), AllocError> {
    push_all(text, &["unexpected argument '", before, word, "' found"])
}

/// Adds that an option or a letter is not expected.
pub(crate) fn push_unknown(text: &mut String, word: &str) -> Result<(), AllocError> {
    if let Some((name, _)) = option_in(word) {
        return push_unexpected(text, "--", name);
    }
    text.push_str("unexpected argument '-")?;
    if let Some(letters) = letters_in(word) {
        let mut letters = letters.chars();
        if let Some(letter) = letters.next() {
            text.push(letter)?;
        }
    }
    text.push_str("' found")
}

// Adds the usage where nothing is given.
fn push_plain(alloc: Global, text: &mut String, called: Called<'_>) -> Result<(), AllocError> {
    text.push_str("\n\nUsage: ")?;
    push_plain_usage(alloc, text, called)
}

// Adds the usage with the arguments that are wanted.
fn push_wanted(
    text: &mut String,
    called: Called<'_>,
    wanted: &[&'static Row],
) -> Result<(), AllocError> {
    text.push_str("\n\nUsage: ")?;
    push_usage(text, called, wanted)
}

// Adds that an option takes no value.
fn push_unneeded(
    alloc: Global,
    text: &mut String,
    called: Called<'_>,
    reader: &Reader<'_>,
) -> Result<(), AllocError> {
    let Some((name, value)) = option_in(reader.word) else {
        return Ok(());
    };
    push_unneeded_value(text, name, value.unwrap_or(""))?;
    let mut wanted = required(alloc, called.subcommand.rows)?;
    let given = reader.given.as_slice();
    for it in &given[..reader.tried] {
        wanted.push(it.row)?;
    }
    if let Some(row) = option_row(called.subcommand.rows, name) {
        wanted.push(row)?;
    }
    if name == HELP_OPTION.name {
        wanted.push(&HELP_OPTION)?;
    }
    push_wanted(text, called, wanted.as_slice())
}

/// Adds that an option takes no value.
pub(crate) fn push_unneeded_value(
    text: &mut String,
    name: &str,
    value: &str,
) -> Result<(), AllocError> {
    push_all(
        text,
        &[
            "unexpected value '",
            value,
            "' for '--",
            name,
            "' found; no more were expected",
        ],
    )
}

// Adds which arguments do not go together.
fn push_conflict(
    alloc: Global,
    text: &mut String,
    called: Called<'_>,
    given: &[Given<'_>],
) -> Result<(), AllocError> {
    let Some(first) = first_conflict(given) else {
        return Ok(());
    };
    let mut others = Vec::new(alloc);
    for it in given {
        if excludes(first, it.row) && !has_row(others.as_slice(), it.row) {
            others.push(it.row)?;
        }
    }
    text.push_str("the argument '")?;
    push_argument(text, first, first.is_required)?;
    text.push_str("' cannot be used with")?;
    push_others(text, others.as_slice())?;
    let mut wanted = required(alloc, called.subcommand.rows)?;
    for it in given {
        if !has_row(others.as_slice(), it.row) {
            push_lacking(
                called.subcommand.rows,
                it.row,
                others.as_slice(),
                given,
                &mut wanted,
            )?;
        }
    }
    for it in given {
        if !has_row(others.as_slice(), it.row) {
            wanted.push(it.row)?;
        }
    }
    push_wanted(text, called, wanted.as_slice())
}

// Adds what an argument needs that is not given, but for some.
fn push_lacking(
    rows: &'static [Row],
    row: &Row,
    others: &[&'static Row],
    given: &[Given<'_>],
    wanted: &mut Vec<&'static Row>,
) -> Result<(), AllocError> {
    for name in row.needs {
        if let Some(needed) = row_named(rows, name) {
            if !has_row(others, needed) && !is_given(given, needed.name) {
                wanted.push(needed)?;
            }
        }
    }
    Ok(())
}

fn push_others(text: &mut String, others: &[&'static Row]) -> Result<(), AllocError> {
    if let [other] = others {
        text.push_str(" '")?;
        push_argument(text, other, other.is_required)?;
        return text.push_str("'");
    }
    text.push_str(":")?;
    for other in others {
        text.push_str("\n  ")?;
        push_argument(text, other, other.is_required)?;
    }
    Ok(())
}

// The row of a name.
fn row_named(rows: &'static [Row], name: &str) -> Option<&'static Row> {
    for it in rows {
        if it.name == name {
            return Some(it);
        }
    }
    None
}

// Adds what an argument needs, and before it what that needs.
fn push_needed(
    rows: &'static [Row],
    row: &Row,
    wanted: &mut Vec<&'static Row>,
) -> Result<(), AllocError> {
    for name in row.needs {
        if let Some(needed) = row_named(rows, name) {
            push_named(rows, needed.needs, wanted)?;
            wanted.push(needed)?;
        }
    }
    Ok(())
}

// Adds the rows of some names.
fn push_named(
    rows: &'static [Row],
    names: &[&str],
    wanted: &mut Vec<&'static Row>,
) -> Result<(), AllocError> {
    for name in names {
        if let Some(row) = row_named(rows, name) {
            wanted.push(row)?;
        }
    }
    Ok(())
}

// What is said of missing arguments: more, where an option goes with another one, or a feed is missing.
fn missing(
    alloc: Global,
    mut text: String,
    called: Called<'_>,
    given: &[Given<'_>],
    last: &str,
) -> Result<String, AllocError> {
    let rows = called.subcommand.rows;
    let mut wanted = required(alloc, rows)?;
    for it in given {
        push_needed(rows, it.row, &mut wanted)?;
    }
    text.push_str("the following required arguments were not provided:")?;
    push_missing(&mut text, wanted.as_slice(), given, true)?;
    push_missing(&mut text, wanted.as_slice(), given, false)?;
    let is_image = lacks(wanted.as_slice(), given, IMAGE);
    let is_feed = lacks(wanted.as_slice(), given, FEED) || lacks(wanted.as_slice(), given, STEPS);
    for it in given {
        wanted.push(it.row)?;
    }
    push_wanted(&mut text, called, wanted.as_slice())?;
    text.push_str(MORE)?;
    if is_image {
        text.push_str(NO_IMAGE)?;
    }
    if is_feed {
        text.push_str(said_of_feed(called.subcommand.name, last))?;
    }
    Ok(text)
}

// Adds the options that are wanted and not given, or the other arguments.
fn push_missing(
    text: &mut String,
    wanted: &[&'static Row],
    given: &[Given<'_>],
    are_options: bool,
) -> Result<(), AllocError> {
    for (i, row) in wanted.iter().enumerate() {
        if row.long.is_some() == are_options
            && !is_given(given, row.name)
            && !has_row(&wanted[..i], row)
        {
            text.push_str("\n  ")?;
            push_argument(text, row, true)?;
        }
    }
    Ok(())
}

// Whether an argument is wanted and not given.
fn lacks(wanted: &[&'static Row], given: &[Given<'_>], name: &str) -> bool {
    wanted.iter().any(|row| row.name == name) && !is_given(given, name)
}

// What is said where arguments that lack some lack the feed: those of a session always do, and those of `agcws run`,
// of `agcws trace`, of `agcws cover` and of `agcws access` where they end with a number.
fn said_of_feed(name: &str, last: &str) -> &'static str {
    let is_number = last.parse::<u64>().is_ok();
    if name == DEBUG {
        NO_FEED_OF_SESSION
    } else if is_number && (name == RUN || name == TRACE || name == COVER || name == ACCESS) {
        NO_FEED
    } else {
        ""
    }
}

// Adds what is wrong with the values of an argument.
fn push_value_refusal(
    alloc: Global,
    text: &mut String,
    called: Called<'_>,
    reader: &Reader<'_>,
    refusal: Refusal,
    row: &'static Row,
) -> Result<(), AllocError> {
    let given = reader.given.as_slice();
    let value = match wrong_value(row, &given[reader.tried..]) {
        Some(value) if refusal == Refusal::WrongValue => value,
        _ => "",
    };
    match refusal {
        Refusal::Repeated => {
            push_row(
                text,
                "the argument '",
                row,
                "' cannot be used multiple times",
            )?;
            push_plain(alloc, text, called)
        }
        Refusal::TooFewValues => {
            push_row(text, "2 values required for '", row, "' but 1 was provided")?;
            push_plain(alloc, text, called)
        }
        _ => push_wrong_value(text, row, value, refusal == Refusal::NoValue),
    }
}

fn push_row(text: &mut String, before: &str, row: &Row, after: &str) -> Result<(), AllocError> {
    text.push_str(before)?;
    push_argument(text, row, row.is_required)?;
    text.push_str(after)
}

// Adds that an argument does not take a value, and which it takes.
fn push_wrong_value(
    text: &mut String,
    row: &Row,
    value: &str,
    is_missing: bool,
) -> Result<(), AllocError> {
    let number = bounds(row.value);
    if is_missing || (value.is_empty() && number.is_none()) {
        push_row(
            text,
            "a value is required for '",
            row,
            "' but none was supplied",
        )?;
    } else {
        push_all(text, &["invalid value '", value])?;
        push_row(text, "' for '", row, "'")?;
    }
    if let Some(names) = choices(row.value) {
        push_values(text, "\n  ", names)?;
    }
    match number {
        Some((least, most)) if !is_missing => push_wrong_number(text, value, least, most),
        _ => Ok(()),
    }
}

// Adds why a number is wrong.
fn push_wrong_number(
    text: &mut String,
    value: &str,
    least: u64,
    most: u64,
) -> Result<(), AllocError> {
    match value.parse::<u64>() {
        Ok(number) => write!(text, ": {number} is not in {least}..={most}"),
        Err(error) => text.push_str(match error.kind() {
            IntErrorKind::Empty => ": cannot parse integer from empty string",
            IntErrorKind::PosOverflow => ": number too large to fit in target type",
            _ => ": invalid digit found in string",
        }),
    }
}
