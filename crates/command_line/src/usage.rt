//! How arguments are named, and the usage line.

ghost use Rattle.std.specs.Prelude.{◌≡◌, ◌++◌, OnOk};
ghost use Rattle.std.specs.String.{string_bytes};
ghost use Rattle.command_line.specs.Help.{all_texts};

use crate::row::{Row, Subcommand, Value};
use crate::values::{takes_many, takes_value};
use std::alloc::{AllocError, Global};

/// Adds some texts, one behind the other.
pub(crate) fn push_all(text: &mut String, parts: &[&str]) -> Result<(), AllocError>
    ensures { OnOk result (string_bytes text.new ≡ string_bytes text.old ++ all_texts parts.now) }
{
    for part in parts {
        text.push_str(part)?;
    }
    Ok(())
}

/// The program as it was called, and the subcommand that its words name.
#[derive(Clone, Copy)]
pub(crate) struct Called<'a> {
    /// The name by which the program was called.
    pub(crate) program: Option<&'a str>,
    pub(crate) subcommand: &'a Subcommand,
}

/// Adds how an argument is named in a line; `is_needed` tells whether it has to stand there.
pub(crate) fn push_argument(
    text: &mut String,
    row: &Row,
    is_needed: bool,
) -> Result<(), AllocError> {
    if let Some(long) = row.long {
        push_all(text, &["--", long])?;
        if !takes_value(row.value) {
            return Ok(());
        }
        text.push_str(" ")?;
    }
    let may_lack = row.long.is_none() && (!is_needed || matches!(row.value, Value::Texts));
    let (open, close) = if may_lack { ("[", "]") } else { ("<", ">") };
    let names = row.value_names;
    if names.is_empty() {
        push_all(text, &[open, row.name, close])?;
    }
    for (i, name) in names.iter().enumerate() {
        if i > 0 {
            text.push_str(" ")?;
        }
        push_all(text, &[open, name, close])?;
    }
    if takes_many(row.value) {
        text.push_str("...")?;
    }
    Ok(())
}

/// Adds the usage of a subcommand, where some arguments are wanted.
pub(crate) fn push_usage(
    text: &mut String,
    called: Called<'_>,
    wanted: &[&'static Row],
) -> Result<(), AllocError> {
    push_name(text, called)?;
    push_arguments(text, called.subcommand.rows, wanted)
}

/// Adds the usage of a subcommand where nothing is given yet.
pub(crate) fn push_plain_usage(
    alloc: Global,
    text: &mut String,
    called: Called<'_>,
) -> Result<(), AllocError> {
    let rows = called.subcommand.rows;
    push_name(text, called)?;
    if rows
        .iter()
        .any(|row| row.long.is_some() && !row.is_required)
    {
        text.push_str(" [OPTIONS]")?;
    }
    let wanted = required(alloc, rows)?;
    push_arguments(text, rows, wanted.as_slice())
}

// Adds the options that are wanted, each once, and then the arguments that are told by their place, those that are not
// wanted in brackets.
fn push_arguments(
    text: &mut String,
    rows: &[Row],
    wanted: &[&'static Row],
) -> Result<(), AllocError> {
    for (i, row) in wanted.iter().enumerate() {
        if row.long.is_some() && !has_row(&wanted[..i], row) {
            text.push_str(" ")?;
            push_argument(text, row, true)?;
        }
    }
    for row in rows {
        if row.long.is_none() {
            text.push_str(" ")?;
            push_argument(text, row, has_row(wanted, row))?;
        }
    }
    Ok(())
}

fn push_name(text: &mut String, called: Called<'_>) -> Result<(), AllocError> {
    if let Some(program) = called.program {
        push_all(text, &[program, " "])?;
    }
    text.push_str(called.subcommand.name)
}

/// Whether a row is among some.
pub(crate) fn has_row(rows: &[&Row], row: &Row) -> bool {
    for it in rows {
        if it.name == row.name {
            return true;
        }
    }
    false
}

/// The rows of the arguments that have to be given.
pub(crate) fn required(
    alloc: Global,
    rows: &'static [Row],
) -> Result<Vec<&'static Row>, AllocError> {
    let mut wanted = Vec::new(alloc);
    for row in rows {
        if row.is_required {
            wanted.push(row)?;
        }
    }
    Ok(wanted)
}
