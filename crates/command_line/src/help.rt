//! The texts of help.

ghost use Rattle.std.specs.Prelude.{◌≡◌, ◌-◌, ◌++◌, IfOk, OnOk, replicate};
ghost use Rattle.std.specs.String.{string_bytes};
ghost use Rattle.command_line.specs.Help.{entry_text, longest_name, program_help, subcommand_entries};

use crate::row::{Row, Subcommand, Value};
use crate::rows::HELP_OPTION;
use crate::usage::{Called, push_all, push_argument, push_plain_usage};
use std::alloc::{AllocError, Global};

/// What the program does.
const ABOUT: &str = "Assembles, runs and debugs programs for the Apollo Guidance Computer";

/// What the help of the program tells after its options.
const AFTER: &str = "\n\nOptions:
  -h, --help     Print help
  -V, --version  Print version

See the --help of each for its files, its output and its exit statuses.
To begin: views/new NAME writes a program and its tests.
";

/// What `agcws help` does.
const HELP_ABOUT: &str = "Print this message or the help of the given subcommand(s)";

/// The help of the program: each subcommand once, in the order of the table.
pub(crate) fn program_help(
    alloc: Global,
    program: &str,
    table: &[Subcommand],
) -> Result<String, AllocError>
    ensures { IfOk result (λ text. string_bytes text
        ≡ program_help ABOUT.now HELP_ABOUT.now AFTER.now program.now table.now) }
{
    let mut text = String::from_str(alloc, ABOUT)?;
    push_all(
        &mut text,
        &["\n\nUsage: ", program, " <COMMAND>\n\nCommands:"],
    )?;
    let longest = longest_name(table);
    push_subcommands(&mut text, table, longest)?;
    push_entry(&mut text, "\n  ", "help", longest)?;
    push_all(&mut text, &[HELP_ABOUT, AFTER])?;
    Ok(text)
}

// How many bytes the longest name of a subcommand has, and `help`.
fn longest_name(table: &[Subcommand]) -> usize
    ensures { result ≡ longest_name 4 table.now }
{
    let mut longest = "help".len();
    for it in table {
        longest = longest.max(it.name.len());
    }
    longest
}

// Adds the entries of the subcommands.
fn push_subcommands(
    text: &mut String,
    table: &[Subcommand],
    longest: usize,
) -> Result<(), AllocError>
    ensures { OnOk result (string_bytes text.new ≡ string_bytes text.old ++ subcommand_entries longest table.now) }
{
    for it in table {
        push_entry(text, "\n  ", it.name, longest)?;
        text.push_str(it.about)?;
    }
    Ok(())
}

/// The help of `agcws help`.
pub(crate) fn help_help(alloc: Global, usage: &str) -> Result<String, AllocError> {
    let mut text = String::from_str(alloc, HELP_ABOUT)?;
    push_all(
        &mut text,
        &[
            "\n\n",
            usage,
            "\n\nArguments:\n  [COMMAND]...  Print help for the subcommand(s)\n",
        ],
    )?;
    Ok(text)
}

/// The help of a subcommand.
pub(crate) fn subcommand_help(alloc: Global, called: Called<'_>) -> Result<String, AllocError> {
    let it = called.subcommand;
    let mut text = String::from_str(alloc, it.about)?;
    text.push_str("\n\nUsage: ")?;
    push_plain_usage(alloc, &mut text, called)?;
    if it.rows.iter().any(|row| row.long.is_none()) {
        text.push_str("\n\nArguments:")?;
        push_entries(alloc, &mut text, it.rows, false)?;
    }
    text.push_str("\n\nOptions:")?;
    push_entries(alloc, &mut text, it.rows, true)?;
    push_all(&mut text, &["\n\n", it.help, "\n"])?;
    Ok(text)
}

// Adds a line for each option, or for each argument that is told by its place.
fn push_entries(
    alloc: Global,
    text: &mut String,
    rows: &[Row],
    are_options: bool,
) -> Result<(), AllocError> {
    let before = if are_options { "\n      " } else { "\n  " };
    let mut longest = if are_options { "--help".len() } else { 2 };
    for row in rows {
        if row.long.is_some() == are_options {
            let name = name_of(alloc, row)?;
            longest = longest.max(name.len());
        }
    }
    for row in rows {
        if row.long.is_some() == are_options {
            let name = name_of(alloc, row)?;
            push_entry(text, before, name.as_str(), longest)?;
            push_meaning(text, row)?;
        }
    }
    if are_options {
        push_entry(text, "\n  -h, ", "--help", longest)?;
        text.push_str(HELP_OPTION.help)?;
    }
    Ok(())
}

// How an argument is named in its entry.
fn name_of(alloc: Global, row: &Row) -> Result<String, AllocError> {
    let mut name = String::new(alloc);
    push_argument(&mut name, row, row.is_required)?;
    Ok(name)
}

// Adds the name of an entry, and blanks up to what it means, where the longest name has so many bytes.
fn push_entry(text: &mut String, before: &str, name: &str, longest: usize) -> Result<(), AllocError>
    ensures { OnOk result (string_bytes text.new ≡ string_bytes text.old ++ entry_text before.now name.now longest) }
{
    push_all(text, &[before, name, "  "])?;
    push_blanks(text, longest.saturating_sub(name.len()))
}

// Adds so many blanks.
fn push_blanks(text: &mut String, count: usize) -> Result<(), AllocError>
    ensures { OnOk result (string_bytes text.new ≡ string_bytes text.old ++ replicate count 32) }
{
    for _ in 0..count {
        text.push_str(" ")?;
    }
    Ok(())
}

// Adds what an argument means, its default, and its values where these are few.
fn push_meaning(text: &mut String, row: &Row) -> Result<(), AllocError> {
    text.push_str(row.help)?;
    if let Some(value) = row.default_value {
        push_all(text, &[" [default: ", value, "]"])?;
    }
    match row.value {
        Value::OneOf(names) => push_values(text, " ", names),
        _ => Ok(()),
    }
}

/// Adds the values of which an argument takes one.
pub(crate) fn push_values(
    text: &mut String,
    before: &str,
    names: &[&str],
) -> Result<(), AllocError> {
    push_all(text, &[before, "[possible values: "])?;
    for (i, name) in names.iter().enumerate() {
        if i > 0 {
            text.push_str(", ")?;
        }
        text.push_str(name)?;
    }
    text.push_str("]")
}
