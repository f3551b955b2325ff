//! The words of a call: those of the program itself, and those of a subcommand.

use crate::Parsed;
use crate::forms::{letters_in, option_in};
use crate::found::arguments;
use crate::given::Values;
use crate::help::{help_help, program_help, subcommand_help};
use crate::reader::{Reader, Refusal};
use crate::row::Subcommand;
use crate::said::{MORE, push_unexpected, push_unknown, push_unneeded_value, said};
use crate::similar::{has_like_option, like_subcommands};
use crate::table::subcommands;
use crate::usage::{Called, push_all, push_plain_usage};
use std::alloc::{AllocError, Global};

/// The version of the program, as `--version` tells it.
const PROGRAM_VERSION: &str = "0.1.0";

/// What is said of a program to begin with, which a view writes.
const NO_NEW: &str = "\nviews/new NAME writes a program to begin with, and its tests.\n";

/// What the words of a call come to.
pub(crate) fn parsed<'a>(alloc: Global, words: &'a [String]) -> Result<Parsed<'a>, AllocError> {
    let table = subcommands();
    let program = match words.first() {
        Some(word) => file_name(word.as_str()),
        None => None,
    };
    let rest = words.get(1..).unwrap_or(&[]);
    let Some((first, rest)) = rest.split_first() else {
        return Ok(Parsed::Wrong(no_subcommand(alloc, program, &table)?));
    };
    match subcommand_named(&table, first.as_str()) {
        Some(subcommand) => of_subcommand(
            alloc,
            Called {
                program,
                subcommand,
            },
            rest,
        ),
        None => of_program(alloc, program, &table, first.as_str(), rest),
    }
}

/// The file's name in a path: what follows its last slash.
fn file_name(path: &str) -> Option<&str> {
    let trimmed = path.trim_end_matches('/');
    let name = match trimmed.rsplit_once('/') {
        Some((_, name)) => name,
        None => trimmed,
    };
    if name.is_empty() || name == ".." {
        None
    } else {
        Some(name)
    }
}

fn subcommand_named<'t>(table: &'t [Subcommand], name: &str) -> Option<&'t Subcommand> {
    for it in table {
        if it.name == name {
            return Some(it);
        }
    }
    None
}

/// What the words after a subcommand come to.
fn of_subcommand<'a>(
    alloc: Global,
    called: Called<'_>,
    words: &'a [String],
) -> Result<Parsed<'a>, AllocError> {
    let rows = called.subcommand.rows;
    let mut reader = Reader::new(alloc, rows);
    match reader.read(rows, words) {
        Ok(()) => {
            let values = Values {
                rows,
                given: reader.given.as_slice(),
            };
            match arguments(alloc, called.subcommand.name, &values)? {
                Some(arguments) => Ok(Parsed::Arguments(arguments)),
                None => Ok(Parsed::Wrong(String::new(alloc))),
            }
        }
        Err(Refusal::NoMemory) => Err(AllocError),
        Err(Refusal::Help) => Ok(Parsed::Help(subcommand_help(alloc, called)?)),
        Err(refusal) => {
            let last = match words.last() {
                Some(word) => word.as_str(),
                None => called.subcommand.name,
            };
            Ok(Parsed::Wrong(said(alloc, called, &reader, refusal, last)?))
        }
    }
}

/// What words come to of which the first is no subcommand.
fn of_program<'a>(
    alloc: Global,
    program: Option<&str>,
    table: &[Subcommand],
    first: &str,
    rest: &[String],
) -> Result<Parsed<'a>, AllocError> {
    if first == "help" {
        return helped(alloc, program, table, rest);
    }
    if first == "--" {
        return after_dashes(alloc, program, table, rest);
    }
    if let Some((name, value)) = option_in(first) {
        return of_option(alloc, program, table, name, value, rest);
    }
    match letters_in(first) {
        Some(letters) if letters.starts_with('h') => help(alloc, program, table),
        Some(letters) if letters.starts_with('V') => version(alloc),
        Some(_) => {
            let mut text = String::from_str(alloc, "error: ")?;
            push_unknown(&mut text, first)?;
            wrong(text, program)
        }
        None => no_such(alloc, program, table, first),
    }
}

fn help<'a>(
    alloc: Global,
    program: Option<&str>,
    table: &[Subcommand],
) -> Result<Parsed<'a>, AllocError> {
    Ok(Parsed::Help(program_help(alloc, name_of(program), table)?))
}

fn version<'a>(alloc: Global) -> Result<Parsed<'a>, AllocError> {
    let mut text = String::new(alloc);
    push_all(&mut text, &["agcws ", PROGRAM_VERSION, "\n"])?;
    Ok(Parsed::Help(text))
}

// The name by which the program was called, or else its own.
fn name_of(program: Option<&str>) -> &str {
    program.unwrap_or("agcws")
}

// What is said, with the program's usage.
fn wrong<'a>(mut text: String, program: Option<&str>) -> Result<Parsed<'a>, AllocError> {
    push_all(
        &mut text,
        &["\n\nUsage: ", name_of(program), " <COMMAND>", MORE],
    )?;
    Ok(Parsed::Wrong(text))
}

// What an option comes to that no subcommand stands before.
fn of_option<'a>(
    alloc: Global,
    program: Option<&str>,
    table: &[Subcommand],
    name: &str,
    value: Option<&str>,
    rest: &[String],
) -> Result<Parsed<'a>, AllocError> {
    let mut text = String::from_str(alloc, "error: ")?;
    if name == "help" || name == "version" {
        let Some(value) = value else {
            return if name == "help" {
                help(alloc, program, table)
            } else {
                version(alloc)
            };
        };
        push_unneeded_value(&mut text, name, value)?;
        push_all(
            &mut text,
            &[
                "\n\nUsage: ",
                name_of(program),
                " --",
                name,
                " <COMMAND>",
                MORE,
            ],
        )?;
        return Ok(Parsed::Wrong(text));
    }
    push_unexpected(&mut text, "--", name)?;
    if has_like_option(alloc, table, name, rest)? {
        text.push_str(MORE)?;
        Ok(Parsed::Wrong(text))
    } else {
        wrong(text, program)
    }
}

// What words come to after `--`, where no subcommand stands before it.
fn after_dashes<'a>(
    alloc: Global,
    program: Option<&str>,
    table: &[Subcommand],
    rest: &[String],
) -> Result<Parsed<'a>, AllocError> {
    let Some(word) = rest.first() else {
        return Ok(Parsed::Wrong(no_subcommand(alloc, program, table)?));
    };
    let word = word.as_str();
    if word == "help" || subcommand_named(table, word).is_some() {
        let mut text = String::from_str(alloc, "error: ")?;
        push_unexpected(&mut text, "", word)?;
        text.push_str(MORE)?;
        return Ok(Parsed::Wrong(text));
    }
    no_such(alloc, program, table, word)
}

// What is said of a word that is no subcommand.
fn no_such<'a>(
    alloc: Global,
    program: Option<&str>,
    table: &[Subcommand],
    word: &str,
) -> Result<Parsed<'a>, AllocError> {
    let mut text = String::new(alloc);
    push_unrecognized(&mut text, word)?;
    let mut names = Vec::new(alloc);
    for it in table {
        names.push(it.name)?;
    }
    names.push("help")?;
    let alike = like_subcommands(alloc, names.as_slice(), word)?;
    for (i, name) in alike.iter().enumerate() {
        let before = if i > 0 {
            ", '"
        } else if alike.len() == 1 {
            "\n\n  tip: a similar subcommand exists: '"
        } else {
            "\n\n  tip: some similar subcommands exist: '"
        };
        push_all(&mut text, &[before, name, "'"])?;
    }
    push_all(
        &mut text,
        &["\n\nUsage: ", name_of(program), " <COMMAND>", MORE],
    )?;
    if word == "new" {
        text.push_str(NO_NEW)?;
    }
    Ok(Parsed::Wrong(text))
}

fn push_unrecognized(text: &mut String, word: &str) -> Result<(), AllocError> {
    push_all(text, &["error: unrecognized subcommand '", word, "'"])
}

// What is said where no subcommand is named.
fn no_subcommand(
    alloc: Global,
    program: Option<&str>,
    table: &[Subcommand],
) -> Result<String, AllocError> {
    let mut text = String::new(alloc);
    push_all(
        &mut text,
        &[
            "error: '",
            name_of(program),
            "' requires a subcommand but one was not provided\n  [subcommands: ",
        ],
    )?;
    for it in table {
        push_all(&mut text, &[it.name, ", "])?;
    }
    push_all(
        &mut text,
        &["help]\n\nUsage: ", name_of(program), " <COMMAND>", MORE],
    )?;
    Ok(text)
}

// What `agcws help` and some words come to.
fn helped<'a>(
    alloc: Global,
    program: Option<&str>,
    table: &[Subcommand],
    words: &[String],
) -> Result<Parsed<'a>, AllocError> {
    let Some((name, rest)) = words.split_first() else {
        return help(alloc, program, table);
    };
    let mut usage = String::from_str(alloc, "Usage: ")?;
    let Some(subcommand) = subcommand_named(table, name.as_str()) else {
        return if name.as_str() == "help" {
            help_of_help(alloc, program, rest)
        } else {
            let mut text = String::new(alloc);
            push_unrecognized(&mut text, name.as_str())?;
            wrong(text, program)
        };
    };
    let called = Called {
        program,
        subcommand,
    };
    let Some(word) = rest.first() else {
        return Ok(Parsed::Help(subcommand_help(alloc, called)?));
    };
    push_plain_usage(alloc, &mut usage, called)?;
    let mut text = String::new(alloc);
    push_unrecognized(&mut text, word.as_str())?;
    push_all(&mut text, &["\n\n", usage.as_str(), MORE])?;
    Ok(Parsed::Wrong(text))
}

// What `agcws help help` and some words come to.
fn help_of_help<'a>(
    alloc: Global,
    program: Option<&str>,
    words: &[String],
) -> Result<Parsed<'a>, AllocError> {
    let mut usage = String::from_str(alloc, "Usage: ")?;
    if let Some(program) = program {
        push_all(&mut usage, &[program, " "])?;
    }
    usage.push_str("help [COMMAND]...")?;
    let Some(word) = words.first() else {
        return Ok(Parsed::Help(help_help(alloc, usage.as_str())?));
    };
    let mut text = String::new(alloc);
    push_unrecognized(&mut text, word.as_str())?;
    push_all(&mut text, &["\n\n", usage.as_str(), "\n"])?;
    Ok(Parsed::Wrong(text))
}
