//! Names that are like a word.

use crate::row::{Row, Subcommand};
use crate::rows::HELP_OPTION;
use std::alloc::{AllocError, Global};
use strsim::jaro;

/// How much a word and a name are alike, from 0 to 1, above which the name is like the word.
const ALIKE: f64 = 0.7;

/// The subcommands that are like a word, the likest last.
pub(crate) fn like_subcommands(
    alloc: Global,
    names: &[&'static str],
    word: &str,
) -> Result<Vec<&'static str>, AllocError> {
    let mut alike: Vec<(f64, &'static str)> = Vec::new(alloc);
    for name in names {
        let much = jaro(alloc, word, name)?;
        if much > ALIKE {
            let at = alike.iter().filter(|it| it.0 <= much).count();
            if at <= alike.len() {
                alike.insert(at, (much, *name))?;
            }
        }
    }
    let mut texts = Vec::new(alloc);
    for it in &alike {
        texts.push(it.1)?;
    }
    Ok(texts)
}

/// Whether an option is like a name of one that the program has, or that a subcommand has which is named after it.
pub(crate) fn has_like_option(
    alloc: Global,
    table: &[Subcommand],
    name: &str,
    words: &[String],
) -> Result<bool, AllocError> {
    if is_like(alloc, name, HELP_OPTION.name)? || is_like(alloc, name, "version")? {
        return Ok(true);
    }
    for it in table {
        if words.iter().any(|word| word.as_str() == it.name)
            && has_like_row(alloc, it.rows, name)?
        {
            return Ok(true);
        }
    }
    Ok(false)
}

fn has_like_row(alloc: Global, rows: &[Row], name: &str) -> Result<bool, AllocError> {
    for row in rows {
        if let Some(long) = row.long {
            if is_like(alloc, name, long)? {
                return Ok(true);
            }
        }
    }
    Ok(false)
}

fn is_like(alloc: Global, word: &str, name: &str) -> Result<bool, AllocError> {
    Ok(jaro(alloc, word, name)? > ALIKE)
}
