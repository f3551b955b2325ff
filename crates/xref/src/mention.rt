//! Which names the lines of a source mention.

ghost use Rattle.std.specs.Prelude.{◌≡◌, ◌++◌, map, IfOk, OnOk};
ghost use Rattle.yayul.specs.Readings.{parts_in};
ghost use Rattle.xref.specs.Xref.{defined_on, mentions, told, used_on};

use crate::use_of::{Use, use_in};
use agc_text::next_line;
use std::alloc::{AllocError, Global};
use yayul::{Language, Reading, reading_of};

/// A line that mentions a name, and does something with it.
#[derive(Clone, Copy, Drop)]
pub struct Mention<'a> {
    /// The number of the line, from 1 on.
    pub line: u64,
    /// The name.
    pub name: &'a [u8],
    /// What it does with it.
    pub used: Use,
}

/// What the lines of a source mention: their labels and their operands, in the order of the lines. An `Err` is that
/// memory ran out.
pub fn mentions(
    alloc: Global,
    language: Language,
    source: &[u8],
) -> Result<Vec<Mention<'_>>, AllocError>
    ensures { IfOk result (λ found. map told found.items ≡ mentions language source.now) }
{
    let mut found = Vec::new(alloc);
    let mut rest = source;
    for index in 0..source.len() {
        let Some((text, after)) = next_line(rest) else {
            return Ok(found);
        };
        note(&mut found, index as u64 + 1, &reading_of(language, text))?;
        rest = after;
    }
    Ok(found)
}

// Appends what a line mentions.
fn note<'a>(
    found: &mut Vec<Mention<'a>>,
    line: u64,
    reading: &Reading<'a>,
) -> Result<(), AllocError>
    ensures { OnOk result (map told found.new.items
        ≡ map told found.old.items ++ (defined_on line (parts_in reading.now) ++ used_on line (parts_in reading.now))) }
{
    if let Some(label) = reading.label {
        found.push(Mention {
            line,
            name: label.text,
            used: Use::Defined,
        })?;
    }
    note_operand(found, line, reading)
}

// Appends its operand.
fn note_operand<'a>(
    found: &mut Vec<Mention<'a>>,
    line: u64,
    reading: &Reading<'a>,
) -> Result<(), AllocError>
    ensures { OnOk result (map told found.new.items ≡ map told found.old.items ++ used_on line (parts_in reading.now)) }
{
    let Some(used) = use_in(reading) else {
        return Ok(());
    };
    match reading.operand {
        Some(operand) => {
            found.push(Mention {
                line,
                name: operand.text,
                used,
            })?;
            Ok(())
        }
        None => Ok(()),
    }
}
