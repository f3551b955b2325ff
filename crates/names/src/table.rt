//! Tables of names from their text.

ghost use Rattle.std.specs.Prelude.{◌≡◌, ◌+◌, ◌≤◌, [], Ok, IfOk, IfErr, IfSome, length};
ghost use Rattle.std.specs.Option.{option_map};
ghost use Rattle.agc_text.specs.Lines.{lines};
ghost use Rattle.names.specs.Tables.{Tells, below, is_decimal, is_heading, is_row, names_of, table_of};

use crate::entry::{Entry, entry_in};
use agc_text::{before_comment, decimal_value, next_line, split_field};
use std::alloc::Global;
use symbols::Symbols;

/// Why a text gives no table of names.
#[derive(Clone, Copy, PartialEq, Eq, Debug, Drop)]
pub enum TableFault {
    /// A growth of memory was refused.
    NoMemory,
    /// The line of this number, from 1 on, has another form.
    Line(u32),
}

/// The names that the lines of a text give, in their order; of a name that stands twice the first. A line has a name
/// and a place, or a name, one of FIXED, ERASABLE and NUM, and a value; or no field at all. Of a listing, where a line
/// SYMBOLS with a count stands and nothing above it but rows with their numbers, only the lines below are taken.
///
/// The first line that has another form is told, or that memory ran out.
pub fn names_in(alloc: Global, text: &[u8]) -> Result<Symbols, TableFault>
    requires { length text.now ≤ 8388608 }
    ensures ok { IfOk result (λ names. table_of text.now ≡ Ok names) }
    ensures fault { IfErr result (Tells (table_of text.now)) }
{
    match below_heading(text) {
        Some((before, rest)) => names_after(alloc, before, rest),
        None => names_after(alloc, 0, text),
    }
}

/// How many lines stand before those below the heading of a listing's symbols, and those, where there is one and rows
/// alone stand above it.
fn below_heading(text: &[u8]) -> Option<(u32, &[u8])>
    requires { length text.now ≤ 8388608 }
    ensures below { option_map (λ r. (r.0, lines r.1.now)) result ≡ below 0 (lines text.now) }
    ensures few { IfSome result (λ r. r.0 + length r.1.now ≤ 8388608) }
{
    let mut rest = text;
    let mut line = 0;
    while let Some((first, following)) = next_line(rest) {
        rest = following;
        line += 1;
        if is_heading(first) {
            return Some((line, following));
        }
        if !is_row(first) {
            return None;
        }
    }
    None
}

/// Whether a line is the heading of a listing's symbols.
#[tactic(auto, unfolding(crate::specs::Tables::is_heading))]
fn is_heading(line: &[u8]) -> bool
    ensures { result ≡ is_heading line.now }
{
    let Some((first, rest)) = split_field(before_comment(line)) else {
        return false;
    };
    let Some((count, rest)) = split_field(rest) else {
        return false;
    };
    match split_field(rest) {
        Some(_) => false,
        None => first == "SYMBOLS".as_bytes() && is_decimal(count),
    }
}

/// Whether a line may stand above that heading: a row with its number, or a line without a field.
#[tactic(auto, unfolding(crate::specs::Tables::is_row))]
fn is_row(line: &[u8]) -> bool
    ensures { result ≡ is_row line.now }
{
    match split_field(before_comment(line)) {
        Some((first, _)) => is_decimal(first),
        None => true,
    }
}

/// Whether a field is of decimal digits.
fn is_decimal(field: &[u8]) -> bool
    ensures { result ≡ is_decimal field.now }
{
    decimal_value(field).is_some()
}

/// The names of some lines, before which so many others stand.
fn names_after(alloc: Global, before: u32, text: &[u8]) -> Result<Symbols, TableFault>
    requires { before + length text.now ≤ 8388608 }
    ensures ok { IfOk result (λ names. names_of [] before (lines text.now) ≡ Ok names) }
    ensures fault { IfErr result (Tells (names_of [] before (lines text.now))) }
{
    let mut names = Symbols::new(alloc);
    let mut rest = text;
    let mut line = before;
    while let Some((first, following)) = next_line(rest) {
        rest = following;
        line += 1;
        match entry_in(first) {
            Entry::Nothing => {}
            Entry::Wrong => return Err(TableFault::Line(line)),
            Entry::Names(name, value) => match names.define(name, value) {
                Ok(_) => {}
                Err(_) => return Err(TableFault::NoMemory),
            },
        }
    }
    Ok(names)
}
