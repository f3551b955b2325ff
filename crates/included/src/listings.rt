//! Listings of sources of several files.

ghost use Rattle.std.specs.Prelude.{◌≡◌, ◌++◌, codes, length, max, IfOk, OnOk};
ghost use Rattle.agc_text.specs.Lines.{lines};
ghost use Rattle.included.specs.Located.{first_row, located_listing, longest, row_in, row_text, section_from};

use crate::joined::Joined;
use crate::numbers::{begins, row_after};
use crate::paths::{line_name, push_right};
use agc_text::next_line;
use std::alloc::{AllocError, Global};

/// What begins the line of a listing before its symbols, and that before its cross-reference.
const SYMBOLS: &[u8] = b"SYMBOLS ";

const CROSS_REFERENCE: &[u8] = b"# XREF ";

/// What stands before the number of a line in a cross-reference.
const COMMENT: &[u8] = b"# ";

/// What rows a listing has.
#[derive(Clone, Copy)]
pub(crate) enum Section {
    /// Of lines, each with its number.
    Lines,
    /// Of symbols, which have no number.
    Symbols,
    /// Of uses of symbols: comments with the numbers of lines.
    Uses,
}

/// A listing of a source of several files, whose rows have the name of a file, and the number of a line in it, for the
/// number of a line of the text. An `Err` is that memory ran out.
pub fn located_listing(
    alloc: Global,
    joined: &Joined,
    listing: &[u8],
) -> Result<Vec<u8>, AllocError>
    ensures { IfOk result (λ text. text.items ≡ located_listing joined.now listing.now) }
{
    let width = longest_name(alloc, joined)?;
    let mut out = Vec::new(alloc);
    let mut section = Section::Lines;
    let mut rest = listing;
    while let Some((line, following)) = next_line(rest) {
        section = section_from(section, line);
        push_row_in(&mut out, joined, section, width, line)?;
        rest = following;
    }
    Ok(out)
}

/// The first line of a text, in which the row of a listing follows some bytes, with the name of its line. An `Err` is
/// that memory ran out.
pub fn located_row(
    alloc: Global,
    joined: &Joined,
    front: &[u8],
    text: &[u8],
) -> Result<Vec<u8>, AllocError>
    ensures { IfOk result (λ row. row.items ≡ first_row joined.now front.now (lines text.now)) }
{
    let mut out = Vec::new(alloc);
    if let Some((line, _)) = next_line(text) {
        push_row(&mut out, joined, front, 0, line)?;
        out.push(b'\n')?;
    }
    Ok(out)
}

/// How long the longest name of a line is.
#[tactic(auto, using(crate::proofs::Turns::longest_none, crate::proofs::Turns::longest_more))]
fn longest_name(alloc: Global, joined: &Joined) -> Result<usize, AllocError>
    ensures { IfOk result (λ count. count ≡ longest joined.now 0 joined.now.places) }
{
    let mut longest = 0;
    for place in joined.places() {
        let name = line_name(alloc, joined, *place)?;
        longest = longer(longest, &name);
    }
    Ok(longest)
}

/// How long the longer of two names is, of one of which that is known.
fn longer(longest: usize, name: &Vec<u8>) -> usize
    ensures { result ≡ max longest (length name.now.items) }
{
    longest.max(name.len())
}

/// What rows a listing has from a line on.
fn section_from(section: Section, line: &[u8]) -> Section
    ensures { result ≡ section_from section line.now }
{
    if begins(SYMBOLS, line) {
        Section::Symbols
    } else if begins(CROSS_REFERENCE, line) {
        Section::Uses
    } else {
        section
    }
}

/// Appends a row and a line feed.
fn push_row_in(
    out: &mut Vec<u8>,
    joined: &Joined,
    section: Section,
    width: usize,
    row: &[u8],
) -> Result<(), AllocError>
    ensures { OnOk result (out.new.items ≡ out.old.items ++ (row_in joined.now section width row.now ++ codes "\n")) }
{
    match section {
        Section::Lines => push_row(out, joined, b"", width, row)?,
        Section::Symbols => out.extend_from_slice(row)?,
        Section::Uses => push_row(out, joined, COMMENT, width, row)?,
    }
    out.push(b'\n')?;
    Ok(())
}

/// Appends a row, in which the number of a line follows some bytes.
fn push_row(
    out: &mut Vec<u8>,
    joined: &Joined,
    front: &[u8],
    width: usize,
    row: &[u8],
) -> Result<(), AllocError>
    ensures { OnOk result (out.new.items ≡ out.old.items ++ row_text joined.now front.now width row.now) }
{
    match row_after(joined, front, row) {
        Some((place, rest)) => {
            let name = line_name(*out.allocator(), joined, place)?;
            out.extend_from_slice(front)?;
            push_right(out, width, &name)?;
            out.extend_from_slice(rest)?;
        }
        None => out.extend_from_slice(row)?,
    }
    Ok(())
}
