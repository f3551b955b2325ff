//! A source under assumptions.

ghost use Rattle.std.specs.Prelude.{◌≡◌, ◌++◌, codes, decimal, take, drop, IfOk, OnOk};
ghost use Rattle.agc_text.specs.Lines.{lines};
ghost use Rattle.assumed.specs.Sources.{edited, edited_rest, line_assumed, lines_assumed, source_assumed, taken_in};
ghost use Rattle.assumed.specs.Sources.{assumed_row, assumed_rows, taken_line, taken_on, wording_on};
ghost use Rattle.assumed.specs.Wordings.{edit_in, wording_name};

use crate::edits::{LineEdit, taken_by};
use crate::wording::Wording;
use agc_text::next_line;
use arrayvec::ArrayVec;
use std::alloc::{AllocError, Global};
use words::push_decimal;
use yayul::{Language, reading_of};

/// A source of the language of flight programs under some assumptions: each line of a form for which a wording is
/// assumed is edited, and tells so in a comment at its end. Without assumptions it is as it is.
#[tactic(auto, unfolding(crate::specs::Sources::source_assumed))]
pub fn source_assumed(
    alloc: Global,
    wordings: &[Wording],
    source: &[u8],
) -> Result<Vec<u8>, AllocError>
    ensures { IfOk result (λ text. text.items ≡ source_assumed wordings.now source.now) }
{
    if wordings.len() == 0 {
        Vec::from_slice(alloc, source)
    } else {
        lines_assumed(alloc, wordings, source)
    }
}

// What stands in place of the lines of a source, a line feed after each.
fn lines_assumed(alloc: Global, wordings: &[Wording], source: &[u8]) -> Result<Vec<u8>, AllocError>
    ensures { IfOk result (λ text. text.items ≡ lines_assumed wordings.now (lines source.now)) }
{
    let mut made = Vec::new(alloc);
    let mut rest = source;
    while let Some((text, after)) = next_line(rest) {
        push_line(&mut made, wordings, text)?;
        made.extend_from_slice(b"\n")?;
        rest = after;
    }
    Ok(made)
}

/// A row for each line of a source that stands by an assumption, with the source's name: `my.agc:12: assumed MM=DEC`.
#[tactic(auto, using(crate::proofs::NoRows::no_rows))]
pub fn assumed_rows(
    alloc: Global,
    name: &[u8],
    wordings: &[Wording],
    source: &[u8],
) -> Result<Vec<u8>, AllocError>
    ensures { IfOk result (λ rows. rows.items ≡ assumed_rows name.now wordings.now 1 (lines source.now)) }
{
    if wordings.len() == 0 {
        Ok(Vec::new(alloc))
    } else {
        rows_of_lines(alloc, name, wordings, source)
    }
}

// The rows of the lines of a source, each of which is read.
fn rows_of_lines(
    alloc: Global,
    name: &[u8],
    wordings: &[Wording],
    source: &[u8],
) -> Result<Vec<u8>, AllocError>
    ensures { IfOk result (λ rows. rows.items ≡ assumed_rows name.now wordings.now 1 (lines source.now)) }
{
    let mut rows = Vec::new(alloc);
    let mut number: u64 = 1;
    let mut rest = source;
    while let Some((text, after)) = next_line(rest) {
        push_row(&mut rows, name, wordings, number, text)?;
        number += 1;
        rest = after;
    }
    Ok(rows)
}

/// The wording by which a line of a source stands, if any.
pub fn wording_on(wordings: &[Wording], text: &[u8]) -> Option<Wording>
    ensures { result ≡ wording_on wordings.now text.now }
{
    let parts = reading_of(Language::Flight, text);
    match taken_by(wordings, &parts) {
        Some((wording, _)) => Some(wording),
        None => None,
    }
}

// Appends the row of a line, where it stands by an assumption.
fn push_row(
    rows: &mut Vec<u8>,
    name: &[u8],
    wordings: &[Wording],
    number: u64,
    text: &[u8],
) -> Result<(), AllocError>
    ensures { OnOk result (rows.new.items
        ≡ rows.old.items ++ assumed_row name.now number (taken_on wordings.now text.now)) }
{
    let parts = reading_of(Language::Flight, text);
    match taken_by(wordings, &parts) {
        Some((wording, _)) => push_told(rows, name, number, wording),
        None => Ok(()),
    }
}

// Appends the row of a line that stands by a wording.
#[tactic(auto, using(words::proofs::Digits::short_decimal))]
fn push_told(
    rows: &mut Vec<u8>,
    name: &[u8],
    number: u64,
    wording: Wording,
) -> Result<(), AllocError>
    ensures { OnOk result (rows.new.items ≡ rows.old.items ++ (name.now
        ++ (codes ":" ++ (decimal number ++ (codes ": assumed " ++ (wording_name wording ++ codes "\n")))))) }
{
    let mut digits: ArrayVec<u8, 20> = ArrayVec::new();
    push_decimal(&mut digits, number);
    rows.extend_from_slice(name)?;
    rows.extend_from_slice(b":")?;
    rows.extend_from_slice(digits.as_slice())?;
    rows.extend_from_slice(b": assumed ")?;
    rows.extend_from_slice(wording.name())?;
    rows.extend_from_slice(b"\n")
}

// Appends what stands in place of a line.
fn push_line(made: &mut Vec<u8>, wordings: &[Wording], text: &[u8]) -> Result<(), AllocError>
    ensures { OnOk result (made.new.items ≡ made.old.items ++ line_assumed wordings.now text.now) }
{
    let parts = reading_of(Language::Flight, text);
    match taken_by(wordings, &parts) {
        Some((wording, edit)) => push_taken(made, text, wording, &edit),
        None => made.extend_from_slice(text),
    }
}

// Appends an edited line, with the wording by which it stands.
fn push_taken(
    made: &mut Vec<u8>,
    text: &[u8],
    wording: Wording,
    edit: &LineEdit,
) -> Result<(), AllocError>
    ensures { OnOk result (made.new.items ≡ made.old.items ++ taken_line text.now (wording, edit_in edit.now)) }
{
    push_edited(made, text, edit)?;
    made.extend_from_slice(b" # ASSUMED ")?;
    made.extend_from_slice(wording.name())
}

// Appends an edited line.
#[tactic(auto, unfolding(crate::specs::Sources::edited))]
fn push_edited(made: &mut Vec<u8>, text: &[u8], edit: &LineEdit) -> Result<(), AllocError>
    ensures { OnOk result (made.new.items ≡ made.old.items ++ edited text.now (edit_in edit.now)) }
{
    let rest = bytes_after(text, edit.start);
    made.extend_from_slice(first_bytes(text, edit.start))?;
    made.extend_from_slice(first_bytes(rest, edit.kept))?;
    made.extend_from_slice(edit.text)?;
    made.extend_from_slice(bytes_after(bytes_after(rest, edit.kept), edit.cut))
}

fn first_bytes(text: &[u8], count: usize) -> &[u8]
    ensures { result.now ≡ take count text.now }
{
    match text.get(..count) {
        Some(first) => first,
        None => text,
    }
}

fn bytes_after(text: &[u8], count: usize) -> &[u8]
    ensures { result.now ≡ drop count text.now }
{
    match text.get(count..) {
        Some(rest) => rest,
        None => &[],
    }
}
