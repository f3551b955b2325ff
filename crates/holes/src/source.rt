//! A source with a word in place of each line of the interpretive language.

ghost use Rattle.std.specs.Prelude.{◌≡◌, ◌++◌, codes, false, IfOk, OnOk};
ghost use Rattle.std.specs.Option.{option_map};
ghost use Rattle.agc_text.specs.Lines.{lines};
ghost use Rattle.agc_text.specs.Views.{piece};
ghost use Rattle.yayul.specs.Readings.{parts_for, parts_in};
ghost use Rattle.yayul.specs.declared.language.Language.TheVariants.{Flight};
ghost use Rattle.warnings.specs.Fields.{text_of};
ghost use Rattle.holes.specs.HoleLines.{has_holes, hole_line, inside_after, line_with_hole, lines_with_holes};
ghost use Rattle.holes.specs.HoleLines.{source_with_holes};

use crate::hole_lines::{inside_after, is_hole};
use agc_text::{Field, next_line};
use std::alloc::{AllocError, Global};
use yayul::{Language, Reading, reading_of};

/// A source with a word in place of each line of the interpretive language; one without such a line as it is.
#[tactic(auto, unfolding(crate::specs::HoleLines::source_with_holes))]
pub(crate) fn source_with_holes(
    alloc: Global,
    word: &[u8],
    source: &[u8],
) -> Result<Vec<u8>, AllocError>
    ensures { IfOk result (λ text. text.items ≡ source_with_holes word.now source.now) }
{
    if has_holes(source) {
        lines_with_holes(alloc, word, source)
    } else {
        Vec::from_slice(alloc, source)
    }
}

// Whether a line of a source is of the interpretive language.
fn has_holes(source: &[u8]) -> bool
    ensures { result ≡ has_holes false (lines source.now) }
{
    let mut inside = false;
    let mut rest = source;
    while let Some((text, after)) = next_line(rest) {
        let parts = reading_of(Language::Flight, text);
        if is_hole(inside, text, &parts) {
            return true;
        }
        inside = inside_after(inside, text, &parts);
        rest = after;
    }
    false
}

// What stands in place of the lines of a source, a line feed after each.
fn lines_with_holes(alloc: Global, word: &[u8], source: &[u8]) -> Result<Vec<u8>, AllocError>
    ensures { IfOk result (λ text. text.items ≡ lines_with_holes word.now false (lines source.now)) }
{
    let mut lines = Vec::new(alloc);
    let mut inside = false;
    let mut rest = source;
    while let Some((text, after)) = next_line(rest) {
        let parts = reading_of(Language::Flight, text);
        push_line(&mut lines, word, inside, text, &parts)?;
        inside = inside_after(inside, text, &parts);
        rest = after;
    }
    Ok(lines)
}

// Appends what stands in place of a line, and a line feed.
fn push_line(
    lines: &mut Vec<u8>,
    word: &[u8],
    inside: bool,
    text: &[u8],
    parts: &Reading<'_>,
) -> Result<(), AllocError>
    requires { parts_in parts.now ≡ parts_for Flight text.now }
    ensures { OnOk result (lines.new.items
        ≡ lines.old.items ++ (line_with_hole word.now inside text.now ++ codes "\n")) }
{
    if is_hole(inside, text, parts) {
        push_hole(lines, word, text, parts.label)?;
    } else {
        lines.extend_from_slice(text)?;
    }
    lines.extend_from_slice(b"\n")
}

// Appends what stands in place of a line of the interpretive language.
fn push_hole(
    lines: &mut Vec<u8>,
    word: &[u8],
    text: &[u8],
    label: Option<Field<'_>>,
) -> Result<(), AllocError>
    requires { option_map piece label ≡ (parts_for Flight text.now).label }
    ensures { OnOk result (lines.new.items ≡ lines.old.items ++ hole_line word.now text.now) }
{
    lines.extend_from_slice(text_of(label))?;
    lines.extend_from_slice(b" OCT ")?;
    lines.extend_from_slice(word)?;
    lines.extend_from_slice(b" # ")?;
    lines.extend_from_slice(text)
}

// The bytes of a field, none where it does not stand.
fn text_of(field: Option<Field<'_>>) -> &[u8]
    ensures { result.now ≡ text_of (option_map piece field.entry) }
{
    match field {
        Some(field) => field.text,
        None => &[],
    }
}
