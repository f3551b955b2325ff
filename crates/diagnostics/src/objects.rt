//! What is told as JSON: an object a line.

ghost use Rattle.std.specs.Prelude.{◌≡◌, ◌<◌, ◌++◌, codes, flat_map, map, OnOk};
ghost use Rattle.std.specs.Option.{option_map};
ghost use Rattle.json_text.specs.Strings.{escaped_byte, hex_digit, json_string};
ghost use Rattle.yayul.specs.Readings.{parts_in};
ghost use Rattle.diagnostics.specs.Causes.{filled};
ghost use Rattle.diagnostics.specs.Objects.{bool_text, count_object, cure_or_null, edit_text, file_object};
ghost use Rattle.diagnostics.specs.Objects.{finding_object, fix_text, front_span, head_text, kind_members};
ghost use Rattle.diagnostics.specs.Objects.{place_members, place_of, place_or_null, said_text};
ghost use Rattle.diagnostics.specs.Shown.{text_at};
ghost use Rattle.diagnostics.specs.Views.{cause_in, mend_in, place_in};

use crate::caret::push_filled;
use crate::causes::Cause;
use crate::mending::{Mend, mend_of, span_at};
use crate::told::{Severity, Told};
use explain::push_number;
use std::alloc::AllocError;
use yayul::{Language, Reading, Span, reading_of};

/// Some bytes of a line.
#[derive(Clone, Copy, Drop)]
pub(crate) struct Place<'a> {
    /// The number of the line.
    pub(crate) line: u64,
    /// The line.
    pub(crate) text: &'a [u8],
    /// Where they stand in it.
    pub(crate) span: Span,
}

/// What is told of a line, and why.
#[derive(Clone, Copy)]
pub(crate) struct Note<'n, 'a, 'b> {
    /// What it is, and where it stands.
    pub(crate) told: Told,
    /// The name of the file.
    pub(crate) name: &'n [u8],
    /// The line.
    pub(crate) text: &'a [u8],
    /// The fields of the line.
    pub(crate) parts: Reading<'a>,
    /// A text from other lines; empty where there is none.
    pub(crate) beside: &'b [u8],
    /// The place that this is from.
    pub(crate) other: Option<Place<'a>>,
    /// Why.
    pub(crate) cause: Cause,
}

/// The label of a line of some, or its operator.
pub(crate) fn place_of<'a>(language: Language, texts: &[&'a [u8]], line: u64) -> Place<'a>
    ensures { place_in result ≡ place_of language (map (λ t. t.now) texts.now) line }
{
    let text = line_text(texts, line);
    Place {
        line,
        text,
        span: front_span(&reading_of(language, text)),
    }
}

// The line of a number; one that does not stand is empty.
fn line_text<'a>(texts: &[&'a [u8]], line: u64) -> &'a [u8]
    ensures { result.now ≡ text_at (map (λ t. t.now) texts.now) line }
{
    match texts.get((line as usize).saturating_sub(1)) {
        Some(text) => text,
        None => &[],
    }
}

/// The label of a line, or its operator.
pub(crate) fn front_span(parts: &Reading<'_>) -> Span
    ensures { result ≡ front_span (parts_in parts.now) }
{
    match (parts.label, parts.operator) {
        (Some(field), _) | (None, Some(field)) => Span {
            start: field.start,
            width: field.text.len(),
        },
        (None, None) => Span { start: 0, width: 0 },
    }
}

/// Appends the object of what is told of a line, with why, a text from other lines, and the place that it is from.
#[tactic(auto, unfolding(crate::specs::Objects::finding_object))]
pub(crate) fn push_object(out: &mut Vec<u8>, note: &Note<'_, '_, '_>) -> Result<(), AllocError>
    ensures { OnOk result (out.new.items ≡ out.old.items
        ++ finding_object note.now.name.now note.now.text.now (parts_in note.now.parts) note.now.beside.now
        (option_map place_in note.now.other) note.now.told (cause_in note.now.cause)) }
{
    push_head(out, note)?;
    push_said(out, note)?;
    out.extend_from_slice(b",\"fix\":")?;
    push_fix(out, note)?;
    out.extend_from_slice(b",\"related\":")?;
    push_place_or_null(out, note.other)?;
    out.extend_from_slice(b"}\n")?;
    Ok(())
}

/// Appends the object of what is said of a file of another kind.
pub(crate) fn push_file_object(
    out: &mut Vec<u8>,
    name: &[u8],
    words: &[u8],
) -> Result<(), AllocError>
    ensures { OnOk result (out.new.items ≡ out.old.items ++ file_object name.now words.now) }
{
    out.extend_from_slice(b"{\"kind\":\"other\",\"file\":")?;
    push_string(out, name)?;
    out.extend_from_slice(b",\"said\":")?;
    push_string(out, words)?;
    out.extend_from_slice(b"}\n")?;
    Ok(())
}

/// Appends the object of how many faults and how many warnings there are.
pub(crate) fn push_count_object(
    out: &mut Vec<u8>,
    errors: usize,
    warnings: usize,
) -> Result<(), AllocError>
    ensures { OnOk result (out.new.items ≡ out.old.items ++ count_object errors warnings) }
{
    out.extend_from_slice(b"{\"kind\":\"total\",\"errors\":")?;
    push_number(out, errors as u64)?;
    out.extend_from_slice(b",\"warnings\":")?;
    push_number(out, warnings as u64)?;
    out.extend_from_slice(b"}\n")?;
    Ok(())
}

// Appends what is told, its number, and where it stands.
#[tactic(auto, unfolding(crate::specs::Objects::head_text))]
fn push_head(out: &mut Vec<u8>, note: &Note<'_, '_, '_>) -> Result<(), AllocError>
    ensures { OnOk result (out.new.items ≡ out.old.items
        ++ head_text note.now.name.now note.now.text.now note.now.told) }
{
    out.extend_from_slice(kind_members(note.told.severity))?;
    push_number(out, u64::from(note.told.number))?;
    out.extend_from_slice(b"\",\"file\":")?;
    push_string(out, note.name)?;
    out.extend_from_slice(b",")?;
    push_place_members(out, u64::from(note.told.line), note.text, &note.told.span)
}

// What is told.
fn kind_members(severity: Severity) -> &'static [u8]
    ensures { result.now ≡ kind_members severity }
{
    match severity {
        Severity::Error => b"{\"kind\":\"error\",\"number\":\"E",
        Severity::Warning => b"{\"kind\":\"warning\",\"number\":\"W",
    }
}

// Appends the number of a line, the column of the first of some bytes and that after the last.
#[tactic(auto, unfolding(crate::specs::Objects::place_members))]
fn push_place_members(
    out: &mut Vec<u8>,
    line: u64,
    text: &[u8],
    span: &Span,
) -> Result<(), AllocError>
    ensures { OnOk result (out.new.items ≡ out.old.items ++ place_members line text.now span.now) }
{
    let column = span.start.min(text.len()) + 1;
    let end = column + span.width.min(text.len().saturating_sub(span.start));
    out.extend_from_slice(b"\"line\":")?;
    push_number(out, line)?;
    out.extend_from_slice(b",\"column\":")?;
    push_number(out, column as u64)?;
    out.extend_from_slice(b",\"end\":")?;
    push_number(out, end as u64)
}

// Appends why something is wrong, how it is mended, and whether `--flight` takes what stands there.
#[tactic(auto, unfolding(crate::specs::Objects::said_text))]
fn push_said(out: &mut Vec<u8>, note: &Note<'_, '_, '_>) -> Result<(), AllocError>
    ensures { OnOk result (out.new.items ≡ out.old.items
        ++ said_text (parts_in note.now.parts) note.now.beside.now (cause_in note.now.cause)) }
{
    out.extend_from_slice(b",\"said\":")?;
    push_filled_string(out, note, note.cause.words)?;
    out.extend_from_slice(b",\"cure\":")?;
    push_cure_or_null(out, note)?;
    out.extend_from_slice(b",\"flight\":")?;
    out.extend_from_slice(bool_text(note.cause.flight))?;
    Ok(())
}

// Appends how something is mended, or that this is not sure.
fn push_cure_or_null(out: &mut Vec<u8>, note: &Note<'_, '_, '_>) -> Result<(), AllocError>
    ensures { OnOk result (out.new.items ≡ out.old.items
        ++ cure_or_null (parts_in note.now.parts) note.now.beside.now (cause_in note.now.cause)) }
{
    if note.cause.cure.is_empty() {
        push_null(out)
    } else {
        push_filled_string(out, note, note.cause.cure)
    }
}

// Appends the edit that a cure is, or that it is none.
#[tactic(auto, unfolding(crate::specs::Objects::fix_text))]
fn push_fix(out: &mut Vec<u8>, note: &Note<'_, '_, '_>) -> Result<(), AllocError>
    ensures { OnOk result (out.new.items ≡ out.old.items
        ++ fix_text note.now.text.now (parts_in note.now.parts) note.now.beside.now note.now.told
        (cause_in note.now.cause)) }
{
    match mend_of(note.cause.cure, note.cause.other) {
        Some(mend) => match span_at(mend.at, note.text, &note.parts, &note.told.span) {
            Some(span) => push_edit(out, note, &mend, &span),
            None => push_null(out),
        },
        None => push_null(out),
    }
}

// Appends that there is none.
fn push_null(out: &mut Vec<u8>) -> Result<(), AllocError>
    ensures { OnOk result (out.new.items ≡ out.old.items ++ codes "null") }
{
    out.extend_from_slice(b"null")?;
    Ok(())
}

// Appends an edit, of a finding on a line.
#[tactic(auto, unfolding(crate::specs::Objects::edit_text))]
fn push_edit(
    out: &mut Vec<u8>,
    note: &Note<'_, '_, '_>,
    mend: &Mend,
    span: &Span,
) -> Result<(), AllocError>
    ensures { OnOk result (out.new.items ≡ out.old.items
        ++ edit_text note.now.text.now (parts_in note.now.parts) note.now.beside.now (cause_in note.now.cause)
        note.now.told.line (mend_in mend.now) span.now) }
{
    out.extend_from_slice(b"{")?;
    push_place_members(out, mend.line(note.told.line), note.text, span)?;
    out.extend_from_slice(b",\"text\":")?;
    push_filled_string(out, note, mend.put)?;
    out.extend_from_slice(b",\"sure\":")?;
    out.extend_from_slice(bool_text(mend.is_sure))?;
    out.extend_from_slice(b"}")?;
    Ok(())
}

// Appends the other place that a sentence speaks of, or that it speaks of none.
fn push_place_or_null(out: &mut Vec<u8>, place: Option<Place<'_>>) -> Result<(), AllocError>
    ensures { OnOk result (out.new.items ≡ out.old.items ++ place_or_null (option_map place_in place.entry)) }
{
    match place {
        Some(Place { line, text, span }) => {
            out.extend_from_slice(b"{")?;
            push_place_members(out, line, text, &span)?;
            out.extend_from_slice(b"}")?;
            Ok(())
        }
        None => push_null(out),
    }
}

fn bool_text(holds: bool) -> &'static [u8]
    ensures { result.now ≡ bool_text holds }
{
    if holds { b"true" } else { b"false" }
}

// Appends a text with all that its marks stand for, as a string.
fn push_filled_string(
    out: &mut Vec<u8>,
    note: &Note<'_, '_, '_>,
    text: &[u8],
) -> Result<(), AllocError>
    ensures { OnOk result (out.new.items ≡ out.old.items
        ++ json_string (filled (parts_in note.now.parts) note.now.cause.other.now note.now.beside.now text.now)) }
{
    let mut said = Vec::new(*out.allocator());
    push_filled(&mut said, note, text)?;
    push_string(out, &said)
}

// Appends a text as a string.
#[tactic(auto, unfolding(json_text::specs::Strings::escaped))]
fn push_string(out: &mut Vec<u8>, text: &[u8]) -> Result<(), AllocError>
    ensures { OnOk result (out.new.items ≡ out.old.items ++ json_string text.now) }
{
    out.extend_from_slice(b"\"")?;
    push_escaped(out, text)?;
    out.extend_from_slice(b"\"")?;
    Ok(())
}

// Appends what stands within quotes for a text.
fn push_escaped(out: &mut Vec<u8>, text: &[u8]) -> Result<(), AllocError>
    ensures { OnOk result (out.new.items ≡ out.old.items ++ flat_map escaped_byte text.now) }
{
    for byte in text {
        push_escaped_byte(out, *byte)?;
    }
    Ok(())
}

// Appends what stands within quotes for a byte.
#[tactic(auto, unfolding(json_text::specs::Strings::escaped_byte))]
fn push_escaped_byte(out: &mut Vec<u8>, byte: u8) -> Result<(), AllocError>
    ensures { OnOk result (out.new.items ≡ out.old.items ++ escaped_byte byte) }
{
    if byte == b'"' || byte == b'\\' {
        out.push(b'\\')?;
        out.push(byte)?;
    } else if byte < 0o40 || byte > 0o176 {
        out.extend_from_slice(b"\\u00")?;
        out.push(hex_digit(byte / 16))?;
        out.push(hex_digit(byte % 16))?;
    } else {
        out.push(byte)?;
    }
    Ok(())
}

// The digit of a number.
fn hex_digit(number: u8) -> u8
    requires { number < 16 }
    ensures { result ≡ hex_digit number }
{
    if number < 10 {
        b'0' + number
    } else {
        b'a' - 10 + number
    }
}
