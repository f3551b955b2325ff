//! The lines of one finding as text.

ghost use Rattle.std.specs.Prelude.{◌≡◌, ◌≤◌, ◌++◌, map, take, length, replicate, unwrap_or, [], codes, decimal};
ghost use Rattle.std.specs.Prelude.{IfSome, OnOk};
ghost use Rattle.std.specs.List.{position_or_len};
ghost use Rattle.std.specs.Option.{option_map};
ghost use Rattle.std.specs.Simd.Lanes.{mask_l};
ghost use Rattle.yayul.specs.Readings.{parts_in};
ghost use Rattle.diagnostics.specs.Shown.{shown_byte};
ghost use Rattle.diagnostics.specs.Causes.{filled, filled_byte, is_mark, of_line};
ghost use Rattle.diagnostics.specs.ReadSources.{language_in};
ghost use Rattle.diagnostics.specs.Views.{cause_in, place_in};
ghost use Rattle.diagnostics.specs.Report.{margin_byte, numbered, shown_part, row_text, marks_text, place_text};
ghost use Rattle.diagnostics.specs.Report.{kind_text, caused_text, message_text, cure_text, error_text, told_in};

use crate::flight_causes::told_cause;
use crate::objects::{Note, Place, push_object};
use crate::told::{Severity, SourceRead, Told};
use agc_text::is_text;
use explain::push_number;
use json_text::Notation;
use std::alloc::AllocError;
use std::simd::prelude::*;
use warnings::text_of;
use words::BackwardText;
use yayul::{Finding, Reading, Span};

/// How many bytes of a line are shown at most.
const MOST_SHOWN: usize = 120;

/// How many columns the number of a line has.
const NUMBER_WIDTH: usize = 5;

/// How many bytes are tested for marks at once.
const TESTED: usize = 16;

// Appends where a fault or a warning stands.
fn push_place(out: &mut Vec<u8>, note: &Note<'_, '_, '_>) -> Result<(), AllocError>
    ensures { OnOk result (out.new.items ≡ out.old.items
        ++ place_text note.now.name.now note.now.text.now note.now.told) }
{
    let column = note.told.span.start.min(note.text.len()) + 1;
    let place = place_in_file(note.told.line, column as u64);
    out.extend_from_slice(note.name)?;
    out.extend_from_slice(place.as_slice())?;
    Ok(())
}

// A line and a column, as they stand behind the name of a file.
fn place_in_file(line: u32, column: u64) -> BackwardText
    ensures { result ≡ codes ":" ++ decimal line ++ codes ":" ++ decimal column }
{
    let mut place = BackwardText::new();
    place.prepend_decimal(column);
    place.prepend(b':');
    place.prepend_decimal(u64::from(line));
    place.prepend(b':');
    place
}

// What a finding is.
fn kind_text(severity: Severity) -> &'static [u8]
    ensures { result.now ≡ kind_text severity }
{
    match severity {
        Severity::Error => b": error E",
        Severity::Warning => b": warning W",
    }
}

// Appends what a finding is.
fn push_heading(out: &mut Vec<u8>, told: &Told) -> Result<(), AllocError>
    ensures { OnOk result (out.new.items
        ≡ out.old.items ++ kind_text told.now.severity ++ decimal told.now.number ++ codes ": ") }
{
    match (told.severity, error_heading(told.number)) {
        (Severity::Error, Some(heading)) => out.extend_from_slice(heading)?,
        _ => {
            out.extend_from_slice(kind_text(told.severity))?;
            push_number(out, u64::from(told.number))?;
            out.extend_from_slice(b": ")?;
        }
    }
    Ok(())
}

// What a fault of a number is, where it is one of a source's lines.
fn error_heading(number: u8) -> Option<&'static [u8]>
    ensures { IfSome result (λ heading. heading.now ≡ codes ": error E" ++ decimal number ++ codes ": ") }
{
    match number {
        10 => Some(b": error E10: "),
        11 => Some(b": error E11: "),
        13 => Some(b": error E13: "),
        14 => Some(b": error E14: "),
        15 => Some(b": error E15: "),
        16 => Some(b": error E16: "),
        17 => Some(b": error E17: "),
        18 => Some(b": error E18: "),
        19 => Some(b": error E19: "),
        20 => Some(b": error E20: "),
        21 => Some(b": error E21: "),
        22 => Some(b": error E22: "),
        23 => Some(b": error E23: "),
        24 => Some(b": error E24: "),
        25 => Some(b": error E25: "),
        26 => Some(b": error E26: "),
        _ => None,
    }
}

// Appends what a finding is, and why.
fn push_message(out: &mut Vec<u8>, note: &Note<'_, '_, '_>) -> Result<(), AllocError>
    ensures { OnOk result (out.new.items ≡ out.old.items
        ++ message_text (parts_in note.now.parts) note.now.beside.now note.now.told (cause_in note.now.cause)) }
{
    push_heading(out, &note.told)?;
    push_filled(out, note, note.cause.words)?;
    out.push(b'\n')?;
    Ok(())
}

// Appends how a finding is mended, where that is sure.
fn push_cure(out: &mut Vec<u8>, note: &Note<'_, '_, '_>) -> Result<(), AllocError>
    ensures { OnOk result (out.new.items ≡ out.old.items
        ++ cure_text (parts_in note.now.parts) note.now.beside.now (cause_in note.now.cause)) }
{
    if !note.cause.cure.is_empty() || note.cause.flight {
        out.extend_from_slice(b"      = ")?;
        push_filled(out, note, note.cause.cure)?;
        push_plain(out, note.cause.flight_clause())?;
        out.push(b'\n')?;
    }
    Ok(())
}

/// Appends a text with all that its marks stand for.
pub(crate) fn push_filled(
    out: &mut Vec<u8>,
    note: &Note<'_, '_, '_>,
    text: &[u8],
) -> Result<(), AllocError>
    ensures { OnOk result (out.new.items ≡ out.old.items
        ++ filled (parts_in note.now.parts) note.now.cause.other.now note.now.beside.now text.now) }
{
    let mut rest = text;
    while !rest.is_empty() {
        let (plain, marked) = rest.split_at(length_before_mark(rest));
        push_plain(out, plain)?;
        let Some((mark, after)) = marked.split_first() else {
            return Ok(());
        };
        push_filled_byte(out, note, *mark)?;
        rest = after;
    }
    Ok(())
}

// Appends a text, of which there is often none.
fn push_plain(out: &mut Vec<u8>, text: &[u8]) -> Result<(), AllocError>
    ensures { OnOk result (out.new.items ≡ out.old.items ++ text.now) }
{
    if !text.is_empty() {
        out.extend_from_slice(text)?;
    }
    Ok(())
}

// How many bytes of a text stand before the first mark: all, where none stands.
fn length_before_mark(text: &[u8]) -> usize
    ensures value { result ≡ position_or_len is_mark text.now }
    ensures within { result ≤ length text.now }
{
    let mut start = 0;
    while text.len() - start >= TESTED {
        let marks = marks_in(u8x16::from_slice(&text[start..]));
        if marks != 0 {
            return start + marks.trailing_zeros() as usize;
        }
        start += TESTED;
    }
    start + few_before_mark(&text[start..])
}

// Which of some bytes are marks, the first by the lowest bit.
#[inline(always)]
fn marks_in(bytes: u8x16) -> u64
    ensures { result ≡ mask_l (map is_mark bytes) }
{
    (bytes.simd_eq(u8x16::splat(b'&'))
        | bytes.simd_eq(u8x16::splat(b'%'))
        | bytes.simd_eq(u8x16::splat(b'@'))
        | bytes.simd_eq(u8x16::splat(b'!'))
        | bytes.simd_eq(u8x16::splat(b'~'))
        | bytes.simd_eq(u8x16::splat(b'^'))).to_bitmask()
}

// The same of few bytes.
fn few_before_mark(text: &[u8]) -> usize
    ensures value { result ≡ position_or_len is_mark text.now }
    ensures within { result ≤ length text.now }
{
    for (index, byte) in text.iter().enumerate() {
        if is_mark(*byte) {
            return index;
        }
    }
    text.len()
}

fn is_mark(byte: u8) -> bool
    ensures { result ≡ is_mark byte }
{
    // Most bytes are small letters: a test of its own, so that they cost no other.
    if byte.is_ascii_lowercase() {
        return false;
    }
    matches!(byte, b'&' | b'%' | b'@' | b'!' | b'~' | b'^')
}

// Appends what a byte of a text stands for.
fn push_filled_byte(out: &mut Vec<u8>, note: &Note<'_, '_, '_>, byte: u8) -> Result<(), AllocError>
    ensures { OnOk result (out.new.items ≡ out.old.items
        ++ filled_byte (parts_in note.now.parts) note.now.cause.other.now note.now.beside.now byte) }
{
    match byte {
        b'&' => push_shown(out, text_of(note.parts.label))?,
        b'%' => push_shown(out, text_of(note.parts.operator))?,
        b'@' => push_shown(out, text_of(note.parts.operand))?,
        b'!' => out.extend_from_slice(note.cause.other)?,
        b'~' => out.extend_from_slice(note.beside)?,
        b'^' => push_of_line(out, note.beside)?,
        _ => out.push(byte)?,
    }
    Ok(())
}

// Appends where another line stands, in words, by the digits of its number; nothing without them.
fn push_of_line(out: &mut Vec<u8>, digits: &[u8]) -> Result<(), AllocError>
    ensures { OnOk result (out.new.items ≡ out.old.items ++ of_line digits.now) }
{
    if !digits.is_empty() {
        out.extend_from_slice(b", of line ")?;
        out.extend_from_slice(digits)?;
        out.extend_from_slice(b",")?;
    }
    Ok(())
}

// What is shown of a line.
fn shown_part(text: &[u8]) -> &[u8]
    ensures { result.now ≡ shown_part text.now }
{
    front(text, MOST_SHOWN)
}

/// The first bytes of a text, so many at most.
pub(crate) fn front(text: &[u8], most: usize) -> &[u8]
    ensures { result.now ≡ take most text.now }
{
    &text[..most.min(text.len())]
}

// Appends the line that a fault or a warning stands on.
fn push_row(out: &mut Vec<u8>, text: &[u8], told: &Told) -> Result<(), AllocError>
    ensures { OnOk result (out.new.items ≡ out.old.items ++ row_text text.now told.now) }
{
    let start = row_start(told.line);
    out.extend_from_slice(start.as_slice())?;
    push_shown(out, text)?;
    out.push(b'\n')?;
    Ok(())
}

// Appends carets, where a fault stands.
fn push_marks(out: &mut Vec<u8>, text: &[u8], told: &Told) -> Result<(), AllocError>
    ensures { OnOk result (out.new.items ≡ out.old.items ++ marks_text text.now told.now) }
{
    let Span { start, width } = told.span;
    out.extend_from_slice(b"      | ")?;
    push_margin(out, front(text, start))?;
    let within = width.min(text.len().saturating_sub(start));
    push_repeated(out, within.max(1), b'^')?;
    out.push(b'\n')?;
    Ok(())
}

/// Appends the lines of a fault, with a text from other lines or none, and the place that it is from.
pub(crate) fn push_error<'a>(
    out: &mut Vec<u8>,
    source: &SourceRead<'_, '_, 'a>,
    text: &'a [u8],
    parts: &Reading<'a>,
    near: Option<&[u8]>,
    other: Option<Place<'a>>,
    fault: &Finding,
) -> Result<(), AllocError>
    ensures { OnOk result (out.new.items ≡ out.old.items
        ++ error_text source.now.notation (language_in source.now) source.now.name.now text.now (parts_in parts.now)
        (option_map (λ label. label.now) near.entry) (option_map place_in other.entry) fault.now) }
{
    let cause = told_cause(source.read.language(), near.is_some(), text, parts, fault);
    let beside = label_of(near);
    let note = Note {
        told: Told::error(fault),
        name: source.name,
        text,
        parts: *parts,
        beside,
        other,
        cause: cause.without_colon(beside, parts),
    };
    push_finding(out, source.notation, &note)
}

// A text from other lines, or nothing.
fn label_of(near: Option<&[u8]>) -> &[u8]
    ensures { result.now ≡ unwrap_or (option_map (λ label. label.now) near.entry) [] }
{
    match near {
        Some(label) => label,
        None => b"",
    }
}

/// Appends what is told of a line in a notation, with why, a text from other lines, and the place that it is from.
pub(crate) fn push_finding(
    out: &mut Vec<u8>,
    notation: Notation,
    note: &Note<'_, '_, '_>,
) -> Result<(), AllocError>
    ensures { OnOk result (out.new.items ≡ out.old.items
        ++ told_in notation note.now.name.now note.now.text.now (parts_in note.now.parts) note.now.beside.now
        (option_map place_in note.now.other) note.now.told (cause_in note.now.cause)) }
{
    match notation {
        Notation::Text => push_caused(out, note),
        Notation::Json => push_object(out, note),
    }
}

// Appends the lines of what is told of a line, with why, and a text from other lines.
fn push_caused(out: &mut Vec<u8>, note: &Note<'_, '_, '_>) -> Result<(), AllocError>
    ensures { OnOk result (out.new.items ≡ out.old.items
        ++ caused_text note.now.name.now note.now.text.now (parts_in note.now.parts) note.now.beside.now note.now.told
        (cause_in note.now.cause)) }
{
    push_place(out, note)?;
    push_message(out, note)?;
    let shown = shown_part(note.text);
    push_row(out, shown, &note.told)?;
    push_marks(out, shown, &note.told)?;
    push_cure(out, note)
}

// The number of a line in five columns, and what stands between it and the line.
#[tactic(auto, using(crate::proofs::Room::short_line))]
fn row_start(line: u32) -> BackwardText
    ensures { result ≡ numbered line ++ codes " | " }
{
    let mut row = BackwardText::new();
    row.prepend(b' ');
    row.prepend(b'|');
    row.prepend(b' ');
    row.prepend_decimal(u64::from(line));
    let digits = row.as_slice().len() - 3;
    for _blank in 0..NUMBER_WIDTH.saturating_sub(digits) {
        row.prepend(b' ');
    }
    row
}

// Appends a text, with a question mark for each byte that a line may not hold.
#[tactic(auto, using(crate::proofs::GrowingTexts::text_is_shown))]
fn push_shown(out: &mut Vec<u8>, text: &[u8]) -> Result<(), AllocError>
    ensures { OnOk result (out.new.items ≡ out.old.items ++ map shown_byte text.now) }
{
    if is_text(text) {
        out.extend_from_slice(text)?;
        Ok(())
    } else {
        push_shown_bytes(out, text)
    }
}

// The same, a byte at a time.
fn push_shown_bytes(out: &mut Vec<u8>, text: &[u8]) -> Result<(), AllocError>
    ensures { OnOk result (out.new.items ≡ out.old.items ++ map shown_byte text.now) }
{
    for byte in text {
        out.push(shown_byte(*byte))?;
    }
    Ok(())
}

fn shown_byte(byte: u8) -> u8
    ensures { result ≡ shown_byte byte }
{
    if is_text(&[byte]) { byte } else { b'?' }
}

// Appends blanks as wide as a text.
fn push_margin(out: &mut Vec<u8>, text: &[u8]) -> Result<(), AllocError>
    ensures { OnOk result (out.new.items ≡ out.old.items ++ map margin_byte text.now) }
{
    for byte in text {
        out.push(margin_byte(*byte))?;
    }
    Ok(())
}

fn margin_byte(byte: u8) -> u8
    ensures { result ≡ margin_byte byte }
{
    if byte == b'\t' { b'\t' } else { b' ' }
}

// Appends a byte so many times.
fn push_repeated(out: &mut Vec<u8>, count: usize, byte: u8) -> Result<(), AllocError>
    ensures { OnOk result (out.new.items ≡ out.old.items ++ replicate count byte) }
{
    match out.len().checked_add(count) {
        Some(len) => out.resize(len, byte),
        None => Err(AllocError),
    }
}
