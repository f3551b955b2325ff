//! The first fault of a feed as lines of text.

ghost use Rattle.std.specs.Prelude.{◌≡◌, ◌≤◌, ◌++◌, map, length, not, slice_get, IfOk, OnOk, None, Some};
ghost use Rattle.std.specs.Option.{option_map};
ghost use Rattle.agc_text.specs.Fields.{fields};
ghost use Rattle.agc_text.specs.Lines.{lines};
ghost use Rattle.agc_text.specs.Views.{piece};
ghost use Rattle.feed.specs.Feed.{inputs, most_bytes};
ghost use Rattle.yayul.specs.Survey.{wrong_place};
ghost use Rattle.diagnostics.specs.Report.{text_at};
ghost use Rattle.diagnostics.specs.FeedReport.{field_span, wrong_field, slipped, wrong_line, is_earlier_input};
ghost use Rattle.diagnostics.specs.FeedReport.{last_before, early, early_line, earlier_place, wrong_text};
ghost use Rattle.diagnostics.specs.FeedReport.{surplus_line, fault_text, fault_of, feed_report, feed_faults};
ghost use Rattle.diagnostics.specs.Views.{cause_in, lines_in, place_in, wrong_in};
ghost use Rattle.diagnostics.specs.Causes.{said};
ghost use Rattle.warnings.specs.Fields.{text_of};
ghost use Rattle.explain.specs.Refusals.{meaning};
ghost use Rattle.agc_text.specs.Bytes.{is_text_byte};

use crate::caret::push_finding;
use crate::causes::{Cause, byte_cause, long_cause};
use crate::feed_causes::slip_cause;
use crate::kinds::{is_input, push_kind_of_feed};
use crate::objects::{Note, Place, place_of};
use crate::told::{Severity, Source, Told};
use agc_text::{Field, LINE_LENGTH, before_comment, is_text, next_field, next_line};
use arrayvec::ArrayVec;
use explain::{DIGITS, meaning};
use feed::{FeedFault, Slip, line_slip};
use json_text::Notation;
use std::alloc::{AllocError, Global};
use words::push_decimal;
use yayul::{Language, Span, reading_of};

/// The most inputs of a feed.
const MOST_INPUTS: u32 = 65_536;

/// What is told of a line.
#[derive(Clone, Copy, Drop)]
struct Wrong<'a> {
    /// Where on it.
    span: Span,
    /// What stands for `~`.
    beside: &'a [u8],
    /// Why.
    cause: Cause,
}

/// The lines of the first fault of a feed, which has this name, and what is said where it is a file of another kind;
/// and how many faults are told; as text, or as JSON in an object.
#[tactic(auto, unfolding(crate::specs::FeedReport::feed_report, crate::specs::FeedReport::feed_faults))]
pub fn feed_report(
    alloc: Global,
    notation: Notation,
    name: &[u8],
    text: &[u8],
) -> Result<(Vec<u8>, usize), AllocError>
    requires { length text.now ≤ most_bytes }
    ensures text { IfOk result (λ r. r.0.items ≡ feed_report notation name.now text.now) }
    ensures count { IfOk result (λ r. r.1 ≡ feed_faults text.now) }
{
    let mut out = Vec::new(alloc);
    match first_fault(alloc, text)? {
        Some(fault) => {
            let texts = line_texts(alloc, text)?;
            let source = Source {
                notation,
                language: Language::Standard,
                name,
                texts: &texts,
            };
            push_fault(&mut out, &source, text, fault)?;
            push_kind_of_feed(&mut out, notation, name, text)?;
            Ok((out, 1))
        }
        None => Ok((out, 0)),
    }
}

// The first fault of a feed.
fn first_fault(alloc: Global, text: &[u8]) -> Result<Option<FeedFault>, AllocError>
    ensures { IfOk result (λ fault. fault ≡ fault_of (inputs text.now)) }
{
    let mut left = text;
    match feed::read(alloc, &mut left) {
        Ok(_) => Ok(None),
        Err(FeedFault::NoMemory | FeedFault::ReadFailed) => Err(AllocError),
        Err(fault) => Ok(Some(fault)),
    }
}

// Appends the lines of a fault.
fn push_fault(
    out: &mut Vec<u8>,
    source: &Source<'_, '_, '_>,
    text: &[u8],
    fault: FeedFault,
) -> Result<(), AllocError>
    requires few { length text.now ≤ most_bytes }
    requires lines { lines_in source.now ≡ lines text.now }
    ensures { OnOk result (out.new.items ≡ out.old.items
        ++ fault_text source.now.notation source.now.name.now (lines_in source.now) fault) }
{
    match fault {
        FeedFault::BadLine(line) => push_wrong_line(out, source, line, 30),
        FeedFault::OutOfOrder(line) => push_early(out, source, line),
        FeedFault::TooMany => push_surplus(out, source, surplus_line(text), 32),
        FeedFault::WrongCounter(line) => push_wrong_line(out, source, line, 33),
        FeedFault::TooManySeries(line) => push_surplus(out, source, line, 35),
        FeedFault::NoMemory | FeedFault::ReadFailed | FeedFault::TooLong => Ok(()),
    }
}

// Appends the lines of a fault of a number on a line.
#[tactic(auto, unfolding(crate::specs::FeedReport::wrong_at))]
fn push_wrong<'a>(
    out: &mut Vec<u8>,
    source: &Source<'_, '_, 'a>,
    line: u32,
    number: u8,
    wrong: &Wrong<'_>,
    other: Option<Place<'a>>,
) -> Result<(), AllocError>
    ensures { OnOk result (out.new.items ≡ out.old.items ++ wrong_text source.now.notation source.now.name.now
        (lines_in source.now) line number (wrong_in wrong.now) (option_map place_in other.entry)) }
{
    let text = text_at(source.texts, line);
    let Wrong {
        span,
        beside,
        cause,
    } = *wrong;
    let told = Told {
        severity: Severity::Error,
        number,
        line,
        span,
    };
    let note = Note {
        told,
        name: source.name,
        text,
        parts: reading_of(Language::Standard, text),
        beside,
        other,
        cause,
    };
    push_finding(out, source.notation, &note)
}

// Appends the lines of a fault of a line that is no input and no series, or whose counter does not take the sequence.
fn push_wrong_line(
    out: &mut Vec<u8>,
    source: &Source<'_, '_, '_>,
    line: u32,
    number: u8,
) -> Result<(), AllocError>
    ensures { OnOk result (out.new.items ≡ out.old.items ++ wrong_text source.now.notation source.now.name.now
        (lines_in source.now) line number (wrong_line (text_at (lines_in source.now) line)) None) }
{
    let wrong = wrong_line(text_at(source.texts, line));
    push_wrong(out, source, line, number, &wrong, None)
}

// Appends the lines of a fault of a line that is one too many.
fn push_surplus(
    out: &mut Vec<u8>,
    source: &Source<'_, '_, '_>,
    line: u32,
    number: u8,
) -> Result<(), AllocError>
    ensures { OnOk result (out.new.items ≡ out.old.items
        ++ wrong_text source.now.notation source.now.name.now (lines_in source.now) line number
        (wrong_field (text_at (lines_in source.now) line) 0 (said (meaning number))) None) }
{
    let wrong = wrong_field(text_at(source.texts, line), 0, Cause::said(meaning(number)));
    push_wrong(out, source, line, number, &wrong, None)
}

// Appends the lines of a fault of a line whose cycle is below that of an earlier one.
#[tactic(auto, using(words::proofs::Digits::short_decimal))]
fn push_early(out: &mut Vec<u8>, source: &Source<'_, '_, '_>, line: u32) -> Result<(), AllocError>
    ensures { OnOk result (out.new.items ≡ out.old.items
        ++ wrong_text source.now.notation source.now.name.now (lines_in source.now) line 31
        (early (lines_in source.now) line) (Some (earlier_place (lines_in source.now) line))) }
{
    let earlier = last_before(source.texts, line);
    let mut digits = ArrayVec::<u8, DIGITS>::new();
    push_decimal(&mut digits, earlier);
    let place = Some(place_of(Language::Standard, source.texts, earlier));
    let wrong = early_line(text_at(source.texts, line), digits.as_slice());
    push_wrong(out, source, line, 31, &wrong, place)
}

// A line whose cycle is below that of an earlier one, the number of which has some digits.
fn early_line<'a>(text: &[u8], digits: &'a [u8]) -> Wrong<'a>
    ensures { wrong_in result ≡ early_line text.now digits.now }
{
    Wrong {
        span: field_span(text, 0),
        beside: digits,
        cause: Cause::cured(
            b"the cycle is below that of the input before it, on line ~",
            b"inputs stand in the order of their cycles, and EVERY anywhere",
        ),
    }
}

// A line that is no input and no series, or whose counter does not take the sequence.
fn wrong_line(text: &[u8]) -> Wrong<'_>
    ensures { wrong_in result ≡ wrong_line text.now }
{
    if !is_text(text) {
        let start = wrong_place(text);
        Wrong {
            span: Span { start, width: 1 },
            beside: &text[..0],
            cause: byte_cause(text, start),
        }
    } else if text.len() > LINE_LENGTH {
        Wrong {
            span: Span {
                start: LINE_LENGTH,
                width: text.len() - LINE_LENGTH,
            },
            beside: &text[..0],
            cause: long_cause(text),
        }
    } else {
        slipped(text, line_slip(before_comment(text)))
    }
}

// A line that is refused at one of its fields.
fn slipped(text: &[u8], slip: Slip) -> Wrong<'_>
    ensures { wrong_in result ≡ slipped text.now slip }
{
    let cause = slip_cause(slip.why, field_text(text, slip.field));
    wrong_field(text, slip.field, cause)
}

// A line that is wrong at one of its fields.
fn wrong_field(text: &[u8], place: u8, cause: Cause) -> Wrong<'_>
    ensures { wrong_in result ≡ wrong_field text.now place (cause_in cause) }
{
    Wrong {
        span: field_span(text, place),
        beside: field_text(text, place),
        cause,
    }
}

// Where the field of a line stands that is so many after the first; the whole line where it does not.
fn field_span(text: &[u8], place: u8) -> Span
    ensures { result ≡ field_span text.now place }
{
    match field_after(text, place) {
        Some(field) => Span {
            start: field.start,
            width: field.text.len(),
        },
        None => Span {
            start: 0,
            width: text.len(),
        },
    }
}

// The bytes of that field, none where it does not stand.
fn field_text(text: &[u8], place: u8) -> &[u8]
    ensures { result.now ≡ text_of (slice_get (fields text.now) place) }
{
    match field_after(text, place) {
        Some(field) => field.text,
        None => &text[..0],
    }
}

/// The field of a line that is so many after the first.
pub(crate) fn field_after(text: &[u8], place: u8) -> Option<Field<'_>>
    ensures { option_map piece result ≡ slice_get (fields text.now) place }
{
    let mut from = 0;
    for _ in 0..place {
        let Some(field) = next_field(text, from) else {
            return None;
        };
        from = field.start + field.text.len();
    }
    next_field(text, from)
}

// The place of the first byte that a line may not hold, or its length.
fn wrong_place(text: &[u8]) -> usize
    ensures { result ≡ wrong_place text.now }
{
    for (place, byte) in text.iter().enumerate() {
        if is_wrong(*byte) {
            return place;
        }
    }
    text.len()
}

fn is_wrong(byte: u8) -> bool
    ensures { result ≡ not (is_text_byte byte) }
{
    !is_text(&[byte])
}

// The number of the last line with an input before another; 0 where none has one.
fn last_before(texts: &[&[u8]], end: u32) -> u64
    ensures { result ≡ last_before end 1 0 (map (λ t. t.now) texts.now) }
{
    let mut last = 0;
    for (index, text) in texts.iter().enumerate() {
        let line = index as u64 + 1;
        if is_earlier_input(text, line, end) {
            last = line;
        }
    }
    last
}

// Whether an input stands on a line before another.
fn is_earlier_input(text: &[u8], line: u64, end: u32) -> bool
    ensures { result ≡ is_earlier_input line end text.now }
{
    line < u64::from(end) && is_input(text)
}

// The number of the line that has one input too many.
fn surplus_line(text: &[u8]) -> u32
    requires { length text.now ≤ most_bytes }
    ensures { result ≡ surplus_line (lines text.now) }
{
    let mut left = MOST_INPUTS;
    let mut line = 1;
    let mut rest = text;
    while let Some((first, after)) = next_line(rest) {
        if is_input(first) {
            if left == 0 {
                return line;
            }
            left -= 1;
        }
        line += 1;
        rest = after;
    }
    line
}

// The lines of a text.
fn line_texts(alloc: Global, text: &[u8]) -> Result<Vec<&[u8]>, AllocError>
    ensures { IfOk result (λ texts. map (λ text. text.now) texts.items ≡ lines text.now) }
{
    let mut texts = Vec::new(alloc);
    let mut rest = text;
    while let Some((line, after)) = next_line(rest) {
        texts.push(line)?;
        rest = after;
    }
    Ok(texts)
}

// The line of a number; one that does not stand is empty.
fn text_at<'a>(texts: &[&'a [u8]], line: u32) -> &'a [u8]
    ensures { result.now ≡ text_at (map (λ t. t.now) texts.now) line }
{
    match texts.get((line as usize).saturating_sub(1)) {
        Some(text) => text,
        None => &[],
    }
}
