//! The faults of a source, each with its place.

ghost use Rattle.std.specs.Prelude.{◌≡◌, ◌+◌, ◌<◌, ◌≤◌, ◌^◌, length, not};
ghost use Rattle.std.specs.Option.{option_map};
ghost use Rattle.agc_text.specs.Bytes.{is_text_byte};
ghost use Rattle.agc_text.specs.Views.{piece, end_of};
ghost use Rattle.yayul.specs.Survey.{wrong_place, span_of, through, first_of, span_at, later};
ghost use Rattle.yayul.specs.Inside.LinesRead.{IsApart};

use crate::faults::FaultKind;
use agc_text::{Field, LINE_LENGTH, Line, is_text};

/// Some bytes of a line.
#[derive(Clone, Copy, PartialEq, Eq, Debug, Drop)]
pub struct Span {
    /// The place of the first byte in its line, counted from 0.
    pub start: usize,
    /// How many bytes.
    pub width: usize,
}

/// A fault of a source, and where it stands.
#[derive(Clone, Copy, PartialEq, Eq, Debug, Drop)]
pub struct Finding {
    /// The line, counted from 1.
    pub line: u32,
    /// What is wrong.
    pub kind: FaultKind,
    /// The bytes of the line that are to blame.
    pub span: Span,
    /// The line whose word stands at the place already, of a place that is taken alone.
    pub taken_by: Option<u32>,
}

impl Span {
    // The bytes so many later, within so many.
    pub(crate) fn later(self, most: usize, count: usize) -> Span
        ensures { result ≡ later most count self }
    {
        let start = match count.checked_add(self.start) {
            Some(start) if start <= most => start,
            _ => most,
        };
        Span {
            start,
            width: self.width,
        }
    }
}

/// The bytes of a line that are to blame for a fault, where the line is taken apart.
#[tactic(auto, unfolding(crate::specs::Survey::span_at))]
pub(crate) fn span_at(text: &[u8], line: &Line<'_>, kind: FaultKind) -> Span
    requires { IsApart text.now line.now }
    ensures { result ≡ span_at text.now kind }
{
    match kind {
        FaultKind::NotAscii => Span {
            start: wrong_place(text),
            width: 1,
        },
        FaultKind::LongLine => Span {
            start: LINE_LENGTH,
            width: text.len().saturating_sub(LINE_LENGTH),
        },
        FaultKind::BadLabel | FaultKind::TwiceDefined => first_of(text, line.label, line.operator),
        FaultKind::Undefined | FaultKind::UsedTooEarly | FaultKind::BadBank => {
            first_of(text, line.operand, line.operator)
        }
        FaultKind::BadOperand | FaultKind::WrongKindOfAddress | FaultKind::OutOfRange => {
            match (line.operand, line.offset) {
                (Some(operand), Some(offset)) => through(operand, offset),
                _ => first_of(text, line.operand, line.operator),
            }
        }
        FaultKind::NoMemory
        | FaultKind::TooManyLines
        | FaultKind::UnknownOperator
        | FaultKind::BankFull
        | FaultKind::PlaceTaken
        | FaultKind::CodeInErasable
        | FaultKind::NeedsExtend
        | FaultKind::NotExtracode => first_of(text, line.operator, line.label),
    }
}

/// The place of the first byte that a line may not hold, or its length.
pub fn wrong_place(text: &[u8]) -> usize
    ensures { result ≡ wrong_place text.now }
{
    for (place, byte) in text.iter().enumerate() {
        if is_wrong(*byte) {
            return place;
        }
    }
    text.len()
}

fn is_wrong(byte: u8) -> bool
    ensures { result ≡ not (is_text_byte byte) }
{
    !is_text(&[byte])
}

// The first of two fields that stands, else the whole line.
fn first_of(text: &[u8], first: Option<Field<'_>>, other: Option<Field<'_>>) -> Span
    ensures { result ≡ first_of text.now (option_map piece first.entry) (option_map piece other.entry) }
{
    match (first, other) {
        (Some(field), _) => span_of(field),
        (None, Some(field)) => span_of(field),
        (None, None) => Span {
            start: 0,
            width: text.len(),
        },
    }
}

fn span_of(field: Field<'_>) -> Span
    ensures { result ≡ span_of (piece field.entry) }
{
    Span {
        start: field.start,
        width: field.text.len(),
    }
}

// From the first byte of a field to the last of a later one.
fn through(first: Field<'_>, last: Field<'_>) -> Span
    requires { end_of last < 2 ^ 64 }
    ensures { result ≡ through (piece first.entry) (piece last.entry) }
{
    Span {
        start: first.start,
        width: (last.start + last.text.len()).saturating_sub(first.start),
    }
}
