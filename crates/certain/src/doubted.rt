//! The lines of a source that are warned of, since a word of theirs is not certain.

ghost use Rattle.std.specs.Prelude.{◌≡◌, ◌+◌, ◌<◌, ◌≤◌, ◌^◌, ◌++◌, IfSome, IfOk, OnOk, option_and_then};
ghost use Rattle.agc_text.specs.Lines.{lines};
ghost use Rattle.certain.specs.Doubted.{before_lines, doubt_at, doubt_of, doubted, doubted_by, doubted_rows, line_with};
ghost use Rattle.certain.specs.Doubted.{operator_span, warned_line};
ghost use Rattle.yayul.specs.PlaceMargin.{place_before};

use crate::form::UncertainForm;
use crate::places::UncertainPlaces;
use agc_text::next_line;
use rope::Rope;
use std::alloc::{AllocError, Global};
use warnings::{Doubt, Warning};
use yayul::{
    Language, SourceRows, Span, is_second, place_before, placed_rows, reading_of, text_on,
};

/// The number of the warning.
const NUMBER: u8 = 17;

/// A line of a source: its number, from 1 on, and the bytes of its operator.
#[derive(Clone, Copy, Drop)]
pub(crate) struct WarnedLine {
    number: u64,
    span: Span,
}

impl WarnedLine {
    // What stands before the first line.
    fn none() -> WarnedLine
        ensures { result ≡ before_lines }
    {
        WarnedLine {
            number: 0,
            span: Span { start: 0, width: 0 },
        }
    }

    // A line of a number.
    fn new(number: u64, text: &[u8]) -> WarnedLine
        ensures { result ≡ warned_line number text.now }
    {
        WarnedLine {
            number,
            span: operator_span(text),
        }
    }

    // The line of a row, after this one.
    fn with(self, row: &[u8]) -> WarnedLine
        requires { self.number + 1 < 2 ^ 64 }
        ensures line { result ≡ line_with self row.now }
        ensures number { result.number ≤ self.number + 1 }
    {
        if is_second(self.number, row) {
            self
        } else {
            let number = self.number + 1;
            WarnedLine::new(number, text_on(number, row))
        }
    }

    // Appends the warning of a line of which a word is warned of.
    fn push_doubted(self, doubt: Option<Doubt>, found: &mut Vec<Warning>) -> Result<(), AllocError>
        ensures { OnOk result (found.new.items ≡ found.old.items ++ doubted_by self doubt) }
    {
        if doubt.is_some() {
            found.push(Warning {
                line: self.number.min(u64::from(u32::MAX)) as u32,
                number: NUMBER,
                span: self.span,
                doubt,
            })?;
        }
        Ok(())
    }
}

impl UncertainForm {
    // Why a word of this form is warned of, if it is.
    fn doubt(self) -> Option<Doubt>
        ensures { result ≡ doubt_of self }
    {
        match self {
            UncertainForm::SuperbankBits => Some(Doubt::SuperbankBits),
            UncertainForm::HeldBank => Some(Doubt::HeldBank),
            _ => None,
        }
    }
}

/// The warnings of the lines of a source of the language of flight programs, whose words stand in a fixed memory, of
/// which a word is uncertain by a form that is less than 90 % sure. `None` is that memory ran out.
#[tactic(auto, unfolding(crate::specs::Doubted::doubted))]
pub fn doubted_lines(alloc: Global, rows: &SourceRows, rope: &Rope) -> Option<Vec<Warning>>
    ensures { IfSome result (λ found. found.items ≡ doubted rows.now rope.now) }
{
    let Some(listing) = placed_rows(alloc, rows, rope) else {
        return None;
    };
    let Some(places) = UncertainPlaces::of(alloc, rows, rope) else {
        return None;
    };
    match doubted_rows(alloc, &places, listing.as_slice()) {
        Ok(found) => Some(found),
        Err(_) => None,
    }
}

// Those of some rows.
fn doubted_rows(
    alloc: Global,
    places: &UncertainPlaces,
    listing: &[u8],
) -> Result<Vec<Warning>, AllocError>
    ensures { IfOk result (λ found. found.items ≡ doubted_rows places.now before_lines (lines listing.now)) }
{
    let mut found = Vec::new(alloc);
    let mut line = WarnedLine::none();
    let mut rest = listing;
    while let Some((row, after)) = next_line(rest) {
        line = line.with(row);
        line.push_doubted(doubt_before(places, row), &mut found)?;
        rest = after;
    }
    Ok(found)
}

// Why the word of a row is warned of, if it is.
fn doubt_before(places: &UncertainPlaces, row: &[u8]) -> Option<Doubt>
    ensures { result ≡ option_and_then (doubt_at places.now) (place_before row.now) }
{
    match place_before(row) {
        Some((bank, offset)) => doubt_at(places, bank, offset),
        None => None,
    }
}

// Why the word at a place is warned of, if it is.
fn doubt_at(places: &UncertainPlaces, bank: u16, offset: u16) -> Option<Doubt>
    ensures { result ≡ doubt_at places.now (bank, offset) }
{
    match places.form_of(bank, offset) {
        Some(form) => form.doubt(),
        None => None,
    }
}

// The bytes of a line's operator.
fn operator_span(text: &[u8]) -> Span
    ensures { result ≡ operator_span text.now }
{
    match reading_of(Language::Flight, text).operator {
        Some(operator) => Span {
            start: operator.start,
            width: operator.text.len(),
        },
        None => Span { start: 0, width: 0 },
    }
}
