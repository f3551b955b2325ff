//! A line of a source, read once.

ghost use Rattle.std.specs.Prelude.{◌≡◌, ◌≤◌, ◌+◌, ◌-◌, ◌<◌, ◌^◌, ℕ, IfSome, List, length};
ghost use Rattle.std.specs.Option.{option_map};
ghost use Rattle.agc_text.specs.Views.{piece, end_of};
ghost use Rattle.yayul.specs.Flight.{uncounted};
ghost use Rattle.yayul.specs.Language.{Flight, Standard};
ghost use Rattle.yayul.specs.Readings.{later_field, later_parts, parts_for, parts_in, parts_of, role_in};
ghost use Rattle.yayul.specs.Readings.{operand_for, operand_value, value_by};
ghost use Rattle.yayul.specs.Inside.LinesRead.{IsApart};

use crate::faults::FaultKind;
use crate::flight::{address_in, uncounted_by};
use crate::language::{Language, Location, Operand};
use crate::operator::role_of;
use crate::role::Role;
use crate::statement::operand_in;
use crate::values::value_of;
use agc_text::{Field, Line};
use symbols::{FixedBank, Symbols, Value};

/// A line of a source: its fields, and what its operator is.
#[derive(Clone, Copy)]
pub struct Reading<'a> {
    /// The label, in the first column.
    pub label: Option<Field<'a>>,
    /// The operator.
    pub operator: Option<Field<'a>>,
    /// The operand.
    pub operand: Option<Field<'a>>,
    /// What stands after it.
    pub offset: Option<Field<'a>>,
    /// Whether further fields stand.
    pub more: bool,
    /// What the operator is, where the language has it.
    pub role: Option<Role>,
}

impl<'a> Reading<'a> {
    /// The same with fields so many bytes later.
    pub(crate) fn later(self, count: usize) -> Reading<'a>
        requires label { IfSome self.label (λ f. end_of f + count < 2 ^ 64) }
        requires operator { IfSome self.operator (λ f. end_of f + count < 2 ^ 64) }
        requires operand { IfSome self.operand (λ f. end_of f + count < 2 ^ 64) }
        requires offset { IfSome self.offset (λ f. end_of f + count < 2 ^ 64) }
        ensures { parts_in result ≡ later_parts count (parts_in self.entry) }
    {
        Reading {
            label: later(count, self.label),
            operator: later(count, self.operator),
            operand: later(count, self.operand),
            offset: later(count, self.offset),
            more: self.more,
            role: self.role,
        }
    }

    /// What the operand stands for by the symbols of a source. It has no value where its symbol has none, where it
    /// leads past its bounds, and where it counts from its line.
    pub fn operand_value(&self, language: Language, symbols: &Symbols) -> Option<Value>
        ensures { result ≡ operand_value language symbols.now (parts_in self.now) }
    {
        let operand = self.operand_for(language)?;
        value_by(symbols, &operand)
    }

    // The operand, which in a flight program may be a number that names a place.
    fn operand_for(&self, language: Language) -> Option<Operand>
        ensures { result ≡ operand_for language (parts_in self.now) }
    {
        let line = Line {
            label: self.label,
            operator: self.operator,
            operand: self.operand,
            offset: self.offset,
            more: self.more,
        };
        match language {
            Language::Standard => operand_in(&line),
            Language::Flight => address_in(&line),
        }
    }
}

// The value of an operand that does not count from its line.
fn value_by(symbols: &Symbols, operand: &Operand) -> Option<Value>
    ensures { result ≡ value_by symbols.now operand.now }
{
    if operand.is_here() {
        return None;
    }
    let nowhere = Location::Fixed(FixedBank::two(), 0);
    value_of(FaultKind::Undefined, symbols, nowhere, operand).ok()
}

/// A line of a language: in that of flight programs its fields are those after a count.
pub fn reading_of(language: Language, text: &[u8]) -> Reading<'_>
    ensures { parts_in result ≡ parts_for language text.now }
{
    match language {
        Language::Standard => standard_reading(text),
        Language::Flight => reading_after_count(text),
    }
}

// A line of the standard language.
fn standard_reading(text: &[u8]) -> Reading<'_>
    ensures { parts_in result ≡ parts_of Standard text.now }
{
    let line = Line::of(text);
    Reading {
        label: line.label,
        operator: line.operator,
        operand: line.operand,
        offset: line.offset,
        more: line.more,
        role: role_in(Language::Standard, line.operator),
    }
}

// The fields of a line of a flight program after a count that stands first.
#[tactic(auto, using(crate::proofs::Counts::uncounted_same))]
fn reading_after_count(text: &[u8]) -> Reading<'_>
    ensures { parts_in result ≡ later_parts (length text.now - length (uncounted text.now))
        (parts_of Flight (uncounted text.now)) }
{
    let line = Line::of(text);
    let rest = uncounted_by(text, &line);
    if rest.len() == text.len() {
        reading_by(0, &line)
    } else {
        reading_by(text.len() - rest.len(), &Line::of(rest))
    }
}

// These fields so many bytes later, where they are those of a line of a flight program.
fn reading_by<'a>(count: usize, line: &Line<'a>) -> Reading<'a>
    requires label { IfSome line.now.label (λ f. end_of f + count < 2 ^ 64) }
    requires operator { IfSome line.now.operator (λ f. end_of f + count < 2 ^ 64) }
    requires operand { IfSome line.now.operand (λ f. end_of f + count < 2 ^ 64) }
    requires offset { IfSome line.now.offset (λ f. end_of f + count < 2 ^ 64) }
    ensures { (text : List ℕ) → IsApart text line.now
        → parts_in result ≡ later_parts count (parts_of Flight text) }
{
    Reading {
        label: later(count, line.label),
        operator: later(count, line.operator),
        operand: later(count, line.operand),
        offset: later(count, line.offset),
        more: line.more,
        role: role_in(Language::Flight, line.operator),
    }
}

// What the operator in a field is.
fn role_in(language: Language, field: Option<Field<'_>>) -> Option<Role>
    ensures { result ≡ role_in language (option_map piece field.entry) }
{
    match field {
        Some(field) => role_of(language, field.text),
        None => None,
    }
}

// A field so many bytes later, where it stands.
fn later(count: usize, field: Option<Field<'_>>) -> Option<Field<'_>>
    requires { IfSome field (λ f. end_of f + count < 2 ^ 64) }
    ensures { option_map piece result ≡ option_map (later_field count) (option_map piece field.entry) }
{
    match field {
        Some(Field { start, text }) => Some(Field {
            start: start + count,
            text,
        }),
        None => None,
    }
}
