//! A line of a source, taken apart once for all that is asked of it.

ghost use Rattle.std.specs.Prelude.{◌≡◌, ◌≤◌, true, IfSome, length, not, option_and_then};
ghost use Rattle.std.specs.List.{list_all};
ghost use Rattle.std.specs.Option.{option_map};
ghost use Rattle.agc_text.specs.Bytes.{is_text_byte};
ghost use Rattle.agc_text.specs.Views.{piece};
ghost use Rattle.yayul.specs.Flight.{statement_in};
ghost use Rattle.yayul.specs.Layout.{standing, text_faults};
ghost use Rattle.yayul.specs.Mended.{given_by, lacks_operand, mended};
ghost use Rattle.yayul.specs.ReadLines.{line_of, parts_on};
ghost use Rattle.yayul.specs.Readings.{parts_in};
ghost use Rattle.yayul.specs.Survey.{span_in, wrong_byte};
ghost use Rattle.yayul.specs.Inside.LinesRead.{as_standard};
ghost use Rattle.yayul.specs.Inside.Codes.{flight_has_room, has_room};

use crate::faults::FaultKind;
use crate::finding::{Span, span_at, wrong_place};
use crate::flight::{flight_label_in, flight_statement_by, measured};
use crate::language::{
    Content, FlightOperator, Label, Language, Location, Operation, Operator, Statement,
};
use crate::line::conditions_of_text;
use crate::mended::{counted_out, flight_words_of};
use crate::operator::operator_and_role;
use crate::reading::Reading;
use crate::role::Role;
use crate::statement::{label_in, statement_by};
use agc_text::{LINE_LENGTH, Line, is_text};
use std::marker::Model;

/// A line of a source, taken apart.
#[derive(Drop)]
pub struct ReadLine<'a> {
    language: Language,
    text: &'a [u8],
    // What follows a count, and its fields.
    rest: &'a [u8],
    line: Line<'a>,
    // What the operator says, and what it is.
    operator: Option<FlightOperator>,
    role: Option<Role>,
    // Whether the line holds text alone.
    is_text: bool,
}

impl<'a> Model for ReadLine<'a> {
    ghost use Rattle.yayul.specs.Program.{Source};
    ghost use Rattle.yayul.specs.Inside.LinesRead.{IsRead};
    ghost use Rattle.yayul.specs.Inside.Representation.{source_code};

    ghost Value = { Source };

    ghost coded = { source_code };

    ghost view = { λ l. record { language = l.language; text = l.text.now } };

    ghost invariant = { λ l. IsRead l.language l.text.now l.rest.now l.line l.operator l.role l.is_text };
}

impl<'a> ReadLine<'a> {
    /// Takes a line apart.
    pub(crate) fn of(language: Language, text: &'a [u8]) -> ReadLine<'a>
        ensures { result ≡ line_of language text.now }
    {
        let rest = counted_out(language, text);
        let line = Line::of(rest);
        let (operator, role) = match line.operator {
            Some(field) => operator_and_role(language, field.text),
            None => (None, None),
        };
        ReadLine {
            language,
            text,
            rest,
            line,
            operator,
            role,
            is_text: is_text(text),
        }
    }

    /// The bytes of the line.
    pub fn text(&self) -> &'a [u8]
        ensures { result.now ≡ self.now.text }
    {
        self.text
    }

    /// Its fields, and what its operator is.
    pub fn reading(&self) -> Reading<'a>
        ensures { parts_in result ≡ parts_on self.now }
    {
        let reading = Reading {
            label: self.line.label,
            operator: self.line.operator,
            operand: self.line.operand,
            offset: self.line.offset,
            more: self.line.more,
            role: self.role,
        };
        match self.language {
            Language::Standard => reading,
            Language::Flight => reading.later(self.text.len() - self.rest.len()),
        }
    }

    /// What the line says, where it stands at a location.
    pub(crate) fn statement(&self, here: Location) -> Statement
        ensures { result ≡ statement_in self.now.language here self.now.text }
    {
        match self.language {
            Language::Standard => statement_by(standard_of(self.operator), &self.line),
            Language::Flight => flight_statement_by(here, self.operator, self.rest, &self.line),
        }
    }

    /// Its label, wherever it stands.
    pub(crate) fn label(&self) -> Label
        ensures { (here : Location) → result ≡ (statement_in self.now.language here self.now.text).label }
    {
        match self.language {
            Language::Standard => label_in(self.line.label),
            Language::Flight => flight_label_in(self.line.label),
        }
    }

    /// What the line says, where it says this: an operand that has no form, of words, is one of no account.
    pub(crate) fn mended(&self, operation: Operation) -> Operation
        ensures { result ≡ mended self.now.language self.now.text operation }
    {
        match operation {
            Operation::Gives(None) => Operation::Gives(self.given()),
            operation => operation,
        }
    }

    // The words that its operator gives, whatever its operand.
    fn given(&self) -> Option<Content>
        ensures { result ≡ given_by self.now.language self.now.text }
    {
        match self.operator {
            Some(operator) => flight_words_of(operator),
            None => None,
        }
    }

    /// Whether no operand stands.
    pub(crate) fn lacks_operand(&self) -> bool
        ensures { result ≡ lacks_operand self.now.language self.now.text }
    {
        self.line.operand.is_none()
    }

    /// Whether the line holds text alone.
    pub(crate) fn is_text(&self) -> bool
        ensures { result ≡ list_all is_text_byte self.now.text }
    {
        self.is_text
    }

    /// The first byte that the line may not hold.
    #[tactic(auto, using(crate::proofs::TextAlone::no_wrong_byte))]
    pub(crate) fn wrong_byte(&self) -> Option<u8>
        ensures { result ≡ wrong_byte self.now.text }
    {
        if self.is_text {
            None
        } else {
            self.text.get(wrong_place(self.text)).copied()
        }
    }

    /// The faults of the line's bytes, its length and its number, each where its condition holds.
    pub(crate) fn text_conditions(&self, line: u32) -> [Option<FaultKind>; 3]
        ensures { standing result ≡ text_faults self.now.language line self.now.text }
    {
        conditions_of_text(self.language, line, self.text, self.is_text)
    }

    /// The bytes of the line that are to blame for a fault.
    #[tactic(auto, unfolding(crate::specs::Survey::span_in))]
    pub(crate) fn span(&self, kind: FaultKind) -> Span
        ensures { result ≡ span_in self.now.language self.now.text kind }
    {
        match (self.language, kind) {
            (Language::Standard, _) => span_at(self.rest, &self.line, kind),
            (Language::Flight, FaultKind::LongLine) => Span {
                start: LINE_LENGTH,
                width: measured(Language::Flight, self.text)
                    .len()
                    .saturating_sub(LINE_LENGTH),
            },
            (Language::Flight, _) => span_at(self.rest, &self.line, kind).later(
                self.text.len(),
                self.text.len() - self.rest.len(),
            ),
        }
    }
}

// The operator, where the standard language has it.
fn standard_of(operator: Option<FlightOperator>) -> Option<Operator>
    requires { IfSome operator (λ operator. flight_has_room operator ≡ true) }
    ensures value { result ≡ as_standard operator }
    ensures fits { IfSome result (λ operator. has_room operator ≡ true) }
{
    match operator {
        Some(FlightOperator::Standard(operator)) => Some(operator),
        _ => None,
    }
}
