//! Whether the language of flight programs takes the form of a line.

ghost use Rattle.std.specs.Prelude.{◌≡◌};
ghost use Rattle.yayul.specs.Flight.{uncounted, uncounted_statement};
ghost use Rattle.yayul.specs.FlightForms.{gives_too_great, has_flight_form, is_too_great};
ghost use Rattle.agc_text.specs.Fields.{fields, label_of};
ghost use Rattle.yayul.specs.Inside.Forms.{has_form, is_formed, is_formless, is_number, takes_label};
ghost use Rattle.yayul.specs.Inside.LinesRead.{IsApart};
ghost use Rattle.yayul.specs.declared.language.Location.TheVariants as Location;

use crate::flight::{flight_label_in, is_count, measured, uncounted_by, uncounted_statement};
use crate::language::{Content, Label, Language, Location, Numeral, Operation, Statement};
use agc_text::{LINE_LENGTH, Line, next_field};
use symbols::FixedBank;

/// Whether the language of flight programs takes the form of a line: as the first of a source the line has no fault of
/// its length, its label, its operator and its operand, and no constant that is too great.
#[tactic(auto, using(crate::proofs::FormFaults::short_line, crate::proofs::FormFaults::long_form))]
pub fn has_flight_form(text: &[u8]) -> bool
    ensures { result ≡ has_flight_form text.now }
{
    measured(Language::Flight, text).len() <= LINE_LENGTH && says_form(text)
}

// Whether what a line says has a form, a count that stands first apart.
#[tactic(auto, using(crate::proofs::Counts::uncounted_same, crate::proofs::FormFaults::formless_line))]
fn says_form(text: &[u8]) -> bool
    ensures { result ≡ is_formed (uncounted_statement (Location.Fixed 2 0) (uncounted text.now)) }
{
    // Of most lines that are asked about the label has none: so it is looked at first, and alone.
    if has_formless_label(text) {
        return false;
    }
    let line = Line::of(text);
    let rest = uncounted_by(text, &line);
    if rest.len() == text.len() {
        says_form_by(text, &line)
    } else {
        says_form_by(rest, &Line::of(rest))
    }
}

// Whether a line has a label that is no count and has no label's form.
fn has_formless_label(text: &[u8]) -> bool
    ensures { result ≡ is_formless (label_of (fields text.now)) }
{
    match next_field(text, 0) {
        Some(field) if field.start == 0 => {
            !is_count(field.text) && flight_label_in(Some(field)).is_malformed()
        }
        _ => false,
    }
}

// Whether what a line without a count says has a form, where these are its fields.
fn says_form_by(text: &[u8], line: &Line<'_>) -> bool
    requires { IsApart text.now line.now }
    ensures { result ≡ is_formed (uncounted_statement (Location.Fixed 2 0) text.now) }
{
    let first = Location::Fixed(FixedBank::two(), 0);
    uncounted_statement(first, text, line).has_form()
}

impl Statement {
    // Whether its label, its operator and its operand have a form, and no constant is too great.
    fn has_form(&self) -> bool
        ensures { result ≡ is_formed self.now }
    {
        self.operation.has_form()
            && self.label.is_taken_by(&self.operation)
            && !self.operation.gives_too_great()
    }
}

impl Operation {
    // Whether the operator is known, and the operand has the form that it asks for.
    fn has_form(&self) -> bool
        ensures { result ≡ has_form self.now }
    {
        match self {
            Operation::Nothing => true,
            Operation::Unknown => false,
            Operation::Setloc(operand) | Operation::Equals(operand) | Operation::Ebank(operand) => {
                operand.is_some()
            }
            Operation::Bank(_, number) => is_number(*number),
            Operation::Erase(count) => is_number(*count),
            Operation::Gives(content) => content.is_some(),
        }
    }

    // Whether it gives a constant that is more than its words hold.
    fn gives_too_great(&self) -> bool
        ensures { result ≡ gives_too_great self.now }
    {
        match self {
            Operation::Gives(Some(content)) => content.is_too_great(),
            _ => false,
        }
    }
}

impl Content {
    // Whether a constant is more than its words hold.
    fn is_too_great(&self) -> bool
        ensures { result ≡ is_too_great self.now }
    {
        match self {
            Content::Constant(number) => number.is_none(),
            Content::Constants(pair) => pair.is_none(),
            _ => false,
        }
    }
}

impl Label {
    // Whether an operation takes it, or that none stands.
    fn is_taken_by(&self, operation: &Operation) -> bool
        ensures { result ≡ takes_label self.now operation.now }
    {
        match self {
            Label::Malformed => false,
            Label::Missing => !matches!(operation, Operation::Equals(_)),
            Label::Named(_) => !matches!(
                operation,
                Operation::Setloc(_) | Operation::Bank(..) | Operation::Ebank(_)
            ),
        }
    }
}

// Whether this is a number, too large or not.
fn is_number(numeral: Numeral) -> bool
    ensures { result ≡ is_number numeral }
{
    !matches!(numeral, Numeral::NoForm)
}
