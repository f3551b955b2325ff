//! What a line of the source says, whatever stands before it.

ghost use Rattle.std.specs.Prelude.{◌≡◌, ◌≤◌, ℕ, List, true, IfSome, option_and_then};
ghost use Rattle.agc_text.specs.Tables.{value_in};
ghost use Rattle.yayul.specs.Forms.{with_form, label_in, operand_in, alone, number_in, octal_in, decimal_in, count_in};
ghost use Rattle.yayul.specs.Forms.{erased_in, next_location, operation_of, statement_of};
ghost use Rattle.yayul.specs.Operators.{operators};
ghost use Rattle.yayul.specs.Layout.{is_malformed, is_missing, width, extends};
ghost use Rattle.yayul.specs.Words.{extracode_of};
ghost use Rattle.yayul.specs.Inside.Codes.{has_room};
ghost use Rattle.yayul.specs.Inside.LinesRead.{IsApart};
ghost use Rattle.yayul.specs.Inside.Representation.{text_of, arguments_of, operation_by};
ghost use Rattle.yayul.specs.declared.language.Content.TheVariants as content;

use crate::decimal::decimal_in;
use crate::instruction::{AddressedInstruction, PlainInstruction};
use crate::language::{
    Content, Extracode, Label, Numeral, Operand, Operation, Operator, Shift, Statement, Term,
};
use crate::name::name_of;
use crate::number::{number_in, octal_in};
use crate::operand::operand_of;
use crate::operator::operator_of;
use agc_text::{Field, Line};
use words::Word;

impl Label {
    /// Whether a label stands that has no name's form.
    pub(crate) fn is_malformed(&self) -> bool
        ensures { result ≡ is_malformed self.now }
    {
        matches!(self, Label::Malformed)
    }

    /// Whether no label stands.
    pub(crate) fn is_missing(&self) -> bool
        ensures { result ≡ is_missing self.now }
    {
        matches!(self, Label::Missing)
    }
}

impl Content {
    /// How many words it gives.
    pub(crate) fn width(&self) -> usize
        ensures value { result ≡ width self.now }
        ensures some { 1 ≤ result }
        ensures few { result ≤ 2 }
    {
        match self {
            Content::Constant(_) => 1,
            Content::Plain(_) => 1,
            Content::Addressed(..) => 1,
            Content::FarAddress(_) => 2,
            Content::Constants(_) => 2,
            Content::Complemented(..) => 1,
            Content::FarComplement(_) => 2,
            Content::BankWord(_) => 1,
        }
    }

    /// Whether the word is an extracode.
    pub(crate) fn extracode(&self) -> Extracode
        ensures { result ≡ extracode_of self.now }
    {
        match self {
            Content::Constant(_) => Extracode::No,
            Content::Plain(plain) => plain.code().extracode,
            Content::Addressed(addressed, _) => addressed.code().extracode,
            Content::FarAddress(_) => Extracode::No,
            Content::Constants(_) => Extracode::No,
            Content::Complemented(..) => Extracode::No,
            Content::FarComplement(_) => Extracode::No,
            Content::BankWord(_) => Extracode::No,
        }
    }

    /// Whether extracode is in force on the next line that gives words, where it is or is not on this one.
    pub(crate) fn extends(&self, extracode: bool) -> bool
        ensures { result ≡ extends self.now extracode }
    {
        match self {
            Content::Constant(_) => false,
            Content::Plain(plain) => plain.code().extends,
            Content::Addressed(addressed, _) => {
                extracode && matches!(addressed.code().extracode, Extracode::Either)
            }
            Content::FarAddress(_) => false,
            Content::Constants(_) => false,
            Content::Complemented(..) => false,
            Content::FarComplement(_) => false,
            Content::BankWord(_) => false,
        }
    }
}

// What a line says.
pub(crate) fn statement_of(line: &[u8]) -> Statement
    ensures { result ≡ statement_of line.now }
{
    let line = Line::of(line);
    let operator = match line.operator {
        Some(operator) => operator_of(operator.text),
        None => None,
    };
    statement_by(operator, &line)
}

/// What a line says that is taken apart, where its operator is this.
pub(crate) fn statement_by(operator: Option<Operator>, line: &Line<'_>) -> Statement
    requires named { operator ≡ option_and_then (λ f. value_in operators f.text.now) line.now.operator }
    requires fits { IfSome operator (λ operator. has_room operator ≡ true) }
    ensures { (text : List ℕ) → IsApart text line.now → result ≡ statement_of text }
{
    Statement {
        label: label_in(line.label),
        operation: operation_by(operator, line),
    }
}

// The label in a field, where it has a name's form.
pub(crate) fn label_in(field: Option<Field<'_>>) -> Label
    ensures { result ≡ label_in (text_of field.entry) }
{
    match field {
        Some(field) => match name_of(field.text) {
            Some(name) => Label::Named(name),
            None => Label::Malformed,
        },
        None => Label::Missing,
    }
}

// What the fields besides the label say, where their operator is this.
fn operation_by(operator: Option<Operator>, line: &Line<'_>) -> Operation
    requires named { operator ≡ option_and_then (λ f. value_in operators f.text.now) line.now.operator }
    requires fits { IfSome operator (λ operator. has_room operator ≡ true) }
    ensures { result ≡ operation_by line.now }
{
    match line.operator {
        Some(_) => operation_of(operator, line),
        None => Operation::Nothing,
    }
}

// What an operator says with the fields after it.
pub(crate) fn operation_of(operator: Option<Operator>, line: &Line<'_>) -> Operation
    requires { IfSome operator (λ operator. has_room operator ≡ true) }
    ensures { result ≡ operation_of operator (arguments_of line.now) }
{
    match operator {
        None => Operation::Unknown,
        Some(Operator::Setloc) => Operation::Setloc(operand_in(line)),
        Some(Operator::Bank(banks)) => Operation::Bank(banks, bank_in(line)),
        Some(Operator::Erase) => Operation::Erase(erased_in(line)),
        Some(Operator::Equals) => Operation::Equals(operand_in(line)),
        Some(Operator::Ebank) => Operation::Ebank(operand_in(line)),
        Some(Operator::Octal) => Operation::Gives(constant_of(octal_alone(line))),
        Some(Operator::Decimal) => Operation::Gives(constant_of(decimal_alone(line))),
        Some(Operator::FarAddress) => Operation::Gives(match operand_in(line) {
            Some(operand) => Some(Content::FarAddress(operand)),
            None => None,
        }),
        Some(Operator::Plain(code)) => Operation::Gives(match line.operand {
            None => Some(Content::Plain(PlainInstruction::new(code))),
            Some(_) => None,
        }),
        Some(Operator::Addressed(code)) => Operation::Gives(match operand_in(line) {
            Some(operand) => Some(Content::Addressed(AddressedInstruction::new(code), operand)),
            None => None,
        }),
        Some(Operator::ToNext(code)) => Operation::Gives(match line.operand {
            None => Some(Content::Addressed(AddressedInstruction::new(code), next_location())),
            Some(_) => None,
        }),
    }
}

// The location after the line's.
pub(crate) fn next_location() -> Operand
    ensures { result ≡ next_location }
{
    Operand {
        term: Term::Here,
        shift: Shift::Plus(Some(Word::of_low_bits(1))),
    }
}

// The operand, where it has the form of one and no further field stands.
pub(crate) fn operand_in(line: &Line<'_>) -> Option<Operand>
    ensures { result ≡ operand_in (arguments_of line.now) }
{
    let operand = line.operand?;
    match line.offset {
        None => operand_of(operand.text, None),
        Some(_) if line.more => None,
        Some(offset) => operand_of(operand.text, Some(offset.text)),
    }
}

// A constant, where it has a number's form.
pub(crate) fn constant_of(number: Numeral) -> Option<Content>
    ensures { result ≡ with_form content.Constant number }
{
    match number {
        Numeral::Is(number) => Some(Content::Constant(Some(number))),
        Numeral::TooLarge => Some(Content::Constant(None)),
        Numeral::NoForm => None,
    }
}

// A number alone.
pub(crate) fn bank_in(line: &Line<'_>) -> Numeral
    ensures { result ≡ alone number_in (arguments_of line.now) }
{
    match (line.operand, line.offset) {
        (Some(operand), None) => number_in(operand.text),
        _ => Numeral::NoForm,
    }
}

// How many words ERASE passes besides one: nothing, or a plus sign and a number alone.
fn erased_in(line: &Line<'_>) -> Numeral
    ensures { result ≡ erased_in (arguments_of line.now) }
{
    match (line.operand, line.offset) {
        (None, _) => Numeral::Is(Word::ZERO),
        (Some(operand), None) => count_in(operand.text),
        (Some(_), Some(_)) => Numeral::NoForm,
    }
}

// A plus sign and a number.
fn count_in(text: &[u8]) -> Numeral
    ensures { result ≡ count_in text.now }
{
    match text {
        [b'+', number @ ..] => number_in(number),
        _ => Numeral::NoForm,
    }
}

// The octal digits, where no further field stands.
fn octal_alone(line: &Line<'_>) -> Numeral
    ensures { result ≡ alone octal_in (arguments_of line.now) }
{
    match (line.operand, line.offset) {
        (Some(operand), None) => octal_in(operand.text),
        _ => Numeral::NoForm,
    }
}

// The decimal constant, where no further field stands.
fn decimal_alone(line: &Line<'_>) -> Numeral
    ensures { result ≡ alone decimal_in (arguments_of line.now) }
{
    match (line.operand, line.offset) {
        (Some(operand), None) => decimal_in(operand.text),
        _ => Numeral::NoForm,
    }
}
