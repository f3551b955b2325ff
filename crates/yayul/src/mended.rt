//! What a line says in spite of an operand that has no form.

ghost use Rattle.std.specs.Prelude.{◌≡◌, ◌≤◌, true, length};
ghost use Rattle.yayul.specs.Mended.{counted_out, any_operand, any_word, any_words, words_of};
ghost use Rattle.yayul.specs.Mended.{decimal_words, flight_words_of, lacks_form};
ghost use Rattle.yayul.specs.Inside.Codes.{has_room, flight_has_room};

use crate::flight::{fixed_reading, uncounted};
use crate::instruction::{AddressedInstruction, PlainInstruction};
use crate::language::{
    Content, DoubleWord, FlightOperator, Language, Operand, Operation, Operator, Precision, Shift,
    Term,
};
use crate::statement::next_location;
use words::Word;

impl Operation {
    /// Whether it gives words, and its operand has no form.
    pub(crate) fn lacks_form(&self) -> bool
        ensures { result ≡ lacks_form self.now }
    {
        matches!(self, Operation::Gives(None))
    }
}

// A line without a count that its language passes over.
pub(crate) fn counted_out(language: Language, text: &[u8]) -> &[u8]
    ensures value { result.now ≡ counted_out language text.now }
    ensures within { length result.now ≤ length text.now }
{
    match language {
        Language::Standard => text,
        Language::Flight => uncounted(text),
    }
}

fn words_of(operator: Operator) -> Option<Content>
    requires { has_room operator ≡ true }
    ensures { result ≡ words_of operator }
{
    match operator {
        Operator::Octal | Operator::Decimal => Some(any_word()),
        Operator::FarAddress => Some(Content::FarAddress(any_operand())),
        Operator::Plain(code) => Some(Content::Plain(PlainInstruction::new(code))),
        Operator::Addressed(code) => Some(Content::Addressed(
            AddressedInstruction::new(code),
            any_operand(),
        )),
        Operator::ToNext(code) => Some(Content::Addressed(
            AddressedInstruction::new(code),
            next_location(),
        )),
        Operator::Setloc
        | Operator::Bank(_)
        | Operator::Erase
        | Operator::Equals
        | Operator::Ebank => None,
    }
}

/// The words that an operator gives, whatever its operand.
pub(crate) fn flight_words_of(operator: FlightOperator) -> Option<Content>
    requires { flight_has_room operator ≡ true }
    ensures { result ≡ flight_words_of operator }
{
    match operator {
        FlightOperator::Octal | FlightOperator::VerbNoun => Some(any_word()),
        FlightOperator::Octals => Some(any_words()),
        FlightOperator::Decimal(precision) => Some(decimal_words(precision)),
        FlightOperator::Complemented(code) => Some(Content::Complemented(
            AddressedInstruction::new(code),
            any_operand(),
        )),
        FlightOperator::FarComplement => Some(Content::FarComplement(any_operand())),
        FlightOperator::BankWord => Some(Content::BankWord(any_operand())),
        FlightOperator::ReadFixed => Some(fixed_reading(any_operand())),
        FlightOperator::Standard(operator) => words_of(operator),
        FlightOperator::PassedOver | FlightOperator::Equals | FlightOperator::Bank(_) => None,
    }
}

fn decimal_words(precision: Precision) -> Content
    ensures { result ≡ decimal_words precision }
{
    match precision {
        Precision::One => any_word(),
        Precision::Two => any_words(),
    }
}

fn any_operand() -> Operand
    ensures { result ≡ any_operand }
{
    Operand {
        term: Term::Number(Some(Word::ZERO)),
        shift: Shift::Plus(Some(Word::ZERO)),
    }
}

fn any_word() -> Content
    ensures { result ≡ any_word }
{
    Content::Constant(Some(Word::ZERO))
}

fn any_words() -> Content
    ensures { result ≡ any_words }
{
    Content::Constants(Some(DoubleWord {
        first: Word::ZERO,
        second: Word::ZERO,
    }))
}
