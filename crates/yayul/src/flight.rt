//! What a line of a flight program says.

ghost use Rattle.std.specs.Prelude.{◌≡◌, ◌≤◌, ◌≢◌, true, IfSome, option_and_then, drop, ◌+◌, length, Some, None};
ghost use Rattle.std.specs.Prelude.{if◌then◌else◌};
ghost use Rattle.std.specs.Option.{option_map};
ghost use Rattle.agc_text.specs.Tables.{value_in};
ghost use Rattle.agc_text.specs.Views.{piece, IsSliceOf, end_of};
ghost use Rattle.yayul.specs.Flight.{most_lines, measured, is_count, without_count, uncounted, is_signed_name};
ghost use Rattle.yayul.specs.Flight.{flight_label_in, named_operand, flight_operand_in, is_pseudo_address};
ghost use Rattle.yayul.specs.Flight.{pseudo_place, placed, with_place, address_in, flight_operators, flight_operator};
ghost use Rattle.yayul.specs.Flight.{operand_or_here, scales_after, signed_octal_in, both, octals_in, verb_noun_in};
ghost use Rattle.yayul.specs.Flight.{addressed_content, bank_at, bank_or_here, below_zero, fixed_reading};
ghost use Rattle.yayul.specs.Flight.{less, takes_any, standard_operation_of, flight_operation_of};
ghost use Rattle.yayul.specs.Flight.{uncounted_statement};
ghost use Rattle.yayul.specs.Forms.{alone};
ghost use Rattle.yayul.specs.Scales.{decimal_content};
ghost use Rattle.yayul.specs.Inside.Codes.{greatest_code, greatest_with_field, has_room, flight_has_room};
ghost use Rattle.yayul.specs.Inside.LinesRead.{IsApart};
ghost use Rattle.yayul.specs.Inside.Representation.{text_of, arguments_of, flight_operation_by};

use crate::decimal::complemented;
use crate::instruction::AddressedInstruction;
use crate::language::{
    AddressedCode, BankRange, Bits, Content, DoubleWord, Extracode, FlightOperator, Label,
    Language, Location, Numeral, Operand, Operation, Operator, Precision, Shift, Statement, Takes,
    Term,
};
use crate::name::holds_dollar_sign;
use crate::number::{begins_with_sign, is_digits, octal_in};
use crate::operand::shift_in;
use crate::operator::flight_operator_of;
use crate::scaled::decimal_content;
use crate::statement::{bank_in, constant_of, label_in, operand_in, operation_of};
use agc_text::{Field, Line, decimal, length_before_byte};
use space::Offset;
use symbols::{FixedBank, NAME_LENGTH, Name};
use words::Word;

/// The most lines of a source.
pub fn most_lines(language: Language) -> u32
    ensures value { result ≡ most_lines language }
    ensures few { result ≤ 262144 }
{
    match language {
        Language::Standard => 65_536,
        Language::Flight => 262_144,
    }
}

/// The bytes of a line that its length counts: in a flight program of a comment its first `#` alone.
pub(crate) fn measured(language: Language, text: &[u8]) -> &[u8]
    ensures { result.now ≡ measured language text.now }
{
    match language {
        Language::Standard => text,
        Language::Flight => {
            let before = length_before_byte(text, b'#');
            text.get(..before + 1).unwrap_or(text)
        }
    }
}

/// What a line says, where it stands at a location.
#[tactic(auto, using(crate::proofs::Counts::uncounted_same))]
pub(crate) fn flight_statement(here: Location, text: &[u8]) -> Statement
    ensures { result ≡ uncounted_statement here (uncounted text.now) }
{
    let line = Line::of(text);
    let rest = uncounted_by(text, &line);
    if rest.len() == text.len() {
        uncounted_statement(here, text, &line)
    } else {
        uncounted_statement(here, rest, &Line::of(rest))
    }
}

/// What a line says that has no count, where these are its fields.
pub(crate) fn uncounted_statement(here: Location, text: &[u8], line: &Line<'_>) -> Statement
    requires { IsApart text.now line.now }
    ensures { result ≡ uncounted_statement here text.now }
{
    let operator = match line.operator {
        Some(operator) => flight_operator_of(operator.text),
        None => None,
    };
    flight_statement_by(here, operator, text, line)
}

/// A line without a count that stands first.
pub(crate) fn uncounted(text: &[u8]) -> &[u8]
    ensures value { result.now ≡ uncounted text.now }
    ensures within { length result.now ≤ length text.now }
{
    uncounted_by(text, &Line::of(text))
}

/// A line of these fields without a count that stands first.
pub(crate) fn uncounted_by<'a>(text: &'a [u8], line: &Line<'a>) -> &'a [u8]
    requires { IsApart text.now line.now }
    ensures value { result.now ≡ uncounted text.now }
    ensures within { length result.now ≤ length text.now }
{
    match line.label {
        Some(label) => without_count(text, label),
        None => match line.operator {
            Some(operator) => without_count(text, operator),
            None => text,
        },
    }
}

// A line without its first field, where that is a count.
fn without_count<'a>(text: &'a [u8], first: Field<'a>) -> &'a [u8]
    requires { IsSliceOf text.now first }
    ensures value { result.now ≡ without_count text.now (Some (piece first.entry)) }
    ensures within { length result.now ≤ length text.now }
{
    if is_count(first.text) {
        &text[first.start + first.text.len()..]
    } else {
        text
    }
}

/// Whether a text is a sign and digits, which may end in `D`.
pub fn is_count(text: &[u8]) -> bool
    ensures { result ≡ is_count text.now }
{
    begins_with_sign(text) && is_digits(text.get(1..).unwrap_or(&[]))
}

/// What a line without a count says that is taken apart, where its operator is this.
pub(crate) fn flight_statement_by(
    here: Location,
    operator: Option<FlightOperator>,
    text: &[u8],
    line: &Line<'_>,
) -> Statement
    requires named { operator ≡ option_and_then (λ f. flight_operator f.text.now) line.now.operator }
    requires fits { IfSome operator (λ operator. flight_has_room operator ≡ true) }
    requires apart { IsApart text.now line.now }
    ensures { result ≡ uncounted_statement here text.now }
{
    Statement {
        label: flight_label_in(line.label),
        operation: operation_by(here, operator, text, line),
    }
}

// The label in a field, where it has a name's form.
pub(crate) fn flight_label_in(field: Option<Field<'_>>) -> Label
    ensures { result ≡ flight_label_in (text_of field.entry) }
{
    match field {
        Some(field) => match signed_name_of(field.text) {
            Some(name) => Label::Named(name),
            None => label_in(Some(field)),
        },
        None => Label::Missing,
    }
}

// The name of these characters, where it has a sign in front.
fn signed_name_of(text: &[u8]) -> Option<Name>
    ensures { result ≡ (if is_signed_name text.now then Some text.now else None) }
{
    if is_signed_name(text) {
        Name::try_new(text)
    } else {
        None
    }
}

// Whether a text is a name that begins with a sign.
pub fn is_signed_name(text: &[u8]) -> bool
    ensures { result ≡ is_signed_name text.now }
{
    begins_with_sign(text)
        && text.len() >= 2
        && text.len() <= NAME_LENGTH
        && !holds_dollar_sign(text)
        && !is_digits(text.get(1..).unwrap_or(&[]))
}

// What the fields besides the label say, where their operator is this.
fn operation_by(
    here: Location,
    operator: Option<FlightOperator>,
    text: &[u8],
    line: &Line<'_>,
) -> Operation
    requires named { operator ≡ option_and_then (λ f. flight_operator f.text.now) line.now.operator }
    requires fits { IfSome operator (λ operator. flight_has_room operator ≡ true) }
    requires slice { IfSome line.now.operand (IsSliceOf text.now) }
    ensures { result ≡ flight_operation_by here text.now line.now }
{
    match line.operator {
        Some(_) => flight_operation_of(here, operator, text, line),
        None => Operation::Nothing,
    }
}

// What an operator says with the fields after it.
fn flight_operation_of(
    here: Location,
    operator: Option<FlightOperator>,
    text: &[u8],
    line: &Line<'_>,
) -> Operation
    requires fits { IfSome operator (λ operator. flight_has_room operator ≡ true) }
    requires slice { IfSome line.now.operand (IsSliceOf text.now) }
    ensures { result ≡ flight_operation_of here (scales_after text.now (option_map piece line.now.operand)) operator
        (arguments_of line.now) }
{
    match operator {
        None => Operation::Unknown,
        Some(FlightOperator::PassedOver) => Operation::Nothing,
        Some(FlightOperator::Equals) => Operation::Equals(operand_or_here(line)),
        Some(FlightOperator::Bank(banks)) => bank_or_here(here, banks, line),
        Some(FlightOperator::Octal) => Operation::Gives(constant_of(signed_octal_alone(line))),
        Some(FlightOperator::Octals) => Operation::Gives(octals_alone(line)),
        Some(FlightOperator::VerbNoun) => Operation::Gives(constant_of(verb_noun_alone(line))),
        Some(FlightOperator::Decimal(precision)) => {
            Operation::Gives(decimal_on(precision, text, line))
        }
        Some(FlightOperator::Complemented(code)) => Operation::Gives(match address_in(line) {
            Some(operand) => Some(Content::Complemented(AddressedInstruction::new(code), operand)),
            None => None,
        }),
        Some(FlightOperator::FarComplement) => Operation::Gives(match address_in(line) {
            Some(operand) => Some(Content::FarComplement(operand)),
            None => None,
        }),
        Some(FlightOperator::BankWord) => Operation::Gives(match address_in(line) {
            Some(operand) => Some(Content::BankWord(operand)),
            None => None,
        }),
        Some(FlightOperator::ReadFixed) => Operation::Gives(match address_in(line) {
            Some(operand) => Some(fixed_reading(operand)),
            None => None,
        }),
        Some(FlightOperator::Standard(operator)) => standard_operation_of(operator, line),
    }
}

/// The word of CAF: a number may be an address of erasable memory, as one that INDEX adds to is.
pub(crate) fn fixed_reading(operand: Operand) -> Content
    ensures { result ≡ fixed_reading operand }
{
    let takes = match &operand.term {
        Term::Number(_) => Takes::Address,
        Term::Named(_) | Term::Place(..) | Term::Here => Takes::FixedAddress,
    };
    let code = AddressedCode {
        least: 0o30000,
        bits: Bits::Twelve,
        extracode: Extracode::No,
        takes,
    };
    addressed_content(code, operand)
}

// A code with an operand, which may lie below the address 0.
fn addressed_content(code: AddressedCode, operand: Operand) -> Content
    requires { greatest_with_field code ≤ greatest_code }
    ensures { result ≡ addressed_content code operand operand.term operand.shift }
{
    match (&operand.term, operand.shift) {
        (Term::Number(Some(number)), Shift::Minus(Some(count)))
            if number.to_u16() < count.to_u16() => {
            let below = count.to_u16() - number.to_u16();
            below_zero(code, operand, below)
        }
        _ => Content::Addressed(AddressedInstruction::new(code), operand),
    }
}

// A code with an address that is so many below 0.
fn below_zero(code: AddressedCode, operand: Operand, count: u16) -> Content
    requires { greatest_with_field code ≤ greatest_code }
    ensures { result ≡ below_zero code operand count }
{
    if takes_any(code.takes) && count < 0o2000 && count <= code.least {
        let zero = Operand {
            term: Term::Number(Some(Word::ZERO)),
            shift: Shift::Plus(Some(Word::ZERO)),
        };
        Content::Addressed(AddressedInstruction::new(less(code, count)), zero)
    } else {
        Content::Addressed(AddressedInstruction::new(code), operand)
    }
}

// A code that is so many words less.
fn less(code: AddressedCode, count: u16) -> AddressedCode
    requires fits { greatest_with_field code ≤ greatest_code }
    requires least { count ≤ code.least }
    ensures value { result ≡ less code count }
    ensures fits { greatest_with_field result ≤ greatest_code }
{
    AddressedCode {
        least: code.least - count,
        bits: code.bits,
        extracode: code.extracode,
        takes: code.takes,
    }
}

// Whether a field holds an address of any memory, or the next one.
fn takes_any(takes: Takes) -> bool
    ensures { result ≡ takes_any takes }
{
    matches!(takes, Takes::Address | Takes::Pair)
}

// What an operator of the standard language says with the fields after it.
fn standard_operation_of(operator: Operator, line: &Line<'_>) -> Operation
    requires { has_room operator ≡ true }
    ensures { result ≡ standard_operation_of operator (arguments_of line.now) }
{
    match operator {
        Operator::Setloc => Operation::Setloc(address_in(line)),
        Operator::Ebank => Operation::Ebank(address_in(line)),
        Operator::FarAddress => Operation::Gives(match address_in(line) {
            Some(operand) => Some(Content::FarAddress(operand)),
            None => None,
        }),
        Operator::Addressed(code) => Operation::Gives(match address_in(line) {
            Some(operand) => Some(addressed_content(code, operand)),
            None => None,
        }),
        Operator::Bank(_)
        | Operator::Erase
        | Operator::Equals
        | Operator::Octal
        | Operator::Decimal
        | Operator::Plain(_)
        | Operator::ToNext(_) => operation_of(Some(operator), line),
    }
}

// The operand, which may be a number that names a place.
pub(crate) fn address_in(line: &Line<'_>) -> Option<Operand>
    ensures { result ≡ address_in (arguments_of line.now) }
{
    match flight_operand_in(line) {
        Some(operand) => Some(with_place(operand)),
        None => None,
    }
}

// An operand; a number, moved by its offset, may name a place.
fn with_place(operand: Operand) -> Operand
    ensures { result ≡ with_place operand operand.term operand.shift }
{
    match (&operand.term, operand.shift) {
        (Term::Number(Some(number)), Shift::Plus(Some(count))) => {
            let moved = u32::from(number.to_u16()) + u32::from(count.to_u16());
            placed(operand, moved)
        }
        (Term::Number(Some(number)), Shift::Minus(Some(count))) => {
            let moved = number.to_u16().saturating_sub(count.to_u16());
            placed(operand, u32::from(moved))
        }
        _ => operand,
    }
}

// A number so many on, which may name a place.
fn placed(operand: Operand, number: u32) -> Operand
    ensures { result ≡ placed operand number }
{
    if is_pseudo_address(number) {
        pseudo_place(number)
    } else {
        operand
    }
}

// Whether a number names a place of a bank, besides banks 2 and 3.
fn is_pseudo_address(number: u32) -> bool
    ensures { result ≡ is_pseudo_address number }
{
    (0o10000..=0o77777).contains(&number) && !(0o14000..0o20000).contains(&number)
}

// The place that a number names: bank 0 from 010000 on, bank 1 from 012000, and so on.
fn pseudo_place(number: u32) -> Operand
    requires { is_pseudo_address number ≡ true }
    ensures { result ≡ pseudo_place number }
{
    let bank = FixedBank::try_new((number / 0o2000 - 4) as u16);
    let offset = Offset::try_new((number % 0o2000) as u16);
    match (bank, offset) {
        (Some(bank), Some(offset)) => Operand {
            term: Term::Place(bank, offset),
            shift: Shift::Plus(Some(Word::ZERO)),
        },
        _ => unreachable!(),
    }
}

// The operand, which may be a name with a sign in front.
fn flight_operand_in(line: &Line<'_>) -> Option<Operand>
    ensures { result ≡ flight_operand_in (arguments_of line.now) }
{
    let operand = line.operand?;
    match signed_name_of(operand.text) {
        Some(name) => named_operand(name, line),
        None => operand_in(line),
    }
}

// A name, with the offset or none.
fn named_operand(name: Name, line: &Line<'_>) -> Option<Operand>
    requires { line.now.operand ≢ None }
    ensures { result ≡ named_operand name (drop 1 (arguments_of line.now)) }
{
    let shift = match line.offset {
        None => Shift::Plus(Some(Word::ZERO)),
        Some(_) if line.more => return None,
        Some(offset) => shift_in(offset.text)?,
    };
    Some(Operand {
        term: Term::Named(name),
        shift,
    })
}

// The octal digits, where no further field stands.
fn signed_octal_alone(line: &Line<'_>) -> Numeral
    ensures { result ≡ alone signed_octal_in (arguments_of line.now) }
{
    match (line.operand, line.offset) {
        (Some(operand), None) => signed_octal_in(operand.text),
        _ => Numeral::NoForm,
    }
}

// Octal digits, or a sign and octal digits, which a minus complements.
fn signed_octal_in(text: &[u8]) -> Numeral
    ensures { result ≡ signed_octal_in text.now }
{
    match text {
        [b'+', digits @ ..] => octal_in(digits),
        [b'-', digits @ ..] => complemented(octal_in(digits)),
        _ => octal_in(text),
    }
}

// Ten octal digits, where no further field stands.
fn octals_alone(line: &Line<'_>) -> Option<Content>
    ensures { result ≡ octals_in (arguments_of line.now) }
{
    match (line.operand, line.offset) {
        (Some(operand), None) if operand.text.len() == 10 => {
            both(octal_in(&operand.text[..5]), octal_in(&operand.text[5..]))
        }
        _ => None,
    }
}

// Two words of what two texts are as numbers.
fn both(first: Numeral, second: Numeral) -> Option<Content>
    ensures { result ≡ both first second }
{
    let Numeral::Is(first) = first else {
        return None;
    };
    let Numeral::Is(second) = second else {
        return None;
    };
    Some(Content::Constants(Some(DoubleWord { first, second })))
}

// The verb and the noun, where no further field stands.
fn verb_noun_alone(line: &Line<'_>) -> Numeral
    ensures { result ≡ alone verb_noun_in (arguments_of line.now) }
{
    match (line.operand, line.offset) {
        (Some(operand), None) => verb_noun_in(operand.text),
        _ => Numeral::NoForm,
    }
}

// The decimal constant of a line, with its scales.
fn decimal_on(precision: Precision, text: &[u8], line: &Line<'_>) -> Option<Content>
    requires { IfSome line.now.operand (IsSliceOf text.now) }
    ensures { result ≡ option_and_then (λ f. decimal_content precision f.text.now
        (scales_after text.now (Some (piece f)))) line.now.operand }
{
    let operand = line.operand?;
    decimal_content(
        precision,
        operand.text,
        &text[operand.start + operand.text.len()..],
    )
}

// A verb and a noun of two decimal digits each, the verb from the eighth bit on.
fn verb_noun_in(text: &[u8]) -> Numeral
    ensures { result ≡ verb_noun_in text.now }
{
    if text.len() != 4 {
        return Numeral::NoForm;
    }
    match decimal(text, 4) {
        Some(number) => {
            let word = number / 100 * 0o200 + number % 100;
            Numeral::Is(Word::of_low_bits(word as u16))
        }
        None => Numeral::NoForm,
    }
}

// The location, where no field stands, else the operand.
fn operand_or_here(line: &Line<'_>) -> Option<Operand>
    ensures { result ≡ operand_or_here (arguments_of line.now) }
{
    match line.operand {
        None => Some(Operand {
            term: Term::Here,
            shift: Shift::Plus(Some(Word::ZERO)),
        }),
        Some(_) => flight_operand_in(line),
    }
}

// Past the words of the bank of a location, where no field stands, else of the bank that is named.
fn bank_or_here(here: Location, banks: BankRange, line: &Line<'_>) -> Operation
    ensures { result ≡ bank_or_here here banks (arguments_of line.now) }
{
    match line.operand {
        None => Operation::Bank(BankRange::All, bank_at(here)),
        Some(_) => Operation::Bank(banks, bank_in(line)),
    }
}

// The bank of a location.
fn bank_at(here: Location) -> Numeral
    ensures { result ≡ bank_at here }
{
    match here {
        Location::Erasable(_) => Numeral::NoForm,
        Location::Fixed(bank, _) => {
            Numeral::Is(Word::of_low_bits(u16::from(bank.bank().number())))
        }
    }
}
