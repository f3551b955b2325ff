//! The operators of the source language.

ghost use Rattle.std.specs.Prelude.{◌≡◌, ◌==◌, ◌≤◌, true, IfSome, filter, length, map};
ghost use Rattle.std.specs.Option.{SomeIff};
ghost use Rattle.agc_text.specs.Tables.{named, same_name, value_in};
ghost use Rattle.yayul.specs.Operators.{operators, operator_rows, is_bank, field_size, bits_under};
ghost use Rattle.yayul.specs.Flight.{flight_operator, flight_operators, flight_rows};
ghost use Rattle.yayul.specs.Roles.{is_operator_of, names_of_length, role_in, role_of};
ghost use Rattle.yayul.specs.Language.{Standard};
ghost use Rattle.yayul.specs.Words.{extracode_fault};
ghost use Rattle.yayul.specs.Inside.Codes.{has_room, flight_has_room};
ghost use Rattle.yayul.specs.Inside.LinesRead.{operator_named};

use crate::faults::FaultKind;
use crate::language::{
    AddressedCode, BankRange, Bits, Extracode, FlightOperator, Language, Operator, PlainCode,
    Precision, Takes,
};
use crate::role::Role;
use arrayvec::ArrayVec;
use symbols::FixedBank;

impl Extracode {
    /// The fault of a word where extracode is in force or is not.
    pub(crate) fn fault(self, in_force: bool) -> Option<FaultKind>
        ensures { result ≡ extracode_fault self in_force }
    {
        match self {
            Extracode::No => FaultKind::NotExtracode.when(in_force),
            Extracode::Yes => FaultKind::NeedsExtend.when(!in_force),
            Extracode::Either => None,
        }
    }
}

impl Bits {
    /// The bits of a field; a code of both tables has 12 under extracode.
    pub(crate) fn under(self, extracode: Extracode, in_force: bool) -> Bits
        ensures { result ≡ bits_under extracode self in_force }
    {
        match extracode {
            Extracode::Either if in_force => Bits::Twelve,
            _ => self,
        }
    }

    /// How many numbers so many bits tell apart.
    pub(crate) fn size(self) -> u16
        ensures value { result ≡ field_size self }
        ensures some { 1 ≤ result }
        ensures few { result ≤ 0o10000 }
    {
        match self {
            Bits::Nine => 0o1000,
            Bits::Ten => 0o2000,
            Bits::Twelve => 0o10000,
        }
    }
}

impl BankRange {
    /// The number as a bank, where the operator takes it.
    pub(crate) fn bank(self, number: u16) -> Option<FixedBank>
        ensures { SomeIff result (is_bank self number ≡ true) number }
    {
        match self {
            BankRange::All => FixedBank::try_new(number),
            BankRange::TwoOrThree if number == 2 || number == 3 => FixedBank::try_new(number),
            BankRange::TwoOrThree => None,
        }
    }
}

// An instruction without an operand: its code, and whether it is an extracode.
macro_rules! plain {
    ($code:literal, $extracode:ident) => {
        Operator::Plain(PlainCode {
            code: $code,
            extracode: Extracode::$extracode,
            extends: false,
        })
    };
}

// A basic instruction without an operand that puts extracode in force.
macro_rules! extend {
    ($code:literal) => {
        Operator::Plain(PlainCode {
            code: $code,
            extracode: Extracode::No,
            extends: true,
        })
    };
}

// A code with a field: the least code, the bits of an address or a channel, whether it is an extracode, and what the
// field holds.
macro_rules! code {
    ($least:literal, $bits:ident, $extracode:ident, $takes:ident) => {
        AddressedCode {
            least: $least,
            bits: Bits::$bits,
            extracode: Extracode::$extracode,
            takes: Takes::$takes,
        }
    };
}

macro_rules! addressed {
    ($least:literal, $bits:ident, $extracode:ident, $takes:ident) => {
        Operator::Addressed(code!($least, $bits, $extracode, $takes))
    };
}

// A constant of an address or a place, which is the whole word.
macro_rules! constant {
    ($takes:ident) => {
        addressed!(0o0, Twelve, No, $takes)
    };
}

macro_rules! to_next {
    ($least:literal, $bits:ident, $extracode:ident, $takes:ident) => {
        Operator::ToNext(code!($least, $bits, $extracode, $takes))
    };
}

// The complement of a basic code with a field.
macro_rules! complement {
    ($least:literal, $bits:ident, $takes:ident) => {
        FlightOperator::Complemented(code!($least, $bits, No, $takes))
    };
}

// A row: a name, what it says, and what it is.
macro_rules! row {
    ($name:literal, $says:expr, $role:ident) => {
        ($name, ($says, Role::$role))
    };
}

/// How many operators have names of one length, at most.
pub const MOST_NAMES: usize = 22;

// Each operator by its name, with what it says and what it is, in a table for each length of names.
const ROWS_OF_ONE: [(&str, (Operator, Role)); 1] = [row!("=", Operator::Equals, Equals)];

const ROWS_OF_TWO: [(&str, (Operator, Role)); 10] = [
    row!("TC", addressed!(0o0, Twelve, No, Address), Call),
    row!("CA", addressed!(0o30000, Twelve, No, Address), Read),
    row!("CS", addressed!(0o40000, Twelve, No, Address), Read),
    row!("TS", addressed!(0o54000, Ten, No, Address), Transfer),
    row!("AD", addressed!(0o60000, Twelve, No, Address), Read),
    row!("DV", addressed!(0o10000, Ten, Yes, Address), Divide),
    row!("SU", addressed!(0o60000, Ten, Yes, Address), Subtract),
    row!("MP", addressed!(0o70000, Twelve, Yes, Address), Multiply),
    row!("ZL", plain!(0o22007, No), ChangeL),
    row!("ZQ", plain!(0o22007, Yes), Implied),
];

const ROWS_OF_THREE: [(&str, (Operator, Role)); 22] = [
    row!("OCT", Operator::Octal, Octal),
    row!("DEC", Operator::Decimal, Decimal),
    row!("TCR", addressed!(0o0, Twelve, No, Address), Call),
    row!("CCS", addressed!(0o10000, Ten, No, Address), Count),
    row!("TCF", addressed!(0o10000, Twelve, No, FixedAddress), Jump),
    row!("DAS", addressed!(0o20000, Ten, No, Pair), ModifyPair),
    row!("ADS", addressed!(0o26000, Ten, No, Address), Accumulate),
    row!("CAE", addressed!(0o30000, Ten, No, Address), ReadErasable),
    row!(
        "CAF",
        addressed!(0o30000, Twelve, No, FixedAddress),
        ReadFixed
    ),
    row!("NDX", addressed!(0o50000, Ten, Either, Address), Index),
    row!("XCH", addressed!(0o56000, Ten, No, Address), ExchangeA),
    row!("MSK", addressed!(0o70000, Twelve, No, Address), Read),
    row!("ROR", addressed!(0o4000, Nine, Yes, Channel), ReadChannel),
    row!(
        "WOR",
        addressed!(0o5000, Nine, Yes, Channel),
        CombineChannel
    ),
    row!(
        "BZF",
        addressed!(0o10000, Twelve, Yes, FixedAddress),
        Branch
    ),
    row!("MSU", addressed!(0o20000, Ten, Yes, Address), ReadCounter),
    row!("AUG", addressed!(0o24000, Ten, Yes, Address), Modify),
    row!("DIM", addressed!(0o26000, Ten, Yes, Address), Modify),
    row!("DCA", addressed!(0o30000, Twelve, Yes, Pair), ReadPair),
    row!("DCS", addressed!(0o40000, Twelve, Yes, Pair), ReadPair),
    row!("XLQ", plain!(0o1, No), Leave),
    row!("COM", plain!(0o40000, No), ChangeA),
];

const ROWS_OF_FOUR: [(&str, (Operator, Role)); 18] = [
    row!("BANK", Operator::Bank(BankRange::All), Bank),
    row!("CADR", constant!(FixedPlace), FixedAddress),
    row!("LXCH", addressed!(0o22000, Ten, No, Address), ExchangeL),
    row!("INCR", addressed!(0o24000, Ten, No, Address), Modify),
    row!("DXCH", addressed!(0o52000, Ten, No, Pair), StorePair),
    row!("MASK", addressed!(0o70000, Twelve, No, Address), Read),
    row!("READ", addressed!(0o0, Nine, Yes, Channel), ReadChannel),
    row!("RAND", addressed!(0o2000, Nine, Yes, Channel), ReadChannel),
    row!(
        "WAND",
        addressed!(0o3000, Nine, Yes, Channel),
        CombineChannel
    ),
    row!("RXOR", addressed!(0o6000, Nine, Yes, Channel), ReadChannel),
    row!("QXCH", addressed!(0o22000, Ten, Yes, Address), ExchangeQ),
    row!(
        "BZMF",
        addressed!(0o60000, Twelve, Yes, FixedAddress),
        Branch
    ),
    row!("DTCF", plain!(0o52005, No), LeaveBank),
    row!("DTCB", plain!(0o52006, No), LeaveBank),
    row!("OVSK", plain!(0o54000, No), Skip),
    row!("TCAA", plain!(0o54005, No), Leave),
    row!("DCOM", plain!(0o40001, Yes), ChangeBoth),
    row!("NOOP", to_next!(0o10000, Twelve, No, FixedAddress), Idle),
];

const ROWS_OF_FIVE: [(&str, (Operator, Role)); 9] = [
    row!("BLOCK", Operator::Bank(BankRange::TwoOrThree), Block),
    row!("ERASE", Operator::Erase, Erase),
    row!("ADRES", constant!(Address), Address),
    row!("ECADR", constant!(ErasablePlace), ErasableAddress),
    row!("FCADR", constant!(FixedPlace), FixedAddress),
    row!("2CADR", Operator::FarAddress, FarAddress),
    row!("INDEX", addressed!(0o50000, Ten, Either, Address), Index),
    row!(
        "WRITE",
        addressed!(0o1000, Nine, Yes, Channel),
        WriteChannel
    ),
    row!("XXALQ", plain!(0o0, No), Leave),
];

const ROWS_OF_SIX: [(&str, (Operator, Role)); 11] = [
    row!("SETLOC", Operator::Setloc, Setloc),
    row!("EQUALS", Operator::Equals, Equals),
    row!("EBANK=", Operator::Ebank, Ebank),
    row!("RELINT", plain!(0o3, No), Release),
    row!("INHINT", plain!(0o4, No), Implied),
    row!("EXTEND", extend!(0o6), Implied),
    row!("RESUME", plain!(0o50017, No), Resume),
    row!("RETURN", plain!(0o2, No), Return),
    row!("DDOUBL", plain!(0o20001, No), ChangeBoth),
    row!("DOUBLE", plain!(0o60000, No), ChangeA),
    row!("SQUARE", plain!(0o70000, Yes), ChangeBoth),
];

// Each operator that the standard language lacks, or has with fewer forms, in a table for each length of names.
const FLIGHT_ROWS_OF_ONE: [(&str, (FlightOperator, Role)); 1] = [row!(
    "=",
    FlightOperator::Equals,
    Equals
)];

const FLIGHT_ROWS_OF_TWO: [(&str, (FlightOperator, Role)); 1] = [row!(
    "VN",
    FlightOperator::VerbNoun,
    VerbNoun
)];

const FLIGHT_ROWS_OF_THREE: [(&str, (FlightOperator, Role)); 3] = [
    row!("OCT", FlightOperator::Octal, Octal),
    row!("DEC", FlightOperator::Decimal(Precision::One), Decimal),
    row!("CAF", FlightOperator::ReadFixed, ReadFixed),
];

const FLIGHT_ROWS_OF_FOUR: [(&str, (FlightOperator, Role)); 5] = [
    row!("BANK", FlightOperator::Bank(BankRange::All), Bank),
    row!("2OCT", FlightOperator::Octals, OctalPair),
    row!("2DEC", FlightOperator::Decimal(Precision::Two), DecimalPair),
    row!("DEC*", FlightOperator::Decimal(Precision::One), Decimal),
    row!("-CCS", complement!(0o10000, Ten, Address), CountComplement),
];

const FLIGHT_ROWS_OF_FIVE: [(&str, (FlightOperator, Role)); 7] = [
    row!("BLOCK", FlightOperator::Bank(BankRange::TwoOrThree), Block),
    row!("COUNT", FlightOperator::PassedOver, Ignored),
    row!("SUBRO", FlightOperator::PassedOver, Ignored),
    row!("OCTAL", FlightOperator::Octal, Octal),
    row!(
        "2DEC*",
        FlightOperator::Decimal(Precision::Two),
        DecimalPair
    ),
    row!("BBCON", FlightOperator::BankWord, BankConstant),
    row!(
        "-CADR",
        complement!(0o0, Twelve, FixedPlace),
        FixedComplement
    ),
];

const FLIGHT_ROWS_OF_SIX: [(&str, (FlightOperator, Role)); 15] = [
    row!("EQUALS", FlightOperator::Equals, Equals),
    row!("COUNT*", FlightOperator::PassedOver, Ignored),
    row!("BNKSUM", FlightOperator::PassedOver, Ignored),
    row!("MEMORY", FlightOperator::PassedOver, Ignored),
    row!("CHECK=", FlightOperator::PassedOver, Ignored),
    row!("-2CADR", FlightOperator::FarComplement, FarComplement),
    row!(
        "GENADR",
        FlightOperator::Standard(constant!(Address)),
        Address
    ),
    row!(
        "REMADR",
        FlightOperator::Standard(constant!(Address)),
        Address
    ),
    row!(
        "1DNADR",
        FlightOperator::Standard(constant!(ErasablePlace)),
        Downlist
    ),
    row!(
        "2DNADR",
        FlightOperator::Standard(addressed!(0o4000, Twelve, No, ErasablePlace)),
        Downlist
    ),
    row!(
        "3DNADR",
        FlightOperator::Standard(addressed!(0o10000, Twelve, No, ErasablePlace)),
        Downlist
    ),
    row!(
        "4DNADR",
        FlightOperator::Standard(addressed!(0o14000, Twelve, No, ErasablePlace)),
        Downlist
    ),
    row!(
        "5DNADR",
        FlightOperator::Standard(addressed!(0o20000, Twelve, No, ErasablePlace)),
        Downlist
    ),
    row!(
        "6DNADR",
        FlightOperator::Standard(addressed!(0o24000, Twelve, No, ErasablePlace)),
        Downlist
    ),
    row!(
        "DNCHAN",
        FlightOperator::Standard(addressed!(0o34000, Nine, No, Channel)),
        DownlistChannel
    ),
];

const FLIGHT_ROWS_OF_SEVEN: [(&str, (FlightOperator, Role)); 8] = [
    row!("-GENADR", complement!(0o0, Twelve, Address), Address),
    row!("-1DNADR", complement!(0o0, Twelve, ErasablePlace), Downlist),
    row!(
        "-2DNADR",
        complement!(0o4000, Twelve, ErasablePlace),
        Downlist
    ),
    row!(
        "-3DNADR",
        complement!(0o10000, Twelve, ErasablePlace),
        Downlist
    ),
    row!(
        "-4DNADR",
        complement!(0o14000, Twelve, ErasablePlace),
        Downlist
    ),
    row!(
        "-5DNADR",
        complement!(0o20000, Twelve, ErasablePlace),
        Downlist
    ),
    row!(
        "-6DNADR",
        complement!(0o24000, Twelve, ErasablePlace),
        Downlist
    ),
    row!(
        "-DNCHAN",
        complement!(0o34000, Nine, Channel),
        DownlistChannel
    ),
];

/// The operator of a name in the language of flight programs.
#[tactic(auto, using(crate::proofs::Codes::own_or_standard, crate::proofs::Codes::flight_fits))]
pub(crate) fn flight_operator_of(name: &[u8]) -> Option<FlightOperator>
    ensures value { result ≡ flight_operator name.now }
    ensures fits { IfSome result (λ operator. flight_has_room operator ≡ true) }
{
    match own_operator_of(name) {
        Some(operator) => Some(operator),
        None => match operator_of(name) {
            Some(operator) => Some(FlightOperator::Standard(operator)),
            None => None,
        },
    }
}

// The operator of a name that the standard language lacks, or has with fewer forms.
fn own_operator_of(name: &[u8]) -> Option<FlightOperator>
    ensures value { result ≡ value_in flight_operators name.now }
    ensures fits { IfSome result (λ operator. flight_has_room operator ≡ true) }
{
    match own_row_of(name) {
        Some((operator, _)) => Some(operator),
        None => None,
    }
}

/// The operator of a name.
pub(crate) fn operator_of(name: &[u8]) -> Option<Operator>
    ensures value { result ≡ value_in operators name.now }
    ensures fits { IfSome result (λ operator. has_room operator ≡ true) }
{
    match row_of(name) {
        Some((operator, _)) => Some(operator),
        None => None,
    }
}

/// What an operator of a language says, and what it is, by its name.
pub(crate) fn operator_and_role(
    language: Language,
    name: &[u8],
) -> (Option<FlightOperator>, Option<Role>)
    ensures operator { result.0 ≡ operator_named language name.now }
    ensures role { result.1 ≡ role_of language name.now }
    ensures fits { IfSome result.0 (λ operator. flight_has_room operator ≡ true) }
{
    match language {
        Language::Standard => standard_operator_and_role(name),
        Language::Flight => (flight_operator_of(name), role_of(language, name)),
    }
}

// The same in the standard language.
fn standard_operator_and_role(name: &[u8]) -> (Option<FlightOperator>, Option<Role>)
    ensures operator { result.0 ≡ operator_named Standard name.now }
    ensures role { result.1 ≡ role_of Standard name.now }
    ensures fits { IfSome result.0 (λ operator. flight_has_room operator ≡ true) }
{
    match row_of(name) {
        Some((operator, role)) => (Some(FlightOperator::Standard(operator)), Some(role)),
        None => (None, None),
    }
}

/// An operator's name in a language.
pub fn is_operator(language: Language, name: &[u8]) -> bool
    ensures { result ≡ is_operator_of language name.now }
{
    role_of(language, name).is_some()
}

/// What an operator of a language is, by its name.
pub(crate) fn role_of(language: Language, name: &[u8]) -> Option<Role>
    ensures { result ≡ role_of language name.now }
{
    match (standard_role_of(name), language) {
        (Some(role), _) => Some(role),
        (None, Language::Standard) => None,
        (None, Language::Flight) => own_role_of(name),
    }
}

/// The names of the operators that have so many characters.
pub fn operator_names(count: usize) -> ArrayVec<&'static str, MOST_NAMES>
    ensures { map (λ name. name.now) result.items ≡ names_of_length count }
{
    let mut names = ArrayVec::new();
    let rows = rows_of_length(count);
    for (name, _) in rows {
        names.push(*name);
    }
    names
}

// What an operator of the standard language is.
fn standard_role_of(name: &[u8]) -> Option<Role>
    ensures { result ≡ role_in operator_rows name.now }
{
    match row_of(name) {
        Some((_, role)) => Some(role),
        None => None,
    }
}

// What an operator is that the standard language lacks, or has with fewer forms.
fn own_role_of(name: &[u8]) -> Option<Role>
    ensures { result ≡ role_in flight_rows name.now }
{
    match own_row_of(name) {
        Some((_, role)) => Some(role),
        None => None,
    }
}

// The row of a name that the standard language lacks, or has with fewer forms.
fn own_row_of(name: &[u8]) -> Option<(FlightOperator, Role)>
    ensures { result ≡ value_in flight_rows name.now }
{
    find_row(flight_rows_of_length(name.len()), name)
}

// The rows of those whose names have so many characters.
#[tactic(auto, unfolding(crate::specs::Flight::flight_rows))]
fn flight_rows_of_length(count: usize) -> &'static [(&'static str, (FlightOperator, Role))]
    ensures { named result.now ≡ filter (λ row. length row.0 == count) flight_rows }
{
    match count {
        1 => &FLIGHT_ROWS_OF_ONE,
        2 => &FLIGHT_ROWS_OF_TWO,
        3 => &FLIGHT_ROWS_OF_THREE,
        4 => &FLIGHT_ROWS_OF_FOUR,
        5 => &FLIGHT_ROWS_OF_FIVE,
        6 => &FLIGHT_ROWS_OF_SIX,
        7 => &FLIGHT_ROWS_OF_SEVEN,
        _ => &[],
    }
}

// The row of a name.
fn row_of(name: &[u8]) -> Option<(Operator, Role)>
    ensures { result ≡ value_in operator_rows name.now }
{
    find_row(rows_of_length(name.len()), name)
}

// The rows of the operators whose names have so many characters.
#[tactic(auto, unfolding(crate::specs::Operators::operator_rows))]
fn rows_of_length(count: usize) -> &'static [(&'static str, (Operator, Role))]
    ensures rows { named result.now ≡ filter (λ row. length row.0 == count) operator_rows }
    ensures few { length result.now ≤ MOST_NAMES }
{
    match count {
        1 => &ROWS_OF_ONE,
        2 => &ROWS_OF_TWO,
        3 => &ROWS_OF_THREE,
        4 => &ROWS_OF_FOUR,
        5 => &ROWS_OF_FIVE,
        6 => &ROWS_OF_SIX,
        _ => &[],
    }
}

// What stands beside a name.
fn find_row<T: Copy>(table: &[(&str, T)], name: &[u8]) -> Option<T>
    ensures { result ≡ value_in (named table.now) name.now }
{
    for (text, row) in table {
        if is_same_name(name, text.as_bytes()) {
            return Some(*row);
        }
    }
    None
}

// Whether two names have the same bytes: most differ in the first, and no further one is looked at.
fn is_same_name(name: &[u8], other: &[u8]) -> bool
    ensures { result ≡ same_name name.now other.now }
{
    match name {
        [first, ..] => match other {
            [first_of_other, ..] => *first == *first_of_other && has_same_bytes(name, other),
            [] => false,
        },
        [] => other.is_empty(),
    }
}

// Whether two names have the same bytes, all of which are looked at.
fn has_same_bytes(name: &[u8], other: &[u8]) -> bool
    ensures { result ≡ same_name name.now other.now }
{
    name == other
}
