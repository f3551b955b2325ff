//! What a source is made of: its operators, its operands and what its lines say.

use crate::instruction::{AddressedInstruction, PlainInstruction};
use space::Offset;
use symbols::{FixedBank, Name};
use words::Word;

/// The language of a source.
#[derive(Clone, Copy, PartialEq, Eq, Debug, Drop)]
pub enum Language {
    /// The language of this assembler.
    Standard,
    /// A larger one, with forms of flight programs.
    Flight,
}

/// Whether an instruction is an extracode.
#[derive(Clone, Copy, Drop)]
pub(crate) enum Extracode {
    /// A basic code, which extracode in force bars.
    No,
    /// A code that needs extracode in force.
    Yes,
    /// A code with and without extracode in force. Under extracode its field has 12 bits, and extracode stays in force.
    Either,
}

/// How many bits an address or a channel's number has.
#[derive(Clone, Copy, Drop)]
pub(crate) enum Bits {
    /// A channel's number.
    Nine,
    /// An address below 02000.
    Ten,
    /// An address.
    Twelve,
}

/// What the field of a code holds.
#[derive(Clone, Copy, Drop)]
pub(crate) enum Takes {
    /// An address of so many bits.
    Address,
    /// The address, of so many bits, of the first of two words; the field holds the next address, in the same bits.
    Pair,
    /// An address of fixed memory: from 02000 on.
    FixedAddress,
    /// A channel's number of so many bits.
    Channel,
    /// The number of an erasable place.
    ErasablePlace,
    /// A fixed place: the bank as FB holds it, and the offset.
    FixedPlace,
}

/// An instruction without an operand.
#[derive(Clone, Copy, Drop)]
pub(crate) struct PlainCode {
    /// The whole word.
    pub(crate) code: u16,
    pub(crate) extracode: Extracode,
    /// It puts extracode in force.
    pub(crate) extends: bool,
}

/// A code with a field: the least code, to which the field is added.
#[derive(Clone, Copy, Drop)]
pub(crate) struct AddressedCode {
    pub(crate) least: u16,
    pub(crate) bits: Bits,
    pub(crate) extracode: Extracode,
    pub(crate) takes: Takes,
}

/// The banks that an operator takes.
#[derive(Clone, Copy, Drop)]
pub(crate) enum BankRange {
    /// All banks of fixed memory.
    All,
    /// Banks 2 and 3.
    TwoOrThree,
}

/// What an operator does.
#[derive(Clone, Copy, Drop)]
pub(crate) enum Operator {
    /// Moves the location.
    Setloc,
    /// Moves the location past the words of a bank.
    Bank(BankRange),
    /// Passes erasable words.
    Erase,
    /// Gives its label the value of an operand.
    Equals,
    /// Sets the erasable bank of 2CADR.
    Ebank,
    /// Gives a word of octal digits.
    Octal,
    /// Gives the word of a decimal constant.
    Decimal,
    /// Gives the address of a fixed place, and a word of what selects it.
    FarAddress,
    /// Gives the word of an instruction without an operand.
    Plain(PlainCode),
    /// Gives the word of a code with an operand in its field.
    Addressed(AddressedCode),
    /// Gives the word of a code with the next location in its field.
    ToNext(AddressedCode),
}

/// How many words a constant has.
#[derive(Clone, Copy, Drop)]
pub(crate) enum Precision {
    One,
    Two,
}

/// What an operator of the language of flight programs does.
#[derive(Clone, Copy, Drop)]
pub(crate) enum FlightOperator {
    /// Makes no word, whatever fields follow.
    PassedOver,
    /// Gives its label the value of an operand, or of the location.
    Equals,
    /// Moves the location past the words of a bank, or of its own.
    Bank(BankRange),
    /// Gives a word of octal digits, which a sign may stand before.
    Octal,
    /// Gives two words of five octal digits each.
    Octals,
    /// Gives a word of a verb and a noun.
    VerbNoun,
    /// Gives the words of a decimal constant, which may have scales.
    Decimal(Precision),
    /// Gives the complement of the word of a code with an operand in its field.
    Complemented(AddressedCode),
    /// Gives the complements of the words of 2CADR.
    FarComplement,
    /// Gives the second word of 2CADR.
    BankWord,
    /// Gives the word of CAF, whose operand may be a number of any memory.
    ReadFixed,
    /// What an operator of the standard language does.
    Standard(Operator),
}

/// What a text is, read as a number.
#[derive(Clone, Copy, Drop)]
pub(crate) enum Numeral {
    /// It has no number's form.
    NoForm,
    /// A number above the greatest that may stand there.
    TooLarge,
    /// This number.
    Is(Word),
}

/// What an operand names, before it is moved.
#[derive(Drop)]
pub(crate) enum Term {
    /// A number, if it is at most 077777.
    Number(Option<Word>),
    /// A symbol.
    Named(Name),
    /// A place of a bank, by its number in a flight program.
    Place(FixedBank, Offset),
    /// The location before the line.
    Here,
}

/// So many places on or back, if the number is at most 077777.
#[derive(Clone, Copy, Drop)]
pub(crate) enum Shift {
    Plus(Option<Word>),
    Minus(Option<Word>),
}

/// An operand: what it names, moved.
#[derive(Drop)]
pub(crate) struct Operand {
    pub(crate) term: Term,
    pub(crate) shift: Shift,
}

/// The label of a line.
#[derive(Drop)]
pub(crate) enum Label {
    /// None stands.
    Missing,
    /// A field that has no name's form.
    Malformed,
    /// A name.
    Named(Name),
}

/// Two words, one after the other.
#[derive(Clone, Copy, Drop)]
pub(crate) struct DoubleWord {
    pub(crate) first: Word,
    pub(crate) second: Word,
}

/// What the words of a line are made of.
#[derive(Drop)]
pub(crate) enum Content {
    /// A constant, if it is in its range.
    Constant(Option<Word>),
    /// An instruction without an operand.
    Plain(PlainInstruction),
    /// A code and the operand of its field.
    Addressed(AddressedInstruction, Operand),
    /// Two words: the address of a fixed place, and what selects it.
    FarAddress(Operand),
    /// Two constants, if they are in their range.
    Constants(Option<DoubleWord>),
    /// The complement of the word of a code and the operand of its field.
    Complemented(AddressedInstruction, Operand),
    /// The complements of the address of a fixed place, and of what selects it.
    FarComplement(Operand),
    /// What selects a fixed place.
    BankWord(Operand),
}

/// What the fields besides the label say. An operand or a content that stands is of its form, and no further field
/// stands.
#[derive(Drop)]
pub(crate) enum Operation {
    /// No operator stands.
    Nothing,
    /// The operator is not in the language.
    Unknown,
    /// The location becomes that of an operand.
    Setloc(Option<Operand>),
    /// The location stands past the words of a bank.
    Bank(BankRange, Numeral),
    /// So many erasable words and one are passed.
    Erase(Numeral),
    /// The label has the value of an operand.
    Equals(Option<Operand>),
    /// The erasable bank of 2CADR becomes that of an operand.
    Ebank(Option<Operand>),
    /// Words stand from the location on.
    Gives(Option<Content>),
}

/// What a line says.
#[derive(Drop)]
pub(crate) struct Statement {
    pub(crate) label: Label,
    pub(crate) operation: Operation,
}

/// The location before a line: the place of the next word, or just past the end of erasable memory or of a bank.
#[derive(Clone, Copy, Drop)]
pub(crate) enum Location {
    /// An erasable place, 0 to 03777, or 04000 past the end.
    Erasable(u16),
    /// An offset of a bank, 0 to 01777, or 02000 past the end.
    Fixed(FixedBank, u16),
}
