//! What the address words of a line name.

ghost use Rattle.std.specs.Prelude.{◌≡◌, ◌<◌, ◌≤◌};
ghost use Rattle.std.specs.Option.{option_map};
ghost use Rattle.agc_text.specs.Views.{piece};
ghost use Rattle.space.specs.declared.place.Linear.TheVariants as linear;
ghost use Rattle.space.specs.Places.{fb_of, sup_of};
ghost use Rattle.yayul.specs.Readings.{parts_in};
ghost use Rattle.addressed.specs.Words.{bank_of, fixed_in, has_superbank, in_bank, named_by, operand_bank, place_at};
ghost use Rattle.addressed.specs.Words.{told_by, uncomplemented};

use agc_text::Field;
use space::resolve::{banks_of, resolve};
use space::{Addr12, Bank, Banks, Linear, Offset};
use symbols::{Symbols, Value};
use words::Word;
use yayul::{Reading, Role};

/// How many words a bank holds: the first address of fixed memory, too.
const BANK_WORDS: u16 = 0o2000;

/// The superbank bit in a word of FB and EB.
const SUPERBANK: u16 = 0o100;

/// The first and the second word of a line, and the place of the first.
#[derive(Clone, Copy)]
pub(crate) struct LineWords {
    pub(crate) bank: Bank,
    pub(crate) offset: Offset,
    pub(crate) first: Word,
    pub(crate) second: Word,
}

/// The place that the words of a line name.
pub(crate) fn named_by(
    symbols: &Symbols,
    reading: &Reading<'_>,
    words: LineWords,
) -> Option<(Bank, Offset)>
    ensures { result ≡ named_by symbols.now (parts_in reading.now) (linear.Fixed words.bank words.offset)
        words.first words.second }
{
    let operator = reading.operator?;
    let role = reading.role?;
    let told = LineWords {
        first: uncomplemented(operator.text, words.first),
        second: uncomplemented(operator.text, words.second),
        ..words
    };
    let place = told_by(role, told)?;
    Some(in_bank(operand_bank(symbols, reading.operand), place))
}

// The place that the words of a line name by themselves.
fn told_by(role: Role, words: LineWords) -> Option<(Bank, Offset)>
    ensures { result ≡ told_by role (linear.Fixed words.bank words.offset) words.first words.second }
{
    match role {
        Role::Address => {
            let own = banks_of(Linear::Fixed(words.bank, words.offset));
            place_at(words.first.to_u16(), own.fb, own.sup)
        }
        Role::FixedAddress | Role::FixedComplement => {
            let word = words.first.to_u16();
            place_at(BANK_WORDS + word % BANK_WORDS, word / BANK_WORDS, false)
        }
        Role::FarAddress | Role::FarComplement => {
            let second = words.second.to_u16();
            place_at(
                words.first.to_u16(),
                second / BANK_WORDS,
                has_superbank(second),
            )
        }
        _ => None,
    }
}

// The place to which an address leads where FB and the superbank bit are such.
fn place_at(address: u16, fb: u16, sup: bool) -> Option<(Bank, Offset)>
    requires { fb < 0o40 }
    ensures { result ≡ place_at address fb sup }
{
    match resolve(Addr12::of_low_bits(address), Banks { eb: 0, fb, sup }) {
        Linear::Erasable(_) => None,
        Linear::Fixed(bank, offset) => Some((bank, offset)),
    }
}

// Whether a word of FB and EB has the superbank bit.
fn has_superbank(word: u16) -> bool
    ensures { result ≡ has_superbank word }
{
    word / SUPERBANK % 2 == 1
}

// A word before an operator complemented it, if it does.
fn uncomplemented(operator: &[u8], word: Word) -> Word
    ensures { result ≡ uncomplemented operator.now word }
{
    if operator.first() == Some(&b'-') {
        word.neg()
    } else {
        word
    }
}

// The bank of the symbol that is an operand, where this stands for a place of fixed memory.
fn operand_bank(symbols: &Symbols, operand: Option<Field<'_>>) -> Option<Bank>
    ensures { result ≡ operand_bank symbols.now (option_map piece operand.entry) }
{
    let name = operand?.text;
    match symbols.symbol(name) {
        Some(value) => bank_of(value),
        None => None,
    }
}

// The bank of a symbol that stands for a place of fixed memory.
fn bank_of(value: Value) -> Option<Bank>
    ensures { result ≡ bank_of value }
{
    match value {
        Value::Num(_) => None,
        Value::Erasable(_) => None,
        Value::Fixed(bank, _) => Some(bank.bank()),
    }
}

// The place with another bank, where there is one.
fn in_bank(bank: Option<Bank>, place: (Bank, Offset)) -> (Bank, Offset)
    ensures { result ≡ in_bank bank place }
{
    match bank {
        Some(bank) => (bank, place.1),
        None => place,
    }
}
