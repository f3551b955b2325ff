//! The places of switched banks that the words of a program name.

ghost use Rattle.std.specs.Prelude.{◌≡◌, ◌<◌, IfOk, map};
ghost use Rattle.agc_text.specs.Lines.{lines};
ghost use Rattle.rope.specs.Places.{place_number};
ghost use Rattle.yayul.specs.Named.{content_names, given_in, holds_address, is_switched_bank, is_switched_cell};
ghost use Rattle.yayul.specs.Named.{line_named, named_at, named_words, nothing_named, operand_names, operation_names};
ghost use Rattle.yayul.specs.Named.{switched_of};
ghost use Rattle.yayul.specs.Inside.Names.{shown_named};
ghost use Rattle.yayul.specs.Inside.Representation.{shown_by_mark};

use crate::faults::FaultKind;
use crate::flight::flight_statement;
use crate::language::{Content, Language, Location, Operand, Operation, Takes};
use crate::listing::first_word;
use crate::mark::Mark;
use crate::statement::statement_of;
use crate::values::value_of;
use agc_text::next_line;
use space::{Bank, Eras, Linear, Offset};
use std::alloc::{AllocError, Global};
use std::marker::Model;
use symbols::{FixedBank, Symbols, Value};

/// How many words a bank holds.
const BANK_WORDS: usize = space::BANK_WORDS as usize;

/// The first erasable place that EB switches.
const FIRST_SWITCHED: u16 = 0o1400;

/// How many places of fixed memory there are, those of the banks 044 to 047 included.
const NAMED_WORDS: usize = 0o50 * BANK_WORDS;

/// The places of switched banks that the words of a program name: those of the operands whose addresses stand in their
/// fields.
#[derive(Drop)]
pub struct NamedPlaces {
    // For each place of fixed memory by its number.
    places: Vec<Option<Linear>>,
}

impl Model for NamedPlaces {
    ghost use Rattle.std.specs.Prelude.{◌≡◌, vec_len};
    ghost use Rattle.yayul.specs.Named.{Named, named_words};

    ghost Value = { Named };

    ghost view = { λ n. n.places.items };

    ghost invariant = { λ n. vec_len n.places ≡ named_words };
}

impl NamedPlaces {
    /// No word names a place. All memory is taken here, and an `Err` is that it ran out.
    pub fn nothing(alloc: Global) -> Result<NamedPlaces, AllocError>
        ensures { IfOk result (λ named. named ≡ nothing_named) }
    {
        let mut places = Vec::with_capacity(alloc, NAMED_WORDS)?;
        places.resize(NAMED_WORDS, None)?;
        Ok(NamedPlaces { places })
    }

    /// The place that the word at a place names.
    pub fn named_at(&self, bank: Bank, offset: Offset) -> Option<Linear>
        ensures { result ≡ named_at self.now bank offset }
    {
        self.places[word_number(bank, offset)]
    }

    /// What the words of some lines of a language name, each by what it shows.
    pub(crate) fn of_lines(
        alloc: Global,
        language: Language,
        symbols: &Symbols,
        source: &[u8],
        marks: &[Mark],
    ) -> Result<NamedPlaces, AllocError>
        ensures { IfOk result (λ named. named
            ≡ shown_named language symbols.now nothing_named (lines source.now) (map shown_by_mark marks.now)) }
    {
        let mut named = NamedPlaces::nothing(alloc)?;
        let mut rest = source;
        for mark in marks {
            let Some((text, after)) = next_line(rest) else {
                return Ok(named);
            };
            named.pass(language, symbols, text, mark);
            rest = after;
        }
        Ok(named)
    }

    // Holds what the word of a line names.
    fn pass(&mut self, language: Language, symbols: &Symbols, text: &[u8], mark: &Mark)
        ensures { self.new ≡ line_named symbols.now self.old (shown_by_mark mark.now) (given_in language text.now) }
    {
        if let Some((bank, offset)) = first_word(mark) {
            let place = operation_names(symbols, &given_in(language, text));
            self.places[word_number(bank, offset)] = place;
        }
    }
}

// What a line gives in a language, which is the same wherever the line stands.
fn given_in(language: Language, text: &[u8]) -> Operation
    ensures { result ≡ given_in language text.now }
{
    match language {
        Language::Standard => statement_of(text).operation,
        Language::Flight => {
            flight_statement(Location::Fixed(FixedBank::two(), 0), text).operation
        }
    }
}

// The number of a place of fixed memory.
fn word_number(bank: Bank, offset: Offset) -> usize
    ensures value { result ≡ place_number bank offset }
    ensures range { result < named_words }
{
    usize::from(bank.number()) * BANK_WORDS + usize::from(offset.number())
}

// The place that the word of a line names.
fn operation_names(symbols: &Symbols, operation: &Operation) -> Option<Linear>
    ensures { result ≡ operation_names symbols.now operation.now }
{
    match operation {
        Operation::Gives(Some(content)) => content_names(symbols, content),
        _ => None,
    }
}

// The place that the word of a content names.
fn content_names(symbols: &Symbols, content: &Content) -> Option<Linear>
    ensures { result ≡ content_names symbols.now content.now }
{
    match content {
        Content::Addressed(instruction, operand) if holds_address(instruction.code().takes) => {
            operand_names(symbols, operand)
        }
        _ => None,
    }
}

// Whether a field holds the address of what an instruction reads, writes or jumps to.
fn holds_address(takes: Takes) -> bool
    ensures { result ≡ holds_address takes }
{
    match takes {
        Takes::Address | Takes::Pair | Takes::FixedAddress => true,
        Takes::Channel | Takes::ErasablePlace | Takes::FixedPlace => false,
    }
}

// The place that an operand names, moved by its offset. One that counts from its own line names none.
fn operand_names(symbols: &Symbols, operand: &Operand) -> Option<Linear>
    ensures { result ≡ operand_names symbols.now operand.now }
{
    let here = Location::Fixed(FixedBank::two(), 0);
    match value_of(FaultKind::Undefined, symbols, here, operand) {
        Ok(value) => switched_of(value),
        Err(_) => None,
    }
}

// The place of a switched bank that a value is.
fn switched_of(value: Value) -> Option<Linear>
    ensures { result ≡ switched_of value }
{
    match value {
        Value::Num(_) => None,
        Value::Erasable(place) => {
            if is_switched_cell(place) {
                Some(Linear::Erasable(place))
            } else {
                None
            }
        }
        Value::Fixed(bank, offset) => {
            if is_switched_bank(bank.bank()) {
                Some(Linear::Fixed(bank.bank(), offset))
            } else {
                None
            }
        }
    }
}

// Whether EB switches a place of erasable memory: those from 01400 on.
fn is_switched_cell(place: Eras) -> bool
    ensures { result ≡ is_switched_cell place }
{
    place.number() >= FIRST_SWITCHED
}

// Whether FB switches a bank of fixed memory: each but 2 and 3.
fn is_switched_bank(bank: Bank) -> bool
    ensures { result ≡ is_switched_bank bank }
{
    !(bank.number() == 2 || bank.number() == 3)
}
