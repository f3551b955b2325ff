//! The places that the address words of a source name.

ghost use Rattle.std.specs.Prelude.{◌≡◌, ◌+◌, ◌<◌, ◌≤◌, ◌^◌, [], IfOk, IfSome, OnOk};
ghost use Rattle.agc_text.specs.Lines.{lines};
ghost use Rattle.yayul.specs.Readings.{parts_in};
ghost use Rattle.addressed.specs.Places.{addressed, before_lines, named_at, named_on, row_passed, rows_passed};
ghost use Rattle.addressed.specs.Places.{with_place};

use crate::word::{LineWords, named_by};
use agc_text::next_line;
use rope::Rope;
use space::{Bank, Offset};
use std::alloc::{AllocError, Global};
use std::marker::Model;
use symbols::Symbols;
use yayul::{
    Language, Reading, SourceRows, is_second, place_before, placed_rows, reading_of, text_on,
};

/// The places of fixed memory that the address words of a source name, in the order of its lines.
#[derive(Drop)]
pub struct AddressedPlaces {
    places: Vec<(Bank, Offset)>,
}

impl Model for AddressedPlaces {
    ghost use Rattle.std.specs.Prelude.{List};
    ghost use Rattle.addressed.specs.Words.{Place};

    ghost Value = { List Place };

    ghost view = { λ a. a.places.items };
}

impl AddressedPlaces {
    /// Those of a source of a language, whose words stand in a fixed memory. `None` is that memory ran out.
    #[tactic(auto, unfolding(crate::specs::Places::addressed))]
    pub fn of(
        alloc: Global,
        language: Language,
        symbols: &Symbols,
        rows: &SourceRows,
        rope: &Rope,
    ) -> Option<AddressedPlaces>
        ensures { IfSome result (λ places. places ≡ addressed language symbols.now rows.now rope.now) }
    {
        let listing = placed_rows(alloc, rows, rope)?;
        match places_on(alloc, language, symbols, rope, listing.as_slice()) {
            Ok(places) => Some(AddressedPlaces { places }),
            Err(_) => None,
        }
    }

    /// None. Nothing is allocated.
    pub fn none(alloc: Global) -> AddressedPlaces
        ensures { result ≡ [] }
    {
        AddressedPlaces {
            places: Vec::new(alloc),
        }
    }

    /// Each by its bank and its offset.
    pub fn as_slice(&self) -> &[(Bank, Offset)]
        ensures { result.now ≡ self.now }
    {
        &self.places
    }
}

// Those of some rows.
fn places_on(
    alloc: Global,
    language: Language,
    symbols: &Symbols,
    rope: &Rope,
    listing: &[u8],
) -> Result<Vec<(Bank, Offset)>, AllocError>
    ensures { IfOk result (λ places. places.items
        ≡ (rows_passed language symbols.now rope.now before_lines (lines listing.now)).places) }
{
    let mut places = Vec::new(alloc);
    let mut line = 0;
    let mut rest = listing;
    while let Some((row, after)) = next_line(rest) {
        line = pass(&mut places, language, symbols, rope, line, row)?;
        rest = after;
    }
    Ok(places)
}

// Appends what a row names, after a line of a number, and answers the number of its own line.
#[tactic(auto, unfolding(crate::specs::Places::row_passed))]
fn pass(
    places: &mut Vec<(Bank, Offset)>,
    language: Language,
    symbols: &Symbols,
    rope: &Rope,
    line: u64,
    row: &[u8],
) -> Result<u64, AllocError>
    requires { line + 1 < 2 ^ 64 }
    ensures walk { IfOk result (λ number. record { line = number; places = places.new.items }
        ≡ row_passed language symbols.now rope.now (record { line = line; places = places.old.items }) row.now) }
    ensures number { IfOk result (λ number. number ≤ line + 1) }
{
    if is_second(line, row) {
        return Ok(line);
    }
    let next = line + 1;
    push_place(places, named_on(language, symbols, rope, next, row))?;
    Ok(next)
}

// Appends a place, if there is one.
fn push_place(
    places: &mut Vec<(Bank, Offset)>,
    place: Option<(Bank, Offset)>,
) -> Result<(), AllocError>
    ensures { OnOk result (places.new.items ≡ with_place places.old.items place) }
{
    match place {
        Some(place) => {
            places.push(place)?;
            Ok(())
        }
        None => Ok(()),
    }
}

// What the line of a number names, by its row.
fn named_on(
    language: Language,
    symbols: &Symbols,
    rope: &Rope,
    line: u64,
    row: &[u8],
) -> Option<(Bank, Offset)>
    ensures { result ≡ named_on language symbols.now rope.now line row.now }
{
    let (bank, offset) = place_before(row)?;
    named_at(
        symbols,
        rope,
        &reading_of(language, text_on(line, row)),
        bank,
        offset,
    )
}

// What the words of a line name, the first of which stands at a place.
fn named_at(
    symbols: &Symbols,
    rope: &Rope,
    reading: &Reading<'_>,
    bank: u16,
    offset: u16,
) -> Option<(Bank, Offset)>
    ensures { result ≡ named_at symbols.now rope.now (parts_in reading.now) (bank, offset) }
{
    let bank = Bank::try_new(bank)?;
    let offset = Offset::try_new(offset)?;
    let words = LineWords {
        bank,
        offset,
        first: rope.word(bank, offset),
        second: rope.word(bank, Offset::of_low_bits(offset.number() + 1)),
    };
    named_by(symbols, reading, words)
}
