//! The rows of a listing, each with the place of its word before it.

ghost use Rattle.std.specs.Prelude.{◌≡◌, ◌+◌, ◌-◌, ◌<◌, ◌≤◌, IfSome, Some, length, drop};
ghost use Rattle.agc_text.specs.Lines.{lines};
ghost use Rattle.yayul.specs.Listing.{number_column};
ghost use Rattle.yayul.specs.PlaceMargin.{front_length, is_second, place_before, place_margin, placed_rows, text_on};

use crate::margin::Margin;
use crate::source_rows::SourceRows;
use arrayvec::ArrayVec;
use json_text::Notation;
use rope::Rope;
use space::{Bank, Offset};
use std::alloc::Global;
use words::{Buffer, Write, WriteFailed, push_decimal, write_all};

/// How many places the number of a line has at least.
const NUMBER_PLACES: usize = 5;

/// What stands before a row without a word.
const NO_PLACE: &[u8] = b"---";

/// The least byte of a place.
const LEAST: u8 = 0o100;

/// The place of the word of a row, as three bytes.
pub struct PlaceMargin;

impl Margin for PlaceMargin {
    ghost use Rattle.yayul.specs.PlaceMargin.{place_margin};

    ghost text = { λ _. place_margin };

    fn write<W: Write>(
        &self,
        word: Option<(Bank, Offset)>,
        writer: &mut W,
    ) -> Result<(), WriteFailed> {
        match word {
            Some((bank, offset)) => write_all(writer, &margin_at(bank, offset)),
            None => write_all(writer, NO_PLACE),
        }
    }
}

/// The rows of a source, each after its place. `None` is that memory ran out.
#[tactic(auto, unfolding(crate::specs::PlaceMargin::placed_rows))]
pub fn placed_rows(alloc: Global, rows: &SourceRows, rope: &Rope) -> Option<Buffer>
    ensures { IfSome result (λ listing. lines listing.written ≡ placed_rows rows.now rope.now) }
{
    let mut listing = Buffer::new(alloc);
    match rows.write(Notation::Text, rope, &PlaceMargin, &mut listing) {
        Ok(()) => Some(listing),
        Err(_) => None,
    }
}

// The three bytes of a place.
fn margin_at(bank: Bank, offset: Offset) -> [u8; 3]
    ensures { result ≡ place_margin (Some (bank, offset)) }
{
    [
        LEAST + bank.number() as u8,
        LEAST + (offset.number() / 0o40) as u8,
        LEAST + (offset.number() % 0o40) as u8,
    ]
}

/// The bank and the offset before a row, where its word has them.
pub fn place_before(row: &[u8]) -> Option<(u16, u16)>
    ensures { result ≡ place_before row.now }
{
    if row.len() < 3 {
        return None;
    }
    if row[0] < LEAST {
        return None;
    }
    let high = u16::from(row[1].saturating_sub(LEAST));
    let low = u16::from(row[2].saturating_sub(LEAST));
    Some((u16::from(row[0] - LEAST), high * 0o40 + low))
}

/// Whether a row is that of the second word of a line of a number.
pub fn is_second(number: u64, row: &[u8]) -> bool
    ensures { result ≡ is_second number row.now }
{
    row.len() == front_length(number) && place_before(row).is_some()
}

/// The text of a line of a number, by its row.
pub fn text_on(number: u64, row: &[u8]) -> &[u8]
    ensures { result.now ≡ text_on number row.now }
{
    row.get(front_length(number) + 2..).unwrap_or(&[])
}

// How many bytes stand before the text of a line.
#[tactic(auto, using(words::proofs::Digits::short_decimal, crate::proofs::NumberColumn::column_long))]
fn front_length(number: u64) -> usize
    ensures value { result ≡ front_length number }
    ensures short { result ≤ 40 }
{
    let mut digits: ArrayVec<u8, 20> = ArrayVec::new();
    push_decimal(&mut digits, number);
    NUMBER_PLACES.saturating_sub(digits.len()) + digits.len() + 17
}
