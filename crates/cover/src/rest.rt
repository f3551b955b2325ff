//! What was executed where no word of the program stands, and what all steps took.

ghost use Rattle.std.specs.Prelude.{◌≡◌, ◌<◌, ◌≤◌, length, true};
ghost use Rattle.words.specs.Devices.{Writes, failures_after};
ghost use Rattle.cover.specs.CoverText.{bare_in, empty_row, empty_rows, empty_rows_of, end_rows, erasable_row};
ghost use Rattle.cover.specs.CoverText.{erasable_rows, figure_row, figures_in, rest_rows};
ghost use Rattle.rope.specs.Places.{bank_words};
ghost use Rattle.space.specs.Cells.{erasable_count};
ghost use Rattle.cover.specs.Tallies.{figures_at, selected_banks};

use crate::columns::figure_columns;
use crate::objects::{figure_object, place_object};
use crate::tally::{Figures, Tally};
use audit::offset_of;
use cpu::Account;
use json_text::Notation;
use rope::Rope;
use space::{BANK_WORDS, Bank, Eras, Linear, Offset};
use trace::{PlaceNames, place_text};
use words::{Write, WriteFailed, write_all};

/// How many erasable places there are.
const ERASABLE_PLACES: u16 = 0o4000;

/// How many banks FB and the superbank bit select.
const SELECTED_BANKS: u16 = 0o50;

/// Writes the places without a word of the program that were executed, then inputs, entries of interrupts and words
/// that RESUME brought, and then all steps.
pub(crate) fn write_rest<W: Write>(
    notation: Notation,
    names: &Option<PlaceNames>,
    tally: &Tally,
    total: Figures,
    rope: &Rope,
    out: &mut W,
) -> Result<(), WriteFailed>
    ensures written { W.told ≡ true → Writes (W.written out.old) (W.written out.new)
        (rest_rows notation names.now (figures_at tally.now) rope.now total) result }
    ensures failures { W.failures out.new ≡ failures_after (W.failures out.old) result }
{
    write_erasable(notation, names, tally, out)?;
    write_empty(notation, names, tally, rope, out)?;
    write_end(notation, tally, total, out)
}

/// Writes the erasable places that were executed.
fn write_erasable<W: Write>(
    notation: Notation,
    names: &Option<PlaceNames>,
    tally: &Tally,
    out: &mut W,
) -> Result<(), WriteFailed>
    ensures written { W.told ≡ true → Writes (W.written out.old) (W.written out.new)
        (erasable_rows notation names.now (figures_at tally.now)) result }
    ensures failures { W.failures out.new ≡ failures_after (W.failures out.old) result }
{
    for number in 0..ERASABLE_PLACES {
        write_erasable_at(notation, names, tally, erasable_of(number), out)?;
    }
    Ok(())
}

/// Writes the row of an erasable place, where it was executed.
#[tactic(auto, unfolding(crate::specs::CoverText::erasable_row))]
fn write_erasable_at<W: Write>(
    notation: Notation,
    names: &Option<PlaceNames>,
    tally: &Tally,
    place: Eras,
    out: &mut W,
) -> Result<(), WriteFailed>
    ensures written { W.told ≡ true → Writes (W.written out.old) (W.written out.new)
        (erasable_row notation names.now (figures_at tally.now) place) result }
    ensures failures { W.failures out.new ≡ failures_after (W.failures out.old) result }
{
    let figures = tally.figures(Account::Place(Linear::Erasable(place)));
    write_bare(notation, names, figures, Linear::Erasable(place), out)
}

/// Writes the places of fixed memory that were executed and where no word stands.
fn write_empty<W: Write>(
    notation: Notation,
    names: &Option<PlaceNames>,
    tally: &Tally,
    rope: &Rope,
    out: &mut W,
) -> Result<(), WriteFailed>
    ensures written { W.told ≡ true → Writes (W.written out.old) (W.written out.new)
        (empty_rows notation names.now (figures_at tally.now) rope.now) result }
    ensures failures { W.failures out.new ≡ failures_after (W.failures out.old) result }
{
    for number in 0..SELECTED_BANKS {
        write_empty_of(notation, names, tally, rope, bank_of(number), out)?;
    }
    Ok(())
}

/// The same of one bank.
fn write_empty_of<W: Write>(
    notation: Notation,
    names: &Option<PlaceNames>,
    tally: &Tally,
    rope: &Rope,
    bank: Bank,
    out: &mut W,
) -> Result<(), WriteFailed>
    ensures written { W.told ≡ true → Writes (W.written out.old) (W.written out.new)
        (empty_rows_of notation names.now (figures_at tally.now) rope.now bank) result }
    ensures failures { W.failures out.new ≡ failures_after (W.failures out.old) result }
{
    for number in 0..BANK_WORDS {
        write_empty_at(notation, names, tally, rope, bank, offset_of(number), out)?;
    }
    Ok(())
}

/// The same of one place.
#[tactic(auto, unfolding(crate::specs::CoverText::empty_row))]
fn write_empty_at<W: Write>(
    notation: Notation,
    names: &Option<PlaceNames>,
    tally: &Tally,
    rope: &Rope,
    bank: Bank,
    offset: Offset,
    out: &mut W,
) -> Result<(), WriteFailed>
    ensures written { W.told ≡ true → Writes (W.written out.old) (W.written out.new)
        (empty_row notation names.now (figures_at tally.now) rope.now bank offset) result }
    ensures failures { W.failures out.new ≡ failures_after (W.failures out.old) result }
{
    if rope.has(bank, offset) {
        return Ok(());
    }
    let figures = tally.figures(Account::Place(Linear::Fixed(bank, offset)));
    write_bare(notation, names, figures, Linear::Fixed(bank, offset), out)
}

/// Writes the row of a place, where it was executed.
#[tactic(auto, unfolding(crate::specs::CoverText::bare_row, crate::specs::CoverObjects::bare_object))]
fn write_bare<W: Write>(
    notation: Notation,
    names: &Option<PlaceNames>,
    figures: Figures,
    place: Linear,
    out: &mut W,
) -> Result<(), WriteFailed>
    ensures written { W.told ≡ true → Writes (W.written out.old) (W.written out.new)
        (bare_in notation names.now figures place) result }
    ensures failures { W.failures out.new ≡ failures_after (W.failures out.old) result }
{
    if figures.count == 0 {
        return Ok(());
    }
    match notation {
        Notation::Text => write_row(figures, place_text(place).as_slice(), out),
        Notation::Json => write_all(out, place_object(names, figures, &place).as_slice()),
    }
}

/// Writes what was executed at no place, and all steps.
fn write_end<W: Write>(
    notation: Notation,
    tally: &Tally,
    total: Figures,
    out: &mut W,
) -> Result<(), WriteFailed>
    ensures written { W.told ≡ true → Writes (W.written out.old) (W.written out.new)
        (end_rows notation (figures_at tally.now) total) result }
    ensures failures { W.failures out.new ≡ failures_after (W.failures out.old) result }
{
    write_figures(notation, tally.figures(Account::Input), b"INPUT", out)?;
    write_figures(notation, tally.figures(Account::Entry), b"ENTRY", out)?;
    write_figures(notation, tally.figures(Account::Waiting), b"BRUPT", out)?;
    write_figures(notation, total, b"TOTAL", out)
}

/// Writes figures, and what they are of.
fn write_figures<W: Write>(
    notation: Notation,
    figures: Figures,
    name: &[u8],
    out: &mut W,
) -> Result<(), WriteFailed>
    requires { length name.now ≤ 8 }
    ensures written { W.told ≡ true → Writes (W.written out.old) (W.written out.new)
        (figures_in notation figures name.now) result }
    ensures failures { W.failures out.new ≡ failures_after (W.failures out.old) result }
{
    match notation {
        Notation::Text => write_row(figures, name, out),
        Notation::Json => write_all(out, figure_object(figures, name).as_slice()),
    }
}

/// Writes a row: figures, and what they are of.
fn write_row<W: Write>(figures: Figures, name: &[u8], out: &mut W) -> Result<(), WriteFailed>
    ensures written { W.told ≡ true → Writes (W.written out.old) (W.written out.new) (figure_row figures name.now)
        result }
    ensures failures { W.failures out.new ≡ failures_after (W.failures out.old) result }
{
    write_all(out, figure_columns(figures).as_slice())?;
    write_all(out, name)?;
    write_all(out, b"\n")
}

/// The erasable place of a number.
fn erasable_of(number: u16) -> Eras
    requires { number < erasable_count }
    ensures { result ≡ number }
{
    Eras::try_new(number).unwrap()
}

/// The bank of a number.
fn bank_of(number: u16) -> Bank
    requires { number < selected_banks }
    ensures { result ≡ number }
{
    Bank::try_new(number).unwrap()
}
