//! The profile of a source's run as text.

ghost use Rattle.std.specs.Prelude.{◌≡◌, true};
ghost use Rattle.words.specs.Devices.{Writes, failures_after};
ghost use Rattle.cover.specs.CoverText.{profile_text, source_rows};
ghost use Rattle.cover.specs.Tallies.{figures_at};
ghost use Rattle.cover.specs.declared.shown.Shown.TheVariants as shown;

use crate::columns::figure_columns;
use crate::objects::account_members;
use crate::rest::write_rest;
use crate::tally::{Figures, Tally};
use cpu::Account;
use json_text::Notation;
use rope::Rope;
use space::{Bank, Linear, Offset};
use trace::PlaceNames;
use words::{Write, WriteFailed, write_all};
use yayul::{Margin, SourceRows};

/// The members where a row has no word.
const NO_MEMBERS: &[u8] = b",\"symbol\":null,\"count\":null,\"cycles\":null";

/// The columns where a row has no word: as wide as those of figures.
const NO_COLUMNS: &[u8] = b"                      ";

impl Margin for Tally {
    ghost use Rattle.cover.specs.CoverText.{margin_of};
    ghost use Rattle.cover.specs.Tallies.{figures_at};

    ghost text = { λ t. margin_of (figures_at t) };

    fn write<W: Write>(
        &self,
        word: Option<(Bank, Offset)>,
        writer: &mut W,
    ) -> Result<(), WriteFailed> {
        match word {
            Some((bank, offset)) => {
                let figures = self.figures(Account::Place(Linear::Fixed(bank, offset)));
                write_all(writer, figure_columns(figures).as_slice())
            }
            None => write_all(writer, NO_COLUMNS),
        }
    }
}

/// What a row has as JSON beside its line: the symbol of its word, and the figures.
#[derive(Clone, Copy, Drop)]
struct Members<'a> {
    tally: &'a Tally,
    names: &'a Option<PlaceNames>,
}

impl<'a> Margin for Members<'a> {
    ghost use Rattle.cover.specs.CoverObjects.{members_of};
    ghost use Rattle.cover.specs.Tallies.{figures_at};

    ghost text = { λ m. members_of m.names.now (figures_at m.tally.now) };

    fn write<W: Write>(
        &self,
        word: Option<(Bank, Offset)>,
        writer: &mut W,
    ) -> Result<(), WriteFailed> {
        match word {
            Some((bank, offset)) => {
                let figures = self
                    .tally
                    .figures(Account::Place(Linear::Fixed(bank, offset)));
                let place = &Linear::Fixed(bank, offset);
                write_all(
                    writer,
                    account_members(self.names, figures, place).as_slice(),
                )
            }
            None => write_all(writer, NO_MEMBERS),
        }
    }
}

/// Writes the rows of a source's lines: as text as `         2          4    25 02,4104 54100  LOOP    TS      COUNT`:
/// how often the word was executed, the cycles that this took, and the row as a listing has it. As JSON it writes an
/// object with the same. Then it writes what was executed elsewhere, and what all steps took.
///
/// After a failure a beginning of it was written.
pub fn write_source_profile<W: Write>(
    notation: Notation,
    names: &Option<PlaceNames>,
    tally: &Tally,
    total: Figures,
    rope: &Rope,
    rows: &SourceRows,
    out: &mut W,
) -> Result<(), WriteFailed>
    ensures written { W.told ≡ true → Writes (W.written out.old) (W.written out.new)
        (profile_text notation (figures_at tally.now) total rope.now (shown.Source rows.now names.now)) result }
    ensures failures { W.failures out.new ≡ failures_after (W.failures out.old) result }
{
    write_rows(notation, names, tally, rope, rows, out)?;
    write_rest(notation, names, tally, total, rope, out)
}

/// Writes the rows of a source's lines.
fn write_rows<W: Write>(
    notation: Notation,
    names: &Option<PlaceNames>,
    tally: &Tally,
    rope: &Rope,
    rows: &SourceRows,
    out: &mut W,
) -> Result<(), WriteFailed>
    ensures written { W.told ≡ true → Writes (W.written out.old) (W.written out.new)
        (source_rows notation names.now (figures_at tally.now) rope.now rows.now) result }
    ensures failures { W.failures out.new ≡ failures_after (W.failures out.old) result }
{
    match notation {
        Notation::Text => rows.write(notation, rope, tally, out),
        Notation::Json => rows.write(notation, rope, &Members { tally, names }, out),
    }
}
