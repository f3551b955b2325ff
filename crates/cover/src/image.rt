//! The profile of an image's run as text.

ghost use Rattle.std.specs.Prelude.{◌≡◌, ◌++◌, true};
ghost use Rattle.words.specs.Devices.{Writes, failures_after};
ghost use Rattle.audit.specs.WordLines.{extracode_at};
ghost use Rattle.cover.specs.CoverText.{figure_columns, image_line, image_row, image_rows, profile_text};
ghost use Rattle.cover.specs.Tallies.{figures_at};
ghost use Rattle.cover.specs.declared.shown.Shown.TheVariants as shown;

use crate::columns::figure_columns;
use crate::objects::image_object;
use crate::rest::write_rest;
use crate::tally::{Figures, Tally};
use audit::{EachWord, WordAt, WordText, word_line, write_by_bank};
use cpu::Account;
use json_text::Notation;
use names::named_line;
use rope::Rope;
use space::Linear;
use trace::PlaceNames;
use words::{Write, WriteFailed, write_all};

/// Writes a row for each word of an image: as text as `         2          4 02,4001 64005 AD 4005`: how often it was
/// executed, the cycles that this took, and the word as `write_words` writes it, or as `write_named_words` does where
/// there are names. As JSON it writes an object with the same. Then it writes what was executed elsewhere, and what all
/// steps took.
///
/// After a failure a beginning of it was written.
pub fn write_image_profile<W: Write>(
    notation: Notation,
    tally: &Tally,
    total: Figures,
    rope: &Rope,
    names: &Option<PlaceNames>,
    out: &mut W,
) -> Result<(), WriteFailed>
    ensures written { W.told ≡ true → Writes (W.written out.old) (W.written out.new)
        (profile_text notation (figures_at tally.now) total rope.now (shown.Image names.now)) result }
    ensures failures { W.failures out.new ≡ failures_after (W.failures out.old) result }
{
    write_words(notation, tally, rope, names, out)?;
    write_rest(notation, names, tally, total, rope, out)
}

/// Writes the rows of all words.
#[tactic(auto, unfolding(crate::specs::CoverText::image_rows_of))]
fn write_words<W: Write>(
    notation: Notation,
    tally: &Tally,
    rope: &Rope,
    names: &Option<PlaceNames>,
    out: &mut W,
) -> Result<(), WriteFailed>
    ensures written { W.told ≡ true → Writes (W.written out.old) (W.written out.new)
        (image_rows notation names.now (figures_at tally.now) rope.now) result }
    ensures failures { W.failures out.new ≡ failures_after (W.failures out.old) result }
{
    let rows = Rows {
        notation,
        tally,
        names,
    };
    write_by_bank(&EachWord { text: &rows }, rope, None, out)
}

/// The rows of words.
#[derive(Drop)]
struct Rows<'a> {
    notation: Notation,
    tally: &'a Tally,
    names: &'a Option<PlaceNames>,
}

impl<'a> WordText for Rows<'a> {
    ghost text = { λ rows words bank offset. image_row rows.notation rows.names.now (figures_at rows.tally.now) words
        bank offset };

    fn write<W: Write>(&self, rope: &Rope, word: WordAt, out: &mut W) -> Result<(), WriteFailed> {
        let place = Linear::Fixed(word.bank, word.offset);
        let figures = self.tally.figures(Account::Place(place));
        match self.notation {
            Notation::Text => write_columns(figures, rope, self.names, word, out),
            Notation::Json => {
                let WordAt {
                    bank,
                    offset,
                    extra,
                } = word;
                let object = image_object(self.names, figures, rope, bank, offset, extra);
                write_all(out, object.as_slice())
            }
        }
    }
}

/// Writes the row of a word as text.
fn write_columns<W: Write>(
    figures: Figures,
    rope: &Rope,
    names: &Option<PlaceNames>,
    word: WordAt,
    out: &mut W,
) -> Result<(), WriteFailed>
    requires { word.extra ≡ extracode_at rope.now word.bank word.offset }
    ensures written { W.told ≡ true → Writes (W.written out.old) (W.written out.new)
        (figure_columns figures ++ image_line names.now rope.now word.bank word.offset) result }
    ensures failures { W.failures out.new ≡ failures_after (W.failures out.old) result }
{
    write_all(out, figure_columns(figures).as_slice())?;
    write_line(rope, names, word, out)
}

/// Writes the line of a word, with names or without.
///
/// After a failure a beginning of it was written.
pub fn write_line<W: Write>(
    rope: &Rope,
    names: &Option<PlaceNames>,
    word: WordAt,
    out: &mut W,
) -> Result<(), WriteFailed>
    requires { word.extra ≡ extracode_at rope.now word.bank word.offset }
    ensures written { W.told ≡ true → Writes (W.written out.old) (W.written out.new)
        (image_line names.now rope.now word.bank word.offset) result }
    ensures failures { W.failures out.new ≡ failures_after (W.failures out.old) result }
{
    let WordAt {
        bank,
        offset,
        extra,
    } = word;
    match names {
        Some(names) => write_all(out, named_line(rope, names, bank, offset, extra).as_slice()),
        None => write_all(out, word_line(rope, bank, offset, extra).as_slice()),
    }
}
