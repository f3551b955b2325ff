//! What is reached of an image as text.

ghost use Rattle.std.specs.Prelude.{◌≡◌, true};
ghost use Rattle.words.specs.Devices.{Writes, failures_after};
ghost use Rattle.reach.specs.ReachText.{image_row, image_rows};

use audit::{EachWord, WordAt, WordText, write_by_bank};
use cover::write_line;
use rope::Rope;
use trace::PlaceNames;
use words::{Write, WriteFailed};
use yayul::Margin;

/// Writes the rows of all words.
#[tactic(auto, unfolding(crate::specs::ReachText::image_rows_of))]
pub(crate) fn write_words<M: Margin, W: Write>(
    margin: &M,
    rope: &Rope,
    names: &Option<PlaceNames>,
    out: &mut W,
) -> Result<(), WriteFailed>
    ensures written { W.told ≡ true → Writes (W.written out.old) (W.written out.new)
        (image_rows (M.text margin.now) names.now rope.now) result }
    ensures failures { W.failures out.new ≡ failures_after (W.failures out.old) result }
{
    let rows = Rows { margin, names };
    write_by_bank(&EachWord { text: &rows }, rope, None, out)
}

/// The rows of words.
#[derive(Drop)]
struct Rows<'a, M> {
    margin: &'a M,
    names: &'a Option<PlaceNames>,
}

impl<'a, M: Margin> WordText for Rows<'a, M> {
    ghost text = { λ rows words bank offset. image_row (M.text rows.margin.now) rows.names.now words bank offset };

    fn write<W: Write>(&self, rope: &Rope, word: WordAt, out: &mut W) -> Result<(), WriteFailed> {
        self.margin.write(Some((word.bank, word.offset)), out)?;
        write_line(rope, self.names, word, out)
    }
}
