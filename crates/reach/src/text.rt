//! What is reached as text.

ghost use Rattle.std.specs.Prelude.{◌≡◌, true};
ghost use Rattle.words.specs.Devices.{Writes, failures_after};
ghost use Rattle.reach.specs.ReachText.{shown_text};

use crate::image::write_words;
use cover::Shown;
use json_text::Notation;
use rope::Rope;
use words::{Write, WriteFailed};
use yayul::Margin;

/// Writes a row for each line of a source, as `START    25 02,4104 54100  LOOP    TS      COUNT`, or for each word of
/// an image, as
/// `START 02,4001 64005 AD 4005`: what is found of its word, as whether a way leads there, and the row as a listing or
/// `agcws words` has it.
///
/// After a failure a beginning of it was written.
pub fn write_reach<M: Margin, W: Write>(
    margin: &M,
    rope: &Rope,
    shown: &Shown,
    out: &mut W,
) -> Result<(), WriteFailed>
    ensures written { W.told ≡ true → Writes (W.written out.old) (W.written out.new)
        (shown_text (M.text margin.now) rope.now shown.now) result }
    ensures failures { W.failures out.new ≡ failures_after (W.failures out.old) result }
{
    match shown {
        Shown::Source(rows, _) => rows.write(Notation::Text, rope, margin, out),
        Shown::Image(names) => write_words(margin, rope, names, out),
    }
}
