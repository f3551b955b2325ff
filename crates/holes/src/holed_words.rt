//! The words of an image beside a source with holes, a line for each.

ghost use Rattle.std.specs.Prelude.{◌≡◌, true};
ghost use Rattle.words.specs.Devices.{Writes, failures_after};
ghost use Rattle.audit.specs.WordLines.{extracode_at};
ghost use Rattle.holes.specs.HoledWords.{hole_line, holed_line, holed_lines};

use crate::filling::is_hole_at;
use arrayvec::ArrayVec;
use audit::{EachWord, WordAt, WordText, write_by_bank};
use names::{Line, named_line};
use rope::Rope;
use space::{Bank, Linear, Offset, window};
use trace::PlaceNames;
use words::{Write, WriteFailed, push_all, push_octal, write_all};

/// Writes a line for each word of a bank, or of all banks by their numbers, as `names::write_named_words` does; but of
/// a hole as `02,4001 77775 HOLE`: its place, the word, and no instruction, since a word of the interpretive language
/// is none. The holes are the places where a word stands, and `other` has another one. A word that is no hole is one of
/// `plain`, the words of the image around the holes.
///
/// After a failure a beginning of it was written.
#[tactic(auto, unfolding(crate::specs::HoledWords::holed_bank_lines))]
pub fn write_holed_words<W: Write>(
    words: &Rope,
    other: &Rope,
    names: &PlaceNames,
    image: &Rope,
    plain: &Rope,
    bank: Option<Bank>,
    out: &mut W,
) -> Result<(), WriteFailed>
    ensures written { W.told ≡ true → Writes (W.written out.old) (W.written out.new)
        (holed_lines names.now words.now other.now image.now plain.now bank) result }
    ensures failures { W.failures out.new ≡ failures_after (W.failures out.old) result }
{
    let texts = HoledTexts {
        words,
        other,
        names,
        image,
    };
    write_by_bank(&EachWord { text: &texts }, plain, bank, out)
}

// The lines of words, with names and holes.
#[derive(Drop)]
struct HoledTexts<'a> {
    words: &'a Rope,
    other: &'a Rope,
    names: &'a PlaceNames,
    image: &'a Rope,
}

impl<'a> WordText for HoledTexts<'a> {
    ghost text = { λ texts plain bank offset.
        holed_line texts.names.now texts.words.now texts.other.now texts.image.now plain bank offset };

    fn write<W: Write>(&self, rope: &Rope, word: WordAt, out: &mut W) -> Result<(), WriteFailed> {
        let line = holed_line(self, rope, word.bank, word.offset, word.extra);
        write_all(out, line.as_slice())
    }
}

// The line of a word.
#[tactic(auto, unfolding(crate::specs::HoledWords::holed_line))]
fn holed_line(texts: &HoledTexts<'_>, plain: &Rope, bank: Bank, offset: Offset, extra: bool) -> Line
    requires { extra ≡ extracode_at plain.now bank offset }
    ensures { result.items ≡ holed_line texts.now.names.now texts.now.words.now texts.now.other.now texts.now.image.now
        plain.now bank offset }
{
    if is_hole_at(texts.words, texts.other, bank, offset) {
        hole_line(texts.image, bank, offset)
    } else {
        named_line(plain, texts.names, bank, offset, extra)
    }
}

// The line of a hole.
#[tactic(auto, unfolding(crate::specs::HoledWords::hole_line, yayul::specs::Listing::word_columns, yayul::specs::Listing::place_text))]
fn hole_line(image: &Rope, bank: Bank, offset: Offset) -> Line
    ensures { result.items ≡ hole_line image.now bank offset }
{
    let mut line = ArrayVec::new();
    push_octal(&mut line, 2, bank.number());
    push_all(&mut line, b",");
    push_octal(&mut line, 4, window(Linear::Fixed(bank, offset)).number());
    push_all(&mut line, b" ");
    push_octal(&mut line, 5, image.word(bank, offset).to_u16());
    push_all(&mut line, b" HOLE\n");
    line
}
