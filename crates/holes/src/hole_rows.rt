//! Holes as text.

ghost use Rattle.std.specs.Prelude.{◌≡◌, true};
ghost use Rattle.words.specs.Devices.{Writes, failures_after};
ghost use Rattle.holes.specs.Holes.{hole_row, holes_count, holes_text};

use arrayvec::ArrayVec;
use audit::{DifferenceText, Extent, PlaceOfTwo, write_differing};
use rope::Rope;
use space::{Bank, Linear, Offset, window};
use words::{Write, WriteFailed, push_all, push_decimal, push_octal, write_all};

/// The most bytes of a line: `# HOLE `, a place, a blank, a word and a line feed.
const LINE: usize = 32;

type Line = ArrayVec<u8, LINE>;

/// Writes a comment for each hole, banks by their numbers and offsets rising, as `# HOLE 02,4001 77775`: its place, and
/// the word that the image has there; and then how many they are, as `# HOLES 3`. The holes are the places where a word
/// stands, and `other` has another one.
///
/// After a failure a beginning of it was written.
pub fn write_holes<W: Write>(
    words: &Rope,
    other: &Rope,
    image: &Rope,
    out: &mut W,
) -> Result<(), WriteFailed>
    ensures written { W.told ≡ true → Writes (W.written out.old) (W.written out.new)
        (holes_text words.now other.now image.now) result }
    ensures failures { W.failures out.new ≡ failures_after (W.failures out.old) result }
{
    let count = write_differing(&HoleRows { image }, words, other, Extent::Filled, out)?;
    write_all(out, holes_count(count).as_slice())?;
    Ok(())
}

// The comments of holes, with the words of an image.
#[derive(Drop)]
struct HoleRows<'a> {
    image: &'a Rope,
}

impl<'a> DifferenceText for HoleRows<'a> {
    ghost text = { λ rows old new place. hole_row rows.image.now place };

    fn write<W: Write>(
        &self,
        old: &Rope,
        _new: &Rope,
        at: PlaceOfTwo,
        out: &mut W,
    ) -> Result<(), WriteFailed> {
        write_all(out, hole_row(self.image, at.bank, at.offset).as_slice())
    }
}

// The comment of a hole.
#[tactic(auto, unfolding(crate::specs::Holes::hole_row, yayul::specs::Listing::word_columns, yayul::specs::Listing::place_text))]
fn hole_row(image: &Rope, bank: Bank, offset: Offset) -> Line
    ensures { result.items ≡ hole_row image.now (bank, offset) }
{
    let mut line = ArrayVec::new();
    push_all(&mut line, b"# HOLE ");
    push_octal(&mut line, 2, bank.number());
    push_all(&mut line, b",");
    push_octal(&mut line, 4, window(Linear::Fixed(bank, offset)).number());
    push_all(&mut line, b" ");
    push_octal(&mut line, 5, image.word(bank, offset).to_u16());
    push_all(&mut line, b"\n");
    line
}

// How many holes there are.
#[tactic(auto, using(words::proofs::Digits::short_decimal), unfolding(crate::specs::Holes::holes_count))]
fn holes_count(count: u32) -> Line
    ensures { result.items ≡ holes_count count }
{
    let mut line = ArrayVec::new();
    push_all(&mut line, b"# HOLES ");
    push_decimal(&mut line, u64::from(count));
    push_all(&mut line, b"\n");
    line
}
