//! The places at which two fixed memories differ.

ghost use Rattle.std.specs.Prelude.{◌≡◌, ◌≤◌, true, length, IfOk};
ghost use Rattle.words.specs.Devices.{Writes, failures_after};
ghost use Rattle.arrayvec.specs.ArrayVec.{array_vec_len};
ghost use Rattle.audit.specs.Differences.{is_compared, differing, difference_line, difference_text};
ghost use Rattle.audit.specs.Differences.{count_line, differences};
ghost use Rattle.audit.specs.WordLines.{extracode_at};

use crate::by_difference::{DifferenceText, PlaceOfTwo, write_differing};
use crate::lines::{Line, Written, push_instruction, push_place};
use arrayvec::ArrayVec;
use rope::Rope;
use space::{Bank, Offset};
use words::{Write, WriteFailed, push_all, push_decimal, push_octal, write_all};

/// At which places the words of two fixed memories are compared.
#[derive(Clone, Copy, PartialEq, Eq, Debug, Drop)]
pub enum Extent {
    /// At all.
    All,
    /// At those where a word stands in the old one.
    Filled,
}

impl Extent {
    /// Whether words are compared at a place.
    pub(crate) fn has(self, old: &Rope, bank: Bank, offset: Offset) -> bool
        ensures { result ≡ is_compared self old.now bank offset }
    {
        match self {
            Extent::All => true,
            Extent::Filled => old.has(bank, offset),
        }
    }
}

/// Writes a line for each place of an extent where the words of two fixed memories differ, banks by their numbers and
/// offsets rising, as
/// `02,4001 64005 64006 AD 4005, AD 4006`: the place, both words, and the instruction that each is. Then it writes how
/// many places there are, as `COUNT 1`, and answers that.
///
/// After a failure a beginning of it was written.
pub fn write_differences<W: Write>(
    old: &Rope,
    new: &Rope,
    extent: Extent,
    out: &mut W,
) -> Result<u32, WriteFailed>
    ensures written { W.told ≡ true → Writes (W.written out.old) (W.written out.new)
        (differences extent old.now new.now) result }
    ensures count { IfOk result (λ count. count ≡ length (differing extent old.now new.now)) }
    ensures failures { W.failures out.new ≡ failures_after (W.failures out.old) result }
{
    let count = write_differing(&DifferenceLines, old, new, extent, out)?;
    write_all(out, count_line(count).as_slice())?;
    Ok(count)
}

/// The lines of places.
#[derive(Drop)]
struct DifferenceLines;

impl DifferenceText for DifferenceLines {
    ghost text = { λ _ old new place. difference_line old new place };

    fn write<W: Write>(&self, old: &Rope, new: &Rope, at: PlaceOfTwo, out: &mut W) -> Written {
        let line = difference_line(old, new, at.bank, at.offset, at.extra);
        write_all(out, line.as_slice())
    }
}

/// The line of a place.
#[tactic(auto, unfolding(crate::specs::Differences::difference_line))]
fn difference_line(old: &Rope, new: &Rope, bank: Bank, offset: Offset, extra: (bool, bool)) -> Line
    requires old { extra.0 ≡ extracode_at old.now bank offset }
    requires new { extra.1 ≡ extracode_at new.now bank offset }
    ensures { result.items ≡ difference_line old.now new.now (bank, offset) }
{
    let mut line = difference_text(old, new, bank, offset, extra);
    push_all(&mut line, b"\n");
    line
}

/// A place, both words, and the instruction that each is, under extracode or not.
#[tactic(auto, unfolding(crate::specs::Differences::difference_text))]
pub fn difference_text(
    old: &Rope,
    new: &Rope,
    bank: Bank,
    offset: Offset,
    extra: (bool, bool),
) -> Line
    requires old { extra.0 ≡ extracode_at old.now bank offset }
    requires new { extra.1 ≡ extracode_at new.now bank offset }
    ensures items { result.items ≡ difference_text old.now new.now (bank, offset) }
    ensures len { array_vec_len result ≤ 42 }
{
    let mut line = ArrayVec::new();
    push_place(&mut line, bank, offset);
    push_all(&mut line, b" ");
    push_octal(&mut line, 5, old.word(bank, offset).to_u16());
    push_all(&mut line, b" ");
    push_octal(&mut line, 5, new.word(bank, offset).to_u16());
    push_all(&mut line, b" ");
    push_instruction(&mut line, old, bank, offset, extra.0);
    push_all(&mut line, b", ");
    push_instruction(&mut line, new, bank, offset, extra.1);
    line
}

/// The line that tells how many places differ.
#[tactic(auto, using(words::proofs::Digits::short_decimal))]
pub fn count_line(count: u32) -> Line
    ensures { result.items ≡ count_line count }
{
    let mut line = ArrayVec::new();
    push_all(&mut line, b"COUNT ");
    push_decimal(&mut line, u64::from(count));
    push_all(&mut line, b"\n");
    line
}
