//! Texts of the places at which two fixed memories differ.

ghost use Rattle.std.specs.Prelude.{◌≡◌, ◌≤◌, ℕ, List, true, length, IfOk};
ghost use Rattle.std.specs.List.{flat_map};
ghost use Rattle.words.specs.Devices.{Writes, failures_after};
ghost use Rattle.rope.specs.Places.{Words};
ghost use Rattle.audit.specs.Differences.{differing_at, differing_in, differing};
ghost use Rattle.audit.specs.WordLines.{extracode_at};

use crate::differences::Extent;
use crate::lines::{Written, bank_of, offset_of};
use cpu::extracode_after;
use rope::Rope;
use space::{BANK_WORDS, Bank, FIXED_BANKS, Offset};
use words::{Write, WriteFailed};

/// A place of fixed memory, and whether the words of two are read as extracodes there.
#[derive(Clone, Copy, Drop)]
pub struct PlaceOfTwo {
    pub bank: Bank,
    pub offset: Offset,
    pub extra: (bool, bool),
}

/// A text of each place at which two fixed memories differ.
pub trait DifferenceText {
    /// What is written of a place, by the words of both.
    ghost text: { Self → Words → Words → ℕ × ℕ → List ℕ };

    /// Writes it.
    ///
    /// After a failure a beginning of it was written.
    fn write<W: Write>(&self, old: &Rope, new: &Rope, at: PlaceOfTwo, out: &mut W) -> Written
        requires old { at.extra.0 ≡ extracode_at old.now at.bank at.offset }
        requires new { at.extra.1 ≡ extracode_at new.now at.bank at.offset }
        ensures written { W.told ≡ true → Writes (W.written out.old) (W.written out.new)
            (text self.now old.now new.now (at.bank, at.offset)) result }
        ensures failures { W.failures out.new ≡ failures_after (W.failures out.old) result };
}

/// Writes the texts of all places of an extent at which two fixed memories differ, banks by their numbers and offsets
/// rising, and answers how many places there are.
///
/// After a failure a beginning of them was written.
pub fn write_differing<T: DifferenceText, W: Write>(
    text: &T,
    old: &Rope,
    new: &Rope,
    extent: Extent,
    out: &mut W,
) -> Result<u32, WriteFailed>
    ensures written { W.told ≡ true → Writes (W.written out.old) (W.written out.new)
        (flat_map (T.text text.now old.now new.now) (differing extent old.now new.now)) result }
    ensures count { IfOk result (λ count. count ≡ length (differing extent old.now new.now)) }
    ensures failures { W.failures out.new ≡ failures_after (W.failures out.old) result }
{
    let mut count = 0;
    for bank in 0..FIXED_BANKS {
        count += write_bank(text, old, new, extent, bank_of(bank), out)?;
    }
    Ok(count)
}

/// Writes those of a bank.
fn write_bank<T: DifferenceText, W: Write>(
    text: &T,
    old: &Rope,
    new: &Rope,
    extent: Extent,
    bank: Bank,
    out: &mut W,
) -> Result<u32, WriteFailed>
    ensures written { W.told ≡ true → Writes (W.written out.old) (W.written out.new)
        (flat_map (T.text text.now old.now new.now) (differing_in extent old.now new.now bank)) result }
    ensures count { IfOk result (λ count. count ≡ length (differing_in extent old.now new.now bank)) }
    ensures few { IfOk result (λ count. count ≤ 1024) }
    ensures failures { W.failures out.new ≡ failures_after (W.failures out.old) result }
{
    let mut count = 0;
    let mut extra = (false, false);
    for number in 0..BANK_WORDS {
        let offset = offset_of(number);
        let at = PlaceOfTwo {
            bank,
            offset,
            extra,
        };
        count += write_place(text, old, new, extent, at, out)?;
        extra = (
            extracode_after(old.word(bank, offset), extra.0),
            extracode_after(new.word(bank, offset), extra.1),
        );
    }
    Ok(count)
}

/// Writes that of a place where the words differ, and answers how many that is.
#[tactic(auto, unfolding(crate::specs::Differences::differing_at))]
fn write_place<T: DifferenceText, W: Write>(
    text: &T,
    old: &Rope,
    new: &Rope,
    extent: Extent,
    at: PlaceOfTwo,
    out: &mut W,
) -> Result<u32, WriteFailed>
    requires old { at.extra.0 ≡ extracode_at old.now at.bank at.offset }
    requires new { at.extra.1 ≡ extracode_at new.now at.bank at.offset }
    ensures written { W.told ≡ true → Writes (W.written out.old) (W.written out.new)
        (flat_map (T.text text.now old.now new.now) (differing_at extent old.now new.now at.bank at.offset)) result }
    ensures count { IfOk result (λ count. count ≡ length (differing_at extent old.now new.now at.bank at.offset)) }
    ensures few { IfOk result (λ count. count ≤ 1) }
    ensures failures { W.failures out.new ≡ failures_after (W.failures out.old) result }
{
    if !extent.has(old, at.bank, at.offset) {
        return Ok(0);
    }
    if old.word(at.bank, at.offset) == new.word(at.bank, at.offset) {
        return Ok(0);
    }
    text.write(old, new, at, out)?;
    Ok(1)
}
