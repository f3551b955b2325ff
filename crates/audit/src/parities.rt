//! The words of an image whose parity is wrong.

ghost use Rattle.std.specs.Prelude.{◌≡◌, ◌<◌, ◌≤◌, true, length, IfOk};
ghost use Rattle.std.specs.List.{flat_map};
ghost use Rattle.words.specs.Devices.{Writes, failures_after};
ghost use Rattle.rope.specs.Places.{banks};
ghost use Rattle.audit.specs.Parities.{wrong_at, wrong_in, wrong, parity_line, parities};

use crate::differences::count_line;
use crate::lines::{Line, bank_of, offset_of, push_place};
use arrayvec::ArrayVec;
use rope::{Dump, byte_of};
use space::{BANK_WORDS, Bank, FIXED_BANKS, Offset};
use words::{Write, WriteFailed, push_all, push_decimal, push_octal, write_all};

/// Writes a line for each word whose two bytes have an even number of one bits, banks by their numbers and offsets
/// rising, as
/// `02,4001 64005 BYTE 2`: its place, the word, and the number of its first byte. Then it writes how many such words
/// there are, as `COUNT 1`, and answers that.
///
/// After a failure a beginning of it was written.
pub fn write_parities<W: Write>(image: &Dump, out: &mut W) -> Result<u32, WriteFailed>
    ensures written { W.told ≡ true → Writes (W.written out.old) (W.written out.new) (parities image.now) result }
    ensures count { IfOk result (λ count. count ≡ length (wrong image.now)) }
    ensures failures { W.failures out.new ≡ failures_after (W.failures out.old) result }
{
    let count = write_wrong(image, out)?;
    write_all(out, count_line(count).as_slice())?;
    Ok(count)
}

/// Writes the lines of all words whose parity is wrong, and answers how many.
fn write_wrong<W: Write>(image: &Dump, out: &mut W) -> Result<u32, WriteFailed>
    ensures written { W.told ≡ true → Writes (W.written out.old) (W.written out.new)
        (flat_map (parity_line image.now) (wrong image.now)) result }
    ensures count { IfOk result (λ count. count ≡ length (wrong image.now)) }
    ensures failures { W.failures out.new ≡ failures_after (W.failures out.old) result }
{
    let mut count = 0;
    for bank in 0..FIXED_BANKS {
        count += write_bank(image, bank_of(bank), out)?;
    }
    Ok(count)
}

/// Writes the lines of a bank's words whose parity is wrong, and answers how many.
fn write_bank<W: Write>(image: &Dump, bank: Bank, out: &mut W) -> Result<u32, WriteFailed>
    requires { bank < banks }
    ensures written { W.told ≡ true → Writes (W.written out.old) (W.written out.new)
        (flat_map (parity_line image.now) (wrong_in image.now bank)) result }
    ensures count { IfOk result (λ count. count ≡ length (wrong_in image.now bank)) }
    ensures few { IfOk result (λ count. count ≤ 1024) }
    ensures failures { W.failures out.new ≡ failures_after (W.failures out.old) result }
{
    let mut count = 0;
    for number in 0..BANK_WORDS {
        count += write_place(image, bank, offset_of(number), out)?;
    }
    Ok(count)
}

/// Writes the line of a word whose parity is wrong, and answers how many lines that is.
fn write_place<W: Write>(
    image: &Dump,
    bank: Bank,
    offset: Offset,
    out: &mut W,
) -> Result<u32, WriteFailed>
    requires { bank < banks }
    ensures written { W.told ≡ true → Writes (W.written out.old) (W.written out.new)
        (flat_map (parity_line image.now) (wrong_at image.now bank offset)) result }
    ensures count { IfOk result (λ count. count ≡ length (wrong_at image.now bank offset)) }
    ensures few { IfOk result (λ count. count ≤ 1) }
    ensures failures { W.failures out.new ≡ failures_after (W.failures out.old) result }
{
    if image.has_parity(bank, offset) {
        return Ok(0);
    }
    write_all(out, parity_line(image, bank, offset).as_slice())?;
    Ok(1)
}

/// The line of a word.
#[tactic(auto, unfolding(crate::specs::Parities::parity_line), using(words::proofs::Digits::short_decimal))]
fn parity_line(image: &Dump, bank: Bank, offset: Offset) -> Line
    requires { bank < banks }
    ensures { result.items ≡ parity_line image.now (bank, offset) }
{
    let mut line = ArrayVec::new();
    push_place(&mut line, bank, offset);
    push_all(&mut line, b" ");
    push_octal(&mut line, 5, image.word(bank, offset).to_u16());
    push_all(&mut line, b" BYTE ");
    push_decimal(&mut line, byte_of(bank, offset) as u64);
    push_all(&mut line, b"\n");
    line
}
