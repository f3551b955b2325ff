//! The words of an image as a source, with those that the sums want in place of words of wrong parity.

ghost use Rattle.std.specs.Prelude.{◌≡◌, ◌+◌, ◌<◌, ◌≤◌, ◌++◌, true};
ghost use Rattle.std.specs.List.{flat_map, range_with_len};
ghost use Rattle.arrayvec.specs.ArrayVec.{array_vec_len};
ghost use Rattle.words.specs.Devices.{Writes, failures_after};
ghost use Rattle.rope.specs.Places.{banks, bank_words};
ghost use Rattle.audit.specs.Mended.{is_sure, last_before, may_be_wrong, mended_bank, mended_line, mended_lines};
ghost use Rattle.audit.specs.Mended.{mended_source, remark, wrong_bit};
ghost use Rattle.audit.specs.BankFacts.{count_before};

use crate::bank_facts::{is_blank, is_lost, is_turned, is_wrong, mended_word, mends, wrong_words};
use crate::lines::{Line, Written, bank_of, offset_of, push_place};
use crate::ranges::count_below;
use crate::source::bank_line;
use arrayvec::ArrayVec;
use rope::Dump;
use space::{BANK_WORDS, Bank, FIXED_BANKS, Offset};
use words::{Write, push_all, push_octal, write_all};

/// Writes a source that gives the words of an image, as `write_source` does: where one bit alone can have been wrong in
/// a bank's words of wrong parity, by its sum, they are written with that bit turned, and the comment tells what they
/// were, as
/// `        OCT     00002   # 10,2137 WAS 00006`. Other words of wrong parity are written as they stand, and that is
/// told.
///
/// After a failure a beginning of it was written.
pub fn write_mended<W: Write>(image: &Dump, out: &mut W) -> Written
    ensures written { W.told ≡ true → Writes (W.written out.old) (W.written out.new) (mended_source image.now) result }
    ensures failures { W.failures out.new ≡ failures_after (W.failures out.old) result }
{
    write_banks(image, is_turned(image), out)
}

/// Writes the lines of all banks.
fn write_banks<W: Write>(image: &Dump, turned: bool, out: &mut W) -> Written
    ensures written { W.told ≡ true → Writes (W.written out.old) (W.written out.new)
        (flat_map (mended_bank image.now turned) (range_with_len 0 banks)) result }
    ensures failures { W.failures out.new ≡ failures_after (W.failures out.old) result }
{
    for number in 0..FIXED_BANKS {
        write_bank(image, turned, bank_of(number), out)?;
    }
    Ok(())
}

/// Writes the lines of a bank.
fn write_bank<W: Write>(image: &Dump, turned: bool, bank: Bank, out: &mut W) -> Written
    requires { bank < banks }
    ensures written { W.told ≡ true → Writes (W.written out.old) (W.written out.new) (mended_bank image.now turned bank)
        result }
    ensures failures { W.failures out.new ≡ failures_after (W.failures out.old) result }
{
    write_all(out, bank_line(bank).as_slice())?;
    write_words(image, turned, bank, out)
}

/// Writes the lines of a bank's words.
fn write_words<W: Write>(image: &Dump, turned: bool, bank: Bank, out: &mut W) -> Written
    requires { bank < banks }
    ensures written { W.told ≡ true → Writes (W.written out.old) (W.written out.new)
        (mended_lines image.now turned bank) result }
    ensures failures { W.failures out.new ≡ failures_after (W.failures out.old) result }
{
    let sure = is_sure(image, turned, bank);
    let bit = wrong_bit(image, turned, bank, sure);
    for number in 0..BANK_WORDS {
        write_all(
            out,
            mended_line(image, turned, bank, offset_of(number), sure, bit).as_slice(),
        )?;
    }
    Ok(())
}

/// Whether one bit alone may be wrong in a bank's words of wrong parity.
fn is_sure(image: &Dump, turned: bool, bank: Bank) -> bool
    requires { bank < banks }
    ensures { result ≡ is_sure image.now turned bank }
{
    bits(image, turned, bank) == 1
}

/// How many bits may be.
fn bits(image: &Dump, turned: bool, bank: Bank) -> u16
    requires { bank < banks }
    ensures count { result ≡ count_before (may_be_wrong image.now turned bank) 16 }
    ensures few { result ≤ 16 }
{
    count_below(16, |bit| may_be_wrong(image, turned, bank, u32::from(bit)))
}

/// Whether a bit may be wrong in each of a bank's words of wrong parity.
fn may_be_wrong(image: &Dump, turned: bool, bank: Bank, bit: u32) -> bool
    requires bank { bank < banks }
    requires bit { bit < 16 }
    ensures { result ≡ may_be_wrong image.now turned bank bit }
{
    mends(image, turned, bank, bit)
        && (bit == 0
            || (wrong_words(image, turned, bank) == 1 && !is_blank(image, turned, bank))
            || is_lost(image, turned, bank, bit))
}

/// The bit that is turned.
fn wrong_bit(image: &Dump, turned: bool, bank: Bank, sure: bool) -> u32
    requires bank { bank < banks }
    requires sure { sure ≡ is_sure image.now turned bank }
    ensures bit { result ≡ wrong_bit image.now turned bank }
    ensures few { result < 16 }
{
    if sure {
        last_bit(image, turned, bank)
    } else {
        0
    }
}

/// The highest bit that may be wrong.
#[tactic(auto, using(crate::proofs::Folds::last_steps))]
fn last_bit(image: &Dump, turned: bool, bank: Bank) -> u32
    requires { bank < banks }
    ensures bit { result ≡ last_before (may_be_wrong image.now turned bank) 16 }
    ensures few { result < 16 }
{
    let mut last = 0;
    for bit in 0..16 {
        if may_be_wrong(image, turned, bank, bit) {
            last = bit;
        }
    }
    last
}

/// The line that gives a word.
#[tactic(auto, unfolding(crate::specs::Mended::mended_line))]
fn mended_line(image: &Dump, turned: bool, bank: Bank, offset: Offset, sure: bool, bit: u32) -> Line
    requires bank { bank < banks }
    requires sure { sure ≡ is_sure image.now turned bank }
    requires bit { bit ≡ wrong_bit image.now turned bank }
    requires few { bit < 16 }
    ensures { result.items ≡ mended_line image.now turned bank offset }
{
    let mut line = ArrayVec::new();
    push_all(&mut line, b"        OCT     ");
    push_octal(
        &mut line,
        5,
        mended_word(image, turned, bank, bit, offset).to_u16(),
    );
    push_all(&mut line, b"   # ");
    push_place(&mut line, bank, offset);
    push_remark(&mut line, image, turned, bank, offset, sure);
    push_all(&mut line, b"\n");
    line
}

/// Appends what is said of a word.
fn push_remark(line: &mut Line, image: &Dump, turned: bool, bank: Bank, offset: Offset, sure: bool)
    requires bank { bank < banks }
    requires room { array_vec_len line.old ≤ 34 }
    ensures items { line.new.items ≡ line.old.items ++ remark image.now turned bank sure offset }
    ensures len { array_vec_len line.new ≤ array_vec_len line.old + 13 }
{
    if !is_wrong(image, turned, bank, offset) {
        return;
    }
    if sure {
        push_all(line, b" WAS ");
        push_octal(line, 5, image.word(bank, offset).to_u16());
    } else {
        push_all(line, b" WRONG PARITY");
    }
}
