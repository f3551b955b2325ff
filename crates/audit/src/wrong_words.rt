//! The words of a bank whose parity is wrong, and which they may have been.

ghost use Rattle.std.specs.Prelude.{◌≡◌, ◌+◌, ◌<◌, ◌≤◌, length, true, IfOk};
ghost use Rattle.words.specs.Devices.{Writes, failures_after};
ghost use Rattle.rope.specs.Places.{banks};
ghost use Rattle.audit.specs.BankFacts.{count_before, mends};
ghost use Rattle.audit.specs.Damages.{candidate, candidate_text, candidates, is_told_by_sum, leading_text, verdict};
ghost use Rattle.audit.specs.Damages.{wrong_head, wrong_lines, wrong_text};

use crate::bank_facts::{is_blank, is_wrong, mends, ways_to_mend, with_bit_turned, wrong_words};
use crate::lines::{Line, Written, offset_of, push_place};
use arrayvec::ArrayVec;
use rope::Dump;
use space::{BANK_WORDS, Bank, Offset};
use words::{Word, Write, WriteFailed, push_all, push_octal, write_all};

/// The ways in which one bit may be wrong: the parity bit, and those of the word.
const WAYS: u32 = 16;

/// Writes a line for each word of a bank whose parity is wrong.
pub(crate) fn write_wrong_words<W: Write>(
    image: &Dump,
    turned: bool,
    bank: Bank,
    out: &mut W,
) -> Written
    requires { bank < banks }
    ensures written { W.told ≡ true → Writes (W.written out.old) (W.written out.new) (wrong_lines image.now turned bank)
        result }
    ensures failures { W.failures out.new ≡ failures_after (W.failures out.old) result }
{
    let told = is_told_by_sum(image, turned, bank);
    for number in 0..BANK_WORDS {
        write_wrong_word(image, turned, bank, offset_of(number), told, out)?;
    }
    Ok(())
}

/// Whether a bank's sum tells what its one word of wrong parity may have been.
fn is_told_by_sum(image: &Dump, turned: bool, bank: Bank) -> bool
    requires { bank < banks }
    ensures { result ≡ is_told_by_sum image.now turned bank }
{
    wrong_words(image, turned, bank) == 1
        && !is_blank(image, turned, bank)
        && !(ways_to_mend(image, turned, bank) == 0)
}

/// Writes the line of a word, where its parity is wrong.
#[tactic(auto, unfolding(crate::specs::Damages::wrong_text))]
fn write_wrong_word<W: Write>(
    image: &Dump,
    turned: bool,
    bank: Bank,
    offset: Offset,
    told: bool,
    out: &mut W,
) -> Written
    requires bank { bank < banks }
    requires told { told ≡ is_told_by_sum image.now turned bank }
    ensures written { W.told ≡ true → Writes (W.written out.old) (W.written out.new)
        (wrong_text image.now turned bank offset) result }
    ensures failures { W.failures out.new ≡ failures_after (W.failures out.old) result }
{
    if !is_wrong(image, turned, bank, offset) {
        return write_all(out, b"");
    }
    write_all(out, wrong_head(image, bank, offset).as_slice())?;
    write_verdict(image, turned, bank, image.word(bank, offset), told, out)
}

/// The place of a word, and the word.
fn wrong_head(image: &Dump, bank: Bank, offset: Offset) -> Line
    requires { bank < banks }
    ensures { result.items ≡ wrong_head image.now bank offset }
{
    let mut line = ArrayVec::new();
    push_place(&mut line, bank, offset);
    push_all(&mut line, b" ");
    push_octal(&mut line, 5, image.word(bank, offset).to_u16());
    line
}

/// Writes what is told of a word of wrong parity.
fn write_verdict<W: Write>(
    image: &Dump,
    turned: bool,
    bank: Bank,
    word: Word,
    told: bool,
    out: &mut W,
) -> Written
    requires bank { bank < banks }
    requires told { told ≡ is_told_by_sum image.now turned bank }
    ensures written { W.told ≡ true → Writes (W.written out.old) (W.written out.new)
        (verdict image.now turned bank word) result }
    ensures failures { W.failures out.new ≡ failures_after (W.failures out.old) result }
{
    if !told {
        return write_all(out, b" HAS WRONG PARITY\n");
    }
    write_candidates(image, turned, bank, word, out)?;
    write_all(out, b" BY THE SUM\n")
}

/// Writes the words that one of wrong parity may have been.
fn write_candidates<W: Write>(
    image: &Dump,
    turned: bool,
    bank: Bank,
    word: Word,
    out: &mut W,
) -> Written
    requires { bank < banks }
    ensures written { W.told ≡ true → Writes (W.written out.old) (W.written out.new)
        (candidates image.now turned bank word) result }
    ensures failures { W.failures out.new ≡ failures_after (W.failures out.old) result }
{
    let mut before = 0;
    for bit in 0..WAYS {
        before += write_candidate(image, turned, bank, word, bit, before, out)?;
    }
    Ok(())
}

/// Writes a word with a bit turned, where that makes the sum of its bank right, and answers how many that is.
#[tactic(auto, unfolding(crate::specs::Damages::candidate_text))]
fn write_candidate<W: Write>(
    image: &Dump,
    turned: bool,
    bank: Bank,
    word: Word,
    bit: u32,
    before: u16,
    out: &mut W,
) -> Result<u16, WriteFailed>
    requires bank { bank < banks }
    requires bit { bit < 16 }
    requires before { before ≡ count_before (mends image.now turned bank) bit }
    ensures written { W.told ≡ true → Writes (W.written out.old) (W.written out.new)
        (candidate_text image.now turned bank word bit) result }
    ensures count { IfOk result (λ count. before + count ≡ count_before (mends image.now turned bank) (bit + 1)) }
    ensures few { IfOk result (λ count. count ≤ 1) }
    ensures failures { W.failures out.new ≡ failures_after (W.failures out.old) result }
{
    if !mends(image, turned, bank, bit) {
        write_all(out, b"")?;
        return Ok(0);
    }
    write_all(out, candidate(word, bit, before).as_slice())?;
    Ok(1)
}

/// A word with a bit turned, behind what leads to it.
fn candidate(word: Word, bit: u32, before: u16) -> Line
    requires { bit < 16 }
    ensures { result.items ≡ candidate word bit before }
{
    let mut line = ArrayVec::new();
    push_all(&mut line, leading_text(before == 0));
    push_octal(&mut line, 5, with_bit_turned(word, bit).to_u16());
    line
}

/// What leads to the first word that may have been, and to each other.
fn leading_text(is_first: bool) -> &'static [u8]
    ensures text { result.now ≡ leading_text is_first }
    ensures short { length result.now ≤ 4 }
{
    if is_first { b" IS " } else { b" OR " }
}
