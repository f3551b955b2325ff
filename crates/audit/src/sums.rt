//! The sums of the banks.

ghost use Rattle.std.specs.Prelude.{◌≡◌, ◌<◌, true};
ghost use Rattle.words.specs.Devices.{Writes, failures_after};
ghost use Rattle.rope.specs.Places.{bank_words};
ghost use Rattle.audit.specs.Sums.{added, sum_before, sum_line, sum_lines};

use crate::lines::{Line, Written, bank_of, offset_of};
use arrayvec::ArrayVec;
use rope::Rope;
use space::{BANK_WORDS, Bank, FIXED_BANKS};
use words::{Overflow, Word, Write, push_all, push_octal, write_all};

/// Writes a line for each bank by its number, as `02 00002`: the number, and the ones' complement sum of the bank's
/// words as a program adds them up that checks its own memory. Where a sum overflows, plus or minus one is added to
/// what is stored.
///
/// After a failure a beginning of it was written.
pub fn write_sums<W: Write>(rope: &Rope, out: &mut W) -> Written
    ensures written { W.told ≡ true → Writes (W.written out.old) (W.written out.new) (sum_lines rope.now) result }
    ensures failures { W.failures out.new ≡ failures_after (W.failures out.old) result }
{
    for bank in 0..FIXED_BANKS {
        write_all(out, sum_line(rope, bank_of(bank)).as_slice())?;
    }
    Ok(())
}

/// The line of a bank.
#[tactic(auto, unfolding(crate::specs::Sums::sum_line))]
fn sum_line(rope: &Rope, bank: Bank) -> Line
    ensures { result.items ≡ sum_line rope.now bank }
{
    let mut line = ArrayVec::new();
    push_octal(&mut line, 2, bank.number());
    push_all(&mut line, b" ");
    push_octal(&mut line, 5, bank_sum(rope, bank).to_u16());
    push_all(&mut line, b"\n");
    line
}

/// The sum of a bank's words.
pub fn bank_sum(rope: &Rope, bank: Bank) -> Word
    ensures { result ≡ sum_before rope.now bank bank_words }
{
    let mut total = Word::ZERO;
    for number in 0..BANK_WORDS {
        total = added(total, rope.word(bank, offset_of(number)));
    }
    total
}

/// A total and one word more.
pub(crate) fn added(total: Word, word: Word) -> Word
    ensures { result ≡ added total word }
{
    let sum = total.extend().add(word.extend());
    let stored = sum.correct();
    match sum.overflow() {
        Overflow::No => stored,
        Overflow::Plus => stored.pinc().word,
        Overflow::Minus => stored.minc().word,
    }
}
