//! Fixed memory as a text of octal words.

ghost use Rattle.std.specs.Prelude.{◌≡◌, ◌<◌, ◌≤◌, ◌%◌, ◌==◌, length, true};
ghost use Rattle.words.specs.Devices.{Writes, failures_after};
ghost use Rattle.audit.specs.Octals.{bank_head, bank_octals, behind, octal_word, octals_text};

use crate::by_bank::{BankText, WordAt, WordText, write_by_bank, write_words_of};
use crate::lines::{Line, Written, heading};
use arrayvec::ArrayVec;
use rope::Rope;
use space::{Bank, Offset};
use words::{Write, push_all, push_octal, write_all};

/// Writes the words of a bank, or of all banks by their numbers, as a text of octal words: a line as `BANK=02` for each
/// bank, and below it its words of five digits, eight a line.
///
/// After a failure a beginning of it was written.
pub fn write_octals<W: Write>(rope: &Rope, bank: Option<Bank>, out: &mut W) -> Written
    ensures written { W.told ≡ true → Writes (W.written out.old) (W.written out.new) (octals_text rope.now bank)
        result }
    ensures failures { W.failures out.new ≡ failures_after (W.failures out.old) result }
{
    write_by_bank(&OctalTexts, rope, bank, out)
}

/// The text of octal words of a bank.
#[derive(Drop)]
struct OctalTexts;

impl BankText for OctalTexts {
    ghost text = { λ _ words bank. bank_octals words bank };

    fn write<W: Write>(&self, rope: &Rope, bank: Bank, out: &mut W) -> Written {
        write_all(out, bank_head(bank).as_slice())?;
        write_words_of(self, rope, bank, out)
    }
}

impl WordText for OctalTexts {
    ghost text = { λ _ words bank offset. octal_word words bank offset };

    fn write<W: Write>(&self, rope: &Rope, word: WordAt, out: &mut W) -> Written {
        write_all(out, octal_word(rope, word.bank, word.offset).as_slice())
    }
}

/// The line of a bank.
#[tactic(auto, unfolding(crate::specs::Octals::bank_head))]
fn bank_head(bank: Bank) -> Line
    ensures { result.items ≡ bank_head bank }
{
    heading(b"BANK=", bank)
}

/// A word of a bank, and what stands behind it.
#[tactic(auto, unfolding(crate::specs::Octals::octal_word))]
fn octal_word(rope: &Rope, bank: Bank, offset: Offset) -> Line
    ensures { result.items ≡ octal_word rope.now bank offset }
{
    let mut line = ArrayVec::new();
    push_octal(&mut line, 5, rope.word(bank, offset).to_u16());
    push_all(&mut line, behind(offset.number() % 8 == 7));
    line
}

/// What stands behind a word, by whether it is an eighth one.
fn behind(is_eighth: bool) -> &'static [u8]
    ensures text { result.now ≡ behind is_eighth }
    ensures short { length result.now ≤ 1 }
{
    if is_eighth { b"\n" } else { b" " }
}
