//! Fixed memory as a source that gives its words.

ghost use Rattle.std.specs.Prelude.{◌≡◌, ◌<◌, ◌++◌, true};
ghost use Rattle.words.specs.Devices.{Writes, failures_after};
ghost use Rattle.audit.specs.SourceLines.{bank_line, octal_line, bank_source, source_text};
ghost use Rattle.audit.specs.WordLines.{extracode_at};

use crate::by_bank::{BankText, WordAt, WordText, write_by_bank, write_words_of};
use crate::lines::{Line, Written, heading, push_instruction, push_place};
use arrayvec::ArrayVec;
use rope::Rope;
use space::{Bank, Offset};
use words::{Write, push_all, push_octal, write_all};

/// Writes a source that gives the words of a bank, or of all banks by their numbers: a line BANK for each bank, and
/// below it a line for each of its words, as `        OCT     64005   # 02,4001 AD 4005`, where the place and the
/// instruction that the word is are a comment.
///
/// After a failure a beginning of it was written.
pub fn write_source<W: Write>(rope: &Rope, bank: Option<Bank>, out: &mut W) -> Written
    ensures written { W.told ≡ true → Writes (W.written out.old) (W.written out.new) (source_text rope.now bank)
        result }
    ensures failures { W.failures out.new ≡ failures_after (W.failures out.old) result }
{
    write_by_bank(&SourceTexts, rope, bank, out)
}

/// The lines of a source that give the words of a bank.
#[derive(Drop)]
struct SourceTexts;

impl BankText for SourceTexts {
    ghost text = { λ _ words bank. bank_source words bank };

    fn write<W: Write>(&self, rope: &Rope, bank: Bank, out: &mut W) -> Written {
        write_all(out, bank_line(bank).as_slice())?;
        write_words_of(self, rope, bank, out)
    }
}

impl WordText for SourceTexts {
    ghost text = { λ _ words bank offset. octal_line words bank offset };

    fn write<W: Write>(&self, rope: &Rope, word: WordAt, out: &mut W) -> Written {
        let line = octal_line(rope, word.bank, word.offset, word.extra);
        write_all(out, line.as_slice())
    }
}

/// The line that leads to the first word of a bank.
#[tactic(auto, unfolding(crate::specs::SourceLines::bank_line))]
pub(crate) fn bank_line(bank: Bank) -> Line
    ensures { result.items ≡ bank_line bank }
{
    heading(b"        BANK    ", bank)
}

/// The line that gives a word.
#[tactic(auto, unfolding(crate::specs::SourceLines::octal_line))]
fn octal_line(rope: &Rope, bank: Bank, offset: Offset, extra: bool) -> Line
    requires { extra ≡ extracode_at rope.now bank offset }
    ensures { result.items ≡ octal_line rope.now bank offset }
{
    let mut line = ArrayVec::new();
    push_all(&mut line, b"        OCT     ");
    push_octal(&mut line, 5, rope.word(bank, offset).to_u16());
    push_all(&mut line, b"   # ");
    push_place(&mut line, bank, offset);
    push_all(&mut line, b" ");
    push_instruction(&mut line, rope, bank, offset, extra);
    push_all(&mut line, b"\n");
    line
}
