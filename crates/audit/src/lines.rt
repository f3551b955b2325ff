//! The words of fixed memory, a line for each.

ghost use Rattle.std.specs.Prelude.{◌≡◌, ◌+◌, ◌<◌, ◌≤◌, ◌++◌, length, codes, true};
ghost use Rattle.arrayvec.specs.ArrayVec.{array_vec_len};
ghost use Rattle.words.specs.Devices.{Writes, failures_after};
ghost use Rattle.words.specs.Numerals.{octal_text};
ghost use Rattle.rope.specs.Places.{banks, bank_words};
ghost use Rattle.audit.specs.WordLines.{extracode_at, instruction_at, place_text, word_line, word_lines};

use crate::by_bank::{EachWord, WordAt, WordText, write_by_bank};
use arrayvec::ArrayVec;
use cpu::disassemble;
use rope::Rope;
use space::{Bank, Linear, Offset, window};
use words::{Write, WriteFailed, push_all, push_octal, write_all};

/// The most bytes of a line: a place of 7, one or two words of 5 digits, one or two instructions of 10, and what stands
/// between.
const LINE: usize = 48;

pub type Line = ArrayVec<u8, LINE>;

/// What comes of writing a text.
pub type Written = Result<(), WriteFailed>;

/// Writes a line for each word of a bank, or of all banks by their numbers, as `02,4001 64005 AD 4005`: its place, the
/// word, and the instruction that it is. A word is read as an extracode where the words before it in the bank put
/// extracode in force: EXTEND, or INDEX that is itself read so.
///
/// After a failure a beginning of it was written.
#[tactic(auto, unfolding(crate::specs::WordLines::bank_lines))]
pub fn write_words<W: Write>(rope: &Rope, bank: Option<Bank>, out: &mut W) -> Written
    ensures written { W.told ≡ true → Writes (W.written out.old) (W.written out.new) (word_lines rope.now bank) result }
    ensures failures { W.failures out.new ≡ failures_after (W.failures out.old) result }
{
    write_by_bank(&EachWord { text: &WordTexts }, rope, bank, out)
}

/// The lines of words.
#[derive(Drop)]
struct WordTexts;

impl WordText for WordTexts {
    ghost text = { λ _ words bank offset. word_line words bank offset };

    fn write<W: Write>(&self, rope: &Rope, word: WordAt, out: &mut W) -> Written {
        let line = word_line(rope, word.bank, word.offset, word.extra);
        write_all(out, line.as_slice())
    }
}

/// The line of a word.
#[tactic(auto, unfolding(crate::specs::WordLines::word_line))]
pub fn word_line(rope: &Rope, bank: Bank, offset: Offset, extra: bool) -> Line
    requires { extra ≡ extracode_at rope.now bank offset }
    ensures { result.items ≡ word_line rope.now bank offset }
{
    let mut line = ArrayVec::new();
    push_place(&mut line, bank, offset);
    push_all(&mut line, b" ");
    push_octal(&mut line, 5, rope.word(bank, offset).to_u16());
    push_all(&mut line, b" ");
    push_instruction(&mut line, rope, bank, offset, extra);
    push_all(&mut line, b"\n");
    line
}

/// A line above the words of a bank: a text, and the bank.
pub fn heading(text: &[u8], bank: Bank) -> Line
    requires { length text.now ≤ 40 }
    ensures { result.items ≡ text.now ++ octal_text 2 bank ++ codes "\n" }
{
    let mut line = ArrayVec::new();
    push_all(&mut line, text);
    push_octal(&mut line, 2, bank.number());
    push_all(&mut line, b"\n");
    line
}

/// Appends a place.
#[tactic(auto, unfolding(crate::specs::WordLines::place_text))]
pub(crate) fn push_place(line: &mut Line, bank: Bank, offset: Offset)
    requires { array_vec_len line.old ≤ 40 }
    ensures items { line.new.items ≡ line.old.items ++ place_text bank offset }
    ensures len { array_vec_len line.new ≡ array_vec_len line.old + 7 }
{
    push_octal(line, 2, bank.number());
    push_all(line, b",");
    push_octal(line, 4, window(Linear::Fixed(bank, offset)).number());
}

/// Appends the instruction that a word is.
#[tactic(auto, unfolding(crate::specs::WordLines::instruction_at))]
pub(crate) fn push_instruction(
    line: &mut Line,
    rope: &Rope,
    bank: Bank,
    offset: Offset,
    extra: bool,
)
    requires room { array_vec_len line.old ≤ 35 }
    requires extra { extra ≡ extracode_at rope.now bank offset }
    ensures items { line.new.items ≡ line.old.items ++ instruction_at rope.now bank offset }
    ensures len { array_vec_len line.new ≤ array_vec_len line.old + 10 }
{
    push_all(line, disassemble(rope.word(bank, offset), extra).as_slice());
}

/// The bank of a number.
pub fn bank_of(number: u16) -> Bank
    requires { number < banks }
    ensures { result ≡ number }
{
    Bank::try_new(number).unwrap()
}

/// The offset of a number.
pub fn offset_of(number: u16) -> Offset
    requires { number < bank_words }
    ensures { result ≡ number }
{
    Offset::try_new(number).unwrap()
}
