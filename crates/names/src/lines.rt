//! The words of fixed memory with names, a line for each.

ghost use Rattle.std.specs.Prelude.{◌≡◌, ◌+◌, ◌<◌, ◌≤◌, ◌++◌, true};
ghost use Rattle.arrayvec.specs.ArrayVec.{array_vec_len};
ghost use Rattle.words.specs.Devices.{Writes, failures_after};
ghost use Rattle.audit.specs.WordLines.{extracode_at};
ghost use Rattle.names.specs.NamedLines.{named_instruction, named_line, named_lines};

use crate::near::push_address;
use arrayvec::ArrayVec;
use audit::{EachWord, WordAt, WordText, offset_of, write_by_bank};
use cpu::{disassemble, extracode_after, instruction_name, named_address};
use rope::Rope;
use space::{Bank, Linear, Offset};
use trace::{Names, PlaceNames, place_text};
use words::{Write, WriteFailed, push_all, push_octal, write_all};

/// The most bytes of a line: a place of 7, a word of 5 digits, an instruction's name of at most 10, a name of 8 with a
/// distance of 6, and what stands between.
const LINE: usize = 48;

pub type Line = ArrayVec<u8, LINE>;

/// Writes a line for each word of a bank, or of all banks by their numbers, as `02,4001 64005 AD FIVE`: its place, the
/// word, and the instruction that it is, with the name of the place to which its address leads, where the image tells
/// that place: the first name that stands for it, or the nearest before it and how far, as `TC WAITLIST +2`.
///
/// After a failure a beginning of it was written.
#[tactic(auto, unfolding(crate::specs::NamedLines::named_bank_lines))]
pub fn write_named_words<W: Write>(
    rope: &Rope,
    names: &PlaceNames,
    bank: Option<Bank>,
    out: &mut W,
) -> Result<(), WriteFailed>
    ensures written { W.told ≡ true → Writes (W.written out.old) (W.written out.new)
        (named_lines names.now rope.now bank) result }
    ensures failures { W.failures out.new ≡ failures_after (W.failures out.old) result }
{
    let texts = NamedTexts { names };
    write_by_bank(&EachWord { text: &texts }, rope, bank, out)
}

/// The lines of words, with names.
#[derive(Drop)]
struct NamedTexts<'a> {
    names: &'a PlaceNames,
}

impl<'a> WordText for NamedTexts<'a> {
    ghost text = { λ texts words bank offset. named_line texts.names.now words bank offset };

    fn write<W: Write>(&self, rope: &Rope, word: WordAt, out: &mut W) -> Result<(), WriteFailed> {
        let line = named_line(rope, self.names, word.bank, word.offset, word.extra);
        write_all(out, line.as_slice())
    }
}

/// The line of a word.
#[tactic(auto, unfolding(crate::specs::NamedLines::named_line))]
pub fn named_line<N: Names>(rope: &Rope, names: &N, bank: Bank, offset: Offset, extra: bool) -> Line
    requires { extra ≡ extracode_at rope.now bank offset }
    ensures { result.items ≡ named_line (N.table names.now) rope.now bank offset }
{
    let mut line = ArrayVec::new();
    push_all(
        &mut line,
        place_text(Linear::Fixed(bank, offset)).as_slice(),
    );
    push_all(&mut line, b" ");
    push_octal(&mut line, 5, rope.word(bank, offset).to_u16());
    push_all(&mut line, b" ");
    push_instruction(&mut line, rope, names, bank, offset, extra);
    push_all(&mut line, b"\n");
    line
}

/// The line of a word, which is read as an extracode where the words before it in its bank put extracode in force.
pub fn line_of_word<N: Names>(rope: &Rope, names: &N, bank: Bank, offset: Offset) -> Line
    ensures { result.items ≡ named_line (N.table names.now) rope.now bank offset }
{
    let extra = extracode_before(rope, bank, offset);
    named_line(rope, names, bank, offset, extra)
}

/// Whether the words of a bank before an offset put extracode in force.
fn extracode_before(rope: &Rope, bank: Bank, offset: Offset) -> bool
    ensures { result ≡ extracode_at rope.now bank offset }
{
    let mut extra = false;
    for number in 0..offset.number() {
        extra = extracode_after(rope.word(bank, offset_of(number)), extra);
    }
    extra
}

/// The instruction that a word is.
pub fn named_instruction<N: Names>(
    rope: &Rope,
    names: &N,
    bank: Bank,
    offset: Offset,
    extra: bool,
) -> Line
    requires { extra ≡ extracode_at rope.now bank offset }
    ensures items { result.items ≡ named_instruction (N.table names.now) rope.now bank offset }
    ensures short { array_vec_len result ≤ 25 }
{
    let mut line = ArrayVec::new();
    push_instruction(&mut line, rope, names, bank, offset, extra);
    line
}

/// Appends the instruction that a word is.
#[tactic(auto, unfolding(crate::specs::NamedLines::named_instruction))]
fn push_instruction<N: Names>(
    line: &mut Line,
    rope: &Rope,
    names: &N,
    bank: Bank,
    offset: Offset,
    extra: bool,
)
    requires room { array_vec_len line.old ≤ 20 }
    requires extra { extra ≡ extracode_at rope.now bank offset }
    ensures items { line.new.items ≡ line.old.items ++ named_instruction (N.table names.now) rope.now bank offset }
    ensures len { array_vec_len line.new ≤ array_vec_len line.old + 25 }
{
    let word = rope.word(bank, offset);
    match named_address(word, extra) {
        None => push_all(line, disassemble(word, extra).as_slice()),
        Some(address) => {
            push_all(line, instruction_name(word, extra));
            push_all(line, b" ");
            push_address(line, names, bank, address);
        }
    }
}
