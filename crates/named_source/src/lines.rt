//! The lines of words.

ghost use Rattle.std.specs.Prelude.{◌≡◌, ◌+◌, ◌-◌, ◌<◌, ◌≤◌, ◌++◌, [], length, unwrap_or, codes, IfOk};
ghost use Rattle.std.specs.List.{range_with_len, flat_map};
ghost use Rattle.arrayvec.specs.ArrayVec.{array_vec_len};
ghost use Rattle.words.specs.Numerals.{octal_text};
ghost use Rattle.space.specs.declared.place.Linear.TheVariants as linear;
ghost use Rattle.rope.specs.Places.{bank_words, banks};
ghost use Rattle.trace.specs.TraceLines.{symbol_at};
ghost use Rattle.audit.specs.WordLines.{extracode_at};
ghost use Rattle.named_source.specs.NamedSources.{bank_line, column, is_number, is_said_from, line_of, remark};
ghost use Rattle.named_source.specs.NamedSources.{said_bank, said_banks, said_line, statement};

use arrayvec::ArrayVec;
use audit::{bank_of, offset_of};
use cpu::{disassemble, extracode_after};
use names::{Line as NamedLine, named_instruction};
use rope::Rope;
use space::{BANK_WORDS, Bank, FIXED_BANKS, Linear, Offset};
use std::alloc::AllocError;
use trace::{Names, PlaceNames, place_text};
use words::{Word, push_all, push_octal};
use yayul::push_blanks;

/// The most bytes of a line: a label of 9, an instruction of 26, a place of 7, a remark of 10, and what stands between.
pub(crate) const LINE: usize = 64;

pub(crate) type Line = ArrayVec<u8, LINE>;

/// What comes of appending: memory may run out.
pub(crate) type Appended = Result<(), AllocError>;

/// Appends the lines of one bank, or of all by their numbers.
pub(crate) fn push_banks(
    out: &mut Vec<u8>,
    labels: &PlaceNames,
    rope: &Rope,
    bank: &Option<Bank>,
) -> Appended
    ensures { IfOk result (λ _. out.new.items ≡ out.old.items ++ said_banks labels.now rope.now bank.now) }
{
    match bank {
        Some(bank) => push_bank(out, labels, rope, *bank),
        None => push_all_banks(out, labels, rope),
    }
}

/// Appends the lines of all banks.
fn push_all_banks(out: &mut Vec<u8>, labels: &PlaceNames, rope: &Rope) -> Appended
    ensures { IfOk result (λ _. out.new.items
        ≡ out.old.items ++ flat_map (said_bank labels.now rope.now) (range_with_len 0 banks)) }
{
    for bank in 0..FIXED_BANKS {
        push_bank(out, labels, rope, bank_of(bank))?;
    }
    Ok(())
}

/// Appends the lines of a bank.
fn push_bank(out: &mut Vec<u8>, labels: &PlaceNames, rope: &Rope, bank: Bank) -> Appended
    ensures { IfOk result (λ _. out.new.items ≡ out.old.items ++ said_bank labels.now rope.now bank) }
{
    out.extend_from_slice(bank_line(bank).as_slice())?;
    push_words(out, labels, rope, bank)?;
    Ok(())
}

/// Appends the lines of a bank's words.
fn push_words(out: &mut Vec<u8>, labels: &PlaceNames, rope: &Rope, bank: Bank) -> Appended
    ensures { IfOk result (λ _. out.new.items
        ≡ out.old.items ++ flat_map (said_line labels.now rope.now bank) (range_with_len 0 bank_words)) }
{
    let mut extra = false;
    for number in 0..BANK_WORDS {
        let offset = offset_of(number);
        let said = is_said_from(rope, bank, number, BANK_WORDS - number, extra);
        let line = line_of(labels, rope, bank, offset, extra, said);
        out.extend_from_slice(line.as_slice())?;
        extra = extracode_after(rope.word(bank, offset), extra);
    }
    Ok(())
}

/// The line that leads to the first word of a bank.
fn bank_line(bank: Bank) -> Line
    ensures { result.items ≡ bank_line bank }
{
    let mut line = ArrayVec::new();
    push_all(&mut line, b"         BANK    ");
    push_octal(&mut line, 2, bank.number());
    push_all(&mut line, b"\n");
    line
}

/// Whether a word stands as its instruction, with so many words left in its bank.
#[tactic(auto, unfolding(crate::specs::NamedSources::is_said_from))]
fn is_said_from(rope: &Rope, bank: Bank, number: u16, left: u16, extra: bool) -> bool
    requires within { number + left ≡ bank_words }
    requires extra { extra ≡ extracode_at rope.now bank number }
    ensures { result ≡ is_said_from rope.now bank number left }
{
    if left == 0 {
        return false;
    }
    let word = rope.word(bank, offset_of(number));
    let next = extracode_after(word, extra);
    if next {
        is_said_from(rope, bank, number + 1, left - 1, next)
    } else {
        !is_number(word, extra)
    }
}

/// Whether a word stands as a number.
fn is_number(word: Word, extra: bool) -> bool
    ensures { result ≡ is_number extra word }
{
    let number = word.to_u16();
    if extra {
        0o7000 <= number && number <= 0o7777
    } else {
        number == 0
    }
}

/// The line of a word that stands as an instruction or not.
#[tactic(auto, unfolding(crate::specs::NamedSources::line_of))]
fn line_of(
    labels: &PlaceNames,
    rope: &Rope,
    bank: Bank,
    offset: Offset,
    extra: bool,
    said: bool,
) -> Line
    requires { extra ≡ extracode_at rope.now bank offset }
    ensures { result.items ≡ line_of labels.now rope.now bank offset said }
{
    let mut line = ArrayVec::new();
    push_label(&mut line, labels, bank, offset);
    let text = statement(labels, rope, bank, offset, extra, said);
    push_column(&mut line, 26, text.as_slice());
    push_all(&mut line, b"# ");
    push_all(
        &mut line,
        place_text(Linear::Fixed(bank, offset)).as_slice(),
    );
    push_all(&mut line, b" ");
    push_remark(&mut line, rope.word(bank, offset), extra, said);
    push_all(&mut line, b"\n");
    line
}

/// Appends the label of a place, and blanks up to the next column.
fn push_label(line: &mut Line, labels: &PlaceNames, bank: Bank, offset: Offset)
    requires { array_vec_len line.old ≡ 0 }
    ensures items { line.new.items ≡ line.old.items
        ++ column 9 (unwrap_or (symbol_at labels.now (linear.Fixed bank offset)) []) }
    ensures len { array_vec_len line.new ≡ 9 }
{
    match labels.symbol_at(&Linear::Fixed(bank, offset)) {
        Some(name) => push_column(line, 9, name),
        None => push_blanks(line, 9),
    }
}

/// Appends a text, and blanks up to a column.
fn push_column(line: &mut Line, width: usize, text: &[u8])
    requires room { array_vec_len line.old + width ≤ 64 }
    requires fits { length text.now ≤ width }
    ensures items { line.new.items ≡ line.old.items ++ column width text.now }
    ensures len { array_vec_len line.new ≡ array_vec_len line.old + width }
{
    push_all(line, text);
    push_blanks(line, width - text.len());
}

/// What a word stands as.
fn statement(
    labels: &PlaceNames,
    rope: &Rope,
    bank: Bank,
    offset: Offset,
    extra: bool,
    said: bool,
) -> NamedLine
    requires { extra ≡ extracode_at rope.now bank offset }
    ensures items { result.items ≡ statement labels.now rope.now bank offset said }
    ensures short { array_vec_len result ≤ 25 }
{
    if said {
        named_instruction(rope, labels, bank, offset, extra)
    } else {
        octal_statement(rope.word(bank, offset))
    }
}

/// A word as a number.
fn octal_statement(word: Word) -> NamedLine
    ensures items { result.items ≡ codes "OCT " ++ octal_text 5 word }
    ensures short { array_vec_len result ≤ 25 }
{
    let mut line = ArrayVec::new();
    push_all(&mut line, b"OCT ");
    push_octal(&mut line, 5, word.to_u16());
    line
}

/// Appends what is remarked of a word.
fn push_remark(line: &mut Line, word: Word, extra: bool, said: bool)
    requires { array_vec_len line.old ≤ 50 }
    ensures items { line.new.items ≡ line.old.items ++ remark extra word said }
    ensures len { array_vec_len line.new ≤ array_vec_len line.old + 10 }
{
    if said {
        push_octal(line, 5, word.to_u16());
    } else {
        push_all(line, disassemble(word, extra).as_slice());
    }
}
