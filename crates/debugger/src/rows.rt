//! The rows of places: as the listing has them, or their words as the instructions that they are; or as numbers.

ghost use Rattle.std.specs.Prelude.{◌≡◌, ◌+◌, ◌%◌, ◌^◌, ◌<◌, ◌≤◌, ◌++◌, true};
ghost use Rattle.arrayvec.specs.ArrayVec.{array_vec_len};
ghost use Rattle.words.specs.Devices.{Writes, failures_after};
ghost use Rattle.words.specs.Numerals.{digit_zero};
ghost use Rattle.debugger.specs.History.{history, sight};
ghost use Rattle.debugger.specs.Rows.{based_text, fraction_text, list_row, magnitude, numbers_text, plain_row};
ghost use Rattle.debugger.specs.Rows.{row_text, sign_text, value_row, whole_text};

use crate::short::word_at;
use crate::texts::Text;
use arrayvec::ArrayVec;
use cpu::{Machine, Processor};
use names::line_of_word;
use space::place::Linear;
use symbols::Symbols;
use trace::place_text;
use words::{Word, Write, WriteFailed, push_all, push_decimal, push_octal, write_all};
use yayul::SourceRows;

/// What the row of a place tells.
#[derive(Clone, Copy, Drop)]
pub(crate) enum RowKind {
    /// The line of the source that shows it, or the word and the instruction that it is.
    Instruction,
    /// The word in octal, in decimal, as a fraction and in binary.
    Number,
}

/// Writes the row of a place.
pub(crate) fn write_row<W: Write>(
    kind: RowKind,
    symbols: &Symbols,
    rows: &SourceRows,
    machine: &Machine,
    processor: &Processor,
    place: &Linear,
    out: &mut W,
) -> Result<(), WriteFailed>
    ensures writes { W.told ≡ true → Writes (W.written out.old) (W.written out.new)
        (row_text kind symbols.now rows.now processor.now.scenario.rope (history processor.now.scenario)
        (sight processor.now.scenario.rope machine.now) place.now) result }
    ensures failures { W.failures out.new ≡ failures_after (W.failures out.old) result }
{
    match kind {
        RowKind::Instruction => write_list_row(symbols, rows, machine, processor, place, out),
        RowKind::Number => write_all(out, value_row(machine, processor, place).as_slice()),
    }
}

/// Writes the row of a place as the listing has it, where a line of the source shows the place.
pub(crate) fn write_list_row<W: Write>(
    symbols: &Symbols,
    rows: &SourceRows,
    machine: &Machine,
    processor: &Processor,
    place: &Linear,
    out: &mut W,
) -> Result<(), WriteFailed>
    ensures writes { W.told ≡ true → Writes (W.written out.old) (W.written out.new)
        (list_row symbols.now rows.now processor.now.scenario.rope (history processor.now.scenario)
        (sight processor.now.scenario.rope machine.now) place.now) result }
    ensures failures { W.failures out.new ≡ failures_after (W.failures out.old) result }
{
    let word = word_at(machine, processor, *place);
    if rows.write_row_of(b"LIST ", processor.rope(), word, *place, out)? {
        return Ok(());
    }
    write_all(
        out,
        plain_row(symbols, machine, processor, place).as_slice(),
    )
}

/// The row of a place with the instruction that its word is, where it stands in fixed memory.
fn plain_row(symbols: &Symbols, machine: &Machine, processor: &Processor, place: &Linear) -> Text
    ensures { result.items ≡ plain_row symbols.now processor.now.scenario.rope
        (sight processor.now.scenario.rope machine.now) place.now }
{
    let mut row = ArrayVec::new();
    push_all(&mut row, b"LIST ");
    match place {
        Linear::Erasable(number) => {
            push_all(&mut row, place_text(*place).as_slice());
            push_all(&mut row, b" ");
            push_octal(&mut row, 5, machine.word(*number).to_u16());
            push_all(&mut row, b"\n");
        }
        Linear::Fixed(bank, offset) => push_all(
            &mut row,
            line_of_word(processor.rope(), symbols, *bank, *offset).as_slice(),
        ),
    }
    row
}

/// The row of a place with its word as a number.
fn value_row(machine: &Machine, processor: &Processor, place: &Linear) -> Text
    ensures { result.items ≡ value_row (history processor.now.scenario) (sight processor.now.scenario.rope machine.now)
        place.now }
{
    let mut row = ArrayVec::new();
    push_all(&mut row, b"VALUE ");
    push_all(&mut row, place_text(*place).as_slice());
    push_all(&mut row, b" ");
    push_numbers(&mut row, word_at(machine, processor, *place));
    push_all(&mut row, b"\n");
    row
}

/// Appends a word in octal, in decimal, as a fraction and in binary.
fn push_numbers(text: &mut Text, word: Word)
    requires { array_vec_len text.old ≤ 20 }
    ensures items { text.new.items ≡ text.old.items ++ numbers_text word }
    ensures short { array_vec_len text.new ≤ array_vec_len text.old + 62 }
{
    push_octal(text, 5, word.to_u16());
    push_all(text, b" ");
    push_whole(text, word);
    push_all(text, b" ");
    push_fraction(text, word);
    push_all(text, b" ");
    push_based(text, 2, 15, u64::from(word.to_u16()));
}

/// Appends a word as a whole number.
#[tactic(auto, using(words::proofs::Digits::short_decimal))]
fn push_whole(text: &mut Text, word: Word)
    requires { array_vec_len text.old ≤ 60 }
    ensures items { text.new.items ≡ text.old.items ++ whole_text word }
    ensures short { array_vec_len text.new ≤ array_vec_len text.old + 21 }
{
    push_sign(text, word);
    push_decimal(text, u64::from(magnitude(word)));
}

/// Appends a word as a fraction. (2^14 times 5^14 is 10^14.)
fn push_fraction(text: &mut Text, word: Word)
    requires { array_vec_len text.old ≤ 60 }
    ensures items { text.new.items ≡ text.old.items ++ fraction_text word }
    ensures short { array_vec_len text.new ≤ array_vec_len text.old + 17 }
{
    push_sign(text, word);
    push_all(text, b"0.");
    push_based(text, 10, 14, 6_103_515_625 * u64::from(magnitude(word)));
}

/// Appends the sign of a word.
fn push_sign(text: &mut Text, word: Word)
    requires { array_vec_len text.old ≤ 100 }
    ensures items { text.new.items ≡ text.old.items ++ sign_text word }
    ensures short { array_vec_len text.new ≤ array_vec_len text.old + 1 }
{
    if word.to_u16() >= 0o40000 {
        push_all(text, b"-");
    }
}

/// The magnitude of a word.
fn magnitude(word: Word) -> u16
    ensures value { result ≡ magnitude word }
    ensures range { result < 2 ^ 14 }
{
    if word.to_u16() < 0o40000 {
        word.to_u16()
    } else {
        word.neg().to_u16()
    }
}

/// Appends the last digits of a number in a base, as many as `digits`.
fn push_based(text: &mut Text, base: u64, digits: usize, number: u64)
    requires from { 2 ≤ base }
    requires to { base ≤ 10 }
    requires room { array_vec_len text.old + digits ≤ 128 }
    ensures items { text.new.items ≡ text.old.items ++ based_text base digits number }
    ensures len { array_vec_len text.new ≡ array_vec_len text.old + digits }
{
    if digits > 0 {
        push_based(text, base, digits - 1, number / base);
        text.push(last_digit(base, number));
    }
}

/// The last digit of a number in a base.
fn last_digit(base: u64, number: u64) -> u8
    requires from { 2 ≤ base }
    requires to { base ≤ 10 }
    ensures { result ≡ digit_zero + number % base }
{
    b'0' + (number % base) as u8
}
