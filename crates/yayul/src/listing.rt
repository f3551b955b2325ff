//! The listing of a program: a row for each line of its source, and its symbols. No memory is taken.

ghost use Rattle.std.specs.Prelude.{◌≡◌, ◌+◌, ◌<◌, ◌≤◌, ◌==◌, ◌++◌, ℕ, List, [], Some, if◌then◌else◌, length, true};
ghost use Rattle.std.specs.Prelude.{codes, decimal, map, drop, slice_get};
ghost use Rattle.std.specs.List.{flat_map};
ghost use Rattle.agc_text.specs.Lines.{lines};
ghost use Rattle.arrayvec.specs.ArrayVec.{array_vec_len};
ghost use Rattle.space.specs.declared.place.Linear.TheVariants as linear;
ghost use Rattle.words.specs.Devices.{Writes, failures_after};
ghost use Rattle.yayul.specs.Listing.{blanks, bank_text, place_text, number_column, word_columns, columns, row_front};
ghost use Rattle.yayul.specs.Listing.{further_row, line_rows, symbol_row, symbols_head};
ghost use Rattle.yayul.specs.ListingObjects.{line_in};
ghost use Rattle.yayul.specs.Inside.Representation.{shown_by_mark, rows_of};

use crate::margin::Margin;
use crate::mark::Mark;
use crate::objects::write_line_objects;
use agc_text::next_line;
use arrayvec::ArrayVec;
use json_text::Notation;
use rope::Rope;
use space::place::Linear;
use space::resolve::window;
use space::{Bank, Offset};
use symbols::{NAME_LENGTH, Symbols, Value, value_text};
use words::{Write, WriteFailed, push_all, push_decimal, push_octal, write_all};

/// The most decimal digits of a number of 64 bits.
const DECIMAL_DIGITS: usize = 20;

/// How many places the number of a line has at least.
const NUMBER_PLACES: usize = 5;

/// The most bytes of a row before the text of its line: 20 digits, a blank, a place of 7 bytes, a blank, a word of 5
/// digits, and two blanks.
pub(crate) const FRONT: usize = 36;

/// The most bytes of a symbol's row: a name, a blank, a value and a line feed.
const SYMBOL_ROW: usize = 23;

/// The most bytes of the row before the symbols: `SYMBOLS `, 20 digits and a line feed.
const HEAD: usize = 29;

/// Writes the rows of the lines of a source, each with what it shows, and after its margin.
pub(crate) fn write_rows<M: Margin, W: Write>(
    notation: Notation,
    rope: &Rope,
    source: &[u8],
    marks: &[Mark],
    margin: &M,
    writer: &mut W,
) -> Result<(), WriteFailed>
    ensures written { W.told ≡ true → Writes (W.written writer.old) (W.written writer.new)
        (rows_of (line_in notation (M.text margin.now)) 1 rope.now (lines source.now) (map shown_by_mark marks.now))
        result }
    ensures failures { W.failures writer.new ≡ failures_after (W.failures writer.old) result }
{
    let mut rest = source;
    let mut number = 1;
    for mark in marks {
        let Some((text, after)) = next_line(rest) else {
            return Ok(());
        };
        write_line_in(notation, number, rope, text, mark, margin, writer)?;
        rest = after;
        number += 1;
    }
    Ok(())
}

// Writes what is written of a line in a notation.
fn write_line_in<M: Margin, W: Write>(
    notation: Notation,
    number: u64,
    rope: &Rope,
    text: &[u8],
    mark: &Mark,
    margin: &M,
    writer: &mut W,
) -> Result<(), WriteFailed>
    ensures written { W.told ≡ true → Writes (W.written writer.old) (W.written writer.new)
        (line_in notation (M.text margin.now) number rope.now text.now (shown_by_mark mark.now)) result }
    ensures failures { W.failures writer.new ≡ failures_after (W.failures writer.old) result }
{
    match notation {
        Notation::Text => write_line(number, rope, text, mark, margin, writer),
        Notation::Json => write_line_objects(number, rope, text, mark, margin, writer),
    }
}

// Writes the rows of a line.
fn write_line<M: Margin, W: Write>(
    number: u64,
    rope: &Rope,
    text: &[u8],
    mark: &Mark,
    margin: &M,
    writer: &mut W,
) -> Result<(), WriteFailed>
    ensures written { W.told ≡ true → Writes (W.written writer.old) (W.written writer.new)
        (line_rows (M.text margin.now) number rope.now text.now (shown_by_mark mark.now)) result }
    ensures failures { W.failures writer.new ≡ failures_after (W.failures writer.old) result }
{
    write_first_row(number, rope, text, mark, margin, writer)?;
    write_further_rows(number, rope, mark, margin, writer)
}

// Writes the first row of a line.
fn write_first_row<M: Margin, W: Write>(
    number: u64,
    rope: &Rope,
    text: &[u8],
    mark: &Mark,
    margin: &M,
    writer: &mut W,
) -> Result<(), WriteFailed>
    ensures written { W.told ≡ true → Writes (W.written writer.old) (W.written writer.new)
        (M.text margin.now (slice_get (shown_by_mark mark.now).words 0)
        ++ (row_front number rope.now (shown_by_mark mark.now) text.now ++ text.now ++ codes "\n")) result }
    ensures failures { W.failures writer.new ≡ failures_after (W.failures writer.old) result }
{
    margin.write(first_word(mark), writer)?;
    let front = row_front(number, rope, mark, text);
    write_row(front.as_slice(), text, writer)
}

// Writes the front of a row, its text and a line feed.
pub(crate) fn write_row<W: Write>(
    front: &[u8],
    text: &[u8],
    writer: &mut W,
) -> Result<(), WriteFailed>
    ensures written { W.told ≡ true → Writes (W.written writer.old) (W.written writer.new)
        (front.now ++ text.now ++ codes "\n") result }
    ensures failures { W.failures writer.new ≡ failures_after (W.failures writer.old) result }
{
    write_all(writer, front)?;
    write_ended(text, writer)
}

// The place of the word on the first row of a line.
pub(crate) fn first_word(mark: &Mark) -> Option<(Bank, Offset)>
    ensures { result ≡ slice_get (shown_by_mark mark.now).words 0 }
{
    match mark {
        Mark::Word(bank, offset) | Mark::Words(bank, offset, _) => Some((*bank, *offset)),
        Mark::Nothing | Mark::Erasable(_) | Mark::Fixed(..) => None,
    }
}

// Writes a text and a line feed.
fn write_ended<W: Write>(text: &[u8], writer: &mut W) -> Result<(), WriteFailed>
    ensures written { W.told ≡ true → Writes (W.written writer.old) (W.written writer.new) (text.now ++ codes "\n")
        result }
    ensures failures { W.failures writer.new ≡ failures_after (W.failures writer.old) result }
{
    write_all(writer, text)?;
    write_all(writer, b"\n")
}

// Writes the row of a second word, where there is one.
fn write_further_rows<M: Margin, W: Write>(
    number: u64,
    rope: &Rope,
    mark: &Mark,
    margin: &M,
    writer: &mut W,
) -> Result<(), WriteFailed>
    ensures written { W.told ≡ true → Writes (W.written writer.old) (W.written writer.new)
        (flat_map (λ p. M.text margin.now (Some p) ++ further_row number rope.now p)
        (drop 1 (shown_by_mark mark.now).words)) result }
    ensures failures { W.failures writer.new ≡ failures_after (W.failures writer.old) result }
{
    match mark {
        Mark::Words(bank, _, second) => {
            margin.write(Some((*bank, *second)), writer)?;
            write_all(writer, further_row(number, rope, *bank, *second).as_slice())
        }
        Mark::Nothing | Mark::Erasable(_) | Mark::Fixed(..) | Mark::Word(..) => Ok(()),
    }
}

// The row of a second word.
pub(crate) fn further_row(
    number: u64,
    rope: &Rope,
    bank: Bank,
    offset: Offset,
) -> ArrayVec<u8, FRONT>
    ensures { result.items ≡ further_row number rope.now (bank, offset) }
{
    let mut line = number_column(number);
    push_word(&mut line, rope, bank, offset);
    push_all(&mut line, b"\n");
    line
}

// What stands on a row before the text of its line.
pub(crate) fn row_front(number: u64, rope: &Rope, mark: &Mark, text: &[u8]) -> ArrayVec<u8, FRONT>
    ensures { result.items ≡ row_front number rope.now (shown_by_mark mark.now) text.now }
{
    let mut line = number_column(number);
    push_mark(&mut line, rope, mark);
    push_gap(&mut line, text);
    line
}

// Appends the blanks before a text, where there is one.
pub(crate) fn push_gap(line: &mut ArrayVec<u8, FRONT>, text: &[u8])
    requires { array_vec_len line.old ≤ 34 }
    ensures { line.new.items ≡ line.old.items ++ (if length text.now == 0 then [] else codes "  ") }
{
    if !text.is_empty() {
        push_all(line, b"  ");
    }
}

// The number of a line, and a blank.
#[tactic(auto, using(words::proofs::Digits::short_decimal), unfolding(crate::specs::Listing::number_column))]
pub(crate) fn number_column(number: u64) -> ArrayVec<u8, FRONT>
    ensures items { result.items ≡ number_column number }
    ensures short { array_vec_len result ≤ 21 }
{
    let mut digits: ArrayVec<u8, DECIMAL_DIGITS> = ArrayVec::new();
    push_decimal(&mut digits, number);
    let mut line = ArrayVec::new();
    push_blanks(&mut line, NUMBER_PLACES.saturating_sub(digits.len()));
    push_all(&mut line, digits.as_slice());
    push_all(&mut line, b" ");
    line
}

// Appends the columns of a place and a word.
fn push_mark(line: &mut ArrayVec<u8, FRONT>, rope: &Rope, mark: &Mark)
    requires { array_vec_len line.old ≤ 21 }
    ensures items { line.new.items ≡ line.old.items ++ columns rope.now (shown_by_mark mark.now) }
    ensures len { array_vec_len line.new ≡ array_vec_len line.old + 13 }
{
    match mark {
        Mark::Nothing => push_blanks(line, 13),
        Mark::Erasable(place) => {
            push_place(line, Linear::Erasable(*place));
            push_blanks(line, 6);
        }
        Mark::Fixed(bank, offset) => {
            push_place(line, Linear::Fixed(*bank, *offset));
            push_blanks(line, 6);
        }
        Mark::Word(bank, offset) => push_word(line, rope, *bank, *offset),
        Mark::Words(bank, offset, _) => push_word(line, rope, *bank, *offset),
    }
}

// Appends a place of fixed memory and the word that stands there.
#[tactic(auto, unfolding(crate::specs::Listing::word_columns))]
fn push_word(line: &mut ArrayVec<u8, FRONT>, rope: &Rope, bank: Bank, offset: Offset)
    requires { array_vec_len line.old ≤ 21 }
    ensures items { line.new.items ≡ line.old.items ++ word_columns rope.now bank offset }
    ensures len { array_vec_len line.new ≡ array_vec_len line.old + 13 }
{
    push_place(line, Linear::Fixed(bank, offset));
    push_all(line, b" ");
    push_octal(line, 5, rope.word(bank, offset).to_u16());
}

// Appends a place.
#[tactic(auto, unfolding(crate::specs::Listing::place_text))]
pub(crate) fn push_place<const N: usize>(line: &mut ArrayVec<u8, N>, place: Linear)
    requires { array_vec_len line.old + 7 ≤ N }
    ensures items { line.new.items ≡ line.old.items ++ place_text place }
    ensures len { array_vec_len line.new ≡ array_vec_len line.old + 7 }
{
    push_bank(line, &place);
    push_all(line, b",");
    push_octal(line, 4, window(place).number());
}

// Appends the bank of a place.
fn push_bank<const N: usize>(line: &mut ArrayVec<u8, N>, place: &Linear)
    requires { array_vec_len line.old + 2 ≤ N }
    ensures items { line.new.items ≡ line.old.items ++ bank_text place.now }
    ensures len { array_vec_len line.new ≡ array_vec_len line.old + 2 }
{
    match place {
        Linear::Erasable(place) => {
            push_all(line, b"E");
            push_octal(line, 1, place.number() / 0o400);
        }
        Linear::Fixed(bank, _) => push_octal(line, 2, bank.number()),
    }
}

/// Appends blanks.
pub fn push_blanks<const N: usize>(line: &mut ArrayVec<u8, N>, count: usize)
    requires { array_vec_len line.old + count ≤ N }
    ensures items { line.new.items ≡ line.old.items ++ blanks count }
    ensures len { array_vec_len line.new ≡ array_vec_len line.old + count }
{
    for i in 0..count {
        line.push(b' ');
    }
}

/// Writes how many symbols there are, and a row for each.
pub(crate) fn write_symbols<W: Write>(symbols: &Symbols, writer: &mut W) -> Result<(), WriteFailed>
    ensures written { W.told ≡ true → Writes (W.written writer.old) (W.written writer.new)
        (symbols_head symbols.now ++ flat_map symbol_row symbols.now) result }
    ensures failures { W.failures writer.new ≡ failures_after (W.failures writer.old) result }
{
    write_all(writer, symbols_head(symbols).as_slice())?;
    write_symbol_rows(symbols, writer)
}

// Writes a row for each symbol.
fn write_symbol_rows<W: Write>(symbols: &Symbols, writer: &mut W) -> Result<(), WriteFailed>
    ensures written { W.told ≡ true → Writes (W.written writer.old) (W.written writer.new)
        (flat_map symbol_row symbols.now) result }
    ensures failures { W.failures writer.new ≡ failures_after (W.failures writer.old) result }
{
    for index in 0..symbols.len() {
        let Some(symbol) = symbols.entry(index) else {
            unreachable!()
        };
        write_all(writer, symbol_row(symbol.0, symbol.1).as_slice())?;
    }
    Ok(())
}

// The row before the symbols.
#[tactic(auto, using(words::proofs::Digits::short_decimal), unfolding(crate::specs::Listing::symbols_head))]
fn symbols_head(symbols: &Symbols) -> ArrayVec<u8, HEAD>
    ensures { result.items ≡ symbols_head symbols.now }
{
    let mut line = ArrayVec::new();
    push_all(&mut line, b"SYMBOLS ");
    push_decimal(&mut line, symbols.len() as u64);
    push_all(&mut line, b"\n");
    line
}

// The row of a symbol.
#[tactic(auto, unfolding(crate::specs::Listing::symbol_row))]
fn symbol_row(name: &[u8], value: Value) -> ArrayVec<u8, SYMBOL_ROW>
    requires { length name.now ≤ NAME_LENGTH }
    ensures { result.items ≡ symbol_row (name.now, value) }
{
    let mut line = ArrayVec::new();
    push_all(&mut line, name);
    push_blanks(&mut line, NAME_LENGTH - name.len());
    push_all(&mut line, b" ");
    push_all(&mut line, value_text(value).as_slice());
    push_all(&mut line, b"\n");
    line
}
