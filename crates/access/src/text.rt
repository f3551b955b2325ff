//! The reads and writes of a run as text.

ghost use Rattle.std.specs.Prelude.{◌≡◌, ◌+◌, ◌*◌, ◌/◌, ◌%◌, ◌<◌, ◌≤◌, ◌==◌, ◌++◌, [], if◌then◌else◌, codes, get_or};
ghost use Rattle.std.specs.Prelude.{length, true};
ghost use Rattle.arrayvec.specs.ArrayVec.{array_vec_len};
ghost use Rattle.words.specs.Devices.{Writes, failures_after};
ghost use Rattle.cover.specs.Tallies.{account_count};
ghost use Rattle.rope.specs.Places.{bank_words};
ghost use Rattle.space.specs.Cells.{erasable_count};
ghost use Rattle.space.specs.declared.place.Linear.TheVariants.{Erasable};
ghost use Rattle.access.specs.CellText.{cell_text};
ghost use Rattle.access.specs.Levels.{level_name, levels};
ghost use Rattle.access.specs.declared.view.View.TheVariants.{All};
ghost use Rattle.yayul.specs.Listing.{place_text};
ghost use Rattle.names.specs.NamedLines.{named_line};
ghost use Rattle.access.specs.AccessText.{account_line, fixed_line, level_rows, row_name, row_text, rows_text};
ghost use Rattle.access.specs.AccessText.{shared_line, told_rows, unfixed_line, unread_line, writers};
ghost use Rattle.access.specs.Accesses.{row_count};

use crate::cell::cell_text;
use crate::level::{LEVELS, level_name};
use crate::rows::{Rows, level_rows};
use crate::shared::{is_shared, is_touched, is_unread};
use crate::step_slots::slot_of;
use crate::tally::Tally;
use crate::view::View;
use arrayvec::ArrayVec;
use cpu::Cell;
use names::{Line, line_of_word};
use rope::Rope;
use space::{BANK_WORDS, Bank, Eras, Linear, Offset};
use trace::{PlaceNames, place_text};
use words::{Write, WriteFailed, push_all, write_all};

/// The number of the first erasable place's account.
const FIRST_ERASABLE: usize = 3;

/// The number of the first account of fixed memory.
const FIRST_FIXED: usize = FIRST_ERASABLE + 0o4000;

/// Writes how often each cell was read and written at each level, as `       159        318 MAIN       TMP`: reads,
/// writes, the level and the cell; and below the rows of a cell `SHARED TMP WRITTEN BY MAIN T5RUPT` where it is shared,
/// and `UNREAD LAMP` where an erasable place is written and never read. Of one cell the rows tell in place of it each
/// place that has read or written it, with its word.
///
/// After a failure a beginning of it was written.
pub fn write_accesses<W: Write>(
    tally: &Tally,
    names: &PlaceNames,
    rope: &Rope,
    out: &mut W,
) -> Result<(), WriteFailed>
    ensures written { W.told ≡ true → Writes (W.written out.old) (W.written out.new)
        (rows_text tally.now.view names.now rope.now (λ i. get_or tally.now.counts i 0)) result }
    ensures failures { W.failures out.new ≡ failures_after (W.failures out.old) result }
{
    for row in 0..tally.rows() {
        write_row(tally, names, rope, row, out)?;
    }
    Ok(())
}

/// Writes the rows of a cell, or of a place.
#[tactic(auto, unfolding(crate::specs::AccessText::row_text))]
fn write_row<W: Write>(
    tally: &Tally,
    names: &PlaceNames,
    rope: &Rope,
    row: usize,
    out: &mut W,
) -> Result<(), WriteFailed>
    requires row { row < row_count tally.now.view }
    requires few { row_count tally.now.view ≤ 50000 }
    ensures written { W.told ≡ true → Writes (W.written out.old) (W.written out.new)
        (row_text tally.now.view names.now rope.now (λ i. get_or tally.now.counts i 0) row) result }
    ensures failures { W.failures out.new ≡ failures_after (W.failures out.old) result }
{
    if !is_touched(tally, row) {
        return Ok(());
    }
    let name = row_name(tally.view(), names, rope, row);
    let mut rows = level_rows(tally, row, name.as_slice());
    push_told(&mut rows, tally, names, row);
    write_all(out, rows.as_slice())
}

/// Appends that a cell is shared, or never read, where it is.
fn push_told(rows: &mut Rows, tally: &Tally, names: &PlaceNames, row: usize)
    requires room { array_vec_len rows.old ≤ 1326 }
    requires row { row < row_count tally.now.view }
    ensures { rows.new.items ≡ rows.old.items
        ++ told_rows tally.now.view names.now (λ i. get_or tally.now.counts i 0) row }
{
    match tally.view() {
        View::All => {
            let name = cell_of(names, row);
            push_shared(rows, tally, row, name.as_slice());
            push_unread(rows, tally, row, name.as_slice());
        }
        View::One(_) => {}
    }
}

/// Appends that a cell is shared, and what writes it, where it is.
fn push_shared(rows: &mut Rows, tally: &Tally, cell: usize, name: &[u8])
    requires room { array_vec_len rows.old ≤ 1326 }
    requires view { tally.now.view ≡ All }
    requires cell { cell < row_count tally.now.view }
    requires short { length name.now ≤ 14 }
    ensures items { rows.new.items ≡ rows.old.items ++ shared_line (λ i. get_or tally.now.counts i 0) cell name.now }
    ensures short { array_vec_len rows.new ≤ array_vec_len rows.old + 163 }
{
    if is_shared(tally, cell) {
        push_all(rows, shared_text(tally, cell, name).as_slice());
    }
}

/// That a cell is shared, and what writes it.
fn shared_text(tally: &Tally, cell: usize, name: &[u8]) -> Rows
    requires cell { cell < row_count tally.now.view }
    requires few { row_count tally.now.view ≤ 50000 }
    requires short { length name.now ≤ 14 }
    ensures items { result.items ≡ codes "SHARED " ++ name.now ++ codes " WRITTEN BY"
        ++ writers (λ i. get_or tally.now.counts i 0) cell ++ codes "\n" }
    ensures short { array_vec_len result ≤ 163 }
{
    let mut text = ArrayVec::new();
    push_all(&mut text, b"SHARED ");
    push_all(&mut text, name);
    push_all(&mut text, b" WRITTEN BY");
    push_all(&mut text, writers(tally, cell).as_slice());
    push_all(&mut text, b"\n");
    text
}

/// The levels that write a cell.
#[tactic(auto, using(audit::proofs::PartTexts::front_more), unfolding(crate::specs::AccessText::writers))]
fn writers(tally: &Tally, cell: usize) -> Rows
    requires cell { cell < row_count tally.now.view }
    requires few { row_count tally.now.view ≤ 50000 }
    ensures items { result.items ≡ writers (λ i. get_or tally.now.counts i 0) cell }
    ensures short { array_vec_len result ≤ 130 }
{
    let mut rows = ArrayVec::new();
    for level in 0..LEVELS {
        push_writer(&mut rows, tally.count(slot_of(cell, level, 1)), level);
    }
    rows
}

/// Appends a level that writes so often, where it does.
fn push_writer(rows: &mut Rows, writes: u64, level: usize)
    requires room { array_vec_len rows.old ≤ 200 }
    requires level { level < levels }
    ensures items { rows.new.items ≡ rows.old.items ++ (if writes == 0 then [] else codes " " ++ level_name level) }
    ensures short { array_vec_len rows.new ≤ array_vec_len rows.old + 10 }
{
    if writes != 0 {
        push_all(rows, b" ");
        push_all(rows, level_name(level));
    }
}

/// Appends that a cell is written and never read, where it is.
fn push_unread(rows: &mut Rows, tally: &Tally, cell: usize, name: &[u8])
    requires room { array_vec_len rows.old ≤ 1500 }
    requires view { tally.now.view ≡ All }
    requires cell { cell < row_count tally.now.view }
    requires short { length name.now ≤ 14 }
    ensures { rows.new.items ≡ rows.old.items ++ unread_line (λ i. get_or tally.now.counts i 0) cell name.now }
{
    if is_unread(tally, cell) {
        push_all(rows, b"UNREAD ");
        push_all(rows, name);
        push_all(rows, b"\n");
    }
}

/// What a row is of: a cell, or a place.
fn row_name(view: View, names: &PlaceNames, rope: &Rope, row: usize) -> Line
    requires { row < row_count view }
    ensures items { result.items ≡ row_name view names.now rope.now row }
    ensures short { array_vec_len result ≤ 48 }
{
    match view {
        View::All => cell_line(names, row),
        View::One(_) => account_line(names, rope, row),
    }
}

/// A cell.
fn cell_line(names: &PlaceNames, cell: usize) -> Line
    requires { cell < 0o5000 }
    ensures items { result.items ≡ cell_text names.now cell ++ codes "\n" }
    ensures short { array_vec_len result ≤ 48 }
{
    let mut line = cell_of(names, cell);
    push_all(&mut line, b"\n");
    line
}

/// A cell by its number.
fn cell_of(names: &PlaceNames, cell: usize) -> Line
    requires { cell < 0o5000 }
    ensures items { result.items ≡ cell_text names.now cell }
    ensures short { array_vec_len result ≤ 14 }
{
    match Cell::try_new(cell as u16) {
        Some(cell) => cell_text(names, cell),
        None => unreachable!(),
    }
}

/// What stands at an account.
pub fn account_line(names: &PlaceNames, rope: &Rope, number: usize) -> Line
    requires { number < account_count }
    ensures items { result.items ≡ account_line names.now rope.now number }
    ensures short { array_vec_len result ≤ 48 }
{
    if number < FIRST_FIXED {
        line_of_unfixed(number)
    } else {
        fixed_line(names, rope, number - FIRST_FIXED)
    }
}

/// An input, an entry, a word that waited, or an erasable place.
fn line_of_unfixed(number: usize) -> Line
    requires { number < 3 + erasable_count }
    ensures items { result.items ≡ unfixed_line number }
    ensures short { array_vec_len result ≤ 48 }
{
    let mut line = ArrayVec::new();
    if number == 0 {
        push_all(&mut line, b"INPUT\n");
    } else if number == 1 {
        push_all(&mut line, b"ENTRY\n");
    } else if number == 2 {
        push_all(&mut line, b"BRUPT\n");
    } else {
        push_erasable(&mut line, number - FIRST_ERASABLE);
    }
    line
}

/// Appends an erasable place.
fn push_erasable(line: &mut Line, number: usize)
    requires number { number < erasable_count }
    requires room { array_vec_len line.old ≤ 30 }
    ensures items { line.new.items ≡ line.old.items ++ (place_text (Erasable number) ++ codes "\n") }
    ensures len { array_vec_len line.new ≤ array_vec_len line.old + 8 }
{
    match Eras::try_new(number as u16) {
        Some(place) => push_all(line, place_text(Linear::Erasable(place)).as_slice()),
        None => unreachable!(),
    }
    push_all(line, b"\n");
}

/// A place of fixed memory with its word.
fn fixed_line(names: &PlaceNames, rope: &Rope, number: usize) -> Line
    requires { number < bank_words * 0o50 }
    ensures items { result.items ≡ fixed_line names.now rope.now number }
    ensures short { array_vec_len result ≤ 48 }
{
    let words = usize::from(BANK_WORDS);
    match (
        Bank::try_new((number / words) as u16),
        Offset::try_new((number % words) as u16),
    ) {
        (Some(bank), Some(offset)) => line_of_word(rope, names, bank, offset),
        _ => unreachable!(),
    }
}
