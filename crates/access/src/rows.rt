//! The rows of a text.

ghost use Rattle.std.specs.Prelude.{◌≡◌, ◌+◌, ◌*◌, ◌-◌, ◌<◌, ◌≤◌, ◌++◌, decimal, get_or, length, List, ℕ};
ghost use Rattle.std.specs.List.{flat_map, range_with_len};
ghost use Rattle.arrayvec.specs.ArrayVec.{array_vec_len};
ghost use Rattle.cover.specs.CoverText.{column};
ghost use Rattle.access.specs.Accesses.{row_count};
ghost use Rattle.access.specs.AccessText.{level_row, level_row_of, level_rows};
ghost use Rattle.access.specs.Levels.{level_name, levels};
ghost use Rattle.trace.specs.TraceLines.{field};

use crate::level::{LEVELS, level_name};
use crate::step_slots::slot_of;
use crate::tally::Tally;
use arrayvec::ArrayVec;
use trace::decimal_text;
use words::push_all;
use yayul::push_blanks;

/// The most bytes of the rows of a cell or place: 13 of two columns of at most 21 bytes, a level of 11, and a name of
/// at most 48; and one of a shared cell.
const ROWS: usize = 1536;

pub(crate) type Rows = ArrayVec<u8, ROWS>;

/// How wide the columns of counts are.
const COUNT_WIDTH: usize = 10;

/// How wide the column of the level is.
const LEVEL_WIDTH: usize = 9;

/// The rows of all levels at which something is counted.
#[tactic(auto, using(audit::proofs::PartTexts::front_more))]
pub(crate) fn level_rows(tally: &Tally, row: usize, name: &[u8]) -> Rows
    requires row { row < row_count tally.now.view }
    requires few { row_count tally.now.view ≤ 50000 }
    requires short { length name.now ≤ 48 }
    ensures items { result.items ≡ level_rows (λ i. get_or tally.now.counts i 0) row name.now }
    ensures short { array_vec_len result ≤ 1326 }
{
    let mut rows = ArrayVec::new();
    for level in 0..LEVELS {
        let reads = tally.count(slot_of(row, level, 0));
        let writes = tally.count(slot_of(row, level, 1));
        push_level_row(&mut rows, reads, writes, level, name);
    }
    rows
}

/// Appends how often is read and written at a level, where either is.
#[tactic(auto, unfolding(crate::specs::AccessText::level_row))]
fn push_level_row(rows: &mut Rows, reads: u64, writes: u64, level: usize, name: &[u8])
    requires room { array_vec_len rows.old ≤ 1300 }
    requires level { level < levels }
    requires short { length name.now ≤ 48 }
    ensures items { rows.new.items ≡ rows.old.items ++ level_row reads writes level name.now }
    ensures short { array_vec_len rows.new ≤ array_vec_len rows.old + 102 }
{
    if reads == 0 && writes == 0 {
        return;
    }
    push_count(rows, reads);
    push_count(rows, writes);
    push_level(rows, level);
    push_all(rows, name);
}

/// Appends a column with a count.
fn push_count(rows: &mut Rows, count: u64)
    requires room { array_vec_len rows.old ≤ 1400 }
    ensures items { rows.new.items ≡ rows.old.items ++ column (decimal count) }
    ensures short { array_vec_len rows.new ≤ array_vec_len rows.old + 21 }
{
    let digits = decimal_text(count);
    push_blanks(rows, COUNT_WIDTH.saturating_sub(digits.as_slice().len()));
    push_all(rows, digits.as_slice());
    push_all(rows, b" ");
}

/// Appends the column of a level.
fn push_level(rows: &mut Rows, level: usize)
    requires room { array_vec_len rows.old ≤ 1400 }
    requires level { level < levels }
    ensures items { rows.new.items ≡ rows.old.items ++ field 9 (level_name level) }
    ensures short { array_vec_len rows.new ≤ array_vec_len rows.old + 11 }
{
    let name = level_name(level);
    push_all(rows, name);
    push_blanks(rows, 2 + LEVEL_WIDTH.saturating_sub(name.len()));
}
