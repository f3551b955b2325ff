//! The rows of a text.

ghost use Rattle.std.specs.Prelude.{◌≡◌, ◌+◌, ◌*◌, ◌-◌, ◌<◌, ◌≤◌, ◌++◌, decimal, get_or, length};
ghost use Rattle.arrayvec.specs.ArrayVec.{array_vec_len};
ghost use Rattle.delays.specs.Causes.{causes};
ghost use Rattle.delays.specs.DelayText.{best_row, cause_row, cell, columns, heading, share_rows, spent_rows};

use crate::cause::{CAUSES, cause_name};
use crate::mark::{Best, Stretch, cycles_of, share};
use crate::tally::Delays;
use arrayvec::ArrayVec;
use trace::decimal_text;
use words::push_all;
use yayul::push_blanks;

/// The most bytes of a part: rows of 17 causes of at most 37 bytes, two rows of at most 160, and more than the heading
/// needs.
const ROWS: usize = 1280;

pub(crate) type Rows = ArrayVec<u8, ROWS>;

/// How wide a column is.
const WIDTH: usize = 8;

/// The first rows: of how many steps, and the cycles of each cause.
#[tactic(auto, unfolding(crate::specs::DelayText::heading))]
pub(crate) fn heading(delays: &Delays) -> Rows
    ensures { result.items ≡ heading delays.now.steps delays.now.spent }
{
    let mut rows = ArrayVec::new();
    push_all(&mut rows, b"GREATEST OF THIS FEED IN ");
    push_all(&mut rows, decimal_text(delays.steps()).as_slice());
    push_all(&mut rows, b" STEPS\n");
    push_all(&mut rows, spent_rows(delays).as_slice());
    push_all(
        &mut rows,
        b"      GREATEST     MEAN    LEAST    COUNT     STEP\n",
    );
    rows
}

/// The cycles of each cause.
#[tactic(auto, using(audit::proofs::PartTexts::front_more))]
fn spent_rows(delays: &Delays) -> Rows
    ensures items { result.items ≡ spent_rows delays.now.spent }
    ensures short { array_vec_len result ≤ 646 }
{
    let mut rows = ArrayVec::new();
    for cause in 0..CAUSES {
        push_cause(&mut rows, b"SPENT ", delays.spent(cause), cause);
    }
    rows
}

/// Those of a stretch.
#[tactic(auto, using(audit::proofs::PartTexts::front_more))]
fn share_rows(stretch: &Stretch) -> Rows
    ensures items { result.items ≡ share_rows stretch.now }
    ensures short { array_vec_len result ≤ 646 }
{
    let mut rows = ArrayVec::new();
    for cause in 0..CAUSES {
        push_cause(&mut rows, b"  OF  ", share(stretch, cause), cause);
    }
    rows
}

/// Appends the cycles of a cause, where there are any.
#[tactic(auto, unfolding(crate::specs::DelayText::cause_row))]
fn push_cause(rows: &mut Rows, word: &[u8], cycles: u64, cause: usize)
    requires room { array_vec_len rows.old ≤ 1200 }
    requires word { length word.now ≤ 7 }
    requires cause { cause < causes }
    ensures items { rows.new.items ≡ rows.old.items ++ cause_row word.now cycles cause }
    ensures short { array_vec_len rows.new ≤ array_vec_len rows.old + 38 }
{
    if cycles == 0 {
        return;
    }
    push_all(rows, word);
    push_cell(rows, cycles);
    push_all(rows, cause_name(cause));
    push_all(rows, b"\n");
}

/// A row of some stretches, and what the longest had of each cause.
#[tactic(auto, unfolding(crate::specs::DelayText::best_row))]
pub(crate) fn best_row(word: &[u8], best: &Best, name: &[u8], to: &[u8]) -> Rows
    requires word { length word.now ≤ 7 }
    requires name { length name.now ≤ 60 }
    requires to { length to.now ≤ 120 }
    ensures { result.items ≡ best_row word.now best.now name.now to.now }
{
    let mut rows = ArrayVec::new();
    if best.count == 0 {
        return rows;
    }
    push_all(&mut rows, word);
    push_columns(&mut rows, best);
    push_all(&mut rows, name);
    push_all(&mut rows, to);
    push_all(&mut rows, share_rows(&best.longest).as_slice());
    rows
}

/// Appends the columns of some stretches.
#[tactic(auto, unfolding(crate::specs::DelayText::columns))]
fn push_columns(rows: &mut Rows, best: &Best)
    requires room { array_vec_len rows.old ≤ 200 }
    requires some { 1 ≤ best.now.count }
    ensures items { rows.new.items ≡ rows.old.items ++ columns best.now }
    ensures short { array_vec_len rows.new ≤ array_vec_len rows.old + 105 }
{
    push_cell(rows, cycles_of(&best.longest));
    push_cell(rows, best.total / best.count);
    push_cell(rows, best.least);
    push_cell(rows, best.count);
    push_cell(rows, best.longest.step);
}

/// Appends a number right in a column.
fn push_cell(rows: &mut Rows, number: u64)
    requires room { array_vec_len rows.old ≤ 1230 }
    ensures items { rows.new.items ≡ rows.old.items ++ cell (decimal number) }
    ensures short { array_vec_len rows.new ≤ array_vec_len rows.old + 21 }
{
    let digits = decimal_text(number);
    push_blanks(rows, WIDTH.saturating_sub(digits.as_slice().len()));
    push_all(rows, digits.as_slice());
    push_all(rows, b" ");
}
