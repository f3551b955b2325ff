//! Whether a cell is shared, or written and never read.

ghost use Rattle.std.specs.Prelude.{◌≡◌, ◌+◌, ◌*◌, ◌<◌, ◌≤◌, get_or};
ghost use Rattle.access.specs.Accesses.{row_count};
ghost use Rattle.access.specs.AccessText.{any_does, interrupt_does, is_shared, is_touched, is_unread, main_does};
ghost use Rattle.access.specs.declared.view.View.TheVariants.{All};

use crate::level::{ALLOWED, LEVELS};
use crate::step_slots::{ROW, slot_of};
use crate::tally::Tally;

/// The last of the registers, which are told as shared never.
const LAST_REGISTER: usize = 6;

/// Whether anything is counted of a row.
pub(crate) fn is_touched(tally: &Tally, row: usize) -> bool
    requires { row < row_count tally.now.view }
    ensures { result ≡ is_touched (λ i. get_or tally.now.counts i 0) row }
{
    let first = ROW * row;
    for place in 0..ROW {
        if tally.count(first + place) != 0 {
            return true;
        }
    }
    false
}

/// Whether a cell is shared: the main program and an interrupt that may come meanwhile use it, and one of them writes
/// it.
pub(crate) fn is_shared(tally: &Tally, cell: usize) -> bool
    requires view { tally.now.view ≡ All }
    requires cell { cell < row_count tally.now.view }
    ensures { result ≡ is_shared (λ i. get_or tally.now.counts i 0) cell }
{
    if cell <= LAST_REGISTER {
        return false;
    }
    let is_read_below = interrupt_does(tally, cell, 0);
    let is_written_below = interrupt_does(tally, cell, 1);
    (main_does(tally, cell, 1) && (is_read_below || is_written_below))
        || (main_does(tally, cell, 0) && is_written_below)
}

/// How many erasable places there are.
const ERASABLE_COUNT: usize = 0o4000;

/// Whether an erasable place that is no register is written and never read.
pub(crate) fn is_unread(tally: &Tally, cell: usize) -> bool
    requires view { tally.now.view ≡ All }
    requires cell { cell < row_count tally.now.view }
    ensures { result ≡ is_unread (λ i. get_or tally.now.counts i 0) cell }
{
    cell > LAST_REGISTER
        && cell < ERASABLE_COUNT
        && any_does(tally, cell, 1)
        && !any_does(tally, cell, 0)
}

/// Whether a cell is read (0) or written (1) at some level.
fn any_does(tally: &Tally, cell: usize, kind: usize) -> bool
    requires cell { cell < row_count tally.now.view }
    requires few { row_count tally.now.view ≤ 50000 }
    requires kind { kind < 2 }
    ensures { result ≡ any_does (λ i. get_or tally.now.counts i 0) cell kind 13 }
{
    for level in 0..LEVELS {
        if tally.count(slot_of(cell, level, kind)) != 0 {
            return true;
        }
    }
    false
}

/// Whether the main program reads (0) or writes (1) a cell where interrupts may come.
fn main_does(tally: &Tally, cell: usize, kind: usize) -> bool
    requires cell { cell < row_count tally.now.view }
    requires few { row_count tally.now.view ≤ 50000 }
    requires kind { kind < 2 }
    ensures { result ≡ main_does (λ i. get_or tally.now.counts i 0) cell kind }
{
    tally.count(slot_of(cell, ALLOWED, kind)) != 0
}

/// Whether an interrupt reads (0) or writes (1) a cell.
fn interrupt_does(tally: &Tally, cell: usize, kind: usize) -> bool
    requires cell { cell < row_count tally.now.view }
    requires few { row_count tally.now.view ≤ 50000 }
    requires kind { kind < 2 }
    ensures { result ≡ interrupt_does (λ i. get_or tally.now.counts i 0) cell kind }
{
    for before in 0..10 {
        if tally.count(slot_of(cell, before + 1, kind)) != 0 {
            return true;
        }
    }
    false
}
