//! What a step has written.

ghost use Rattle.std.specs.Prelude.{◌≡◌, ◌≤◌, ◌<◌, ◌+◌, ◌++◌, length};
ghost use Rattle.arrayvec.specs.ArrayVec.{array_vec_len};
ghost use Rattle.differ.specs.MainSteps.{same_written, written_at, written_by};

use crate::states::reading;
use arrayvec::ArrayVec;
use cpu::{Cell, Machine};
use words::Wide;

/// A cell that a step has written, with what is read there then.
#[derive(Clone, Copy, PartialEq)]
pub(crate) struct Written {
    pub(crate) cell: Cell,
    pub(crate) word: Wide,
}

impl Default for Written {
    fn default() -> Written {
        Written {
            cell: Cell::A,
            word: Wide::of_u16(0),
        }
    }
}

/// The most cells that a step writes.
pub(crate) const MOST_WRITTEN: usize = 10;

pub(crate) type AllWritten = ArrayVec<Written, MOST_WRITTEN>;

/// Some cells but Z, with what is read there.
pub(crate) fn written_by(machine: &Machine, cells: &[Cell]) -> AllWritten
    requires { length cells.now ≤ 10 }
    ensures { result.items ≡ written_by machine.now.cells cells.now }
{
    let mut all = ArrayVec::new();
    for cell in cells {
        keep_written(&mut all, machine, *cell);
    }
    all
}

/// Appends a cell with what is read there: nothing of Z.
fn keep_written(all: &mut AllWritten, machine: &Machine, cell: Cell)
    requires { array_vec_len all.old < 10 }
    ensures items { all.new.items ≡ all.old.items ++ written_at machine.now.cells cell }
    ensures short { array_vec_len all.new ≤ array_vec_len all.old + 1 }
{
    if cell != Cell::Z {
        all.push(Written {
            cell,
            word: reading(machine, cell),
        });
    }
}

/// Whether the same was written in the same cells.
pub(crate) fn same_written(one: &[Written], other: &[Written]) -> bool
    ensures { result ≡ same_written one.now other.now }
{
    one == other
}
