//! How a cell is told.

ghost use Rattle.std.specs.Prelude.{◌≡◌, ◌+◌, ◌-◌, ◌<◌, ◌≤◌, ◌++◌};
ghost use Rattle.arrayvec.specs.ArrayVec.{array_vec_len};
ghost use Rattle.access.specs.CellText.{cell_text, erasable_cell, near_cell};

use arrayvec::ArrayVec;
use cpu::Cell;
use names::{Line, place_before, push_distance};
use space::{Eras, Linear};
use trace::{Names, PlaceNames, cell_name, place_name, place_text};
use words::push_all;

/// A cell by its name, or by the nearest name before it, or as a listing has it.
pub(crate) fn cell_text(names: &PlaceNames, cell: Cell) -> Line
    ensures items { result.items ≡ cell_text names.now cell }
    ensures short { array_vec_len result ≤ 14 }
{
    let mut line = ArrayVec::new();
    match Eras::try_new(cell.number()) {
        Some(place) => push_erasable(&mut line, names, place),
        None => push_all(&mut line, cell_name(names, cell).as_slice()),
    }
    line
}

/// Appends an erasable place.
fn push_erasable(line: &mut Line, names: &PlaceNames, place: Eras)
    requires { array_vec_len line.old ≤ 30 }
    ensures items { line.new.items ≡ line.old.items ++ erasable_cell names.now place }
    ensures short { array_vec_len line.new ≤ array_vec_len line.old + 14 }
{
    match place_name(names, Linear::Erasable(place)) {
        Some(name) => push_all(line, name),
        None => push_near(line, names, place),
    }
}

/// Appends an erasable place by the nearest name before it, or as a listing has it.
fn push_near(line: &mut Line, names: &PlaceNames, place: Eras)
    requires { array_vec_len line.old ≤ 30 }
    ensures items { line.new.items ≡ line.old.items ++ near_cell names.now place }
    ensures short { array_vec_len line.new ≤ array_vec_len line.old + 14 }
{
    for distance in 0..place.number() + 1 {
        if let Some(name) = names.symbol_at(&place_before(&Linear::Erasable(place), distance)) {
            push_all(line, name);
            push_distance(line, distance);
            return;
        }
    }
    push_all(line, place_text(Linear::Erasable(place)).as_slice());
}
