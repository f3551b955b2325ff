//! What a step has written, as text.

ghost use Rattle.std.specs.Prelude.{◌≡◌, ◌*◌, ◌+◌, ◌≤◌, ◌++◌, length, unwrap_or};
ghost use Rattle.std.specs.List.{flat_map};
ghost use Rattle.arrayvec.specs.ArrayVec.{array_vec_len};
ghost use Rattle.space.specs.declared.place.Linear.TheVariants.{Erasable};
ghost use Rattle.yayul.specs.Listing.{place_text};
ghost use Rattle.trace.specs.TraceLines.{cell_gap, cell_name, cell_reading, cell_shown, full_name, or_none, place_name};
ghost use Rattle.trace.specs.TraceLines.{written};

use crate::fields::{Text, place_text};
use crate::names::{Names, place_name};
use crate::near::{CELL_GAP, full_name};
use arrayvec::ArrayVec;
use cpu::{Cell, Machine};
use space::{Chan, Eras, Linear};
use words::{push_all, push_octal};

/// The most bytes of a line: three numbers of at most 20 digits, the fields that tell what the step is, eight spots,
/// ten cells, and what stands between.
const LINE: usize = 640;

pub(crate) type Line = ArrayVec<u8, LINE>;

/// The number of the first cell that is a channel's.
const FIRST_CHANNEL: u16 = 0o4000;

/// Appends the cells that a step has written, with what is read there, or the sign that there is none.
pub(crate) fn push_all_written<N: Names>(
    line: &mut Line,
    names: &N,
    machine: &Machine,
    cells: &[Cell],
)
    requires room { array_vec_len line.old ≤ 300 }
    requires few { length cells.now ≤ 10 }
    ensures items { line.new.items ≡ line.old.items
        ++ or_none (flat_map (written (N.table names.now) machine.now.cells) cells.now) }
    ensures short { array_vec_len line.new ≤ array_vec_len line.old + 200 }
{
    let before = line.len();
    push_each(line, names, machine, cells);
    if line.len() == before {
        push_all(line, b" -");
    }
}

/// Appends each cell that a step has written.
fn push_each<N: Names>(line: &mut Line, names: &N, machine: &Machine, cells: &[Cell])
    requires room { array_vec_len line.old ≤ 300 }
    requires few { length cells.now ≤ 10 }
    ensures items { line.new.items ≡ line.old.items
        ++ flat_map (written (N.table names.now) machine.now.cells) cells.now }
    ensures short { array_vec_len line.new ≤ array_vec_len line.old + 20 * length cells.now }
{
    for cell in cells {
        push_written(line, names, machine, *cell);
    }
}

/// Appends a cell that a step has written, with what is read there: nothing of Z.
fn push_written<N: Names>(line: &mut Line, names: &N, machine: &Machine, cell: Cell)
    requires { array_vec_len line.old ≤ 560 }
    ensures items { line.new.items ≡ line.old.items ++ written (N.table names.now) machine.now.cells cell }
    ensures short { array_vec_len line.new ≤ array_vec_len line.old + 20 }
{
    if cell != Cell::Z {
        push_all(line, b" ");
        push_all(line, cell_shown(names, cell).as_slice());
        push_all(line, b"=");
        push_all(line, cell_reading(machine, cell).as_slice());
    }
}

/// A cell: a place by its name, or as a listing has it; or a channel.
pub fn cell_name<N: Names>(names: &N, cell: Cell) -> Text
    ensures items { result.items ≡ cell_name (N.table names.now) cell }
    ensures short { array_vec_len result ≤ 8 }
{
    let number = cell.number();
    match Eras::try_new(number) {
        Some(place) => erasable_name(names, place),
        None => {
            let mut text = ArrayVec::new();
            push_all(&mut text, b"CH");
            push_octal(&mut text, 3, number - FIRST_CHANNEL);
            text
        }
    }
}

/// The same, where a place without a name is called by the symbol before it.
pub(crate) fn cell_shown<N: Names>(names: &N, cell: Cell) -> Text
    ensures items { result.items ≡ cell_shown (N.table names.now) cell }
    ensures short { array_vec_len result ≤ 12 }
{
    let number = cell.number();
    match Eras::try_new(number) {
        Some(place) => erasable_shown(names, place),
        None => cell_name(names, cell),
    }
}

/// An erasable place by its name or the symbol before it, or as a listing has it.
fn erasable_shown<N: Names>(names: &N, number: Eras) -> Text
    ensures items { result.items ≡ unwrap_or (full_name cell_gap (N.table names.now) (Erasable number))
        (place_text (Erasable number)) }
    ensures short { array_vec_len result ≤ 12 }
{
    match full_name(CELL_GAP, names, &Linear::Erasable(number)) {
        Some(name) => name,
        None => place_text(Linear::Erasable(number)),
    }
}

/// An erasable place by its name, or as a listing has it.
fn erasable_name<N: Names>(names: &N, place: Eras) -> Text
    ensures items { result.items ≡ unwrap_or (place_name (N.table names.now) (Erasable place))
        (place_text (Erasable place)) }
    ensures short { array_vec_len result ≤ 8 }
{
    match place_name(names, Linear::Erasable(place)) {
        Some(name) => {
            let mut text = ArrayVec::new();
            push_all(&mut text, name);
            text
        }
        None => place_text(Linear::Erasable(place)),
    }
}

/// What is read at a cell: 16 bits at A and Q, elsewhere a word.
pub fn cell_reading(machine: &Machine, cell: Cell) -> Text
    ensures items { result.items ≡ cell_reading machine.now.cells cell }
    ensures short { array_vec_len result ≤ 6 }
{
    let number = cell.number();
    let mut text = ArrayVec::new();
    match Eras::try_new(number) {
        Some(place) if place == Eras::A || place == Eras::Q => {
            push_octal(&mut text, 6, machine.reg(place).to_u16());
        }
        Some(place) => push_octal(&mut text, 5, machine.word(place).to_u16()),
        None => {
            let channel = Chan::of_low_bits(number - FIRST_CHANNEL);
            push_octal(&mut text, 5, machine.channel(channel).correct().to_u16());
        }
    }
    text
}
