//! What a step counts.

ghost use Rattle.std.specs.Prelude.{◌≡◌, ◌+◌, ◌*◌, ◌<◌, ◌≤◌, ◌++◌, IfSome, length};
ghost use Rattle.std.specs.List.{flat_map};
ghost use Rattle.arrayvec.specs.ArrayVec.{array_vec_len};
ghost use Rattle.cover.specs.Tallies.{account_count};
ghost use Rattle.cpu.specs.NextStep.{next_step};
ghost use Rattle.cpu.specs.State.{FitsRun};
ghost use Rattle.access.specs.Accesses.{cell_in, row_count, row_in, slot, slot_count, slots, slots_after};
ghost use Rattle.access.specs.Below.{AreBelow};
ghost use Rattle.access.specs.Levels.{levels};

use crate::kept::Slots;
use crate::level::{account_in, level_of};
use crate::view::View;
use arrayvec::ArrayVec;
use cover::{ACCOUNTS, number_of};
use cpu::{Cell, Machine, NextStep, Processor, Spot};

/// How many cells there are.
const CELLS: usize = 0o5000;

/// How many counts a row has: reads and writes at each level.
pub(crate) const ROW: usize = 26;

/// How often a step has read.
const READS: usize = 0;

/// How often it has written.
const WRITES: usize = 1;

/// What the next step counts, where an interrupt was entered last.
#[tactic(auto, unfolding(crate::specs::Accesses::slots_after))]
pub(crate) fn slots_after(
    view: &View,
    processor: &Processor,
    machine: &Machine,
    step: &NextStep,
    last: usize,
) -> Slots
    requires fits { FitsRun processor.now.scenario machine.now }
    requires step { step.now ≡ next_step processor.now.scenario machine.now }
    requires last { last ≤ 10 }
    ensures items { result.items ≡ slots_after view.now processor.now.scenario machine.now last }
    ensures known { AreBelow (slot_count view.now) (slots_after view.now processor.now.scenario machine.now last) }
    ensures short { length (slots_after view.now processor.now.scenario machine.now last) ≤ 18 }
{
    let number = number_of(account_in(step));
    let level = level_of(step, machine, last);
    let spots = processor.reads(machine);
    let cells = processor.targets(machine);
    let mut found = ArrayVec::new();
    push_reads(&mut found, view, number, level, spots.as_slice());
    push_writes(&mut found, view, number, level, cells.as_slice());
    found
}

/// Appends what a step at an account and at a level reads.
fn push_reads(found: &mut Slots, view: &View, number: usize, level: usize, spots: &[Spot])
    requires number { number < account_count }
    requires level { level < levels }
    requires few { length spots.now ≤ 8 }
    requires room { array_vec_len found.old ≤ 0 }
    requires known { AreBelow (slot_count view.now) found.old.items }
    ensures items { found.new.items ≡ found.old.items
        ++ flat_map (slots view.now number level 0) (flat_map cell_in spots.now) }
    ensures known { AreBelow (slot_count view.now) found.new.items }
    ensures len { array_vec_len found.new ≤ 8 }
{
    for spot in spots {
        push_spot(found, view, number, level, spot);
    }
}

/// Appends that a step reads a spot.
fn push_spot(found: &mut Slots, view: &View, number: usize, level: usize, spot: &Spot)
    requires number { number < account_count }
    requires level { level < levels }
    requires room { array_vec_len found.old ≤ 17 }
    requires known { AreBelow (slot_count view.now) found.old.items }
    ensures items { found.new.items ≡ found.old.items ++ flat_map (slots view.now number level 0) (cell_in spot.now) }
    ensures known { AreBelow (slot_count view.now) found.new.items }
    ensures len { array_vec_len found.new ≤ array_vec_len found.old + 1 }
{
    if let Spot::Cell(cell) = spot {
        push_cell(found, view, number, level, READS, *cell);
    }
}

/// Appends what a step at an account and at a level writes.
fn push_writes(found: &mut Slots, view: &View, number: usize, level: usize, cells: &[Cell])
    requires number { number < account_count }
    requires level { level < levels }
    requires few { length cells.now ≤ 10 }
    requires room { array_vec_len found.old ≤ 8 }
    requires known { AreBelow (slot_count view.now) found.old.items }
    ensures items { found.new.items ≡ found.old.items ++ flat_map (slots view.now number level 1) cells.now }
    ensures known { AreBelow (slot_count view.now) found.new.items }
    ensures len { array_vec_len found.new ≤ 18 }
{
    for cell in cells {
        push_cell(found, view, number, level, WRITES, *cell);
    }
}

/// Appends that a step reads (0) or writes (1) a cell.
#[tactic(auto, using(crate::proofs::Counting::below_append))]
fn push_cell(found: &mut Slots, view: &View, number: usize, level: usize, kind: usize, cell: Cell)
    requires number { number < account_count }
    requires level { level < levels }
    requires kind { kind < 2 }
    requires room { array_vec_len found.old ≤ 17 }
    requires known { AreBelow (slot_count view.now) found.old.items }
    ensures items { found.new.items ≡ found.old.items ++ slots view.now number level kind cell }
    ensures known { AreBelow (slot_count view.now) found.new.items }
    ensures len { array_vec_len found.new ≤ array_vec_len found.old + 1 }
{
    if let Some(row) = row_in(view, number, cell) {
        found.push(slot_of(row, level, kind) as u32);
    }
}

/// The row at which a cell is counted where a step at an account uses it, if it is.
fn row_in(view: &View, number: usize, cell: Cell) -> Option<usize>
    requires { number < account_count }
    ensures row { result ≡ row_in view.now number cell }
    ensures within { IfSome result (λ row. row < row_count view.now) }
{
    match view {
        View::All => Some(usize::from(cell.number())),
        View::One(one) => { if cell == *one { Some(number) } else { None } }
    }
}

/// How many rows there are.
pub(crate) fn rows_of(view: &View) -> usize
    ensures rows { result ≡ row_count view.now }
    ensures few { result ≤ 50000 }
{
    match view {
        View::All => CELLS,
        View::One(_) => ACCOUNTS,
    }
}

/// The number of what is counted: of a row, at a level, reads (0) or writes (1).
pub(crate) fn slot_of(row: usize, level: usize, kind: usize) -> usize
    requires row { row ≤ 50000 }
    requires level { level < levels }
    requires kind { kind < 2 }
    ensures { result ≡ slot row level kind }
{
    ROW * row + (2 * level + kind)
}
