//! The text of a step of a chain.

ghost use Rattle.std.specs.Prelude.{◌≡◌, ◌+◌, ◌*◌, ◌<◌, ◌≤◌, ◌^◌, ◌++◌, Bool, Some, length, unwrap_or, codes};
ghost use Rattle.std.specs.List.{flat_map};
ghost use Rattle.arrayvec.specs.ArrayVec.{array_vec_len};
ghost use Rattle.space.specs.declared.place.Linear.TheVariants.{Fixed};
ghost use Rattle.cpu.specs.State.{FitsRun};
ghost use Rattle.trace.specs.TraceLines.{place_name};
ghost use Rattle.debugger.specs.Whys.{cell_text, fixed_text, spot_text, kind_part, cells_part, reads_part};
ghost use Rattle.origins.specs.Following.{cells_of};
ghost use Rattle.debugger.specs.Whys.{entered_mark, by_line, end_text};

use arrayvec::ArrayVec;
use cpu::{Cell, CellSet, Machine, NextStep, Processor, Spot};
use origins::{Cells, cells_of};
use space::{Bank, Linear, Offset};
use symbols::Symbols;
use trace::{cell_name, cell_reading, fetched_text, input_text, place_name, place_text};
use words::{push_all, push_decimal, push_octal};

/// The most bytes of what a step is, or of a spot with its word.
const PIECE: usize = 48;

/// What a step is, or a spot with its word.
pub(crate) type Piece = ArrayVec<u8, PIECE>;

/// The most bytes of the spots of a step: 16 for each of 60.
const PART: usize = 960;

/// The cells or the spots of a step, each with its word.
pub(crate) type Part = ArrayVec<u8, PART>;

/// The most bytes of the line of a step: two parts, what the step is, its number, its mark, and what stands between.
const LINK_LINE: usize = 2_048;

/// The line of a step.
pub(crate) type LinkLine = ArrayVec<u8, LINK_LINE>;

/// The most bytes of the last line: 16 for each cell, and a word.
const END: usize = 41_000;

/// The last line.
pub(crate) type EndText = ArrayVec<u8, END>;

/// What the next step of a machine is.
#[tactic(auto, using(words::proofs::Digits::short_decimal))]
pub(crate) fn kind_part(symbols: &Symbols, processor: &Processor, machine: &Machine) -> Piece
    requires { FitsRun processor.now.scenario machine.now }
    ensures items { result.items ≡ kind_part symbols.now processor.now.scenario machine.now }
    ensures short { array_vec_len result ≤ 48 }
{
    let mut text = ArrayVec::new();
    match processor.next_step(machine) {
        NextStep::Takes(input) => push_all(&mut text, input_text(&input).as_slice()),
        NextStep::Enters(interrupt) => {
            push_all(&mut text, b"INTERRUPT ");
            push_decimal(&mut text, u64::from(interrupt.number()));
        }
        NextStep::Executes(fetched) => {
            let instruction = fetched_text(symbols, processor, machine, &fetched);
            push_all(&mut text, instruction.as_slice());
        }
    }
    text
}

/// Cells, each with what is read there, or that there are none.
pub(crate) fn cells_part(symbols: &Symbols, machine: &Machine, cells: &[Cell]) -> Part
    requires { length cells.now ≤ 10 }
    ensures items { result.items ≡ cells_part symbols.now machine.now cells.now }
    ensures short { array_vec_len result ≤ 960 }
{
    let mut part = ArrayVec::new();
    push_cells(&mut part, symbols, machine, cells);
    if part.is_empty() {
        push_all(&mut part, b" NOTHING");
    }
    part
}

/// Appends cells, each with what is read there.
fn push_cells<const N: usize>(
    text: &mut ArrayVec<u8, N>,
    symbols: &Symbols,
    machine: &Machine,
    cells: &[Cell],
)
    requires { array_vec_len text.old + 16 * length cells.now ≤ N }
    ensures items { text.new.items ≡ text.old.items ++ flat_map (cell_text symbols.now machine.now.cells) cells.now }
    ensures short { array_vec_len text.new ≤ array_vec_len text.old + 16 * length cells.now }
{
    for cell in cells {
        push_all(text, cell_text(symbols, machine, *cell).as_slice());
    }
}

/// A cell with what is read there.
fn cell_text(symbols: &Symbols, machine: &Machine, cell: Cell) -> Piece
    ensures items { result.items ≡ cell_text symbols.now machine.now.cells cell }
    ensures short { array_vec_len result ≤ 16 }
{
    let mut text = ArrayVec::new();
    push_all(&mut text, b" ");
    push_all(&mut text, cell_name(symbols, cell).as_slice());
    push_all(&mut text, b" ");
    push_all(&mut text, cell_reading(machine, cell).as_slice());
    text
}

/// Spots, each with what stands there, or that there are none.
pub(crate) fn reads_part(
    symbols: &Symbols,
    processor: &Processor,
    machine: &Machine,
    spots: &[Spot],
) -> Part
    requires { length spots.now ≤ 60 }
    ensures items { result.items ≡ reads_part symbols.now processor.now.scenario.rope machine.now spots.now }
    ensures short { array_vec_len result ≤ 960 }
{
    let mut part = ArrayVec::new();
    push_spots(&mut part, symbols, processor, machine, spots);
    if part.is_empty() {
        push_all(&mut part, b" NOTHING");
    }
    part
}

/// Appends spots, each with what stands there.
fn push_spots(
    text: &mut Part,
    symbols: &Symbols,
    processor: &Processor,
    machine: &Machine,
    spots: &[Spot],
)
    requires { array_vec_len text.old + 16 * length spots.now ≤ 960 }
    ensures items { text.new.items ≡ text.old.items
        ++ flat_map (spot_text symbols.now processor.now.scenario.rope machine.now.cells) spots.now }
    ensures short { array_vec_len text.new ≤ array_vec_len text.old + 16 * length spots.now }
{
    for spot in spots {
        push_all(
            text,
            spot_text(symbols, processor, machine, *spot).as_slice(),
        );
    }
}

/// A spot with what stands there.
fn spot_text(symbols: &Symbols, processor: &Processor, machine: &Machine, spot: Spot) -> Piece
    ensures items { result.items ≡ spot_text symbols.now processor.now.scenario.rope machine.now.cells spot }
    ensures short { array_vec_len result ≤ 16 }
{
    match spot {
        Spot::Cell(cell) => cell_text(symbols, machine, cell),
        Spot::InRope(bank, offset) => fixed_text(symbols, processor, bank, offset),
    }
}

/// A place of fixed memory with its word.
pub(crate) fn fixed_text(
    symbols: &Symbols,
    processor: &Processor,
    bank: Bank,
    offset: Offset,
) -> Piece
    ensures items { result.items ≡ fixed_text symbols.now processor.now.scenario.rope bank offset }
    ensures short { array_vec_len result ≤ 16 }
{
    let mut text = ArrayVec::new();
    push_all(&mut text, b" ");
    match place_name(symbols, Linear::Fixed(bank, offset)) {
        Some(name) => push_all(&mut text, name),
        None => push_all(
            &mut text,
            place_text(Linear::Fixed(bank, offset)).as_slice(),
        ),
    }
    push_all(&mut text, b" ");
    push_octal(&mut text, 5, processor.rope().word(bank, offset).to_u16());
    text
}

/// The mark of a step in the interrupt that the step after so many entered.
#[tactic(auto, using(words::proofs::Digits::short_decimal))]
pub(crate) fn entered_mark(outside: u64) -> Piece
    requires { outside + 1 < 2 ^ 64 }
    ensures items { result.items ≡ entered_mark (Some outside) }
    ensures short { array_vec_len result ≤ 29 }
{
    let mut mark = ArrayVec::new();
    push_all(&mut mark, b" IN STEP ");
    push_decimal(&mut mark, outside + 1);
    mark
}

/// The line of a step, by its number, its parts and its mark.
#[tactic(auto, using(words::proofs::Digits::short_decimal))]
pub(crate) fn by_line(
    number: u64,
    kind: &Piece,
    cells: &Part,
    reads: &Part,
    mark: &Piece,
) -> LinkLine
    requires { array_vec_len mark.now ≤ 40 }
    ensures items { result.items ≡ by_line number kind.now.items cells.now.items reads.now.items mark.now.items }
    ensures short { array_vec_len result ≤ 2048 }
{
    let mut line = ArrayVec::new();
    push_all(&mut line, b"BY ");
    push_decimal(&mut line, number);
    push_all(&mut line, b" ");
    push_all(&mut line, kind.as_slice());
    push_all(&mut line, b" :");
    push_all(&mut line, cells.as_slice());
    push_all(&mut line, b" FROM");
    push_all(&mut line, reads.as_slice());
    push_all(&mut line, mark.as_slice());
    push_all(&mut line, b"\n");
    line
}

/// The last line, by whether more may be told and which cells are left.
#[tactic(auto, using(words::proofs::Digits::short_decimal))]
pub(crate) fn end_text(symbols: &Symbols, cut: bool, pending: &CellSet) -> EndText
    ensures { result.items ≡ end_text symbols.now cut (cells_of pending.now) }
{
    let cells = cells_of(pending);
    let mut text = ArrayVec::new();
    if cells.is_empty() {
        push_all(&mut text, b"ALL");
    } else if cut {
        push_all(&mut text, b"MORE ");
        push_decimal(&mut text, cells.len() as u64);
    } else {
        push_all(&mut text, b"START");
        push_cells(&mut text, symbols, &Machine::start(), cells.as_slice());
    }
    push_all(&mut text, b"\n");
    text
}
