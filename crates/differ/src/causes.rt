//! A cell that two runs do not have in common, followed back.

ghost use Rattle.std.specs.Prelude.{◌≡◌, ℕ, ◌-◌, ◌+◌, ◌<◌, ◌≤◌, ◌^◌, ◌++◌, Some, IfSome, if◌then◌else◌, length};
ghost use Rattle.std.specs.Option.{option_map, option_or};
ghost use Rattle.arrayvec.specs.ArrayVec.{array_vec_len};
ghost use Rattle.cpu.specs.Next.{next};
ghost use Rattle.cpu.specs.State.{FitsRun};
ghost use Rattle.differ.specs.Causes.{cell_at, cells_at, cells_read, first_among, first_read, first_written, followed};
ghost use Rattle.differ.specs.Causes.{from_steps, is_followed, is_moved, last_writer, step_start, written_in};

use crate::states::is_apart;
use crate::text::machine_after;
use arrayvec::ArrayVec;
use cpu::{Cell, Machine, NextStep, Processor, Spot, make_step};

/// A cell, after so many steps of either run.
#[derive(Clone, Copy)]
pub(crate) struct Followed {
    pub(crate) here: u64,
    pub(crate) there: u64,
    pub(crate) cell: Cell,
}

/// The most cells that a step reads for one that it writes.
const MOST_READ: usize = 6;

type CellsRead = ArrayVec<Cell, MOST_READ>;

/// The last of the first steps of a run that wrote a cell. Each of them is made once.
pub(crate) fn last_writer(processor: &mut Processor, cell: Cell, steps: u64) -> Option<u64>
    requires few { steps ≤ 2 ^ 40 - 2 }
    ensures found { result ≡ last_writer processor.old.scenario cell steps }
    ensures within { IfSome result (λ n. n ≤ steps) }
    ensures scenario { processor.new.scenario ≡ processor.old.scenario }
    ensures once { processor.new.meter ≤ processor.old.meter + steps }
{
    let mut machine = Machine::start();
    let mut last = None;
    for done in 0..steps {
        last = latest(processor.writes(&machine, cell), done + 1, last);
        step_on(processor, &mut machine);
    }
    last
}

/// A step that wrote, else the last one before it.
fn latest(writes: bool, number: u64, last: Option<u64>) -> Option<u64>
    ensures latest { result ≡ (if writes then Some number else last) }
    ensures within { (most : ℕ) → IfSome last (λ n. n ≤ most) → most ≤ number → IfSome result (λ n. n ≤ number) }
{
    if writes { Some(number) } else { last }
}

/// Makes a step.
fn step_on(processor: &mut Processor, machine: &mut Machine)
    requires cycles { machine.old.cycles ≤ 2 ^ 62 }
    requires fits { FitsRun processor.old.scenario machine.old }
    ensures scenario { processor.new.scenario ≡ processor.old.scenario }
    ensures meter { processor.new.meter ≤ processor.old.meter + 1 }
    ensures machine { machine.new ≡ (next processor.old.scenario machine.old).0 }
{
    make_step(processor, machine);
}

/// Whether a cell is not the same in two runs; Z, which tells where a step stands, is left out.
fn is_followed(here: &Machine, there: &Machine, cell: Cell) -> bool
    ensures { result ≡ is_followed here.now.cells there.now.cells cell }
{
    cell != Cell::Z && is_apart(here, there, cell.number())
}

/// The first of some cells that is not the same.
#[tactic(auto, using(crate::proofs::Among::among_steps))]
fn first_among(here: &Machine, there: &Machine, cells: &[Cell]) -> Option<Cell>
    ensures { result ≡ first_among here.now.cells there.now.cells cells.now }
{
    for index in 0..cells.len() {
        if is_followed(here, there, cells[index]) {
            return Some(cells[index]);
        }
    }
    None
}

/// The first of some cells, or else of others.
fn first_of_both(here: &Machine, there: &Machine, cells: &[Cell], others: &[Cell]) -> Option<Cell>
    ensures { result ≡ option_or (first_among here.now.cells there.now.cells cells.now)
        (first_among here.now.cells there.now.cells others.now) }
{
    match first_among(here, there, cells) {
        Some(cell) => Some(cell),
        None => first_among(here, there, others),
    }
}

/// The cells among spots.
fn cells_at(spots: &[Spot]) -> CellsRead
    requires { length spots.now ≤ 6 }
    ensures { result.items ≡ cells_at spots.now }
{
    let mut cells = ArrayVec::new();
    for spot in spots {
        push_cell(&mut cells, *spot);
    }
    cells
}

/// Appends the cell that a spot is.
fn push_cell(cells: &mut CellsRead, spot: Spot)
    requires { array_vec_len cells.old < 6 }
    ensures items { cells.new.items ≡ cells.old.items ++ cell_at spot }
    ensures short { array_vec_len cells.new ≤ array_vec_len cells.old + 1 }
{
    match spot {
        Spot::Cell(cell) => cells.push(cell),
        Spot::InRope(_, _) => {}
    }
}

/// The cells that the next step reads for one that it writes.
fn cells_read(processor: &Processor, machine: &Machine, cell: Cell) -> CellsRead
    requires { FitsRun processor.now.scenario machine.now }
    ensures { result.items ≡ cells_read processor.now.scenario machine.now cell }
{
    cells_at(processor.sources(machine, cell).as_slice())
}

/// The first cell that is not the same before the next steps, of those that the one reads for a cell, or else of those
/// that the other does.
#[tactic(auto, unfolding(crate::specs::Causes::first_read))]
pub(crate) fn first_read(
    one: &Processor,
    other: &Processor,
    here: &Machine,
    there: &Machine,
    cell: Cell,
) -> Option<Cell>
    requires fits { FitsRun one.now.scenario here.now }
    requires other_fits { FitsRun other.now.scenario there.now }
    ensures { result ≡ first_read one.now.scenario other.now.scenario here.now there.now cell }
{
    let cells = cells_read(one, here, cell);
    let others = cells_read(other, there, cell);
    first_of_both(here, there, cells.as_slice(), others.as_slice())
}

/// The cells that a step writes.
fn written_in(processor: &mut Processor, step: u64) -> ArrayVec<Cell, 10>
    requires { step ≤ 2 ^ 40 - 2 }
    ensures cells { result.items ≡ written_in processor.old.scenario step }
    ensures scenario { processor.new.scenario ≡ processor.old.scenario }
{
    let machine = machine_after(processor, step.saturating_sub(1));
    processor.targets(&machine)
}

/// What two runs have written in steps that part: the first cell that is not the same then.
#[tactic(auto, unfolding(crate::specs::Causes::from_steps, crate::specs::Causes::first_written))]
pub(crate) fn from_steps(
    one: &mut Processor,
    other: &mut Processor,
    a: u64,
    b: u64,
) -> Option<Followed>
    requires few { a ≤ 2 ^ 40 - 2 }
    requires other_few { b ≤ 2 ^ 40 - 2 }
    ensures start { result ≡ from_steps one.old.scenario other.old.scenario a b }
    ensures at { IfSome result (λ f. f.here ≡ a) }
    ensures other_at { IfSome result (λ f. f.there ≡ b) }
    ensures scenario { one.new.scenario ≡ one.old.scenario }
    ensures other_scenario { other.new.scenario ≡ other.old.scenario }
{
    let cells = written_in(one, a);
    let others = written_in(other, b);
    let here = machine_after(one, a);
    let there = machine_after(other, b);
    let cell = first_of_both(&here, &there, cells.as_slice(), others.as_slice());
    following(a, b, cell)
}

/// What steps outside of interrupts that part come from: where they stand at other places, what led there; else what
/// they have written.
#[tactic(auto, unfolding(crate::specs::Causes::step_start))]
pub(crate) fn step_start(
    one: &mut Processor,
    other: &mut Processor,
    a: u64,
    b: u64,
) -> Option<Followed>
    requires few { a ≤ 2 ^ 40 - 2 }
    requires other_few { b ≤ 2 ^ 40 - 2 }
    ensures start { result ≡ step_start one.old.scenario other.old.scenario a b }
    ensures at { IfSome result (λ f. f.here ≤ a) }
    ensures other_at { IfSome result (λ f. f.there ≤ b) }
    ensures scenario { one.new.scenario ≡ one.old.scenario }
    ensures other_scenario { other.new.scenario ≡ other.old.scenario }
{
    let before = a.saturating_sub(1);
    let other_before = b.saturating_sub(1);
    let here = machine_after(one, before);
    let there = machine_after(other, other_before);
    if is_moved(one.next_step(&here), other.next_step(&there)) {
        return Some(Followed {
            here: before,
            there: other_before,
            cell: Cell::Z,
        });
    }
    from_steps(one, other, a, b)
}

/// Whether two steps are instructions at other places.
fn is_moved(one: NextStep, other: NextStep) -> bool
    ensures { result ≡ is_moved one other }
{
    match (one, other) {
        (NextStep::Executes(one), NextStep::Executes(other)) => {
            !(one.waited || other.waited || one.place == other.place)
        }
        _ => false,
    }
}

/// A cell after so many steps of either run, where there is one.
pub(crate) fn following(here: u64, there: u64, cell: Option<Cell>) -> Option<Followed>
    ensures start { result ≡ option_map (followed here there) cell }
    ensures at { IfSome result (λ f. f.here ≡ here) }
    ensures other_at { IfSome result (λ f. f.there ≡ there) }
{
    match cell {
        None => None,
        Some(cell) => Some(Followed { here, there, cell }),
    }
}
