//! The first step after which a cell of two runs is not the same.

ghost use Rattle.std.specs.Prelude.{◌≡◌, ◌-◌, ◌+◌, ◌<◌, ◌≤◌, ◌^◌, IfSome};
ghost use Rattle.space.specs.Cells.{is_cell};
ghost use Rattle.cpu.specs.Links.{link, targets};
ghost use Rattle.cpu.specs.Next.{next};
ghost use Rattle.cpu.specs.State.{FitsRun};
ghost use Rattle.differ.specs.States.{apart_after, apart_in, first_cell, first_state, is_apart, reading, same_cells};

use cpu::{Cell, Machine, Processor, make_step};
use space::{Chan, Eras};
use words::Wide;

/// How many cells there are.
const CELLS: u16 = 0o5000;

/// The number of the first cell that is a channel's.
const FIRST_CHANNEL: u16 = 0o4000;

/// A cell that is not the same after a step, with what is read there in both runs.
#[derive(Clone, Copy)]
pub(crate) struct CellApart {
    pub(crate) step: u64,
    pub(crate) cell: Cell,
    pub(crate) here: Wide,
    pub(crate) there: Wide,
}

/// The first step, of so many, after which a cell of two runs is not the same, and the first such cell. Each step of a
/// run is made once.
pub(crate) fn first_state(
    one: &mut Processor,
    other: &mut Processor,
    steps: u64,
) -> Option<CellApart>
    requires few { steps ≤ 2 ^ 40 - 2 }
    ensures apart { result ≡ first_state one.old.scenario other.old.scenario steps }
    ensures step { IfSome result (λ a. a.step ≤ steps) }
    ensures scenario { one.new.scenario ≡ one.old.scenario }
    ensures other_scenario { other.new.scenario ≡ other.old.scenario }
    ensures once { one.new.meter ≤ one.old.meter + steps }
    ensures other_once { other.new.meter ≤ other.old.meter + steps }
{
    let mut here = Machine::start();
    let mut there = Machine::start();
    for done in 0..steps {
        match step_both(one, &mut here, other, &mut there, done + 1) {
            None => {}
            Some(apart) => return Some(apart),
        }
    }
    None
}

/// Makes a step of each run, and answers the first cell that is not the same then, of this number.
fn step_both(
    one: &mut Processor,
    here: &mut Machine,
    other: &mut Processor,
    there: &mut Machine,
    step: u64,
) -> Option<CellApart>
    requires cycles { here.old.cycles ≤ 2 ^ 62 }
    requires other_cycles { there.old.cycles ≤ 2 ^ 62 }
    requires fits { FitsRun one.old.scenario here.old }
    requires other_fits { FitsRun other.old.scenario there.old }
    ensures scenario { one.new.scenario ≡ one.old.scenario }
    ensures other_scenario { other.new.scenario ≡ other.old.scenario }
    ensures meter { one.new.meter ≤ one.old.meter + 1 }
    ensures other_meter { other.new.meter ≤ other.old.meter + 1 }
    ensures here { here.new ≡ (next one.old.scenario here.old).0 }
    ensures there { there.new ≡ (next other.old.scenario there.old).0 }
    ensures apart { result ≡ apart_in step here.new.cells there.new.cells (targets (link one.old.scenario here.old))
        (targets (link other.old.scenario there.old)) }
    ensures step { IfSome result (λ a. a.step ≡ step) }
{
    let cells = one.targets(here);
    let others = other.targets(there);
    make_step(one, here);
    make_step(other, there);
    apart_in(step, here, there, cells.as_slice(), others.as_slice())
}

/// The first cell that is not the same after a step, where one of those is that the steps have written.
fn apart_in(
    step: u64,
    here: &Machine,
    there: &Machine,
    cells: &[Cell],
    others: &[Cell],
) -> Option<CellApart>
    ensures apart { result ≡ apart_in step here.now.cells there.now.cells cells.now others.now }
    ensures step { IfSome result (λ a. a.step ≡ step) }
{
    if same_cells(here, there, cells) && same_cells(here, there, others) {
        None
    } else {
        apart_after(step, here, there)
    }
}

/// Whether none of some cells is not the same.
#[tactic(auto, using(crate::proofs::Kept::same_more, crate::proofs::Kept::same_not, crate::proofs::Kept::same_end))]
fn same_cells(here: &Machine, there: &Machine, cells: &[Cell]) -> bool
    ensures { result ≡ same_cells here.now.cells there.now.cells cells.now }
{
    for index in 0..cells.len() {
        if is_apart(here, there, cells[index].number()) {
            return false;
        }
    }
    true
}

/// The first cell that is not the same after a step.
fn apart_after(step: u64, here: &Machine, there: &Machine) -> Option<CellApart>
    ensures apart { result ≡ apart_after step here.now.cells there.now.cells }
    ensures step { IfSome result (λ a. a.step ≡ step) }
{
    match first_cell(here, there) {
        None => None,
        Some(cell) => Some(CellApart {
            step,
            cell,
            here: reading(here, cell),
            there: reading(there, cell),
        }),
    }
}

/// The first cell that is not the same.
#[tactic(auto, using(crate::proofs::Cells::first_steps))]
fn first_cell(here: &Machine, there: &Machine) -> Option<Cell>
    ensures { result ≡ first_cell here.now.cells there.now.cells 0o5000 }
{
    for number in 0..CELLS {
        if is_apart(here, there, number) {
            return Cell::try_new(number);
        }
    }
    None
}

/// Whether a number is that of a cell that is not the same.
pub(crate) fn is_apart(here: &Machine, there: &Machine, number: u16) -> bool
    requires { number < 0o5000 }
    ensures { result ≡ is_apart here.now.cells there.now.cells number }
{
    match Cell::try_new(number) {
        Some(cell) => is_cell(number) && reading(here, cell) != reading(there, cell),
        None => unreachable!(),
    }
}

/// Whether a number is that of a cell: BB and the place that reads as 0 have none, nor have the channels that are L and
/// Q.
#[tactic(auto, unfolding(space::specs::Cells::is_cell))]
fn is_cell(number: u16) -> bool
    ensures { result ≡ is_cell number }
{
    !(number == 6 || number == 7 || number == 0o4001 || number == 0o4002)
}

/// What is read at a cell.
#[tactic(auto, unfolding(crate::specs::States::reading))]
pub(crate) fn reading(machine: &Machine, cell: Cell) -> Wide
    ensures { result ≡ reading machine.now.cells cell }
{
    let number = cell.number();
    match Eras::try_new(number) {
        Some(place) => machine.reg(place),
        None => machine.channel(Chan::of_low_bits(number - FIRST_CHANNEL)),
    }
}
