//! What a chain comes from, as its steps are seen one after another, the last first.

ghost use Rattle.std.specs.Prelude.{◌≡◌, ◌+◌, ◌^◌, ◌<◌, ◌≤◌, length};
ghost use Rattle.cpu.specs.State.{FitsRun};
ghost use Rattle.origins.specs.Gathering.{level_of, nothing_of, seen_at, with_input, with_level, with_words};

use crate::lines::Lines;
use crate::links::link_of;
use crate::origin::{Origin, OriginLine};
use crate::tally::Tally;
use cpu::{CellSet, Machine, NextStep, Processor, Spot};
use feed::Interrupt;
use std::marker::Model;

/// On how many levels steps stand: outside of interrupts, and in each of them.
const LEVELS: usize = 11;

/// What a chain comes from.
#[derive(Drop)]
pub struct Gathered {
    followed: CellSet,
    table: Lines,
    levels: [Tally; LEVELS],
}

impl Model for Gathered {
    ghost use Rattle.origins.specs.Gathering.{Gathering};
    ghost use Rattle.origins.specs.Representation.{gathering_code};

    ghost Value = { Gathering };

    ghost coded = { gathering_code };

    ghost view = { λ g. record { followed = g.followed; table = g.table; levels = g.levels } };
}

impl Gathered {
    /// Nothing yet, of a chain that leads to some cells.
    pub fn of(cells: CellSet) -> Gathered
        ensures { result ≡ nothing_of cells }
    {
        Gathered {
            followed: cells,
            table: Lines::none(),
            levels: [Tally::none(); LEVELS],
        }
    }

    /// The cells that are followed still.
    pub fn followed(&self) -> &CellSet
        ensures { result.now ≡ self.now.followed }
    {
        &self.followed
    }

    /// The lines of origins, those of the last steps first.
    pub fn lines(&self) -> &[OriginLine]
        ensures { result.now ≡ self.now.table.lines }
    {
        self.table.as_slice()
    }

    /// Whether there were more lines than are told.
    pub fn has_more(&self) -> bool
        ensures { result ≡ self.now.table.more }
    {
        self.table.has_more()
    }

    /// The steps on each level.
    pub fn levels(&self) -> &[Tally]
        ensures value { result.now ≡ self.now.levels }
        ensures few { length result.now ≡ 11 }
    {
        &self.levels
    }

    /// Sees the next step of a machine at which a run stands after so many, and which interrupt is served: it is one of
    /// the chain where it writes a cell that is followed.
    pub(crate) fn see(
        &mut self,
        processor: &Processor,
        machine: &Machine,
        served: Option<Interrupt>,
        done: u64,
    )
        requires fits { FitsRun processor.now.scenario machine.now }
        requires few { done + 1 < 2 ^ 64 }
        ensures { self.new ≡ seen_at processor.now.scenario machine.now served done self.old }
    {
        if !processor.writes_some(machine, &self.followed) {
            return;
        }
        let number = done + 1;
        let link = link_of(processor, machine, &mut self.followed);
        note_input(&mut self.table, number, &processor.next_step(machine));
        note_words(&mut self.table, number, link.spots.as_slice());
        add_to(&mut self.levels, number, served);
    }
}

/// A step takes an input, or none.
fn note_input(table: &mut Lines, number: u64, step: &NextStep)
    ensures { table.new ≡ with_input number step.now table.old }
{
    match *step {
        NextStep::Takes(input) => table.note(number, Origin::Taken(input)),
        NextStep::Enters(_) => {}
        NextStep::Executes(_) => {}
    }
}

/// A step reads some spots, of which those of fixed memory are told.
fn note_words(table: &mut Lines, number: u64, spots: &[Spot])
    ensures { table.new ≡ with_words number spots.now table.old }
{
    for spot in spots {
        match *spot {
            Spot::Cell(_) => {}
            Spot::InRope(bank, offset) => table.note(number, Origin::Fixed(bank, offset)),
        }
    }
}

/// A step stands on a level.
fn add_to(levels: &mut [Tally; LEVELS], number: u64, served: Option<Interrupt>)
    ensures { levels.new ≡ with_level number (level_of served) levels.old }
{
    levels[level_of(served)].add(number);
}

/// The number of a level.
fn level_of(served: Option<Interrupt>) -> usize
    ensures value { result ≡ level_of served }
    ensures within { result < 11 }
{
    match served {
        None => 0,
        Some(interrupt) => usize::from(interrupt.number()),
    }
}
