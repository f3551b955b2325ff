//! The breakpoints at which new steps end, and what tells of most steps that none holds.

ghost use Rattle.std.specs.Prelude.{◌≡◌, ◌<◌, ◌%◌, ℕ, [], Option, None, List, false, slice_index_or};
ghost use Rattle.std.specs.List.{list_any};
ghost use Rattle.rope.specs.Places.{Words};
ghost use Rattle.space.specs.declared.place.Linear.{Linear};
ghost use Rattle.cpu.specs.State.{FitsRun, Scenario};
ghost use Rattle.cpu.specs.Next.{next};
ghost use Rattle.cpu.specs.Effects.{next_address};
ghost use Rattle.commands.specs.declared.command.Breakpoint.{Breakpoint};
ghost use Rattle.debugger.specs.Growth.{lowest_hit};
ghost use Rattle.debugger.specs.History.{StepSight, sight, step_from};
ghost use Rattle.debugger.specs.Marks.{AreMarks, low_bits, may_hold_at};
ghost use Rattle.debugger.specs.Stopping.{HoldsAlike};

use crate::breakpoints::lowest_hit;
use crate::noted::Noted;
use crate::stops::{look, looks_at};
use commands::{Breakpoint, Breakpoints};
use cpu::{Machine, Processor};
use space::{Eras, Linear};

/// How many numbers the low eight bits of an address make.
const LOW_NUMBERS: usize = 0o400;

/// What ends new steps.
pub(crate) trait Breaks {
    /// The breakpoints that end them.
    ghost breakpoints: { Self → List Breakpoint };

    /// Whether what the next step does may matter to one of them. Else nothing has to be noted of it.
    fn asks(&self, machine: &Machine) -> bool
        ensures { (scenario : Scenario) → result ≡ false
            → HoldsAlike (breakpoints self.now) None (next scenario machine.now).0 (step_from scenario machine.now) };

    /// What they ask of the next step, if what it does may matter to any of them.
    fn look(&self, processor: &Processor, machine: &Machine) -> Option<Noted>
        ensures { FitsRun processor.now.scenario machine.now
            → HoldsAlike (breakpoints self.now) result (next processor.now.scenario machine.now).0
            (step_from processor.now.scenario machine.now) };

    /// The lowest number, counted from 1, of those that hold after a step, by what was noted before it.
    fn lowest_hit(&self, noted: &Option<Noted>, machine: &Machine) -> Option<u64>
        ensures { (rope : Words) (step : StepSight) → HoldsAlike (breakpoints self.now) noted.now machine.now step
            → result ≡ lowest_hit (breakpoints self.now) step (sight rope machine.now) };

    /// The same, where nothing was noted.
    fn lowest_unnoted(&self, machine: &Machine) -> Option<u64>
        ensures { (rope : Words) (step : StepSight) → HoldsAlike (breakpoints self.now) None machine.now step
            → result ≡ lowest_hit (breakpoints self.now) step (sight rope machine.now) };
}

/// No breakpoint.
#[derive(Drop)]
pub(crate) struct NoBreaks;

impl Breaks for NoBreaks {
    ghost breakpoints = { λ _. [] };

    #[inline(always)]
    fn asks(&self, _machine: &Machine) -> bool {
        false
    }

    #[inline(always)]
    fn look(&self, _processor: &Processor, _machine: &Machine) -> Option<Noted> {
        None
    }

    #[inline(always)]
    #[tactic(auto, unfolding(crate::specs::Growth::lowest_hit))]
    fn lowest_hit(&self, _noted: &Option<Noted>, _machine: &Machine) -> Option<u64> {
        None
    }

    #[inline(always)]
    #[tactic(auto, unfolding(crate::specs::Growth::lowest_hit))]
    fn lowest_unnoted(&self, _machine: &Machine) -> Option<u64> {
        None
    }
}

/// Some breakpoints, and by the low eight bits of Z whether one of them may hold.
#[derive(Drop)]
pub(crate) struct Marks<'a> {
    breakpoints: &'a Breakpoints,

    /// Whether one of them asks what a step did. Else nothing is noted before a step.
    looks: bool,

    /// Whether one of them may hold after a step before which, or after which, Z has these low bits.
    marks: [bool; LOW_NUMBERS],
    ghost are_marks: { AreMarks breakpoints.now looks marks },
}

impl<'a> Marks<'a> {
    /// The marks of some breakpoints.
    pub(crate) fn of(breakpoints: &'a Breakpoints) -> Marks<'a>
        ensures { result.breakpoints.now ≡ breakpoints.now }
    {
        Marks {
            breakpoints,
            looks: looks_at(breakpoints),
            marks: marks_of(breakpoints),
        }
    }

    /// Whether one of them may hold by the low bits of Z.
    #[inline(always)]
    fn is_marked(&self, machine: &Machine) -> bool
        ensures { result ≡ list_any (may_hold_at (next_address machine.now % 0o400)) self.now.breakpoints.now }
    {
        self.marks[usize::from(machine.reg(Eras::Z).to_u16() % 0o400)]
    }
}

impl<'a> Breaks for Marks<'a> {
    ghost breakpoints = { λ marks. marks.breakpoints.now };

    #[inline(always)]
    fn asks(&self, machine: &Machine) -> bool {
        if !self.looks {
            return false;
        }
        self.is_marked(machine)
    }

    fn look(&self, processor: &Processor, machine: &Machine) -> Option<Noted> {
        look_closely(self.breakpoints, processor, machine)
    }

    fn lowest_hit(&self, noted: &Option<Noted>, machine: &Machine) -> Option<u64> {
        lowest_hit(self.breakpoints.as_slice(), noted, machine)
    }

    #[inline(always)]
    fn lowest_unnoted(&self, machine: &Machine) -> Option<u64> {
        if !self.is_marked(machine) {
            return None;
        }
        lowest_of_all(self.breakpoints, machine)
    }
}

/// The lowest number, counted from 1, of some breakpoints that hold after a step of which nothing was noted. It stands
/// apart, so that a step without it has none of its locals.
#[inline(never)]
fn lowest_of_all(breakpoints: &Breakpoints, machine: &Machine) -> Option<u64>
    ensures { (rope : Words) (step : StepSight) → HoldsAlike breakpoints.now None machine.now step
        → result ≡ lowest_hit breakpoints.now step (sight rope machine.now) }
{
    lowest_hit(breakpoints.as_slice(), &None, machine)
}

/// What some breakpoints ask of the next step, if what it does may matter to any of them. It stands apart, so that a
/// step without it has none of its locals.
#[inline(never)]
fn look_closely(
    breakpoints: &Breakpoints,
    processor: &Processor,
    machine: &Machine,
) -> Option<Noted>
    ensures { FitsRun processor.now.scenario machine.now
        → HoldsAlike breakpoints.now result (next processor.now.scenario machine.now).0
        (step_from processor.now.scenario machine.now) }
{
    look(true, breakpoints, processor, machine)
}

/// By the low bits of Z whether one of some breakpoints may hold.
fn marks_of(breakpoints: &Breakpoints) -> [bool; LOW_NUMBERS]
    ensures { (low : ℕ) → low < 0o400 → slice_index_or result low false ≡ list_any (may_hold_at low) breakpoints.now }
{
    let mut marks = [false; LOW_NUMBERS];
    for low in 0..LOW_NUMBERS {
        marks[low] = may_one_hold_at(low as u16, breakpoints);
    }
    marks
}

/// Whether one of some breakpoints may hold where Z has these low bits.
fn may_one_hold_at(low: u16, breakpoints: &Breakpoints) -> bool
    ensures { result ≡ list_any (may_hold_at low) breakpoints.now }
{
    breakpoints
        .as_slice()
        .iter()
        .any(|breakpoint| may_hold_at(low, breakpoint))
}

/// Whether a breakpoint may hold where Z has these low bits.
fn may_hold_at(low: u16, breakpoint: &Breakpoint) -> bool
    ensures { result ≡ may_hold_at low breakpoint.now }
{
    match breakpoint {
        Breakpoint::Place(place) => low_bits(*place) == low,
        Breakpoint::Returned(place, _) => low_bits(*place) == low,
        Breakpoint::Executed(place) => low_bits(*place) == low,
        _ => true,
    }
}

/// The low eight bits of the number of a place.
fn low_bits(place: Linear) -> u16
    ensures { result ≡ low_bits place }
{
    let number = match place {
        Linear::Erasable(place) => place.number(),
        Linear::Fixed(_, offset) => offset.number(),
    };
    number % 0o400
}
