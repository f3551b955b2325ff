//! Steps, each with the lowest breakpoint that holds after it.

ghost use Rattle.std.specs.Prelude.{◌≡◌, ◌+◌, ◌<◌, ◌^◌, Option, IfSome};
ghost use Rattle.std.specs.Option.{option_map};
ghost use Rattle.std.specs.List.{list_any};
ghost use Rattle.cpu.specs.State.{FitsRun};
ghost use Rattle.cpu.specs.Next.{next};
ghost use Rattle.debugger.specs.Stopping.{HoldsAlike, asks, looked, may_matter};

use crate::breakpoints::{lowest_hit, stands_at};
use crate::noted::Noted;
use commands::{Breakpoint, Breakpoints};
use cpu::{Machine, Processor, make_step};
use replay::StepTest;

/// Where steps are to stop: at the first after which one of some breakpoints holds.
#[derive(Clone, Copy, Drop)]
pub(crate) struct Stops<'a> {
    breakpoints: &'a Breakpoints,

    /// Whether one of them asks what a step did. Else nothing is noted before a step.
    looks: bool,
}

impl<'a> Stops<'a> {
    /// Steps that stop at some breakpoints.
    pub(crate) fn at(breakpoints: &'a Breakpoints) -> Stops<'a>
        ensures breakpoints { result.breakpoints.now ≡ breakpoints.now }
        ensures looks { result.looks ≡ list_any asks breakpoints.now }
    {
        Stops {
            breakpoints,
            looks: looks_at(breakpoints),
        }
    }
}

/// What some breakpoints ask of the next step, if what it does may matter to any of them.
#[inline(always)]
pub(crate) fn look(
    looks: bool,
    breakpoints: &Breakpoints,
    processor: &Processor,
    machine: &Machine,
) -> Option<Noted>
    ensures { FitsRun processor.now.scenario machine.now
        → HoldsAlike breakpoints.now result (next processor.now.scenario machine.now).0
        (looked looks processor.now.scenario machine.now) }
{
    if !looks || !may_matter(breakpoints, machine) {
        return None;
    }
    Some(Noted::asked_by(breakpoints, processor, machine))
}

/// Whether what the next step does may matter to one of some breakpoints.
fn may_matter(breakpoints: &Breakpoints, machine: &Machine) -> bool
    ensures { result ≡ list_any (may_matter machine.now) breakpoints.now }
{
    breakpoints
        .as_slice()
        .iter()
        .any(|breakpoint| may_matter_to(breakpoint, machine))
}

/// Whether what the next step does may matter to a breakpoint.
#[inline(always)]
fn may_matter_to(breakpoint: &Breakpoint, machine: &Machine) -> bool
    ensures { result ≡ may_matter machine.now breakpoint.now }
{
    match breakpoint {
        Breakpoint::Executed(place) => stands_at(machine, *place),
        Breakpoint::Changed(_) => true,
        _ => false,
    }
}

/// The steps that tested ones lead to, where something was found of one.
pub(crate) fn led_to(found: Option<(u64, u64)>) -> Option<(u64, u64)>
    requires { IfSome found (λ r. r.0 < 2 ^ 40) }
    ensures { result ≡ option_map (λ r. (r.0 + 1, r.1)) found }
{
    match found {
        Some((before, number)) => Some((before + 1, number)),
        None => None,
    }
}

/// The step of something that was found.
pub(crate) fn step_of(found: Option<(u64, u64)>) -> Option<u64>
    ensures { result ≡ option_map (λ r. r.0) found }
{
    match found {
        Some((step, _)) => Some(step),
        None => None,
    }
}

/// Whether one of some breakpoints asks what a step did.
pub(crate) fn looks_at(breakpoints: &Breakpoints) -> bool
    ensures { result ≡ list_any asks breakpoints.now }
{
    breakpoints.as_slice().iter().any(asks)
}

/// Whether a breakpoint asks what a step did.
fn asks(breakpoint: &Breakpoint) -> bool
    ensures { result ≡ asks breakpoint.now }
{
    matches!(breakpoint, Breakpoint::Executed(_) | Breakpoint::Changed(_))
}

impl<'a> StepTest for Stops<'a> {
    ghost use Rattle.debugger.specs.Stopping.{hit_by};

    ghost finds = { λ stops scenario state. hit_by stops.breakpoints.now stops.looks scenario state };

    fn test_step(&self, processor: &mut Processor, machine: &mut Machine) -> Option<u64> {
        let noted = look(self.looks, self.breakpoints, processor, machine);
        make_step(processor, machine);
        lowest_hit(self.breakpoints.as_slice(), &noted, machine)
    }
}
