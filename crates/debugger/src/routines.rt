//! The routines that are in progress, each by its call.

ghost use Rattle.std.specs.Prelude.{◌≡◌, ◌≤◌, [], Some};
ghost use Rattle.std.specs.List.{position_or_len};
ghost use Rattle.space.specs.Places.{same_place};
ghost use Rattle.cpu.specs.State.{FitsRun};
ghost use Rattle.debugger.specs.Routines.{call_made, without, left_at, with_call, followed, innermost, arrived};
ghost use Rattle.debugger.specs.Routines.{arrived_inside, routines_by, inside_by};
ghost use Rattle.debugger.specs.Desks.{Looks};

use crate::desk::Desk;
use arrayvec::ArrayVec;
use calls::{called_place, is_call, return_place, standing_place};
use cpu::{Machine, NextStep, Processor};
use replay::{Keeper, Onlooker};
use space::{Eras, Linear};

/// The most routines that are known.
pub(crate) const MOST_ROUTINES: usize = 32;

/// A call of a routine.
#[derive(Clone, Copy)]
pub(crate) struct Call {
    /// The number of its step.
    pub(crate) step: u64,
    /// Where it stands.
    pub(crate) from: Linear,
    /// The routine that it enters.
    pub(crate) routine: Linear,
    /// Where this returns to.
    pub(crate) back: Linear,
}

impl Default for Call {
    fn default() -> Call {
        Call {
            step: 0,
            from: Linear::Erasable(Eras::ZERO),
            routine: Linear::Erasable(Eras::ZERO),
            back: Linear::Erasable(Eras::ZERO),
        }
    }
}

/// Calls of routines that are in progress, the outer ones first.
#[derive(Drop)]
pub(crate) struct Calls {
    pub(crate) list: ArrayVec<Call, MOST_ROUTINES>,
}

impl Calls {
    /// No call.
    fn none() -> Calls
        ensures { result.list.items ≡ [] }
    {
        Calls {
            list: ArrayVec::new(),
        }
    }

    /// Ends the routine that returns to a place, and all that it entered.
    fn leave(&mut self, place: &Linear)
        ensures { self.new.list.items ≡ without place.now self.old.list.items }
    {
        let count = position_or_len(self.list.as_slice(), place);
        self.list.truncate(count);
    }

    /// Ends the routine that returns to where a machine stands.
    pub(crate) fn arrive(&mut self, machine: &Machine)
        ensures { self.new.list.items ≡ left_at machine.now self.old.list.items }
    {
        self.leave(&machine.next_place());
    }

    /// One more.
    fn enter(&mut self, call: Call)
        ensures { self.new.list.items ≡ with_call (Some call) self.old.list.items }
    {
        self.leave(&call.back);
        if self.list.is_full() {
            self.list.remove(0);
        }
        self.list.push(call);
    }

    /// The next step, which has this number.
    fn follow(&mut self, processor: &Processor, machine: &Machine, step: u64)
        requires { FitsRun processor.now.scenario machine.now }
        ensures { self.new.list.items ≡ followed processor.now.scenario step machine.now self.old.list.items }
    {
        self.arrive(machine);
        if let Some(call) = call_made(processor, machine, step) {
            self.enter(call);
        }
    }

    /// Where the innermost one returns to.
    pub(crate) fn innermost(&self) -> Option<Linear>
        ensures { result ≡ innermost self.now.list.items }
    {
        match self.list.as_slice().last() {
            Some(call) => Some(call.back),
            None => None,
        }
    }
}

/// The routines that are in progress before a step.
#[derive(Drop)]
pub(crate) struct Routines {
    /// How many steps were looked at.
    steps: u64,
    /// Those that no interrupt entered.
    pub(crate) outside: Calls,
    /// Those that the interrupt entered that is served.
    pub(crate) inside: Calls,
}

impl Routines {
    /// No routine.
    pub(crate) fn none() -> Routines
        ensures steps { result.steps ≡ 0 }
        ensures outside { result.outside.list.items ≡ [] }
        ensures inside { result.inside.list.items ≡ [] }
    {
        Routines {
            steps: 0,
            outside: Calls::none(),
            inside: Calls::none(),
        }
    }
}

impl Routines {
    /// Ends those that return to where a machine stands.
    pub(crate) fn arrive(&mut self, machine: &Machine)
        ensures outside { self.new.outside.list.items ≡ arrived machine.now self.old.outside.list.items }
        ensures inside { self.new.inside.list.items ≡ arrived_inside machine.now self.old.inside.list.items }
    {
        if machine.inside() {
            self.inside.arrive(machine);
        } else {
            self.outside.arrive(machine);
            self.inside = Calls::none();
        }
    }
}

impl<'a, K: Keeper> Desk<'a, K> {
    /// The routines that are in progress before the step to the position.
    pub(crate) fn routines_before(&mut self) -> Routines
        ensures outside { result.outside.list.items ≡ routines_by self.old.session.now.scenario self.old.position }
        ensures inside { result.inside.list.items ≡ inside_by self.old.session.now.scenario self.old.position }
        ensures looked { Looks self.old.session.now.n self.old self.new }
    {
        let _limited = self.session.steps();
        let mut routines = Routines::none();
        self.session.look_over(self.position, &mut routines);
        routines
    }
}

impl Onlooker for Routines {
    ghost use Rattle.debugger.specs.Followed.{HasFollowed};

    ghost sees = { λ old scenario s new. HasFollowed scenario s
        (record { steps = old.steps; outer = old.outside.list.items; inner = old.inside.list.items })
        (record { steps = new.steps; outer = new.outside.list.items; inner = new.inside.list.items }) };

    fn look(&mut self, processor: &Processor, machine: &Machine) {
        self.steps = self.steps.saturating_add(1);
        if machine.inside() {
            self.inside.follow(processor, machine, self.steps);
        } else {
            self.outside.follow(processor, machine, self.steps);
            self.inside = Calls::none();
        }
    }
}

/// The position of the routine among some that returns to a place, or how many there are.
fn position_or_len(calls: &[Call], place: &Linear) -> usize
    ensures { result ≡ position_or_len (λ c. same_place place.now c.back) calls.now }
{
    for index in 0..calls.len() {
        if returns_to(&calls[index], place) {
            return index;
        }
    }
    calls.len()
}

/// Whether a routine returns to a place.
fn returns_to(call: &Call, place: &Linear) -> bool
    ensures { result ≡ same_place place.now call.now.back }
{
    *place == call.back
}

/// The call that the next step is, which has this number, if it is one.
fn call_made(processor: &Processor, machine: &Machine, step: u64) -> Option<Call>
    requires { FitsRun processor.now.scenario machine.now }
    ensures { result ≡ call_made processor.now.scenario step machine.now }
{
    match processor.next_step(machine) {
        NextStep::Takes(_) => None,
        NextStep::Enters(_) => None,
        NextStep::Executes(fetched) => {
            if !is_call(machine, &fetched) {
                return None;
            }
            Some(Call {
                step,
                from: standing_place(machine),
                routine: called_place(machine, &fetched),
                back: return_place(machine),
            })
        }
    }
}
