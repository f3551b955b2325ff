//! Calls of routines that are in progress.

ghost use Rattle.std.specs.Prelude.{◌≡◌, ◌<◌, [], None, Some, true, false};
ghost use Rattle.space.specs.Places.{same_place};
ghost use Rattle.cpu.specs.Effects.{next_address, place_in};
ghost use Rattle.delays.specs.ShortTests.{AreMarked, low_bits, may_be_call, may_call};
ghost use Rattle.delays.specs.Routines.{call_in, depth, returned, with_call, without};

use crate::mark::{Mark, NO_MARK};
use arrayvec::ArrayVec;
use calls::{called_place, is_call, return_place};
use cpu::{Fetched, Machine, NextStep};
use space::{Eras, Linear};
use std::marker::Model;

/// The most calls that are known to be in progress.
const MOST_CALLS: usize = 32;

/// How many numbers the low eight bits of an address make.
const LOW_NUMBERS: usize = 0o400;

/// The words of TC that lead to fixed memory, from a first one up to one that is none.
const FIRST_CALL: u16 = 0o2000;

const NO_CALL: u16 = 0o10000;

/// A call: the place to which it returns, the one that it calls, and the moment before it.
#[derive(Clone, Copy, Drop)]
pub(crate) struct Call {
    pub(crate) back: Linear,
    pub(crate) to: Linear,
    pub(crate) mark: Mark,
}

impl Default for Call {
    fn default() -> Call {
        Call {
            back: Linear::Erasable(Eras::ZERO),
            to: Linear::Erasable(Eras::ZERO),
            mark: NO_MARK,
        }
    }
}

/// Calls in progress, the outer ones first, and by the low bits of an address whether one of them may return there.
#[derive(Drop)]
pub(crate) struct Calls {
    calls: ArrayVec<Call, MOST_CALLS>,
    marked: [bool; LOW_NUMBERS],
}

impl Model for Calls {
    ghost use Rattle.std.specs.Prelude.{List};
    ghost use Rattle.delays.specs.declared.call.Call.{Call as OfRoutine};
    ghost use Rattle.delays.specs.ShortTests.{AreMarked};

    ghost Value = { List OfRoutine };

    ghost view = { λ c. c.calls.items };

    ghost invariant = { λ c. AreMarked c.marked c.calls.items };
}

impl Calls {
    /// No call.
    pub(crate) fn none() -> Calls
        ensures { result ≡ [] }
    {
        Calls {
            calls: ArrayVec::new(),
            marked: [false; LOW_NUMBERS],
        }
    }

    /// One more. Those that it made before, and what they made, are over; the outermost is forgotten where there are
    /// too many.
    pub(crate) fn enter(&mut self, call: Call)
        ensures { self.new ≡ with_call (Some call) self.old }
    {
        let count = depth(self.calls.as_slice(), &call.back);
        self.calls.truncate(count);
        if self.calls.is_full() {
            self.calls.remove(0);
        }
        self.calls.push(call);
        self.marked[low_bits(&call.back)] = true;
    }

    /// Whether surely none of them returns to where Z leads, as the low bits of its address tell of most steps.
    #[inline(always)]
    #[tactic(auto, using(crate::proofs::Short::none_returned, crate::proofs::Short::all_left))]
    pub(crate) fn none_returns(&self, machine: &Machine) -> bool
        ensures call { result ≡ true → returned (place_in machine.now (next_address machine.now)) self.now ≡ None }
        ensures rest { result ≡ true → without (place_in machine.now (next_address machine.now)) self.now ≡ self.now }
    {
        !self.marked[usize::from(machine.reg(Eras::Z).to_u16() % 0o400)]
    }

    /// Ends the first that returns to a place, which is answered, and all that it made. Marks that calls have left are
    /// taken away where none returns, for one of them told that some may.
    pub(crate) fn leave(&mut self, place: &Linear) -> Option<Call>
        ensures call { result ≡ returned place.now self.old }
        ensures rest { self.new ≡ without place.now self.old }
    {
        let count = depth(self.calls.as_slice(), place);
        match self.calls.as_slice().get(count) {
            Some(call) => {
                let call = *call;
                self.calls.truncate(count);
                Some(call)
            }
            None => {
                self.marked = marked_by(self.calls.as_slice());
                None
            }
        }
    }
}

/// By the low bits of an address whether one of some calls may return there.
fn marked_by(calls: &[Call]) -> [bool; LOW_NUMBERS]
    ensures { AreMarked result calls.now }
{
    let mut marked = [false; LOW_NUMBERS];
    for index in 0..calls.len() {
        marked[low_bits(&calls[index].back)] = true;
    }
    marked
}

/// The low eight bits of the number of a place, which are those of each address that leads there.
fn low_bits(place: &Linear) -> usize
    ensures value { result ≡ low_bits place.now }
    ensures within { result < 0o400 }
{
    let number = match place {
        Linear::Erasable(place) => place.number(),
        Linear::Fixed(_, offset) => offset.number(),
    };
    usize::from(number % 0o400)
}

/// The position of the first of some calls that returns to a place, or how many there are.
fn depth(calls: &[Call], place: &Linear) -> usize
    ensures { result ≡ depth place.now calls.now }
{
    for index in 0..calls.len() {
        if returns_to(&calls[index], place) {
            return index;
        }
    }
    calls.len()
}

/// Whether a call returns to a place.
fn returns_to(call: &Call, place: &Linear) -> bool
    ensures { result ≡ same_place place.now call.now.back }
{
    *place == call.back
}

/// Whether a step may make a call, as its word alone tells.
#[inline(always)]
pub(crate) fn may_call(step: &NextStep) -> bool
    ensures { result ≡ may_call step.now }
{
    match step {
        NextStep::Takes(_) => false,
        NextStep::Enters(_) => false,
        NextStep::Executes(fetched) => may_be_call(fetched),
    }
}

/// Whether a word is TC of an address of fixed memory.
#[inline(always)]
fn may_be_call(fetched: &Fetched) -> bool
    ensures { result ≡ may_be_call fetched.now }
{
    let word = fetched.word.to_u16();
    !fetched.extra && FIRST_CALL <= word && word < NO_CALL
}

/// The call that a step makes at a moment, if it makes one outside of interrupts.
pub(crate) fn call_in(step: &NextStep, machine: &Machine, mark: &Mark) -> Option<Call>
    ensures { result ≡ call_in machine.now step.now mark.now }
{
    match step {
        NextStep::Takes(_) => None,
        NextStep::Enters(_) => None,
        NextStep::Executes(fetched) => {
            if !machine.inside() && is_call(machine, fetched) {
                Some(Call {
                    back: return_place(machine),
                    to: called_place(machine, fetched),
                    mark: *mark,
                })
            } else {
                None
            }
        }
    }
}
