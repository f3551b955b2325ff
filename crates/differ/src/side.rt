//! A run that is gone through by its steps outside of interrupts.

ghost use Rattle.std.specs.Prelude.{◌≡◌, ◌-◌, ◌+◌, ◌*◌, ◌<◌, ◌≤◌, ◌^◌, ◌++◌, ◌∷◌, IfSome, length, take};
ghost use Rattle.arrayvec.specs.ArrayVec.{array_vec_len};
ghost use Rattle.std.specs.Option.{option_to_list};
ghost use Rattle.cpu.specs.Run.{run};
ghost use Rattle.cpu.specs.State.{Scenario};
ghost use Rattle.differ.specs.MainSteps.{are_again, first_step, is_again, mains, moved, on, parts, repeats, round};
ghost use Rattle.differ.specs.MainSteps.{side_from, turn_by, parting};
ghost use Rattle.differ.specs.Windows.{AreWithin, IsFull, PartsWithin, side_of};

use crate::main_step::{MainStep, make_main_step};
use crate::turn::Turn;
use arrayvec::ArrayVec;
use cpu::{Machine, Processor};

/// How many steps before and after are kept.
const KEPT: usize = 4;

/// A run on its way: the machine after so many steps, and of those outside of interrupts the four before, the last one
/// first, and up to four that follow.
#[derive(Drop)]
pub(crate) struct Window {
    machine: Machine,
    done: u64,
    before: ArrayVec<MainStep, KEPT>,
    ahead: ArrayVec<MainStep, KEPT>,
}

impl Window {
    /// A run of so many steps before the first.
    pub(crate) fn at_start(processor: &mut Processor, steps: u64) -> Window
        requires few { steps ≤ 2 ^ 40 - 2 }
        ensures scenario { processor.new.scenario ≡ processor.old.scenario }
        ensures once { processor.new.meter ≤ processor.old.meter + result.done }
        ensures full { IsFull processor.old.scenario steps result }
        ensures side { side_of processor.old.scenario steps result ≡ side_from processor.old.scenario steps }
    {
        let mut window = Window {
            machine: Machine::start(),
            done: 0,
            before: ArrayVec::new(),
            ahead: ArrayVec::new(),
        };
        window.fill(processor, steps);
        window
    }

    /// Makes steps until four follow, or all are made.
    fn fill(&mut self, processor: &mut Processor, steps: u64)
        requires few { steps ≤ 2 ^ 40 - 2 }
        requires within { self.old.done ≤ steps }
        requires stands { self.old.machine ≡ run processor.old.scenario self.old.done }
        requires known { AreWithin steps self.old.ahead.items }
        requires short { length self.old.ahead.items ≤ 4 }
        ensures scenario { processor.new.scenario ≡ processor.old.scenario }
        ensures once { processor.new.meter + self.old.done ≤ processor.old.meter + self.new.done }
        ensures full { IsFull processor.old.scenario steps self.new }
        ensures side { side_of processor.old.scenario steps self.new ≡ side_of processor.old.scenario steps self.old }
    {
        while self.ahead.len() < KEPT && self.done < steps {
            let number = self.done + 1;
            let step = make_main_step(processor, &mut self.machine, number);
            keep(&mut self.ahead, step);
            self.done = number;
        }
    }

    /// A step on.
    fn go_on(&mut self, processor: &mut Processor, steps: u64)
        requires few { steps ≤ 2 ^ 40 - 2 }
        requires full { IsFull processor.old.scenario steps self.old }
        ensures scenario { processor.new.scenario ≡ processor.old.scenario }
        ensures once { processor.new.meter + self.old.done ≤ processor.old.meter + self.new.done }
        ensures full { IsFull processor.old.scenario steps self.new }
        ensures side { side_of processor.old.scenario steps self.new
            ≡ on (side_of processor.old.scenario steps self.old) }
    {
        match self.ahead.pop_at(0) {
            None => {}
            Some(step) => {
                keep_before(&mut self.before, step);
                self.fill(processor, steps);
            }
        }
    }

    /// So many steps on.
    fn move_on(&mut self, processor: &mut Processor, count: usize, steps: u64)
        requires few { steps ≤ 2 ^ 40 - 2 }
        requires full { IsFull processor.old.scenario steps self.old }
        ensures scenario { processor.new.scenario ≡ processor.old.scenario }
        ensures once { processor.new.meter + self.old.done ≤ processor.old.meter + self.new.done }
        ensures full { IsFull processor.old.scenario steps self.new }
        ensures side { side_of processor.old.scenario steps self.new
            ≡ moved count (side_of processor.old.scenario steps self.old) }
    {
        for _ in 0..count {
            self.go_on(processor, steps);
        }
    }

    /// Of how many steps is the round that follows; 0 where none does.
    fn round(&self) -> usize
        ensures { result ≡ round self.now.before.items self.now.ahead.items }
    {
        round(self.before.as_slice(), self.ahead.as_slice())
    }
}

/// Appends a step, where there is one.
fn keep(ahead: &mut ArrayVec<MainStep, KEPT>, step: Option<MainStep>)
    requires { array_vec_len ahead.old < 4 }
    ensures items { ahead.new.items ≡ ahead.old.items ++ option_to_list step }
    ensures short { length ahead.new.items ≤ 4 }
{
    if let Some(step) = step {
        ahead.push(step);
    }
}

/// Appends a step before others, of which the last one goes where there are four.
fn keep_before(before: &mut ArrayVec<MainStep, KEPT>, step: MainStep)
    ensures { before.new.items ≡ take 4 (step ∷ before.old.items) }
{
    if before.is_full() {
        before.pop();
    }
    before.insert(0, step);
}

/// The first steps outside of interrupts that are not the same, of so many steps of two runs. Each step of a run is
/// made once.
pub(crate) fn first_step(
    one: &mut Processor,
    other: &mut Processor,
    steps: u64,
) -> Option<(u64, u64)>
    requires few { steps ≤ 2 ^ 40 - 2 }
    ensures parts { result ≡ first_step one.old.scenario other.old.scenario steps }
    ensures within { IfSome result (λ p. (p.0 ≤ steps) × (p.1 ≤ steps)) }
    ensures scenario { one.new.scenario ≡ one.old.scenario }
    ensures other_scenario { other.new.scenario ≡ other.old.scenario }
    ensures once { one.new.meter ≤ one.old.meter + steps }
    ensures other_once { other.new.meter ≤ other.old.meter + steps }
{
    let mut here = Window::at_start(one, steps);
    let mut there = Window::at_start(other, steps);
    for _ in 0..2 * steps {
        match turn(&here, &there) {
            Turn::Ended => return None,
            Turn::Parts(a, b) => return Some((a, b)),
            Turn::Moves(n, m) => {
                here.move_on(one, n, steps);
                there.move_on(other, m, steps);
            }
        }
    }
    None
}

/// What comes next.
fn turn(here: &Window, there: &Window) -> Turn
    ensures { result ≡ turn_by here.now.before.items here.now.ahead.items there.now.before.items there.now.ahead.items }
{
    match (here.ahead.first(), there.ahead.first()) {
        (Some(a), Some(b)) => {
            if a.is_same(b) {
                Turn::Moves(1, 1)
            } else {
                parting(a.step(), b.step(), here.round(), there.round())
            }
        }
        _ => Turn::Ended,
    }
}

/// What comes next at steps that are not the same, by the rounds that follow.
fn parting(a: u64, b: u64, here: usize, there: usize) -> Turn
    ensures { result ≡ parting a b here there }
{
    match (here, there) {
        (0, 0) => Turn::Parts(a, b),
        (0, _) => Turn::Moves(0, there),
        (_, 0) => Turn::Moves(here, 0),
        _ => Turn::Parts(a, b),
    }
}

/// Of how many steps is the round that follows some steps; 0 where none does.
#[tactic(auto, unfolding(crate::specs::MainSteps::round))]
fn round(before: &[MainStep], ahead: &[MainStep]) -> usize
    ensures { result ≡ round before.now ahead.now }
{
    if repeats(before, ahead, 1) {
        1
    } else if repeats(before, ahead, 2) {
        2
    } else if repeats(before, ahead, 3) {
        3
    } else if repeats(before, ahead, 4) {
        4
    } else {
        0
    }
}

/// Whether so many steps that follow are those before them.
#[tactic(auto, using(crate::proofs::Again::again_steps), unfolding(crate::specs::MainSteps::repeats))]
fn repeats(before: &[MainStep], ahead: &[MainStep], count: usize) -> bool
    ensures { result ≡ repeats before.now ahead.now count }
{
    for index in 0..count {
        if !is_again(before, ahead, count, index) {
            return false;
        }
    }
    true
}

/// Whether one of those that follow is the one so many steps before it.
fn is_again(before: &[MainStep], ahead: &[MainStep], count: usize, index: usize) -> bool
    requires { index < count }
    ensures { result ≡ is_again before.now ahead.now count index }
{
    match (before.get(count - 1 - index), ahead.get(index)) {
        (Some(a), Some(b)) => a.is_same(b),
        _ => false,
    }
}
