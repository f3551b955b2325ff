//! The interrupts that are asked for, and not entered.

ghost use Rattle.std.specs.Prelude.{◌≡◌, ◌+◌, ◌≤◌, ◌^◌, replicate, get_or, Option, None};
ghost use Rattle.cpu.specs.Inputs.{input_cycles};
ghost use Rattle.notes.specs.declared.waits.Moment.{Moment};
ghost use Rattle.notes.specs.Waits.{asked_at, waits_after};

use cpu::{Input, Machine, NextStep};
use feed::interrupt::{INTERRUPTS, Interrupt};
use std::marker::Model;

/// How many places there are: one for each interrupt by its number, and one for 0, which is none.
const PLACES: usize = INTERRUPTS as usize + 1;

/// The end of a step: its number, and the cycles after it.
#[derive(Clone, Copy, PartialEq, Eq, Debug, Drop)]
pub(crate) struct Moment {
    pub(crate) step: u64,
    pub(crate) cycles: u64,
}

/// Since when each interrupt is asked for.
#[derive(Drop)]
pub(crate) struct Waits {
    moments: [Option<Moment>; PLACES],
}

impl Model for Waits {
    ghost use Rattle.notes.specs.Waits.{Waits};

    ghost Value = { Waits };

    ghost view = { λ w. w.moments };
}

impl Waits {
    /// Nothing is asked for.
    pub(crate) fn none() -> Waits
        ensures { result ≡ replicate 11 None }
    {
        Waits {
            moments: [None; PLACES],
        }
    }

    /// Keeps what the next step asks for, or that it enters what was asked for.
    pub(crate) fn note(&mut self, machine: &Machine, step: &NextStep, number: u64)
        requires { machine.now.cycles ≤ 2 ^ 62 }
        ensures { self.new ≡ waits_after machine.now step.now number self.old }
    {
        match step {
            NextStep::Takes(input) => {
                if let Some(interrupt) = machine.interrupt_asked(*input) {
                    let cycles = machine.cycles() + input_cycles(input);
                    let moment = Moment {
                        step: number,
                        cycles,
                    };
                    self.ask(interrupt, moment);
                }
            }
            NextStep::Enters(interrupt) => self.moments[usize::from(interrupt.number())] = None,
            NextStep::Executes(_) => {}
        }
    }

    /// An interrupt is asked for; it may be already.
    fn ask(&mut self, interrupt: Interrupt, moment: Moment)
        ensures { self.new ≡ asked_at interrupt moment self.old }
    {
        let place = usize::from(interrupt.number());
        if self.moments[place].is_none() {
            self.moments[place] = Some(moment);
        }
    }

    /// Since when an interrupt is asked for, where it is.
    pub(crate) fn since(&self, interrupt: Interrupt) -> Option<Moment>
        ensures { result ≡ get_or self.now interrupt None }
    {
        self.moments[usize::from(interrupt.number())]
    }
}

/// The cycles that an input takes.
fn input_cycles(input: &Input) -> u64
    ensures value { result ≡ input_cycles input.now }
    ensures few { result ≤ 1 }
{
    match input {
        Input::Count(_, _) => 1,
        Input::Word(_, _) | Input::Interrupt(_) => 0,
    }
}
