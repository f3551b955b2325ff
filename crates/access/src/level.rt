//! The level of a step.

ghost use Rattle.std.specs.Prelude.{◌≡◌, ◌<◌, ◌≤◌, length};
ghost use Rattle.access.specs.Accesses.{account_in};
ghost use Rattle.access.specs.Levels.{entered_by, level_by, level_executed, level_name, levels};

use cpu::{Account, Machine, NextStep};
use feed::interrupt::Interrupt;
use trace::interrupt_name;

/// How many levels there are.
pub(crate) const LEVELS: usize = 13;

/// The main program, where interrupts may come.
pub const ALLOWED: usize = 0;

/// The main program, while they are inhibited.
const INHIBITED: usize = 11;

/// An input.
const BY_INPUT: usize = 12;

/// The level of a step, where an interrupt was entered last: 0 where none was.
pub fn level_of(step: &NextStep, machine: &Machine, last: usize) -> usize
    requires { last ≤ 10 }
    ensures level { result ≡ level_by step.now machine.now last }
    ensures within { result < levels }
{
    match step {
        NextStep::Takes(_) => BY_INPUT,
        NextStep::Enters(interrupt) => usize::from(interrupt.number()),
        NextStep::Executes(_) => level_executed(machine, last),
    }
}

/// The level of a step that executes an instruction.
pub(crate) fn level_executed(machine: &Machine, last: usize) -> usize
    requires { last ≤ 10 }
    ensures level { result ≡ level_executed machine.now last }
    ensures within { result < levels }
{
    if machine.inside() {
        last
    } else if machine.inhibit() {
        INHIBITED
    } else {
        ALLOWED
    }
}

/// The interrupt that was entered last, after a step.
pub fn last_after(step: &NextStep, last: usize) -> usize
    requires { last ≤ 10 }
    ensures last { result ≡ entered_by step.now last }
    ensures within { result ≤ 10 }
{
    match step {
        NextStep::Takes(_) | NextStep::Executes(_) => last,
        NextStep::Enters(interrupt) => usize::from(interrupt.number()),
    }
}

/// Where a step stands.
pub(crate) fn account_in(step: &NextStep) -> Account
    ensures { result ≡ account_in step.now }
{
    match step {
        NextStep::Takes(_) => Account::Input,
        NextStep::Enters(_) => Account::Entry,
        NextStep::Executes(fetched) => {
            if fetched.waited {
                Account::Waiting
            } else {
                Account::Place(fetched.place)
            }
        }
    }
}

/// The name of a level.
pub fn level_name(level: usize) -> &'static [u8]
    requires { level < levels }
    ensures name { result.now ≡ level_name level }
    ensures short { length result.now ≤ 9 }
{
    if level == ALLOWED {
        b"MAIN"
    } else if level == INHIBITED {
        b"INHIBITED"
    } else if level == BY_INPUT {
        b"INPUT"
    } else {
        interrupt_name(Interrupt::new(level as u8))
    }
}
