//! To what the cycles of a step are put down.

ghost use Rattle.std.specs.Prelude.{◌≡◌, ◌<◌, ◌≤◌, length};
ghost use Rattle.delays.specs.Causes.{bar_of, cause_by, cause_name, causes};
ghost use Rattle.delays.specs.Spans.{asked_in, is_closed};
ghost use Rattle.notes.specs.RunNotes.{where_of};

use access::{ALLOWED, level_name, level_of};
use cpu::{Account, Machine, NextStep};
use feed::interrupt::Interrupt;
use space::Eras;
use trace::entry_place;
use words::Overflow;

/// How many causes there are.
pub(crate) const CAUSES: usize = 17;

/// Extracode is in force.
const EXTENDED: usize = 13;

/// A sum waits, as INDEX leaves it.
const INDEXED: usize = 14;

/// A word waits, as RESUME brings it.
const RESUMED: usize = 15;

/// A overflows.
const OVERFLOWED: usize = 16;

/// The cause of a step, where an interrupt was entered last: 0 where none was.
pub(crate) fn cause_of(step: &NextStep, machine: &Machine, last: usize) -> usize
    requires { last ≤ 10 }
    ensures cause { result ≡ cause_by step.now machine.now last }
    ensures within { result < causes }
{
    let level = level_of(step, machine, last);
    if level == ALLOWED {
        bar_of(machine)
    } else {
        level
    }
}

/// What bars interrupts in the main program while they may come.
fn bar_of(machine: &Machine) -> usize
    ensures bar { result ≡ bar_of machine.now }
    ensures within { result < causes }
{
    if machine.extra() {
        EXTENDED
    } else if machine.waiting_sum().is_some() {
        INDEXED
    } else if machine.waiting_word().is_some() {
        RESUMED
    } else if machine.reg(Eras::A).overflow() != Overflow::No {
        OVERFLOWED
    } else {
        ALLOWED
    }
}

/// The name of a cause.
pub(crate) fn cause_name(cause: usize) -> &'static [u8]
    requires { cause < causes }
    ensures name { result.now ≡ cause_name cause }
    ensures short { length result.now ≤ 9 }
{
    if cause == EXTENDED {
        b"EXTEND"
    } else if cause == INDEXED {
        b"INDEX"
    } else if cause == RESUMED {
        b"RESUME"
    } else if cause == OVERFLOWED {
        b"OVERFLOW"
    } else {
        level_name(cause)
    }
}

/// Whether interrupts are inhibited, or one is served.
pub(crate) fn is_closed(machine: &Machine) -> bool
    ensures { result ≡ is_closed machine.now }
{
    machine.inhibit() || machine.inside()
}

/// The interrupt for which a step asks.
pub(crate) fn asked_in(step: &NextStep, machine: &Machine) -> Option<Interrupt>
    ensures { result ≡ asked_in step.now machine.now }
{
    match step {
        NextStep::Takes(input) => machine.interrupt_asked(*input),
        NextStep::Enters(_) | NextStep::Executes(_) => None,
    }
}

/// Where a step is: where Z leads, or where an interrupt is entered. An input is nowhere, and so is a word that waited.
pub(crate) fn where_of(step: &NextStep) -> Account
    ensures { result ≡ where_of step.now }
{
    match step {
        NextStep::Takes(_) => Account::Input,
        NextStep::Enters(interrupt) => Account::Place(entry_place(*interrupt)),
        NextStep::Executes(fetched) => {
            if fetched.waited {
                Account::Waiting
            } else {
                Account::Place(fetched.place)
            }
        }
    }
}
