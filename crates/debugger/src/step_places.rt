//! Where the steps of a chain stand.

ghost use Rattle.std.specs.Prelude.{◌≡◌, ◌≤◌};
ghost use Rattle.arrayvec.specs.ArrayVec.{array_vec_len};
ghost use Rattle.cpu.specs.NextStep.{next_step};
ghost use Rattle.cpu.specs.State.{FitsRun};
ghost use Rattle.trace.specs.TraceLines.{word_place};
ghost use Rattle.debugger.specs.Whys.{step_place, placed_by};

use arrayvec::ArrayVec;
use cpu::{Fetched, Machine, NextStep, Processor};
use trace::{entry_place, place_text};
use words::{push_all, push_decimal};

/// The most bytes of where a step stands.
const STEP_PLACE: usize = 7;

/// Where a step stands.
pub(crate) type StepPlace = ArrayVec<u8, STEP_PLACE>;

/// The most bytes of the line of a place: `WHERE `, 20 digits, a blank, the place and a line feed.
const PLACE_LINE: usize = 40;

/// The line of a place, or nothing.
pub(crate) type PlaceLine = ArrayVec<u8, PLACE_LINE>;

/// Where the next step of a machine stands.
pub(crate) fn step_place(processor: &Processor, machine: &Machine) -> StepPlace
    requires { FitsRun processor.now.scenario machine.now }
    ensures { result.items ≡ step_place (next_step processor.now.scenario machine.now) }
{
    let mut place = ArrayVec::new();
    match processor.next_step(machine) {
        NextStep::Takes(_) => push_all(&mut place, b"-"),
        NextStep::Enters(interrupt) => {
            push_all(&mut place, place_text(entry_place(interrupt)).as_slice());
        }
        NextStep::Executes(fetched) => push_word_place(&mut place, &fetched),
    }
    place
}

/// Appends where the word stands that is executed.
fn push_word_place(place: &mut StepPlace, fetched: &Fetched)
    requires { array_vec_len place.old ≡ 0 }
    ensures { place.new.items ≡ word_place fetched.now }
{
    if fetched.waited {
        push_all(place, b"BRUPT");
    } else {
        push_all(place, place_text(fetched.place).as_slice());
    }
}

/// The line of where the step of a number stands, where it is to be told.
#[tactic(auto, using(words::proofs::Digits::short_decimal))]
pub(crate) fn placed_by(places: bool, number: u64, place: &StepPlace) -> PlaceLine
    ensures items { result.items ≡ placed_by places number place.now.items }
    ensures short { array_vec_len result ≤ 40 }
{
    let mut line = ArrayVec::new();
    if places {
        push_all(&mut line, b"WHERE ");
        push_decimal(&mut line, number);
        push_all(&mut line, b" ");
        push_all(&mut line, place.as_slice());
        push_all(&mut line, b"\n");
    }
    line
}
