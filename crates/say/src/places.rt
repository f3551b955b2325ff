//! The places of which a sentence tells.

ghost use Rattle.std.specs.Prelude.{◌≡◌};
ghost use Rattle.cpu.specs.Codes.{code_of};
ghost use Rattle.cpu.specs.Effects.{place_in};
ghost use Rattle.cpu.specs.Inputs.{carried_by};
ghost use Rattle.cpu.specs.Operands.{address_of};
ghost use Rattle.say.specs.Told.{counter_places, executed_places, first_place, input_places};
ghost use Rattle.say.specs.Told.{no_places, places_of, second_address};

use crate::instruction::instruction_at;
use cpu::{Fetched, Input, Instruction, Machine, NextStep, named_address};
use feed::{Asks, Counter};
use space::resolve::resolve;
use space::{Addr12, Chan, Eras, Linear};

/// Addresses of 10 bits.
const SHORT: u16 = 0o2000;

/// The places of which a sentence tells.
#[derive(Clone, Copy)]
pub(crate) struct Places {
    /// Where an operand leads, of two words that follow one another the first's; or a counter.
    pub(crate) first: Linear,
    /// Where the second of two words is; or the counter into which a counter's overflow is carried.
    pub(crate) second: Linear,
    /// A channel.
    pub(crate) channel: Chan,
}

/// The places of which the sentence of the next step tells.
pub(crate) fn places_of(machine: &Machine, step: &NextStep) -> Places
    ensures { result ≡ places_of machine.now step.now }
{
    match step {
        NextStep::Takes(input) => input_places(*input),
        NextStep::Enters(_) => no_places(),
        NextStep::Executes(fetched) => executed_places(machine, fetched),
    }
}

/// Those of an instruction.
#[tactic(auto, unfolding(cpu::specs::Effects::place_in))]
fn executed_places(machine: &Machine, fetched: &Fetched) -> Places
    ensures { result ≡ executed_places machine.now fetched.now }
{
    let banks = machine.store().banks();
    let first = match named_address(fetched.word, fetched.extra) {
        Some(address) => resolve(address, banks),
        None => Linear::Erasable(Eras::A),
    };
    let word = fetched.word.to_u16();
    let second = second_address(instruction_at(fetched.word, fetched.extra), word);
    Places {
        first,
        second: resolve(second, banks),
        channel: Chan::of_low_bits(word),
    }
}

/// The address of the second of two words.
fn second_address(instruction: Instruction, word: u16) -> Addr12
    ensures { result ≡ second_address instruction word }
{
    match instruction {
        Instruction::Das => Addr12::of_low_bits(word % SHORT),
        Instruction::Dxch => Addr12::of_low_bits(word % SHORT),
        _ => Addr12::of_low_bits(word),
    }
}

/// Those of an input.
fn input_places(input: Input) -> Places
    ensures { result ≡ input_places input }
{
    match input {
        Input::Count(counter, _) => counter_places(counter, carried_by(counter.asks())),
        Input::Word(channel, _) => Places {
            first: Linear::Erasable(Eras::A),
            second: Linear::Erasable(Eras::A),
            channel,
        },
        Input::Interrupt(_) => no_places(),
    }
}

/// Those of a counter, and of the one into which its overflow is carried.
fn counter_places(counter: Counter, other: Option<Counter>) -> Places
    ensures { result ≡ counter_places counter other }
{
    let first = Linear::Erasable(counter.place());
    let second = match other {
        Some(other) => Linear::Erasable(other.place()),
        None => first,
    };
    Places {
        first,
        second,
        channel: Chan::of_low_bits(0),
    }
}

/// The counter into which an overflow is carried.
pub(crate) fn carried_by(asks: Asks) -> Option<Counter>
    ensures { result ≡ carried_by asks }
{
    match asks {
        Asks::CarryInto(counter) => Some(counter),
        _ => None,
    }
}

/// Nothing of which a sentence tells.
fn no_places() -> Places
    ensures { result ≡ no_places }
{
    Places {
        first: Linear::Erasable(Eras::A),
        second: Linear::Erasable(Eras::A),
        channel: Chan::of_low_bits(0),
    }
}
