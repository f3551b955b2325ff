//! The sentences of inputs.

ghost use Rattle.std.specs.Prelude.{◌≡◌, ◌≤◌, length};
ghost use Rattle.cpu.specs.Inputs.{is_overflow, step_of};
ghost use Rattle.say.specs.Sentences.{asks, carried, carries, pulse, taken};

use crate::places::carried_by;
use crate::values::Values;
use cpu::{Input, Machine};
use feed::interrupt::Interrupt;
use feed::{Counter, Sequence};
use words::{Carry, CounterStep, Wide, Word};

/// What an input does.
pub(crate) fn taken(input: &Input, before: &Values) -> &'static [u8]
    ensures text { result.now ≡ taken input.now before.now }
    ensures short { length result.now ≤ 80 }
{
    match input {
        Input::Count(_, sequence) => pulse(*sequence, before.first),
        Input::Word(_, _) => b"A word comes in on channel #: !.",
        Input::Interrupt(_) => b"A signal comes in.",
    }
}

/// What a sequence does to a counter that holds x.
fn pulse(sequence: Sequence, x: Wide) -> &'static [u8]
    ensures text { result.now ≡ pulse sequence x }
    ensures short { length result.now ≤ 80 }
{
    match sequence {
        Sequence::Pinc => b"The pulse @ counts up by one: ].",
        Sequence::Minc => b"The pulse @ counts down by one: ].",
        Sequence::Dinc => {
            if x.is_zero() {
                b"The pulse @ finds 0: ]."
            } else {
                b"The pulse @ counts towards 0 by one: ]."
            }
        }
        Sequence::Pcdu => b"The pulse @ turns an angle up by one: %.",
        Sequence::Mcdu => b"The pulse @ turns an angle down by one: %.",
        Sequence::Shinc => b"The pulse @ shifts the word up, and a 0 in: %.",
        Sequence::Shanc => b"The pulse @ shifts the word up, and a 1 in: %.",
    }
}

/// What an input's overflow gives to another counter.
pub(crate) fn carries(machine: &Machine, input: &Input) -> &'static [u8]
    ensures text { result.now ≡ carries machine.now input.now }
    ensures short { length result.now ≤ 40 }
{
    match input {
        Input::Count(counter, sequence) => {
            let step = step_of(*sequence, machine.word(counter.place()));
            carried(carried_by(counter.asks()), is_overflow(step.carry))
        }
        Input::Word(_, _) | Input::Interrupt(_) => b"",
    }
}

/// What is given to another counter where there is an overflow.
fn carried(other: Option<Counter>, carries: bool) -> &'static [u8]
    ensures text { result.now ≡ carried other carries }
    ensures short { length result.now ≤ 40 }
{
    match other {
        None => b"",
        Some(_) => {
            if carries {
                b" It overflows, and so gives &: }."
            } else {
                b""
            }
        }
    }
}

/// What an input asks for.
pub(crate) fn asks(interrupt: Option<Interrupt>) -> &'static [u8]
    ensures text { result.now ≡ asks interrupt }
    ensures short { length result.now ≤ 40 }
{
    match interrupt {
        Some(_) => b" It asks for ~.",
        None => b"",
    }
}

/// The step that a sequence makes of a word.
fn step_of(sequence: Sequence, word: Word) -> CounterStep
    ensures { result ≡ step_of sequence word }
{
    match sequence {
        Sequence::Pinc => word.pinc(),
        Sequence::Minc => word.minc(),
        Sequence::Dinc => word.dinc(),
        Sequence::Pcdu => word.pcdu(),
        Sequence::Mcdu => word.mcdu(),
        Sequence::Shinc => word.shinc(),
        Sequence::Shanc => word.shanc(),
    }
}

/// Whether plus or minus one has overflowed.
fn is_overflow(carry: Carry) -> bool
    ensures { result ≡ is_overflow carry }
{
    carry == Carry::Plus || carry == Carry::Minus
}
