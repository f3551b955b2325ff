//! The sentence of a step.

ghost use Rattle.std.specs.Prelude.{◌≡◌, ◌≤◌, ◌++◌, length};
ghost use Rattle.arrayvec.specs.ArrayVec.{array_vec_len};
ghost use Rattle.cpu.specs.Asking.{interrupt_asked};
ghost use Rattle.say.specs.Sentences.{asks, carries, entered, executed, leaves_out, left_out, sentence, taken};

use crate::executed::{executed, leaves_out, left_out};
use crate::inputs::{asks, carries, taken};
use crate::instruction::instruction_at;
use crate::places::Places;
use crate::values::Values;
use arrayvec::ArrayVec;
use cpu::{Fetched, Input, Instruction, Machine, NextStep};
use words::push_all;

/// The most bytes of a sentence, before what it tells of stands in it.
const SENTENCE: usize = 192;

/// A sentence, before what it tells of stands in it.
pub(crate) type Sentence = ArrayVec<u8, SENTENCE>;

/// What the next step does.
pub(crate) fn sentence_of(
    machine: &Machine,
    places: &Places,
    before: &Values,
    step: &NextStep,
) -> Sentence
    ensures { result.items ≡ sentence machine.now places.now before.now step.now }
{
    match step {
        NextStep::Takes(input) => input_sentence(machine, before, input),
        NextStep::Enters(_) => whole(entered()),
        NextStep::Executes(fetched) => {
            let instruction = instruction_at(fetched.word, fetched.extra);
            executed_sentence(machine.inside(), fetched, places, before, instruction)
        }
    }
}

/// What an instruction does, and what it leaves out.
fn executed_sentence(
    inside: bool,
    fetched: &Fetched,
    places: &Places,
    before: &Values,
    instruction: Instruction,
) -> Sentence
    ensures { result.items ≡ executed inside fetched.now places.now before.now instruction
        ++ left_out (leaves_out places.now before.now instruction) }
{
    let mut text = whole(executed(inside, fetched, places, before, instruction));
    push_all(&mut text, left_out(leaves_out(places, before, instruction)));
    text
}

/// What an input does, gives to another counter, and asks for.
fn input_sentence(machine: &Machine, before: &Values, input: &Input) -> Sentence
    ensures { result.items ≡ taken input.now before.now ++ carries machine.now input.now
        ++ asks (interrupt_asked machine.now input.now) }
{
    let mut text = whole(taken(input, before));
    push_all(&mut text, carries(machine, input));
    push_all(&mut text, asks(machine.interrupt_asked(*input)));
    text
}

/// What the entry of an interrupt does.
fn entered() -> &'static [u8]
    ensures text { result.now ≡ entered }
    ensures short { length result.now ≤ 160 }
{
    b"The interrupt ~ is entered: ZRUPT keeps where to go on, and BRUPT the word that is put off. What it changes of \
        A, L and Q the handler has to put back."
}

/// A sentence of its bytes.
fn whole(text: &[u8]) -> Sentence
    requires { length text.now ≤ 160 }
    ensures items { result.items ≡ text.now }
    ensures len { array_vec_len result ≡ length text.now }
{
    let mut sentence = ArrayVec::new();
    push_all(&mut sentence, text);
    sentence
}
