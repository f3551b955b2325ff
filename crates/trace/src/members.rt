//! What a step is, as members of an object of JSON.

ghost use Rattle.std.specs.Prelude.{◌≡◌, ◌≤◌, ◌++◌, IfSome, length};
ghost use Rattle.std.specs.Option.{option_map};
ghost use Rattle.arrayvec.specs.ArrayVec.{array_vec_len};
ghost use Rattle.cpu.specs.NextStep.{next_step};
ghost use Rattle.cpu.specs.declared.next_step.NextStep.TheVariants.{Executes};
ghost use Rattle.cpu.specs.State.{FitsRun};
ghost use Rattle.trace.specs.StepMembers.{step_members, what_members, word_symbol};

use crate::fields::place_text;
use crate::inputs::interrupt_name;
use crate::names::Names;
use crate::steps::{entry_place, fetched_text, octal_word, taken_text, word_place};
use arrayvec::ArrayVec;
use cpu::{Fetched, Machine, NextStep, Processor};
use json_text::{push_json_string, push_string_or_null};
use words::push_all;

/// The most bytes of the members that tell what a step is: 35 of names, and a text of 48 and three of 8 bytes as
/// strings.
const STEP_MEMBERS: usize = 512;

/// The members that tell what a step is.
pub type StepMembers = ArrayVec<u8, STEP_MEMBERS>;

/// What the next step is, as `,"place":"02,4004","symbol":null,"word":"10100","text":"DV D"`.
pub fn what_members<N: Names>(names: &N, processor: &Processor, machine: &Machine) -> StepMembers
    requires { FitsRun processor.now.scenario machine.now }
    ensures items { result.items ≡ what_members (N.table names.now) processor.now.scenario.rope machine.now
        (next_step processor.now.scenario machine.now) }
    ensures short { array_vec_len result ≤ 487 }
{
    match processor.next_step(machine) {
        NextStep::Takes(input) => {
            let text = taken_text(machine, input);
            step_members(None, None, None, text.as_slice())
        }
        NextStep::Enters(interrupt) => {
            let place = entry_place(interrupt);
            let shown = place_text(place);
            let symbol = names.symbol_at(&place);
            step_members(
                Some(shown.as_slice()),
                symbol,
                None,
                interrupt_name(interrupt),
            )
        }
        NextStep::Executes(fetched) => executed_members(names, processor, machine, &fetched),
    }
}

/// What a step is that executes a word.
fn executed_members<N: Names>(
    names: &N,
    processor: &Processor,
    machine: &Machine,
    fetched: &Fetched,
) -> StepMembers
    ensures items { result.items ≡ what_members (N.table names.now) processor.now.scenario.rope machine.now
        (Executes fetched.now) }
    ensures short { array_vec_len result ≤ 487 }
{
    let place = word_place(fetched);
    let word = octal_word(fetched.word);
    let text = fetched_text(names, processor, machine, fetched);
    step_members(
        Some(place.as_slice()),
        word_symbol(names, fetched),
        Some(word.as_slice()),
        text.as_slice(),
    )
}

/// The symbol of the place where the word that is executed stands.
fn word_symbol<'a, N: Names>(names: &'a N, fetched: &Fetched) -> Option<&'a [u8]>
    ensures name { option_map (λ name. name.now) result ≡ word_symbol (N.table names.now) fetched.now }
    ensures short { IfSome result (λ name. length name.now ≤ 8) }
{
    if fetched.waited {
        None
    } else {
        names.symbol_at(&fetched.place)
    }
}

/// The members that tell what a step is: a place, a symbol, a word, and a text.
#[tactic(auto, unfolding(crate::specs::StepMembers::step_members))]
fn step_members(
    place: Option<&[u8]>,
    symbol: Option<&[u8]>,
    word: Option<&[u8]>,
    text: &[u8],
) -> StepMembers
    requires place { IfSome place (λ text. length text.now ≤ 8) }
    requires symbol { IfSome symbol (λ text. length text.now ≤ 8) }
    requires word { IfSome word (λ text. length text.now ≤ 8) }
    requires text { length text.now ≤ 48 }
    ensures items { result.items ≡ step_members (option_map (λ t. t.now) place.entry)
        (option_map (λ t. t.now) symbol.entry) (option_map (λ t. t.now) word.entry) text.now }
    ensures short { array_vec_len result ≤ 487 }
{
    let mut members = ArrayVec::new();
    push_all(&mut members, b",\"place\":");
    push_string_or_null(&mut members, place);
    push_all(&mut members, b",\"symbol\":");
    push_string_or_null(&mut members, symbol);
    push_all(&mut members, b",\"word\":");
    push_string_or_null(&mut members, word);
    push_all(&mut members, b",\"text\":");
    push_json_string(&mut members, text);
    members
}
