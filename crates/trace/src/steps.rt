//! What a step is, as text.

ghost use Rattle.std.specs.Prelude.{◌≡◌, ◌*◌, ◌+◌, ◌<◌, ◌≤◌, ◌++◌, length, unwrap_or};
ghost use Rattle.arrayvec.specs.ArrayVec.{array_vec_len};
ghost use Rattle.words.specs.Numbers.{correct};
ghost use Rattle.words.specs.Numerals.{octal_text};
ghost use Rattle.cpu.specs.NextStep.{next_step};
ghost use Rattle.cpu.specs.State.{FitsRun};
ghost use Rattle.cpu.specs.Effects.{place_in, value_at};
ghost use Rattle.trace.specs.TraceLines.{added_text, entry_place, fetched_text, full_name, octal_digits};
ghost use Rattle.trace.specs.TraceLines.{operand_gap, short_octal, taken_text, what_text, word_place, word_text};

use crate::fields::{StepFields, Text, place_text, step_fields};
use crate::inputs::{input_text, interrupt_name, push_asked};
use crate::names::Names;
use crate::near::{OPERAND_GAP, full_name};
use arrayvec::ArrayVec;
use cpu::{Fetched, Machine, NextStep, Processor, disassemble, instruction_name, named_address};
use feed::Input;
use feed::interrupt::Interrupt;
use space::resolve::resolve;
use space::{Addr12, Bank, Linear, Offset};
use words::{Wide, Word, push_all, push_octal};

/// The bank where interrupts are entered.
const ENTRY_BANK: u16 = 2;

/// The sign of a word of 16 bits.
const SIGN: u16 = 0o100000;

/// How many words there are for each interrupt.
const ENTRY_WORDS: u16 = 4;

/// What the next step is: its place, its word and its text.
pub fn what_text<N: Names>(names: &N, processor: &Processor, machine: &Machine) -> StepFields
    requires { FitsRun processor.now.scenario machine.now }
    ensures items { result.items ≡ what_text (N.table names.now) processor.now.scenario.rope machine.now
        (next_step processor.now.scenario machine.now) }
    ensures short { array_vec_len result ≤ 66 }
{
    match processor.next_step(machine) {
        NextStep::Takes(input) => {
            step_fields(b"-", b"INPUT", taken_text(machine, input).as_slice())
        }
        NextStep::Enters(interrupt) => {
            let place = place_text(entry_place(interrupt));
            step_fields(place.as_slice(), b"ENTRY", interrupt_name(interrupt))
        }
        NextStep::Executes(fetched) => {
            let text = fetched_text(names, processor, machine, &fetched);
            step_fields(
                word_place(&fetched).as_slice(),
                octal_word(fetched.word).as_slice(),
                text.as_slice(),
            )
        }
    }
}

/// An input with what it asks for.
pub(crate) fn taken_text(machine: &Machine, input: Input) -> Text
    ensures items { result.items ≡ taken_text machine.now input }
    ensures short { array_vec_len result ≤ 46 }
{
    let mut text = input_text(&input);
    push_asked(&mut text, machine.interrupt_asked(input));
    text
}

/// The place where an interrupt is entered.
pub fn entry_place(interrupt: Interrupt) -> Linear
    ensures { result ≡ entry_place interrupt }
{
    let number = u16::from(interrupt.number());
    match (
        Bank::try_new(ENTRY_BANK),
        Offset::try_new(ENTRY_WORDS * number),
    ) {
        (Some(bank), Some(offset)) => Linear::Fixed(bank, offset),
        _ => unreachable!(),
    }
}

/// Where the word that is executed stands.
pub(crate) fn word_place(fetched: &Fetched) -> Text
    ensures items { result.items ≡ word_place fetched.now }
    ensures short { array_vec_len result ≤ 7 }
{
    if fetched.waited {
        let mut text = ArrayVec::new();
        push_all(&mut text, b"BRUPT");
        text
    } else {
        place_text(fetched.place)
    }
}

/// A word in octal.
pub(crate) fn octal_word(word: Word) -> Text
    ensures items { result.items ≡ octal_text 5 word }
    ensures len { array_vec_len result ≡ 5 }
{
    let mut text = ArrayVec::new();
    push_octal(&mut text, 5, word.to_u16());
    text
}

/// An instruction: the word that stands at its place, as text, and what INDEX adds to it.
pub fn fetched_text<N: Names>(
    names: &N,
    processor: &Processor,
    machine: &Machine,
    fetched: &Fetched,
) -> Text
    ensures items { result.items ≡ fetched_text (N.table names.now) processor.now.scenario.rope machine.now
        fetched.now }
    ensures short { array_vec_len result ≤ 32 }
{
    if fetched.waited {
        return instruction_text(names, machine, fetched.word, fetched.extra);
    }
    let word = word_at(processor, machine, fetched.place);
    let mut text = instruction_text(names, machine, word, fetched.extra);
    push_added(&mut text, fetched.added);
    text
}

/// The instruction that a word is, under extracode or not, with the name of the place that it names.
fn instruction_text<N: Names>(names: &N, machine: &Machine, word: Word, extra: bool) -> Text
    ensures items { result.items ≡ word_text (N.table names.now) machine.now extra word }
    ensures short { array_vec_len result ≤ 24 }
{
    let mut text = ArrayVec::new();
    match named_address(word, extra) {
        None => push_all(&mut text, disassemble(word, extra).as_slice()),
        Some(address) => {
            push_all(&mut text, instruction_name(word, extra));
            push_all(&mut text, b" ");
            push_operand(&mut text, names, machine, address);
        }
    }
    text
}

/// Appends the place to which an address leads, by its name or the symbol before it, or the address.
#[tactic(auto, unfolding(cpu::specs::Effects::place_in))]
fn push_operand<N: Names>(text: &mut Text, names: &N, machine: &Machine, address: Addr12)
    requires { array_vec_len text.old ≤ 11 }
    ensures items { text.new.items ≡ text.old.items
        ++ unwrap_or (full_name operand_gap (N.table names.now) (place_in machine.now address)) (octal_text 4 address) }
    ensures short { array_vec_len text.new ≤ array_vec_len text.old + 12 }
{
    match full_name(
        OPERAND_GAP,
        names,
        &resolve(address, machine.store().banks()),
    ) {
        Some(name) => push_all(text, name.as_slice()),
        None => push_octal(text, 4, address.number()),
    }
}

/// The sum that INDEX left, as an offset of a source.
pub fn added_text(added: Option<Wide>) -> Text
    ensures items { result.items ≡ added_text added }
    ensures short { array_vec_len result ≤ 7 }
{
    let mut text = ArrayVec::new();
    push_added(&mut text, added);
    text
}

/// Appends the sum that INDEX left, as an offset of a source: its sign, and its size in octal.
fn push_added(text: &mut Text, added: Option<Wide>)
    requires { array_vec_len text.old ≤ 24 }
    ensures items { text.new.items ≡ text.old.items ++ added_text added }
    ensures short { array_vec_len text.new ≤ array_vec_len text.old + 7 }
{
    if let Some(sum) = added {
        let bits = sum.to_u16();
        if bits < SIGN {
            push_all(text, b" +");
            push_short_octal(text, bits);
        } else {
            push_all(text, b" -");
            push_short_octal(text, u16::MAX - bits);
        }
    }
}

/// Appends a number in octal, without zeros at its head.
pub(crate) fn push_short_octal(text: &mut Text, number: u16)
    requires room { array_vec_len text.old ≤ 26 }
    requires size { number < SIGN }
    ensures items { text.new.items ≡ text.old.items ++ short_octal number }
    ensures len { array_vec_len text.new ≡ array_vec_len text.old + octal_digits number }
    ensures short { array_vec_len text.new ≤ array_vec_len text.old + 5 }
{
    push_octal(text, octal_digits(number), number);
}

/// How many octal digits a number has.
fn octal_digits(number: u16) -> usize
    requires { number < SIGN }
    ensures digits { result ≡ octal_digits number }
    ensures few { result ≤ 5 }
{
    match number {
        0..0o10 => 1,
        0o10..0o100 => 2,
        0o100..0o1000 => 3,
        0o1000..0o10000 => 4,
        _ => 5,
    }
}

/// The word at a place.
#[tactic(auto, unfolding(cpu::specs::Effects::value_at))]
fn word_at(processor: &Processor, machine: &Machine, place: Linear) -> Word
    ensures { result ≡ correct (value_at processor.now.scenario.rope machine.now place) }
{
    match place {
        Linear::Erasable(place) => machine.word(place),
        Linear::Fixed(bank, offset) => processor.rope().word(bank, offset),
    }
}
