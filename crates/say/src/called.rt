//! What a sentence calls what it tells of.

ghost use Rattle.std.specs.Prelude.{◌≡◌, ◌≤◌, ◌++◌, Some, length, unwrap_or};
ghost use Rattle.std.specs.Option.{option_map};
ghost use Rattle.words.specs.Numbers.{correct};
ghost use Rattle.words.specs.Numerals.{octal_text};
ghost use Rattle.cpu.specs.Codes.{code_of};
ghost use Rattle.cpu.specs.Effects.{place_in, value_at};
ghost use Rattle.cpu.specs.Operands.{address_of};
ghost use Rattle.trace.specs.TraceLines.{added_text, near_name, operand_gap};
ghost use Rattle.say.specs.Told.{called, indexed, indexed_by, input_other, interrupt_called, leads, named_address};
ghost use Rattle.say.specs.Told.{operand_by, other_pulse};

use crate::places::carried_by;
use arrayvec::ArrayVec;
use cpu::{Fetched, Input, Machine, NextStep, named_address};
use feed::interrupt::Interrupt;
use feed::{Counter, Sequence};
use rope::Rope;
use space::resolve::resolve;
use space::{Addr12, Linear};
use std::marker::Model;
use trace::{
    Names, OPERAND_GAP, Text, added_text, input_text, interrupt_name, near_name, place_name,
};
use words::{Wide, Word, push_all, push_octal};

/// The sign of a word of 16 bits.
const SIGN: u16 = 0o100000;

/// What a sentence calls what it tells of.
#[derive(Drop)]
pub(crate) struct Called {
    // an operand, or an input
    pub(crate) operand: Text,
    // the pulse of another counter that an overflow gives
    pub(crate) other: Text,
    // an interrupt
    pub(crate) interrupt: Text,
}

impl Model for Called {
    ghost use Rattle.say.specs.Told as told;

    ghost Value = { told.Called };

    ghost view = { λ c. record { operand = c.operand.items; other = c.other.items; interrupt = c.interrupt.items } };
}

/// What the sentence of the next step calls what it tells of.
pub(crate) fn called_in<N: Names>(
    names: &N,
    rope: &Rope,
    machine: &Machine,
    step: &NextStep,
) -> Called
    ensures { result ≡ called (N.table names.now) rope.now machine.now step.now }
{
    match step {
        NextStep::Takes(input) => Called {
            operand: input_text(input),
            other: input_other(*input),
            interrupt: interrupt_called(machine.interrupt_asked(*input)),
        },
        NextStep::Enters(interrupt) => Called {
            operand: ArrayVec::new(),
            other: ArrayVec::new(),
            interrupt: interrupt_called(Some(*interrupt)),
        },
        NextStep::Executes(fetched) => Called {
            operand: operand(names, rope, machine, fetched),
            other: ArrayVec::new(),
            interrupt: ArrayVec::new(),
        },
    }
}

/// The pulse of another counter that an input's overflow gives.
fn input_other(input: Input) -> Text
    ensures { result.items ≡ input_other input }
{
    match input {
        Input::Count(counter, _) => other_pulse(carried_by(counter.asks())),
        Input::Word(_, _) | Input::Interrupt(_) => ArrayVec::new(),
    }
}

/// The pulse of a counter into which an overflow is carried.
fn other_pulse(other: Option<Counter>) -> Text
    ensures { result.items ≡ other_pulse other }
{
    match other {
        Some(other) => input_text(&Input::Count(other, Sequence::Pinc)),
        None => ArrayVec::new(),
    }
}

/// An interrupt, if any.
fn interrupt_called(interrupt: Option<Interrupt>) -> Text
    ensures { result.items ≡ interrupt_called interrupt }
{
    let mut text = ArrayVec::new();
    if let Some(interrupt) = interrupt {
        push_all(&mut text, interrupt_name(interrupt));
    }
    text
}

/// What an instruction's operand is called.
fn operand<N: Names>(names: &N, rope: &Rope, machine: &Machine, fetched: &Fetched) -> Text
    ensures { result.items ≡ operand_by (N.table names.now) rope.now machine.now fetched.now
        (address_of (code_of fetched.now.extra fetched.now.word)) }
{
    match named_address(fetched.word, fetched.extra) {
        Some(address) => address_called(names, rope, machine, fetched, address),
        None => ArrayVec::new(),
    }
}

/// Where an address leads: by its name, else by that of the word before INDEX, else by the symbol before it, else the
/// address.
#[tactic(auto, unfolding(cpu::specs::Effects::place_in))]
fn address_called<N: Names>(
    names: &N,
    rope: &Rope,
    machine: &Machine,
    fetched: &Fetched,
    address: Addr12,
) -> Text
    ensures { result.items ≡ named_address (N.table names.now) rope.now machine.now fetched.now address }
{
    if let Some(name) = place_name(names, resolve(address, machine.store().banks())) {
        let mut text = ArrayVec::new();
        push_all(&mut text, name);
        return text;
    }
    match indexed(names, rope, machine, fetched, address) {
        Some(text) => text,
        None => near_address(names, machine, address),
    }
}

/// An address by the symbol before its place, or as it is.
#[tactic(auto, unfolding(cpu::specs::Effects::place_in))]
fn near_address<N: Names>(names: &N, machine: &Machine, address: Addr12) -> Text
    ensures { result.items ≡ unwrap_or (near_name operand_gap (N.table names.now) (place_in machine.now address))
        (octal_text 4 address) }
{
    match near_name(
        OPERAND_GAP,
        names,
        &resolve(address, machine.store().banks()),
    ) {
        Some(text) => text,
        None => octal_address(address),
    }
}

/// An address.
fn octal_address(address: Addr12) -> Text
    ensures { result.items ≡ octal_text 4 address }
{
    let mut text = ArrayVec::new();
    push_octal(&mut text, 4, address.number());
    text
}

/// An address by the symbol at that of the word before INDEX, and the sum that this left.
fn indexed<N: Names>(
    names: &N,
    rope: &Rope,
    machine: &Machine,
    fetched: &Fetched,
    to: Addr12,
) -> Option<Text>
    ensures { option_map (λ text. text.items) result
        ≡ indexed (N.table names.now) rope.now machine.now fetched.now fetched.now.added to }
{
    match fetched.added {
        Some(sum) => {
            let word = word_at(rope, machine, &fetched.place);
            let address = named_address(word, fetched.extra);
            indexed_by(names, machine, sum, to, address)
        }
        None => None,
    }
}

/// The same where the address of the word before INDEX is known, if it has one.
#[tactic(auto, unfolding(cpu::specs::Effects::place_in))]
fn indexed_by<N: Names>(
    names: &N,
    machine: &Machine,
    sum: Wide,
    to: Addr12,
    address: Option<Addr12>,
) -> Option<Text>
    ensures { option_map (λ text. text.items) result ≡ indexed_by (N.table names.now) machine.now sum to address }
{
    match address {
        Some(address) => {
            if !leads(address, sum, to) {
                return None;
            }
            match names.symbol_at(&resolve(address, machine.store().banks())) {
                Some(name) => Some(with_sum(name, sum)),
                None => None,
            }
        }
        None => None,
    }
}

/// A name, and the sum that INDEX left.
fn with_sum(name: &[u8], sum: Wide) -> Text
    requires { length name.now ≤ 8 }
    ensures { result.items ≡ name.now ++ added_text (Some sum) }
{
    let mut text = ArrayVec::new();
    push_all(&mut text, name);
    push_all(&mut text, added_text(Some(sum)).as_slice());
    text
}

/// Whether an address and the sum that INDEX left make another address.
fn leads(address: Addr12, sum: Wide, to: Addr12) -> bool
    ensures { result ≡ leads address sum to }
{
    let bits = sum.to_u16();
    if bits < SIGN {
        u32::from(address.number()) + u32::from(bits) == u32::from(to.number())
    } else {
        u32::from(address.number()) == u32::from(to.number()) + u32::from(u16::MAX - bits)
    }
}

/// The word at a place.
#[tactic(auto, unfolding(cpu::specs::Effects::value_at))]
fn word_at(rope: &Rope, machine: &Machine, place: &Linear) -> Word
    ensures { result ≡ correct (value_at rope.now machine.now place.now) }
{
    match place {
        Linear::Erasable(place) => machine.word(*place),
        Linear::Fixed(bank, offset) => rope.word(*bank, *offset),
    }
}
