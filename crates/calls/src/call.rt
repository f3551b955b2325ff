//! Calls by TC.

ghost use Rattle.std.specs.Prelude.{◌≡◌, None, Some};
ghost use Rattle.cpu.specs.State.{FitsRun};
ghost use Rattle.cpu.specs.Effects.{place_in};
ghost use Rattle.calls.specs.Calls.{called_place, enters, is_call, is_fixed, is_tc, leads_on, return_place};
ghost use Rattle.calls.specs.Waiting.{standing_place};

use cpu::{Fetched, Machine, NextStep, Processor, instruction_name};
use space::resolve::resolve;
use space::{Addr12, Linear};

/// Where the routine returns to that the next step enters, if it enters one.
pub fn entered(processor: &Processor, machine: &Machine) -> Option<Linear>
    requires { FitsRun processor.now.scenario machine.now }
    ensures { result ≡ enters processor.now.scenario machine.now }
{
    match processor.next_step(machine) {
        NextStep::Takes(_) => None,
        NextStep::Enters(_) => None,
        NextStep::Executes(fetched) => {
            if is_call(machine, &fetched) {
                Some(return_place(machine))
            } else {
                None
            }
        }
    }
}

/// Whether an instruction is TC that leads from a place of fixed memory to another.
pub fn is_call(machine: &Machine, fetched: &Fetched) -> bool
    ensures { result ≡ is_call machine.now fetched.now }
{
    is_tc(fetched) && leads_on(&standing_place(machine), &called_place(machine, fetched))
}

/// Whether an instruction is TC.
fn is_tc(fetched: &Fetched) -> bool
    ensures { result ≡ is_tc fetched.now }
{
    instruction_name(fetched.word, fetched.extra) == b"TC".as_slice()
}

/// Whether TC leads from a place of fixed memory to another.
fn leads_on(from: &Linear, to: &Linear) -> bool
    ensures { result ≡ leads_on from.now to.now }
{
    is_fixed(from) && is_fixed(to) && to != from
}

/// Whether a place is in fixed memory.
fn is_fixed(place: &Linear) -> bool
    ensures { result ≡ is_fixed place.now }
{
    match place {
        Linear::Erasable(_) => false,
        Linear::Fixed(..) => true,
    }
}

/// The place to which the operand of TC leads.
pub fn called_place(machine: &Machine, fetched: &Fetched) -> Linear
    ensures { result ≡ called_place machine.now fetched.now }
{
    place_at(machine, Addr12::of_low_bits(fetched.word.to_u16()))
}

/// Where the next instruction stands, or stood before it waited.
pub fn standing_place(machine: &Machine) -> Linear
    ensures { result ≡ standing_place machine.now }
{
    let next = machine.store().next_address();
    match machine.waiting_word() {
        Some(_) => place_at(machine, Addr12::of_low_bits(next.number() + 0o7777)),
        None => place_at(machine, next),
    }
}

/// Where Z leads once an instruction is fetched: a routine that it enters returns there.
pub fn return_place(machine: &Machine) -> Linear
    ensures { result ≡ return_place machine.now }
{
    let next = machine.store().next_address();
    match machine.waiting_word() {
        Some(_) => place_at(machine, next),
        None => place_at(machine, Addr12::of_low_bits(next.number() + 1)),
    }
}

/// The place to which an address leads.
#[tactic(auto, unfolding(cpu::specs::Effects::place_in))]
fn place_at(machine: &Machine, address: Addr12) -> Linear
    ensures { result ≡ place_in machine.now address }
{
    resolve(address, machine.store().banks())
}
