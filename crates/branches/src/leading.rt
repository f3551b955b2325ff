//! To which places words lead without a branch.

ghost use Rattle.std.specs.Prelude.{◌≡◌, ◌+◌, ◌≤◌};
ghost use Rattle.cpu.specs.Effects.{place_in};
ghost use Rattle.branches.specs.Leading.{arrives_at, calls, entry_among, entry_to, is_on_the_way, is_there, leads_from};
ghost use Rattle.branches.specs.Leading.{leads_on, leads_to};

use crate::stand::{Stand, onward, plain};
use cpu::{Machine, instruction_name, named_address};
use feed::{INTERRUPTS, Interrupt};
use rope::Rope;
use space::resolve::resolve;
use space::{Addr12, Linear};

/// The most words that are looked at.
const MOST_WORDS: u16 = 64;

/// The address at which interrupt 0 would be entered: each other is four further than the one before.
const FIRST_ENTRY: u16 = 0o4000;

/// Whether the words where a machine stands lead to a place without a branch.
pub fn is_on_the_way(rope: &Rope, place: &Linear, machine: &Machine) -> bool
    ensures { result ≡ is_on_the_way rope.now place.now machine.now }
{
    leads_from(rope, machine, place, machine.store().next_address())
}

/// The first interrupt whose entry leads to a place without a branch.
#[tactic(auto, unfolding(crate::specs::Leading::entry_to))]
pub fn entry_to(rope: &Rope, machine: &Machine, place: &Linear) -> Option<Interrupt>
    ensures { result ≡ entry_to rope.now machine.now place.now }
{
    entry_among(rope, machine, place, 1, INTERRUPTS)
}

/// The same of so many interrupts from one on.
fn entry_among(
    rope: &Rope,
    machine: &Machine,
    place: &Linear,
    number: u8,
    count: u8,
) -> Option<Interrupt>
    requires first { 1 ≤ number }
    requires last { number + count ≤ 11 }
    ensures { result ≡ entry_among rope.now machine.now place.now number count }
{
    if count == 0 {
        return None;
    }
    let entry = Addr12::of_low_bits(FIRST_ENTRY + 4 * u16::from(number));
    if leads_from(rope, machine, place, entry) {
        Some(Interrupt::new(number))
    } else {
        entry_among(rope, machine, place, number + 1, count - 1)
    }
}

/// Whether the words from an address on lead to a place without a branch.
fn leads_from(rope: &Rope, machine: &Machine, place: &Linear, address: Addr12) -> bool
    ensures { result ≡ leads_from rope.now machine.now place.now address }
{
    leads_on(rope, machine, place, &plain(address))
}

/// Whether the words from one on lead to a place without a branch.
pub(crate) fn leads_on(rope: &Rope, machine: &Machine, place: &Linear, at: &Stand) -> bool
    ensures { result ≡ leads_on rope.now machine.now place.now at.now }
{
    leads_to(rope, machine, place, MOST_WORDS, at)
}

/// Whether one of so many words from one on stands at a place or calls the routine there.
#[tactic(auto, unfolding(crate::specs::Leading::leads_to))]
fn leads_to(rope: &Rope, machine: &Machine, place: &Linear, left: u16, at: &Stand) -> bool
    ensures { result ≡ leads_to rope.now machine.now place.now left at.now }
{
    if left == 0 {
        return false;
    }
    let there = place_at(machine, at.address);
    if arrives(rope, machine, place, at, &there) {
        return true;
    }
    match onward(rope, at, &there) {
        Some(next) => leads_to(rope, machine, place, left - 1, &next),
        None => false,
    }
}

/// Whether a word stands at a place, or calls the routine there.
fn arrives(rope: &Rope, machine: &Machine, place: &Linear, at: &Stand, there: &Linear) -> bool
    ensures { result ≡ arrives_at rope.now machine.now place.now at.now there.now }
{
    if there == place {
        return true;
    }
    calls(rope, machine, place, at, there)
}

/// Whether the word at a place calls the routine at another.
fn calls(rope: &Rope, machine: &Machine, place: &Linear, at: &Stand, there: &Linear) -> bool
    ensures { result ≡ calls rope.now machine.now place.now at.now there.now }
{
    match there {
        Linear::Erasable(_) => false,
        Linear::Fixed(bank, offset) => {
            let word = rope.word(*bank, *offset);
            !at.indexed
                && instruction_name(word, at.extra) == b"TC".as_slice()
                && is_there(machine, place, named_address(word, at.extra))
        }
    }
}

/// Whether an address leads to a place.
fn is_there(machine: &Machine, place: &Linear, address: Option<Addr12>) -> bool
    ensures { result ≡ is_there machine.now place.now address }
{
    match address {
        Some(address) => place_at(machine, address) == *place,
        None => false,
    }
}

/// The place to which an address leads.
#[tactic(auto, unfolding(cpu::specs::Effects::place_in))]
fn place_at(machine: &Machine, address: Addr12) -> Linear
    ensures { result ≡ place_in machine.now address }
{
    resolve(address, machine.store().banks())
}
