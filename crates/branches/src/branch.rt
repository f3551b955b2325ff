//! The ways of branches.

ghost use Rattle.std.specs.Prelude.{◌≡◌, ◌≤◌};
ghost use Rattle.std.specs.List.{list_any};
ghost use Rattle.cpu.specs.State.{FitsRun};
ghost use Rattle.branches.specs.Branches.{address_behind, both, four_from, has_way, is_call, is_skip, overflows};
ghost use Rattle.branches.specs.Branches.{ways, ways_by};
ghost use Rattle.branches.specs.Leading.{leads_on};

use crate::leading::leads_on;
use crate::stand::{Stand, is_called, is_register, moved, plain};
use arrayvec::ArrayVec;
use cpu::{Fetched, Machine, NextStep, Processor, instruction_name, named_address};
use rope::Rope;
use space::{Addr12, Eras, Linear};
use words::Overflow;

/// The most ways that an instruction has.
const MOST_WAYS: usize = 4;

type Ways = ArrayVec<Stand, MOST_WAYS>;

/// Whether one of the ways of the next step leads to a place without a further branch.
#[tactic(auto, unfolding(crate::specs::Branches::has_way))]
pub fn has_way(processor: &Processor, place: &Linear, machine: &Machine) -> bool
    requires { FitsRun processor.now.scenario machine.now }
    ensures { result ≡ has_way processor.now.scenario place.now machine.now }
{
    match processor.next_step(machine) {
        NextStep::Takes(_) => false,
        NextStep::Enters(_) => false,
        NextStep::Executes(fetched) => {
            let ways = ways(machine, &fetched);
            some_leads(processor.rope(), machine, place, ways.as_slice())
        }
    }
}

/// Whether the words from one of some on lead to a place.
fn some_leads(rope: &Rope, machine: &Machine, place: &Linear, ways: &[Stand]) -> bool
    ensures { result ≡ list_any (leads_on rope.now machine.now place.now) ways.now }
{
    ways.iter().any(|at| leads_on(rope, machine, place, at))
}

/// The words to which an instruction may lead that branches.
fn ways(machine: &Machine, fetched: &Fetched) -> Ways
    ensures { result.items ≡ ways machine.now fetched.now }
{
    ways_by(
        overflows(machine),
        instruction_name(fetched.word, fetched.extra),
        address_behind(machine, fetched),
        &named_address(fetched.word, fetched.extra),
    )
}

/// The same by its name, the address behind it and the one that it names.
fn ways_by(overflows: bool, name: &[u8], behind: Addr12, address: &Option<Addr12>) -> Ways
    ensures { result.items ≡ ways_by overflows name.now behind address.now }
{
    if name == b"CCS".as_slice() {
        return four_from(behind);
    }
    if name == b"BZF".as_slice() || name == b"BZMF".as_slice() {
        return both(behind, address);
    }
    let mut ways = ArrayVec::new();
    if is_call(name, behind, address) || is_skip(overflows, name, address) {
        ways.push(plain(behind));
    }
    ways
}

/// Four addresses from one on.
fn four_from(behind: Addr12) -> Ways
    ensures { result.items ≡ four_from behind }
{
    let mut ways = ArrayVec::new();
    ways.push(plain(behind));
    ways.push(plain(moved(behind, 1)));
    ways.push(plain(moved(behind, 2)));
    ways.push(plain(moved(behind, 3)));
    ways
}

/// An address, and another where one is named.
fn both(behind: Addr12, address: &Option<Addr12>) -> Ways
    ensures { result.items ≡ both behind address.now }
{
    let mut ways = ArrayVec::new();
    ways.push(plain(behind));
    if let Some(address) = address {
        ways.push(plain(*address));
    }
    ways
}

/// Whether an instruction is TC that calls a routine.
fn is_call(name: &[u8], behind: Addr12, address: &Option<Addr12>) -> bool
    ensures { result ≡ is_call name.now behind address.now }
{
    name == b"TC".as_slice() && is_called(behind, address)
}

/// Whether an instruction is TS that skips.
fn is_skip(overflows: bool, name: &[u8], address: &Option<Addr12>) -> bool
    ensures { result ≡ is_skip overflows name.now address.now }
{
    overflows && name == b"TS".as_slice() && !is_register(Eras::Z, address)
}

/// Whether A overflows.
fn overflows(machine: &Machine) -> bool
    ensures { result ≡ overflows machine.now }
{
    machine.reg(Eras::A).overflow() != Overflow::No
}

/// The address behind an instruction.
fn address_behind(machine: &Machine, fetched: &Fetched) -> Addr12
    ensures { result ≡ address_behind machine.now fetched.now }
{
    let next = machine.store().next_address();
    if fetched.waited { next } else { moved(next, 1) }
}
