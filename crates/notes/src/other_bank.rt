//! Whether an instruction reaches another bank than its source names.

ghost use Rattle.std.specs.Prelude.{◌≡◌, Some};
ghost use Rattle.cpu.specs.Effects.{place_in};
ghost use Rattle.notes.specs.Notes.{is_elsewhere, is_erasable, leads_elsewhere, names_erasable_in, place_named};
ghost use Rattle.notes.specs.Notes.{reaches_other};

use cpu::{Fetched, Machine, NextStep, named_address};
use space::{Addr12, FIRST_FIXED, FIRST_IN_WINDOW, Linear, resolve_fixed, resolve_unbanked};
use yayul::NamedPlaces;

/// How many words an erasable bank holds.
const BANK_SIZE: u16 = 0o400;

/// The first address whose bank FB selects.
const FIRST_SWITCHED: u16 = 0o2000;

/// Whether an instruction reaches another bank than that of the place that its source names. What INDEX added something
/// to is passed over, and so is a word that waited.
#[inline(always)]
pub(crate) fn reaches_other(named: &NamedPlaces, machine: &Machine, fetched: &Fetched) -> bool
    ensures { result ≡ reaches_other named.now machine.now fetched.now }
{
    if fetched.waited || fetched.added.is_some() {
        return false;
    }
    match place_named(named, &fetched.place) {
        Some(place) => leads_elsewhere(machine, place, named_address(fetched.word, fetched.extra)),
        None => false,
    }
}

/// Whether the place that the source of the word at a place names is one of erasable memory.
pub(crate) fn names_erasable(named: &NamedPlaces, place: &Linear) -> bool
    ensures { result ≡ is_erasable (place_named named.now place.now) }
{
    match place_named(named, place) {
        Some(Linear::Erasable(_)) => true,
        Some(Linear::Fixed(_, _)) | None => false,
    }
}

/// Whether the place that the source of a step's instruction names is one of erasable memory.
pub(crate) fn names_erasable_in(named: &NamedPlaces, step: &NextStep) -> bool
    ensures { result ≡ names_erasable_in named.now step.now }
{
    match step {
        NextStep::Takes(_) | NextStep::Enters(_) => false,
        NextStep::Executes(fetched) => names_erasable(named, &fetched.place),
    }
}

/// The place that the source of the word at a place names.
#[inline(always)]
fn place_named(named: &NamedPlaces, place: &Linear) -> Option<Linear>
    ensures { result ≡ place_named named.now place.now }
{
    match place {
        Linear::Erasable(_) => None,
        Linear::Fixed(bank, offset) => named.named_at(*bank, *offset),
    }
}

/// Whether an address leads to another bank than a place's.
fn leads_elsewhere(machine: &Machine, other: Linear, address: Option<Addr12>) -> bool
    ensures { result ≡ leads_elsewhere machine.now (Some other) address }
{
    match address {
        Some(address) => is_elsewhere(&other, &place_at(machine, address)),
        None => false,
    }
}

/// Whether a place is in another bank than one that is named.
fn is_elsewhere(other: &Linear, place: &Linear) -> bool
    ensures { result ≡ is_elsewhere other.now place.now }
{
    match (other, place) {
        (Linear::Erasable(other), Linear::Erasable(place)) => {
            place.number() / BANK_SIZE != other.number() / BANK_SIZE
        }
        (Linear::Fixed(other, _), Linear::Fixed(bank, _)) => bank.number() != other.number(),
        (Linear::Erasable(_), Linear::Fixed(_, _)) | (Linear::Fixed(_, _), Linear::Erasable(_)) =>
            true,
    }
}

/// The place to which an address leads. Only an address in a window needs the bank registers.
#[inline(always)]
#[tactic(auto, unfolding(cpu::specs::Effects::place_in))]
pub(crate) fn place_at(machine: &Machine, address: Addr12) -> Linear
    ensures { result ≡ place_in machine.now address }
{
    let number = address.number();
    if number < FIRST_IN_WINDOW {
        Linear::Erasable(resolve_unbanked(address))
    } else if number >= FIRST_FIXED {
        let (bank, offset) = resolve_fixed(address);
        Linear::Fixed(bank, offset)
    } else if number < FIRST_SWITCHED {
        Linear::Erasable(machine.store().place_in_erasable_window(address))
    } else {
        let (bank, offset) = machine.store().place_in_fixed_window(address);
        Linear::Fixed(bank, offset)
    }
}
