//! What stands at the places of which a sentence tells.

ghost use Rattle.std.specs.Prelude.{◌≡◌};
ghost use Rattle.cpu.specs.Effects.{value_at};
ghost use Rattle.say.specs.Told.{is_z, read_at, values_after, values_before};

use crate::places::Places;
use cpu::Machine;
use rope::Rope;
use space::{Eras, Linear};
use words::Wide;

/// How many addresses there are.
const ADDRESSES: u16 = 0o10000;

/// What stands in A, L and Q, at two places, and on a channel.
#[derive(Clone, Copy)]
pub(crate) struct Values {
    pub(crate) a: Wide,
    pub(crate) l: Wide,
    pub(crate) q: Wide,
    pub(crate) first: Wide,
    pub(crate) second: Wide,
    pub(crate) channel: Wide,
}

/// What a step finds there.
pub(crate) fn values_before(rope: &Rope, machine: &Machine, places: &Places) -> Values
    ensures { result ≡ values_before rope.now machine.now places.now }
{
    Values {
        first: read_at(rope, machine, &places.first),
        second: read_at(rope, machine, &places.second),
        ..values_after(rope, machine, places)
    }
}

/// What stands there after a step.
pub(crate) fn values_after(rope: &Rope, machine: &Machine, places: &Places) -> Values
    ensures { result ≡ values_after rope.now machine.now places.now }
{
    Values {
        a: machine.reg(Eras::A),
        l: machine.reg(Eras::L),
        q: machine.reg(Eras::Q),
        first: value_at(rope, machine, &places.first),
        second: value_at(rope, machine, &places.second),
        channel: machine.channel(places.channel),
    }
}

/// What a step reads at a place: Z has moved on when it is read, unless a word waited.
fn read_at(rope: &Rope, machine: &Machine, place: &Linear) -> Wide
    ensures { result ≡ read_at rope.now machine.now place.now }
{
    if is_z(place) && machine.waiting_word().is_none() {
        let z = machine.reg(Eras::Z).to_u16() % ADDRESSES;
        Wide::of_u16((z + 1) % ADDRESSES)
    } else {
        value_at(rope, machine, place)
    }
}

/// What stands at a place.
#[tactic(auto, unfolding(cpu::specs::Effects::value_at))]
fn value_at(rope: &Rope, machine: &Machine, place: &Linear) -> Wide
    ensures { result ≡ value_at rope.now machine.now place.now }
{
    match place {
        Linear::Erasable(place) => machine.reg(*place),
        Linear::Fixed(bank, offset) => rope.word(*bank, *offset).extend(),
    }
}

/// Whether a place is Z.
fn is_z(place: &Linear) -> bool
    ensures { result ≡ is_z place.now }
{
    match place {
        Linear::Erasable(place) => *place == Eras::Z,
        Linear::Fixed(_, _) => false,
    }
}
