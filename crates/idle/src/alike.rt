//! Machines that differ at most in their cycles, and in the inputs that they have taken.

ghost use Rattle.std.specs.Prelude.{◌≡◌, ◌<◌};
ghost use Rattle.idle.specs.Alike.{are_alike, same_channel, same_channels, same_flag, same_flags, same_place};
ghost use Rattle.idle.specs.Alike.{same_places, same_request, same_requests, same_rest, same_waiting};
ghost use Rattle.idle.specs.Alike.{same_waits};

use cpu::Machine;
use feed::{INTERRUPTS, Interrupt};
use space::{Chan, Eras};
use words::{Wide, Word};

/// How many erasable places there are.
const PLACES: u16 = 0o4000;

/// How many channels there are.
const CHANNELS: u16 = 0o1000;

/// Whether all that a step depends on is the same in two machines, but for the cycles and the inputs taken.
#[inline(always)]
pub fn are_alike(one: &Machine, other: &Machine) -> bool
    ensures { result ≡ are_alike one.now other.now }
{
    same_place(one, other, Eras::Z) && same_rest(one, other)
}

/// The same where Z is the same.
#[inline(never)]
fn same_rest(one: &Machine, other: &Machine) -> bool
    ensures { result ≡ same_rest one.now other.now }
{
    same_flags(one, other)
        && same_waits(one, other)
        && same_places(one, other)
        && same_channels(one, other)
        && same_requests(one, other)
}

/// Whether the same stands at an erasable place.
fn same_place(one: &Machine, other: &Machine, place: Eras) -> bool
    ensures { result ≡ same_place one.now.cells other.now.cells place }
{
    one.reg(place) == other.reg(place)
}

/// Whether the same flags are set.
fn same_flags(one: &Machine, other: &Machine) -> bool
    ensures { result ≡ same_flags one.now other.now }
{
    same_flag(one.extra(), other.extra())
        && same_flag(one.inhibit(), other.inhibit())
        && same_flag(one.inside(), other.inside())
}

/// Whether two flags are the same.
fn same_flag(one: bool, other: bool) -> bool
    ensures { result ≡ same_flag one other }
{
    if one { other } else { !other }
}

/// Whether the same waits for the next instruction.
fn same_waits(one: &Machine, other: &Machine) -> bool
    ensures { result ≡ same_waits one.now other.now }
{
    same_sum(one.waiting_sum(), other.waiting_sum())
        && same_word(one.waiting_word(), other.waiting_word())
}

/// Whether the same sum waits, or none in both.
fn same_sum(one: Option<Wide>, other: Option<Wide>) -> bool
    ensures { result ≡ same_waiting one other }
{
    match (one, other) {
        (None, None) => true,
        (Some(here), Some(there)) => here == there,
        (None, Some(_)) => false,
        (Some(_), None) => false,
    }
}

/// Whether the same word waits, or none in both.
fn same_word(one: Option<Word>, other: Option<Word>) -> bool
    ensures { result ≡ same_waiting one other }
{
    match (one, other) {
        (None, None) => true,
        (Some(here), Some(there)) => here == there,
        (None, Some(_)) => false,
        (Some(_), None) => false,
    }
}

/// Whether the same stands at all erasable places.
#[tactic(auto, using(crate::proofs::Same::below_steps))]
fn same_places(one: &Machine, other: &Machine) -> bool
    ensures { result ≡ same_places one.now.cells other.now.cells 0o4000 }
{
    for number in 0..PLACES {
        if !same_place(one, other, Eras::of_low_bits(number)) {
            return false;
        }
    }
    true
}

/// Whether the same stands on all channels.
#[tactic(auto, using(crate::proofs::Same::below_steps))]
fn same_channels(one: &Machine, other: &Machine) -> bool
    ensures { result ≡ same_channels one.now.cells other.now.cells 0o1000 }
{
    for number in 0..CHANNELS {
        if !same_channel(one, other, Chan::of_low_bits(number)) {
            return false;
        }
    }
    true
}

/// Whether the same stands on a channel.
fn same_channel(one: &Machine, other: &Machine, channel: Chan) -> bool
    ensures { result ≡ same_channel one.now.cells other.now.cells channel }
{
    one.channel(channel) == other.channel(channel)
}

/// Whether the same interrupts are asked for.
#[tactic(auto, using(crate::proofs::Same::below_steps))]
fn same_requests(one: &Machine, other: &Machine) -> bool
    ensures { result ≡ same_requests one.now.requests other.now.requests 10 }
{
    for before in 0..INTERRUPTS {
        if !same_request(one, other, before) {
            return false;
        }
    }
    true
}

/// Whether an interrupt is asked for in both, or in neither.
fn same_request(one: &Machine, other: &Machine, before: u8) -> bool
    requires { before < 10 }
    ensures { result ≡ same_request one.now.requests other.now.requests before }
{
    let request = Interrupt::new(before + 1);
    same_flag(one.is_asked(request), other.is_asked(request))
}
