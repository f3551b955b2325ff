//! Which breakpoints hold.

ghost use Rattle.std.specs.Prelude.{◌≡◌};
ghost use Rattle.rope.specs.Places.{Words};
ghost use Rattle.space.specs.Places.{same_place};
ghost use Rattle.cpu.specs.Effects.{next_address, place_in};
ghost use Rattle.debugger.specs.History.{StepSight, sight};
ghost use Rattle.debugger.specs.Growth.{holds, lowest_hit};
ghost use Rattle.debugger.specs.Stopping.{HoldsAlike, noted_step};

use crate::noted::Noted;
use commands::Breakpoint;
use cpu::Machine;
use space::{Eras, Linear};

/// Whether Z leads to a place. The low eight bits of an address are those of the place where it leads, so that most
/// steps are told by them alone.
#[inline(always)]
#[tactic(auto, unfolding(cpu::specs::Effects::place_in, space::specs::Places::place))]
pub(crate) fn stands_at(machine: &Machine, place: Linear) -> bool
    ensures { result ≡ same_place (place_in machine.now (next_address machine.now)) place }
{
    let number = match place {
        Linear::Erasable(place) => place.number(),
        Linear::Fixed(_, offset) => offset.number(),
    };
    number % 0o400 == machine.reg(Eras::Z).to_u16() % 0o400 && machine.next_place() == place
}

/// Whether the breakpoint of an index holds after a step, by what was noted before it.
fn holds(breakpoint: Breakpoint, noted: &Option<Noted>, index: usize, machine: &Machine) -> bool
    ensures { (rope : Words) → result ≡ holds (noted_step noted.now index machine.now) (sight rope machine.now)
        breakpoint }
{
    match breakpoint {
        Breakpoint::Place(place) => stands_at(machine, place),
        Breakpoint::Word(place, word) => machine.word(place) == word,
        Breakpoint::Channel(channel, word) => machine.channel(channel).correct() == word,
        Breakpoint::Bits(channel, word, mask) => {
            machine.channel(channel).correct().and(mask) == word.and(mask)
        }
        Breakpoint::Cycles(cycles) => cycles <= machine.cycles(),
        Breakpoint::Returned(place, inside) => {
            stands_at(machine, place) && (inside || !machine.inside())
        }
        Breakpoint::Outside => !machine.inside(),
        Breakpoint::Executed(place) => match noted {
            Some(noted) => noted.has_executed(&place),
            None => false,
        },
        Breakpoint::Changed(subject) => match noted {
            Some(noted) => noted.has_changed(index, subject, machine),
            None => false,
        },
    }
}

/// The lowest number, counted from 1, of the breakpoints that hold after a step, by what was noted before it.
pub(crate) fn lowest_hit(
    breakpoints: &[Breakpoint],
    noted: &Option<Noted>,
    machine: &Machine,
) -> Option<u64>
    ensures { (rope : Words) (step : StepSight) → HoldsAlike breakpoints.now noted.now machine.now step
        → result ≡ lowest_hit breakpoints.now step (sight rope machine.now) }
{
    for (index, breakpoint) in breakpoints.iter().enumerate() {
        if holds(*breakpoint, noted, index, machine) {
            return Some(index as u64 + 1);
        }
    }
    None
}
