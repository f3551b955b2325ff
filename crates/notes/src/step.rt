//! Whether something happens in a step that is seldom meant.

ghost use Rattle.std.specs.Prelude.{◌≡◌, ◌*◌, ◌&&◌, ◌==◌, codes, false, nat_le, not};
ghost use Rattle.agc_text.specs.Tables.{same_name};
ghost use Rattle.cpu.specs.Codes.{code_of, row_of};
ghost use Rattle.cpu.specs.Operands.{address_of};
ghost use Rattle.rope.specs.Places.{stands};
ghost use Rattle.notes.specs.Notes.{divides, happens_in, has_word, is_code_in_erasable, is_too_great, is_way_back};
ghost use Rattle.notes.specs.Notes.{is_z, leads_to_z, skips};
ghost use Rattle.notes.specs.RunNotes.{where_of};

use crate::keys::overwrites;
use crate::kind::Kind;
use crate::other_bank::{names_erasable, place_at, reaches_other};
use crate::past::Past;
use crate::sharing::{enters_shared, executes_shared};
use crate::zeros::parts_zeros;
use cpu::{Account, Fetched, Machine, NextStep, Processor, instruction_name, named_address};
use feed::interrupt::Interrupt;
use rope::Rope;
use space::{Eras, Linear};
use trace::{entry_place, quotient_fits};
use words::{Overflow, Word};
use yayul::NamedPlaces;

/// The words of TC to fixed memory, from a first one up to one that is none.
const FIRST_FIXED: u16 = 0o2000;

const NO_TC: u16 = 0o10000;

/// The first and the last word of DV.
const FIRST_DIVISION: u16 = 0o10000;

const LAST_DIVISION: u16 = 0o11777;

/// The first and the last word of TS.
const FIRST_STORE: u16 = 0o54000;

const LAST_STORE: u16 = 0o55777;

/// Whether something of a kind happens in a step that a machine is to make, after what was before.
pub(crate) fn happens(
    named: &NamedPlaces,
    processor: &Processor,
    machine: &Machine,
    past: &Past,
    step: &NextStep,
    kind: Kind,
) -> bool
    ensures { result ≡ happens_in named.now processor.now.scenario.rope machine.now past.now kind step.now }
{
    match step {
        NextStep::Takes(input) => kind == Kind::Overwritten && overwrites(past, input),
        NextStep::Enters(interrupt) => match kind {
            Kind::NoHandler => !has_handler(processor.rope(), *interrupt),
            Kind::Shared => enters_shared(past, *interrupt),
            _ => false,
        },
        NextStep::Executes(fetched) => match kind {
            Kind::NoHandler | Kind::Overwritten => false,
            Kind::NoWord => !fetched.waited && !has_word(processor.rope(), &fetched.place),
            Kind::InErasable => {
                !fetched.waited && is_code_in_erasable(&fetched.place) && !is_way_back(fetched)
            }
            Kind::OtherBank => {
                reaches_other(named, machine, fetched) && names_erasable(named, &fetched.place)
            }
            Kind::FixedBank => {
                reaches_other(named, machine, fetched) && !names_erasable(named, &fetched.place)
            }
            Kind::Skip => skips(machine, fetched),
            Kind::Quotient => divides(processor, machine, fetched),
            Kind::NotKept => past.loses(machine, fetched),
            Kind::MinusZero => parts_zeros(processor, machine, fetched),
            Kind::Shared => executes_shared(machine, past, fetched),
        },
    }
}

/// Where a step is: where Z leads, or where an interrupt is entered. An input is nowhere, and so is a word that waited.
pub(crate) fn account_of(step: &NextStep) -> Account
    ensures { result ≡ where_of step.now }
{
    match step {
        NextStep::Takes(_) => Account::Input,
        NextStep::Enters(interrupt) => Account::Place(entry_place(*interrupt)),
        NextStep::Executes(fetched) => {
            if fetched.waited {
                Account::Waiting
            } else {
                Account::Place(fetched.place)
            }
        }
    }
}

/// Whether a word stands where an interrupt is entered.
fn has_handler(rope: &Rope, interrupt: Interrupt) -> bool
    ensures { result ≡ stands rope.now 2 (4 * interrupt) }
{
    has_word(rope, &entry_place(interrupt))
}

/// Whether a word stands at a place; at one of erasable memory always.
fn has_word(rope: &Rope, place: &Linear) -> bool
    ensures { result ≡ has_word rope.now place.now }
{
    match place {
        Linear::Erasable(_) => true,
        Linear::Fixed(bank, offset) => rope.has(*bank, *offset),
    }
}

/// Whether a place is one of erasable memory, but Q, where RETURN leads.
fn is_code_in_erasable(place: &Linear) -> bool
    ensures { result ≡ is_code_in_erasable place.now }
{
    match place {
        Linear::Erasable(place) => *place != Eras::Q,
        Linear::Fixed(_, _) => false,
    }
}

/// Whether an instruction is TC to a place of fixed memory, as each way back is that TC leaves in Q.
pub(crate) fn is_way_back(fetched: &Fetched) -> bool
    ensures { result ≡ is_way_back fetched.now }
{
    let word = fetched.word.to_u16();
    !fetched.extra && FIRST_FIXED <= word && word < NO_TC
}

/// Whether TS skips: A overflows, and Z does not take it.
#[inline(always)]
#[tactic(auto, using(crate::proofs::Divisions::extracode_never, crate::proofs::Divisions::store_never_elsewhere))]
pub(crate) fn skips(machine: &Machine, fetched: &Fetched) -> bool
    ensures { result ≡ skips machine.now fetched.now }
{
    // (A seldom overflows: names are compared last, and by the word, since what a call is handed is put into memory.)
    !fetched.extra
        && is_store(fetched.word)
        && machine.reg(Eras::A).overflow() != Overflow::No
        && stores_beside_z(machine, fetched.word)
}

/// Whether a word may be TS, where extracode is not in force.
fn is_store(word: Word) -> bool
    ensures { result ≡ (nat_le 0o54000 word && nat_le word 0o55777) }
{
    let word = word.to_u16();
    FIRST_STORE <= word && word <= LAST_STORE
}

/// Whether a word is TS, and does not name Z.
#[inline(never)]
fn stores_beside_z(machine: &Machine, word: Word) -> bool
    ensures { result ≡ (same_name (row_of (code_of false word).instruction).name (codes "TS")
        && not (leads_to_z machine.now (address_of (code_of false word)))) }
{
    instruction_name(word, false) == b"TS".as_slice()
        && match named_address(word, false) {
            Some(address) => !is_z(&place_at(machine, address)),
            None => true,
        }
}

/// Whether the quotient of DV does not fit. A division by Z is none of these.
#[inline(always)]
#[tactic(auto, using(crate::proofs::Divisions::basic_never, crate::proofs::Divisions::never_elsewhere))]
pub(crate) fn divides(processor: &Processor, machine: &Machine, fetched: &Fetched) -> bool
    ensures { result ≡ divides processor.now.scenario.rope machine.now fetched.now }
{
    // (names are compared last)
    fetched.extra
        && is_division(fetched.word)
        && instruction_name(fetched.word, fetched.extra) == b"DV".as_slice()
        && match named_address(fetched.word, fetched.extra) {
            Some(address) => is_too_great(processor, machine, &place_at(machine, address)),
            None => false,
        }
}

/// Whether a word may be DV, under extracode.
fn is_division(word: Word) -> bool
    ensures { result ≡ (nat_le 0o10000 word && nat_le word 0o11777) }
{
    let word = word.to_u16();
    FIRST_DIVISION <= word && word <= LAST_DIVISION
}

/// Whether the quotient of A and L by what a place holds does not fit.
#[tactic(auto, unfolding(cpu::specs::Effects::value_at))]
fn is_too_great(processor: &Processor, machine: &Machine, place: &Linear) -> bool
    ensures { result ≡ is_too_great processor.now.scenario.rope machine.now place.now }
{
    let divisor = match place {
        Linear::Erasable(place) => machine.word(*place),
        Linear::Fixed(bank, offset) => processor.rope().word(*bank, *offset),
    };
    !is_z(place) && !quotient_fits(machine.word(Eras::A), machine.word(Eras::L), divisor)
}

/// Whether a place is Z.
fn is_z(place: &Linear) -> bool
    ensures { result ≡ is_z place.now }
{
    match place {
        Linear::Erasable(place) => *place == Eras::Z,
        Linear::Fixed(_, _) => false,
    }
}
