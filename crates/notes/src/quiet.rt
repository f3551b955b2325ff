//! Steps of which no note is made, or none but that another bank is reached: nearly all.

ghost use Rattle.std.specs.Prelude.{◌≡◌, IfSome, true};
ghost use Rattle.space.specs.Cells.{return_address};
ghost use Rattle.space.specs.declared.place.Linear.TheVariants.{Erasable};
ghost use Rattle.words.specs.Numbers.{correct};
ghost use Rattle.cpu.specs.Effects.{value_at};
ghost use Rattle.cpu.specs.Next.{instruction_word};
ghost use Rattle.cpu.specs.NextStep.{next_step};
ghost use Rattle.cpu.specs.Profiles.{account_of};
ghost use Rattle.cpu.specs.State.{FitsRun};
ghost use Rattle.notes.specs.Notes.{is_at_word, is_plain, is_plain_code, is_plain_step, is_quiet_step, is_way_back};
ghost use Rattle.notes.specs.Notes.{reaches_in};

use crate::keys::reads_channel;
use crate::other_bank::reaches_other;
use crate::past::{Past, RESUME};
use crate::sharing::{comes_by, is_passed};
use crate::step::{divides, is_way_back, skips};
use crate::zeros::counts_minus_zero;
use cpu::{Account, Fetched, Machine, NextStep, Processor};
use rope::Rope;
use space::{Eras, Linear};
use words::Word;
use yayul::NamedPlaces;

/// What the next step executes, where that surely is an instruction of which no note is made but that it reaches
/// another bank. It is not asked for by `next_step`, so that it need not be written to memory. Where there is none, the
/// step may still be such.
#[inline(always)]
pub(crate) fn plain_fetched(
    processor: &Processor,
    machine: &Machine,
    past: &Past,
) -> Option<Fetched>
    requires fits { FitsRun processor.now.scenario machine.now }
    ensures is { IfSome result (λ f. NextStep.Executes f ≡ next_step processor.now.scenario machine.now) }
    ensures plain { IfSome result (λ f. is_plain processor.now.scenario.rope machine.now past.now f ≡ true) }
{
    match processor.account(machine) {
        Account::Place(place) => {
            let fetched = fetched_at(processor, machine, place);
            if is_plain(processor, machine, past, &fetched) {
                Some(fetched)
            } else {
                None
            }
        }
        Account::Input | Account::Entry | Account::Waiting => None,
    }
}

/// The instruction at the place to which Z leads, where no word waits.
#[inline(always)]
#[tactic(auto, using(crate::proofs::Calm::fetched_is))]
fn fetched_at(processor: &Processor, machine: &Machine, place: Linear) -> Fetched
    requires account { account_of processor.now.scenario machine.now ≡ Account.Place place }
    ensures { NextStep.Executes result ≡ next_step processor.now.scenario machine.now }
{
    Fetched {
        place,
        word: word_at(processor, machine, &place),
        extra: machine.extra(),
        waited: false,
        added: machine.waiting_sum(),
    }
}

/// Its word, with what INDEX has added to it.
#[inline(always)]
#[tactic(auto, using(crate::proofs::Calm::word_is))]
fn word_at(processor: &Processor, machine: &Machine, place: &Linear) -> Word
    requires account { account_of processor.now.scenario machine.now ≡ Account.Place place.now }
    ensures { result ≡ instruction_word processor.now.scenario.rope machine.now }
{
    match machine.waiting_sum() {
        None => word_in(processor.rope(), machine, place),
        Some(_) => processor.next_word(machine).0,
    }
}

/// The word that a place holds.
#[inline(always)]
#[tactic(auto, unfolding(cpu::specs::Effects::value_at))]
fn word_in(rope: &Rope, machine: &Machine, place: &Linear) -> Word
    ensures { result ≡ correct (value_at rope.now machine.now place.now) }
{
    match place {
        Linear::Erasable(place) => machine.word(*place),
        Linear::Fixed(bank, offset) => rope.word(*bank, *offset),
    }
}

/// Whether a step is an instruction of which no note is made.
pub(crate) fn is_quiet_step(
    named: &NamedPlaces,
    processor: &Processor,
    machine: &Machine,
    past: &Past,
    step: &NextStep,
) -> bool
    ensures { result ≡ is_quiet_step named.now processor.now.scenario.rope machine.now past.now step.now }
{
    is_plain_step(processor, machine, past, step) && !reaches_in(named, machine, step)
}

/// Whether a step is an instruction of which no note is made but that it reaches another bank.
pub(crate) fn is_plain_step(
    processor: &Processor,
    machine: &Machine,
    past: &Past,
    step: &NextStep,
) -> bool
    ensures { result ≡ is_plain_step processor.now.scenario.rope machine.now past.now step.now }
{
    match step {
        NextStep::Takes(_) | NextStep::Enters(_) => false,
        NextStep::Executes(fetched) => is_plain(processor, machine, past, fetched),
    }
}

/// Whether a step is an instruction that reaches another bank.
pub(crate) fn reaches_in(named: &NamedPlaces, machine: &Machine, step: &NextStep) -> bool
    ensures { result ≡ reaches_in named.now machine.now step.now }
{
    match step {
        NextStep::Takes(_) | NextStep::Enters(_) => false,
        NextStep::Executes(fetched) => reaches_other(named, machine, fetched),
    }
}

/// Whether no note is made of an instruction but that it reaches another bank: it stands in fixed memory, reads no
/// channel, and is none of the few that are told; where an interrupt is entered, the program came by before.
#[inline(always)]
pub(crate) fn is_plain(
    processor: &Processor,
    machine: &Machine,
    past: &Past,
    fetched: &Fetched,
) -> bool
    ensures { result ≡ is_plain processor.now.scenario.rope machine.now past.now fetched.now }
{
    !fetched.waited
        && is_at_word(processor.rope(), &fetched.place)
        && is_passed(past, comes_by(machine, fetched))
        && is_plain_code(processor, machine, fetched)
}

/// Whether an instruction, wherever it stands, reads no channel and is none of the few that are told.
#[inline(always)]
pub(crate) fn is_plain_code(processor: &Processor, machine: &Machine, fetched: &Fetched) -> bool
    ensures { result ≡ is_plain_code processor.now.scenario.rope machine.now fetched.now }
{
    if fetched.extra {
        !reads_channel(fetched) && !divides(processor, machine, fetched)
    } else {
        fetched.word.to_u16() != RESUME
            && !skips(machine, fetched)
            && !counts_minus_zero(processor, machine, fetched)
    }
}

/// Whether a place is one of fixed memory at which a word stands.
#[inline(always)]
fn is_at_word(rope: &Rope, place: &Linear) -> bool
    ensures { result ≡ is_at_word rope.now place.now }
{
    match place {
        Linear::Erasable(_) => false,
        Linear::Fixed(bank, offset) => rope.has(*bank, *offset),
    }
}

/// Whether an instruction is a way back to fixed memory, executed at Q, where RETURN leads.
pub(crate) fn is_return(fetched: &Fetched) -> bool
    ensures place { result ≡ true → fetched.now.place ≡ Erasable return_address }
    ensures way { result ≡ true → is_way_back fetched.now ≡ true }
{
    match fetched.place {
        Linear::Erasable(place) => place == Eras::Q && is_way_back(fetched),
        Linear::Fixed(_, _) => false,
    }
}
