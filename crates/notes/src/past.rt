//! What the steps before have left: what the interrupt that was entered last has found, whether the words of keys were
//! read, which interrupts were entered, by the places of which the program itself came, on which channels words came,
//! and which were read.

ghost use Rattle.std.specs.Prelude.{◌≡◌};
ghost use Rattle.notes.specs.Past.{goes_back, is_as, is_lost, kept_by, loses, no_past, past_by};

use crate::keys::{FIRST_KEYBOARD, SECOND_KEYBOARD, unread_by};
use crate::sharing::{FLAGS, comes_by, marked};
use crate::unread::{CHANNELS, keep_reading, keep_word};
use cpu::{Fetched, Machine, NextStep};
use space::{Chan, Eras};
use words::Wide;

/// The word of RESUME.
pub(crate) const RESUME: u16 = 0o50017;

/// How many addresses there are.
const ADDRESSES: u16 = 0o10000;

/// What an interrupt finds: what it has to keep, and where it has to go back.
#[derive(Clone, Copy, Drop)]
pub(crate) struct Kept {
    pub(crate) a: Wide,
    pub(crate) l: Wide,
    pub(crate) q: Wide,
    pub(crate) eb: Wide,
    pub(crate) fb: Wide,
    pub(crate) superbank: Wide,
    pub(crate) back: u16,
}

/// What the steps before have left: what the interrupt that was entered last has found; whether the last word of each
/// keyboard is unread; of each interrupt, by its number, whether it was entered, and whether the program came by its
/// place outside of one; and of each channel the cycles before the first word there, and whether some instruction has
/// read it.
#[derive(Clone, Copy, Drop)]
pub(crate) struct Past {
    pub(crate) entry: Option<Kept>,
    pub(crate) first_key: bool,
    pub(crate) second_key: bool,
    pub(crate) entered: [bool; FLAGS],
    pub(crate) passed: [bool; FLAGS],
    pub(crate) came: [Option<u64>; CHANNELS],
    pub(crate) read: [bool; CHANNELS],
}

impl Past {
    /// No step was made.
    pub(crate) fn none() -> Past
        ensures { result ≡ no_past }
    {
        Past {
            entry: None,
            first_key: false,
            second_key: false,
            entered: [false; FLAGS],
            passed: [false; FLAGS],
            came: [None; CHANNELS],
            read: [false; CHANNELS],
        }
    }

    /// Keeps what the next step leaves.
    pub(crate) fn note(&mut self, machine: &Machine, step: &NextStep)
        ensures { self.new ≡ past_by machine.now self.old step.now }
    {
        self.first_key = unread_by(FIRST_KEYBOARD, self.first_key, step);
        self.second_key = unread_by(SECOND_KEYBOARD, self.second_key, step);
        match step {
            NextStep::Takes(input) => keep_word(&mut self.came, machine, input),
            NextStep::Enters(interrupt) => {
                self.entry = Some(kept_by(machine));
                self.entered = marked(self.entered, Some(*interrupt));
            }
            NextStep::Executes(fetched) => {
                self.passed = marked(self.passed, comes_by(machine, fetched));
                keep_reading(&mut self.read, fetched);
            }
        }
    }

    /// Whether RESUME goes back while A, L, Q, EB, FB or the superbank is not as the interrupt has found it.
    pub(crate) fn loses(&self, machine: &Machine, fetched: &Fetched) -> bool
        ensures { result ≡ loses machine.now self.now fetched.now }
    {
        !fetched.extra
            && fetched.word.to_u16() == RESUME
            && machine.inside()
            && is_lost(machine, &self.entry)
    }
}

/// What an interrupt finds that is entered now.
fn kept_by(machine: &Machine) -> Kept
    ensures { result ≡ kept_by machine.now }
{
    Kept {
        a: machine.reg(Eras::A),
        l: machine.reg(Eras::L),
        q: machine.reg(Eras::Q),
        eb: machine.reg(Eras::EB),
        fb: machine.reg(Eras::FB),
        superbank: machine.channel(Chan::SUPERBANK),
        back: (machine.reg(Eras::Z).to_u16() % ADDRESSES + 1) % ADDRESSES,
    }
}

/// Whether what an interrupt has found is lost where it goes back.
fn is_lost(machine: &Machine, entry: &Option<Kept>) -> bool
    ensures { result ≡ is_lost machine.now entry.now }
{
    match entry {
        Some(kept) => goes_back(machine, kept) && !is_as(machine, kept),
        None => false,
    }
}

/// Whether RESUME goes back where an interrupt was entered.
fn goes_back(machine: &Machine, kept: &Kept) -> bool
    ensures { result ≡ goes_back machine.now kept.now }
{
    machine.reg(Eras::ZRUPT).to_u16() == kept.back
}

/// Whether everything is as an interrupt has found it.
fn is_as(machine: &Machine, kept: &Kept) -> bool
    ensures { result ≡ is_as machine.now kept.now }
{
    machine.reg(Eras::A) == kept.a
        && machine.reg(Eras::L) == kept.l
        && machine.reg(Eras::Q) == kept.q
        && machine.reg(Eras::EB) == kept.eb
        && machine.reg(Eras::FB) == kept.fb
        && machine.channel(Chan::SUPERBANK) == kept.superbank
}
