//! What comes of a run, beside the words of another.

ghost use Rattle.std.specs.Prelude.{◌≡◌, ◌<◌, ◌&&◌, not, length, nat_le, IfOk, OnOk};
ghost use Rattle.std.specs.Bool.{OnTrue};
ghost use Rattle.cpu.specs.Effects.{next_address};
ghost use Rattle.cpu.specs.State.{FitsRun};
ghost use Rattle.whatif.specs.Finishes.{finish_of};
ghost use Rattle.whatif.specs.Outcomes.{executes, first_switched, is_equal, is_next, is_same, is_same_flag};
ghost use Rattle.whatif.specs.Outcomes.{are_same, strays, with_put, with_step, with_word};

use crate::fault::{Refused, TrialFault};
use crate::finish::{Finish, finished};
use crate::going::Going;
use crate::others::Telling;
use crate::seen::Seen;
use crate::sent::Sent;
use crate::span::{Span, joins, write_span};
use cpu::{Machine, NextStep, Output, Processor, make_step};
use space::{Chan, Eras, Linear};
use std::alloc::Global;
use std::marker::Model;
use words::{Word, Write};

/// The first address of the switched banks of fixed memory: behind it none leads to erasable memory.
const FIRST_SWITCHED: u16 = 0o2000;

/// What comes of a run, beside the words that another has put out.
#[derive(Drop)]
pub(crate) struct Answer {
    alike: usize,
    others: Vec<Sent>,
    strays: bool,
}

impl Model for Answer {
    ghost use Rattle.whatif.specs.Outcomes.{Outcome};

    ghost Value = { Outcome };

    ghost view = { λ a. record { alike = a.alike; others = a.others.items; strays = a.strays } };
}

impl Answer {
    /// How many of the words that were put out first are those of the other run.
    pub(crate) fn alike(&self) -> u64
        ensures { result ≡ self.now.alike }
    {
        self.alike as u64
    }

    /// The words from the first other one on.
    pub(crate) fn others(&self) -> &[Sent]
        ensures { result.now ≡ self.now.others }
    {
        &self.others
    }

    /// Whether an instruction was executed in erasable memory.
    pub(crate) fn strays(&self) -> bool
        ensures { result ≡ self.now.strays }
    {
        self.strays
    }

    /// Whether another is the same.
    pub(crate) fn is_same(&self, other: &Answer) -> bool
        ensures { result ≡ is_same self.now other.now }
    {
        self.alike == other.alike
            && is_same_flag(self.strays, other.strays)
            && are_same(&self.others, &other.others)
    }

    /// A step more: whether it strays, and what it puts out.
    #[inline(always)]
    pub(crate) fn see(
        &mut self,
        base: &[Sent],
        is_stray: bool,
        put: &Option<Output>,
    ) -> Result<(), Refused>
        ensures { OnOk result (self.new ≡ with_put base.now (with_step self.old is_stray) put.now) }
    {
        self.strays = self.strays || is_stray;
        match put {
            None => Ok(()),
            Some(output) => self.see_word(base, output.channel, output.word),
        }
    }

    /// A word more.
    fn see_word(&mut self, base: &[Sent], channel: Chan, word: Word) -> Result<(), Refused>
        ensures { OnOk result (self.new ≡ with_word base.now self.old (record { channel = channel; word = word })) }
    {
        if self.is_next(base, channel, word) {
            self.alike += 1;
            return Ok(());
        }
        match self.others.push(Sent { channel, word }) {
            Ok(()) => Ok(()),
            Err(_) => Err(Refused::NoMemory),
        }
    }

    /// Whether all words so far are those of the other run, and this is its next one.
    fn is_next(&self, base: &[Sent], channel: Chan, word: Word) -> bool
        ensures next { result ≡ is_next base.now self.now (record { channel = channel; word = word }) }
        ensures within { OnTrue result (self.now.alike < length base.now) }
    {
        if !self.others.is_empty() {
            return false;
        }
        match base.get(self.alike) {
            Some(next) => is_equal(*next, Sent { channel, word }),
            None => false,
        }
    }
}

impl Seen for Answer {
    ghost use Rattle.whatif.specs.Outcomes.{begun, see};
    ghost use Rattle.whatif.specs.Spans.{joins, span_text};

    type Beside = Answer;

    type Came = Finish;

    type Way = Telling;

    ghost begins = { begun };

    ghost more = { λ beside. see beside.others };

    ghost comes = { λ without answer s a. finish_of without.cells s a };

    ghost joins_by = { joins };

    ghost tells = { span_text };

    fn none(alloc: Global) -> Answer {
        Answer {
            alike: 0,
            others: Vec::new(alloc),
            strays: false,
        }
    }

    fn again(&self, alloc: Global) -> Result<Answer, Refused> {
        let mut others = Vec::new(alloc);
        match others.extend_from_slice(&self.others) {
            Ok(()) => Ok(Answer {
                alike: self.alike,
                others,
                strays: self.strays,
            }),
            Err(_) => Err(Refused::NoMemory),
        }
    }

    #[inline(always)]
    fn look(
        &mut self,
        beside: &Answer,
        processor: &mut Processor,
        machine: &mut Machine,
    ) -> Result<(), Refused> {
        let is_stray = strays_first(processor, machine, self);
        let put = make_step(processor, machine);
        self.see(beside.others(), is_stray, &put)
    }

    fn compare(
        _alloc: Global,
        without: &Going<Answer>,
        going: Going<Answer>,
    ) -> Result<Finish, Refused>
        ensures { IfOk result (λ came. came ≡ finish_of without.now.machine.cells going.machine going.seen) }
    {
        Ok(finished(going, without.machine.store()))
    }

    fn joins(told: Telling, span: &Span<Finish>, cycle: u64, came: &Finish) -> bool {
        joins(told, span, cycle, came)
    }

    fn write_span<W: Write>(
        told: Telling,
        span: &Span<Finish>,
        out: &mut W,
    ) -> Result<(), TrialFault> {
        write_span(told, span, out)
    }
}

/// Whether the next step strays, and none did before: of a program that is lost each step does.
#[inline(always)]
fn strays_first(processor: &Processor, machine: &Machine, answer: &Answer) -> bool
    requires { FitsRun processor.now.scenario machine.now }
    ensures { result ≡ (not answer.now.strays && strays processor.now.scenario machine.now) }
{
    !answer.strays() && strays(processor, machine)
}

/// Whether two things are both so, or both not.
pub(crate) fn is_same_flag(one: bool, other: bool) -> bool
    ensures { result ≡ is_same_flag one other }
{
    if one { other } else { !other }
}

/// Whether two words on channels are the same.
#[inline(always)]
fn is_equal(one: Sent, other: Sent) -> bool
    ensures { result ≡ is_equal one other }
{
    one.channel == other.channel && one.word == other.word
}

/// Whether two lists of words are the same.
fn are_same(one: &[Sent], other: &[Sent]) -> bool
    ensures { result ≡ are_same one.now other.now }
{
    one == other
}

/// Whether the next step executes an instruction in erasable memory; RETURN leads to Q, which is none of that.
#[inline(always)]
pub(crate) fn strays(processor: &Processor, machine: &Machine) -> bool
    requires { FitsRun processor.now.scenario machine.now }
    ensures { result ≡ strays processor.now.scenario machine.now }
{
    if is_fixed(machine) {
        return false;
    }
    match machine.next_place() {
        Linear::Fixed(_, _) => false,
        Linear::Erasable(place) => place != Eras::Q && executes(processor, machine),
    }
}

/// Whether Z leads to fixed memory.
#[inline(always)]
fn is_fixed(machine: &Machine) -> bool
    ensures { result ≡ nat_le first_switched (next_address machine.now) }
{
    machine.reg(Eras::Z).to_u16() >= FIRST_SWITCHED
}

/// Whether the next step executes an instruction, and not one that waited.
#[cold]
#[inline(never)]
fn executes(processor: &Processor, machine: &Machine) -> bool
    requires { FitsRun processor.now.scenario machine.now }
    ensures { result ≡ executes processor.now.scenario machine.now }
{
    match processor.next_step(machine) {
        NextStep::Takes(_) => false,
        NextStep::Enters(_) => false,
        NextStep::Executes(fetched) => !fetched.waited,
    }
}
