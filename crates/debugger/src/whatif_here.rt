//! `whatif`: what an input, or a restart, would change that came at the position, or at each of some steps, or an input
//! in the notes.

ghost use Rattle.std.specs.Prelude.{◌≡◌, ◌+◌, ◌-◌, ◌^◌, ◌≤◌, nat_le, true, IfOk, IfSome};
ghost use Rattle.cpu.specs.Additions.{most_plain_inputs, plain_inputs};
ghost use Rattle.cpu.specs.Run.{run};
ghost use Rattle.words.specs.Devices.{failures_after};
ghost use Rattle.replay.specs.Memory.{step_limit};
ghost use Rattle.replay.specs.View.{HasShown};
ghost use Rattle.debugger.specs.Executions.{Replies, desk};
ghost use Rattle.debugger.specs.WhatIfs.{begins_at, is_full, noted_from, program_of, tried_text, tries, tries_from};
ghost use Rattle.debugger.specs.WhatIfs.{whatif_text};
ghost use Rattle.whatif.specs.NotedHere.{noted_here};
ghost use Rattle.yayul.specs.Named.{named_places};
ghost use Rattle.debugger.specs.Desks.{standing, Looks};

use crate::desk::Desk;
use crate::texts::text_line;
use commands::{Extent, Trial};
use cpu::{Machine, Processor};
use feed::Input;
use replay::{Keeper, STEP_LIMIT, Session};
use std::alloc::Global;
use symbols::Symbols;
use whatif::{TrialFault, TrialsTold, note_steps, try_restarts, try_steps};
use words::{Buffer, Write, WriteFailed, write_all};
use yayul::SourceRows;

/// The most inputs of a run that are from no series.
const MOST_INPUTS: usize = 65_536;

impl<'a, K: Keeper> Desk<'a, K> {
    /// `whatif`: so many steps on, without a trial and with it, that came at the position, or at each of some steps.
    ///
    /// The session stays as it is, but that the first of these steps may be shown: copies of what runs make the steps,
    /// each run those after it alone.
    pub(crate) fn what_if<W: Write>(
        &mut self,
        alloc: Global,
        trial: Trial,
        extent: Extent,
        out: &mut W,
    ) -> Result<(), WriteFailed>
        ensures executes { W.told ≡ true → Replies K.may_refuse
            (tries (program_of self.old.symbols.now self.old.rows.now self.old.session.now.scenario) trial extent)
            (standing self.old) (standing self.new) (W.written out.old) (W.written out.new) result }
        ensures same { self.new.session.now ≡ record self.old.session.now
            { shown = self.new.session.now.shown; meter = self.new.session.now.meter } }
        ensures looked { Looks self.old.session.now.n self.old self.new }
        ensures failures { W.failures out.new ≡ failures_after (W.failures out.old) result }
    {
        match extent {
            Extent::Here(steps) => { self.what_if_from(alloc, trial, steps, self.position, 0, out) }
            Extent::Each(steps, first, more) => {
                self.what_if_from(alloc, trial, steps, first, more, out)
            }
        }
    }

    /// The same, at a step and at each of so many more.
    fn what_if_from<W: Write>(
        &mut self,
        alloc: Global,
        trial: Trial,
        steps: u64,
        first: u64,
        more: u64,
        out: &mut W,
    ) -> Result<(), WriteFailed>
        ensures executes { W.told ≡ true → Replies K.may_refuse
            (tries_from (program_of self.old.symbols.now self.old.rows.now self.old.session.now.scenario) trial steps
            first more)
            (standing self.old) (standing self.new) (W.written out.old) (W.written out.new) result }
        ensures same { self.new.session.now ≡ record self.old.session.now
            { shown = self.new.session.now.shown; meter = self.new.session.now.meter } }
        ensures looked { Looks self.old.session.now.n self.old self.new }
        ensures failures { W.failures out.new ≡ failures_after (W.failures out.old) result }
    {
        let made = self.session.steps();
        if first > made {
            return write_all(out, text_line(b"E41 NOT YET").as_slice());
        }
        let after = made - first;
        if more > after {
            return write_all(out, text_line(b"E41 NOT YET").as_slice());
        }
        let room = STEP_LIMIT - (first + more);
        if steps > room {
            return write_all(out, text_line(b"E40 LIMIT").as_slice());
        }
        if is_full(self.session, &trial) {
            return write_all(out, text_line(b"E32 TOO MANY").as_slice());
        }
        match tried(
            alloc,
            self.session,
            self.symbols,
            self.rows,
            &trial,
            steps,
            first,
            more,
        ) {
            Some(text) => write_all(out, text.as_slice()),
            None => write_all(out, text_line(b"E2 MEMORY").as_slice()),
        }
    }
}

/// What is told of these, or nothing, where memory runs out.
fn tried<K: Keeper>(
    alloc: Global,
    session: &mut Session<K>,
    symbols: &Symbols,
    rows: &SourceRows,
    trial: &Trial,
    steps: u64,
    first: u64,
    more: u64,
) -> Option<Buffer>
    requires within { first ≤ session.old.n }
    requires limit { first + more + steps ≤ step_limit }
    ensures text { IfSome result (λ text. text.written
        ≡ whatif_text (program_of symbols.now rows.now session.old.scenario) session.old.scenario first more trial.now
        steps) }
    ensures shown { HasShown session.old (begins_at trial.now first) session.new }
{
    match session.with_present(begins_at(trial, first)) {
        Ok((machine, _, processor)) => {
            let steps = first + more + steps;
            match told_of(
                alloc, symbols, rows, processor, machine, trial, first, more, steps,
            ) {
                Ok(told) => Some(told.text),
                Err(_) => None,
            }
        }
        Err(_) => unreachable!(),
    }
}

/// The step from which on a trial is looked at.
fn begins_at(trial: &Trial, first: u64) -> u64
    ensures at { result ≡ begins_at trial.now first }
    ensures early { result ≤ first }
{
    match trial {
        Trial::Given(_) => first,
        Trial::Restart => first,
        Trial::Noted(since, _) => noted_from(*since, first),
    }
}

/// The step since which notes count.
fn noted_from(since: Option<u64>, first: u64) -> u64
    ensures at { result ≡ noted_from since first }
    ensures early { result ≤ first }
{
    match since {
        None => first,
        Some(since) => since.min(first),
    }
}

/// What is told of a trial, of a run that stands where this begins, and after each of so many steps more, of so many in
/// all.
fn told_of(
    alloc: Global,
    symbols: &Symbols,
    rows: &SourceRows,
    processor: &Processor,
    machine: &Machine,
    trial: &Trial,
    first: u64,
    more: u64,
    steps: u64,
) -> Result<TrialsTold, TrialFault>
    requires few { steps ≤ 2 ^ 40 - 2 }
    requires within { first + more ≤ steps }
    requires stands { machine.now ≡ run processor.now.scenario (begins_at trial.now first) }
    ensures text { IfOk result (λ told. told.text.written
        ≡ tried_text (program_of symbols.now rows.now processor.now.scenario) processor.now.scenario first more
        trial.now steps) }
{
    match trial {
        Trial::Given(input) => try_steps(alloc, processor, machine, first, more, *input, steps),
        Trial::Restart => try_restarts(alloc, processor, machine, first, more, steps),
        Trial::Noted(since, input) => {
            let since = noted_from(*since, first);
            tell_notes(
                alloc, symbols, rows, processor, machine, since, first, more, *input, steps,
            )
        }
    }
}

/// The notes of the steps after one, at which a run stands, and those that come and go with an input.
fn tell_notes(
    alloc: Global,
    symbols: &Symbols,
    rows: &SourceRows,
    processor: &Processor,
    machine: &Machine,
    since: u64,
    first: u64,
    more: u64,
    input: Input,
    steps: u64,
) -> Result<TrialsTold, TrialFault>
    requires few { steps ≤ 2 ^ 40 - 2 }
    requires order { since ≤ first }
    requires within { first + more ≤ steps }
    requires stands { machine.now ≡ run processor.now.scenario since }
    ensures text { IfOk result (λ told. told.text.written
        ≡ noted_here (named_places (program_of symbols.now rows.now processor.now.scenario)) since
        processor.now.scenario first more input steps) }
{
    let Ok(named) = rows.named_places(alloc, symbols) else {
        return Err(TrialFault::NoMemory);
    };
    note_steps(
        alloc, &named, processor, machine, since, first, more, input, steps,
    )
}

/// Whether an input is tried, and as many stand in the feed as may.
fn is_full<K: Keeper>(session: &Session<K>, trial: &Trial) -> bool
    ensures { result ≡ is_full trial.now session.now.scenario }
{
    match trial {
        Trial::Given(_) => has_most(session),
        Trial::Restart => false,
        Trial::Noted(_, _) => has_most(session),
    }
}

/// Whether as many inputs stand as may.
fn has_most<K: Keeper>(session: &Session<K>) -> bool
    ensures { result ≡ nat_le most_plain_inputs (plain_inputs session.now.scenario) }
{
    session.processor().plain_inputs().len() >= MOST_INPUTS
}
