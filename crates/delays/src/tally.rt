//! What is kept of a run, as its steps are made.

ghost use Rattle.std.specs.Prelude.{◌≡◌, ◌+◌, ◌-◌, ◌<◌, ◌≤◌, ◌^◌, IfOk, IfSome, None, Some, false, true, get_or};
ghost use Rattle.std.specs.Prelude.{if◌then◌else◌};
ghost use Rattle.cover.specs.Tallies.{account_count, account_number};
ghost use Rattle.cpu.specs.Next.{next};
ghost use Rattle.cpu.specs.NextStep.{next_step};
ghost use Rattle.cpu.specs.Run.{run};
ghost use Rattle.cpu.specs.State.{FitsRun, Scenario};
ghost use Rattle.delays.specs.Causes.{cause_by, causes};
ghost use Rattle.cpu.specs.declared.next_step.NextStep.TheVariants.{Enters};
ghost use Rattle.delays.specs.Plain.{over_plain, plain_after, span_plain};
ghost use Rattle.delays.specs.Routines.{call_in, call_over, left_in, returned_in, with_call};
ghost use Rattle.delays.specs.Spans.{span_by, span_of, span_rows, spent_more, wait_by, wait_rows};
ghost use Rattle.delays.specs.Stretches.{no_best};
ghost use Rattle.delays.specs.Tallies.{AreFew, begun_after, delayed_after, IsSmall, IsWithin, mark_in, Measures};
ghost use Rattle.delays.specs.Tallies.{over_in, put_down, span_in, wait_in, waits_asked, waits_left};
ghost use Rattle.notes.specs.RunNotes.{where_of};

use crate::call::{Calls, call_in, may_call};
use crate::cause::{CAUSES, asked_in, cause_of, is_closed, where_of};
use crate::mark::{Begun, Best, Mark, NO_MARK, Stretch};
use crate::table::Table;
use access::last_after;
use cover::{ACCOUNTS, Profiler, Recorder, number_of, record_steps};
use cpu::{Account, Machine, NextStep, Processor, make_step};
use feed::interrupt::{INTERRUPTS, Interrupt};
use std::alloc::{AllocError, Global};
use std::marker::Model;

/// The rows of waits: one for each interrupt by its number, and one for 0, which is none.
pub(crate) const WAIT_ROWS: usize = INTERRUPTS as usize + 1;

/// The row of the span in which a run starts.
pub(crate) const START_ROW: usize = ACCOUNTS;

/// The rows of spans: one for each account, and one for the start.
pub(crate) const SPAN_ROWS: usize = ACCOUNTS + 1;

/// What is kept: how many steps were made, their cycles, those of each cause, the interrupt that was entered last, 0
/// where none was, since when each is asked for, the span that goes on, the calls in progress, and a table for each
/// kind of stretch.
#[derive(Drop)]
pub struct Delays {
    steps: u64,
    cycles: u64,
    spent: [u64; CAUSES],
    last: usize,
    waits: [Option<Mark>; WAIT_ROWS],
    closed: Option<Begun>,
    calls: Calls,
    waited: Table,
    spans: Table,
    called: Table,
}

impl Model for Delays {
    ghost use Rattle.std.specs.Prelude.{◌≡◌, ◌<◌, ◌≤◌, IfSome, length};
    ghost use Rattle.cover.specs.Tallies.{account_count};
    ghost use Rattle.delays.specs.Spans.{span_rows, wait_rows};
    ghost use Rattle.delays.specs.Tallies.{Delayed};

    ghost Value = { Delayed };

    ghost view = { λ d. record {
      steps = d.steps;
      cycles = d.cycles;
      spent = d.spent;
      last = d.last;
      waits = d.waits;
      closed = d.closed;
      calls = d.calls;
      waited = d.waited;
      spans = d.spans;
      called = d.called;
    } };

    ghost invariant = { λ d. (length d.waited ≡ wait_rows) × (length d.spans ≡ span_rows)
        × (length d.called ≡ account_count) × (d.last ≤ 10) × IfSome d.closed (λ begun. begun.by < span_rows) };
}

impl Delays {
    /// What is kept before the first step. All memory is taken here.
    pub fn new(alloc: Global) -> Result<Delays, AllocError>
        ensures { IfOk result (λ delays. (scenario : Scenario) → Measures scenario 0 delays) }
    {
        let waited = Table::new(alloc, WAIT_ROWS)?;
        let spans = Table::new(alloc, SPAN_ROWS)?;
        let called = Table::new(alloc, ACCOUNTS)?;
        Ok(Delays {
            steps: 0,
            cycles: 0,
            spent: [0; CAUSES],
            last: 0,
            waits: [None; WAIT_ROWS],
            closed: Some(Begun {
                by: START_ROW,
                mark: NO_MARK,
            }),
            calls: Calls::none(),
            waited,
            spans,
            called,
        })
    }

    /// How many steps were made.
    pub(crate) fn steps(&self) -> u64
        ensures { result ≡ self.now.steps }
    {
        self.steps
    }

    /// The cycles of a cause.
    pub(crate) fn spent(&self, cause: usize) -> u64
        requires { cause < causes }
        ensures { result ≡ get_or self.now.spent cause 0 }
    {
        self.spent[cause]
    }

    /// The moment after all steps.
    pub(crate) fn now(&self) -> Mark
        ensures { result ≡ mark_in self.now self.now.cycles }
    {
        self.mark(self.cycles)
    }

    /// Since when an interrupt is asked for then.
    pub(crate) fn since(&self, row: usize) -> Option<Mark>
        requires { row < wait_rows }
        ensures { result ≡ get_or self.now.waits row None }
    {
        self.waits[row]
    }

    /// The span that goes on then.
    pub(crate) fn closed(&self) -> Option<Begun>
        ensures value { result ≡ self.now.closed }
        ensures within { IfSome result (λ begun. begun.by < span_rows) }
    {
        self.closed
    }

    /// The waits of an interrupt.
    pub(crate) fn waited(&self, row: usize) -> Best
        requires { row < wait_rows }
        ensures { result ≡ get_or self.now.waited row no_best }
    {
        self.waited.best(row)
    }

    /// The spans that begin at a row's step.
    pub(crate) fn spans(&self, row: usize) -> Best
        requires { row < span_rows }
        ensures { result ≡ get_or self.now.spans row no_best }
    {
        self.spans.best(row)
    }

    /// The calls of the routine at a place.
    pub(crate) fn called(&self, row: usize) -> Best
        requires { row < account_count }
        ensures { result ≡ get_or self.now.called row no_best }
    {
        self.called.best(row)
    }

    /// Whether no spans begin at a row's step.
    pub(crate) fn has_no_span(&self, row: usize) -> bool
        requires { row < span_rows }
        ensures { result ≡ true → (get_or self.now.spans row no_best).count ≡ 0 }
    {
        self.spans.is_empty(row)
    }

    /// Whether the routine at a place is not called.
    pub(crate) fn has_no_call(&self, row: usize) -> bool
        requires { row < account_count }
        ensures { result ≡ true → (get_or self.now.called row no_best).count ≡ 0 }
    {
        self.called.is_empty(row)
    }

    /// Makes more steps of a run of which some are done, and keeps what waits, spans and calls they end. What they put
    /// out is passed over.
    pub fn make_steps(
        &mut self,
        processor: &mut Processor,
        machine: &mut Machine,
        done: u64,
        stop: u64,
    )
        requires within { done ≤ stop }
        requires few { stop ≤ 2 ^ 40 }
        requires state { machine.old ≡ run processor.old.scenario done }
        requires measures { Measures processor.old.scenario done self.old }
        ensures scenario { processor.new.scenario ≡ processor.old.scenario }
        ensures state { machine.new ≡ run processor.old.scenario stop }
        ensures measures { Measures processor.old.scenario stop self.new }
    {
        record_steps(self, processor, machine, done, stop);
    }

    /// Keeps a step that was made, which executes an instruction that makes no call: its cause, and the cycles before
    /// it.
    #[inline(always)]
    #[tactic(auto, unfolding(crate::specs::Plain::plain_after))]
    fn keep_plain(&mut self, machine: &Machine, step: &NextStep, cause: usize, cycles: u64)
        requires cause { cause < causes }
        requires few { machine.now.cycles - cycles ≤ 2 ^ 62 }
        requires small { IsSmall self.old }
        ensures value { self.new ≡ plain_after machine.now (account_number (where_of step.now)) cause cycles self.old }
        ensures span { IsWithin span_rows
            (span_plain machine.now (account_number (where_of step.now)) cause cycles self.old) }
        ensures call { IsWithin account_count
            (over_plain machine.now (account_number (where_of step.now)) cause cycles self.old) }
    {
        let is_closed = is_closed(machine);
        self.begin_span(is_closed, step, cycles);
        self.spend(cause, machine.cycles().saturating_sub(cycles));
        self.end_span(is_closed, step, machine.cycles());
        self.end_call(machine, step);
        self.cycles = machine.cycles();
    }

    /// Makes a step. What it puts out is passed over.
    #[tactic(auto, unfolding(crate::specs::Tallies::delayed_after))]
    fn step(&mut self, processor: &mut Processor, machine: &mut Machine)
        requires cycles { machine.old.cycles ≤ 2 ^ 62 }
        requires fits { FitsRun processor.old.scenario machine.old }
        requires small { IsSmall self.old }
        ensures scenario { processor.new.scenario ≡ processor.old.scenario }
        ensures meter { processor.new.meter ≤ processor.old.meter + 1 }
        ensures state { machine.new ≡ (next processor.old.scenario machine.old).0 }
        ensures delays { self.new ≡ delayed_after (next_step processor.old.scenario machine.old) machine.old machine.new
            self.old }
        ensures cause { cause_by (next_step processor.old.scenario machine.old) machine.old self.old.last < causes }
        ensures wait { IsWithin wait_rows (wait_in (next_step processor.old.scenario machine.old) machine.old
            self.old) }
        ensures span { IsWithin span_rows (span_in (next_step processor.old.scenario machine.old) machine.old
            machine.new self.old) }
        ensures call { IsWithin account_count
            (over_in (next_step processor.old.scenario machine.old) machine.old machine.new self.old) }
    {
        let step = processor.next_step(machine);
        let cause = cause_of(&step, machine, self.last);
        let asked = asked_in(&step, machine);
        let cycles = machine.cycles();
        self.begin_call(&step, machine);
        make_step(processor, machine);
        let is_closed = is_closed(machine);
        self.end_wait(&step, cycles);
        self.begin_span(is_closed, &step, cycles);
        self.spend(cause, machine.cycles().saturating_sub(cycles));
        self.ask(asked, machine.cycles());
        self.end_span(is_closed, &step, machine.cycles());
        self.end_call(machine, &step);
        self.cycles = machine.cycles();
        self.last = last_after(&step, self.last);
    }

    /// The moment after the steps that were made, at so many cycles.
    fn mark(&self, cycles: u64) -> Mark
        ensures { result ≡ mark_in self.now cycles }
    {
        Mark {
            step: self.steps,
            cycles,
            spent: self.spent,
        }
    }

    /// Keeps the wait that a step ends. What few steps do stands apart from here on, so that the others have none of
    /// its locals: a moment is of 19 numbers.
    #[inline(always)]
    fn end_wait(&mut self, step: &NextStep, cycles: u64)
        requires steps { self.old.steps ≤ 2 ^ 62 }
        requires few { AreFew self.old.waited (2 ^ 62) }
        ensures value { self.new ≡ record self.old {
          waits = waits_left step.now self.old.waits;
          waited = put_down self.old.waited (wait_by step.now (λ k. get_or self.old.waits k None)
              (mark_in self.old cycles) (account_number (where_of step.now)));
        } }
        ensures within { IsWithin wait_rows (wait_by step.now (λ k. get_or self.old.waits k None)
            (mark_in self.old cycles) (account_number (where_of step.now))) }
    {
        match step {
            NextStep::Takes(_) | NextStep::Executes(_) => {}
            NextStep::Enters(interrupt) => {
                self.enter_interrupt(*interrupt, number_of(where_of(step)), cycles)
            }
        }
    }

    /// The same where an interrupt is entered.
    #[inline(never)]
    fn enter_interrupt(&mut self, interrupt: Interrupt, here: usize, cycles: u64)
        requires steps { self.old.steps ≤ 2 ^ 62 }
        requires few { AreFew self.old.waited (2 ^ 62) }
        ensures value { self.new ≡ record self.old {
          waits = waits_left (Enters interrupt) self.old.waits;
          waited = put_down self.old.waited (wait_by (Enters interrupt) (λ k. get_or self.old.waits k None)
              (mark_in self.old cycles) here);
        } }
        ensures within { IsWithin wait_rows (wait_by (Enters interrupt) (λ k. get_or self.old.waits k None)
            (mark_in self.old cycles) here) }
    {
        let row = usize::from(interrupt.number());
        let to = self.mark(cycles);
        let stretch = Stretch {
            from: self.waits[row].unwrap_or(to),
            to,
            step: self.steps + 1,
            end: here,
        };
        self.waited.add(row, &stretch);
        self.waits[row] = None;
    }

    /// Begins a span, where none goes on.
    #[inline(always)]
    fn begin_span(&mut self, is_closed: bool, step: &NextStep, cycles: u64)
        ensures { self.new ≡ record self.old {
          closed = begun_after is_closed
              (record { by = account_number (where_of step.now); mark = mark_in self.old cycles }) self.old.closed;
        } }
    {
        if is_closed && self.closed.is_none() {
            self.open_span(number_of(where_of(step)), cycles);
        }
    }

    /// Begins a span.
    #[inline(never)]
    fn open_span(&mut self, here: usize, cycles: u64)
        requires { here < account_count }
        ensures { self.new ≡ record self.old {
          closed = Some (record { by = here; mark = mark_in self.old cycles });
        } }
    {
        self.closed = Some(Begun {
            by: here,
            mark: self.mark(cycles),
        });
    }

    /// Counts a step, and its cycles at its cause.
    fn spend(&mut self, cause: usize, cycles: u64)
        requires cause { cause < causes }
        requires steps { self.old.steps ≤ 2 ^ 62 }
        requires spent { get_or self.old.spent cause 0 ≤ 2 ^ 62 }
        requires few { cycles ≤ 2 ^ 62 }
        ensures { self.new ≡ record self.old {
          steps = self.old.steps
              + 1;
          spent = spent_more self.old.spent cause cycles;
        } }
    {
        self.steps += 1;
        self.spent[cause] += cycles;
    }

    /// Keeps since when an interrupt is asked for; it may be already.
    #[inline(always)]
    fn ask(&mut self, asked: Option<Interrupt>, cycles: u64)
        ensures { self.new ≡ record self.old { waits = waits_asked asked (mark_in self.old cycles) self.old.waits } }
    {
        if let Some(interrupt) = asked {
            self.ask_for(interrupt, cycles);
        }
    }

    /// The same of an interrupt.
    #[inline(never)]
    fn ask_for(&mut self, interrupt: Interrupt, cycles: u64)
        ensures { self.new ≡ record self.old {
          waits = waits_asked (Some interrupt) (mark_in self.old cycles) self.old.waits;
        } }
    {
        let row = usize::from(interrupt.number());
        if self.waits[row].is_none() {
            self.waits[row] = Some(self.mark(cycles));
        }
    }

    /// Keeps the span that a step ends.
    #[inline(always)]
    fn end_span(&mut self, is_closed: bool, step: &NextStep, cycles: u64)
        requires few { AreFew self.old.spans (2 ^ 62) }
        ensures value { self.new ≡ record self.old {
          closed = if is_closed then self.old.closed else None;
          spans = put_down self.old.spans (span_by is_closed self.old.closed (mark_in self.old cycles)
              (account_number (where_of step.now)));
        } }
        ensures within { IsWithin span_rows (span_by is_closed self.old.closed (mark_in self.old cycles)
            (account_number (where_of step.now))) }
    {
        if !is_closed && self.closed.is_some() {
            self.close_span(number_of(where_of(step)), cycles);
        }
    }

    /// Keeps the span that goes on, which ends.
    #[inline(never)]
    fn close_span(&mut self, here: usize, cycles: u64)
        requires few { AreFew self.old.spans (2 ^ 62) }
        ensures value { self.new ≡ record self.old {
          closed = None;
          spans = put_down self.old.spans (span_of self.old.closed (mark_in self.old cycles) here);
        } }
        ensures within { IsWithin span_rows (span_of self.old.closed (mark_in self.old cycles) here) }
    {
        if let Some(begun) = self.closed {
            let to = self.mark(cycles);
            let stretch = Stretch {
                from: begun.mark,
                to,
                step: self.steps,
                end: here,
            };
            self.spans.add(begun.by, &stretch);
            self.closed = None;
        }
    }

    /// Keeps the call that a step makes.
    #[inline(always)]
    #[tactic(auto, using(crate::proofs::Short::none_made))]
    fn begin_call(&mut self, step: &NextStep, machine: &Machine)
        ensures { self.new ≡ record self.old {
          calls = with_call (call_in machine.now step.now (mark_in self.old machine.now.cycles)) self.old.calls;
        } }
    {
        if may_call(step) {
            self.enter_call(step, machine);
        }
    }

    /// The same of a step that may make one.
    #[inline(never)]
    fn enter_call(&mut self, step: &NextStep, machine: &Machine)
        ensures { self.new ≡ record self.old {
          calls = with_call (call_in machine.now step.now (mark_in self.old machine.now.cycles)) self.old.calls;
        } }
    {
        if let Some(call) = call_in(step, machine, &self.mark(machine.cycles())) {
            self.calls.enter(call);
        }
    }

    /// Keeps the call that a step ends.
    #[inline(always)]
    fn end_call(&mut self, machine: &Machine, step: &NextStep)
        requires few { AreFew self.old.called (2 ^ 62) }
        ensures value { self.new ≡ record self.old {
          calls = left_in machine.now self.old.calls;
          called = put_down self.old.called (call_over (returned_in machine.now self.old.calls)
              (mark_in self.old machine.now.cycles) (account_number (where_of step.now)));
        } }
        ensures within { IsWithin account_count
            (call_over (returned_in machine.now self.old.calls) (mark_in self.old machine.now.cycles)
            (account_number (where_of step.now))) }
    {
        if !machine.inside() && !self.calls.none_returns(machine) {
            self.leave_call(machine, number_of(where_of(step)));
        }
    }

    /// The same where one may return.
    #[inline(never)]
    fn leave_call(&mut self, machine: &Machine, here: usize)
        requires few { AreFew self.old.called (2 ^ 62) }
        requires outside { machine.now.inside ≡ false }
        ensures value { self.new ≡ record self.old {
          calls = left_in machine.now self.old.calls;
          called = put_down self.old.called (call_over (returned_in machine.now self.old.calls)
              (mark_in self.old machine.now.cycles) here);
        } }
        ensures within { IsWithin account_count
            (call_over (returned_in machine.now self.old.calls) (mark_in self.old machine.now.cycles) here) }
    {
        if let Some(call) = self.calls.leave(&machine.next_place()) {
            let stretch = Stretch {
                from: call.mark,
                to: self.mark(machine.cycles()),
                step: self.steps,
                end: here,
            };
            self.called
                .add(number_of(Account::Place(call.to)), &stretch);
        }
    }
}

impl Recorder for Delays {
    type Kept = ();

    ghost kept = { λ _. tt };

    ghost Stands = { λ _ scenario n delays. Measures scenario n delays };

    #[inline(always)]
    fn record_plain(
        &mut self,
        processor: &Processor,
        machine: &mut Machine,
        done: u64,
        quiet: u64,
    ) -> bool {
        let _ = done;
        let fetched = processor.fetched(machine, quiet);
        let word = fetched.word;
        let step = NextStep::Executes(fetched);
        if may_call(&step) {
            return false;
        }
        let cause = cause_of(&step, machine, self.last);
        let cycles = machine.cycles();
        if !processor.make_plain(machine, word, quiet) {
            return false;
        }
        self.keep_plain(machine, &step, cause, cycles);
        true
    }
}

impl Profiler for Delays {
    fn record(&mut self, processor: &mut Processor, machine: &mut Machine, done: u64) {
        let _ = done;
        self.step(processor, machine);
    }
}
