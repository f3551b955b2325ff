//! The processor: fixed memory, the inputs, and the count of steps.

ghost use Rattle.std.specs.Prelude.{◌≡◌, ◌≢◌, true, false, ◌+◌, ◌-◌, ◌<◌, ◌≤◌, ◌^◌, min, ℕ, Some, None, Err, IfOk};
ghost use Rattle.std.specs.Prelude.{IfSome, OnOk, OnErr, filter, fold, map};
ghost use Rattle.feed.specs.Added.{AddsLast, TakenBelow};
ghost use Rattle.feed.specs.CountsTaken.{is_from};
ghost use Rattle.feed.specs.Merged.{due, plain_entry};
ghost use Rattle.cpu.specs.State.{State, FitsRun};
ghost use Rattle.cpu.specs.InputsLeft.{has_input_left};
ghost use Rattle.cpu.specs.Additions.{AddsInput, AreAlikeUpTo, plain_inputs, most_plain_inputs};
ghost use Rattle.cpu.specs.Run.{out, run};
ghost use Rattle.cpu.specs.Silent.{IsSilent};
ghost use Rattle.cpu.specs.declared.spot.Spot.{Spot};
ghost use Rattle.cpu.specs.Links.{flows, link, sources, targets, writes};
ghost use Rattle.cpu.specs.Reads.{reads};
ghost use Rattle.cpu.specs.Chains.{writes_some};
ghost use Rattle.cpu.specs.NextStep.{next_step};
ghost use Rattle.cpu.specs.Profiles.{account_of};
ghost use Rattle.cpu.specs.Next.{next, instruction_word, most_cycles};

use crate::account::Account;
use crate::cell_set::CellSet;
use crate::flows::{Sink, enter, execute, take};
use crate::machine::Machine;
use crate::next_step::{Fetched, NextStep};
use crate::output::Output;
use crate::reads::{of_input, push_executed};
use crate::sinks::{Targets, Trail};
use crate::source::Source;
use crate::spot::{Cell, Spot, is_among};
use arrayvec::ArrayVec;
use feed::{AddFault, Feed, Input, Plain};
use rope::Rope;
use std::alloc::Global;
use std::marker::Model;
use words::Word;

/// A machine with more cycles than this takes no input and enters no interrupt.
const MOST_CYCLES: u64 = 1 << 62;

/// No step takes more cycles than this.
pub(crate) const MOST_STEP_CYCLES: u64 = 8;

/// Fixed memory, the inputs, and a meter of the steps that were made.
#[derive(Drop)]
pub struct Processor {
    rope: Rope,
    feed: Feed,
    meter: u128,
}

impl Model for Processor {
    ghost use Rattle.cpu.specs.State.{Processing};
    ghost use Rattle.cpu.specs.Representation.{processing_code};

    ghost Value = { Processing };

    ghost coded = { processing_code };

    ghost view = { λ p. record { scenario = record { rope = p.rope; inputs = p.feed }; meter = p.meter } };
}

impl Processor {
    /// A processor that has made no step. Every state of its run fits what it runs.
    pub fn new(rope: Rope, feed: Feed) -> Processor
        ensures fits { (n : ℕ) → FitsRun result.scenario (run result.scenario n) }
        ensures value { result ≡ record { scenario = record { rope = rope; inputs = feed }; meter = 0 } }
    {
        Processor {
            rope,
            feed,
            meter: 0,
        }
    }

    /// Makes one step, and answers what it puts out: takes the next input where it is due, else enters an interrupt,
    /// else executes an instruction. The meter counts the step, but stays at its greatest value. No state is told of a
    /// machine with more than 2^62 cycles, to which no run of fewer than 2^59 steps from the start leads, nor of one
    /// that does not fit what runs, as one from another processor.
    #[inline(always)]
    pub fn step(&mut self, machine: &mut Machine) -> Option<Output>
        ensures meter { self.new ≡ record self.old { meter = min (self.old.meter + 1) (2 ^ 128 - 1) } }
        ensures growing { self.old.meter < 2 ^ 128 → self.old.meter ≤ self.new.meter }
        ensures step { machine.old.cycles ≤ most_cycles → FitsRun self.old.scenario machine.old →
            (machine.new, result) ≡ next self.old.scenario machine.old }
        ensures fits { machine.old.cycles ≤ most_cycles → FitsRun self.old.scenario machine.old
            → FitsRun self.old.scenario machine.new }
    {
        self.count(1);
        self.step_uncounted(machine)
    }

    /// Makes one step as `step` does, which the meter does not count.
    #[inline(always)]
    #[tactic(auto, unfolding(crate::specs::Next::next))]
    fn step_uncounted(&mut self, machine: &mut Machine) -> Option<Output>
        ensures same { self.new ≡ self.old }
        ensures step { machine.old.cycles ≤ most_cycles → FitsRun self.old.scenario machine.old →
            (machine.new, result) ≡ next self.old.scenario machine.old }
        ensures fits { machine.old.cycles ≤ most_cycles → FitsRun self.old.scenario machine.old
            → FitsRun self.old.scenario machine.new }
    {
        if self.take_input(machine) {
            return None;
        }
        if let Some(request) = machine.entry() {
            if machine.cycles() > MOST_CYCLES {
                return None;
            }
            machine.enter(&self.rope, request);
            return None;
        }
        machine.execute(&self.rope)
    }

    /// Makes the steps of a run behind step `done`, up to step `stop` or to the first that puts something out: many at
    /// once, each as
    /// `step` makes it. Answers how many the run has made then, and what the last one has put out. The meter counts
    /// each, but stays at its greatest value.
    pub fn run_on(&mut self, machine: &mut Machine, done: u64, stop: u64) -> (u64, Option<Output>)
        requires order { done < stop }
        requires few { stop ≤ 2 ^ 40 }
        requires stands { machine.old ≡ run self.old.scenario done }
        ensures past { done < result.0 }
        ensures within { result.0 ≤ stop }
        ensures all { result.1 ≡ None → result.0 ≡ stop }
        ensures meter { self.new ≡ record self.old { meter = min (self.old.meter + (result.0 - done)) (2 ^ 128 - 1) } }
        ensures state { machine.new ≡ run self.old.scenario result.0 }
        ensures silent { IsSilent self.old.scenario done (result.0 - 1) }
        ensures put { result.1 ≡ out self.old.scenario result.0 }
    {
        let mut at = done;
        while at < stop {
            let silent = self.feed.none_due_before(machine.taken());
            let (to, put) = self.run_silent(machine, at, stop, silent);
            if let Some(output) = put {
                self.count(to - done);
                return (to, Some(output));
            }
            at = to;
            if at < stop {
                at += 1;
                if let Some(output) = self.step_uncounted(machine) {
                    self.count(at - done);
                    return (at, Some(output));
                }
            }
        }
        self.count(at - done);
        (at, None)
    }

    /// Counts some steps on the meter.
    #[inline(always)]
    pub fn count(&mut self, steps: u64)
        ensures { self.new ≡ record self.old { meter = min (self.old.meter + steps) (2 ^ 128 - 1) } }
    {
        self.meter = self.meter.saturating_add(u128::from(steps));
    }

    /// Makes the steps of a run behind step `done`, up to step `stop`, or to the first that puts something out, or to
    /// where the cycles reach `silent`, before which no input is due. Answers as `run_on` does.
    #[inline(always)]
    fn run_silent(
        &self,
        machine: &mut Machine,
        done: u64,
        stop: u64,
        silent: u64,
    ) -> (u64, Option<Output>)
        requires order { done ≤ stop }
        requires few { stop ≤ 2 ^ 40 }
        requires stands { machine.old ≡ run self.now.scenario done }
        requires silent { (cycles : ℕ) → cycles < silent
            → due self.now.scenario.inputs machine.old.taken cycles ≡ None }
        ensures past { done ≤ result.0 }
        ensures within { result.0 ≤ stop }
        ensures state { machine.new ≡ run self.now.scenario result.0 }
        ensures none { result.1 ≡ None → IsSilent self.now.scenario done result.0 }
        ensures put { IfSome result.1 (λ o. (done < result.0) × (IsSilent self.now.scenario done (result.0 - 1))
            × (Some o ≡ out self.now.scenario result.0)) }
    {
        let mut at = done;
        while at < stop && machine.cycles() < silent {
            at += 1;
            if let Some(output) = self.step_silent(machine) {
                return (at, Some(output));
            }
            at = self.run_plain(machine, at, stop, silent);
        }
        (at, None)
    }

    /// Makes the steps of a run behind step `done`, up to step `stop`, or to where an input may be due, as long as each
    /// executes a plain instruction. Answers how many the run has made then.
    #[inline(always)]
    fn run_plain(&self, machine: &mut Machine, done: u64, stop: u64, silent: u64) -> u64
        requires order { done ≤ stop }
        requires few { stop ≤ 2 ^ 40 }
        requires stands { machine.old ≡ run self.now.scenario done }
        requires silent { (cycles : ℕ) → cycles < silent
            → due self.now.scenario.inputs machine.old.taken cycles ≡ None }
        ensures past { done ≤ result }
        ensures within { result ≤ stop }
        ensures state { machine.new ≡ run self.now.scenario result }
        ensures taken { machine.new.taken ≡ machine.old.taken }
        ensures none { IsSilent self.now.scenario done result }
    {
        if !machine.is_still() || machine.extra() {
            return done;
        }
        let rope = self.rope();
        let room = silent.saturating_sub(machine.cycles()) / MOST_STEP_CYCLES;
        let mut left = room.min(stop - done);
        let end = done + left;
        while left > 0 {
            let Some(extra) = machine.execute_basic(rope) else {
                return end - left;
            };
            if extra {
                if left == 1 {
                    return end;
                }
                if !machine.execute_extracode(rope) {
                    return end - (left - 1);
                }
                left -= 1;
            }
            left -= 1;
        }
        end
    }

    /// Makes one step where no input is due.
    #[inline(always)]
    #[tactic(auto, unfolding(crate::specs::Next::next))]
    fn step_silent(&self, machine: &mut Machine) -> Option<Output>
        requires few { machine.old.cycles ≤ most_cycles }
        requires none { due self.now.scenario.inputs machine.old.taken machine.old.cycles ≡ None }
        ensures { (machine.new, result) ≡ next self.now.scenario machine.old }
    {
        match machine.entry() {
            Some(request) => {
                machine.enter(&self.rope, request);
                None
            }
            None => machine.execute(&self.rope),
        }
    }

    /// Takes the next input where it is due, and tells whether it was.
    fn take_input(&mut self, machine: &mut Machine) -> bool
        ensures same { self.new ≡ self.old }
        ensures none { result ≡ false → machine.new ≡ machine.old }
        ensures known { FitsRun self.old.scenario machine.old → result ≡ false
            → due self.old.scenario.inputs machine.old.taken machine.old.cycles ≡ None }
        ensures next { machine.old.cycles ≤ most_cycles → FitsRun self.old.scenario machine.old → result ≡ true
            → (machine.new, None) ≡ next self.old.scenario machine.old }
    {
        if self.feed.is_none_due(machine.taken(), machine.cycles()) {
            return false;
        }
        self.take_due(machine)
    }

    /// The same, where it is not known that none is due. It stands apart, so that most steps have none of its locals.
    #[cold]
    #[inline(never)]
    #[tactic(auto, unfolding(crate::specs::Next::next))]
    fn take_due(&mut self, machine: &mut Machine) -> bool
        ensures same { self.new ≡ self.old }
        ensures none { result ≡ false → machine.new ≡ machine.old }
        ensures known { FitsRun self.old.scenario machine.old → result ≡ false
            → due self.old.scenario.inputs machine.old.taken machine.old.cycles ≡ None }
        ensures next { machine.old.cycles ≤ most_cycles → FitsRun self.old.scenario machine.old → result ≡ true
            → (machine.new, None) ≡ next self.old.scenario machine.old }
    {
        let due = self
            .feed
            .due(machine.taken(), machine.counts(), machine.cycles());
        if let Some((input, series)) = due {
            if machine.cycles() <= MOST_CYCLES {
                machine.take(input, series);
            }
            return true;
        }
        false
    }

    /// Adds an input at a cycle, after all inputs of that cycle. An input at a cycle above those of a step changes no
    /// state and no output up to that step.
    pub fn add(&mut self, cycle: u64, input: Input) -> Result<(), AddFault>
        ensures added { OnOk result (AddsInput cycle input self.old self.new) }
        ensures later { OnOk result ((n : ℕ) → (run self.old.scenario n).cycles < cycle
            → AreAlikeUpTo self.old.scenario self.new.scenario n) }
        ensures fits { OnOk result ((s : State) → TakenBelow self.old.scenario.inputs s.taken cycle
            → FitsRun self.old.scenario s → FitsRun self.new.scenario s) }
        ensures unchanged { OnErr result (self.new ≡ self.old) }
        ensures room { result ≢ Err AddFault.TooMany → plain_inputs self.old.scenario < most_plain_inputs }
        ensures full { result ≡ Err AddFault.TooMany → most_plain_inputs ≤ plain_inputs self.old.scenario }
    {
        self.feed.add(cycle, input)
    }

    /// What runs, once more, with a meter of its own.
    pub fn copied(&self, alloc: Global) -> Result<Processor, AddFault>
        ensures { IfOk result (λ copy. copy ≡ record { scenario = self.now.scenario; meter = 0 }) }
    {
        let Ok(rope) = self.rope.copied(alloc) else {
            return Err(AddFault::NoMemory);
        };
        Ok(Processor::new(rope, self.feed.copied(alloc)?))
    }

    /// What runs, once more, with one input more at a cycle, after all inputs of that cycle. Below the cycle the inputs
    /// are the same.
    pub fn with_input(&self, alloc: Global, cycle: u64, input: Input) -> Result<Processor, AddFault>
        ensures rope { IfOk result (λ fork. fork.scenario.rope ≡ self.now.scenario.rope) }
        ensures inputs { IfOk result (λ fork. AddsLast self.now.scenario.inputs cycle input fork.scenario.inputs) }
        ensures later { IfOk result (λ fork. (k now : ℕ) → now < cycle
            → due fork.scenario.inputs k now ≡ due self.now.scenario.inputs k now) }
        ensures meter { IfOk result (λ fork. fork.meter ≡ 0) }
    {
        let mut fork = self.copied(alloc)?;
        match fork.feed.add(cycle, input) {
            Ok(()) => Ok(fork),
            Err(fault) => Err(fault),
        }
    }

    /// The inputs that are from no series, in order.
    pub fn plain_inputs(&self) -> &[Plain]
        ensures { map plain_entry result.now ≡ filter (is_from None) self.now.scenario.inputs }
    {
        self.feed.plain()
    }

    /// How many steps were made.
    pub fn meter(&self) -> u128
        ensures { result ≡ self.now.meter }
    {
        self.meter
    }

    /// Before which cycles surely no input is due for a machine.
    #[inline(always)]
    pub(crate) fn none_due_before(&self, machine: &Machine) -> u64
        ensures { (cycles : ℕ) → cycles < result → due self.now.scenario.inputs machine.now.taken cycles ≡ None }
    {
        self.feed.none_due_before(machine.taken())
    }

    /// Fixed memory.
    pub fn rope(&self) -> &Rope
        ensures { result.now ≡ self.now.scenario.rope }
    {
        &self.rope
    }

    /// What the next step is.
    #[tactic(auto, unfolding(crate::specs::NextStep::next_step))]
    pub fn next_step(&self, machine: &Machine) -> NextStep
        ensures { FitsRun self.now.scenario machine.now → result ≡ next_step self.now.scenario machine.now }
    {
        if let Some((input, _)) = self.due(machine) {
            return NextStep::Takes(input);
        }
        if let Some(request) = machine.entry() {
            return NextStep::Enters(request);
        }
        NextStep::Executes(Fetched {
            place: machine.next_place(),
            word: machine.instruction_word(&self.rope),
            extra: machine.extra(),
            waited: machine.waiting_word().is_some(),
            added: machine.waiting_sum(),
        })
    }

    /// To whom the cycles of the next step are put down.
    #[inline(always)]
    pub fn account(&self, machine: &Machine) -> Account
        ensures { FitsRun self.now.scenario machine.now → result ≡ account_of self.now.scenario machine.now }
    {
        if self.due(machine).is_some() {
            return Account::Input;
        }
        if machine.entry().is_some() {
            return Account::Entry;
        }
        if machine.waiting_word().is_some() {
            return Account::Waiting;
        }
        Account::Place(machine.next_place())
    }

    /// The cells that the next step writes, in the order of its writings; one that is written twice stands twice.
    #[tactic(auto, using(crate::proofs::Trails::gathered_targets), unfolding(crate::specs::Links::targets))]
    pub fn targets(&self, machine: &Machine) -> ArrayVec<Cell, 10>
        ensures { FitsRun self.now.scenario machine.now → result.items ≡ targets (link self.now.scenario machine.now) }
    {
        let mut targets = Targets::none();
        self.hand_flows(machine, &mut targets);
        targets.into_cells()
    }

    /// What the next step reads, in order; what is read twice stands twice.
    #[tactic(auto, unfolding(crate::specs::Reads::reads, crate::specs::Links::link))]
    pub fn reads(&self, machine: &Machine) -> ArrayVec<Spot, 8>
        ensures { FitsRun self.now.scenario machine.now → result.items ≡ reads (link self.now.scenario machine.now) }
    {
        let mut reads = ArrayVec::new();
        if let Some((input, _)) = self.due(machine) {
            of_input(machine, input).push_to(&mut reads);
        } else if machine.entry().is_some() {
            Source::Place(machine.next_place()).push_to(&mut reads);
        } else {
            push_executed(&mut reads, machine, &self.rope);
        }
        reads
    }

    /// Whether the next step writes a cell.
    pub fn writes(&self, machine: &Machine, cell: Cell) -> bool
        ensures { FitsRun self.now.scenario machine.now → result ≡ writes (link self.now.scenario machine.now) cell }
    {
        is_among(cell, self.targets(machine).as_slice())
    }

    /// Whether the next step writes one of some cells.
    pub fn writes_some(&self, machine: &Machine, cells: &CellSet) -> bool
        ensures { FitsRun self.now.scenario machine.now
            → result ≡ writes_some (link self.now.scenario machine.now) cells.now }
    {
        cells.has_any(self.targets(machine).as_slice())
    }

    /// From what comes what the next step leaves in a cell: spots at which the machine holds something, or fixed memory
    /// does. Where the step does not write the cell, the cell itself.
    #[tactic(auto, using(crate::proofs::Trails::passed_from), unfolding(crate::specs::Links::sources))]
    pub fn sources(&self, machine: &Machine, cell: Cell) -> ArrayVec<Spot, 6>
        ensures { FitsRun self.now.scenario machine.now
            → result.items ≡ sources (link self.now.scenario machine.now) (Spot.Cell cell) }
    {
        let mut trail = Trail::new(cell);
        self.hand_flows(machine, &mut trail);
        trail.into_from()
    }

    // Hands on the flows of the next step, one after another.
    #[tactic(auto, unfolding(crate::specs::Links::link))]
    fn hand_flows<S: Sink>(&self, machine: &Machine, sink: &mut S)
        requires { 10 ≤ S.room sink.old }
        ensures { FitsRun self.now.scenario machine.now
            → sink.new ≡ fold S.after sink.old (flows (link self.now.scenario machine.now)) }
    {
        if let Some((input, _)) = self.due(machine) {
            take(sink, machine, input);
        } else if let Some(request) = machine.entry() {
            enter(sink, machine, &self.rope, request);
        } else {
            execute(sink, machine, &self.rope);
        }
    }

    /// The input that is due for a machine, with its series.
    fn due(&self, machine: &Machine) -> Option<(Input, Option<usize>)>
        ensures { FitsRun self.now.scenario machine.now
            → result ≡ due self.now.scenario.inputs machine.now.taken machine.now.cycles }
    {
        self.feed
            .peek(machine.taken(), machine.counts(), machine.cycles())
    }

    /// Whether an input that the machine has not taken yet is still to come.
    pub fn has_input_left(&self, machine: &Machine) -> bool
        ensures { FitsRun self.now.scenario machine.now
            → result ≡ has_input_left self.now.scenario machine.now }
    {
        self.feed
            .peek(machine.taken(), machine.counts(), MOST_CYCLES)
            .is_some()
    }

    /// The word that a machine executes next, unless an interrupt is entered, and whether extracode is in force for it.
    pub fn next_word(&self, machine: &Machine) -> (Word, bool)
        ensures { result ≡ (instruction_word self.now.scenario.rope machine.now, machine.now.extra) }
    {
        (machine.instruction_word(&self.rope), machine.extra())
    }
}

/// Takes a processor apart. No field is left out, so one more, as a machine, is refused here.
fn all_fields(processor: &Processor) -> (&Rope, &Feed, &u128) {
    let Processor { rope, feed, meter } = processor;
    (rope, feed, meter)
}
