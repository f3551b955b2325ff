//! Making the steps of a run slice by slice, whatever an engine makes of them.

ghost use Rattle.std.specs.Prelude.{◌≡◌, ◌+◌, ◌-◌, ◌<◌, ◌≤◌, ◌^◌, ℕ, nat_lt, Bool, List, true, false};
ghost use Rattle.std.specs.Prelude.{IfOk, OnErr, OnOk};
ghost use Rattle.words.specs.Devices.{Writes, failures_after};
ghost use Rattle.cpu.specs.Next.{next};
ghost use Rattle.cpu.specs.Run.{run};
ghost use Rattle.cpu.specs.State.{FitsRun, Scenario, start};
ghost use Rattle.workshop.specs.Failures.{writer};
ghost use Rattle.workshop.specs.Progress.{TellsAll, telling};
ghost use Rattle.workshop.specs.Stepping.{Grows, TellsSteps, WritesOn};

use crate::engine::{STEPS_BETWEEN_FLUSHES, hand_on, step_and_write, write_put};
use crate::progress::tell;
use cpu::{Machine, Processor};
use notes::Notebook;
use say::{LineForm, tell_step};
use trace::PlaceNames;
use words::{Write, WriteFailed};
use yayul::NamedPlaces;

/// What makes the steps of a run, and writes a text of them meanwhile.
pub(crate) trait Stepper {
    /// What no step changes of it.
    type Kept;

    /// Whether it is known to make no other steps.
    ghost metered: { Bool } = { false };

    /// What no step changes of it.
    ghost kept: { Self → Self.Kept };

    /// How it stands after so many steps of a run.
    ghost Stands: { Self.Kept → Scenario → ℕ → Self → Type 0 };

    /// The text of so many steps.
    ghost text: { Self.Kept → Scenario → ℕ → List ℕ };

    /// Makes one or more of the steps behind step `done`, none behind step `stop`, and writes their text. Answers how
    /// many the run has made then.
    fn go_on<W: Write>(
        &mut self,
        processor: &mut Processor,
        machine: &mut Machine,
        done: u64,
        stop: u64,
        out: &mut W,
    ) -> Result<u64, WriteFailed>
        requires order { done < stop }
        requires few { stop ≤ 2 ^ 40 }
        requires state { machine.old ≡ run processor.old.scenario done }
        requires stands { Stands (kept self.old) processor.old.scenario done self.old }
        ensures past { IfOk result (λ to. done < to) }
        ensures within { IfOk result (λ to. to ≤ stop) }
        ensures scenario { processor.new.scenario ≡ processor.old.scenario }
        ensures kept { OnOk result (kept self.new ≡ kept self.old) }
        ensures state { IfOk result (λ to. machine.new ≡ run processor.old.scenario to) }
        ensures stands { IfOk result (λ to. Stands (kept self.old) processor.old.scenario to self.new) }
        ensures written { WritesOn (text (kept self.old) processor.old.scenario) done stop
            (writer W.Write out.old) (writer W.Write out.new) result }
        ensures meter { metered ≡ true →
            IfOk result (λ to. processor.new.meter + done ≤ processor.old.meter + to) }
        ensures broken { metered ≡ true → OnErr result (processor.new.meter ≤ processor.old.meter + 1) };
}

/// Makes some steps from the start slice by slice: what was written of a slice is handed on, so that the lines of a
/// long run are seen, and stand where it is broken off; and then it is told how many steps were made.
pub(crate) fn run_all<S: Stepper, W: Write, T: Write>(
    stepper: &mut S,
    processor: &mut Processor,
    machine: &mut Machine,
    steps: u64,
    out: &mut W,
    progress: &mut T,
) -> Result<(), WriteFailed>
    requires few { steps ≤ 2 ^ 40 - 2 }
    requires start { machine.old ≡ start }
    requires none { S.Stands (S.kept stepper.old) processor.old.scenario 0 stepper.old }
    requires grows { Grows (S.text (S.kept stepper.old) processor.old.scenario) }
    ensures scenario { processor.new.scenario ≡ processor.old.scenario }
    ensures kept { OnOk result (S.kept stepper.new ≡ S.kept stepper.old) }
    ensures state { OnOk result (machine.new ≡ run processor.old.scenario steps) }
    ensures stands { OnOk result (S.Stands (S.kept stepper.old) processor.old.scenario steps stepper.new) }
    ensures written { W.told ≡ true → Writes (W.written out.old) (W.written out.new)
        (S.text (S.kept stepper.old) processor.old.scenario steps) result }
    ensures failures { W.failures out.new ≡ failures_after (W.failures out.old) result }
    ensures handed_on { W.told ≡ true → 0 < steps → OnOk result (W.handed_on out.new ≡ W.written out.new) }
    ensures progress { TellsSteps (S.text (S.kept stepper.old) processor.old.scenario) steps
        (telling (writer W.Write out.old) (writer T.Write progress.old))
        (telling (writer W.Write out.new) (writer T.Write progress.new)) result }
    ensures meter { S.metered ≡ true → processor.new.meter ≤ processor.old.meter + steps }
{
    let mut told = Ok(());
    let mut done = 0;
    while done < steps {
        let stop = steps.min(done + STEPS_BETWEEN_FLUSHES);
        while done < stop {
            let made = stepper.go_on(processor, machine, done, stop, out)?;
            done = made;
        }
        hand_on(out)?;
        told = tell(told, done, progress);
    }
    Ok(())
}

/// What makes the steps of a run and keeps figures of them, and writes nothing meanwhile.
pub(crate) trait Counting {
    /// What no step changes of it.
    type Kept;

    /// What no step changes of it.
    ghost kept: { Self → Self.Kept };

    /// How it stands after so many steps of a run.
    ghost Stands: { Self.Kept → Scenario → ℕ → Self → Type 0 };

    /// Makes more steps of a run of which some are done.
    fn count(&mut self, processor: &mut Processor, machine: &mut Machine, done: u64, stop: u64)
        requires within { done ≤ stop }
        requires few { stop ≤ 2 ^ 40 }
        requires state { machine.old ≡ run processor.old.scenario done }
        requires stands { Stands (kept self.old) processor.old.scenario done self.old }
        ensures scenario { processor.new.scenario ≡ processor.old.scenario }
        ensures kept { kept self.new ≡ kept self.old }
        ensures state { machine.new ≡ run processor.old.scenario stop }
        ensures stands { Stands (kept self.old) processor.old.scenario stop self.new };
}

/// Makes some steps from the start slice by slice, and tells after each how many were made. Answers their cycles.
pub(crate) fn count_all<C: Counting, T: Write>(
    counting: &mut C,
    processor: &mut Processor,
    steps: u64,
    progress: &mut T,
) -> u64
    requires few { steps ≤ 2 ^ 40 - 2 }
    requires none { C.Stands (C.kept counting.old) processor.old.scenario 0 counting.old }
    ensures scenario { processor.new.scenario ≡ processor.old.scenario }
    ensures kept { C.kept counting.new ≡ C.kept counting.old }
    ensures stands { C.Stands (C.kept counting.old) processor.old.scenario steps counting.new }
    ensures cycles { result ≡ (run processor.old.scenario steps).cycles }
    ensures progress { TellsAll steps (writer T.Write progress.old) (writer T.Write progress.new) }
{
    let mut machine = Machine::start();
    let mut told = Ok(());
    let mut done = 0;
    while done < steps {
        let end = steps.min(done + STEPS_BETWEEN_FLUSHES);
        counting.count(processor, &mut machine, done, end);
        told = tell(told, end, progress);
        done = end;
    }
    machine.cycles()
}

/// How many lines of what steps put out were written.
#[derive(Drop)]
pub(crate) struct OutputLines {
    pub(crate) count: u64,
}

impl Stepper for OutputLines {
    ghost use Rattle.workshop.specs.Progress.{run_text};
    ghost use Rattle.workshop.specs.Stepping.{CountsLines};

    type Kept = ();

    ghost kept = { λ _. tt };

    ghost Stands = { λ _ scenario n written. CountsLines scenario n written.count };

    ghost text = { λ _ scenario. run_text scenario };

    fn go_on<W: Write>(
        &mut self,
        processor: &mut Processor,
        machine: &mut Machine,
        done: u64,
        stop: u64,
        out: &mut W,
    ) -> Result<u64, WriteFailed> {
        let (to, put) = processor.run_on(machine, done, stop);
        write_put(put, &mut self.count, out)?;
        Ok(to)
    }
}

/// What is noted of a run's steps, and how many lines of what they put out were written.
#[derive(Drop)]
pub(crate) struct Noting {
    pub(crate) notebook: Notebook,
    pub(crate) lines: u64,
}

impl Stepper for Noting {
    ghost use Rattle.std.specs.Prelude.{true};
    ghost use Rattle.notes.specs.Counted.{Counted};
    ghost use Rattle.workshop.specs.Progress.{run_text};
    ghost use Rattle.workshop.specs.Stepping.{CountsLines};

    type Kept = NamedPlaces;

    ghost metered = { true };

    ghost kept = { λ noting. noting.notebook.named };

    ghost Stands = { λ named scenario n noting. CountsLines scenario n noting.lines
        × Counted named scenario n noting.notebook };

    ghost text = { λ _ scenario. run_text scenario };

    fn go_on<W: Write>(
        &mut self,
        processor: &mut Processor,
        machine: &mut Machine,
        done: u64,
        stop: u64,
        out: &mut W,
    ) -> Result<u64, WriteFailed> {
        self.notebook.note(processor, machine);
        step_and_write(processor, machine, &mut self.lines, out)?;
        let to = self
            .notebook
            .note_plain_steps(processor, machine, done + 1, stop);
        Ok(to)
    }
}

/// Writes the lines of steps from a first one on, in a form.
#[derive(Drop)]
pub(crate) struct Tracing {
    pub(crate) form: LineForm,
    pub(crate) names: PlaceNames,
    pub(crate) first: u64,
}

impl Tracing {
    /// Whether a step stands before the first whose line is written.
    fn is_before(&self, number: u64) -> bool
        ensures { result ≡ nat_lt number self.now.first }
    {
        number < self.first
    }
}

/// Makes a step, and writes nothing of it.
fn step_silently(processor: &mut Processor, machine: &mut Machine)
    requires cycles { machine.old.cycles ≤ 2 ^ 62 }
    requires fits { FitsRun processor.old.scenario machine.old }
    ensures scenario { processor.new.scenario ≡ processor.old.scenario }
    ensures state { machine.new ≡ (next processor.old.scenario machine.old).0 }
{
    processor.step(machine);
}

impl Stepper for Tracing {
    ghost use Rattle.say.specs.Said.{told_lines};

    type Kept = Tracing;

    ghost kept = { λ tracing. tracing };

    ghost Stands = { λ _ _ _ _. Unit {0} };

    ghost text = { λ tracing scenario. told_lines tracing.form tracing.names scenario tracing.first };

    fn go_on<W: Write>(
        &mut self,
        processor: &mut Processor,
        machine: &mut Machine,
        done: u64,
        stop: u64,
        out: &mut W,
    ) -> Result<u64, WriteFailed> {
        let number = done + 1;
        if self.is_before(number) {
            step_silently(processor, machine);
            return Ok(number);
        }
        tell_step(self.form, &self.names, processor, machine, number, out)?;
        Ok(number)
    }
}
