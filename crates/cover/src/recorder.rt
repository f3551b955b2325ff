//! What records the steps of a run as they are made, and the loops that make them.

ghost use Rattle.std.specs.Prelude.{◌≡◌, ◌+◌, ◌-◌, ◌<◌, ◌≤◌, ◌^◌, ℕ, None, true, false};
ghost use Rattle.cpu.specs.Bursts.{IsQuiet};
ghost use Rattle.cpu.specs.Next.{next};
ghost use Rattle.cpu.specs.Run.{run};
ghost use Rattle.cpu.specs.Silent.{IsSilent};
ghost use Rattle.cpu.specs.State.{Scenario};

use cpu::{Machine, Processor};

/// What records steps of a run: plain ones as it makes them, one after another.
pub trait Recorder {
    /// What no step changes of it.
    type Kept;

    /// What no step changes of it.
    ghost kept: { Self → Self.Kept };

    /// How it stands after so many steps of a run.
    ghost Stands: { Self.Kept → Scenario → ℕ → Self → Type 0 };

    /// Makes the step behind step `done`, of so many quiet ones, and records it, where it is plain and a short look at
    /// it is enough; else leaves all as it is.
    fn record_plain(
        &mut self,
        processor: &Processor,
        machine: &mut Machine,
        done: u64,
        quiet: u64,
    ) -> bool
        requires few { done < 2 ^ 40 }
        requires quiet { IsQuiet processor.now.scenario machine.old quiet }
        requires some { 1 ≤ quiet }
        requires state { machine.old ≡ run processor.now.scenario done }
        requires stands { Stands (kept self.old) processor.now.scenario done self.old }
        ensures left { result ≡ false → machine.new ≡ machine.old }
        ensures same { result ≡ false → self.new ≡ self.old }
        ensures made { result ≡ true → (machine.new, None) ≡ next processor.now.scenario machine.old }
        ensures quiet { result ≡ true → IsQuiet processor.now.scenario machine.new (quiet - 1) }
        ensures kept { result ≡ true → kept self.new ≡ kept self.old }
        ensures stands { result ≡ true → Stands (kept self.old) processor.now.scenario (done + 1) self.new };
}

/// What records each step of a run, and passes over what it puts out.
pub trait Profiler: Recorder {
    /// Makes the step behind step `done`, whichever it is, and records it.
    fn record(&mut self, processor: &mut Processor, machine: &mut Machine, done: u64)
        requires few { done < 2 ^ 40 }
        requires state { machine.old ≡ run processor.old.scenario done }
        requires stands { Self.Stands (Self.kept self.old) processor.old.scenario done self.old }
        ensures scenario { processor.new.scenario ≡ processor.old.scenario }
        ensures meter { processor.new.meter ≤ processor.old.meter + 1 }
        ensures state { machine.new ≡ (next processor.old.scenario machine.old).0 }
        ensures kept { Self.kept self.new ≡ Self.kept self.old }
        ensures stands { Self.Stands (Self.kept self.old) processor.old.scenario (done + 1) self.new };
}

/// Makes more steps of a run of which some are done, and records each. What they put out is passed over.
pub fn record_steps<P: Profiler>(
    profiler: &mut P,
    processor: &mut Processor,
    machine: &mut Machine,
    done: u64,
    stop: u64,
)
    requires within { done ≤ stop }
    requires few { stop ≤ 2 ^ 40 }
    requires state { machine.old ≡ run processor.old.scenario done }
    requires stands { P.Stands (P.kept profiler.old) processor.old.scenario done profiler.old }
    ensures scenario { processor.new.scenario ≡ processor.old.scenario }
    ensures meter { processor.new.meter + done ≤ processor.old.meter + stop }
    ensures state { machine.new ≡ run processor.old.scenario stop }
    ensures kept { P.kept profiler.new ≡ P.kept profiler.old }
    ensures stands { P.Stands (P.kept profiler.old) processor.old.scenario stop profiler.new }
{
    let mut at = done;
    while at < stop {
        profiler.record(processor, machine, at);
        at = record_plain_steps(profiler, processor, machine, at + 1, stop);
    }
}

/// The same of plain steps alone, as long as they come one after another. They put nothing out. Answers how many the
/// run has made then.
pub fn record_plain_steps<R: Recorder>(
    recorder: &mut R,
    processor: &mut Processor,
    machine: &mut Machine,
    done: u64,
    stop: u64,
) -> u64
    requires within { done ≤ stop }
    requires few { stop ≤ 2 ^ 40 }
    requires state { machine.old ≡ run processor.old.scenario done }
    requires stands { R.Stands (R.kept recorder.old) processor.old.scenario done recorder.old }
    ensures past { done ≤ result }
    ensures within { result ≤ stop }
    ensures scenario { processor.new.scenario ≡ processor.old.scenario }
    ensures meter { processor.new.meter + done ≤ processor.old.meter + result }
    ensures state { machine.new ≡ run processor.old.scenario result }
    ensures silent { IsSilent processor.old.scenario done result }
    ensures kept { R.kept recorder.new ≡ R.kept recorder.old }
    ensures stands { R.Stands (R.kept recorder.old) processor.old.scenario result recorder.new }
{
    match processor.quiet_steps(machine) {
        Some(room) => {
            let end = done + room.min(stop - done);
            let at = record_quiet_steps(recorder, processor, machine, done, end);
            processor.count(at - done);
            at
        }
        None => done,
    }
}

/// The same up to a step before which all are quiet.
#[inline(always)]
fn record_quiet_steps<R: Recorder>(
    recorder: &mut R,
    processor: &Processor,
    machine: &mut Machine,
    done: u64,
    end: u64,
) -> u64
    requires within { done ≤ end }
    requires few { end ≤ 2 ^ 40 }
    requires quiet { IsQuiet processor.now.scenario machine.old (end - done) }
    requires state { machine.old ≡ run processor.now.scenario done }
    requires stands { R.Stands (R.kept recorder.old) processor.now.scenario done recorder.old }
    ensures past { done ≤ result }
    ensures within { result ≤ end }
    ensures state { machine.new ≡ run processor.now.scenario result }
    ensures silent { IsSilent processor.now.scenario done result }
    ensures kept { R.kept recorder.new ≡ R.kept recorder.old }
    ensures stands { R.Stands (R.kept recorder.old) processor.now.scenario result recorder.new }
{
    let mut at = done;
    while at < end {
        if !recorder.record_plain(processor, machine, at, end - at) {
            return at;
        }
        at += 1;
    }
    at
}
