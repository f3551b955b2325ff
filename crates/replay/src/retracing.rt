//! Making steps once more, each of them written.

ghost use Rattle.std.specs.Prelude.{◌≡◌, ◌-◌, ◌≤◌, ℕ, List, true, OnOk};
ghost use Rattle.words.specs.Devices.{Writes, failures_after};
ghost use Rattle.cpu.specs.State.{State, Scenario, FitsRun};
ghost use Rattle.cpu.specs.Next.{next, most_cycles};
ghost use Rattle.cpu.specs.Run.{run};
ghost use Rattle.replay.specs.Retraced.{texts_after};
ghost use Rattle.replay.specs.View.{counted};
ghost use Rattle.replay.specs.Gone.{CanGo, HasGone};

use crate::showing::Shown;
use cpu::{Machine, Processor};
use words::{Write, WriteFailed};

/// What makes a step, and writes a text of it.
pub trait StepWriter {
    /// Its text, by what runs, the number of the step and the state before it.
    ghost text: { Self → Scenario → ℕ → State → List ℕ };

    /// Makes a step as the processor does, and writes its text.
    fn write_step<W: Write>(
        &self,
        processor: &mut Processor,
        machine: &mut Machine,
        number: u64,
        out: &mut W,
    ) -> Result<(), WriteFailed>
        requires cycles { machine.old.cycles ≤ most_cycles }
        requires fits { FitsRun processor.old.scenario machine.old }
        ensures processor { processor.new ≡ record processor.old { meter = counted processor.old.meter } }
        ensures state { machine.new ≡ (next processor.old.scenario machine.old).0 }
        ensures written { W.told ≡ true →
            Writes (W.written out.old) (W.written out.new) (text self.now processor.old.scenario number machine.old)
            result }
        ensures failures { W.failures out.new ≡ failures_after (W.failures out.old) result };
}

/// Makes the steps up to `high`, and writes their texts; the machine stands at `low`.
pub(crate) fn write_steps<T: StepWriter, W: Write>(
    writer: &T,
    processor: &mut Processor,
    shown: &mut Shown,
    low: u64,
    high: u64,
    out: &mut W,
) -> Result<(), WriteFailed>
    requires order { low ≤ high }
    requires way { CanGo processor.old shown.old.machine low high }
    requires there { shown.old.step ≡ low }
    ensures written { W.told ≡ true →
        Writes (W.written out.old) (W.written out.new)
        (texts_after (T.text writer.now processor.old.scenario) processor.old.scenario low (high - low)) result }
    ensures failures { W.failures out.new ≡ failures_after (W.failures out.old) result }
    ensures gone { HasGone processor.old processor.new low high }
    ensures stands { shown.new.machine ≡ run processor.old.scenario shown.new.step }
    ensures within { shown.new.step ≤ high }
    ensures all { OnOk result (shown.new.step ≡ high) }
{
    for at in low..high {
        shown.step = at + 1;
        writer.write_step(processor, &mut shown.machine, at + 1, out)?;
    }
    Ok(())
}
