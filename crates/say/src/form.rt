//! In which form the steps of a run are told.

ghost use Rattle.std.specs.Prelude.{◌≡◌, ◌+◌, ◌-◌, ◌^◌, ◌≤◌, min, true};
ghost use Rattle.words.specs.Devices.{Writes, failures_after};
ghost use Rattle.cpu.specs.Next.{next};
ghost use Rattle.cpu.specs.State.{FitsRun};
ghost use Rattle.say.specs.Said.{told_line};

use crate::line::say_step;
use cpu::{Machine, Processor};
use trace::{Names, trace_step};
use words::{Write, WriteFailed};

/// In which form the steps of a run are told.
#[derive(Clone, Copy, PartialEq, Eq, Debug, Drop)]
pub enum LineForm {
    /// As `trace_step` has them.
    Steps,
    /// With what each step reads.
    StepsAndReads,
    /// With a sentence of what each step did.
    Sentences,
}

/// Makes a step, and writes its line in a form.
///
/// After a failure a beginning of the line was written.
pub fn tell_step<N: Names, W: Write>(
    form: LineForm,
    names: &N,
    processor: &mut Processor,
    machine: &mut Machine,
    number: u64,
    out: &mut W,
) -> Result<(), WriteFailed>
    requires cycles { machine.old.cycles ≤ 2 ^ 62 }
    requires fits { FitsRun processor.old.scenario machine.old }
    ensures processor { processor.new ≡ record processor.old { meter = min (processor.old.meter + 1) (2 ^ 128 - 1) } }
    ensures scenario { processor.new.scenario ≡ processor.old.scenario }
    ensures state { machine.new ≡ (next processor.old.scenario machine.old).0 }
    ensures written { W.told ≡ true →
        Writes (W.written out.old) (W.written out.new)
        (told_line form (N.table names.now) processor.old.scenario number machine.old) result }
    ensures failures { W.failures out.new ≡ failures_after (W.failures out.old) result }
{
    match form {
        LineForm::Steps => trace_step(false, names, processor, machine, number, out),
        LineForm::StepsAndReads => trace_step(true, names, processor, machine, number, out),
        LineForm::Sentences => say_step(names, processor, machine, number, out),
    }
}
