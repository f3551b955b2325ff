//! The engine that traces a run.

ghost use Rattle.std.specs.Prelude.{◌≡◌, ◌+◌, ◌-◌, ◌≤◌, ◌<◌, ◌^◌, true, OnOk};
ghost use Rattle.say.specs.Said.{told_lines};
ghost use Rattle.workshop.specs.Failures.{reader, writer};
ghost use Rattle.workshop.specs.Progress.{TellsLoaded, TellsWritten, traced_text, telling};
ghost use Rattle.workshop.specs.Ropes.{WritesText};
ghost use Rattle.workshop.specs.Traces.{Traces};
ghost use Rattle.workshop.specs.Loading.{program_and_feed};
ghost use Rattle.workshop.specs.Runs.{running};

use crate::fault::WorkshopFault;
use crate::inputs::load;
use crate::origin::Origin;
use crate::stepper::{Tracing, run_all};
use cpu::{Machine, Processor};
use say::LineForm;
use std::alloc::Global;
use trace::PlaceNames;
use words::{Read, Write};

/// Reads a program and then a feed, makes some steps, and writes a line for each of them from a first one on, in a
/// form, as
/// `1        2        02,4000  34005  CA FIVE            A=000005`: the step, the cycles after it, what it is, what it
/// has read, where that is shown, what it has written, and the channel line of what it puts out; or its sentence.
///
/// The first fault of the program is answered, else that of the feed, and then nothing is written. After a write that
/// failed a beginning of the lines was written. Lines are handed on while it goes, and all of them where it has made
/// its steps.
///
/// It is told after each 2^20 steps how many were made, as `run_program` tells it.
pub fn trace_program<P: Read, F: Read, W: Write, T: Write>(
    alloc: Global,
    origin: Origin,
    program: &mut P,
    feed: &mut F,
    form: LineForm,
    first: u64,
    steps: u64,
    out: &mut W,
    progress: &mut T,
) -> Result<(), WorkshopFault>
    requires { steps ≤ 2 ^ 40 - 2 }
    ensures traces { Traces form origin first steps
        (running (reader P.Read program.old) (reader F.Read feed.old) (writer W.Write out.old))
        (running (reader P.Read program.new) (reader F.Read feed.new) (writer W.Write out.new)) result }
    ensures handed_on { W.told ≡ true → 0 < steps → OnOk result (W.handed_on out.new ≡ W.written out.new) }
    ensures progress { TellsLoaded (traced_text form first) origin (λ _. steps)
        (program_and_feed (reader P.Read program.old) (reader F.Read feed.old))
        (program_and_feed (reader P.Read program.new) (reader F.Read feed.new))
        (telling (writer W.Write out.old) (writer T.Write progress.old))
        (telling (writer W.Write out.new) (writer T.Write progress.new)) result }
{
    let loaded = load(alloc, origin, program, feed)?;
    let Ok(names) = PlaceNames::new(alloc, loaded.symbols) else {
        return Err(WorkshopFault::NoMemory);
    };
    let mut processor = Processor::new(loaded.rope, loaded.feed);
    let mut tracing = Tracing { form, names, first };
    trace(&mut tracing, &mut processor, steps, out, progress)
}

/// Makes some steps from the start, and writes the lines of those from a first one on.
fn trace<W: Write, T: Write>(
    tracing: &mut Tracing,
    processor: &mut Processor,
    steps: u64,
    out: &mut W,
    progress: &mut T,
) -> Result<(), WorkshopFault>
    requires { steps ≤ 2 ^ 40 - 2 }
    ensures writes { WritesText
        (told_lines tracing.old.form tracing.old.names processor.old.scenario tracing.old.first steps)
        (writer W.Write out.old) (writer W.Write out.new) result }
    ensures handed_on { W.told ≡ true → 0 < steps → OnOk result (W.handed_on out.new ≡ W.written out.new) }
    ensures progress { TellsWritten
        (told_lines tracing.old.form tracing.old.names processor.old.scenario tracing.old.first) steps
        (telling (writer W.Write out.old) (writer T.Write progress.old))
        (telling (writer W.Write out.new) (writer T.Write progress.new)) result }
{
    let mut machine = Machine::start();
    run_all(tracing, processor, &mut machine, steps, out, progress)?;
    Ok(())
}
