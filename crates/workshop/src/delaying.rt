//! The engine that tells how long the interrupts of a run waited.

ghost use Rattle.std.specs.Prelude.{◌≡◌, ◌-◌, ◌≤◌, ◌^◌, true};
ghost use Rattle.workshop.specs.DelayRuns.{DelaysRun, TellsDelays};
ghost use Rattle.workshop.specs.Failures.{reader, writer};
ghost use Rattle.workshop.specs.Inputs.{scenario_of};
ghost use Rattle.workshop.specs.Progress.{TellsProfile};
ghost use Rattle.workshop.specs.Runs.{running};

use crate::fault::WorkshopFault;
use crate::inputs::{Loaded, load};
use crate::origin::Origin;
use crate::stepper::{Counting, count_all};
use cpu::{Machine, Processor};
use delays::{Delays, write_delays};
use std::alloc::Global;
use trace::PlaceNames;
use words::{Read, Write};

/// Reads a program and then a feed, makes some steps, and writes how long each interrupt waited, and for how long none
/// could come.
///
/// The first fault of the program is answered, else that of the feed, else that memory ran out, and then nothing is
/// written. Memory is taken once, before the first step. After a write that failed a beginning of the text was written.
///
/// It is told after each 2^20 steps how many were made, as `run_program` tells it.
pub fn delays_program<P: Read, F: Read, W: Write, T: Write>(
    alloc: Global,
    origin: Origin,
    program: &mut P,
    feed: &mut F,
    steps: u64,
    out: &mut W,
    progress: &mut T,
) -> Result<(), WorkshopFault>
    requires { steps ≤ 2 ^ 40 - 2 }
    ensures delays { TellsDelays origin steps
        (running (reader P.Read program.old) (reader F.Read feed.old) (writer W.Write out.old))
        (running (reader P.Read program.new) (reader F.Read feed.new) (writer W.Write out.new)) result }
    ensures progress { TellsProfile steps (writer T.Write progress.old)
        (writer T.Write progress.new) result }
{
    let loaded = load(alloc, origin, program, feed)?;
    delays(alloc, loaded, steps, out, progress)
}

/// Makes some steps of what was read, and writes how long interrupts waited.
fn delays<W: Write, T: Write>(
    alloc: Global,
    loaded: Loaded,
    steps: u64,
    out: &mut W,
    progress: &mut T,
) -> Result<(), WorkshopFault>
    requires { steps ≤ 2 ^ 40 - 2 }
    ensures delays { DelaysRun loaded.symbols (scenario_of loaded) steps
        (writer W.Write out.old) (writer W.Write out.new) result }
    ensures progress { TellsProfile steps (writer T.Write progress.old)
        (writer T.Write progress.new) result }
{
    let Ok(names) = PlaceNames::new(alloc, loaded.symbols) else {
        return Err(WorkshopFault::NoMemory);
    };
    let Ok(mut kept) = Delays::new(alloc) else {
        return Err(WorkshopFault::NoMemory);
    };
    let mut processor = Processor::new(loaded.rope, loaded.feed);
    count_all(&mut kept, &mut processor, steps, progress);
    write_delays(&kept, &names, processor.rope(), out)?;
    Ok(())
}

impl Counting for Delays {
    ghost use Rattle.delays.specs.Tallies.{Measures};

    type Kept = ();

    ghost kept = { λ _. tt };

    ghost Stands = { λ _ scenario n delays. Measures scenario n delays };

    fn count(&mut self, processor: &mut Processor, machine: &mut Machine, done: u64, stop: u64) {
        self.make_steps(processor, machine, done, stop);
    }
}
