//! The engine that counts the reads and writes of a run.

ghost use Rattle.std.specs.Prelude.{◌≡◌, ◌-◌, ◌≤◌, ◌^◌, true};
ghost use Rattle.std.specs.Option.{option_map};
ghost use Rattle.access.specs.Tallies.{Counts};
ghost use Rattle.workshop.specs.AccessRuns.{Counted, CountsAccesses, CountsRun, TellsCounted};
ghost use Rattle.workshop.specs.Failures.{reader, writer};
ghost use Rattle.workshop.specs.Inputs.{scenario_of};
ghost use Rattle.workshop.specs.Runs.{running};

use crate::fault::WorkshopFault;
use crate::inputs::{Loaded, load};
use crate::origin::Origin;
use crate::stepper::{Counting, count_all};
use access::{Tally, View, view_asked, write_accesses};
use cpu::{Machine, Processor};
use std::alloc::Global;
use trace::PlaceNames;
use words::{Read, Write};

/// Reads a program and then a feed, makes some steps, and writes how often each cell was read and written at each
/// level; or where a cell is asked for, by which places. Answers whether there is this cell; where there is none no
/// step is made.
///
/// The first fault of the program is answered, else that of the feed, else that memory ran out, and then nothing is
/// written. Memory for the counts is taken once, before the first step. After a write that failed a beginning of the
/// text was written.
///
/// It is told after each 2^20 steps how many were made, as `run_program` tells it.
pub fn access_program<P: Read, F: Read, W: Write, T: Write>(
    alloc: Global,
    origin: Origin,
    program: &mut P,
    feed: &mut F,
    place: Option<&[u8]>,
    steps: u64,
    out: &mut W,
    progress: &mut T,
) -> Result<bool, WorkshopFault>
    requires { steps ≤ 2 ^ 40 - 2 }
    ensures counts { CountsAccesses (option_map (λ text. text.now) place.entry) origin steps
        (running (reader P.Read program.old) (reader F.Read feed.old) (writer W.Write out.old))
        (running (reader P.Read program.new) (reader F.Read feed.new) (writer W.Write out.new)) result }
    ensures progress { TellsCounted steps (writer T.Write progress.old)
        (writer T.Write progress.new) result }
{
    let loaded = load(alloc, origin, program, feed)?;
    access(alloc, loaded, place, steps, out, progress)
}

/// Makes some steps of what was read, and writes what they read and write.
#[tactic(auto, using(crate::proofs::AccessCounts::counts_none, crate::proofs::AccessCounts::counts_some))]
fn access<W: Write, T: Write>(
    alloc: Global,
    loaded: Loaded,
    place: Option<&[u8]>,
    steps: u64,
    out: &mut W,
    progress: &mut T,
) -> Result<bool, WorkshopFault>
    requires { steps ≤ 2 ^ 40 - 2 }
    ensures counts { CountsRun (option_map (λ text. text.now) place.entry) loaded.symbols (scenario_of loaded) steps
        (writer W.Write out.old) (writer W.Write out.new) result }
    ensures progress { TellsCounted steps (writer T.Write progress.old)
        (writer T.Write progress.new) result }
{
    let Some(view) = view_asked(&loaded.symbols, place) else {
        return Ok(false);
    };
    let Ok(names) = PlaceNames::new(alloc, loaded.symbols) else {
        return Err(WorkshopFault::NoMemory);
    };
    let Ok(mut tally) = Tally::new(alloc, view) else {
        return Err(WorkshopFault::NoMemory);
    };
    let mut processor = Processor::new(loaded.rope, loaded.feed);
    count(&names, &mut processor, &mut tally, steps, out, progress)
}

/// Makes some steps from the start, and writes what they read and write.
fn count<W: Write, T: Write>(
    names: &PlaceNames,
    processor: &mut Processor,
    tally: &mut Tally,
    steps: u64,
    out: &mut W,
    progress: &mut T,
) -> Result<bool, WorkshopFault>
    requires few { steps ≤ 2 ^ 40 - 2 }
    requires none { Counts tally.old.view processor.old.scenario 0 tally.old }
    ensures counts { Counted tally.old.view names.now processor.old.scenario steps
        (writer W.Write out.old) (writer W.Write out.new) result }
    ensures progress { TellsCounted steps (writer T.Write progress.old)
        (writer T.Write progress.new) result }
{
    count_all(tally, processor, steps, progress);
    write_accesses(tally, names, processor.rope(), out)?;
    Ok(true)
}

impl Counting for Tally {
    ghost use Rattle.access.specs.Tallies.{Counts};

    type Kept = View;

    ghost kept = { λ tally. tally.view };

    ghost Stands = { λ view scenario n tally. Counts view scenario n tally };

    fn count(&mut self, processor: &mut Processor, machine: &mut Machine, done: u64, stop: u64) {
        self.make_steps(processor, machine, done, stop);
    }
}
