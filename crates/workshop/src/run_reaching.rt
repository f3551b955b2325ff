//! The engine that shows what is reached beside a run.

ghost use Rattle.std.specs.Prelude.{◌≡◌, ◌-◌, ◌≤◌, ◌^◌, IfOk, ℕ};
ghost use Rattle.cpu.specs.State.{Scenario};
ghost use Rattle.reach.specs.Executed.{HasExecuted, run_roots};
ghost use Rattle.reach.specs.Marks.{AreReached};
ghost use Rattle.reach.specs.Named.{with_named};
ghost use Rattle.reach.specs.Roots.{AreShown, all_roots};
ghost use Rattle.reach.specs.Ways.{vectors};
ghost use Rattle.workshop.specs.Failures.{reader, writer};
ghost use Rattle.workshop.specs.RunReaches.{AreExecuted, Finds, FindsRun};
ghost use Rattle.workshop.specs.Runs.{running};

use crate::addressing::read_addressing;
use crate::fault::WorkshopFault;
use crate::inputs::read_feed;
use crate::origin::Origin;
use addressed::AddressedPlaces;
use cover::Shown;
use cpu::{Machine, Processor};
use reach::{
    Executed, Found, Roots, reached_from_vectors, reached_with_run, reached_with_run_and_named,
    write_reach,
};
use rope::Rope;
use std::alloc::{AllocError, Global};
use words::{Read, Write};

/// Reads a program and then a feed, makes some steps, and writes the rows of its source's listing, or the words of its
/// image, each after the kind of root from which a way leads to it, and whether the run has not executed it. Where
/// roots are shown each has the first behind it from which a way leads to its word.
///
/// The first fault of the program is answered, else that of the feed, else that memory ran out, and then nothing is
/// written. After a write that failed a beginning of the text was written.
pub fn reach_run<P: Read, F: Read, W: Write>(
    alloc: Global,
    origin: Origin,
    program: &mut P,
    feed: &mut F,
    steps: u64,
    shows_roots: bool,
    out: &mut W,
) -> Result<(), WorkshopFault>
    requires { steps ≤ 2 ^ 40 - 2 }
    ensures { Finds origin steps shows_roots
        (running (reader P.Read program.old) (reader F.Read feed.old) (writer W.Write out.old))
        (running (reader P.Read program.new) (reader F.Read feed.new) (writer W.Write out.new)) result }
{
    let addressing = read_addressing(alloc, origin, program)?;
    let processor = Processor::new(addressing.rope, read_feed(alloc, feed)?);
    write_run_reached(
        alloc,
        &addressing.rows,
        &addressing.places,
        processor,
        steps,
        shows_roots,
        out,
    )
}

/// Makes some steps from the start, and writes what is found.
fn write_run_reached<W: Write>(
    alloc: Global,
    rows: &Shown,
    places: &AddressedPlaces,
    processor: Processor,
    steps: u64,
    shows_roots: bool,
    out: &mut W,
) -> Result<(), WorkshopFault>
    requires { steps ≤ 2 ^ 40 - 2 }
    ensures { FindsRun rows.now places.now processor.scenario steps shows_roots
        (writer W.Write out.old) (writer W.Write out.new) result }
{
    let mut processor = processor;
    let Ok(found) = found(alloc, &mut processor, places, steps, shows_roots) else {
        return Err(WorkshopFault::NoMemory);
    };
    write_reach(&found, processor.rope(), rows, out)?;
    Ok(())
}

/// What is reached from the vectors, from these and all that some steps execute, and from all of these and some places;
/// and what the steps execute; and the roots.
fn found(
    alloc: Global,
    processor: &mut Processor,
    places: &AddressedPlaces,
    steps: u64,
    shows_roots: bool,
) -> Result<Found, AllocError>
    requires { steps ≤ 2 ^ 40 - 2 }
    ensures scenario { processor.new.scenario ≡ processor.old.scenario }
    ensures start { IfOk result (λ found. AreReached processor.old.scenario.rope vectors found.start) }
    ensures run { IfOk result (λ found. AreReached processor.old.scenario.rope (run_roots processor.old.scenario steps)
        found.run) }
    ensures named { IfOk result (λ found. AreReached processor.old.scenario.rope
        (with_named places.now (run_roots processor.old.scenario steps)) found.named) }
    ensures done { IfOk result (λ found. AreExecuted processor.old.scenario steps found.done) }
    ensures roots { IfOk result (λ found. AreShown shows_roots processor.old.scenario.rope
        (all_roots processor.old.scenario steps places.now) found.roots) }
{
    let mut done = Executed::new(alloc)?;
    let mut machine = Machine::start();
    done.make_steps(processor, &mut machine, 0, steps)?;
    let start = reached_from_vectors(alloc, processor.rope())?;
    let run = reached_with_run(alloc, processor.rope(), &done)?;
    let named = reached_with_run_and_named(alloc, processor.rope(), &done, places.as_slice())?;
    let roots = roots(alloc, processor.rope(), &done, places, shows_roots)?;
    Ok(Found::new(start, run, named, done, roots))
}

/// The roots, where they are shown.
fn roots(
    alloc: Global,
    rope: &Rope,
    done: &Executed,
    places: &AddressedPlaces,
    shows_roots: bool,
) -> Result<Option<Roots>, AllocError>
    ensures { IfOk result (λ roots. (scenario : Scenario) (n : ℕ) → HasExecuted scenario n done.now
        → AreShown shows_roots rope.now (all_roots scenario n places.now) roots) }
{
    if !shows_roots {
        return Ok(None);
    }
    let roots = Roots::beside_run(alloc, rope, done, places.as_slice())?;
    Ok(Some(roots))
}
