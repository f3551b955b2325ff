//! The engine that tells where two runs part.

ghost use Rattle.std.specs.Prelude.{◌≡◌, ◌-◌, ◌≤◌, ◌^◌, IfOk};
ghost use Rattle.differ.specs.DifferText.{named};
ghost use Rattle.workshop.specs.DifferRuns.{DifferRun, TellsBeside, TellsDiffer, named_of, pairing};
ghost use Rattle.workshop.specs.Failures.{reader, writer};
ghost use Rattle.workshop.specs.Loading.{program_and_feed};
ghost use Rattle.workshop.specs.Runs.{running};

use crate::fault::WorkshopFault;
use crate::inputs::{Loaded, load};
use crate::origin::Origin;
use cpu::Processor;
use differ::{NamedRun, write_differ};
use std::alloc::{AllocError, Global};
use trace::PlaceNames;
use words::{Read, Write};

/// A run of two.
#[derive(Clone, Copy)]
pub enum Side {
    /// The first.
    One,
    /// The other.
    Other,
}

/// Reads a program and its feed, and then another with its own, and writes where their runs of some steps part, and
/// where that is asked for, how what differs came about in at most so many steps: see `write_differ`.
///
/// The first fault of the first program is answered, else that of its feed, else that of the other program, else that
/// of its feed, else that memory ran out, and then nothing is written. It is told of which run the files were read
/// last. No memory is taken for the steps. After a write that failed a beginning of the text was written.
pub fn differ_program<P: Read, F: Read, Q: Read, G: Read, W: Write>(
    alloc: Global,
    origin: Origin,
    program: &mut P,
    feed: &mut F,
    other_origin: Origin,
    other: &mut Q,
    other_feed: &mut G,
    steps: u64,
    why: Option<u64>,
    last: &mut Side,
    out: &mut W,
) -> Result<(), WorkshopFault>
    requires { steps ≤ 2 ^ 40 - 2 }
    ensures { TellsDiffer origin other_origin steps why last.new
        (pairing (program_and_feed (reader P.Read program.old) (reader F.Read feed.old))
        (program_and_feed (reader Q.Read other.old) (reader G.Read other_feed.old)) (writer W.Write out.old))
        (pairing (program_and_feed (reader P.Read program.new) (reader F.Read feed.new))
        (program_and_feed (reader Q.Read other.new) (reader G.Read other_feed.new)) (writer W.Write out.new)) result }
{
    *last = Side::One;
    let loaded = load(alloc, origin, program, feed)?;
    *last = Side::Other;
    differ_beside(
        alloc,
        loaded,
        other_origin,
        other,
        other_feed,
        steps,
        why,
        out,
    )
}

/// Reads a program and its feed, and tells where their run and that of what was read before part.
fn differ_beside<Q: Read, G: Read, W: Write>(
    alloc: Global,
    loaded: Loaded,
    origin: Origin,
    other: &mut Q,
    feed: &mut G,
    steps: u64,
    why: Option<u64>,
    out: &mut W,
) -> Result<(), WorkshopFault>
    requires { steps ≤ 2 ^ 40 - 2 }
    ensures { TellsBeside origin (named_of loaded) steps why
        (running (reader Q.Read other.old) (reader G.Read feed.old) (writer W.Write out.old))
        (running (reader Q.Read other.new) (reader G.Read feed.new) (writer W.Write out.new)) result }
{
    let beside = load(alloc, origin, other, feed)?;
    differ(alloc, loaded, beside, steps, why, out)
}

/// Tells where the runs of what was read part.
fn differ<W: Write>(
    alloc: Global,
    loaded: Loaded,
    beside: Loaded,
    steps: u64,
    why: Option<u64>,
    out: &mut W,
) -> Result<(), WorkshopFault>
    requires { steps ≤ 2 ^ 40 - 2 }
    ensures { DifferRun (named_of loaded) (named_of beside) steps why
        (writer W.Write out.old) (writer W.Write out.new) result }
{
    let Ok(mut one) = named_run(alloc, loaded) else {
        return Err(WorkshopFault::NoMemory);
    };
    let Ok(mut other) = named_run(alloc, beside) else {
        return Err(WorkshopFault::NoMemory);
    };
    write_differ(&mut one, &mut other, steps, why, out)?;
    Ok(())
}

/// The run of what was read. An `Err` is that memory ran out.
fn named_run(alloc: Global, loaded: Loaded) -> Result<NamedRun, AllocError>
    ensures { IfOk result (λ r. named r ≡ named_of loaded) }
{
    let names = PlaceNames::new(alloc, loaded.symbols)?;
    Ok(NamedRun {
        names,
        processor: Processor::new(loaded.rope, loaded.feed),
    })
}
