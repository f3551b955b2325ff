//! The engine that runs a source with lines of the interpretive language, which are holes, up to the first of them.

ghost use Rattle.std.specs.Prelude.{◌≡◌, ◌-◌, ◌≤◌, ◌<◌, ◌^◌, IfSome};
ghost use Rattle.holes.specs.HoleRuns.{steps_made};
ghost use Rattle.workshop.specs.Failures.{reader, writer};
ghost use Rattle.workshop.specs.HoledRuns.{RunsHoled, RunsToHole, TellsFound, holed_running, stopping};

use crate::engine::{Summary, run};
use crate::fault::WorkshopFault;
use crate::inputs::read_feed;
use crate::progress::Unheard;
use cpu::Processor;
use feed::Feed;
use holes::{FoundHole, assemble_with_holes, first_hole, write_hole};
use rope::Rope;
use std::alloc::Global;
use words::{Read, Write};
use yayul::{Program, SourceRows};

/// What a run of a source with holes has come to.
#[derive(Clone, Copy, Debug, Drop)]
pub struct HoledSummary {
    /// The steps that were made.
    pub summary: Summary,
    /// Whether it has stopped at a hole.
    pub has_stopped: bool,
}

/// Assembles a source of the language of flight programs, in which each line of the interpretive language is a hole,
/// reads a feed, and runs the program for some steps, as `run_program` does; but before a step that would fetch the
/// word of a hole it stops, and tells the hole, as `agcws: HOLE AT STEP 12:     7 02,4001 00000  ..`, with its row in
/// the listing. Which hole that is `holes::first_hole` says. Its steps are made twice: to find the hole, before
/// anything is written, and to write what they put out.
///
/// The first fault of the source is answered, else that of the feed, and then nothing is written.
pub fn run_to_hole<F: Read, W: Write, E: Write>(
    alloc: Global,
    source: &[u8],
    feed: &mut F,
    steps: u64,
    out: &mut W,
    errors: &mut E,
) -> Result<HoledSummary, WorkshopFault>
    requires { steps ≤ 2 ^ 40 - 2 }
    ensures { RunsToHole source.now steps
        (holed_running (reader F.Read feed.old) (stopping (writer W.Write out.old) (writer E.Write errors.old)))
        (holed_running (reader F.Read feed.new) (stopping (writer W.Write out.new) (writer E.Write errors.new)))
        result }
{
    let (program, other) = assemble_with_holes(alloc, source)?;
    let feed = read_feed(alloc, feed)?;
    run_holed(program, &other, feed, steps, out, errors)
}

/// Runs a program with holes, up to the first of them.
fn run_holed<W: Write, E: Write>(
    program: Program,
    other: &Rope,
    feed: Feed,
    steps: u64,
    out: &mut W,
    errors: &mut E,
) -> Result<HoledSummary, WorkshopFault>
    requires { steps ≤ 2 ^ 40 - 2 }
    ensures { RunsHoled program other.now feed steps
        (stopping (writer W.Write out.old) (writer E.Write errors.old))
        (stopping (writer W.Write out.new) (writer E.Write errors.new)) result }
{
    let (rope, _, rows) = program.split_all();
    let mut processor = Processor::new(rope, feed);
    let found = first_hole(&mut processor, other, steps);
    let made = steps_made(&found, steps);
    let summary = run(&mut processor, made, out, &mut Unheard)?;
    tell_hole(&found, &summary, &rows, processor.rope(), errors)
}

/// How many steps are made: those before a hole, or all.
fn steps_made(found: &Option<FoundHole>, steps: u64) -> u64
    requires { IfSome found.now (λ hole. hole.steps < steps) }
    ensures value { result ≡ steps_made found.now steps }
    ensures within { result ≤ steps }
{
    match found {
        Some(hole) => hole.steps,
        None => steps,
    }
}

/// Tells the hole at which a run has stopped, where it has, and what the run has come to.
fn tell_hole<E: Write>(
    found: &Option<FoundHole>,
    summary: &Summary,
    rows: &SourceRows,
    words: &Rope,
    errors: &mut E,
) -> Result<HoledSummary, WorkshopFault>
    requires { IfSome found.now (λ hole. hole.steps < 2 ^ 40) }
    ensures { TellsFound rows.now words.now found.now summary.now
        (writer E.Write errors.old) (writer E.Write errors.new) result }
{
    let Some(hole) = found else {
        return Ok(HoledSummary {
            summary: *summary,
            has_stopped: false,
        });
    };
    write_hole(hole, rows, words, errors)?;
    Ok(HoledSummary {
        summary: *summary,
        has_stopped: true,
    })
}
