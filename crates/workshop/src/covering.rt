//! The engine that profiles a run.

ghost use Rattle.std.specs.Prelude.{◌≡◌, IfOk, Some, ◌-◌, ◌≤◌, ◌^◌, true};
ghost use Rattle.words.specs.Devices.{Writes, failures_after};
ghost use Rattle.cover.specs.CoverText.{cover_text, profile_text, total_of};
ghost use Rattle.cover.specs.Tallies.{figures_at};
ghost use Rattle.workshop.specs.Covers.{Covers, CoversRun, ReadsImaged, ReadsSubject, names_shown, subject_of};
ghost use Rattle.workshop.specs.Failures.{reader, writer};
ghost use Rattle.workshop.specs.Inputs.{assembled};
ghost use Rattle.workshop.specs.Loading.{Reads, ReadsText};
ghost use Rattle.workshop.specs.Progress.{TellsProfile};
ghost use Rattle.workshop.specs.Runs.{running};

use crate::fault::WorkshopFault;
use crate::inputs::{read_feed, read_program};
use crate::origin::Origin;
use crate::stepper::{Counting, count_all};
use cover::{Figures, Shown, Tally, write_image_profile, write_source_profile};
use cpu::{Machine, Processor};
use json_text::Notation;
use rope::{Rope, Version};
use std::alloc::{AllocError, Global};
use trace::PlaceNames;
use words::{Read, Write, WriteFailed};
use yayul::{Language, Symbols};

/// Reads a program and then a feed, makes some steps, and writes how often each word was executed and the cycles that
/// this took: before the rows of a source's listing, or before the words of an image; as JSON in an object of each row.
///
/// The first fault of the program is answered, else that of the feed, else that memory ran out, and then nothing is
/// written. Memory for the figures is taken once, before the first step. After a write that failed a beginning of the
/// text was written.
///
/// It is told after each 2^20 steps how many were made, as `run_program` tells it.
pub fn cover_program<P: Read, F: Read, W: Write, T: Write>(
    alloc: Global,
    notation: Notation,
    origin: Origin,
    program: &mut P,
    feed: &mut F,
    steps: u64,
    out: &mut W,
    progress: &mut T,
) -> Result<(), WorkshopFault>
    requires { steps ≤ 2 ^ 40 - 2 }
    ensures covers { Covers notation origin steps
        (running (reader P.Read program.old) (reader F.Read feed.old) (writer W.Write out.old))
        (running (reader P.Read program.new) (reader F.Read feed.new) (writer W.Write out.new)) result }
    ensures progress { TellsProfile steps (writer T.Write progress.old)
        (writer T.Write progress.new) result }
{
    let (rope, rows) = read_subject(alloc, notation, origin, program)?;
    let mut processor = Processor::new(rope, read_feed(alloc, feed)?);
    cover(alloc, notation, &rows, &mut processor, steps, out, progress)
}

/// Reads the words of a program, and what is shown of it.
pub(crate) fn read_subject<P: Read>(
    alloc: Global,
    notation: Notation,
    origin: Origin,
    program: &mut P,
) -> Result<(Rope, Shown), WorkshopFault>
    ensures { Reads (ReadsSubject notation origin)
        (reader P.Read program.old) (reader P.Read program.new) result }
{
    match origin {
        Origin::Source(language) => read_source(alloc, notation, language, program),
        Origin::Image(version) => {
            let rope = Rope::read(alloc, program, version)?;
            Ok((rope, Shown::Image(None)))
        }
        Origin::NamedImage(version, names) => read_named_image(alloc, version, names, program),
    }
}

/// Reads a source of a language, with the names that are shown of its places.
fn read_source<P: Read>(
    alloc: Global,
    notation: Notation,
    language: Language,
    program: &mut P,
) -> Result<(Rope, Shown), WorkshopFault>
    ensures { Reads (λ old new. ReadsText (subject_of notation (assembled language old)) old new)
        (reader P.Read program.old) (reader P.Read program.new) result }
{
    let (rope, symbols, rows) = read_program(alloc, language, program)?.split_all();
    let Ok(names) = names_shown(alloc, notation, symbols) else {
        return Err(WorkshopFault::NoMemory);
    };
    Ok((rope, Shown::Source(rows, names)))
}

/// The names that are shown of a source's places. An `Err` is that memory ran out.
fn names_shown(
    alloc: Global,
    notation: Notation,
    symbols: Symbols,
) -> Result<Option<PlaceNames>, AllocError>
    ensures { IfOk result (λ names. names ≡ names_shown notation symbols) }
{
    match notation {
        Notation::Text => Ok(None),
        Notation::Json => Ok(Some(PlaceNames::new(alloc, symbols)?)),
    }
}

/// Reads an image for whose places some names stand.
fn read_named_image<P: Read>(
    alloc: Global,
    version: Version,
    names: Symbols,
    program: &mut P,
) -> Result<(Rope, Shown), WorkshopFault>
    ensures { Reads (λ old new. ReadsImaged version (Some names) old new)
        (reader P.Read program.old) (reader P.Read program.new) result }
{
    let Ok(names) = PlaceNames::new(alloc, names) else {
        return Err(WorkshopFault::NoMemory);
    };
    let rope = Rope::read(alloc, program, version)?;
    Ok((rope, Shown::Image(Some(names))))
}

/// Makes some steps from the start, and writes their profile.
fn cover<W: Write, T: Write>(
    alloc: Global,
    notation: Notation,
    rows: &Shown,
    processor: &mut Processor,
    steps: u64,
    out: &mut W,
    progress: &mut T,
) -> Result<(), WorkshopFault>
    requires { steps ≤ 2 ^ 40 - 2 }
    ensures covers { CoversRun notation rows.now processor.old.scenario steps
        (writer W.Write out.old) (writer W.Write out.new) result }
    ensures progress { TellsProfile steps (writer T.Write progress.old)
        (writer T.Write progress.new) result }
{
    let Ok(mut tally) = Tally::new(alloc) else {
        return Err(WorkshopFault::NoMemory);
    };
    let cycles = count_all(&mut tally, processor, steps, progress);
    let total = Figures {
        count: steps,
        cycles,
    };
    write_profile(notation, &tally, total, processor.rope(), rows, out)?;
    Ok(())
}

/// Writes a profile: of a source its rows, of an image its words.
fn write_profile<W: Write>(
    notation: Notation,
    tally: &Tally,
    total: Figures,
    rope: &Rope,
    rows: &Shown,
    out: &mut W,
) -> Result<(), WriteFailed>
    ensures written { W.told ≡ true → Writes (W.written out.old) (W.written out.new)
        (profile_text notation (figures_at tally.now) total rope.now rows.now) result }
    ensures failures { W.failures out.new ≡ failures_after (W.failures out.old) result }
{
    match rows {
        Shown::Source(rows, names) => {
            write_source_profile(notation, names, tally, total, rope, rows, out)
        }
        Shown::Image(names) => write_image_profile(notation, tally, total, rope, names, out),
    }
}

impl Counting for Tally {
    ghost use Rattle.cover.specs.Tallies.{Counts};

    type Kept = ();

    ghost kept = { λ _. tt };

    ghost Stands = { λ _ scenario n tally. Counts scenario n tally };

    fn count(&mut self, processor: &mut Processor, machine: &mut Machine, done: u64, stop: u64) {
        self.make_steps(processor, machine, done, stop);
    }
}
