//! The engine that runs a program, and notes what is seldom meant.

ghost use Rattle.std.specs.Prelude.{◌≡◌, ◌+◌, ◌-◌, ◌*◌, ◌≤◌, ◌<◌, ◌^◌, true, IfOk, OnOk};
ghost use Rattle.notes.specs.Counted.{Counted};
ghost use Rattle.notes.specs.RunNotes.{notes_text};
ghost use Rattle.workshop.specs.Failures.{reader, writer};
ghost use Rattle.workshop.specs.Inputs.{assembled};
ghost use Rattle.workshop.specs.Loading.{Reads, ReadsText, program_and_feed};
ghost use Rattle.workshop.specs.Notings.{EndsNoted, ReadsNamed, ReadsNamedImage, RunsNoted, named_of};
ghost use Rattle.workshop.specs.Notings.{out_and_notes, running_noted};
ghost use Rattle.workshop.specs.NotedProgress.{TellsNoted, TellsRead};
ghost use Rattle.workshop.specs.Progress.{TellsWritten, run_text, telling};
ghost use Rattle.workshop.specs.Runs.{Makes, summary_of};
ghost use Rattle.cpu.specs.Run.{run};
ghost use Rattle.cpu.specs.State.{Scenario, start};

use crate::engine::Summary;
use crate::fault::WorkshopFault;
use crate::inputs::{read_feed, read_program};
use crate::origin::Origin;
use crate::stepper::{Noting, run_all};
use cpu::{Machine, Processor};
use json_text::Notation;
use notes::{Notebook, write_notes};
use rope::{Rope, Version};
use std::alloc::Global;
use trace::PlaceNames;
use words::{Read, Write};
use yayul::{Language, NamedPlaces, Symbols};

/// The words of a program, its symbols, and the places that its words name.
#[derive(Drop)]
pub(crate) struct NamedCode {
    pub(crate) rope: Rope,
    pub(crate) symbols: Symbols,
    pub(crate) named: NamedPlaces,
}

/// Reads a program and then a feed, and runs the program for some steps, as `run_program` does; and writes then what
/// has happened in these steps that is seldom meant, as `NOTE QUOTIENT   02,4004  10100  DV D               STEP 5
/// CYCLES 13 TIMES 1`, or as JSON in an object.
///
/// Memory for the notes is taken once, before the first step. For the text of the notes steps are made again, up to the
/// last in which something has happened for the first time at its place. Where the run breaks off no note is written;
/// after a write of them that failed a beginning of them stands.
pub fn run_with_notes<P: Read, F: Read, W: Write, T: Write, N: Write>(
    alloc: Global,
    notation: Notation,
    origin: Origin,
    program: &mut P,
    feed: &mut F,
    steps: u64,
    out: &mut W,
    progress: &mut T,
    notes: &mut N,
) -> Result<Summary, WorkshopFault>
    requires { steps ≤ 2 ^ 40 - 2 }
    ensures runs { RunsNoted notation origin steps
        (running_noted (program_and_feed (reader P.Read program.old) (reader F.Read feed.old))
        (out_and_notes (writer W.Write out.old) (writer N.Write notes.old)))
        (running_noted (program_and_feed (reader P.Read program.new) (reader F.Read feed.new))
        (out_and_notes (writer W.Write out.new) (writer N.Write notes.new))) result }
    ensures handed_on { W.told ≡ true → 0 < steps → OnOk result (W.handed_on out.new ≡ W.written out.new) }
    ensures progress { TellsRead origin steps
        (program_and_feed (reader P.Read program.old) (reader F.Read feed.old))
        (program_and_feed (reader P.Read program.new) (reader F.Read feed.new))
        (telling (writer W.Write out.old) (writer T.Write progress.old))
        (telling (writer W.Write out.new) (writer T.Write progress.new)) result }
{
    let code = read_named(alloc, origin, program)?;
    let feed = read_feed(alloc, feed)?;
    let Ok(names) = PlaceNames::new(alloc, code.symbols) else {
        return Err(WorkshopFault::NoMemory);
    };
    let Ok(notebook) = Notebook::new(alloc, code.named) else {
        return Err(WorkshopFault::NoMemory);
    };
    let mut processor = Processor::new(code.rope, feed);
    run_then_note(
        notation,
        &mut processor,
        &names,
        notebook,
        steps,
        out,
        progress,
        notes,
    )
}

/// Reads a program, and which places its words name: those of an image none.
pub(crate) fn read_named<P: Read>(
    alloc: Global,
    origin: Origin,
    program: &mut P,
) -> Result<NamedCode, WorkshopFault>
    ensures { Reads (ReadsNamed origin)
        (reader P.Read program.old) (reader P.Read program.new) result }
{
    match origin {
        Origin::Source(language) => read_named_source(alloc, language, program),
        Origin::Image(version) => read_unnamed(alloc, version, program),
        Origin::NamedImage(version, _) => read_unnamed(alloc, version, program),
    }
}

/// Reads an image, whose words name no place.
fn read_unnamed<P: Read>(
    alloc: Global,
    version: Version,
    program: &mut P,
) -> Result<NamedCode, WorkshopFault>
    ensures { Reads (λ old new. ReadsNamedImage version old new)
        (reader P.Read program.old) (reader P.Read program.new) result }
{
    let Ok(named) = NamedPlaces::nothing(alloc) else {
        return Err(WorkshopFault::NoMemory);
    };
    let rope = Rope::read(alloc, program, version)?;
    Ok(NamedCode {
        rope,
        symbols: Symbols::new(alloc),
        named,
    })
}

/// Reads a source of a language, and which places its words name.
fn read_named_source<P: Read>(
    alloc: Global,
    language: Language,
    program: &mut P,
) -> Result<NamedCode, WorkshopFault>
    ensures { Reads (λ old new. ReadsText (named_of (assembled language old)) old new)
        (reader P.Read program.old) (reader P.Read program.new) result }
{
    let assembled = read_program(alloc, language, program)?;
    let Ok(named) = assembled.named_places(alloc) else {
        return Err(WorkshopFault::NoMemory);
    };
    let (rope, symbols) = assembled.split();
    Ok(NamedCode {
        rope,
        symbols,
        named,
    })
}

/// Makes some steps from the start, and then writes their notes: at most twice as many are made.
pub(crate) fn run_then_note<W: Write, T: Write, N: Write>(
    notation: Notation,
    processor: &mut Processor,
    names: &PlaceNames,
    notebook: Notebook,
    steps: u64,
    out: &mut W,
    progress: &mut T,
    notes: &mut N,
) -> Result<Summary, WorkshopFault>
    requires few { steps ≤ 2 ^ 40 - 2 }
    requires none { (scenario : Scenario) → Counted notebook.named scenario 0 notebook }
    ensures ends { EndsNoted (notes_text notation names.now notebook.named processor.old.scenario steps)
        processor.old.scenario steps
        (out_and_notes (writer W.Write out.old) (writer N.Write notes.old))
        (out_and_notes (writer W.Write out.new) (writer N.Write notes.new)) result }
    ensures handed_on { W.told ≡ true → 0 < steps → OnOk result (W.handed_on out.new ≡ W.written out.new) }
    ensures progress { TellsNoted (run_text processor.old.scenario) steps
        (telling (writer W.Write out.old) (writer T.Write progress.old))
        (telling (writer W.Write out.new) (writer T.Write progress.new)) result }
    ensures meter { processor.new.meter ≤ processor.old.meter + 2 * steps }
{
    let mut machine = Machine::start();
    let mut noting = Noting { notebook, lines: 0 };
    let summary = run_noting(&mut noting, processor, &mut machine, steps, out, progress)?;
    write_notes(
        notation,
        &mut noting.notebook,
        names,
        processor,
        &machine,
        steps,
        notes,
    )?;
    Ok(summary)
}

/// Makes some steps from the start, notes what happens in each, and writes the lines of what they put out, as a run
/// without notes does.
fn run_noting<W: Write, T: Write>(
    noting: &mut Noting,
    processor: &mut Processor,
    machine: &mut Machine,
    steps: u64,
    out: &mut W,
    progress: &mut T,
) -> Result<Summary, WorkshopFault>
    requires few { steps ≤ 2 ^ 40 - 2 }
    requires none { (scenario : Scenario) → Counted noting.old.notebook.named scenario 0 noting.old.notebook }
    requires lines { noting.old.lines ≡ 0 }
    requires start { machine.old ≡ start }
    ensures makes { Makes processor.old.scenario steps
        (writer W.Write out.old) (writer W.Write out.new) result }
    ensures scenario { processor.new.scenario ≡ processor.old.scenario }
    ensures end { OnOk result (machine.new ≡ run processor.old.scenario steps) }
    ensures named { OnOk result (noting.new.notebook.named ≡ noting.old.notebook.named) }
    ensures counted { OnOk result (Counted noting.new.notebook.named processor.old.scenario steps noting.new.notebook) }
    ensures summary { IfOk result (λ summary. summary ≡ summary_of processor.old.scenario steps) }
    ensures handed_on { W.told ≡ true → 0 < steps → OnOk result (W.handed_on out.new ≡ W.written out.new) }
    ensures progress { TellsWritten (run_text processor.old.scenario) steps
        (telling (writer W.Write out.old) (writer T.Write progress.old))
        (telling (writer W.Write out.new) (writer T.Write progress.new)) result }
    ensures meter { processor.new.meter ≤ processor.old.meter + steps }
{
    run_all(noting, processor, machine, steps, out, progress)?;
    Ok(Summary::of_run(steps, machine, noting.lines))
}
