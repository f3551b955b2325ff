//! The notes of a run in a notation.

ghost use Rattle.std.specs.Prelude.{◌≡◌, ◌+◌, ◌-◌, ◌<◌, ◌≤◌, ◌^◌, ◌++◌, true, OnOk};
ghost use Rattle.words.specs.Devices.{Writes, failures_after};
ghost use Rattle.cpu.specs.Next.{next};
ghost use Rattle.cpu.specs.Run.{run};
ghost use Rattle.cpu.specs.State.{FitsRun};
ghost use Rattle.cover.specs.Tallies.{IsAccount};
ghost use Rattle.notes.specs.Counted.{Counted, Takes, listed_text, taken_at, told_of};
ghost use Rattle.notes.specs.RunNotes.{end_text, here, notes_text, steps_text, text_after};
ghost use Rattle.notes.specs.Unread.{unread_text};
ghost use Rattle.notes.specs.Waits.{Keeps, kept_text};

use crate::first_steps::FirstStep;
use crate::lines::{Heading, end_lines, lines_of, what_in};
use crate::notebook::{NOTHING, Notebook, Told};
use crate::past::Past;
use crate::step::account_of;
use crate::unread::write_unread;
use crate::waits::Waits;
use cover::number_of;
use cpu::{Machine, Processor, make_step};
use json_text::Notation;
use trace::PlaceNames;
use words::{Write, WriteFailed, write_all};

/// Writes the notes of the first steps of a run, of which some are made again: as text as
/// `NOTE QUOTIENT   02,4004  10100  DV D               STEP 5 CYCLES 13 TIMES 1`: the kind, what its first step is,
/// that step and the cycles after it, and how often; as JSON as an object with the same. They stand in the order of
/// their first steps.
///
/// What is told is taken from the notebook, and what is told of the run's end from the machine that stands there. After
/// a failure a beginning of the text was written. Only steps up to the last are made in which something happened for
/// the first time: many at once, where each such step is listed, else one by one.
pub fn write_notes<W: Write>(
    notation: Notation,
    notebook: &mut Notebook,
    names: &PlaceNames,
    processor: &mut Processor,
    end: &Machine,
    steps: u64,
    out: &mut W,
) -> Result<(), WriteFailed>
    requires few { steps ≤ 2 ^ 40 }
    requires end { end.now ≡ run processor.old.scenario steps }
    requires counted { Counted notebook.old.named processor.old.scenario steps notebook.old }
    ensures written { W.told ≡ true → Writes (W.written out.old) (W.written out.new)
        (notes_text notation names.now notebook.old.named processor.old.scenario steps) result }
    ensures failures { W.failures out.new ≡ failures_after (W.failures out.old) result }
    ensures meter { processor.new.meter ≤ processor.old.meter + steps }
{
    let past = notebook.past();
    write_steps(notation, notebook, names, processor, steps, out)?;
    write_ending(notation, end, steps, notebook.waits(), &past, out)
}

/// Writes what is told of the first steps of a run.
fn write_steps<W: Write>(
    notation: Notation,
    notebook: &mut Notebook,
    names: &PlaceNames,
    processor: &mut Processor,
    steps: u64,
    out: &mut W,
) -> Result<(), WriteFailed>
    requires few { steps ≤ 2 ^ 40 }
    requires counted { Counted notebook.old.named processor.old.scenario steps notebook.old }
    ensures keeps { OnOk result (Keeps processor.old.scenario steps notebook.new.waits) }
    ensures written { W.told ≡ true → Writes (W.written out.old) (W.written out.new)
        (steps_text notation names.now notebook.old.named processor.old.scenario steps) result }
    ensures failures { W.failures out.new ≡ failures_after (W.failures out.old) result }
    ensures meter { processor.new.meter ≤ processor.old.meter + steps }
{
    if notebook.firsts().is_complete() {
        write_listed(
            notation,
            notebook,
            notebook.firsts().steps(),
            names,
            processor,
            steps,
            out,
        )
    } else {
        write_again(notation, notebook, names, processor, steps, out)
    }
}

/// Writes what is told at the steps of a list, and makes those between them many at once.
fn write_listed<W: Write>(
    notation: Notation,
    notebook: &Notebook,
    firsts: &[FirstStep],
    names: &PlaceNames,
    processor: &mut Processor,
    steps: u64,
    out: &mut W,
) -> Result<(), WriteFailed>
    requires few { steps ≤ 2 ^ 40 }
    requires firsts { firsts.now ≡ notebook.now.firsts.steps }
    requires complete { notebook.now.firsts.complete ≡ true }
    requires counted { Counted notebook.now.named processor.old.scenario steps notebook.now }
    ensures written { W.told ≡ true → Writes (W.written out.old) (W.written out.new)
        (steps_text notation names.now notebook.now.named processor.old.scenario steps) result }
    ensures failures { W.failures out.new ≡ failures_after (W.failures out.old) result }
    ensures meter { processor.new.meter ≤ processor.old.meter + steps }
{
    let mut machine = Machine::start();
    let mut done = 0;
    for first in firsts {
        write_first(
            notation,
            notebook,
            names,
            processor,
            &mut machine,
            done,
            first,
            out,
        )?;
        done = first.number;
    }
    Ok(())
}

/// Makes steps up to a listed one and that, and writes what is told there.
fn write_first<W: Write>(
    notation: Notation,
    notebook: &Notebook,
    names: &PlaceNames,
    processor: &mut Processor,
    machine: &mut Machine,
    done: u64,
    first: &FirstStep,
    out: &mut W,
) -> Result<(), WriteFailed>
    requires few { first.now.number ≤ 2 ^ 40 }
    requires order { done < first.now.number }
    requires stands { machine.old ≡ run processor.old.scenario done }
    ensures scenario { processor.new.scenario ≡ processor.old.scenario }
    ensures stands { machine.new ≡ run processor.old.scenario first.now.number }
    ensures known { IsAccount (here processor.old.scenario (run processor.old.scenario (first.now.number - 1))) }
    ensures written { W.told ≡ true → Writes (W.written out.old) (W.written out.new)
        (listed_text notation names.now processor.old.scenario notebook.now first.now) result }
    ensures failures { W.failures out.new ≡ failures_after (W.failures out.old) result }
    ensures meter { processor.new.meter + done ≤ processor.old.meter + first.now.number }
{
    run_to(processor, machine, done, first.number - 1);
    let number = number_of(account_of(&processor.next_step(machine)));
    let told = notebook.told(number, &first.kinds);
    write_told(
        notation,
        &told,
        names,
        processor,
        machine,
        first.number,
        out,
    )
}

/// Makes the steps of a run behind step `done` up to step `stop`.
fn run_to(processor: &mut Processor, machine: &mut Machine, done: u64, stop: u64)
    requires order { done ≤ stop }
    requires few { stop ≤ 2 ^ 40 }
    requires stands { machine.old ≡ run processor.old.scenario done }
    ensures scenario { processor.new.scenario ≡ processor.old.scenario }
    ensures stands { machine.new ≡ run processor.old.scenario stop }
    ensures meter { processor.new.meter + done ≤ processor.old.meter + stop }
{
    let mut at = done;
    while at < stop {
        (at, _) = processor.run_on(machine, at, stop);
    }
}

/// Makes the steps again up to the last in which something happened for the first time, and writes what is told at
/// each. What is told is taken from the notebook.
fn write_again<W: Write>(
    notation: Notation,
    notebook: &mut Notebook,
    names: &PlaceNames,
    processor: &mut Processor,
    steps: u64,
    out: &mut W,
) -> Result<(), WriteFailed>
    requires few { steps ≤ 2 ^ 40 }
    requires counted { Counted notebook.old.named processor.old.scenario steps notebook.old }
    ensures keeps { OnOk result (Keeps processor.old.scenario steps notebook.new.waits) }
    ensures written { W.told ≡ true → Writes (W.written out.old) (W.written out.new)
        (steps_text notation names.now notebook.old.named processor.old.scenario steps) result }
    ensures failures { W.failures out.new ≡ failures_after (W.failures out.old) result }
    ensures meter { processor.new.meter ≤ processor.old.meter + steps }
{
    notebook.rewind();
    let last = notebook.last();
    let mut machine = Machine::start();
    let mut done = 0;
    while done < last {
        write_step(
            notation,
            notebook,
            names,
            processor,
            &mut machine,
            done + 1,
            out,
        )?;
        done += 1;
    }
    Ok(())
}

/// Writes what is told of a run's end.
fn write_ending<W: Write>(
    notation: Notation,
    end: &Machine,
    steps: u64,
    waits: &Waits,
    past: &Past,
    out: &mut W,
) -> Result<(), WriteFailed>
    ensures written { W.told ≡ true → Writes (W.written out.old) (W.written out.new)
        ((end_text notation end.now.inside steps ++ kept_text notation end.now.cycles waits.now)
        ++ unread_text notation end.now.cycles past.now) result }
    ensures failures { W.failures out.new ≡ failures_after (W.failures out.old) result }
{
    let ending = end_lines(notation, end.inside(), steps, waits, end.cycles());
    write_all(out, ending.as_slice())?;
    write_unread(notation, past, end.cycles(), out)
}

/// Makes a step, and writes what is told there.
fn write_step<W: Write>(
    notation: Notation,
    notebook: &mut Notebook,
    names: &PlaceNames,
    processor: &mut Processor,
    machine: &mut Machine,
    number: u64,
    out: &mut W,
) -> Result<(), WriteFailed>
    requires cycles { machine.old.cycles ≤ 2 ^ 62 }
    requires fits { FitsRun processor.old.scenario machine.old }
    ensures scenario { processor.new.scenario ≡ processor.old.scenario }
    ensures state { machine.new ≡ (next processor.old.scenario machine.old).0 }
    ensures takes { Takes processor.old.scenario machine.old notebook.old notebook.new }
    ensures written { W.told ≡ true → Writes (W.written out.old) (W.written out.new)
        (text_after notation names.now processor.old.scenario number machine.old
        (taken_at processor.old.scenario machine.old notebook.old)) result }
    ensures failures { W.failures out.new ≡ failures_after (W.failures out.old) result }
    ensures meter { processor.new.meter ≤ processor.old.meter + 1 }
{
    let told = notebook.take(processor, machine);
    if told == NOTHING {
        processor.step(machine);
        return Ok(());
    }
    write_told(notation, &told, names, processor, machine, number, out)
}

/// Makes a step, and writes the lines of what is told there.
// (within the loop over the steps its buffers would be cleared at each)
#[inline(never)]
fn write_told<W: Write>(
    notation: Notation,
    told: &Told,
    names: &PlaceNames,
    processor: &mut Processor,
    machine: &mut Machine,
    number: u64,
    out: &mut W,
) -> Result<(), WriteFailed>
    requires cycles { machine.old.cycles ≤ 2 ^ 62 }
    requires fits { FitsRun processor.old.scenario machine.old }
    ensures scenario { processor.new.scenario ≡ processor.old.scenario }
    ensures state { machine.new ≡ (next processor.old.scenario machine.old).0 }
    ensures written { W.told ≡ true → Writes (W.written out.old) (W.written out.new)
        (text_after notation names.now processor.old.scenario number machine.old (told_of told.now)) result }
    ensures failures { W.failures out.new ≡ failures_after (W.failures out.old) result }
    ensures meter { processor.new.meter ≤ processor.old.meter + 1 }
{
    let what = what_in(notation, names, processor, machine);
    make_step(processor, machine);
    let heading = Heading {
        what,
        number,
        cycles: machine.cycles(),
    };
    write_all(out, lines_of(notation, &heading, told).as_slice())
}
