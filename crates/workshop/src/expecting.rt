//! The engine that judges a run by a text of tests.

ghost use Rattle.std.specs.Prelude.{◌≡◌, ◌+◌, ◌-◌, ◌≤◌, ◌^◌, length, true, IfErr, IfOk};
ghost use Rattle.std.specs.Result.{result_map_both};
ghost use Rattle.expect.specs.Texts.{claims_after};
ghost use Rattle.json_text.specs.declared.notation.Notation.TheVariants as Notation;
ghost use Rattle.notes.specs.RunNotes.{notes_text};
ghost use Rattle.workshop.specs.Expectations.{Judges, JudgesClaims, JudgesRun, checked, checked_for, executed_for};
ghost use Rattle.workshop.specs.Expectations.{made, noted, read_of, task_of};
ghost use Rattle.workshop.specs.Failures.{reader, writer};
ghost use Rattle.workshop.specs.Loading.{Reads, ReadsText};
ghost use Rattle.workshop.specs.Runs.{running};
ghost use Rattle.workshop.specs.declared.fault.WorkshopFault.TheVariants as WorkshopFault;

use crate::checking::{Tally, told_of};
use crate::executed::executed_instructions;
use crate::fault::WorkshopFault;
use crate::inputs::read_feed;
use crate::noting::run_then_note;
use crate::progress::Unheard;
use cpu::{Machine, Processor};
use expect::{
    ExpectFault, Expectation, Known, Refusal as TextRefusal, Stated, are_all_met, ask_for_check,
    ask_for_instructions, ask_for_notes, claims_in, judge, settle, write_verdicts,
};
use feed::Feed;
use idle::steps_until_idle;
use json_text::Notation;
use notes::Notebook;
use std::alloc::Global;
use trace::PlaceNames;
use words::{Buffer, MOST_BYTES, Read, Write, read_text};
use yayul::{Language, NamedPlaces, Program, SourceLines, SourceRows, assemble, findings};

/// What a text of tests comes to.
#[derive(Clone, Copy, Debug, Drop)]
pub enum Judged {
    /// The text is refused.
    Refused(TextRefusal),
    /// Whether all claims are met.
    Met(bool),
}

/// Reads a source and then a feed, makes the steps of a text of tests, and writes for each test whether the run bears
/// it out: see `write_verdicts`. The steps are made once, and again for their notes where a test is of these, and
/// before where the run ends where the program idles.
///
/// The first fault of the source is answered, else that of the feed, else the first line of the text that is refused,
/// or that memory ran out, and then nothing is written.
pub fn judge_program<P: Read, F: Read, W: Write>(
    alloc: Global,
    tests: &Expectation<'_>,
    program: &mut P,
    feed: &mut F,
    out: &mut W,
) -> Result<Judged, WorkshopFault>
    requires steps { tests.now.steps ≤ 2 ^ 40 - 2 }
    requires short { tests.now.line + length tests.now.tests.now ≤ 2 ^ 20 }
    ensures { Judges (task_of tests.now)
        (running (reader P.Read program.old) (reader F.Read feed.old) (writer W.Write out.old))
        (running (reader P.Read program.new) (reader F.Read feed.new) (writer W.Write out.new)) result }
{
    let (text, program) = read_source(alloc, program)?;
    let feed = read_feed(alloc, feed)?;
    judge_source(alloc, tests, &text, program, feed, out)
}

/// Reads a source whole, and assembles it.
fn read_source<S: Read>(alloc: Global, source: &mut S) -> Result<(Vec<u8>, Program), WorkshopFault>
    ensures { Reads (λ old new. ReadsText (read_of old) old new)
        (reader S.Read source.old) (reader S.Read source.new)
        (result_map_both (λ r. (r.0.items, r.1)) (λ fault. fault) result) }
{
    let text = read_text(alloc, source, MOST_BYTES)?;
    let program = assemble(alloc, Language::Standard, &text)?;
    Ok((text, program))
}

/// Reads the tests, and judges the run of a program by them.
fn judge_source<W: Write>(
    alloc: Global,
    tests: &Expectation<'_>,
    text: &[u8],
    program: Program,
    feed: Feed,
    out: &mut W,
) -> Result<Judged, WorkshopFault>
    requires steps { tests.now.steps ≤ 2 ^ 40 - 2 }
    requires short { tests.now.line + length tests.now.tests.now ≤ 2 ^ 20 }
    ensures { JudgesRun (task_of tests.now) (text.now, program) feed
        (writer W.Write out.old) (writer W.Write out.new) result }
{
    let Ok(named) = program.named_places(alloc) else {
        return Err(WorkshopFault::NoMemory);
    };
    let (rope, symbols, rows) = program.split_all();
    let claims = match claims_in(alloc, &symbols, tests.line, tests.tests) {
        Ok(claims) => claims,
        Err(ExpectFault::NoMemory) => return Err(WorkshopFault::NoMemory),
        Err(ExpectFault::Refused(refusal)) => return Ok(Judged::Refused(refusal)),
    };
    let Ok(names) = PlaceNames::new(alloc, symbols) else {
        return Err(WorkshopFault::NoMemory);
    };
    let mut processor = Processor::new(rope, feed);
    let made = made(tests, &mut processor);
    judge_claims(
        alloc,
        &made,
        &claims,
        text,
        &rows,
        named,
        &names,
        &mut processor,
        out,
    )
}

/// The same tests with the steps that are made: fewer where the program idles before, if that is asked for.
fn made<'a>(tests: &Expectation<'a>, processor: &mut Processor) -> Expectation<'a>
    requires steps { tests.now.steps ≤ 2 ^ 40 - 2 }
    ensures task { task_of result ≡ made (task_of tests.now) processor.old.scenario }
    ensures steps { result.steps ≤ tests.now.steps }
    ensures line { result.line ≡ tests.now.line }
    ensures text { result.tests.now ≡ tests.now.tests.now }
    ensures scenario { processor.new.scenario ≡ processor.old.scenario }
{
    let steps = if tests.until_idle {
        steps_until_idle(processor, tests.steps)
    } else {
        tests.steps
    };
    Expectation {
        source: tests.source,
        feed: tests.feed,
        steps,
        until_idle: tests.until_idle,
        line: tests.line,
        tests: tests.tests,
    }
}

/// Makes the steps, looks up what else is asked for, and writes the verdicts.
fn judge_claims<W: Write>(
    alloc: Global,
    tests: &Expectation<'_>,
    claims: &[Stated],
    text: &[u8],
    rows: &SourceRows,
    named: NamedPlaces,
    names: &PlaceNames,
    processor: &mut Processor,
    out: &mut W,
) -> Result<Judged, WorkshopFault>
    requires steps { tests.now.steps ≤ 2 ^ 40 - 2 }
    requires short { tests.now.line + length tests.now.tests.now ≤ 2 ^ 20 }
    ensures { JudgesClaims (task_of tests.now)
        (record { text = text.now; lines = rows.now; symbols = names.now; named = named })
        processor.old.scenario claims.now
        (writer W.Write out.old) (writer W.Write out.new) result }
{
    let mut machine = Machine::start();
    let Ok(watches) = judge(alloc, processor, &mut machine, claims, tests.steps) else {
        return Err(WorkshopFault::NoMemory);
    };
    let Ok(executed) = executed_for(alloc, claims, rows, processor, tests.steps) else {
        return Err(WorkshopFault::NoMemory);
    };
    let Ok(notes) = noted(alloc, claims, named, names, processor, tests.steps) else {
        return Err(WorkshopFault::NoMemory);
    };
    let Ok((report, tally)) = checked_for(alloc, claims, tests.source, text) else {
        return Err(WorkshopFault::NoMemory);
    };
    let known = Known {
        notes: notes.as_slice(),
        report: &report,
        errors: tally.errors as u64,
        warnings: tally.warnings as u64,
        executed,
    };
    let settled = settle(watches, &known, &machine, tests.steps);
    write_verdicts(tests.line, tests.tests, &settled, &known, out)?;
    Ok(Judged::Met(are_all_met(&settled)))
}

/// The notes of some steps from the start, where a claim asks for them.
fn noted(
    alloc: Global,
    claims: &[Stated],
    named: NamedPlaces,
    names: &PlaceNames,
    processor: &mut Processor,
    steps: u64,
) -> Result<Buffer, WorkshopFault>
    requires { steps ≤ 2 ^ 40 - 2 }
    ensures { IfOk result (λ notes. notes.written ≡ noted claims.now names.now named processor.old.scenario steps) }
{
    if ask_for_notes(claims) {
        notes_of(alloc, named, names, processor, steps)
    } else {
        Ok(Buffer::new(alloc))
    }
}

/// The notes of some steps from the start. An `Err` is that memory ran out.
fn notes_of(
    alloc: Global,
    named: NamedPlaces,
    names: &PlaceNames,
    processor: &mut Processor,
    steps: u64,
) -> Result<Buffer, WorkshopFault>
    requires { steps ≤ 2 ^ 40 - 2 }
    ensures { IfOk result (λ notes. notes.written
        ≡ notes_text Notation.Text names.now named processor.old.scenario steps) }
{
    let mut notes = Buffer::new(alloc);
    let Ok(notebook) = Notebook::new(alloc, named) else {
        return Err(WorkshopFault::NoMemory);
    };
    let (mut out, mut progress) = (Unheard, Unheard);
    match run_then_note(
        Notation::Text,
        processor,
        names,
        notebook,
        steps,
        &mut out,
        &mut progress,
        &mut notes,
    ) {
        Ok(_) => Ok(notes),
        Err(fault) => Err(fault),
    }
}

/// What `check` tells of a source, where a claim asks for it, and how many errors and warnings that are.
fn checked_for(
    alloc: Global,
    claims: &[Stated],
    name: &[u8],
    source: &[u8],
) -> Result<(Vec<u8>, Tally), WorkshopFault>
    ensures { IfOk result (λ r. (r.0.items, r.1) ≡ checked_for claims.now name.now source.now) }
{
    if ask_for_check(claims) {
        checked(alloc, name, source)
    } else {
        let none = Tally {
            errors: 0,
            warnings: 0,
        };
        Ok((Vec::new(alloc), none))
    }
}

/// What `check` tells of a source. An `Err` is that memory ran out.
fn checked(alloc: Global, name: &[u8], source: &[u8]) -> Result<(Vec<u8>, Tally), WorkshopFault>
    ensures { IfOk result (λ r. (r.0.items, r.1) ≡ checked name.now source.now) }
{
    let Ok(lines) = SourceLines::read(alloc, Language::Standard, source) else {
        return Err(WorkshopFault::NoMemory);
    };
    let found = findings(alloc, &lines)?;
    match told_of(alloc, Notation::Text, name, false, &lines, &found) {
        Ok(told) => Ok(told),
        Err(_) => Err(WorkshopFault::NoMemory),
    }
}

/// How many instructions some steps from the start execute, where a claim asks for it.
fn executed_for(
    alloc: Global,
    claims: &[Stated],
    rows: &SourceRows,
    processor: &mut Processor,
    steps: u64,
) -> Result<u64, WorkshopFault>
    requires { steps ≤ 2 ^ 40 - 2 }
    ensures count { IfOk result (λ count. count ≡ executed_for claims.now rows.now processor.old.scenario steps) }
    ensures scenario { processor.new.scenario ≡ processor.old.scenario }
{
    if ask_for_instructions(claims) {
        executed_instructions(alloc, rows, processor, steps)
    } else {
        Ok(0)
    }
}
