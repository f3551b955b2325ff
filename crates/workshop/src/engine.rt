//! The engine that runs a program.

ghost use Rattle.std.specs.Prelude.{◌≡◌, ◌+◌, ◌-◌, ◌≤◌, ◌<◌, ◌^◌, true, false, length, IfOk, IfErr, IsErr, OnOk};
ghost use Rattle.std.specs.Bool.{OnTrue, OnFalse};
ghost use Rattle.std.specs.Option.{option_to_list};
ghost use Rattle.words.specs.Devices.{Writes, failures_after};
ghost use Rattle.cpu.specs.ChannelLines.{channel_line, channel_lines};
ghost use Rattle.workshop.specs.Failures.{reader, writer};
ghost use Rattle.workshop.specs.Progress.{TellsLoaded, TellsWritten, loaded_text, run_text, telling};
ghost use Rattle.workshop.specs.Runs.{Runs, Makes, loaded_steps, outputs_after, running, steps_until, summary_of};
ghost use Rattle.workshop.specs.Loading.{program_and_feed};
ghost use Rattle.cpu.specs.Next.{next};
ghost use Rattle.cpu.specs.Run.{outs, run};
ghost use Rattle.yayul.specs.declared.language.Language.TheVariants.{Standard};
ghost use Rattle.cpu.specs.State.{FitsRun, Scenario};

use crate::fault::WorkshopFault;
use crate::inputs::load;
use crate::origin::Origin;
use crate::progress::Unheard;
use crate::stepper::{OutputLines, run_all};
use cpu::{Machine, Output, Processor, write_channel_line};
use idle::steps_until_idle;
use space::{Chan, Eras};
use std::alloc::Global;
use words::{Read, Word, Write, WriteFailed};
use yayul::Language;

/// What a run has come to.
#[derive(Clone, Copy, PartialEq, Eq, Debug, Drop)]
pub struct Summary {
    /// The steps that were made.
    pub steps: u64,
    /// The cycles that they took.
    pub cycles: u64,
    /// How many lines were written.
    pub outputs: u64,
    /// Z at the end, where the next word is fetched unless one waits.
    pub z: u16,
}

impl Summary {
    /// What a run of some steps has come to, by the machine after them and how many lines were written.
    pub(crate) fn of_run(steps: u64, machine: &Machine, outputs: u64) -> Summary
        ensures { (scenario : Scenario) → machine.now ≡ run scenario steps → outputs ≡ length (outs scenario steps)
            → result ≡ summary_of scenario steps }
    {
        Summary {
            steps,
            cycles: machine.cycles(),
            outputs,
            z: machine.reg(Eras::Z).to_u16(),
        }
    }
}

/// The most steps of a run.
pub const MOST_STEPS: u64 = 1_099_511_627_774;

/// Whether a run may have so many steps.
pub fn may_run(steps: u64) -> bool
    ensures yes { OnTrue result (steps ≤ 2 ^ 40 - 2) }
    ensures no { OnFalse result (2 ^ 40 - 2 < steps) }
{
    steps <= MOST_STEPS
}

/// Where a run ends.
#[derive(Clone, Copy)]
pub enum RunEnd {
    /// After all its steps.
    Steps,
    /// When it idles, as `idle::steps_until_idle` says, or after all its steps. These are made twice: to find the last,
    /// before anything is written, and to write what they put out.
    Idle,
}

/// Assembles the source, reads the feed, and runs the program for some steps: see `run_program`.
pub fn run_engine<S: Read, F: Read, W: Write>(
    alloc: Global,
    source: &mut S,
    feed: &mut F,
    steps: u64,
    out: &mut W,
) -> Result<Summary, WorkshopFault>
    requires { steps ≤ 2 ^ 40 - 2 }
    ensures runs { Runs (Origin.Source Standard) RunEnd.Steps steps
        (running (reader S.Read source.old) (reader F.Read feed.old) (writer W.Write out.old))
        (running (reader S.Read source.new) (reader F.Read feed.new) (writer W.Write out.new)) result }
    ensures handed_on { W.told ≡ true → 0 < steps → OnOk result (W.handed_on out.new ≡ W.written out.new) }
{
    let origin = Origin::Source(Language::Standard);
    let progress = &mut Unheard;
    run_program(
        alloc,
        origin,
        source,
        feed,
        RunEnd::Steps,
        steps,
        out,
        progress,
    )
}

/// Reads a program and then a feed, and runs the program for some steps, or until it idles: the line of each output is
/// written, as `7 CH 010 00012` with the cycles, the channel and the word.
///
/// A source and a feed have at most 8,388,608 bytes each. The first fault of the program is answered, else that of the
/// feed, and then nothing is written. Lines are handed on while it goes, and all of them where it has made its steps.
///
/// It tells after each 2^20 steps how many were made, as `agcws: STEPS 1048576`. A write that fails there is no fault
/// of the run: nothing more is told.
pub fn run_program<P: Read, F: Read, W: Write, T: Write>(
    alloc: Global,
    origin: Origin,
    program: &mut P,
    feed: &mut F,
    end: RunEnd,
    steps: u64,
    out: &mut W,
    progress: &mut T,
) -> Result<Summary, WorkshopFault>
    requires { steps ≤ 2 ^ 40 - 2 }
    ensures runs { Runs origin end steps
        (running (reader P.Read program.old) (reader F.Read feed.old) (writer W.Write out.old))
        (running (reader P.Read program.new) (reader F.Read feed.new) (writer W.Write out.new)) result }
    ensures handed_on { W.told ≡ true → 0 < steps → OnOk result (W.handed_on out.new ≡ W.written out.new) }
    ensures progress { TellsLoaded loaded_text origin (loaded_steps end steps)
        (program_and_feed (reader P.Read program.old) (reader F.Read feed.old))
        (program_and_feed (reader P.Read program.new) (reader F.Read feed.new))
        (telling (writer W.Write out.old) (writer T.Write progress.old))
        (telling (writer W.Write out.new) (writer T.Write progress.new)) result }
{
    let loaded = load(alloc, origin, program, feed)?;
    let mut processor = Processor::new(loaded.rope, loaded.feed);
    let made = steps_until(end, &mut processor, steps);
    run(&mut processor, made, out, progress)
}

/// How many steps a run makes that ends so, of so many at most.
fn steps_until(end: RunEnd, processor: &mut Processor, most: u64) -> u64
    requires { most ≤ 2 ^ 40 - 2 }
    ensures steps { result ≡ steps_until end processor.old.scenario most }
    ensures within { result ≤ most }
    ensures some { 0 < most → 0 < result }
    ensures scenario { processor.new.scenario ≡ processor.old.scenario }
{
    match end {
        RunEnd::Steps => most,
        RunEnd::Idle => steps_until_idle(processor, most),
    }
}

/// The most steps that are made before the lines written so far are handed on.
pub(crate) const STEPS_BETWEEN_FLUSHES: u64 = 1 << 20;

/// Makes some steps from the start, and writes the lines of what they put out. Lines are handed on while it goes, so
/// that those of a long run are seen, and stand where it is broken off.
pub(crate) fn run<W: Write, T: Write>(
    processor: &mut Processor,
    steps: u64,
    out: &mut W,
    progress: &mut T,
) -> Result<Summary, WorkshopFault>
    requires { steps ≤ 2 ^ 40 - 2 }
    ensures makes { Makes processor.old.scenario steps
        (writer W.Write out.old) (writer W.Write out.new) result }
    ensures scenario { OnOk result (processor.new.scenario ≡ processor.old.scenario) }
    ensures handed_on { W.told ≡ true → 0 < steps → OnOk result (W.handed_on out.new ≡ W.written out.new) }
    ensures progress { TellsWritten (run_text processor.old.scenario) steps
        (telling (writer W.Write out.old) (writer T.Write progress.old))
        (telling (writer W.Write out.new) (writer T.Write progress.new)) result }
{
    let mut machine = Machine::start();
    let mut written = OutputLines { count: 0 };
    run_all(&mut written, processor, &mut machine, steps, out, progress)?;
    Ok(Summary::of_run(steps, &machine, written.count))
}

/// Hands on the lines that a writer holds back.
pub(crate) fn hand_on<W: Write>(out: &mut W) -> Result<(), WriteFailed>
    ensures written { W.told ≡ true → W.written out.new ≡ W.written out.old }
    ensures handed_on { W.told ≡ true → OnOk result (W.handed_on out.new ≡ W.written out.new) }
    ensures failures { W.failures out.new ≡ failures_after (W.failures out.old) result }
{
    match out.flush() {
        Ok(()) => Ok(()),
        Err(_) => Err(WriteFailed),
    }
}

/// Makes a step, writes the line of what it puts out, and counts it among the lines.
#[inline(always)]
pub(crate) fn step_and_write<W: Write>(
    processor: &mut Processor,
    machine: &mut Machine,
    lines: &mut u64,
    out: &mut W,
) -> Result<(), WriteFailed>
    requires cycles { machine.old.cycles ≤ 2 ^ 62 }
    requires fits { FitsRun processor.old.scenario machine.old }
    requires room { lines.old < 2 ^ 63 }
    ensures scenario { processor.new.scenario ≡ processor.old.scenario }
    ensures state { machine.new ≡ (next processor.old.scenario machine.old).0 }
    ensures count { OnOk result (lines.new ≡ lines.old + length (outputs_after processor.old.scenario machine.old)) }
    ensures at_most_one { OnOk result (lines.new ≤ lines.old + 1) }
    ensures written { W.told ≡ true →
        Writes (W.written out.old) (W.written out.new)
        (channel_lines (outputs_after processor.old.scenario machine.old)) result }
    ensures failures { W.failures out.new ≡ failures_after (W.failures out.old) result }
    ensures meter { processor.new.meter ≤ processor.old.meter + 1 }
{
    write_put(processor.step(machine), lines, out)
}

/// Writes the line of what a step has put out, and counts it among the lines.
#[inline(always)]
#[tactic(auto, using(crate::proofs::RunSteps::lines_of_none, crate::proofs::RunSteps::lines_of_one))]
pub(crate) fn write_put<W: Write>(
    put: Option<Output>,
    lines: &mut u64,
    out: &mut W,
) -> Result<(), WriteFailed>
    requires room { lines.old < 2 ^ 63 }
    ensures count { OnOk result (lines.new ≡ lines.old + length (option_to_list put)) }
    ensures at_most_one { OnOk result (lines.new ≤ lines.old + 1) }
    ensures written { W.told ≡ true → Writes (W.written out.old) (W.written out.new)
        (channel_lines (option_to_list put)) result }
    ensures failures { W.failures out.new ≡ failures_after (W.failures out.old) result }
{
    match put {
        Some(output) => {
            write_output(output.cycles, output.channel, output.word, out)?;
            *lines += 1;
            Ok(())
        }
        None => Ok(()),
    }
}

/// Writes the line of an output. It stands apart, so that a step without one has none of its locals.
#[inline(never)]
fn write_output<W: Write>(
    cycles: u64,
    channel: Chan,
    word: Word,
    out: &mut W,
) -> Result<(), WriteFailed>
    ensures written { W.told ≡ true → Writes (W.written out.old) (W.written out.new)
        (channel_line (record { cycles = cycles; channel = channel; word = word })) result }
    ensures failures { W.failures out.new ≡ failures_after (W.failures out.old) result }
{
    let output = Output {
        cycles,
        channel,
        word,
    };
    write_channel_line(&output, out)
}
