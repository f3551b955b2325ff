//! The line of a step.

ghost use Rattle.std.specs.Prelude.{◌≡◌, ◌+◌, ◌-◌, ◌^◌, ◌≤◌, ◌++◌, min, true, length, decimal};
ghost use Rattle.std.specs.List.{flat_map};
ghost use Rattle.arrayvec.specs.ArrayVec.{array_vec_len};
ghost use Rattle.words.specs.Devices.{Writes, failures_after};
ghost use Rattle.cpu.specs.Next.{next};
ghost use Rattle.cpu.specs.State.{FitsRun};
ghost use Rattle.trace.specs.TraceLines.{field, line_end, or_none, trace_line, written};

use crate::fields::{StepFields, decimal_text, push_field};
use crate::names::Names;
use crate::read::{Read, reads_text};
use crate::steps::what_text;
use crate::written::{Line, push_all_written};
use arrayvec::ArrayVec;
use cpu::{Cell, Machine, Output, Processor, channel_line, make_step};
use words::{Write, WriteFailed, push_all, write_all};

/// How wide the columns of the step and of the cycles are.
const NUMBER_WIDTH: usize = 8;

/// Makes a step, and writes its line: its number, the cycles after it, what it is, what it has read, where that is
/// shown, what it has written, and the channel line of what it puts out.
///
/// After a failure a beginning of the line was written.
#[tactic(auto, unfolding(crate::specs::TraceLines::trace_line))]
pub fn trace_step<N: Names, W: Write>(
    shows_reads: bool,
    names: &N,
    processor: &mut Processor,
    machine: &mut Machine,
    number: u64,
    out: &mut W,
) -> Result<(), WriteFailed>
    requires cycles { machine.old.cycles ≤ 2 ^ 62 }
    requires fits { FitsRun processor.old.scenario machine.old }
    ensures processor { processor.new ≡ record processor.old { meter = min (processor.old.meter + 1) (2 ^ 128 - 1) } }
    ensures scenario { processor.new.scenario ≡ processor.old.scenario }
    ensures state { machine.new ≡ (next processor.old.scenario machine.old).0 }
    ensures written { W.told ≡ true →
        Writes (W.written out.old) (W.written out.new)
        (trace_line shows_reads (N.table names.now) processor.old.scenario number machine.old) result }
    ensures failures { W.failures out.new ≡ failures_after (W.failures out.old) result }
{
    let what = what_text(names, processor, machine);
    let read = reads_text(shows_reads, names, processor, machine);
    let cells = processor.targets(machine);
    let output = make_step(processor, machine);
    let before = Before { what, read };
    let line = line_of(names, number, &before, machine, cells.as_slice(), output);
    write_all(out, line.as_slice())
}

/// What is told of a step by the machine before it: what it is, and what it reads.
#[derive(Drop)]
struct Before {
    what: StepFields,
    read: Read,
}

/// The line of a step, by what was told before it, the machine after it, the cells that it has written, and what it has
/// put out.
fn line_of<N: Names>(
    names: &N,
    number: u64,
    before: &Before,
    machine: &Machine,
    cells: &[Cell],
    output: Option<Output>,
) -> Line
    requires what { array_vec_len before.now.what ≤ 66 }
    requires read { array_vec_len before.now.read ≤ 166 }
    requires few { length cells.now ≤ 10 }
    ensures { result.items ≡ field 8 (decimal number) ++ field 8 (decimal machine.now.cycles) ++ before.now.what.items
        ++ before.now.read.items ++ or_none (flat_map (written (N.table names.now) machine.now.cells) cells.now)
        ++ line_end output }
{
    let mut line = ArrayVec::new();
    push_field(&mut line, NUMBER_WIDTH, decimal_text(number).as_slice());
    push_field(
        &mut line,
        NUMBER_WIDTH,
        decimal_text(machine.cycles()).as_slice(),
    );
    push_all(&mut line, before.what.as_slice());
    push_all(&mut line, before.read.as_slice());
    push_all_written(&mut line, names, machine, cells);
    push_end(&mut line, output);
    line
}

/// Appends the end of a line: the channel line of what a step puts out, if anything.
fn push_end(line: &mut Line, output: Option<Output>)
    requires { array_vec_len line.old ≤ 560 }
    ensures { line.new.items ≡ line.old.items ++ line_end output }
{
    match output {
        None => push_all(line, b"\n"),
        Some(output) => {
            push_all(line, b"  ");
            push_all(line, channel_line(&output).as_slice());
        }
    }
}
