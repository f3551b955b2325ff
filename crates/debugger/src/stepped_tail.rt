//! `tail` with steps: the last outputs, each with the step that put it out.

ghost use Rattle.std.specs.Prelude.{◌≡◌, ◌+◌, ◌-◌, ◌*◌, ◌≤◌, length, true};
ghost use Rattle.words.specs.Devices.{Writes, failures_after};
ghost use Rattle.debugger.specs.Executions.{HasLooked};
ghost use Rattle.debugger.specs.SteppedTail.{outputs_by_step, stepped_line, stepped_tail};

use crate::texts::number_line;
use arrayvec::ArrayVec;
use cpu::{Machine, Output, Processor, channel_line, make_step};
use replay::{Keeper, Session, StepTest, StepWriter};
use words::{Write, WriteFailed, push_all, push_decimal, write_all};

/// The lines of the last so many outputs, each with its step, and how many they are.
pub(crate) fn tail_steps<K: Keeper, W: Write>(
    session: &mut Session<K>,
    count: u64,
    out: &mut W,
) -> Result<(), WriteFailed>
    ensures writes { W.told ≡ true → Writes (W.written out.old) (W.written out.new)
        (stepped_tail session.old.scenario session.old.n count) result }
    ensures looked { HasLooked session.old session.new (2 * (count + 1) * session.old.n) }
    ensures failures { W.failures out.new ≡ failures_after (W.failures out.old) result }
{
    let (first, found) = last_outputs(session, count);
    let steps = session.steps() - first;
    session.retrace(&PutOut, first, steps, out)?;
    write_all(out, number_line(b"TAIL ", found).as_slice())
}

/// How many steps stand before the last so many outputs, and how many of these there are.
fn last_outputs<K: Keeper>(session: &mut Session<K>, count: u64) -> (u64, u64)
    ensures within { result.0 ≤ session.old.n }
    ensures found { length (outputs_by_step session.old.scenario result.0) + result.1
        ≡ length (outputs_by_step session.old.scenario session.old.n) }
    ensures last { length (outputs_by_step session.old.scenario result.0)
        ≡ length (outputs_by_step session.old.scenario session.old.n) - count }
    ensures looked { HasLooked session.old session.new (2 * count * session.old.n) }
{
    let mut first = session.steps();
    let mut found = 0;
    while found < count {
        let Some((step, _)) = session.seek_step_back(first, &PutOut) else {
            return (first, found);
        };
        first = step;
        found += 1;
    }
    (first, found)
}

/// Steps that put something out.
#[derive(Clone, Copy, Drop)]
struct PutOut;

impl StepTest for PutOut {
    ghost use Rattle.cpu.specs.Next.{next};
    ghost use Rattle.debugger.specs.SteppedTail.{output_found};

    ghost finds = { λ test scenario state. output_found (next scenario state).1 };

    fn test_step(&self, processor: &mut Processor, machine: &mut Machine) -> Option<u64> {
        match make_step(processor, machine) {
            Some(_) => Some(0),
            None => None,
        }
    }
}

impl StepWriter for PutOut {
    ghost use Rattle.cpu.specs.Next.{next};
    ghost use Rattle.debugger.specs.SteppedTail.{step_text};

    ghost text = { λ writer scenario number state. step_text number (next scenario state).1 };

    fn write_step<W: Write>(
        &self,
        processor: &mut Processor,
        machine: &mut Machine,
        number: u64,
        out: &mut W,
    ) -> Result<(), WriteFailed> {
        match make_step(processor, machine) {
            Some(output) => write_all(out, stepped_line(number, &output).as_slice()),
            None => Ok(()),
        }
    }
}

/// The most bytes of the line of an output with its step: `STEP `, 20 digits, a blank and the 34 of a channel line.
const STEPPED_LINE: usize = 60;

/// The line of an output, with its step.
#[tactic(auto, using(words::proofs::Digits::short_decimal))]
fn stepped_line(number: u64, output: &Output) -> ArrayVec<u8, STEPPED_LINE>
    ensures { result.items ≡ stepped_line (number, output.now) }
{
    let mut line = ArrayVec::new();
    push_all(&mut line, b"STEP ");
    push_decimal(&mut line, number);
    push_all(&mut line, b" ");
    push_all(&mut line, channel_line(output).as_slice());
    line
}
