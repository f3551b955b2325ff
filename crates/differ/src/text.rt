//! Where two runs part, as text.

ghost use Rattle.std.specs.Prelude.{◌≡◌, ◌-◌, ◌+◌, ◌*◌, ◌≤◌, ◌^◌, ◌++◌, true, IfSome, codes, length};
ghost use Rattle.arrayvec.specs.ArrayVec.{array_vec_len};
ghost use Rattle.words.specs.Devices.{Writes, failures_after};
ghost use Rattle.cpu.specs.Run.{run};
ghost use Rattle.cpu.specs.State.{FitsRun, start};
ghost use Rattle.differ.specs.DifferText.{Keeps, differ_text, line_of, named, none_line, output_line, output_part};
ghost use Rattle.differ.specs.DifferText.{output_start, reading_text, state_line, state_part, step_line, step_part};
ghost use Rattle.differ.specs.MainSteps as mains;
ghost use Rattle.differ.specs.Outputs as outputs;
ghost use Rattle.differ.specs.States as states;

use crate::causes::{Followed, from_steps, step_start};
use crate::outputs::{OutputsApart, first_output};
use crate::side::first_step;
use crate::states::{CellApart, first_state};
use crate::why::write_asked;
use arrayvec::ArrayVec;
use cpu::{Cell, Machine, Processor};
use trace::{PlaceNames, cell_name, trace_step};
use words::{Wide, Write, WriteFailed, push_all, push_decimal, push_octal, write_all};

/// The most bytes of a line: its words, a number of 64 bits, a name and two words.
const LINE: usize = 96;

/// A line that is no line of the trace.
pub(crate) type Line = ArrayVec<u8, LINE>;

/// A run from its start, with the names of its places.
#[derive(Drop)]
pub struct NamedRun {
    /// The names.
    pub names: PlaceNames,
    /// What runs.
    pub processor: Processor,
}

impl NamedRun {
    /// Makes the steps up to one anew, and writes its line, with or without what it reads.
    #[tactic(auto, unfolding(crate::specs::DifferText::step_line))]
    fn write_step<W: Write>(
        &mut self,
        reads: bool,
        number: u64,
        out: &mut W,
    ) -> Result<(), WriteFailed>
        requires few { number ≤ 2 ^ 40 - 2 }
        ensures run { Keeps self.old self.new }
        ensures meter { self.new.processor.meter ≤ self.old.processor.meter + (number + 1) }
        ensures written { W.told ≡ true → Writes (W.written out.old) (W.written out.new)
            (step_line reads (named self.old) number) result }
        ensures failures { W.failures out.new ≡ failures_after (W.failures out.old) result }
    {
        let mut machine = Machine::start();
        go_to(&mut self.processor, &mut machine, number.saturating_sub(1));
        trace_step(
            reads,
            &self.names,
            &mut self.processor,
            &mut machine,
            number,
            out,
        )
    }

    /// Writes the line of a step, or that there is none.
    fn write_line<W: Write>(
        &mut self,
        reads: bool,
        number: Option<u64>,
        out: &mut W,
    ) -> Result<(), WriteFailed>
        requires few { IfSome number (λ n. n ≤ 2 ^ 40 - 2) }
        ensures run { Keeps self.old self.new }
        ensures written { W.told ≡ true → Writes (W.written out.old) (W.written out.new)
            (line_of reads (named self.old) number) result }
        ensures failures { W.failures out.new ≡ failures_after (W.failures out.old) result }
    {
        match number {
            None => write_all(out, b"NONE\n"),
            Some(number) => self.write_step(reads, number, out),
        }
    }
}

/// A machine after so many steps.
pub(crate) fn machine_after(processor: &mut Processor, steps: u64) -> Machine
    requires few { steps ≤ 2 ^ 40 - 2 }
    ensures stands { result ≡ run processor.old.scenario steps }
    ensures fits { FitsRun processor.new.scenario result }
    ensures scenario { processor.new.scenario ≡ processor.old.scenario }
{
    let mut machine = Machine::start();
    go_to(processor, &mut machine, steps);
    machine
}

/// Makes so many steps from the start.
fn go_to(processor: &mut Processor, machine: &mut Machine, steps: u64)
    requires few { steps ≤ 2 ^ 40 }
    requires starts { machine.old ≡ start }
    ensures scenario { processor.new.scenario ≡ processor.old.scenario }
    ensures meter { processor.new.meter ≤ processor.old.meter + steps }
    ensures stands { machine.new ≡ run processor.old.scenario steps }
{
    let mut done = 0;
    while done < steps {
        (done, _) = processor.run_on(machine, done, steps);
    }
}

/// Writes where two runs part in so many steps: the first word that they put out, the first cell after a step, and the
/// first step outside of interrupts that are not the same. Below each stand the lines of the steps, as `trace` has
/// them, of the one run and of the other.
///
/// For each of the three each run is made once, up to where it parts, and once more for its line. No memory is taken.
///
/// Where it is asked for, each is followed by how it came about, in at most so many steps of each run. For each of
/// these a run is made three times, up to that step.
///
/// After a failure a beginning of it was written.
#[tactic(auto, unfolding(crate::specs::DifferText::differ_text))]
pub fn write_differ<W: Write>(
    one: &mut NamedRun,
    other: &mut NamedRun,
    steps: u64,
    why: Option<u64>,
    out: &mut W,
) -> Result<(), WriteFailed>
    requires few { steps ≤ 2 ^ 40 - 2 }
    ensures written { W.told ≡ true → Writes (W.written out.old) (W.written out.new)
        (differ_text (named one.old) (named other.old) steps why) result }
    ensures failures { W.failures out.new ≡ failures_after (W.failures out.old) result }
{
    write_output(one, other, steps, why, out)?;
    write_state(one, other, steps, why, out)?;
    write_parting(one, other, steps, why, out)
}

/// Writes the first word that two runs put out that is not the same.
fn write_output<W: Write>(
    one: &mut NamedRun,
    other: &mut NamedRun,
    steps: u64,
    why: Option<u64>,
    out: &mut W,
) -> Result<(), WriteFailed>
    requires few { steps ≤ 2 ^ 40 - 2 }
    ensures one { Keeps one.old one.new }
    ensures other { Keeps other.old other.new }
    ensures written { W.told ≡ true → Writes (W.written out.old) (W.written out.new)
        (output_part (named one.old) (named other.old) steps why
        (outputs.first_output one.old.processor.scenario other.old.processor.scenario steps)) result }
    ensures failures { W.failures out.new ≡ failures_after (W.failures out.old) result }
{
    match first_output(&mut one.processor, &mut other.processor, steps) {
        None => write_all(out, none_line(b"OUTPUT", steps).as_slice()),
        Some(apart) => {
            let head = output_line(apart.number);
            write_lines(
                false,
                head.as_slice(),
                one,
                apart.here,
                other,
                apart.there,
                out,
            )?;
            let start = output_start(one, other, &apart);
            write_asked(one, other, why, start, out)
        }
    }
}

/// Writes the first cell of two runs that is not the same after a step.
fn write_state<W: Write>(
    one: &mut NamedRun,
    other: &mut NamedRun,
    steps: u64,
    why: Option<u64>,
    out: &mut W,
) -> Result<(), WriteFailed>
    requires few { steps ≤ 2 ^ 40 - 2 }
    ensures one { Keeps one.old one.new }
    ensures other { Keeps other.old other.new }
    ensures written { W.told ≡ true → Writes (W.written out.old) (W.written out.new)
        (state_part (named one.old) (named other.old) steps why
        (states.first_state one.old.processor.scenario other.old.processor.scenario steps)) result }
    ensures failures { W.failures out.new ≡ failures_after (W.failures out.old) result }
{
    match first_state(&mut one.processor, &mut other.processor, steps) {
        None => write_all(out, none_line(b"STATE", steps).as_slice()),
        Some(apart) => {
            let head = state_line(&one.names, &apart);
            let step = Some(apart.step);
            write_lines(false, head.as_slice(), one, step, other, step, out)?;
            let start = Followed {
                here: apart.step,
                there: apart.step,
                cell: apart.cell,
            };
            write_asked(one, other, why, Some(start), out)
        }
    }
}

/// Writes the first step of two runs outside of interrupts that is not the same.
fn write_parting<W: Write>(
    one: &mut NamedRun,
    other: &mut NamedRun,
    steps: u64,
    why: Option<u64>,
    out: &mut W,
) -> Result<(), WriteFailed>
    requires few { steps ≤ 2 ^ 40 - 2 }
    ensures written { W.told ≡ true → Writes (W.written out.old) (W.written out.new)
        (step_part (named one.old) (named other.old) steps why
        (mains.first_step one.old.processor.scenario other.old.processor.scenario steps)) result }
    ensures failures { W.failures out.new ≡ failures_after (W.failures out.old) result }
{
    match first_step(&mut one.processor, &mut other.processor, steps) {
        None => write_all(out, none_line(b"STEP", steps).as_slice()),
        Some((here, there)) => {
            write_lines(
                false,
                b"FIRST STEP\n",
                one,
                Some(here),
                other,
                Some(there),
                out,
            )?;
            let start = step_start(&mut one.processor, &mut other.processor, here, there);
            write_asked(one, other, why, start, out)
        }
    }
}

/// The cell of a word on a channel that is not the same, where both runs put one out.
fn output_start(one: &mut NamedRun, other: &mut NamedRun, apart: &OutputsApart) -> Option<Followed>
    requires few { IfSome apart.now.here (λ n. n ≤ 2 ^ 40 - 2) }
    requires other_few { IfSome apart.now.there (λ n. n ≤ 2 ^ 40 - 2) }
    ensures start { result ≡ output_start (named one.old) (named other.old) apart.now.here apart.now.there }
    ensures at { IfSome result (λ f. f.here ≤ 2 ^ 40 - 2) }
    ensures other_at { IfSome result (λ f. f.there ≤ 2 ^ 40 - 2) }
    ensures one { Keeps one.old one.new }
    ensures other { Keeps other.old other.new }
{
    match (apart.here, apart.there) {
        (Some(a), Some(b)) => from_steps(&mut one.processor, &mut other.processor, a, b),
        _ => None,
    }
}

/// Writes a line, and that of a step of each run, with or without what they read.
pub(crate) fn write_lines<W: Write>(
    reads: bool,
    head: &[u8],
    one: &mut NamedRun,
    here: Option<u64>,
    other: &mut NamedRun,
    there: Option<u64>,
    out: &mut W,
) -> Result<(), WriteFailed>
    requires here { IfSome here (λ n. n ≤ 2 ^ 40 - 2) }
    requires there { IfSome there (λ n. n ≤ 2 ^ 40 - 2) }
    ensures one { Keeps one.old one.new }
    ensures other { Keeps other.old other.new }
    ensures written { W.told ≡ true → Writes (W.written out.old) (W.written out.new)
        (head.now ++ (line_of reads (named one.old) here ++ line_of reads (named other.old) there)) result }
    ensures failures { W.failures out.new ≡ failures_after (W.failures out.old) result }
{
    write_all(out, head)?;
    one.write_line(reads, here, out)?;
    other.write_line(reads, there, out)
}

/// The line that two runs never differ so.
#[tactic(auto, using(words::proofs::Digits::short_decimal))]
fn none_line(what: &[u8], steps: u64) -> Line
    requires { length what.now ≤ 6 }
    ensures { result.items ≡ none_line what.now steps }
{
    let mut line = ArrayVec::new();
    push_all(&mut line, b"NO ");
    push_all(&mut line, what);
    push_all(&mut line, b" DIFFERS IN ");
    push_decimal(&mut line, steps);
    push_all(&mut line, b" STEPS\n");
    line
}

/// The line above two words of this number.
#[tactic(auto, using(words::proofs::Digits::short_decimal))]
fn output_line(number: u64) -> Line
    ensures { result.items ≡ output_line number }
{
    let mut line = ArrayVec::new();
    push_all(&mut line, b"FIRST OUTPUT ");
    push_decimal(&mut line, number);
    push_all(&mut line, b"\n");
    line
}

/// The line of a cell that is not the same, with what is read there in both runs.
fn state_line(names: &PlaceNames, apart: &CellApart) -> Line
    ensures { result.items ≡ state_line names.now apart.now }
{
    let mut line = ArrayVec::new();
    push_all(&mut line, b"FIRST STATE ");
    push_all(&mut line, cell_name(names, apart.cell).as_slice());
    push_all(&mut line, b" ");
    push_reading(&mut line, apart.cell, apart.here);
    push_all(&mut line, b" WITH ");
    push_reading(&mut line, apart.cell, apart.there);
    push_all(&mut line, b"\n");
    line
}

/// Appends what is read at a cell: 16 bits at A and Q, elsewhere a word.
fn push_reading(line: &mut Line, cell: Cell, number: Wide)
    requires { array_vec_len line.old ≤ 80 }
    ensures items { line.new.items ≡ line.old.items ++ reading_text cell number }
    ensures short { array_vec_len line.new ≤ array_vec_len line.old + 6 }
{
    if cell.number() == 0 || cell.number() == 2 {
        push_octal(line, 6, number.to_u16());
    } else {
        push_octal(line, 5, number.correct().to_u16());
    }
}
