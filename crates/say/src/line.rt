//! The line of a step, with its sentence.

ghost use Rattle.std.specs.Prelude.{◌≡◌, ◌+◌, ◌-◌, ◌^◌, ◌≤◌, ◌++◌, min, true, decimal, codes};
ghost use Rattle.arrayvec.specs.ArrayVec.{array_vec_len};
ghost use Rattle.words.specs.Devices.{Writes, failures_after};
ghost use Rattle.cpu.specs.Next.{next};
ghost use Rattle.cpu.specs.NextStep.{next_step};
ghost use Rattle.cpu.specs.State.{FitsRun};
ghost use Rattle.say.specs.Said.{filled, said_line};
ghost use Rattle.say.specs.Sentences.{sentence};
ghost use Rattle.say.specs.Told.{called, places_of, values_after, values_before};
ghost use Rattle.trace.specs.TraceLines.{field, what_text};

use crate::called::{Called, called_in};
use crate::piece::{Facts, write_filled};
use crate::places::{Places, places_of};
use crate::sentence::{Sentence, sentence_of};
use crate::values::{Values, values_after, values_before};
use arrayvec::ArrayVec;
use cpu::{Machine, Processor};
use rope::Rope;
use trace::{Names, StepFields, decimal_text, what_text};
use words::{Write, WriteFailed, push_all, write_all};
use yayul::push_blanks;

/// How wide the column of the step is.
const NUMBER_WIDTH: usize = 8;

/// Makes a step, and writes its line: its number, what it is, as a trace has it, and what it did, in a sentence.
///
/// After a failure a beginning of the line was written.
#[tactic(auto, unfolding(crate::specs::Said::said_line))]
pub fn say_step<N: Names, W: Write>(
    names: &N,
    processor: &mut Processor,
    machine: &mut Machine,
    number: u64,
    out: &mut W,
) -> Result<(), WriteFailed>
    requires cycles { machine.old.cycles ≤ 2 ^ 62 }
    requires fits { FitsRun processor.old.scenario machine.old }
    ensures processor { processor.new ≡ record processor.old { meter = min (processor.old.meter + 1) (2 ^ 128 - 1) } }
    ensures scenario { processor.new.scenario ≡ processor.old.scenario }
    ensures state { machine.new ≡ (next processor.old.scenario machine.old).0 }
    ensures written { W.told ≡ true →
        Writes (W.written out.old) (W.written out.new)
        (said_line (N.table names.now) processor.old.scenario number machine.old) result }
    ensures failures { W.failures out.new ≡ failures_after (W.failures out.old) result }
{
    let scene = scene_of(names, processor, machine);
    processor.step(machine);
    write_line(number, scene, processor.rope(), machine, out)
}

/// What is told of a step by the machine before it.
#[derive(Drop)]
struct Scene {
    what: StepFields,
    called: Called,
    places: Places,
    before: Values,
    sentence: Sentence,
}

/// What is told of the next step.
fn scene_of<N: Names>(names: &N, processor: &Processor, machine: &Machine) -> Scene
    requires { FitsRun processor.now.scenario machine.now }
    ensures what { result.what.items ≡ what_text (N.table names.now) processor.now.scenario.rope machine.now
        (next_step processor.now.scenario machine.now) }
    ensures short { array_vec_len result.what ≤ 66 }
    ensures called { result.called ≡ called (N.table names.now) processor.now.scenario.rope machine.now
        (next_step processor.now.scenario machine.now) }
    ensures places { result.places ≡ places_of machine.now (next_step processor.now.scenario machine.now) }
    ensures before { result.before ≡ values_before processor.now.scenario.rope machine.now result.places }
    ensures sentence { result.sentence.items
        ≡ sentence machine.now result.places result.before (next_step processor.now.scenario machine.now) }
{
    let step = processor.next_step(machine);
    let places = places_of(machine, &step);
    let before = values_before(processor.rope(), machine, &places);
    Scene {
        what: what_text(names, processor, machine),
        called: called_in(names, processor.rope(), machine, &step),
        places,
        before,
        sentence: sentence_of(machine, &places, &before, &step),
    }
}

/// Writes the line of a step, by what was told before it and the machine after it.
///
/// After a failure a beginning of it was written.
fn write_line<W: Write>(
    number: u64,
    scene: Scene,
    rope: &Rope,
    machine: &Machine,
    out: &mut W,
) -> Result<(), WriteFailed>
    requires { array_vec_len scene.what ≤ 66 }
    ensures written { W.told ≡ true →
        Writes (W.written out.old) (W.written out.new)
        ((field 8 (decimal number) ++ scene.what.items)
        ++ (filled scene.called scene.places.channel scene.before (values_after rope.now machine.now scene.places)
        scene.sentence.items ++ codes "\n")) result }
    ensures failures { W.failures out.new ≡ failures_after (W.failures out.old) result }
{
    let Scene {
        what,
        called,
        places,
        before,
        sentence,
    } = scene;
    let after = values_after(rope, machine, &places);
    let facts = Facts {
        called,
        channel: places.channel,
        before,
        after,
    };
    write_head(number, &what, out)?;
    write_filled(&facts, sentence.as_slice(), out)?;
    write_all(out, b"\n")
}

/// Writes the number of a step, and what it is.
///
/// After a failure a beginning of it was written.
fn write_head<W: Write>(number: u64, what: &StepFields, out: &mut W) -> Result<(), WriteFailed>
    requires { array_vec_len what.now ≤ 66 }
    ensures written { W.told ≡ true → Writes (W.written out.old) (W.written out.new)
        (field 8 (decimal number) ++ what.now.items) result }
    ensures failures { W.failures out.new ≡ failures_after (W.failures out.old) result }
{
    let mut head: ArrayVec<u8, 128> = ArrayVec::new();
    let digits = decimal_text(number);
    push_all(&mut head, digits.as_slice());
    push_blanks(
        &mut head,
        2 + NUMBER_WIDTH.saturating_sub(digits.as_slice().len()),
    );
    push_all(&mut head, what.as_slice());
    write_all(out, head.as_slice())
}
