//! Where a run comes to a hole.

ghost use Rattle.std.specs.Prelude.{◌≡◌, ◌+◌, ◌-◌, ◌≤◌, ◌<◌, ◌^◌, true, IfSome};
ghost use Rattle.words.specs.Devices.{Writes, failures_after};
ghost use Rattle.cpu.specs.Next.{next};
ghost use Rattle.cpu.specs.State.{FitsRun};
ghost use Rattle.holes.specs.HoleRuns.{fetches, fetches_hole, first_hole, hole_front, hole_text, is_hole_of};
ghost use Rattle.holes.specs.HoleRuns.{place_of_z};

use crate::filling::is_hole_at;
use arrayvec::ArrayVec;
use cpu::{Machine, NextStep, Processor, make_step};
use rope::Rope;
use space::Linear;
use words::{Word, Write, WriteFailed, push_all, push_decimal};
use yayul::SourceRows;

/// The most bytes before the row of a hole: `agcws: HOLE AT STEP `, a number, a colon and a blank.
const FRONT: usize = 64;

type Front = ArrayVec<u8, FRONT>;

/// A hole to which a run has come.
#[derive(Clone, Copy, Debug, Drop)]
pub struct FoundHole {
    /// How many steps were made before.
    pub steps: u64,
    /// Its place.
    pub place: Linear,
}

/// The first hole whose word one of some steps of a run from the start fetches, to execute it, or where an interrupt is
/// entered, which keeps it. It makes the steps before, and takes no memory. The holes are the places where a word
/// stands in the processor's fixed memory, and `other` has another one.
pub fn first_hole(processor: &mut Processor, other: &Rope, steps: u64) -> Option<FoundHole>
    requires { steps ≤ 2 ^ 40 - 2 }
    ensures found { result ≡ first_hole processor.old.scenario other.now steps }
    ensures before { IfSome result (λ hole. hole.steps < steps) }
    ensures few { IfSome result (λ hole. hole.steps < 2 ^ 40) }
    ensures scenario { processor.new.scenario ≡ processor.old.scenario }
    ensures once { processor.new.meter ≤ processor.old.meter + steps }
{
    let mut machine = Machine::start();
    for done in 0..steps {
        if fetches_hole(processor, &machine, other) {
            return Some(FoundHole {
                steps: done,
                place: machine.next_place(),
            });
        }
        advance(processor, &mut machine);
    }
    None
}

// Makes a step.
fn advance(processor: &mut Processor, machine: &mut Machine)
    requires cycles { machine.old.cycles ≤ 2 ^ 62 }
    requires fits { FitsRun processor.old.scenario machine.old }
    ensures scenario { processor.new.scenario ≡ processor.old.scenario }
    ensures state { machine.new ≡ (next processor.old.scenario machine.old).0 }
    ensures meter { processor.new.meter ≤ processor.old.meter + 1 }
{
    let _put = make_step(processor, machine);
}

// Whether the next step fetches the word of a hole.
fn fetches_hole(processor: &Processor, machine: &Machine, other: &Rope) -> bool
    requires { FitsRun processor.now.scenario machine.now }
    ensures { result ≡ fetches_hole processor.now.scenario other.now machine.now }
{
    is_hole_of(processor.rope(), other, machine.next_place())
        && fetches(&processor.next_step(machine))
}

// Whether a place is a hole.
#[inline(always)]
fn is_hole_of(words: &Rope, other: &Rope, place: Linear) -> bool
    ensures { result ≡ is_hole_of words.now other.now place }
{
    match place {
        Linear::Fixed(bank, offset) => is_hole_at(words, other, bank, offset),
        Linear::Erasable(_) => false,
    }
}

// Whether a step reads the word at the place where Z leads.
fn fetches(step: &NextStep) -> bool
    ensures { result ≡ fetches step.now }
{
    match step {
        NextStep::Takes(_) => false,
        NextStep::Enters(_) => true,
        NextStep::Executes(fetched) => !fetched.waited,
    }
}

/// Writes the line of a hole to which a run of a source has come, as `agcws: HOLE AT STEP 12:     7 02,4001 00000  ..`:
/// which step would fetch its word, and its row in the listing.
///
/// After a failure a beginning of it was written.
pub fn write_hole<W: Write>(
    hole: &FoundHole,
    rows: &SourceRows,
    words: &Rope,
    out: &mut W,
) -> Result<(), WriteFailed>
    requires { hole.now.steps < 2 ^ 40 }
    ensures written { W.told ≡ true → Writes (W.written out.old) (W.written out.new)
        (hole_text rows.now words.now hole.now) result }
    ensures failures { W.failures out.new ≡ failures_after (W.failures out.old) result }
{
    let front = hole_front(hole.steps);
    rows.write_row_of(front.as_slice(), words, Word::ZERO, hole.place, out)?;
    Ok(())
}

// What stands before the row of a hole.
#[tactic(auto, using(words::proofs::Digits::short_decimal), unfolding(crate::specs::HoleRuns::hole_front))]
fn hole_front(steps: u64) -> Front
    requires { steps < 2 ^ 40 }
    ensures { result.items ≡ hole_front steps }
{
    let mut front = ArrayVec::new();
    push_all(&mut front, b"agcws: HOLE AT STEP ");
    push_decimal(&mut front, steps + 1);
    push_all(&mut front, b": ");
    front
}
