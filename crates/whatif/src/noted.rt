//! Which notes a run would have with one input more: each of some inputs is tried alone.

ghost use Rattle.std.specs.Prelude.{◌≡◌, ◌+◌, ◌*◌, ◌-◌, ◌^◌, ◌≤◌, IfOk, OnOk};
ghost use Rattle.cpu.specs.Run.{run};
ghost use Rattle.whatif.specs.Changes.{change_text, note_trials_text, span_line, without_text};
ghost use Rattle.whatif.specs.NotedHere.{most_noted, noted_here};

use crate::change::{Change, push_others};
use crate::fault::{Refused, TrialFault};
use crate::going::Going;
use crate::here::{TrialsTold, write_each};
use crate::images::Images;
use crate::seen::Seen;
use crate::span::{Span, write_text};
use crate::trying::{are_rising, run_without, write_trials};
use arrayvec::ArrayVec;
use cpu::{Machine, Processor, make_step};
use feed::{Input, Plain};
use notes::{Note, NotedSteps};
use std::alloc::Global;
use words::{Buffer, Write, push_all, push_decimal};
use yayul::NamedPlaces;

/// The most bytes of a line: its words, three numbers of 64 bits and a line feed.
const LINE: usize = 96;

/// A line.
type Line = ArrayVec<u8, LINE>;

impl Seen for NotedSteps {
    ghost use Rattle.notes.specs.Noted.{nothing_noted};
    ghost use Rattle.whatif.specs.Changes.{change, joins, note, span_text};

    type Beside = NamedPlaces;

    type Came = Change;

    type Way = ();

    ghost begins = { nothing_noted };

    ghost more = { λ named. note named };

    ghost comes = { λ without noted s a. change noted.notes s a };

    ghost joins_by = { λ way. joins };

    ghost tells = { λ way. span_text };

    fn none(alloc: Global) -> NotedSteps {
        NotedSteps::nothing(alloc)
    }

    fn again(&self, alloc: Global) -> Result<NotedSteps, Refused> {
        match self.copied(alloc) {
            Ok(copy) => Ok(copy),
            Err(_) => Err(Refused::NoMemory),
        }
    }

    #[inline(always)]
    fn look(
        &mut self,
        beside: &NamedPlaces,
        processor: &mut Processor,
        machine: &mut Machine,
    ) -> Result<(), Refused> {
        let noted = self.note(beside, processor, machine);
        make_step(processor, machine);
        match noted {
            Ok(()) => Ok(()),
            Err(_) => Err(Refused::NoMemory),
        }
    }

    fn compare(
        alloc: Global,
        without: &Going<NotedSteps>,
        going: Going<NotedSteps>,
    ) -> Result<Change, Refused>
        ensures { IfOk result (λ came. came ≡ change_text without.now.seen.notes going.seen.notes) }
    {
        match Change::between(alloc, without.seen.notes(), going.seen.notes()) {
            Ok(change) => Ok(change),
            Err(_) => Err(Refused::NoMemory),
        }
    }

    fn joins(_told: (), span: &Span<Change>, _cycle: u64, came: &Change) -> bool {
        span.came.is_same(came)
    }

    fn write_span<W: Write>(_told: (), span: &Span<Change>, out: &mut W) -> Result<(), TrialFault> {
        write_text(span_line(span).as_slice(), out)?;
        write_text(span.came.text(), out)
    }
}

/// Tries some inputs, each of them alone, in a program whose words name some places: tells the notes of the run of so
/// many steps without them, and then which notes it would have with each that it has not, and which it would not.
/// Trials one after another that change the same are told together.
///
/// The run without them is made twice, however many they are; and the run with each from where it parts from that one.
pub fn note_trials(
    alloc: Global,
    named: &NamedPlaces,
    processor: &mut Processor,
    trials: &[Plain],
    steps: u64,
) -> Result<Buffer, TrialFault>
    requires few { steps ≤ 2 ^ 40 - 2 }
    ensures text { IfOk result (λ text. text.written
        ≡ note_trials_text named.now processor.old.scenario trials.now steps) }
    ensures twice { OnOk result (processor.new.meter ≤ processor.old.meter + 2 * steps) }
{
    if !are_rising(0, trials) {
        return Err(TrialFault::OutOfOrder);
    }
    let mut images = Images::none();
    let start: Going<NotedSteps> = Going::at_start(alloc, &mut images);
    let without = run_without(alloc, &mut images, processor, named, &start, steps)?;
    let mut text = without_text(alloc, without.seen.notes())?;
    write_trials(
        alloc,
        &mut images,
        processor,
        named,
        &start,
        0,
        (),
        &without,
        trials,
        steps,
        &mut text,
    )?;
    Ok(text)
}

/// Tries an input at the cycles after `first` steps of a run, and at those after each of so many more, in a program
/// whose words name some places: tells the notes of the run's steps after `since`, up to so many steps in all, and then
/// which notes it would have with the input that it has not, and which it would not. The machine stands after `since`
/// steps.
///
/// What runs, and the machine, are copied. The run without a trial is made from the machine on, and so is the way to
/// the last trial, once; the run with each from where it comes.
pub fn note_steps(
    alloc: Global,
    named: &NamedPlaces,
    processor: &Processor,
    machine: &Machine,
    since: u64,
    first: u64,
    more: u64,
    input: Input,
    steps: u64,
) -> Result<TrialsTold, TrialFault>
    requires few { steps ≤ 2 ^ 40 - 2 }
    requires order { since ≤ first }
    requires within { first + more ≤ steps }
    requires stands { machine.now ≡ run processor.now.scenario since }
    ensures text { IfOk result (λ told. told.text.written
        ≡ noted_here named.now since processor.now.scenario first more input steps) }
    ensures once { IfOk result (λ told. told.made ≤ most_noted since first more steps) }
    ensures images { IfOk result (λ told. told.images ≤ 3) }
{
    let Ok(mut copy) = processor.copied(alloc) else {
        return Err(TrialFault::NoMemory);
    };
    let mut images = Images::none();
    let mut trunk: Going<NotedSteps> = Going::after(alloc, &mut images, machine, since);
    let without = run_without(alloc, &mut images, &mut copy, named, &trunk, steps)?;
    let mut text = without_text(alloc, without.seen.notes())?;
    let made = write_each(
        alloc,
        &mut images,
        &mut copy,
        named,
        &mut trunk,
        (),
        &without,
        input,
        first,
        more,
        steps,
        &mut text,
    )?;
    Ok(TrialsTold {
        text,
        made: copy.meter() + made,
        images: images.most,
    })
}

/// The notes of the run without a trial.
fn without_text(alloc: Global, without: &[Note]) -> Result<Buffer, TrialFault>
    ensures { IfOk result (λ text. text.written ≡ without_text without.now) }
{
    let mut lines = Vec::new(alloc);
    let Ok(()) = push_others(&mut lines, b"NOTE ", &[], without) else {
        return Err(TrialFault::NoMemory);
    };
    let mut text = Buffer::new(alloc);
    write_text(&lines, &mut text)?;
    Ok(text)
}

/// The line of some trials.
#[tactic(auto, using(words::proofs::Digits::short_decimal))]
fn span_line(span: &Span<Change>) -> Line
    ensures { result.items ≡ span_line span.now }
{
    let mut line = ArrayVec::new();
    push_all(&mut line, b"FROM ");
    push_decimal(&mut line, span.first);
    push_all(&mut line, b" TO ");
    push_decimal(&mut line, span.last);
    push_all(&mut line, b" COUNT ");
    push_decimal(&mut line, span.count);
    push_all(&mut line, b"\n");
    line
}
