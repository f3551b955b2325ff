//! Trying some inputs, each of them alone.

ghost use Rattle.std.specs.Prelude.{◌≡◌, ◌+◌, ◌-◌, ◌*◌, ◌^◌, ◌<◌, ◌≤◌, [], None, IfOk, OnOk, false, true};
ghost use Rattle.std.specs.Prelude.{if◌then◌else◌};
ghost use Rattle.words.specs.Devices.{Writes, one_more};
ghost use Rattle.whatif.specs.Failing.{has_write_failed};
ghost use Rattle.whatif.specs.Images.{most_images, with_image};
ghost use Rattle.whatif.specs.Looked.{all_came, looked};
ghost use Rattle.whatif.specs.Outcomes.{begun};
ghost use Rattle.whatif.specs.Spans.{telling, trials_text, whatif_text};
ghost use Rattle.cpu.specs.Run.{run};
ghost use Rattle.whatif.specs.Trials.{IsBefore, are_rising};
ghost use Rattle.whatif.specs.Together.{told_together};

use crate::answer::Answer;
use crate::branch::try_one;
use crate::fault::{TrialFault, told_of};
use crate::going::Going;
use crate::images::Images;
use crate::others::{Others, Telling};
use crate::seen::Seen;
use crate::span::{with_trial, write_open, write_without};
use cpu::Processor;
use feed::Plain;
use std::alloc::Global;
use words::Write;

/// Tries some inputs, each of them alone: tells what the run of so many steps puts out without them, and then what it
/// would with each. Trials one after another that come to the same are told in one line.
///
/// The run without them is made twice, however many they are; and the run with each from where it parts from that one.
///
/// After an error a beginning of the text was written.
#[tactic(auto, unfolding(crate::specs::Spans::whatif_text))]
pub fn try_inputs<W: Write>(
    alloc: Global,
    processor: &mut Processor,
    trials: &[Plain],
    steps: u64,
    out: &mut W,
) -> Result<(), TrialFault>
    requires few { steps ≤ 2 ^ 40 - 2 }
    ensures written { W.told ≡ true → Writes (W.written out.old) (W.written out.new)
        (whatif_text processor.old.scenario trials.now steps) result }
    ensures failures { W.failures out.new ≡
        (if has_write_failed result then one_more (W.failures out.old) else W.failures out.old) }
    ensures twice { processor.new.meter ≤ processor.old.meter + 2 * steps }
{
    let mut images = Images::none();
    let start = Going::at_start(alloc, &mut images);
    try_after(
        alloc,
        &mut images,
        processor,
        &start,
        0,
        Others::All,
        trials,
        steps,
        out,
    )
}

/// Tries some inputs, none below a cycle, from where a run stands of which no step is looked at yet.
fn try_after<W: Write>(
    alloc: Global,
    images: &mut Images,
    processor: &mut Processor,
    start: &Going<Answer>,
    first: u64,
    others: Others,
    trials: &[Plain],
    steps: u64,
    out: &mut W,
) -> Result<(), TrialFault>
    requires room { images.old.held ≡ 1 }
    requires few { steps ≤ 2 ^ 40 - 2 }
    requires within { start.now.done ≤ steps }
    requires begun { start.now.seen ≡ begun }
    requires from { start.now.from ≡ start.now.done }
    requires machine { start.now.machine ≡ run processor.old.scenario start.now.done }
    requires before { IsBefore processor.old.scenario start.now.done first }
    ensures written { W.told ≡ true → Writes (W.written out.old) (W.written out.new)
        (trials_text others start.now.from processor.old.scenario trials.now steps) result }
    ensures failures { W.failures out.new ≡
        (if has_write_failed result then one_more (W.failures out.old) else W.failures out.old) }
    ensures twice { processor.new.meter + 2 * start.now.done ≤ processor.old.meter + 2 * steps }
{
    if !are_rising(first, trials) {
        return Err(TrialFault::OutOfOrder);
    }
    let alone = Answer::none(alloc);
    let without = run_without(alloc, images, processor, &alone, start, steps)?;
    write_without(&without, out)?;
    let told = telling(others, &without);
    write_trials(
        alloc,
        images,
        processor,
        &without.seen,
        start,
        first,
        told,
        &without,
        trials,
        steps,
        out,
    )
}

/// How trials are told beside a run.
pub(crate) fn telling(others: Others, without: &Going<Answer>) -> Telling
    ensures { result ≡ telling others without.now.machine }
{
    Telling {
        others,
        end: without.machine.cycles(),
    }
}

/// The run without a trial, to its end.
pub(crate) fn run_without<S: Seen>(
    alloc: Global,
    images: &mut Images,
    processor: &mut Processor,
    beside: &S::Beside,
    start: &Going<S>,
    steps: u64,
) -> Result<Going<S>, TrialFault>
    requires room { images.old.held < most_images }
    requires few { steps ≤ 2 ^ 40 - 2 }
    requires within { start.now.done ≤ steps }
    requires begun { start.now.seen ≡ S.begins }
    requires from { start.now.from ≡ start.now.done }
    requires machine { start.now.machine ≡ run processor.old.scenario start.now.done }
    ensures kept { has_write_failed result ≡ false }
    ensures machine { IfOk result (λ without. without.machine ≡ run processor.old.scenario steps) }
    ensures seen { IfOk result (λ without. without.seen
        ≡ looked S.begins (S.more beside.now) start.now.from processor.old.scenario steps) }
    ensures scenario { processor.new.scenario ≡ processor.old.scenario }
    ensures once { processor.new.meter + start.now.done ≤ processor.old.meter + steps }
    ensures images { OnOk result (images.new ≡ with_image images.old) }
{
    let mut whole = match start.copied(alloc, images) {
        Ok(whole) => whole,
        Err(refused) => return Err(told_of(refused)),
    };
    match whole.go_on(processor, beside, steps) {
        Ok(()) => Ok(whole),
        Err(refused) => Err(told_of(refused)),
    }
}

/// Whether the cycles of some inputs rise from one on.
pub(crate) fn are_rising(first: u64, trials: &[Plain]) -> bool
    ensures { result ≡ are_rising first trials.now }
{
    let mut last = first;
    for trial in trials {
        if trial.cycle < last {
            return false;
        }
        last = trial.cycle;
    }
    true
}

/// Tells what each of some inputs comes to, beside the run without them.
pub(crate) fn write_trials<S: Seen, W: Write>(
    alloc: Global,
    images: &mut Images,
    processor: &mut Processor,
    beside: &S::Beside,
    start: &Going<S>,
    first: u64,
    told: S::Way,
    without: &Going<S>,
    trials: &[Plain],
    steps: u64,
    out: &mut W,
) -> Result<(), TrialFault>
    requires room { images.old.held ≡ 2 }
    requires few { steps ≤ 2 ^ 40 - 2 }
    requires within { start.now.done ≤ steps }
    requires begun { start.now.seen ≡ S.begins }
    requires from { start.now.from ≡ start.now.done }
    requires machine { start.now.machine ≡ run processor.old.scenario start.now.done }
    requires before { IsBefore processor.old.scenario start.now.done first }
    requires rising { are_rising first trials.now ≡ true }
    ensures written { W.told ≡ true → Writes (W.written out.old) (W.written out.new)
        (told_together (S.joins_by told) (S.tells told) None (all_came (S.comes without.now.machine without.now.seen)
        S.begins (S.more beside.now) start.now.from processor.old.scenario steps trials.now)) result }
    ensures failures { W.failures out.new ≡
        (if has_write_failed result then one_more (W.failures out.old) else W.failures out.old) }
    ensures once { processor.new.meter + start.now.done ≤ processor.old.meter + steps }
{
    let mut trunk = match start.copied(alloc, images) {
        Ok(trunk) => trunk,
        Err(refused) => return Err(told_of(refused)),
    };
    let mut pending = None;
    for trial in trials {
        let came = match try_one(
            alloc, images, processor, beside, &mut trunk, trial, without, steps,
        ) {
            Ok(came) => came,
            Err(refused) => return Err(told_of(refused)),
        };
        pending = Some(with_trial::<S, W>(told, pending, trial.cycle, came, out)?);
    }
    write_open::<S, W>(told, &pending, out)
}
