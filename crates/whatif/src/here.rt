//! Trying one input at each of some steps of a run, as at the one where it stands.

ghost use Rattle.std.specs.Prelude.{◌≡◌, ◌+◌, ◌-◌, ◌*◌, ◌^◌, ◌<◌, ◌≤◌, None, IfOk, OnOk, true, if◌then◌else◌};
ghost use Rattle.words.specs.Devices.{Writes, one_more};
ghost use Rattle.cpu.specs.Run.{run};
ghost use Rattle.whatif.specs.Failing.{has_write_failed};
ghost use Rattle.whatif.specs.Here.{here_text, most_steps, own_steps, trial_after, trials_after};
ghost use Rattle.whatif.specs.Images.{past_image};
ghost use Rattle.whatif.specs.Looked.{all_came, came, looked};
ghost use Rattle.whatif.specs.Together.{told_together};
ghost use Rattle.whatif.specs.Trials.{tried, trial_at};

use crate::answer::Answer;
use crate::branch::{Tried, branch};
use crate::fault::{Refused, TrialFault, told_of};
use crate::going::Going;
use crate::images::Images;
use crate::others::Others;
use crate::seen::Seen;
use crate::span::{with_trial, write_open, write_without};
use crate::trying::{run_without, telling};
use cpu::{Machine, Processor};
use feed::{Input, Plain};
use std::alloc::Global;
use words::{Buffer, Write};

/// What is told of trials; how many steps were made for it; and the most machines that were held at once.
#[derive(Drop)]
pub struct TrialsTold {
    pub text: Buffer,
    pub made: u128,
    pub images: u64,
}

/// Tries an input at the cycles of a machine, at which a run stands after `first` steps, and at those after each of so
/// many more: tells what the run puts out from there on, up to so many steps in all, and what it would with the input,
/// of the other words the first.
///
/// What runs, and the machine, are copied. The run without a trial is made from the machine on, and so is the way to
/// the last step, once; the run with each trial from where it parts from that way.
pub fn try_steps(
    alloc: Global,
    processor: &Processor,
    machine: &Machine,
    first: u64,
    more: u64,
    input: Input,
    steps: u64,
) -> Result<TrialsTold, TrialFault>
    requires few { steps ≤ 2 ^ 40 - 2 }
    requires within { first + more ≤ steps }
    requires stands { machine.now ≡ run processor.now.scenario first }
    ensures text { IfOk result (λ told. told.text.written ≡ here_text processor.now.scenario first more input steps) }
    ensures once { IfOk result (λ told. told.made ≤ most_steps first more steps) }
    ensures images { IfOk result (λ told. told.images ≤ 3) }
{
    let Ok(mut copy) = processor.copied(alloc) else {
        return Err(TrialFault::NoMemory);
    };
    let mut images = Images::none();
    let mut trunk = Going::after(alloc, &mut images, machine, first);
    let alone = Answer::none(alloc);
    let without = run_without(alloc, &mut images, &mut copy, &alone, &trunk, steps)?;
    let mut text = Buffer::new(alloc);
    write_without(&without, &mut text)?;
    let told = telling(Others::First, &without);
    let made = write_each(
        alloc,
        &mut images,
        &mut copy,
        &without.seen,
        &mut trunk,
        told,
        &without,
        input,
        first,
        more,
        steps,
        &mut text,
    )?;
    Ok(TrialsTold {
        text,
        made: copy.meter() + made,
        images: images.most,
    })
}

/// Tells what the run comes to with an input at each of some steps, and answers how many steps the trials were.
pub(crate) fn write_each<S: Seen, W: Write>(
    alloc: Global,
    images: &mut Images,
    processor: &mut Processor,
    beside: &S::Beside,
    trunk: &mut Going<S>,
    told: S::Way,
    without: &Going<S>,
    input: Input,
    first: u64,
    more: u64,
    steps: u64,
    out: &mut W,
) -> Result<u128, TrialFault>
    requires held { images.old.held ≡ 2 }
    requires most { images.old.most ≤ 3 }
    requires few { steps ≤ 2 ^ 40 - 2 }
    requires order { trunk.old.done ≤ first }
    requires within { first + more ≤ steps }
    requires from { trunk.old.from ≡ trunk.old.done }
    requires machine { trunk.old.machine ≡ run processor.old.scenario trunk.old.done }
    requires seen { trunk.old.seen
        ≡ looked S.begins (S.more beside.now) trunk.old.from processor.old.scenario trunk.old.done }
    ensures written { W.told ≡ true → Writes (W.written out.old) (W.written out.new)
        (told_together (S.joins_by told) (S.tells told) None (all_came (S.comes without.now.machine without.now.seen)
        S.begins (S.more beside.now) trunk.old.from processor.old.scenario steps
        (trials_after processor.old.scenario input first (more + 1)))) result }
    ensures failures { W.failures out.new ≡
        (if has_write_failed result then one_more (W.failures out.old) else W.failures out.old) }
    ensures own { IfOk result (λ own. own ≤ own_steps first (more + 1) steps) }
    ensures small { IfOk result (λ own. own ≤ (more + 1) * 2 ^ 40) }
    ensures once { OnOk result (processor.new.meter + trunk.old.done ≤ processor.old.meter + (first + more)) }
    ensures images { OnOk result (images.new.most ≤ 3) }
{
    let mut pending = None;
    let mut own = 0;
    for further in 0..more + 1 {
        let step = first + further;
        let tried = match try_at(
            alloc, images, processor, beside, trunk, input, without, step, steps,
        ) {
            Ok(tried) => tried,
            Err(refused) => return Err(told_of(refused)),
        };
        pending = Some(with_trial::<S, W>(told, pending, tried.cycle, tried.came, out)?);
        own += tried.made;
    }
    write_open::<S, W>(told, &pending, out)?;
    Ok(own)
}

/// Goes on to a step, and answers what the run comes to with an input there.
fn try_at<S: Seen>(
    alloc: Global,
    images: &mut Images,
    processor: &mut Processor,
    beside: &S::Beside,
    trunk: &mut Going<S>,
    input: Input,
    without: &Going<S>,
    step: u64,
    steps: u64,
) -> Result<Tried<S::Came>, Refused>
    requires room { images.old.held ≡ 2 }
    requires few { steps ≤ 2 ^ 40 - 2 }
    requires begun { trunk.old.from ≤ trunk.old.done }
    requires order { trunk.old.done ≤ step }
    requires within { step ≤ steps }
    requires machine { trunk.old.machine ≡ run processor.old.scenario trunk.old.done }
    requires seen { trunk.old.seen
        ≡ looked S.begins (S.more beside.now) trunk.old.from processor.old.scenario trunk.old.done }
    ensures came { IfOk result (λ r. r.came ≡ came (S.comes without.now.machine without.now.seen) S.begins
        (S.more beside.now) trunk.old.from
        (tried processor.old.scenario (trial_after processor.old.scenario input step)) steps) }
    ensures cycle { IfOk result (λ r. r.cycle ≡ (run processor.old.scenario step).cycles) }
    ensures own { IfOk result (λ r. r.made + step ≤ steps) }
    ensures scenario { processor.new.scenario ≡ processor.old.scenario }
    ensures once { OnOk result (processor.new.meter + trunk.old.done ≤ processor.old.meter + step) }
    ensures from { trunk.new.from ≡ trunk.old.from }
    ensures done { OnOk result (trunk.new.done ≡ step) }
    ensures machine { OnOk result (trunk.new.machine ≡ run processor.old.scenario step) }
    ensures seen { OnOk result (trunk.new.seen
        ≡ looked S.begins (S.more beside.now) trunk.old.from processor.old.scenario step) }
    ensures images { OnOk result (images.new ≡ past_image images.old) }
{
    trunk.go_on(processor, beside, step)?;
    let trial = trial_at(&trunk.machine, input);
    let tried = branch(
        alloc, images, processor, beside, trunk, &trial, without, steps,
    )?;
    Ok(tried)
}

/// An input at the cycles of a machine.
fn trial_at(machine: &Machine, input: Input) -> Plain
    ensures { result ≡ trial_at machine.now input }
{
    Plain {
        cycle: machine.cycles(),
        line: 0,
        input,
    }
}
