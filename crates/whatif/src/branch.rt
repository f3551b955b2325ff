//! The run with one input more, from where it parts from the run without it.

ghost use Rattle.std.specs.Prelude.{◌≡◌, ◌+◌, ◌-◌, ◌^◌, ◌<◌, ◌≤◌, IfOk, OnOk};
ghost use Rattle.feed.specs.Added.{AddsLast};
ghost use Rattle.cpu.specs.Run.{run};
ghost use Rattle.whatif.specs.Images.{most_images, past_image};
ghost use Rattle.whatif.specs.Looked.{came, looked};
ghost use Rattle.whatif.specs.Trials.{AreSameBelow, IsBefore, tried};

use crate::fault::{Refused, refused_of};
use crate::going::Going;
use crate::images::Images;
use crate::seen::Seen;
use cpu::Processor;
use feed::Plain;
use std::alloc::Global;

/// At which cycle a trial comes, what it comes to, and how many steps were made for it.
#[derive(Drop)]
pub(crate) struct Tried<C> {
    pub(crate) cycle: u64,
    pub(crate) came: C,
    pub(crate) made: u128,
}

/// Goes on with the run without a trial to where this parts from it, and answers what the trial comes to beside all of
/// that run.
pub(crate) fn try_one<S: Seen>(
    alloc: Global,
    images: &mut Images,
    processor: &mut Processor,
    beside: &S::Beside,
    trunk: &mut Going<S>,
    trial: &Plain,
    without: &Going<S>,
    steps: u64,
) -> Result<S::Came, Refused>
    requires room { images.old.held < most_images }
    requires few { steps ≤ 2 ^ 40 - 2 }
    requires begun { trunk.old.from ≤ trunk.old.done }
    requires within { trunk.old.done ≤ steps }
    requires machine { trunk.old.machine ≡ run processor.old.scenario trunk.old.done }
    requires seen { trunk.old.seen
        ≡ looked S.begins (S.more beside.now) trunk.old.from processor.old.scenario trunk.old.done }
    requires before { IsBefore processor.old.scenario trunk.old.done trial.now.cycle }
    ensures came { IfOk result (λ r. r ≡ came (S.comes without.now.machine without.now.seen) S.begins
        (S.more beside.now) trunk.old.from (tried processor.old.scenario trial.now) steps) }
    ensures scenario { processor.new.scenario ≡ processor.old.scenario }
    ensures once { OnOk result (processor.new.meter + trunk.old.done ≤ processor.old.meter + trunk.new.done) }
    ensures most { processor.new.meter + trunk.old.done ≤ processor.old.meter + steps }
    ensures within { trunk.new.done ≤ steps }
    ensures from { trunk.new.from ≡ trunk.old.from }
    ensures begun { trunk.old.done ≤ trunk.new.done }
    ensures trunk { OnOk result (trunk.new.machine ≡ run processor.old.scenario trunk.new.done) }
    ensures seen { OnOk result (trunk.new.seen
        ≡ looked S.begins (S.more beside.now) trunk.old.from processor.old.scenario trunk.new.done) }
    ensures before { OnOk result (IsBefore processor.old.scenario trunk.new.done trial.now.cycle) }
    ensures images { OnOk result (images.new ≡ past_image images.old) }
{
    trunk.go_to(processor, beside, trial.cycle, steps)?;
    let tried = branch(
        alloc, images, processor, beside, trunk, trial, without, steps,
    )?;
    Ok(tried.came)
}

/// What the run with one input more comes to, of some steps in all. The run without it stands at a step that no such
/// input reaches: no step up to there is made again.
pub(crate) fn branch<S: Seen>(
    alloc: Global,
    images: &mut Images,
    processor: &Processor,
    beside: &S::Beside,
    trunk: &Going<S>,
    trial: &Plain,
    without: &Going<S>,
    steps: u64,
) -> Result<Tried<S::Came>, Refused>
    requires room { images.old.held < most_images }
    requires few { steps ≤ 2 ^ 40 - 2 }
    requires begun { trunk.now.from ≤ trunk.now.done }
    requires within { trunk.now.done ≤ steps }
    requires machine { trunk.now.machine ≡ run processor.now.scenario trunk.now.done }
    requires seen { trunk.now.seen
        ≡ looked S.begins (S.more beside.now) trunk.now.from processor.now.scenario trunk.now.done }
    requires before { IsBefore processor.now.scenario trunk.now.done trial.now.cycle }
    ensures came { IfOk result (λ r. r.came ≡ came (S.comes without.now.machine without.now.seen) S.begins
        (S.more beside.now) trunk.now.from (tried processor.now.scenario trial.now) steps) }
    ensures cycle { IfOk result (λ r. r.cycle ≡ trial.now.cycle) }
    ensures once { IfOk result (λ r. r.made + trunk.now.done ≤ steps) }
    ensures images { OnOk result (images.new ≡ past_image images.old) }
{
    let mut fork = forked(alloc, processor, trial)?;
    let mut going = trunk.copied(alloc, images)?;
    going.go_on(&mut fork, beside, steps)?;
    let made = fork.meter();
    let came = S::compare(alloc, without, going)?;
    images.give();
    Ok(Tried {
        cycle: trial.cycle,
        came,
        made,
    })
}

/// What runs, once more, with one input more.
fn forked(alloc: Global, processor: &Processor, trial: &Plain) -> Result<Processor, Refused>
    ensures rope { IfOk result (λ fork. fork.scenario.rope ≡ processor.now.scenario.rope) }
    ensures inputs { IfOk result (λ fork. AddsLast processor.now.scenario.inputs trial.now.cycle trial.now.input
        fork.scenario.inputs) }
    ensures later { IfOk result (λ fork. AreSameBelow trial.now.cycle processor.now.scenario.inputs
        fork.scenario.inputs) }
    ensures meter { IfOk result (λ fork. fork.meter ≡ 0) }
{
    match processor.with_input(alloc, trial.cycle, trial.input) {
        Ok(fork) => Ok(fork),
        Err(fault) => Err(refused_of(fault)),
    }
}
