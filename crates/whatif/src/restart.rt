//! Trying a restart at each of some steps of a run, as at the one where it stands.

ghost use Rattle.std.specs.Prelude.{◌≡◌, ◌+◌, ◌-◌, ◌*◌, ◌^◌, ◌<◌, ◌≤◌, None, IfOk, OnOk, true, if◌then◌else◌};
ghost use Rattle.words.specs.Devices.{Writes, one_more};
ghost use Rattle.cpu.specs.Run.{run};
ghost use Rattle.cpu.specs.State.{FitsRun};
ghost use Rattle.whatif.specs.Failing.{has_write_failed};
ghost use Rattle.whatif.specs.Here.{most_steps, own_steps};
ghost use Rattle.whatif.specs.Images.{most_images, past_image};
ghost use Rattle.whatif.specs.Outcomes.{outcome};
ghost use Rattle.whatif.specs.Restarts.{finish_restarted, on_from, outcome_on, restart_telling, restarts_after};
ghost use Rattle.whatif.specs.Restarts.{restarts_text};
ghost use Rattle.whatif.specs.Spans.{spans_text};

use crate::answer::Answer;
use crate::fault::{Refused, TrialFault, told_of};
use crate::finish::{Finish, finished};
use crate::going::Going;
use crate::here::TrialsTold;
use crate::images::Images;
use crate::others::{Others, Telling};
use crate::seen::Seen;
use crate::span::{with_trial, write_open, write_without};
use crate::trying::run_without;
use cpu::{Machine, Processor};
use std::alloc::Global;
use words::{Buffer, Write};

/// Tries a restart of a machine, at which a run stands after `first` steps, and one after each of so many more: tells
/// what the run puts out from there on, up to so many steps in all, and what it would when it is restarted, of one
/// restart all other words, of several the first.
///
/// What runs, and the machine, are copied. The run without a restart is made from the machine on, and so is the way to
/// the last step, once; the run with each restart from there on.
pub fn try_restarts(
    alloc: Global,
    processor: &Processor,
    machine: &Machine,
    first: u64,
    more: u64,
    steps: u64,
) -> Result<TrialsTold, TrialFault>
    requires few { steps ≤ 2 ^ 40 - 2 }
    requires within { first + more ≤ steps }
    requires stands { machine.now ≡ run processor.now.scenario first }
    ensures text { IfOk result (λ told. told.text.written ≡ restarts_text processor.now.scenario first more steps) }
    ensures once { IfOk result (λ told. told.made ≤ most_steps first more steps) }
    ensures images { IfOk result (λ told. told.images ≤ 3) }
{
    let Ok(mut copy) = processor.copied(alloc) else {
        return Err(TrialFault::NoMemory);
    };
    let mut images = Images::none();
    let mut trunk = Going::after(alloc, &mut images, machine, first);
    let alone = Answer::none(alloc);
    let without = run_without(alloc, &mut images, &mut copy, &alone, &trunk, steps)?;
    let mut text = Buffer::new(alloc);
    write_without(&without, &mut text)?;
    write_restarts(
        alloc,
        &mut images,
        &mut copy,
        &mut trunk,
        &without,
        more,
        steps,
        &mut text,
    )?;
    Ok(TrialsTold {
        text,
        made: copy.meter(),
        images: images.most,
    })
}

/// How a restart is told, and so many more.
fn restart_telling(more: u64) -> Telling
    ensures { result ≡ restart_telling more }
{
    let others = if more == 0 {
        Others::All
    } else {
        Others::First
    };
    Telling {
        others,
        end: u64::MAX,
    }
}

/// Tells how the run comes out with a restart at each of some steps, from the one where it stands on.
fn write_restarts<W: Write>(
    alloc: Global,
    images: &mut Images,
    processor: &mut Processor,
    trunk: &mut Going<Answer>,
    without: &Going<Answer>,
    more: u64,
    steps: u64,
    out: &mut W,
) -> Result<(), TrialFault>
    requires held { images.old.held ≡ 2 }
    requires most { images.old.most ≤ 3 }
    requires few { steps ≤ 2 ^ 40 - 2 }
    requires within { trunk.old.done + more ≤ steps }
    requires from { trunk.old.from ≡ trunk.old.done }
    requires machine { trunk.old.machine ≡ run processor.old.scenario trunk.old.done }
    requires seen { trunk.old.seen ≡ outcome without.now.seen.others trunk.old.from processor.old.scenario
        trunk.old.done }
    ensures written { W.told ≡ true → Writes (W.written out.old) (W.written out.new)
        (spans_text (restart_telling more) None (restarts_after without.now.seen.others
        without.now.machine.cells trunk.old.from processor.old.scenario steps trunk.old.done (more + 1))) result }
    ensures failures { W.failures out.new ≡
        (if has_write_failed result then one_more (W.failures out.old) else W.failures out.old) }
    ensures once { OnOk result (processor.new.meter
        ≤ processor.old.meter + (more + own_steps trunk.old.done (more + 1) steps)) }
    ensures images { OnOk result (images.new.most ≤ 3) }
{
    let told = restart_telling(more);
    let first = trunk.done;
    let mut pending = None;
    for further in 0..more + 1 {
        let step = first + further;
        let finish = match restart_at(alloc, images, processor, trunk, without, step, steps) {
            Ok(finish) => finish,
            Err(refused) => return Err(told_of(refused)),
        };
        let cycle = trunk.machine.cycles();
        pending = Some(with_trial::<Answer, W>(told, pending, cycle, finish, out)?);
    }
    write_open::<Answer, W>(told, &pending, out)
}

/// Goes on to a step, and answers how the run comes out that is restarted there.
fn restart_at(
    alloc: Global,
    images: &mut Images,
    processor: &mut Processor,
    trunk: &mut Going<Answer>,
    without: &Going<Answer>,
    step: u64,
    steps: u64,
) -> Result<Finish, Refused>
    requires room { images.old.held ≡ 2 }
    requires few { steps ≤ 2 ^ 40 - 2 }
    requires begun { trunk.old.from ≤ trunk.old.done }
    requires order { trunk.old.done ≤ step }
    requires within { step ≤ steps }
    requires machine { trunk.old.machine ≡ run processor.old.scenario trunk.old.done }
    requires seen { trunk.old.seen ≡ outcome without.now.seen.others trunk.old.from processor.old.scenario
        trunk.old.done }
    ensures finish { IfOk result (λ r. r ≡ finish_restarted without.now.seen.others without.now.machine.cells
        trunk.old.from processor.old.scenario steps step) }
    ensures scenario { processor.new.scenario ≡ processor.old.scenario }
    ensures once { OnOk result (processor.new.meter + trunk.old.done ≤ processor.old.meter + steps) }
    ensures from { trunk.new.from ≡ trunk.old.from }
    ensures done { OnOk result (trunk.new.done ≡ step) }
    ensures machine { OnOk result (trunk.new.machine ≡ run processor.old.scenario step) }
    ensures seen { OnOk result (trunk.new.seen
        ≡ outcome without.now.seen.others trunk.old.from processor.old.scenario step) }
    ensures images { OnOk result (images.new ≡ past_image images.old) }
{
    trunk.go_on(processor, &without.seen, step)?;
    let finish = restarted(alloc, images, processor, trunk, without, steps)?;
    Ok(finish)
}

/// How a run of some steps in all comes out that is restarted where it stands.
fn restarted(
    alloc: Global,
    images: &mut Images,
    processor: &mut Processor,
    trunk: &Going<Answer>,
    without: &Going<Answer>,
    steps: u64,
) -> Result<Finish, Refused>
    requires room { images.old.held < most_images }
    requires few { steps ≤ 2 ^ 40 - 2 }
    requires within { trunk.now.done ≤ steps }
    requires machine { trunk.now.machine ≡ run processor.old.scenario trunk.now.done }
    requires seen { trunk.now.seen ≡ outcome without.now.seen.others trunk.now.from processor.old.scenario
        trunk.now.done }
    ensures finish { IfOk result (λ r. r ≡ finish_restarted without.now.seen.others without.now.machine.cells
        trunk.now.from processor.old.scenario steps trunk.now.done) }
    ensures scenario { processor.new.scenario ≡ processor.old.scenario }
    ensures once { OnOk result (processor.new.meter + trunk.now.done ≤ processor.old.meter + steps) }
    ensures images { OnOk result (images.new ≡ past_image images.old) }
{
    let mut going = trunk.copied(alloc, images)?;
    going.machine.restart();
    go_further(
        processor,
        &mut going.machine,
        &without.seen,
        &mut going.seen,
        steps - trunk.done,
    )?;
    let finish = finished(going, without.machine.store());
    images.give();
    Ok(finish)
}

/// So many steps on from a machine, whatever has led to it, each made once.
fn go_further(
    processor: &mut Processor,
    machine: &mut Machine,
    base: &Answer,
    answer: &mut Answer,
    steps: u64,
) -> Result<(), Refused>
    requires few { steps ≤ 2 ^ 40 - 2 }
    requires early { machine.old.cycles ≤ 6 * 2 ^ 40 }
    requires fits { FitsRun processor.old.scenario machine.old }
    ensures scenario { processor.new.scenario ≡ processor.old.scenario }
    ensures once { processor.new.meter ≤ processor.old.meter + steps }
    ensures machine { OnOk result (machine.new ≡ on_from processor.old.scenario machine.old steps) }
    ensures answer { OnOk result (answer.new
        ≡ outcome_on base.now.others processor.old.scenario machine.old answer.old steps) }
{
    for _ in 0..steps {
        answer.look(base, processor, machine)?;
    }
    Ok(())
}
