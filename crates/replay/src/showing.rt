//! The machine that is shown, and how another step is shown in it.

ghost use Rattle.std.specs.Prelude.{◌≡◌, ℕ, ◌+◌, ◌^◌, ◌<◌, ◌≤◌, Contains};
ghost use Rattle.cpu.specs.State.{start};
ghost use Rattle.cpu.specs.Run.{run};
ghost use Rattle.replay.specs.Images.{steps};
ghost use Rattle.replay.specs.View.{AreOfRun};

use crate::keeper::Keeper;
use crate::restoring::go_on;
use cpu::{Machine, Processor};

/// A machine, and after how many steps it stands.
#[derive(Drop)]
pub(crate) struct Shown {
    pub(crate) step: u64,
    pub(crate) machine: Machine,
}

impl Shown {
    /// A machine at its start.
    pub(crate) fn at_start() -> Shown
        ensures step { result.step ≡ 0 }
        ensures machine { result.machine ≡ start }
    {
        Shown {
            step: 0,
            machine: Machine::start(),
        }
    }
}

/// Has the machine stand at the latest image up to step `t`, where it does not stand between this and `t`.
fn draw_near<K: Keeper>(processor: &Processor, keeper: &K, t: u64, shown: &mut Shown)
    requires first { Contains (steps (K.images keeper.now)) 0 }
    requires of_run { AreOfRun processor.now.scenario (K.images keeper.now) }
    requires stands { shown.old.machine ≡ run processor.now.scenario shown.old.step }
    ensures stands { shown.new.machine ≡ run processor.now.scenario shown.new.step }
    ensures within { shown.new.step ≤ t }
    ensures near { (c : ℕ) → Contains (steps (K.images keeper.now)) c → c ≤ t → c ≤ shown.new.step }
    ensures on { shown.old.step ≤ t → shown.old.step ≤ shown.new.step }
{
    let _runs = processor;
    match keeper.before(t) {
        Some((step, image)) => {
            if shown.step < step || t < shown.step {
                image.copy_to(&mut shown.machine);
                shown.step = step;
            }
        }
        None => unreachable!(),
    }
}

/// Shows the state after `t` steps: on from where the machine stands, or from the latest image up to there, whichever
/// is nearer.
pub(crate) fn reach<K: Keeper>(processor: &mut Processor, keeper: &K, t: u64, shown: &mut Shown)
    requires within { t < 2 ^ 40 }
    requires first { Contains (steps (K.images keeper.now)) 0 }
    requires metered { processor.old.meter < 2 ^ 128 }
    requires of_run { AreOfRun processor.old.scenario (K.images keeper.now) }
    requires stands { shown.old.machine ≡ run processor.old.scenario shown.old.step }
    ensures step { shown.new.step ≡ t }
    ensures machine { shown.new.machine ≡ run processor.old.scenario t }
    ensures scenario { processor.new.scenario ≡ processor.old.scenario }
    ensures metered { processor.new.meter < 2 ^ 128 }
    ensures least { processor.old.meter ≤ processor.new.meter }

    // It costs no more than from any image that is early enough, nor than from the step that was shown.
    ensures most { (c : ℕ) → Contains (steps (K.images keeper.now)) c → c ≤ t
        → processor.new.meter + c ≤ processor.old.meter + t }
    ensures on { shown.old.step ≤ t → processor.new.meter + shown.old.step ≤ processor.old.meter + t }
{
    draw_near(processor, keeper, t, shown);
    go_on(processor, &mut shown.machine, shown.step, t);
    shown.step = t;
}
