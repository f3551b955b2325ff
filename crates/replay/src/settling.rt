//! The images that stay at a step, reached by many steps at once.

ghost use Rattle.std.specs.Prelude.{◌≡◌, ◌↔◌, ℕ, ◌+◌, ◌-◌, ◌*◌, ◌^◌, ◌<◌, ◌≤◌, false, true, [], ◌∷◌, ◌++◌, All, length};
ghost use Rattle.std.specs.Prelude.{Contains};
ghost use Rattle.std.specs.Int.{◌∣◌};
ghost use Rattle.cpu.specs.Run.{run};
ghost use Rattle.replay.specs.Images.{Image, steps};
ghost use Rattle.replay.specs.Memory.{most_images};
ghost use Rattle.replay.specs.Spacing.{AreStaying, Stays, IsNeeded};
ghost use Rattle.replay.specs.View.{AreOfRun};

use crate::keeper::Keeper;
use crate::restoring::restore;
use crate::thinning::step_before;
use cpu::{Machine, Processor, make_step};

/// Keeps an image, where the keeper never refuses.
pub(crate) fn keep_sure<K: Keeper>(keeper: &mut K, step: u64, machine: &Machine)
    requires sure { K.may_refuse ≡ false }
    requires above { All (λ i. i.0 < step) (K.images keeper.old) }
    requires room { length (K.images keeper.old) < most_images }
    ensures { K.images keeper.new ≡ K.images keeper.old ++ (step, machine.now) ∷ [] }
{
    match keeper.keep(step, machine) {
        Ok(()) => {}
        Err(_) => unreachable!(),
    }
}

/// A power of two of which each step may be a multiple that is to stay.
const GREATEST_GAP: u64 = 1 << 40;

/// The least power of two up to `gap` of which step `c` must be a multiple to stay at step `n`.
fn needed(n: u64, c: u64, gap: u64) -> u64
    requires step { c < 2 ^ 40 }
    requires within { n < 2 ^ 40 }
    requires gap { IsNeeded n c gap }
    requires most { gap ≤ 2 ^ 40 }
    ensures needed { IsNeeded n c result }
    ensures most { result ≤ gap }
    ensures least { Stays n c ↔ (result ∣ c) }
{
    let mut gap = gap;
    while gap > 1 && n + 2 <= c + 3 * (gap / 2) {
        gap /= 2;
    }
    gap
}

/// Whether step `c` is up to `last`, and its image stays at step `n`.
fn stays(n: u64, last: u64, c: u64) -> bool
    requires step { c < 2 ^ 40 }
    requires within { n < 2 ^ 40 }
    ensures { (result ≡ true) ↔ ((c ≤ last) × Stays n c) }
{
    let gap = needed(n, c, GREATEST_GAP);
    c <= last && c % gap == 0
}

/// Takes out the images that do not stay at step `n`, and those after step `last`.
pub(crate) fn thin_up_to<K: Keeper>(keeper: &mut K, last: u64, n: u64)
    requires within { n < 2 ^ 40 }
    requires past { 0 < n }
    requires first { Contains (steps (K.images keeper.old)) 0 }
    requires before { (c : ℕ) → Contains (steps (K.images keeper.old)) c → c < n }
    ensures stay { (c : ℕ) → Contains (steps (K.images keeper.new)) c ↔
        (Contains (steps (K.images keeper.old)) c × (c ≤ last) × Stays n c) }
    ensures part { (i : Image) → Contains (K.images keeper.new) i → Contains (K.images keeper.old) i }
{
    let mut at = n;
    while at > 0 {
        at = step_before(keeper, at);
        if !stays(n, last, at) {
            keeper.remove(at);
        }
    }
}

/// Brings a machine to the state after `n` steps from the image of step `base` on, and keeps the images that stay
/// there. Up to
/// `base` they are kept already.
pub(crate) fn settle<K: Keeper>(
    processor: &mut Processor,
    keeper: &mut K,
    base: u64,
    n: u64,
    machine: &mut Machine,
)
    requires sure { K.may_refuse ≡ false }
    requires order { base < n }
    requires within { n < 2 ^ 40 - 1 }
    requires metered { processor.old.meter < 2 ^ 128 }
    requires of_run { AreOfRun processor.old.scenario (K.images keeper.old) }
    requires first { Contains (steps (K.images keeper.old)) 0 }
    requires base { Contains (steps (K.images keeper.old)) base }
    requires before { (c : ℕ) → Contains (steps (K.images keeper.old)) c → c < n }
    requires full { (c : ℕ) → c ≤ base → Stays n c → Contains (steps (K.images keeper.old)) c }
    ensures machine { machine.new ≡ run processor.old.scenario n }
    ensures staying { AreStaying n n (steps (K.images keeper.new)) }
    ensures of_run { AreOfRun processor.old.scenario (K.images keeper.new) }
    ensures scenario { processor.new.scenario ≡ processor.old.scenario }
    ensures metered { processor.new.meter < 2 ^ 128 }
    ensures least { processor.old.meter ≤ processor.new.meter }
    ensures most { processor.new.meter + base ≤ processor.old.meter + n }
{
    restore(processor, keeper, base, machine);
    thin_up_to(keeper, base, n);
    let mut gap = GREATEST_GAP;
    for at in base + 1..n {
        make_step(processor, machine);
        gap = needed(n, at, gap);
        if at % gap == 0 {
            keep_sure(keeper, at, machine);
        }
    }
    make_step(processor, machine);
}
