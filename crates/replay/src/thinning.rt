//! Taking out the images that are not needed.

ghost use Rattle.std.specs.Prelude.{◌≡◌, ℕ, ◌-◌, ◌^◌, ◌<◌, Contains};
ghost use Rattle.replay.specs.Images.{Image, steps};
ghost use Rattle.replay.specs.Spacing.{AreStaying, FallOut, IsPrevious};

use crate::keeper::Keeper;

/// The step of the latest image before step `t`.
pub(crate) fn step_before<K: Keeper>(keeper: &K, t: u64) -> u64
    requires first { Contains (steps (K.images keeper.now)) 0 }
    requires later { 0 < t }
    ensures { IsPrevious (steps (K.images keeper.now)) t result }
{
    match keeper.before(t - 1) {
        Some((step, _)) => step,
        None => unreachable!(),
    }
}

/// The power of two below which, at step `n`, the image at the distance `3 · gap - 1` falls out for each power of two
/// `gap`.
fn gap_limit(n: u64) -> u64
    requires within { n < 2 ^ 40 }
    ensures { (j : ℕ) × (result ≡ 2 ^ j) × FallOut n j }
{
    let mut gap = 1;
    let mut rest = n + 1;
    while rest % 2 == 0 && 3 * gap <= n {
        rest /= 2;
        gap *= 2;
    }
    gap
}

/// Takes out the images that stay no longer at step `n`, the farthest first, so that what a keeper frees last is what
/// was used last.
pub(crate) fn thin<K: Keeper>(keeper: &mut K, n: u64)
    requires forward { 0 < n }
    requires within { n < 2 ^ 40 }
    requires stayed { AreStaying n (n - 1) (steps (K.images keeper.old)) }
    ensures stay { AreStaying n n (steps (K.images keeper.new)) }
    ensures part { (i : Image) → Contains (K.images keeper.new) i → Contains (K.images keeper.old) i }
{
    let mut gap = gap_limit(n);
    while gap > 1 {
        gap /= 2;
        keeper.remove(n + 1 - 3 * gap);
    }
}
