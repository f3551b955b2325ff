//! What keeps images of the machine.

ghost use Rattle.std.specs.Prelude.{◌≡◌, ℕ, ◌+◌, ◌<◌, Bool, false, List, [], ◌∷◌, ◌++◌, length, slice_index_or, map};
ghost use Rattle.std.specs.Prelude.{All, Contains, IfOk, OnOk, OnErr, IsOk, MatchOption};
ghost use Rattle.replay.specs.Memory.{most_images};
ghost use Rattle.replay.specs.Images.{Image, IsLatest, IsRising, steps, without};

use crate::refusal::Refusal;
use cpu::Machine;
use std::alloc::Global;

/// Images of the machine at some steps.
pub trait Keeper: Drop {
    /// The images, each with its step, in the order in which they were kept.
    ghost images: { Self → List Image };

    /// Whether `keep` may refuse.
    ghost may_refuse: { Bool };

    /// A keeper of no image.
    fn new(alloc: Global) -> Result<Self, Refusal>
        ensures empty { IfOk result (λ keeper. images keeper ≡ []) }
        ensures refused { OnErr result (result ≡ Err Refusal.NoMemory) };

    /// Tells whether `keep` may refuse.
    fn can_refuse() -> bool
        ensures { result ≡ may_refuse };

    /// The image of greatest step at most `t`, or none.
    fn before(&self, t: u64) -> Option<(u64, &Machine)>
        ensures { MatchOption result (All (λ i. t < i.0) (images self.now))
            (λ found. IsLatest (images self.now) t (found.0, found.1.now)) };

    /// Keeps a copy of the machine as the image of this step.
    fn keep(&mut self, step: u64, machine: &Machine) -> Result<(), Refusal>
        requires above { All (λ i. i.0 < step) (images self.old) }
        requires room { length (images self.old) < most_images }
        ensures ok { OnOk result (images self.new ≡ images self.old ++ (step, machine.now) ∷ []) }
        ensures err { OnErr result ((images self.new ≡ images self.old) × (result ≡ Err Refusal.NoMemory)) }
        ensures sure { may_refuse ≡ false → IsOk result };

    /// Takes the image of this step out.
    fn remove(&mut self, step: u64)
        requires { Contains (steps (images self.old)) step }
        ensures { images self.new ≡ without (images self.old) step };

    /// How many images there are.
    fn count(&self) -> usize
        ensures { result ≡ length (images self.now) };

    /// Images are in the order of their steps.
    ghost rising: { (keeper : Self) → IsRising (images keeper) };
}

/// The place of a step in a list of steps, each with something kept, sought from the newest back.
pub(crate) fn place_of<T>(kept: &[(u64, T)], step: u64) -> usize
    requires { Contains (map (λ k. k.0) kept.now) step }
    ensures within { result < length kept.now }
    ensures step { (d : ℕ × T) → (slice_index_or kept.now result d).0 ≡ step }
{
    for place in (0..kept.len()).rev() {
        if kept[place].0 == step {
            return place;
        }
    }
    unreachable!()
}
