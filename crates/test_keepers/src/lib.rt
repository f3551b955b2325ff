//! A keeper of images for tests.
#![tactic(auto)]

use cpu::Machine;
use replay::{Keeper, Refusal};
use std::alloc::Global;

/// A keeper that refuses an image, hands the next one to another keeper, and so on: an image that is refused is kept
/// when it is handed over again.
#[derive(Drop)]
pub struct RefusingKeeper<K: Keeper> {
    inner: K,
    refused: bool,
}

impl<K: Keeper> Keeper for RefusingKeeper<K> {
    ghost use Rattle.std.specs.Prelude.{true};

    ghost images = { λ k. K.images k.inner };

    ghost may_refuse = { true };

    fn new(alloc: Global) -> Result<Self, Refusal> {
        Ok(RefusingKeeper {
            inner: K::new(alloc)?,
            refused: false,
        })
    }

    fn can_refuse() -> bool {
        true
    }

    fn before(&self, t: u64) -> Option<(u64, &Machine)> {
        self.inner.before(t)
    }

    fn keep(&mut self, step: u64, machine: &Machine) -> Result<(), Refusal> {
        self.refused = !self.refused;
        if self.refused {
            return Err(Refusal::NoMemory);
        }
        self.inner.keep(step, machine)
    }

    fn remove(&mut self, step: u64) {
        self.inner.remove(step);
    }

    fn count(&self) -> usize {
        self.inner.count()
    }

    ghost rising = { λ k. K.rising k.inner };
}
