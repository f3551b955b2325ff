//! A keeper that cannot be made.

use crate::machines::{everything, expect};
use cpu::Machine;
use replay::{Keeper, Refusal, Session, SlotKeeper};
use std::alloc::Global;
use std::test::Fail;

/// A keeper that refuses to be made.
#[derive(Drop)]
struct NoKeeper<K: Keeper> {
    inner: K,
}

impl<K: Keeper> Keeper for NoKeeper<K> {
    ghost use Rattle.std.specs.Prelude.{true};

    ghost images = { λ k. K.images k.inner };

    ghost may_refuse = { true };

    fn new(_alloc: Global) -> Result<Self, Refusal> {
        Err(Refusal::NoMemory)
    }

    fn can_refuse() -> bool {
        true
    }

    fn before(&self, t: u64) -> Option<(u64, &Machine)> {
        self.inner.before(t)
    }

    fn keep(&mut self, step: u64, machine: &Machine) -> Result<(), Refusal> {
        self.inner.keep(step, machine)
    }

    fn remove(&mut self, step: u64) {
        self.inner.remove(step);
    }

    fn count(&self) -> usize {
        self.inner.count()
    }

    ghost rising = { λ k. K.rising k.inner };
}

#[test]
fn refused_opening_gives_no_session(rt: HostRuntime) -> Result<(), Fail> {
    let alloc = rt.alloc();
    let refused = Session::<NoKeeper<SlotKeeper>>::open(alloc, everything(alloc, 3)?);
    expect(matches!(refused, Err(Refusal::NoMemory)), "no session")?;
    let session = Session::<SlotKeeper>::open(alloc, everything(alloc, 3)?)?;
    expect(session.steps() == 0, "a session")
}
