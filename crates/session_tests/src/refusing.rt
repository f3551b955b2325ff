//! A keeper that refuses each image once.

use crate::machines::{everything, expect, same};
use cpu::Machine;
use replay::{Keeper, Refusal, Session, SlotKeeper, VecKeeper};
use std::alloc::Global;
use std::test::Fail;
use test_keepers::RefusingKeeper;

/// Where an image is refused, all is as before, and the same call with memory goes a step.
fn refusals_change_nothing<K: Keeper>(alloc: Global) -> Result<(), Fail> {
    let mut session = Session::<RefusingKeeper<K>>::open(alloc, everything(alloc, 3)?)?;
    let mut plain = everything(alloc, 3)?;
    let mut present = Machine::start();
    for n in 0..150u64 {
        let held = session.held();
        let meter = session.meter();
        expect(
            matches!(session.forward(), Err(Refusal::NoMemory)),
            "a refusal",
        )?;
        expect(session.steps() == n, "steps")?;
        expect(session.held() == held, "machines held")?;
        expect(session.meter() == meter, "the meter")?;
        let mut other = everything(alloc, 3)?;
        let mut machine = Machine::start();
        for t in 0..n {
            let shown = session.show(t)?;
            expect(same(&other, shown, &machine), "what is shown")?;
            other.step(&mut machine);
        }
        expect(same(&other, session.present(), &machine), "the present")?;
        expect(
            session.forward()? == plain.step(&mut present),
            "the same call with memory",
        )?;
        expect(session.steps() == n + 1, "one step more")?;
    }
    Ok(())
}

#[test]
fn refused_image_changes_nothing(rt: HostRuntime) -> Result<(), Fail> {
    refusals_change_nothing::<VecKeeper>(rt.alloc())?;
    refusals_change_nothing::<SlotKeeper>(rt.alloc())
}
