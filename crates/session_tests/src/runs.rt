//! Sessions that go forward and back.

use crate::machines::{everything, expect, five_plus_five};
use replay::{Keeper, Refusal, Session, SlotKeeper, VecKeeper};
use space::Chan;
use std::alloc::Global;
use std::test::Fail;

/// At each step up to 1,023: few machines are held, and each step is shown within its bound.
fn images_are_few<K: Keeper>(alloc: Global) -> Result<(), Fail> {
    let mut session = Session::<K>::open(alloc, everything(alloc, 1)?)?;
    for n in 0..1024u64 {
        expect(session.steps() == n, "steps")?;
        expect(
            session.held() <= 2 * (n + 1).ilog2() as usize + 2,
            "machines held",
        )?;
        for t in 0..n {
            let before = session.meter();
            session.show(t)?;
            expect(
                session.meter().wrapping_sub(before) < u128::from(n - t),
                "steps executed",
            )?;
        }
        let before = session.meter();
        session.show(n)?;
        expect(session.meter() == before, "the present is shown at once")?;
        expect(
            matches!(session.show(n + 1), Err(Refusal::NotYet)),
            "a later step",
        )?;
        session.forward()?;
    }
    Ok(())
}

#[test]
fn images_held(rt: HostRuntime) -> Result<(), Fail> {
    images_are_few::<SlotKeeper>(rt.alloc())
}

#[test]
fn images_held_in_a_vector(rt: HostRuntime) -> Result<(), Fail> {
    images_are_few::<VecKeeper>(rt.alloc())
}

#[test]
fn machines_held_at_first(rt: HostRuntime) -> Result<(), Fail> {
    let mut session = Session::<SlotKeeper>::open(rt.alloc(), five_plus_five(rt.alloc())?)?;
    for most in [2, 4, 4, 6, 6, 6, 6, 8, 8] {
        assert!(rt; session.held() <= most);
        session.forward()?;
    }
    Ok(())
}

/// What it costs, in a session of 7 steps, to show steps 6, 3 and 0, and the cycles there.
fn goes_back_and_forth<K: Keeper>(alloc: Global) -> Result<(), Fail> {
    let mut session = Session::<K>::open(alloc, five_plus_five(alloc)?)?;
    for k in 1..8u8 {
        let output = session.forward()?;
        expect(output.is_some() == (k == 4), "one output, at step 4")?;
        if let Some(output) = output {
            expect(output.cycles == 7, "cycles of the output")?;
            expect(output.channel == Chan::of_low_bits(0o10), "its channel")?;
            expect(output.word.to_u16() == 0o12, "its word")?;
        }
    }
    expect(session.present().cycles() == 12, "the present's cycles")?;
    for (t, cycles, bound) in [(6, 10, 1), (3, 5, 4), (0, 0, 7)] {
        let before = session.meter();
        expect(session.show(t)?.cycles() == cycles, "the cycles")?;
        expect(
            session.meter().wrapping_sub(before) < bound,
            "steps executed",
        )?;
    }
    Ok(())
}

#[test]
fn debugger_back_and_forth(rt: HostRuntime) -> Result<(), Fail> {
    goes_back_and_forth::<SlotKeeper>(rt.alloc())?;
    goes_back_and_forth::<VecKeeper>(rt.alloc())
}

/// The last steps, in a session of 7, at which the program is at its second word, sought before some steps.
fn finds_last_hits<K: Keeper>(alloc: Global) -> Result<(), Fail> {
    let mut session = Session::<K>::open(alloc, five_plus_five(alloc)?)?;
    for _ in 0..7 {
        session.forward()?;
    }
    // the program comes to its second word, at cycle 2, after steps 1 and 6
    for (p, last) in [
        (7, Some(6)),
        (6, Some(1)),
        (2, Some(1)),
        (1, None),
        (0, None),
    ] {
        let before = session.meter();
        let at = session.steps().min(p);
        let found = session.seek_back(at, |machine| machine.cycles() % 8 == 2);
        expect(found == last, "the last hit")?;
        let executed = session.meter().wrapping_sub(before);
        expect(
            match found {
                Some(t) => executed < u128::from(2 * 7u64.saturating_sub(t)),
                None => executed <= u128::from(p),
            },
            "steps executed",
        )?;
    }
    expect(session.steps() == 7, "steps")
}

#[test]
fn last_hits(rt: HostRuntime) -> Result<(), Fail> {
    finds_last_hits::<SlotKeeper>(rt.alloc())?;
    finds_last_hits::<VecKeeper>(rt.alloc())
}
