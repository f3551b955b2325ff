//! Calls that are never refused memory.

ghost use Rattle.std.specs.Prelude.{◌≤◌, ◌<◌, IsSome};
ghost use Rattle.replay.specs.Memory.{step_limit};

use crate::machines::{expect, five_plus_five, next_number};
use cpu::{Machine, Output};
use replay::{STEP_LIMIT, Session, SlotKeeper, Watcher};
use std::test::Fail;

/// Counts steps and their outputs.
#[derive(Drop)]
struct Counter {
    steps: u64,
    outputs: u64,
}

impl Watcher for Counter {
    ghost sees = { λ old output machine ended new. Unit {0} };

    fn watch(&mut self, output: Option<Output>, _machine: &Machine) -> bool {
        self.steps = self.steps.wrapping_add(1);
        if output.is_some() {
            self.outputs = self.outputs.wrapping_add(1);
        }
        false
    }
}

/// The cycles after `t` steps.
fn cycles_after(session: &mut Session<SlotKeeper>, t: u64) -> u64
    requires { t ≤ session.old.n }
{
    match session.show(t) {
        Ok(machine) => machine.cycles(),
        Err(_) => unreachable!(),
    }
}

/// Goes a step, which over slots is never refused below the limit.
fn go(session: &mut Session<SlotKeeper>, counter: &mut Counter)
    requires { session.old.n < step_limit }
{
    match session.forward() {
        Ok(output) => {
            counter.watch(output, session.present());
        }
        Err(_) => unreachable!(),
    }
}

/// Goes many steps, of which over slots the first is never refused below the limit.
fn go_on(session: &mut Session<SlotKeeper>, k: u64, counter: &mut Counter)
    requires { session.old.n < step_limit }
{
    match session.advance(k, counter) {
        Ok(_) => {}
        Err(_) => unreachable!(),
    }
}

/// Of 100,000 calls to go a step or many, to show a step and to search, none is refused: it is proved that none can be,
/// since the branches of a refusal are unreachable. Five plus five makes 5 steps in 8 cycles, and puts a word out in
/// the fourth.
#[test]
fn calls_take_no_memory(rt: HostRuntime) -> Result<(), Fail> {
    let alloc = rt.alloc();
    let mut session = Session::<SlotKeeper>::open(alloc, five_plus_five(alloc)?)?;
    let mut counter = Counter {
        steps: 0,
        outputs: 0,
    };
    let mut state = 12u32;
    for _ in 0..100_000 {
        state = next_number(state);
        let n = session.steps();
        let t = n.saturating_sub(u64::from(state >> 8) % 5_000);
        match state >> 30 {
            0 => {
                let cycles = (t / 5)
                    .wrapping_mul(8)
                    .wrapping_add([0, 2, 4, 5, 7][(t % 5) as usize]);
                expect(cycles_after(&mut session, t) == cycles, "the cycles")?;
            }
            1 => {
                let last = (t.saturating_sub(2) / 5).wrapping_mul(5).wrapping_add(1);
                let found = session.seek_back(t, |machine| machine.cycles() % 8 == 2);
                expect(
                    found == if t < 2 { None } else { Some(last) },
                    "the step found",
                )?;
            }
            2 if n < STEP_LIMIT => go(&mut session, &mut counter),
            3 if n < STEP_LIMIT => go_on(&mut session, u64::from(state >> 8) % 200, &mut counter),
            _ => {}
        }
        expect(session.steps() == counter.steps, "steps")?;
    }
    expect(counter.steps > 2_000_000, "some millions of steps")?;
    expect(
        counter.outputs == counter.steps.wrapping_add(1) / 5,
        "an output for each fourth step of five",
    )
}
