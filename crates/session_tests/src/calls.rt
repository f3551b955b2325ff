//! Lists of calls.

use crate::machines::{ONE_PULSE, five_plus_five};
use cpu::{Input, Machine, Output, Processor};
use replay::{Call, Observer, Refusal, Session, SlotKeeper, Stop, Watcher, follow};
use std::test::Fail;

/// An observer that notes the cycles of what it is shown, and counts the rest. It ends the steps that it watches at
/// some cycles.
#[derive(Drop)]
struct Notes {
    shown: [u64; 4],
    shows: usize,
    outputs: u64,
    refusals: u64,
    found: Option<u64>,
    added: u64,
    ends_at: u64,
    stops: [u64; 2],
}

impl Notes {
    /// One that was told nothing, and ends the steps that it watches at so many cycles.
    fn up_to(ends_at: u64) -> Notes {
        Notes {
            shown: [0; 4],
            shows: 0,
            outputs: 0,
            refusals: 0,
            found: None,
            added: 0,
            ends_at,
            stops: [0; 2],
        }
    }

    /// Notes the cycles of a machine.
    fn note(&mut self, machine: &Machine) {
        if self.shows < 4 {
            self.shown[self.shows] = machine.cycles();
            self.shows += 1;
        }
    }
}

impl Watcher for Notes {
    ghost sees = { λ old output machine ended new. Unit {0} };

    fn watch(&mut self, output: Option<Output>, machine: &Machine) -> bool {
        self.went(output);
        machine.cycles() == self.ends_at
    }
}

impl Observer for Notes {
    ghost sees = { λ old told new. Unit {0} };

    fn went(&mut self, output: Option<Output>) {
        if output.is_some() {
            self.outputs = self.outputs.wrapping_add(1);
        }
    }

    fn advanced(&mut self, _k: u64, stop: Stop) {
        let at = usize::from(stop == Stop::Watcher);
        self.stops[at] = self.stops[at].wrapping_add(1);
    }

    fn shown(&mut self, _t: u64, machine: &Machine) {
        self.note(machine);
    }

    fn shown_beside(
        &mut self,
        _t: u64,
        machine: &Machine,
        present: &Machine,
        _processor: &Processor,
    ) {
        self.note(machine);
        self.note(present);
    }

    fn sought(&mut self, _p: u64, found: Option<u64>) {
        self.found = found;
    }

    fn added(&mut self, cycle: u64, _input: &Input) {
        self.added = cycle;
    }

    fn refused(&mut self, _call: Call, _refusal: Refusal) {
        self.refusals = self.refusals.wrapping_add(1);
    }
}

#[test]
fn calls_are_followed(rt: HostRuntime) -> Result<(), Fail> {
    let mut session = Session::<SlotKeeper>::open(rt.alloc(), five_plus_five(rt.alloc())?)?;
    let mut notes = Notes::up_to(0);
    let calls = [
        Call::Forward,
        Call::Forward,
        Call::Forward,
        Call::Forward,
        Call::Forward,
        Call::Forward,
        Call::Show(6),
        Call::Show(7),
        Call::Forward,
        Call::Show(3),
        Call::SeekBack(6),
        Call::WithPresent(2),
        Call::WithPresent(8),
        Call::Add(12, ONE_PULSE),
        Call::Add(13, ONE_PULSE),
    ];
    let steps = follow(
        &mut session,
        &calls,
        &|machine: &Machine| machine.cycles() % 8 == 2,
        &mut notes,
    );
    assert_eq!(rt; steps, 7);
    assert_eq!(rt; notes.shown, [10, 5, 4, 12]);
    assert_eq!(rt; notes.outputs, 1);
    assert_eq!(rt; notes.refusals, 3);
    assert_eq!(rt; notes.added, 13);
    assert_eq!(rt; notes.found, Some(1));
    Ok(())
}

/// Five plus five makes 5 steps in 8 cycles, and puts a word out in the fourth of them: 80,002 cycles have passed after
/// step 50,001. A call of many steps ends there, or after them all.
#[test]
fn many_steps_are_followed(rt: HostRuntime) -> Result<(), Fail> {
    let mut session = Session::<SlotKeeper>::open(rt.alloc(), five_plus_five(rt.alloc())?)?;
    let mut notes = Notes::up_to(80_002);
    let calls = [
        Call::Advance(3),
        Call::Advance(100_000),
        Call::Show(3),
        Call::Advance(2),
        Call::Advance(0),
        Call::WithPresent(50_000),
        Call::SeekBack(50_002),
        Call::Forward,
    ];
    let steps = follow(
        &mut session,
        &calls,
        &|machine: &Machine| machine.cycles() % 8 == 2,
        &mut notes,
    );
    assert_eq!(rt; steps, 50_004);
    assert_eq!(rt; notes.stops, [3, 1]);
    assert_eq!(rt; notes.shown, [5, 80_000, 80_005, 0]);
    assert_eq!(rt; notes.found, Some(50_001));
    assert_eq!(rt; notes.outputs, 10_001);
    assert_eq!(rt; notes.refusals, 0);
    Ok(())
}
