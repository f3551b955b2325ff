//! Calls that take memory, with enough of it.

use crate::sources::FIVE_PLUS_FIVE;
use cpu::{Input, Machine, Output, Processor};
use debugger::debug_session;
use feed::{Counter, Sequence, read};
use json_text::Notation;
use replay::{Call, Keeper, Observer, Refusal, Session, SlotKeeper, Stop, VecKeeper, Watcher};
use std::alloc::Global;
use std::process::Abort;
use std::test::Fail;
use words::Buffer;
use workshop::{
    LineForm, Origin, RunEnd, Unheard, Version, asm_engine, cover_program, debug_program,
    follow_source, open_session, run_program, run_with_notes, trace_program, upgrade_engine,
};
use yayul::{Language, assemble};

/// A pulse that is far off.
const PULSE: Input = Input::Count(Counter::Time1, Sequence::Pinc);

/// An observer that counts what is refused.
#[derive(Drop)]
struct Refusals {
    count: u64,
}

impl Watcher for Refusals {
    ghost sees = { λ old output machine ended new. Unit {0} };

    fn watch(&mut self, _output: Option<Output>, _machine: &Machine) -> bool {
        false
    }
}

impl Observer for Refusals {
    ghost sees = { λ old told new. Unit {0} };

    fn went(&mut self, _output: Option<Output>) {}

    fn advanced(&mut self, _k: u64, _stop: Stop) {}

    fn shown(&mut self, _t: u64, _machine: &Machine) {}

    fn shown_beside(&mut self, _t: u64, _old: &Machine, _present: &Machine, _over: &Processor) {}

    fn sought(&mut self, _p: u64, _found: Option<u64>) {}

    fn added(&mut self, _cycle: u64, _input: &Input) {}

    fn refused(&mut self, _call: Call, _refusal: Refusal) {
        self.count = self.count.wrapping_add(1);
    }
}

/// Asserts that a session over such a keeper is opened, goes on, and takes an input, and that its commands are
/// answered.
fn assert_goes<K: Keeper>(rt: &impl Abort, alloc: Global) -> Result<(), Fail> {
    let (rope, symbols) = assemble(alloc, Language::Standard, FIVE_PLUS_FIVE)?.split();
    let mut feed = b"9 RUPT 1\n".as_slice();
    let inputs = read(alloc, &mut feed)?;
    let mut session = Session::<K>::open(alloc, Processor::new(rope, inputs))?;
    let mut commands = b"run 100\nadd 99999 TIME1 PINC\nrun 100\ngoto 50\ntail\n".as_slice();
    let mut out = Buffer::new(alloc);
    let ended = debug_session(alloc, &mut session, &symbols, &mut commands, &mut out);
    assert!(rt; ended.is_ok());
    assert_eq!(rt; session.steps(), 200);
    for _ in 0..100 {
        assert!(rt; session.forward().is_ok());
    }
    assert_eq!(rt; session.add(99_999, PULSE), Ok(()));
    Ok(())
}

#[test]
fn always_out_of_memory(rt: HostRuntime) -> Result<(), Fail> {
    let alloc = rt.alloc();
    assert_goes::<SlotKeeper>(&rt, alloc)?;
    assert_goes::<VecKeeper>(&rt, alloc)?;
    let (mut source, mut feed, mut commands) = (
        FIVE_PLUS_FIVE,
        b"".as_slice(),
        b"run 4\n".as_slice(),
    );
    let mut out = Buffer::new(alloc);
    let origin = || Origin::Source(Language::Standard);
    assert!(rt;
        debug_program(
            alloc,
            origin(),
            &mut source,
            &mut feed,
            &mut commands,
            &mut out
        )
        .is_ok()
    );
    let (mut source, mut feed) = (FIVE_PLUS_FIVE, b"".as_slice());
    assert!(rt;
        run_program(
            alloc,
            origin(),
            &mut source,
            &mut feed,
            RunEnd::Steps,
            4,
            &mut out,
            &mut Unheard
        )
        .is_ok()
    );
    let (mut source, mut image) = (FIVE_PLUS_FIVE, Buffer::new(alloc));
    assert!(rt;
        asm_engine(
            alloc,
            Language::Standard,
            &mut source,
            &mut image,
            &mut out,
            Version::One
        )
        .is_ok()
    );
    let mut old = image.as_slice();
    assert!(rt; upgrade_engine(alloc, &mut old, &mut out).is_ok());
    Ok(())
}

#[test]
fn told_runs_always_out_of_memory(rt: HostRuntime) -> Result<(), Fail> {
    let alloc = rt.alloc();
    let mut out = Buffer::new(alloc);
    let origin = || Origin::Source(Language::Standard);
    let (mut source, mut feed) = (FIVE_PLUS_FIVE, b"".as_slice());
    assert!(rt;
        trace_program(
            alloc,
            origin(),
            &mut source,
            &mut feed,
            LineForm::StepsAndReads,
            1,
            4,
            &mut out,
            &mut Unheard
        )
        .is_ok()
    );
    let (mut source, mut feed) = (FIVE_PLUS_FIVE, b"".as_slice());
    assert!(rt;
        cover_program(
            alloc,
            Notation::Json,
            origin(),
            &mut source,
            &mut feed,
            4,
            &mut out,
            &mut Unheard
        )
        .is_ok()
    );
    let (mut source, mut feed) = (FIVE_PLUS_FIVE, b"".as_slice());
    let mut notes = Buffer::new(alloc);
    assert!(rt;
        run_with_notes(
            alloc,
            Notation::Json,
            origin(),
            &mut source,
            &mut feed,
            4,
            &mut out,
            &mut Unheard,
            &mut notes
        )
        .is_ok()
    );
    Ok(())
}

#[test]
fn sources_are_opened(rt: HostRuntime) -> Result<(), Fail> {
    let alloc = rt.alloc();
    let (mut source, mut feed) = (FIVE_PLUS_FIVE, b"3 TIME1 PINC\n".as_slice());
    let mut opened = match open_session(alloc, &mut source, &mut feed) {
        Ok(opened) => opened,
        Err(_) => return Err(Fail::new("five plus five is not opened")),
    };
    assert_eq!(rt; opened.session.steps(), 0);
    assert!(rt; opened.symbols.symbol(b"FIVE").is_some());
    for _ in 0..5 {
        assert!(rt; opened.session.forward().is_ok());
    }
    assert_eq!(rt; opened.session.present().cycles(), 8);
    let calls = [
        Call::Forward,
        Call::Forward,
        Call::Show(1),
        Call::Show(3),
        Call::Add(99, PULSE),
    ];
    let (mut source, mut feed) = (FIVE_PLUS_FIVE, b"".as_slice());
    let mut refusals = Refusals { count: 0 };
    let steps = follow_source(
        alloc,
        &mut source,
        &mut feed,
        &calls,
        &|machine: &Machine| machine.cycles() > 3,
        &mut refusals,
    );
    assert!(rt; steps == Ok(2));
    assert_eq!(rt; refusals.count, 1);
    Ok(())
}
