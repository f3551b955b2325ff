//! Goes through a session whose images stand in a vector, twice. Where a step is refused memory, it sees that nothing
//! has changed, and makes the step again; and it answers a script of commands.
//!
//! A source, a feed and commands come from standard input, with a line `---` between them. It writes `REFUSED` for each
//! such step, `DONE` after the last, and then the replies to the commands. The exit status is 1 where something has
//! changed, and 3 where a step is refused twice, what came is no source and feed, or there is no memory to begin with.
//! `tests/test_vector.py` runs it with each of its requests for memory refused.
#![tactic(auto)]

use cpu::{Machine, Processor};
use debugger::debug_session;
use feed::read;
use replay::{Session, VecKeeper};
use space::Chan;
use space::store::changed;
use std::alloc::Global;
use std::io;
use std::process::ExitCode;
use words::{Std, Write, read_text, write_all};
use yayul::{Language, Symbols, assemble};

/// How many steps are gone.
const STEPS: u64 = 600;

/// The most bytes that are read.
const MOST_BYTES: usize = 1_000_000;

/// What stands between the parts of what is read.
const BETWEEN: &[u8] = b"---\n";

/// The exit status where a refused step has changed something.
const CHANGED: u8 = 1;

/// The exit status where there is no memory, nothing can be written, or what came is no source and feed.
const FAILED: u8 = 3;

fn main(rt: HostRuntime) -> ExitCode {
    let mut out = Std::new(io::writer(&rt));
    let ended = match read_text(rt.alloc(), &mut Std::new(rt.stdin()), MOST_BYTES) {
        Ok(text) => perform(rt.alloc(), text.as_slice(), &mut out),
        Err(_) => Err(FAILED),
    };
    ExitCode::from(match ended {
        Ok(()) => 0,
        Err(status) => status,
    })
}

/// Goes all steps, then answers the commands, and answers the exit status where it ends early.
fn perform<W: Write>(alloc: Global, text: &[u8], out: &mut W) -> Result<(), u8> {
    let (source, others) = split(text);
    let (feed, commands) = split(others);
    go(alloc, source, feed, out)?;
    let (processor, symbols) = load(alloc, source, feed)?;
    let mut session = Session::<VecKeeper>::open(alloc, processor).map_err(|_| FAILED)?;
    let mut lines = commands;
    debug_session(alloc, &mut session, &symbols, &mut lines, out).map_err(|_| FAILED)
}

/// What stands before the first line `---`, and what stands after it.
fn split(text: &[u8]) -> (&[u8], &[u8]) {
    for at in 0..text.len() {
        if text[at..].starts_with(BETWEEN) {
            return (&text[..at], &text[at + BETWEEN.len()..]);
        }
    }
    (text, b"")
}

/// Goes all steps of a session, each again where it is refused.
fn go<W: Write>(alloc: Global, source: &[u8], feed: &[u8], out: &mut W) -> Result<(), u8> {
    let (processor, _) = load(alloc, source, feed)?;
    let (mut plain, _) = load(alloc, source, feed)?;
    let mut session = Session::<VecKeeper>::open(alloc, processor).map_err(|_| FAILED)?;
    for _ in 0..STEPS {
        if step(&mut session, &mut plain)? {
            tell(out, b"REFUSED\n")?;
        }
    }
    tell(out, b"DONE\n")
}

fn tell<W: Write>(out: &mut W, line: &[u8]) -> Result<(), u8> {
    write_all(out, line).map_err(|_| FAILED)
}

/// The processor of a source and a feed, and the symbols.
fn load(alloc: Global, source: &[u8], feed: &[u8]) -> Result<(Processor, Symbols), u8> {
    let (rope, symbols) = assemble(alloc, Language::Standard, source)
        .map_err(|_| FAILED)?
        .split();
    let mut inputs = feed;
    let feed = read(alloc, &mut inputs).map_err(|_| FAILED)?;
    Ok((Processor::new(rope, feed), symbols))
}

/// Goes a step, and answers whether it was refused at first.
fn step(session: &mut Session<VecKeeper>, plain: &mut Processor) -> Result<bool, u8> {
    let before = (session.steps(), session.held(), session.meter());
    if session.forward().is_ok() {
        return Ok(false);
    }
    if (session.steps(), session.held(), session.meter()) != before || !shows_all(session, plain) {
        return Err(CHANGED);
    }
    match session.forward() {
        Ok(_) => Ok(true),
        Err(_) => Err(FAILED),
    }
}

/// Whether the session shows each machine up to its last as a plain processor makes it.
fn shows_all(session: &mut Session<VecKeeper>, plain: &mut Processor) -> bool {
    let mut machine = Machine::start();
    for t in 0..=session.steps() {
        match session.show(t) {
            Ok(shown) if same(plain, shown, &machine) => {}
            _ => return false,
        }
        plain.step(&mut machine);
    }
    true
}

/// Whether two machines read the same everywhere, channels and flags too, and would execute the same word next.
fn same(processor: &Processor, one: &Machine, other: &Machine) -> bool {
    let mut places = [0; 2048];
    if changed(one.store(), other.store(), &mut places) != 0 {
        return false;
    }
    for number in 0..0o1000u16 {
        let channel = Chan::of_low_bits(number);
        if one.channel(channel) != other.channel(channel) {
            return false;
        }
    }
    one.cycles() == other.cycles()
        && one.inhibit() == other.inhibit()
        && one.inside() == other.inside()
        && processor.next_word(one) == processor.next_word(other)
}
