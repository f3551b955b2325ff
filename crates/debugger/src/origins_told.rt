//! `why` of something, with no limit: what it comes from, and in which interrupts the steps stand that made it.

ghost use Rattle.std.specs.Prelude.{◌≡◌, ◌+◌, ◌<◌, ◌≤◌, ◌++◌, ◌^◌, length, true, IfSome};
ghost use Rattle.arrayvec.specs.ArrayVec.{array_vec_len};
ghost use Rattle.words.specs.Devices.{Writes, failures_after};
ghost use Rattle.origins.specs.Gathering.{whole_chain};
ghost use Rattle.debugger.specs.Executions.{Replies, desk};
ghost use Rattle.debugger.specs.OriginsTold.{gathered_text, level_text, levels_from, more_line, origin_lines};
ghost use Rattle.debugger.specs.OriginsTold.{origin_text, tally_text, tells_inputs, tells_interrupts, told_if};
ghost use Rattle.debugger.specs.Whys.{subject_spots};
ghost use Rattle.debugger.specs.Desks.{standing};

use crate::desk::Desk;
use crate::link_texts::{end_text, fixed_text};
use crate::texts::{Text, text_line};
use crate::why::subject_cells;
use arrayvec::ArrayVec;
use commands::Subject;
use cpu::Processor;
use origins::{Gathered, Origin, OriginLine, Tally, look_back};
use replay::{Keeper, Session};
use std::alloc::Global;
use symbols::Symbols;
use trace::input_text;
use words::{Write, WriteFailed, push_all, push_decimal, write_all};

/// Which origins are told.
#[derive(Clone, Copy, PartialEq, Eq, Debug)]
pub(crate) enum OriginKind {
    /// The inputs that were taken.
    Inputs,
    /// The words of fixed memory.
    FixedWords,
}

impl<'a, K: Keeper> Desk<'a, K> {
    /// `why` of something with `inputs`: what the word there comes from.
    pub(crate) fn why_inputs<W: Write>(
        &self,
        alloc: Global,
        subject: Subject,
        out: &mut W,
    ) -> Result<(), WriteFailed>
        ensures executes { W.told ≡ true → Replies K.may_refuse (tells_inputs self.now.symbols.now subject)
            (standing self.now) (standing self.now) (W.written out.old) (W.written out.new) result }
        ensures failures { W.failures out.new ≡ failures_after (W.failures out.old) result }
    {
        match whole_chain(alloc, self.session, self.position, subject) {
            Some(chain) => write_gathered(self.symbols, self.session.processor(), &chain, out),
            None => write_all(out, text_line(b"E2 MEMORY").as_slice()),
        }
    }

    /// `why` of something with `interrupts`: in which of them the steps stand that made the word there.
    pub(crate) fn why_interrupts<W: Write>(
        &self,
        alloc: Global,
        subject: Subject,
        out: &mut W,
    ) -> Result<(), WriteFailed>
        ensures executes { W.told ≡ true → Replies K.may_refuse (tells_interrupts subject)
            (standing self.now) (standing self.now) (W.written out.old) (W.written out.new) result }
        ensures failures { W.failures out.new ≡ failures_after (W.failures out.old) result }
    {
        match whole_chain(alloc, self.session, self.position, subject) {
            Some(chain) => write_all(out, levels_text(chain.levels()).as_slice()),
            None => write_all(out, text_line(b"E2 MEMORY").as_slice()),
        }
    }
}

/// What the word of something comes from after so many steps, or nothing, where memory runs out.
#[tactic(auto, unfolding(origins::specs::Gathering::whole_chain))]
fn whole_chain<K: Keeper>(
    alloc: Global,
    session: &Session<K>,
    position: u64,
    subject: Subject,
) -> Option<Gathered>
    requires { position ≤ session.now.n }
    ensures { IfSome result (λ chain. chain ≡ whole_chain session.now.scenario position (subject_spots subject)) }
{
    let _limited = session.steps();
    let mut chain = Gathered::of(subject_cells(subject));
    match look_back(alloc, session.processor(), position, &mut chain) {
        Ok(_) => Some(chain),
        Err(_) => None,
    }
}

/// Writes what a chain comes from.
fn write_gathered<W: Write>(
    symbols: &Symbols,
    processor: &Processor,
    chain: &Gathered,
    out: &mut W,
) -> Result<(), WriteFailed>
    ensures writes { W.told ≡ true → Writes (W.written out.old) (W.written out.new)
        (gathered_text symbols.now processor.now.scenario.rope chain.now) result }
    ensures failures { W.failures out.new ≡ failures_after (W.failures out.old) result }
{
    write_origins(symbols, processor, OriginKind::Inputs, chain.lines(), out)?;
    write_origins(
        symbols,
        processor,
        OriginKind::FixedWords,
        chain.lines(),
        out,
    )?;
    write_all(out, end_text(symbols, false, chain.followed()).as_slice())?;
    write_all(out, more_line(chain.has_more()).as_slice())
}

/// Writes the lines of the origins of a kind.
fn write_origins<W: Write>(
    symbols: &Symbols,
    processor: &Processor,
    kind: OriginKind,
    lines: &[OriginLine],
    out: &mut W,
) -> Result<(), WriteFailed>
    ensures writes { W.told ≡ true → Writes (W.written out.old) (W.written out.new)
        (origin_lines symbols.now processor.now.scenario.rope kind lines.now) result }
    ensures failures { W.failures out.new ≡ failures_after (W.failures out.old) result }
{
    for line in lines {
        write_all(out, origin_text(symbols, processor, kind, line).as_slice())?;
    }
    Ok(())
}

/// The most bytes of the line of an origin: what it begins with, an input or a place with its word, and three numbers.
const ORIGIN_TEXT: usize = 140;

/// The line of an origin.
type OriginText = ArrayVec<u8, ORIGIN_TEXT>;

/// The line of an origin, where it is of a kind.
fn origin_text(
    symbols: &Symbols,
    processor: &Processor,
    kind: OriginKind,
    line: &OriginLine,
) -> OriginText
    ensures { result.items ≡ origin_text symbols.now processor.now.scenario.rope kind line.now.origin line.now.tally }
{
    let mut text = ArrayVec::new();
    match line.origin {
        Origin::Taken(input) => {
            if kind == OriginKind::Inputs {
                push_all(&mut text, b"INPUT ");
                push_all(&mut text, input_text(&input).as_slice());
                push_tally(&mut text, &line.tally);
                push_all(&mut text, b"\n");
            }
        }
        Origin::Fixed(bank, offset) => {
            if kind == OriginKind::FixedWords {
                push_all(&mut text, b"FIXED");
                push_all(
                    &mut text,
                    fixed_text(symbols, processor, bank, offset).as_slice(),
                );
                push_tally(&mut text, &line.tally);
                push_all(&mut text, b"\n");
            }
        }
    }
    text
}

/// Adds how many steps there are, and the first and the last of them.
#[tactic(auto, using(words::proofs::Digits::short_decimal))]
fn push_tally<const N: usize>(text: &mut ArrayVec<u8, N>, tally: &Tally)
    requires { array_vec_len text.old + 80 ≤ N }
    ensures items { text.new.items ≡ text.old.items ++ tally_text tally.now }
    ensures short { array_vec_len text.new ≤ array_vec_len text.old + 80 }
{
    push_all(text, b" COUNT ");
    push_decimal(text, tally.count);
    push_all(text, b" FIRST ");
    push_decimal(text, tally.first);
    push_all(text, b" LAST ");
    push_decimal(text, tally.last);
}

/// That there were more lines than are told.
fn more_line(more: bool) -> Text
    ensures { result.items ≡ more_line more }
{
    if more {
        text_line(b"MORE LINES")
    } else {
        ArrayVec::new()
    }
}

/// The most bytes of the lines of levels: 111 for each of 11, and their count.
const LEVELS_TEXT: usize = 1_280;

/// The lines of levels.
type LevelsText = ArrayVec<u8, LEVELS_TEXT>;

/// The lines of the levels on which steps stand, and how many lines these are.
#[tactic(auto, using(words::proofs::Digits::short_decimal))]
fn levels_text(levels: &[Tally]) -> LevelsText
    requires { length levels.now ≡ 11 }
    ensures { result.items ≡ levels_from 0 0 levels.now }
{
    let mut text = ArrayVec::new();
    let mut told = 0;
    for level in 0..levels.len() {
        let tally = &levels[level];
        push_level(&mut text, level as u64, tally);
        told = told_if(tally, told);
    }
    push_all(&mut text, b"COUNT ");
    push_decimal(&mut text, told);
    push_all(&mut text, b"\n");
    text
}

/// How many levels have a line, and one more where there are steps on one.
fn told_if(tally: &Tally, told: u64) -> u64
    requires { told < 2 ^ 32 }
    ensures value { result ≡ told_if tally.now told }
    ensures more { result ≤ told + 1 }
{
    if tally.count == 0 { told } else { told + 1 }
}

/// Adds the line of a level, where there are steps on it.
#[tactic(auto, using(words::proofs::Digits::short_decimal))]
fn push_level(text: &mut LevelsText, level: u64, tally: &Tally)
    requires { array_vec_len text.old ≤ 1110 }
    ensures items { text.new.items ≡ text.old.items ++ level_text level tally.now }
    ensures short { array_vec_len text.new ≤ array_vec_len text.old + 111 }
{
    if tally.count == 0 {
        return;
    }
    if level == 0 {
        push_all(text, b"OUTSIDE");
    } else {
        push_all(text, b"INTERRUPT ");
        push_decimal(text, level);
    }
    push_tally(text, tally);
    push_all(text, b"\n");
}
