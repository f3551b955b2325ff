//! New steps.

ghost use Rattle.std.specs.Prelude.{◌≡◌, ◌+◌, ◌*◌, ◌≤◌, ◌<◌, true, false, nat_le, Some, MatchOption, OnOk};
ghost use Rattle.cpu.specs.Run.{outs};
ghost use Rattle.words.specs.Devices.{Writes, failures_after};
ghost use Rattle.debugger.specs.History.{heard, history, unheard};
ghost use Rattle.debugger.specs.Growth.{output_line};
ghost use Rattle.debugger.specs.Hushing.{count_told};
ghost use Rattle.debugger.specs.Tallies.{tally_of, with_output};
ghost use Rattle.debugger.specs.Executions.{Grows};
ghost use Rattle.debugger.specs.HandingOn.{steps_left_after};
ghost use Rattle.debugger.specs.Telling.{EndsAs};

use crate::ending::Ending;
use crate::marks::{Breaks, Marks, NoBreaks};
use crate::tail::Tail;
use crate::texts::number_line;
use commands::Breakpoints;
use cpu::{Machine, Output, Processor, make_step, write_channel_line};
use replay::{Keeper, Refusal, Session, Stepper, Stop};
use space::Chan;
use words::{Word, Write, WriteFailed, write_all};

/// The most steps that are made before the lines written so far are handed on.
const STEPS_BETWEEN_FLUSHES: u32 = 1 << 20;

/// Makes up to `more` steps, and stops after the first step at which a breakpoint holds. Writes the line of each
/// output, or, where it is quiet, how many there were.
pub(crate) fn grow<K: Keeper, W: Write>(
    session: &mut Session<K>,
    tail: &mut Tail,
    breakpoints: &Breakpoints,
    more: u64,
    quiet: bool,
    out: &mut W,
) -> Result<Ending, WriteFailed>
    requires { tail.old ≡ tally_of (outs session.old.scenario session.old.n) }
    ensures tail { tail.new ≡ tally_of (outs session.new.scenario session.new.n) }
    ensures scenario { session.new.scenario ≡ session.old.scenario }
    ensures forward { session.old.n ≤ session.new.n }
    ensures most { session.new.n ≤ session.old.n + more }
    ensures spends { session.new.meter + 2 * session.old.n ≤ session.old.meter + 2 * session.new.n }
    ensures growth { W.told ≡ true → Grows K.may_refuse quiet (history session.old.scenario) breakpoints.now more
        session.old.n session.new.n (W.written out.old) (W.written out.new) result }
    ensures failures { W.failures out.new ≡ failures_after (W.failures out.old) result }
{
    let before = tail.count();
    let ending = grow_by(session, tail, breakpoints, more, quiet, out)?;
    let _limited = session.steps();
    tell_count(quiet, tail.count().saturating_sub(before), out)?;
    Ok(ending)
}

/// Writes how many outputs were counted, where it is quiet and there were some.
fn tell_count<W: Write>(quiet: bool, count: u64, out: &mut W) -> Result<(), WriteFailed>
    ensures written { W.told ≡ true → Writes (W.written out.old) (W.written out.new) (count_told quiet count) result }
    ensures failures { W.failures out.new ≡ failures_after (W.failures out.old) result }
{
    if quiet && count > 0 {
        return write_all(out, number_line(b"WORDS ", count).as_slice());
    }
    Ok(())
}

/// The same steps, of which lines alone are written: none where it is quiet.
fn grow_by<K: Keeper, W: Write>(
    session: &mut Session<K>,
    tail: &mut Tail,
    breakpoints: &Breakpoints,
    more: u64,
    quiet: bool,
    out: &mut W,
) -> Result<Ending, WriteFailed>
    requires { tail.old ≡ tally_of (outs session.old.scenario session.old.n) }
    ensures tail { tail.new ≡ tally_of (outs session.new.scenario session.new.n) }
    ensures scenario { session.new.scenario ≡ session.old.scenario }
    ensures forward { session.old.n ≤ session.new.n }
    ensures most { session.new.n ≤ session.old.n + more }
    ensures spends { session.new.meter + 2 * session.old.n ≤ session.old.meter + 2 * session.new.n }
    ensures growth { W.told ≡ true → Grows K.may_refuse false (heard quiet (history session.old.scenario))
        breakpoints.now more session.old.n session.new.n (W.written out.old) (W.written out.new) result }
    ensures failures { W.failures out.new ≡ failures_after (W.failures out.old) result }
{
    if breakpoints.len() == 0 {
        grow_to(session, tail, &NoBreaks, more, quiet, out)
    } else {
        grow_to(session, tail, &Marks::of(breakpoints), more, quiet, out)
    }
}

/// The same, up to the first step that one of these breaks off.
fn grow_to<K: Keeper, W: Write, B: Breaks>(
    session: &mut Session<K>,
    tail: &mut Tail,
    breaks: &B,
    more: u64,
    quiet: bool,
    out: &mut W,
) -> Result<Ending, WriteFailed>
    requires { tail.old ≡ tally_of (outs session.old.scenario session.old.n) }
    ensures tail { tail.new ≡ tally_of (outs session.new.scenario session.new.n) }
    ensures scenario { session.new.scenario ≡ session.old.scenario }
    ensures forward { session.old.n ≤ session.new.n }
    ensures most { session.new.n ≤ session.old.n + more }
    ensures spends { session.new.meter + 2 * session.old.n ≤ session.old.meter + 2 * session.new.n }
    ensures growth { W.told ≡ true → Grows K.may_refuse false (heard quiet (history session.old.scenario))
        (B.breakpoints breaks.now) more session.old.n session.new.n (W.written out.old) (W.written out.new) result }
    ensures failures { W.failures out.new ≡ failures_after (W.failures out.old) result }
{
    let mut teller = Teller {
        tail,
        breaks,
        quiet,
        out,
        until_flush: Countdown::new(),
        hit: None,
    };
    match session.advance_by(more, &mut teller) {
        Ok(stop) => ending_of(stop, teller.hit),
        Err(Refusal::StepLimit) => Ok(Ending::Limit),
        Err(Refusal::NoMemory) => Ok(Ending::NoMemory),
        Err(_) => unreachable!(),
    }
}

/// How steps end that the teller was told.
fn ending_of(stop: Stop, hit: Option<u64>) -> Result<Ending, WriteFailed>
    ensures { EndsAs stop hit result }
{
    match stop {
        Stop::All => Ok(Ending::Reached),
        Stop::Watcher => match hit {
            Some(number) => Ok(Ending::Hit(number)),
            None => Err(WriteFailed),
        },
        Stop::StepLimit => Ok(Ending::Limit),
        Stop::NoMemory => Ok(Ending::NoMemory),
    }
}

/// What makes steps, writes the line of each output unless it is quiet, hands the lines on as long steps go, and ends
/// after the first at which a breakpoint holds or the writer has failed.
#[derive(Drop)]
struct Teller<'a, W: Write, B: Breaks> {
    tail: &'a mut Tail,

    /// What ends the steps.
    breaks: &'a B,

    /// Whether no line is written.
    quiet: bool,

    out: &'a mut W,

    until_flush: Countdown,

    /// Once the steps are ended: the number of the breakpoint, or none after a failure of the writer.
    hit: Option<u64>,
}

impl<'a, W: Write, B: Breaks> Stepper for Teller<'a, W, B> {
    ghost use Rattle.cpu.specs.Next.{next};
    ghost use Rattle.debugger.specs.HandingOn.{HandsOn};
    ghost use Rattle.debugger.specs.Stopping.{hit_by};
    ghost use Rattle.debugger.specs.Telling.{Tells, Telling};

    ghost sees = { λ old scenario state ended new. (new.tail.ghost_name ≡ old.tail.ghost_name)
        × (new.out.ghost_name ≡ old.out.ghost_name) × (new.breaks ≡ old.breaks) × (new.quiet ≡ old.quiet)
        × Tells W.told old.quiet (hit_by (B.breakpoints old.breaks.now) true scenario state) (next scenario state).1
        ended new.hit
        (record { tail = old.tail.now; text = W.written old.out.now; failures = W.failures old.out.now })
        (record { tail = new.tail.now; text = W.written new.out.now; failures = W.failures new.out.now })
        × HandsOn W.told ended old.until_flush.left new.until_flush.left (W.handed_on new.out.now)
        (W.written new.out.now) };

    #[inline(always)]
    fn make_step(&mut self, processor: &mut Processor, machine: &mut Machine) -> bool {
        if self.breaks.asks(machine) {
            let noted = self.breaks.look(processor, machine);
            let output = make_step(processor, machine);
            if tell(self.tail, self.quiet, output, self.out).is_err()
                || hand_on_in_time(&mut self.until_flush, self.out).is_err()
            {
                self.hit = None;
                return true;
            }
            return match self.breaks.lowest_hit(&noted, machine) {
                Some(number) => {
                    self.hit = Some(number);
                    true
                }
                None => false,
            };
        }
        let output = processor.step(machine);
        if tell(self.tail, self.quiet, output, self.out).is_err()
            || hand_on_in_time(&mut self.until_flush, self.out).is_err()
        {
            self.hit = None;
            return true;
        }
        match self.breaks.lowest_unnoted(machine) {
            Some(number) => {
                self.hit = Some(number);
                true
            }
            None => false,
        }
    }
}

/// Keeps an output among the last ones, and writes its line unless it is quiet.
#[inline(always)]
fn tell<W: Write>(
    tail: &mut Tail,
    quiet: bool,
    output: Option<Output>,
    out: &mut W,
) -> Result<(), WriteFailed>
    ensures tail { MatchOption output (tail.new ≡ tail.old) (λ o. tail.new ≡ with_output tail.old o) }
    ensures written { W.told ≡ true → Writes (W.written out.old) (W.written out.new)
        (output_line (unheard quiet output)) result }
    ensures failures { W.failures out.new ≡ failures_after (W.failures out.old) result }
{
    match output {
        None => Ok(()),
        Some(output) => tell_parts(tail, quiet, output.cycles, output.channel, output.word, out),
    }
}

/// Keeps an output of these parts among the last ones, and writes its line unless it is quiet. It stands apart, so that
/// a step without one has none of its locals.
#[inline(never)]
fn tell_parts<W: Write>(
    tail: &mut Tail,
    quiet: bool,
    cycles: u64,
    channel: Chan,
    word: Word,
    out: &mut W,
) -> Result<(), WriteFailed>
    ensures tail { tail.new ≡ with_output tail.old (record { cycles = cycles; channel = channel; word = word }) }
    ensures written { W.told ≡ true → Writes (W.written out.old) (W.written out.new)
        (output_line (unheard quiet (Some (record { cycles = cycles; channel = channel; word = word })))) result }
    ensures failures { W.failures out.new ≡ failures_after (W.failures out.old) result }
{
    let output = Output {
        cycles,
        channel,
        word,
    };
    tail.push(output);
    if quiet {
        return Ok(());
    }
    write_channel_line(&output, out)
}

/// The steps that are left before the lines are handed on.
#[derive(Drop)]
struct Countdown {
    left: u32,
    ghost some_left: { 0 < left },
}

impl Countdown {
    /// As many as are made between.
    fn new() -> Countdown {
        Countdown {
            left: STEPS_BETWEEN_FLUSHES,
        }
    }

    /// Counts a step, and answers whether it was the last one of them; then it begins anew.
    #[inline(always)]
    fn count(&mut self) -> bool
        ensures left { self.new.left ≡ steps_left_after self.old.left }
        ensures last { result ≡ nat_le self.old.left 1 }
    {
        self.left -= 1;
        if self.left == 0 {
            self.left = STEPS_BETWEEN_FLUSHES;
            return true;
        }
        false
    }
}

/// Counts a step, and hands the lines on once so many were made.
#[inline(always)]
fn hand_on_in_time<W: Write>(until_flush: &mut Countdown, out: &mut W) -> Result<(), WriteFailed>
    ensures counts { until_flush.new.left ≡ steps_left_after until_flush.old.left }
    ensures written { W.told ≡ true → W.written out.new ≡ W.written out.old }
    ensures handed_on { W.told ≡ true → until_flush.old.left ≤ 1
        → OnOk result (W.handed_on out.new ≡ W.written out.new) }
    ensures failures { W.failures out.new ≡ failures_after (W.failures out.old) result }
{
    if until_flush.count() {
        return hand_on(out);
    }
    Ok(())
}

/// Hands on the lines that a writer holds back. It stands apart, so that a step without it has none of its locals.
#[inline(never)]
fn hand_on<W: Write>(out: &mut W) -> Result<(), WriteFailed>
    ensures written { W.told ≡ true → W.written out.new ≡ W.written out.old }
    ensures handed_on { W.told ≡ true → OnOk result (W.handed_on out.new ≡ W.written out.new) }
    ensures failures { W.failures out.new ≡ failures_after (W.failures out.old) result }
{
    match out.flush() {
        Ok(()) => Ok(()),
        Err(_) => Err(WriteFailed),
    }
}
