//! `why` since a step: how a word came to be what it is, by steps from one on.

ghost use Rattle.std.specs.Prelude.{◌≡◌, List, ◌+◌, ◌-◌, ◌*◌, ◌<◌, ◌≤◌, ◌^◌, Option, min, true, IfSome, Some, None};
ghost use Rattle.std.specs.Option.{option_map};
ghost use Rattle.arrayvec.specs.ArrayVec.{array_vec_len};
ghost use Rattle.words.specs.Devices.{Writes, failures_after};
ghost use Rattle.cpu.specs.NextStep.{next_step};
ghost use Rattle.cpu.specs.Run.{run};
ghost use Rattle.cpu.specs.Chains.{cells_among, before_step};
ghost use Rattle.cpu.specs.declared.spot.Spot.{Spot};
ghost use Rattle.replay.specs.Found.{found_by, last_between};
ghost use Rattle.replay.specs.Whys.{last_writer};
ghost use Rattle.origins.specs.Following.{cells_of};
ghost use Rattle.debugger.specs.Whys.{subject_spots, added_by, last_executed, index_line};
ghost use Rattle.debugger.specs.WhysSince.{since_text, since_step, lines_since, mark_since, entered_since, index_since};
ghost use Rattle.debugger.specs.WhysSince.{end_since};
ghost use Rattle.debugger.specs.Conversation.{index_effort, link_effort};
ghost use Rattle.debugger.specs.Executions.{HasLooked};
ghost use Rattle.debugger.specs.Desks.{Looks};

use crate::desk::Desk;
use crate::index_lines::{IndexLine, Instructions, index_line};
use crate::link_texts::{EndText, Piece, by_line, end_text, entered_mark};
use crate::step_places::placed_by;
use crate::stops::step_of;
use crate::why::{LinkText, begun_at, cells_after, subject_cells, together};
use arrayvec::ArrayVec;
use commands::{IndexLines, LinkLines, Subject};
use cpu::{CellSet, Machine, Processor, make_step};
use origins::cells_of;
use replay::{Keeper, Session, StepTest};
use symbols::Symbols;
use words::{Wide, Write, WriteFailed, push_all, push_decimal, write_all};

impl<'a, K: Keeper> Desk<'a, K> {
    /// `why` of something since a step: how the word there came to be what it is at the position, by at most so many
    /// steps, of which none is before that one.
    pub(crate) fn why_since<W: Write>(
        &mut self,
        subject: Subject,
        links: u64,
        lines: LinkLines,
        since: u64,
        out: &mut W,
    ) -> Result<(), WriteFailed>
        ensures writes { W.told ≡ true → Writes (W.written out.old) (W.written out.new)
            (since_text self.old.symbols.now self.old.session.now.scenario lines since links self.old.position
            (subject_spots subject)) result }

        // No step before it is made but from the latest image up to there on.
        ensures looked { Looks ((link_effort lines * links + 2) * (self.old.session.now.n - (since - 1)))
            self.old self.new }
        ensures failures { W.failures out.new ≡ failures_after (W.failures out.old) result }
    {
        chain_since(
            self.session,
            self.symbols,
            self.position,
            subject,
            links,
            lines,
            since,
            out,
        )
    }
}

/// How the word of something came to be what it is after so many steps, by at most so many steps, of which none is
/// before a step.
fn chain_since<K: Keeper, W: Write>(
    session: &mut Session<K>,
    symbols: &Symbols,
    position: u64,
    subject: Subject,
    links: u64,
    lines: LinkLines,
    since: u64,
    out: &mut W,
) -> Result<(), WriteFailed>
    requires { position ≤ session.old.n }
    ensures writes { W.told ≡ true → Writes (W.written out.old) (W.written out.new)
        (since_text symbols.now session.old.scenario lines since links position (subject_spots subject)) result }
    ensures looked { HasLooked session.old session.new
        ((link_effort lines * links + 2) * (session.old.n - (since - 1))) }
    ensures failures { W.failures out.new ≡ failures_after (W.failures out.old) result }
{
    let mut pending = subject_cells(subject);
    let mut before = position;
    let mut left = links;
    while left > 0 {
        let Some(step) = writer_since(session, since, before, &pending) else {
            return write_all(out, end_since(symbols, since, &pending).as_slice());
        };
        write_all(
            out,
            lines_since(session, symbols, lines, since, step, &mut pending).as_slice(),
        )?;
        before = step;
        left -= 1;
    }
    write_all(out, end_text(symbols, true, &pending).as_slice())
}

/// The last step after fewer than `p`, and from a first one on, of which a test finds something.
fn last_since<K: Keeper, T: StepTest>(
    session: &mut Session<K>,
    since: u64,
    p: u64,
    test: &T,
) -> Option<u64>
    requires { p ≤ session.old.n }
    ensures last { result ≡ option_map (λ r. r.0)
        (last_between (found_by (T.finds test.now) session.old.scenario) (min (since - 1) p) (p - min (since - 1) p)) }
    ensures between { IfSome result (λ t. (since - 1 ≤ t) × (t < p)) }
    ensures below { IfSome result (λ t. t < 2 ^ 40) }
    ensures looked { HasLooked session.old session.new (2 * (session.old.n - (since - 1))) }
{
    let _limited = session.steps();
    let first = since.saturating_sub(1);
    if first >= p {
        return None;
    }
    step_of(session.seek_step_since(first, p, test))
}

/// The last step before `p`, and from a first one on, that writes one of some cells.
fn writer_since<K: Keeper>(
    session: &mut Session<K>,
    since: u64,
    p: u64,
    cells: &CellSet,
) -> Option<u64>
    requires { p ≤ session.old.n }
    ensures writer { (xs : List Spot) → cells.now ≡ cells_among xs
        → result ≡ since_step since (last_writer session.old.scenario xs p) }
    ensures between { IfSome result (λ t. (since - 1 ≤ t) × (t < p)) }
    ensures below { IfSome result (λ t. t < 2 ^ 40) }
    ensures looked { HasLooked session.old session.new (2 * (session.old.n - (since - 1))) }
{
    last_since(session, since, p, &Writing { cells })
}

/// The lines of the step after so many, of some cells that are followed. Those from which these come are followed on.
fn lines_since<K: Keeper>(
    session: &mut Session<K>,
    symbols: &Symbols,
    lines: LinkLines,
    since: u64,
    step: u64,
    pending: &mut CellSet,
) -> LinkText
    requires within { step < session.old.n }
    requires fits { step + 1 < 2 ^ 64 }
    requires since { since - 1 ≤ step }
    ensures lines { (xs : List Spot) → pending.old ≡ cells_among xs
        → result.items ≡ lines_since symbols.now session.old.scenario lines since step xs }
    ensures pending { (xs : List Spot) → pending.old ≡ cells_among xs
        → pending.new ≡ cells_among (before_step session.old.scenario step xs) }
    ensures looked { HasLooked session.old session.new ((link_effort lines - 2) * (session.old.n - (since - 1))) }
{
    let begun = begun_at(session, symbols, step, pending);
    let cells = cells_after(session, symbols, step + 1, &begun.cells);
    let mark = mark_since(session, since, step, begun.inside);
    let line = by_line(step + 1, &begun.kind, &cells, &begun.reads, &mark);
    let place = placed_by(lines.places, step + 1, &begun.place);
    let index = index_since(session, symbols, lines.index, since, step, begun.added);
    together(&line, &place, &index)
}

/// The mark of the step after so many, which stands in an interrupt or not.
fn mark_since<K: Keeper>(session: &mut Session<K>, since: u64, step: u64, inside: bool) -> Piece
    requires within { step < session.old.n }
    requires known { inside ≡ (run session.old.scenario step).inside }
    ensures items { result.items ≡ mark_since session.old.scenario since step }
    ensures short { array_vec_len result ≤ 40 }
    ensures looked { HasLooked session.old session.new (2 * (session.old.n - (since - 1))) }
{
    if !inside {
        return ArrayVec::new();
    }
    match last_since(session, since, step, &Outside) {
        Some(outside) => entered_mark(outside),
        None => before_mark(since),
    }
}

/// The mark of a step in an interrupt that no step entered from a first one on.
#[tactic(auto, using(words::proofs::Digits::short_decimal))]
fn before_mark(since: u64) -> Piece
    ensures items { result.items ≡ entered_since since None }
    ensures short { array_vec_len result ≤ 40 }
{
    let mut mark = ArrayVec::new();
    if since > 1 {
        push_all(&mut mark, b" IN STEP BEFORE ");
        push_decimal(&mut mark, since);
    }
    mark
}

/// The line of the INDEX that moved the operand of the step after so many, where it is to be told and added a sum.
fn index_since<K: Keeper>(
    session: &mut Session<K>,
    symbols: &Symbols,
    lines: IndexLines,
    since: u64,
    step: u64,
    added: Option<Wide>,
) -> IndexLine
    requires within { step < session.old.n }
    requires known { added ≡ added_by (next_step session.old.scenario (run session.old.scenario step)) }
    ensures items { result.items ≡ index_since symbols.now session.old.scenario lines since step }
    ensures looked { HasLooked session.old session.new ((index_effort lines - 6) * (session.old.n - (since - 1))) }
{
    if lines == IndexLines::Omitted {
        return ArrayVec::new();
    }
    match added {
        Some(sum) => moved_since(session, symbols, since, step, sum),
        None => ArrayVec::new(),
    }
}

/// The line of the INDEX that left the sum for the step after so many.
fn moved_since<K: Keeper>(
    session: &mut Session<K>,
    symbols: &Symbols,
    since: u64,
    step: u64,
    sum: Wide,
) -> IndexLine
    requires { step < session.old.n }
    ensures items { result.items ≡ index_line symbols.now session.old.scenario sum
        (since_step since (last_executed session.old.scenario step)) }
    ensures looked { HasLooked session.old session.new (3 * (session.old.n - (since - 1))) }
{
    match last_since(session, since, step, &Instructions) {
        Some(index) => index_line(session, symbols, index, sum),
        None => ArrayVec::new(),
    }
}

/// The last line, where no step from a first one on wrote one of the cells that are left.
#[tactic(auto, using(words::proofs::Digits::short_decimal))]
fn end_since(symbols: &Symbols, since: u64, pending: &CellSet) -> EndText
    ensures { result.items ≡ end_since symbols.now since (cells_of pending.now) }
{
    let cells = cells_of(pending);
    if cells.is_empty() || since <= 1 {
        return end_text(symbols, false, pending);
    }
    let mut text = ArrayVec::new();
    push_all(&mut text, b"MORE ");
    push_decimal(&mut text, cells.len() as u64);
    push_all(&mut text, b" BEFORE ");
    push_decimal(&mut text, since);
    push_all(&mut text, b"\n");
    text
}

/// Steps that write one of some cells.
#[derive(Clone, Copy, Drop)]
struct Writing<'a> {
    cells: &'a CellSet,
}

impl<'a> StepTest for Writing<'a> {
    ghost use Rattle.cpu.specs.Links.{link};
    ghost use Rattle.debugger.specs.WhysSince.{writer_found};

    ghost finds = { λ test scenario state. writer_found (link scenario state) test.cells.now };

    fn test_step(&self, processor: &mut Processor, machine: &mut Machine) -> Option<u64> {
        let found = processor.writes_some(machine, self.cells);
        make_step(processor, machine);
        if found { Some(0) } else { None }
    }
}

/// Steps before which no interrupt is served.
#[derive(Clone, Copy, Drop)]
struct Outside;

impl StepTest for Outside {
    ghost use Rattle.debugger.specs.WhysSince.{outside_found};

    ghost finds = { λ test scenario state. outside_found state };

    fn test_step(&self, processor: &mut Processor, machine: &mut Machine) -> Option<u64> {
        let found = !machine.inside();
        make_step(processor, machine);
        if found { Some(0) } else { None }
    }
}
