//! `why`: how a word came to be what it is.

ghost use Rattle.std.specs.Prelude.{◌≡◌, List, ◌+◌, ◌-◌, ◌*◌, ◌<◌, ◌≤◌, ◌++◌, ◌^◌, true};
ghost use Rattle.arrayvec.specs.ArrayVec.{array_vec_len};
ghost use Rattle.words.specs.Devices.{Writes, failures_after};
ghost use Rattle.cpu.specs.NextStep.{next_step};
ghost use Rattle.cpu.specs.Run.{run};
ghost use Rattle.cpu.specs.Chains.{cells_among, link_at, before_step};
ghost use Rattle.std.specs.FinSet.{empty};
ghost use Rattle.cpu.specs.Links.{targets, place_spots};
ghost use Rattle.cpu.specs.declared.spot.Spot.{Spot};
ghost use Rattle.debugger.specs.Whys.{why_text, last_text, link_lines, subject_spots, target_spots, kind_part};
ghost use Rattle.origins.specs.Following.{reads, those_in};
ghost use Rattle.debugger.specs.Whys.{cells_part, reads_part, mark_part, added_by, step_place};
ghost use Rattle.origins.specs.Following.{cells_before};
ghost use Rattle.debugger.specs.Conversation.{link_effort};
ghost use Rattle.debugger.specs.Executions.{HasLooked};
ghost use Rattle.debugger.specs.Desks.{Looks};

use crate::desk::Desk;
use crate::index_lines::{IndexLine, added_by, index_part};
use crate::link_texts::{
    LinkLine, Part, Piece, by_line, cells_part, end_text, entered_mark, kind_part, reads_part,
};
use crate::step_places::{PlaceLine, StepPlace, placed_by, step_place};
use arrayvec::ArrayVec;
use commands::{LinkLines, Subject};
use cpu::{Cell, CellSet};
use origins::{Link, Targets, all_among, link_of};
use replay::{Keeper, Session};
use space::{Chan, Eras};
use symbols::Symbols;
use words::{Wide, Write, WriteFailed, push_all, write_all};

impl<'a, K: Keeper> Desk<'a, K> {
    /// `why` of something: how the word there came to be what it is at the position, by at most so many steps.
    pub(crate) fn why<W: Write>(
        &mut self,
        subject: Subject,
        links: u64,
        lines: LinkLines,
        out: &mut W,
    ) -> Result<(), WriteFailed>
        ensures writes { W.told ≡ true → Writes (W.written out.old) (W.written out.new)
            (why_text self.old.symbols.now self.old.session.now.scenario lines links self.old.position
            (subject_spots subject)) result }
        ensures looked { Looks ((link_effort lines * links + 1) * self.old.session.now.n) self.old self.new }
        ensures failures { W.failures out.new ≡ failures_after (W.failures out.old) result }
    {
        let mut pending = subject_cells(subject);
        chain(
            self.session,
            self.symbols,
            self.position,
            &mut pending,
            links,
            lines,
            out,
        )
    }

    /// `why` alone: what the step did that led to the position.
    #[tactic(auto, unfolding(crate::specs::Whys::last_text))]
    pub(crate) fn why_step<W: Write>(
        &mut self,
        lines: LinkLines,
        out: &mut W,
    ) -> Result<(), WriteFailed>
        ensures writes { W.told ≡ true → Writes (W.written out.old) (W.written out.new)
            (last_text self.old.symbols.now self.old.session.now.scenario lines self.old.position) result }
        ensures looked { Looks (link_effort lines * self.old.session.now.n) self.old self.new }
        ensures failures { W.failures out.new ≡ failures_after (W.failures out.old) result }
    {
        if self.position == 0 {
            return write_all(out, b"START\n");
        }
        let step = self.position - 1;
        let mut pending = cells_written(self.session, step);
        write_all(
            out,
            link_lines(self.session, self.symbols, lines, step, &mut pending).as_slice(),
        )?;
        write_all(out, end_text(self.symbols, true, &pending).as_slice())
    }
}

/// How what stands in some cells after so many steps came to be, by at most so many steps.
pub(crate) fn chain<K: Keeper, W: Write>(
    session: &mut Session<K>,
    symbols: &Symbols,
    position: u64,
    pending: &mut CellSet,
    links: u64,
    lines: LinkLines,
    out: &mut W,
) -> Result<(), WriteFailed>
    requires { position ≤ session.old.n }
    ensures writes { (xs : List Spot) → pending.old ≡ cells_among xs → W.told ≡ true
        → Writes (W.written out.old) (W.written out.new)
        (why_text symbols.now session.old.scenario lines links position xs) result }
    ensures looked { HasLooked session.old session.new ((link_effort lines * links + 1) * session.old.n) }
    ensures failures { W.failures out.new ≡ failures_after (W.failures out.old) result }
{
    let mut before = position;
    let mut left = links;
    while left > 0 {
        let Some(step) = session.seek_writer(before, pending) else {
            return write_all(out, end_text(symbols, false, pending).as_slice());
        };
        write_all(
            out,
            link_lines(session, symbols, lines, step, pending).as_slice(),
        )?;
        before = step;
        left -= 1;
    }
    write_all(out, end_text(symbols, true, pending).as_slice())
}

/// The cells of what `why` is about: BB is FB and EB, and the place that reads as 0 has none.
pub(crate) fn subject_cells(subject: Subject) -> CellSet
    ensures { result ≡ cells_among (subject_spots subject) }
{
    let mut cells = CellSet::new();
    match subject {
        Subject::Place(place) => insert_place(&mut cells, place),
        Subject::Channel(channel) => cells.insert(Cell::of_channel(channel)),
    }
    cells
}

/// Puts the cells of an erasable place into the set of none.
fn insert_place(cells: &mut CellSet, place: Eras)
    requires { cells.old ≡ empty }
    ensures { cells.new ≡ cells_among (place_spots place) }
{
    if place == Eras::BB {
        cells.insert(Cell::of_place(Eras::EB));
        cells.insert(Cell::of_place(Eras::FB));
    } else if place != Eras::ZERO {
        cells.insert(Cell::of_place(place));
    }
}

/// The cells that the step after so many writes.
#[tactic(auto, using(crate::proofs::Looking::looked_near, crate::proofs::Looking::fits_at))]
fn cells_written<K: Keeper>(session: &mut Session<K>, step: u64) -> CellSet
    requires { step < session.old.n }
    ensures cells { result ≡ cells_among (target_spots session.old.scenario step) }
    ensures looked { HasLooked session.old session.new (session.old.n - step) }
{
    match session.with_present(step) {
        Ok((machine, _, processor)) => all_among(processor.targets(machine).as_slice()),
        Err(_) => unreachable!(),
    }
}

/// What is told of a step before it is made.
#[derive(Drop)]
pub(crate) struct Begun {
    pub(crate) kind: Piece,
    pub(crate) cells: Targets,
    pub(crate) reads: Part,
    pub(crate) inside: bool,
    pub(crate) added: Option<Wide>,
    pub(crate) place: StepPlace,
}

/// The most bytes of the lines of a step.
const LINK_LINES: usize = 3_144;

/// The lines of a step.
pub(crate) type LinkText = ArrayVec<u8, LINK_LINES>;

/// The lines of the step after so many, of some cells that are followed. Those from which these come are followed on.
fn link_lines<K: Keeper>(
    session: &mut Session<K>,
    symbols: &Symbols,
    lines: LinkLines,
    step: u64,
    pending: &mut CellSet,
) -> LinkText
    requires within { step < session.old.n }
    requires fits { step + 1 < 2 ^ 64 }
    ensures lines { (xs : List Spot) → pending.old ≡ cells_among xs
        → result.items ≡ link_lines symbols.now session.old.scenario lines step xs }
    ensures pending { (xs : List Spot) → pending.old ≡ cells_among xs
        → pending.new ≡ cells_among (before_step session.old.scenario step xs) }
    ensures looked { HasLooked session.old session.new
        (2 * (session.old.n - step) + (link_effort lines - 4) * session.old.n) }
{
    let begun = begun_at(session, symbols, step, pending);
    let cells = cells_after(session, symbols, step + 1, &begun.cells);
    let mark = mark_part(session, step, begun.inside);
    let line = by_line(step + 1, &begun.kind, &cells, &begun.reads, &mark);
    let place = placed_by(lines.places, step + 1, &begun.place);
    let index = index_part(session, symbols, lines.index, step, begun.added);
    together(&line, &place, &index)
}

/// The lines of a step, one after another.
pub(crate) fn together(line: &LinkLine, place: &PlaceLine, index: &IndexLine) -> LinkText
    ensures { result.items ≡ line.now.items ++ place.now.items ++ index.now.items }
{
    let mut text = ArrayVec::new();
    push_all(&mut text, line.as_slice());
    push_all(&mut text, place.as_slice());
    push_all(&mut text, index.as_slice());
    text
}

/// What is told of the step after so many before it is made.
#[tactic(auto, using(crate::proofs::Looking::looked_near, crate::proofs::Looking::fits_at))]
pub(crate) fn begun_at<K: Keeper>(
    session: &mut Session<K>,
    symbols: &Symbols,
    step: u64,
    pending: &mut CellSet,
) -> Begun
    requires { step < session.old.n }
    ensures kind { result.kind.items ≡ kind_part symbols.now session.old.scenario (run session.old.scenario step) }
    ensures cells { result.cells.items ≡ those_in (targets (link_at session.old.scenario step)) pending.old }
    ensures reads { result.reads.items ≡ reads_part symbols.now session.old.scenario.rope
        (run session.old.scenario step) (reads (link_at session.old.scenario step) result.cells.items) }
    ensures inside { result.inside ≡ (run session.old.scenario step).inside }
    ensures added { result.added ≡ added_by (next_step session.old.scenario (run session.old.scenario step)) }
    ensures place { result.place.items ≡ step_place (next_step session.old.scenario (run session.old.scenario step)) }
    ensures pending { pending.new ≡ cells_before (link_at session.old.scenario step) pending.old }
    ensures looked { HasLooked session.old session.new (session.old.n - step) }
{
    match session.with_present(step) {
        Ok((machine, _, processor)) => {
            let Link { cells, spots } = link_of(processor, machine, pending);
            Begun {
                kind: kind_part(symbols, processor, machine),
                reads: reads_part(symbols, processor, machine, spots.as_slice()),
                cells,
                inside: machine.inside(),
                added: added_by(processor, machine),
                place: step_place(processor, machine),
            }
        }
        Err(_) => unreachable!(),
    }
}

/// The mark of the step after so many, which stands in an interrupt or not.
fn mark_part<K: Keeper>(session: &mut Session<K>, step: u64, inside: bool) -> Piece
    requires within { step < session.old.n }
    requires known { inside ≡ (run session.old.scenario step).inside }
    ensures items { result.items ≡ mark_part session.old.scenario step }
    ensures short { array_vec_len result ≤ 29 }
    ensures looked { HasLooked session.old session.new (2 * session.old.n) }
{
    if !inside {
        return ArrayVec::new();
    }
    match session.seek_back(step, |machine| !machine.inside()) {
        Some(outside) => entered_mark(outside),
        None => ArrayVec::new(),
    }
}

/// Cells with what they hold after so many steps.
#[tactic(auto, using(crate::proofs::Looking::looked_near, crate::proofs::Looking::fits_at))]
pub(crate) fn cells_after<K: Keeper>(
    session: &mut Session<K>,
    symbols: &Symbols,
    step: u64,
    cells: &Targets,
) -> Part
    requires { step ≤ session.old.n }
    ensures items { result.items ≡ cells_part symbols.now (run session.old.scenario step) cells.now.items }
    ensures looked { HasLooked session.old session.new (session.old.n - step) }
{
    match session.show(step) {
        Ok(machine) => cells_part(symbols, machine, cells.as_slice()),
        Err(_) => unreachable!(),
    }
}
