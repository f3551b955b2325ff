//! `why step` and `why .. control`: the last choice before a step, and what it was made by.

ghost use Rattle.std.specs.Prelude.{◌≡◌, ◌+◌, ◌-◌, ◌*◌, ◌<◌, ◌≤◌, ◌^◌, ◌++◌, codes, true, Some};
ghost use Rattle.arrayvec.specs.ArrayVec.{array_vec_len};
ghost use Rattle.words.specs.Devices.{Writes, failures_after};
ghost use Rattle.cpu.specs.State.{FitsRun};
ghost use Rattle.cpu.specs.Run.{run};
ghost use Rattle.cpu.specs.Chains.{cells_among};
ghost use Rattle.cpu.specs.NextStep.{next_step};
ghost use Rattle.debugger.specs.Executions.{HasLooked};
ghost use Rattle.debugger.specs.Whys.{added_by, kind_part, reads_part, subject_spots};
ghost use Rattle.debugger.specs.Ways.{choice_lines, choice_text, chooses, chosen_by, control_text, decides, is_entry};
ghost use Rattle.debugger.specs.Ways.{is_moved, is_named, led_to, skips, way_by, way_text};
ghost use Rattle.debugger.specs.Desks.{Looks};

use crate::calls_told::spot_text;
use crate::desk::Desk;
use crate::index_lines::{IndexLine, added_by, index_part};
use crate::link_texts::{Part, Piece, end_text, kind_part, reads_part};
use crate::texts::Text;
use crate::why::{chain, subject_cells};
use arrayvec::ArrayVec;
use commands::{IndexLines, LinkLines, Subject};
use cpu::{
    Cell, CellSet, Fetched, Machine, NextStep, Processor, Spot, instruction_name, make_step,
};
use origins::cells_among;
use replay::{Keeper, Session, StepTest};
use space::Eras;
use symbols::Symbols;
use words::{Overflow, Wide, Write, WriteFailed, push_all, push_decimal, write_all};

/// How many links are told of what a choice was made by.
const WAY_LINKS: u64 = 16;

/// The most bytes of the lines of a choice: its parts, its number, and the line of an INDEX.
const CHOICE_LINES: usize = 2_160;

/// The lines of a choice.
type ChoiceLines = ArrayVec<u8, CHOICE_LINES>;

impl<'a, K: Keeper> Desk<'a, K> {
    /// `why step`: why the program came to the step at the position.
    pub(crate) fn why_way<W: Write>(&mut self, out: &mut W) -> Result<(), WriteFailed>
        ensures writes { W.told ≡ true → Writes (W.written out.old) (W.written out.new)
            (way_text self.old.symbols.now self.old.session.now.scenario self.old.position) result }
        ensures looked { Looks (105 * self.old.session.now.n) self.old self.new }
        ensures failures { W.failures out.new ≡ failures_after (W.failures out.old) result }
    {
        tell_way(self.session, self.symbols, self.position, out)
    }

    /// `why` of something with `control`: why the program came to the step that wrote there last.
    #[tactic(auto, unfolding(crate::specs::Ways::control_text))]
    pub(crate) fn why_control<W: Write>(
        &mut self,
        subject: Subject,
        out: &mut W,
    ) -> Result<(), WriteFailed>
        ensures writes { W.told ≡ true → Writes (W.written out.old) (W.written out.new)
            (control_text self.old.symbols.now self.old.session.now.scenario self.old.position
            (subject_spots subject)) result }
        ensures looked { Looks (107 * self.old.session.now.n) self.old self.new }
        ensures failures { W.failures out.new ≡ failures_after (W.failures out.old) result }
    {
        let cells = subject_cells(subject);
        match self.session.seek_writer(self.position, &cells) {
            Some(step) => tell_way(self.session, self.symbols, step, out),
            None => write_all(out, end_text(self.symbols, false, &cells).as_slice()),
        }
    }
}

/// Why the program came to the step after so many.
#[tactic(auto, unfolding(crate::specs::Ways::way_text))]
fn tell_way<K: Keeper, W: Write>(
    session: &mut Session<K>,
    symbols: &Symbols,
    position: u64,
    out: &mut W,
) -> Result<(), WriteFailed>
    requires { position ≤ session.old.n }
    ensures writes { W.told ≡ true → Writes (W.written out.old) (W.written out.new)
        (way_text symbols.now session.old.scenario position) result }
    ensures looked { HasLooked session.old session.new (105 * session.old.n) }
    ensures failures { W.failures out.new ≡ failures_after (W.failures out.old) result }
{
    let inside = is_inside(session, position);
    match session.seek_step_back(position, &Deciding { inside }) {
        Some((step, _)) => tell_choice(session, symbols, step, out),
        None => write_all(out, b"START\n"),
    }
}

/// Whether an interrupt is served after so many steps.
#[tactic(auto, using(crate::proofs::Looking::looked_at))]
fn is_inside<K: Keeper>(session: &mut Session<K>, position: u64) -> bool
    requires { position ≤ session.old.n }
    ensures inside { result ≡ (run session.old.scenario position).inside }
    ensures looked { HasLooked session.old session.new session.old.n }
{
    match session.show(position) {
        Ok(machine) => machine.inside(),
        Err(_) => unreachable!(),
    }
}

/// The choice that the step after so many was, and how what it was made by came to be what it was.
pub(crate) fn tell_choice<K: Keeper, W: Write>(
    session: &mut Session<K>,
    symbols: &Symbols,
    step: u64,
    out: &mut W,
) -> Result<(), WriteFailed>
    requires within { step < session.old.n }
    requires fits { step + 1 < 2 ^ 64 }
    ensures writes { W.told ≡ true → Writes (W.written out.old) (W.written out.new)
        (choice_text symbols.now session.old.scenario (Some step)) result }
    ensures looked { HasLooked session.old session.new (102 * session.old.n) }
    ensures failures { W.failures out.new ≡ failures_after (W.failures out.old) result }
{
    let mut choice = choice_at(session, symbols, step);
    let lines = choice_lines(session, symbols, step, &choice);
    write_all(out, lines.as_slice())?;
    let told = LinkLines {
        index: IndexLines::Omitted,
        places: false,
    };
    chain(
        session,
        symbols,
        step,
        &mut choice.cells,
        WAY_LINKS,
        told,
        out,
    )
}

/// A choice before it was made.
#[derive(Drop)]
struct Choice {
    kind: Piece,
    reads: Part,
    cells: CellSet,
    added: Option<Wide>,
}

/// The choice that the step after so many was.
#[tactic(auto, using(crate::proofs::Looking::looked_near, crate::proofs::Looking::fits_at))]
fn choice_at<K: Keeper>(session: &mut Session<K>, symbols: &Symbols, step: u64) -> Choice
    requires { step < session.old.n }
    ensures kind { result.kind.items ≡ kind_part symbols.now session.old.scenario (run session.old.scenario step) }
    ensures reads { result.reads.items ≡ reads_part symbols.now session.old.scenario.rope
        (run session.old.scenario step) (chosen_by session.old.scenario (run session.old.scenario step)) }
    ensures cells { result.cells ≡ cells_among (chosen_by session.old.scenario (run session.old.scenario step)) }
    ensures added { result.added ≡ added_by (next_step session.old.scenario (run session.old.scenario step)) }
    ensures looked { HasLooked session.old session.new (session.old.n - step) }
{
    match session.with_present(step) {
        Ok((machine, _, processor)) => {
            let spots = chosen_by(processor, machine);
            Choice {
                kind: kind_part(symbols, processor, machine),
                reads: reads_part(symbols, processor, machine, spots.as_slice()),
                cells: cells_among(spots.as_slice()),
                added: added_by(processor, machine),
            }
        }
        Err(_) => unreachable!(),
    }
}

/// The lines of a choice, and of the INDEX that moved it.
fn choice_lines<K: Keeper>(
    session: &mut Session<K>,
    symbols: &Symbols,
    step: u64,
    choice: &Choice,
) -> ChoiceLines
    requires within { step < session.old.n }
    requires fits { step + 1 < 2 ^ 64 }
    requires kind { choice.now.kind.items
        ≡ kind_part symbols.now session.old.scenario (run session.old.scenario step) }
    requires reads { choice.now.reads.items ≡ reads_part symbols.now session.old.scenario.rope
        (run session.old.scenario step) (chosen_by session.old.scenario (run session.old.scenario step)) }
    requires added { choice.now.added ≡ added_by (next_step session.old.scenario (run session.old.scenario step)) }
    ensures items { result.items ≡ choice_lines symbols.now session.old.scenario step }
    ensures looked { HasLooked session.old session.new (4 * session.old.n) }
{
    let to = led_to(session, symbols, step + 1);
    let index = index_part(session, symbols, IndexLines::Told, step, choice.added);
    way_by(step + 1, &choice.kind, &to, &choice.reads, &index)
}

/// Where the program stands after so many steps.
#[tactic(auto, using(crate::proofs::Looking::looked_at))]
fn led_to<K: Keeper>(session: &mut Session<K>, symbols: &Symbols, step: u64) -> Text
    requires { step ≤ session.old.n }
    ensures text { result.items ≡ led_to symbols.now (run session.old.scenario step) }
    ensures short { array_vec_len result ≤ 23 }
    ensures looked { HasLooked session.old session.new session.old.n }
{
    match session.show(step) {
        Ok(machine) => spot_text(symbols, &machine.next_place()),
        Err(_) => unreachable!(),
    }
}

/// The line of a choice, by its number, what it is, where it led and what it was made by; and a line after it.
#[tactic(auto, using(words::proofs::Digits::short_decimal))]
fn way_by(number: u64, kind: &Piece, to: &Text, reads: &Part, index: &IndexLine) -> ChoiceLines
    requires { array_vec_len to.now ≤ 23 }
    ensures { result.items ≡ way_by number kind.now.items to.now.items reads.now.items ++ index.now.items }
{
    let mut lines = ArrayVec::new();
    push_all(&mut lines, b"WAY ");
    push_decimal(&mut lines, number);
    push_all(&mut lines, b" ");
    push_all(&mut lines, kind.as_slice());
    push_all(&mut lines, b" TO ");
    push_all(&mut lines, to.as_slice());
    push_all(&mut lines, b" FROM");
    push_all(&mut lines, reads.as_slice());
    push_all(&mut lines, b"\n");
    push_all(&mut lines, index.as_slice());
    lines
}

/// What the next step chooses by.
fn chosen_by(processor: &Processor, machine: &Machine) -> ArrayVec<Spot, 6>
    requires { FitsRun processor.now.scenario machine.now }
    ensures { result.items ≡ chosen_by processor.now.scenario machine.now }
{
    let counter = Cell::of_place(Eras::Z);
    if skips(machine, &processor.next_step(machine)) {
        let mut spots = ArrayVec::new();
        spots.push(Spot::Cell(Cell::of_place(Eras::A)));
        spots
    } else if processor.writes(machine, counter) {
        processor.sources(machine, counter)
    } else {
        ArrayVec::new()
    }
}

/// Whether a step is TS where A overflows.
fn skips(machine: &Machine, step: &NextStep) -> bool
    ensures { result ≡ skips machine.now step.now }
{
    match step {
        NextStep::Takes(_) => false,
        NextStep::Enters(_) => false,
        NextStep::Executes(fetched) => {
            machine.reg(Eras::A).overflow() != Overflow::No && is_named(fetched, b"TS")
        }
    }
}

/// Whether the instruction that is executed has a name.
fn is_named(fetched: &Fetched, name: &[u8]) -> bool
    ensures { result ≡ is_named fetched.now name.now }
{
    instruction_name(fetched.word, fetched.extra) == name
}

/// Whether a step is a jump that INDEX moved.
fn is_moved(step: &NextStep) -> bool
    ensures { result ≡ is_moved step.now }
{
    match step {
        NextStep::Takes(_) => false,
        NextStep::Enters(_) => false,
        NextStep::Executes(fetched) => {
            fetched.added.is_some() && (is_named(fetched, b"TC") || is_named(fetched, b"TCF"))
        }
    }
}

/// Whether a step enters an interrupt.
fn is_entry(step: &NextStep) -> bool
    ensures { result ≡ is_entry step.now }
{
    match step {
        NextStep::Takes(_) => false,
        NextStep::Enters(_) => true,
        NextStep::Executes(_) => false,
    }
}

/// Whether the next step chooses the way.
fn chooses(processor: &Processor, machine: &Machine) -> bool
    requires { FitsRun processor.now.scenario machine.now }
    ensures { result ≡ chooses processor.now.scenario machine.now }
{
    !chosen_by(processor, machine).is_empty() || is_moved(&processor.next_step(machine))
}

/// Whether the next step decides the way of one inside an interrupt, or of one outside.
fn decides(inside: bool, processor: &Processor, machine: &Machine) -> bool
    requires { FitsRun processor.now.scenario machine.now }
    ensures { result ≡ decides inside processor.now.scenario machine.now }
{
    if inside {
        return is_entry(&processor.next_step(machine)) || chooses(processor, machine);
    }
    !machine.inside() && chooses(processor, machine)
}

/// Steps that decide the way of one inside an interrupt, or of one outside.
#[derive(Clone, Copy, Drop)]
struct Deciding {
    inside: bool,
}

impl StepTest for Deciding {
    ghost use Rattle.debugger.specs.Ways.{decides};
    ghost use Rattle.debugger.specs.WhysSince.{found_if};

    ghost finds = { λ test scenario state. found_if (decides test.inside scenario state) };

    fn test_step(&self, processor: &mut Processor, machine: &mut Machine) -> Option<u64> {
        let found = decides(self.inside, processor, machine);
        make_step(processor, machine);
        if found { Some(0) } else { None }
    }
}
