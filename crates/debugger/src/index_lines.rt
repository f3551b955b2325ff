//! The INDEX that moved the operand of a step.

ghost use Rattle.std.specs.Prelude.{◌≡◌, ◌+◌, ◌-◌, ◌*◌, ◌<◌, ◌≤◌, ◌^◌, Some};
ghost use Rattle.arrayvec.specs.ArrayVec.{array_vec_len};
ghost use Rattle.cpu.specs.State.{FitsRun};
ghost use Rattle.cpu.specs.Run.{run};
ghost use Rattle.cpu.specs.Links.{link, spots};
ghost use Rattle.cpu.specs.Beside.{is_instruction};
ghost use Rattle.cpu.specs.NextStep.{next_step};
ghost use Rattle.debugger.specs.Conversation.{index_effort};
ghost use Rattle.debugger.specs.Executions.{HasLooked};
ghost use Rattle.debugger.specs.Whys.{added_by, last_executed, operand_spots, operand_part, index_by, index_line};
ghost use Rattle.debugger.specs.Whys.{index_part};

use crate::link_texts::{Part, Piece, kind_part, reads_part};
use arrayvec::ArrayVec;
use commands::IndexLines;
use cpu::{Cell, Machine, NextStep, Processor, Spot, make_step, named_address};
use replay::{Keeper, Session, StepTest};
use space::resolve::resolve;
use space::{Eras, Linear};
use symbols::Symbols;
use trace::added_text;
use words::{Wide, push_all, push_decimal};

/// The most bytes of the line of an INDEX: its parts, its number, the sum, and what stands between.
const INDEX_LINE: usize = 1_056;

/// The line of an INDEX, or nothing.
pub(crate) type IndexLine = ArrayVec<u8, INDEX_LINE>;

/// What an instruction reads at the place that it names: BB is FB and EB, and the place that reads as 0 has none.
type OperandSpots = ArrayVec<Spot, 2>;

/// What INDEX added to the instruction of the next step.
pub(crate) fn added_by(processor: &Processor, machine: &Machine) -> Option<Wide>
    requires { FitsRun processor.now.scenario machine.now }
    ensures { result ≡ added_by (next_step processor.now.scenario machine.now) }
{
    match processor.next_step(machine) {
        NextStep::Takes(_) => None,
        NextStep::Enters(_) => None,
        NextStep::Executes(fetched) => fetched.added,
    }
}

/// The line of the INDEX that moved the operand of the step after so many, where it is to be told and added a sum.
pub(crate) fn index_part<K: Keeper>(
    session: &mut Session<K>,
    symbols: &Symbols,
    lines: IndexLines,
    step: u64,
    added: Option<Wide>,
) -> IndexLine
    requires within { step < session.old.n }
    requires known { added ≡ added_by (next_step session.old.scenario (run session.old.scenario step)) }
    ensures items { result.items ≡ index_part symbols.now session.old.scenario lines step }
    ensures looked { HasLooked session.old session.new ((index_effort lines - 6) * session.old.n) }
{
    if lines == IndexLines::Omitted {
        return ArrayVec::new();
    }
    match added {
        Some(sum) => moved_line(session, symbols, step, sum),
        None => ArrayVec::new(),
    }
}

/// The line of the INDEX that left the sum for the step after so many.
fn moved_line<K: Keeper>(
    session: &mut Session<K>,
    symbols: &Symbols,
    step: u64,
    sum: Wide,
) -> IndexLine
    requires { step < session.old.n }
    ensures items { result.items ≡ index_line symbols.now session.old.scenario sum
        (last_executed session.old.scenario step) }
    ensures looked { HasLooked session.old session.new (3 * session.old.n) }
{
    match session.seek_step_back(step, &Instructions) {
        Some((index, _)) => index_line(session, symbols, index, sum),
        None => ArrayVec::new(),
    }
}

/// The line of the INDEX that is the step after so many.
#[tactic(auto, using(crate::proofs::Looking::looked_near, crate::proofs::Looking::fits_at))]
pub(crate) fn index_line<K: Keeper>(
    session: &mut Session<K>,
    symbols: &Symbols,
    step: u64,
    sum: Wide,
) -> IndexLine
    requires within { step < session.old.n }
    requires fits { step + 1 < 2 ^ 64 }
    ensures items { result.items ≡ index_line symbols.now session.old.scenario sum (Some step) }
    ensures looked { HasLooked session.old session.new (session.old.n - step) }
{
    match session.with_present(step) {
        Ok((machine, _, processor)) => {
            let kind = kind_part(symbols, processor, machine);
            let reads = operand_part(symbols, processor, machine);
            index_by(step + 1, &kind, sum, &reads)
        }
        Err(_) => unreachable!(),
    }
}

/// The line of an INDEX, by its number, what it is, the sum that it left and what it read.
#[tactic(auto, using(words::proofs::Digits::short_decimal))]
fn index_by(number: u64, kind: &Piece, sum: Wide, reads: &Part) -> IndexLine
    ensures { result.items ≡ index_by number kind.now.items sum reads.now.items }
{
    let mut line = ArrayVec::new();
    push_all(&mut line, b"INDEX ");
    push_decimal(&mut line, number);
    push_all(&mut line, b" ");
    push_all(&mut line, kind.as_slice());
    push_all(&mut line, b" :");
    push_all(&mut line, added_text(Some(sum)).as_slice());
    push_all(&mut line, b" FROM");
    push_all(&mut line, reads.as_slice());
    push_all(&mut line, b"\n");
    line
}

/// What stands at the place that the next instruction names, or that there is nothing.
fn operand_part(symbols: &Symbols, processor: &Processor, machine: &Machine) -> Part
    requires { FitsRun processor.now.scenario machine.now }
    ensures { result.items ≡ operand_part symbols.now processor.now.scenario machine.now }
{
    let spots = operand_spots(processor, machine);
    reads_part(symbols, processor, machine, spots.as_slice())
}

/// What the next instruction reads at the place that it names.
#[tactic(auto, unfolding(cpu::specs::Effects::place_in))]
fn operand_spots(processor: &Processor, machine: &Machine) -> OperandSpots
    requires { FitsRun processor.now.scenario machine.now }
    ensures { result.items ≡ operand_spots machine.now (next_step processor.now.scenario machine.now) }
{
    match processor.next_step(machine) {
        NextStep::Takes(_) => ArrayVec::new(),
        NextStep::Enters(_) => ArrayVec::new(),
        NextStep::Executes(fetched) => match named_address(fetched.word, fetched.extra) {
            Some(address) => spots_at(&resolve(address, machine.store().banks())),
            None => ArrayVec::new(),
        },
    }
}

/// What is read at a place.
fn spots_at(place: &Linear) -> OperandSpots
    ensures { result.items ≡ spots place.now }
{
    let mut from = ArrayVec::new();
    match *place {
        Linear::Erasable(place) => {
            if place == Eras::BB {
                from.push(Spot::Cell(Cell::of_place(Eras::FB)));
                from.push(Spot::Cell(Cell::of_place(Eras::EB)));
            } else if place != Eras::ZERO {
                from.push(Spot::Cell(Cell::of_place(place)));
            }
        }
        Linear::Fixed(bank, offset) => from.push(Spot::InRope(bank, offset)),
    }
    from
}

/// Whether the next step executes an instruction.
fn is_instruction(processor: &Processor, machine: &Machine) -> bool
    ensures { FitsRun processor.now.scenario machine.now
        → result ≡ is_instruction (link processor.now.scenario machine.now) }
{
    match processor.next_step(machine) {
        NextStep::Takes(_) => false,
        NextStep::Enters(_) => false,
        NextStep::Executes(_) => true,
    }
}

/// Steps that execute an instruction.
#[derive(Clone, Copy, Drop)]
pub(crate) struct Instructions;

impl StepTest for Instructions {
    ghost use Rattle.cpu.specs.Links.{link};
    ghost use Rattle.debugger.specs.Whys.{instruction_found};

    ghost finds = { λ test scenario state. instruction_found (link scenario state) };

    fn test_step(&self, processor: &mut Processor, machine: &mut Machine) -> Option<u64> {
        let found = is_instruction(processor, machine);
        make_step(processor, machine);
        if found { Some(0) } else { None }
    }
}
