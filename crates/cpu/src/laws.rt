//! Laws of codes and steps. Each is the contract of a call that does nothing.

ghost use Rattle.std.specs.Prelude.{◌≡◌, ℕ, Option};
ghost use Rattle.cpu.specs.Codes.{rows_serving};
ghost use Rattle.cpu.specs.Laws.{AddsFewCycles, TakesInTurn, PutsOutByWriting, AsksNothing};
ghost use Rattle.cpu.specs.Frames.{ChangesItsRow, EntriesKeepRest, InputsKeepRest};
ghost use Rattle.cpu.specs.ByValue.{AddsDoubles, DoublesByValue, TicksAsOne, MultipliesByValue, DividesByValue};
ghost use Rattle.cpu.specs.ByValue.{CountsDown, IndexesByValue};
ghost use Rattle.cpu.specs.Interrupts.{InterruptLeadsBack, InterruptIsNotFelt};

use crate::machine::Machine;
use crate::processor::Processor;
use feed::Interrupt;
use space::Addr12;
use words::{Wide, Word};

/// Each word lies in exactly one range of each code table.
#[tactic(auto, using(crate::proofs::RowLaws::one_row))]
pub fn each_word_has_one_row(word: Word, extra: bool)
    ensures { rows_serving extra word ≡ 1 }
{
    let _word = word;
    let _extra = extra;
}

/// A step takes no cycle back, and adds at most six: an input its own, an entry three, an instruction at least one.
#[tactic(auto, using(crate::proofs::StepLaws::adds_few_cycles))]
pub fn step_adds_few_cycles(processor: &Processor, machine: &Machine)
    ensures { AddsFewCycles processor.now.scenario machine.now }
{
    let _processor = processor;
    let _machine = machine;
}

/// A step takes the input that is due, and else none, and of a machine that fits what runs never more than there are.
#[tactic(auto, using(crate::proofs::StepLaws::takes_in_turn))]
pub fn step_takes_in_turn(processor: &Processor, machine: &Machine)
    ensures { TakesInTurn processor.now.scenario machine.now }
{
    let _processor = processor;
    let _machine = machine;
}

/// WRITE, WAND and WOR put out, where the channel leads out, and nothing else does: the word that A then holds, at the
/// cycles that have passed.
#[tactic(auto, using(crate::proofs::StepLaws::puts_out_by_writing))]
pub fn step_puts_out_by_writing(processor: &Processor, machine: &Machine)
    ensures { PutsOutByWriting processor.now.scenario machine.now }
{
    let _processor = processor;
    let _machine = machine;
}

/// A program alone asks for no interrupt: a step that takes no input leaves none asked for that was not.
#[tactic(auto, using(crate::proofs::StepLaws::asks_nothing))]
pub fn step_asks_nothing(processor: &Processor, machine: &Machine)
    ensures { AsksNothing processor.now.scenario machine.now }
{
    let _processor = processor;
    let _machine = machine;
}

/// An instruction changes Z and the cells of its row, and leaves all else: each other cell, and, but for the few that
/// change these, whether interrupts are inhibited and whether one is served, what is asked for and the inputs taken.
pub fn instruction_changes_its_row(processor: &Processor, machine: &Machine)
    ensures { ChangesItsRow processor.now.scenario machine.now }
{
    let _processor = processor;
    let _machine = machine;
}

/// An input leaves the flags, what waits, and what is asked for; an entry changes Z, ZRUPT and BRUPT, that an interrupt
/// is served, and that this one is asked for, and leaves all else.
pub fn input_and_entry_keep_rest(processor: &Processor, machine: &Machine)
    ensures input { InputsKeepRest processor.now.scenario machine.now }
    ensures entry { EntriesKeepRest processor.now.scenario machine.now }
{
    let _processor = processor;
    let _machine = machine;
}

/// An interrupt whose routine is RESUME alone leads back: two steps and five cycles later the instruction that was put
/// off is the next, and all else is as it was, but that ZRUPT and BRUPT hold the address after it and its word.
pub fn interrupt_leads_back(processor: &Processor, machine: &Machine, request: Interrupt)
    ensures { InterruptLeadsBack processor.now.scenario machine.now request }
{
    let _processor = processor;
    let _machine = machine;
    let _request = request;
}

/// It is not felt: the third step leads where one step of the same machine leads of which no interrupt is asked, but
/// for ZRUPT, BRUPT, the interrupts asked for and the five cycles, and puts out the same. So for every instruction that
/// is not RESUME and names neither ZRUPT nor BRUPT.
pub fn interrupt_is_not_felt(processor: &Processor, machine: &Machine, request: Interrupt)
    ensures { InterruptIsNotFelt processor.now.scenario machine.now request }
{
    let _processor = processor;
    let _machine = machine;
    let _request = request;
}

/// MP by the value: A and L together are the product of A's word and K's.
pub fn mp_multiplies(processor: &Processor, machine: &Machine, a: Word, x: Word)
    ensures { (k : ℕ) → MultipliesByValue processor.now.scenario machine.now k a x }
{
    let _processor = processor;
    let _machine = machine;
    let _words = (a, x);
}

/// DV by the value, where the quotient fits: quotient times divisor plus remainder is what A and L held together.
pub fn dv_divides(processor: &Processor, machine: &Machine, a: Word, l: Word, x: Word)
    ensures { (k : ℕ) → DividesByValue processor.now.scenario machine.now k a l x }
{
    let _processor = processor;
    let _machine = machine;
    let _words = (a, l, x);
}

/// CCS by the value: A is the magnitude less one, and the sign and the zero of what was read say how many instructions
/// are skipped.
pub fn ccs_counts_down(processor: &Processor, machine: &Machine, x: Wide, z: Addr12)
    ensures { (k : ℕ) → CountsDown processor.now.scenario machine.now k x z }
{
    let _processor = processor;
    let _machine = machine;
    let _read = (x, z);
}

/// INDEX by the value: the next instruction's word is the sum of its own and of K's, under the same extracode, and no
/// interrupt comes between.
pub fn index_adds_to_next(processor: &Processor, machine: &Machine, x: Word)
    ensures { (k : ℕ) → IndexesByValue processor.now.scenario machine.now k x }
{
    let _processor = processor;
    let _machine = machine;
    let _word = x;
}

/// DAS by the value: A, which takes the carry, K and K+1 together are the sum of both double numbers.
pub fn das_adds(processor: &Processor, machine: &Machine, a: Wide, l: Word, x: Word, y: Word)
    ensures { (k : ℕ) → AddsDoubles processor.now.scenario machine.now k a l x y }
{
    let _processor = processor;
    let _machine = machine;
    let _words = (a, l, x, y);
}

/// DAS of A and L, which is DDOUBL, doubles them as one number.
pub fn das_doubles(processor: &Processor, machine: &Machine, a: Wide, l: Word)
    ensures { DoublesByValue processor.now.scenario machine.now a l }
{
    let _processor = processor;
    let _machine = machine;
    let _words = (a, l);
}

/// TIME2 and TIME1 are one clock of 28 bits: each tick of TIME1 adds one to both together.
pub fn timers_tick_as_one(processor: &Processor, machine: &Machine, time_1: Word, time_2: Word)
    ensures { (series : Option ℕ) → TicksAsOne processor.now.scenario machine.now time_1 time_2 series }
{
    let _processor = processor;
    let _machine = machine;
    let _words = (time_1, time_2);
}
