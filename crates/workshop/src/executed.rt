//! How many instructions of a program a run has executed.

ghost use Rattle.std.specs.Prelude.{◌≡◌, ◌≤◌, ◌<◌, ◌-◌, ◌^◌, ◌/◌, ◌%◌, IfOk};
ghost use Rattle.cover.specs.Tallies.{figures_at};
ghost use Rattle.workshop.specs.Executed.{executed, executed_at, executed_before, is_executed};

use crate::fault::WorkshopFault;
use cover::Tally;
use cpu::{Account, Machine, Processor};
use instructions::Instructions;
use space::{BANK_WORDS, Bank, FIXED_BANKS, Linear, Offset};
use std::alloc::Global;
use yayul::{Language, SourceRows};

/// How many places fixed memory has.
const FIXED_PLACES: u16 = FIXED_BANKS * BANK_WORDS;

/// How many instructions of a source some steps from the start execute. An `Err` is that memory ran out.
pub(crate) fn executed_instructions(
    alloc: Global,
    rows: &SourceRows,
    processor: &mut Processor,
    steps: u64,
) -> Result<u64, WorkshopFault>
    requires { steps ≤ 2 ^ 40 - 2 }
    ensures count { IfOk result (λ count. count ≡ executed rows.now processor.old.scenario steps) }
    ensures scenario { processor.new.scenario ≡ processor.old.scenario }
{
    let Some(instructions) = Instructions::of(alloc, Language::Standard, rows, processor.rope())
    else {
        return Err(WorkshopFault::NoMemory);
    };
    let Ok(mut tally) = Tally::new(alloc) else {
        return Err(WorkshopFault::NoMemory);
    };
    let mut machine = Machine::start();
    tally.make_steps(processor, &mut machine, 0, steps);
    Ok(executed_of(&tally, &instructions))
}

/// How many of some instructions some figures show as executed.
fn executed_of(tally: &Tally, instructions: &Instructions) -> u64
    ensures { result ≡ executed_before (figures_at tally.now) instructions.now 0o110000 }
{
    let mut count = 0;
    for number in 0..FIXED_PLACES {
        count += executed_at(tally, instructions, number);
    }
    count
}

/// 1 for the place of a number whose instruction was executed, 0 for another.
fn executed_at(tally: &Tally, instructions: &Instructions, number: u16) -> u64
    requires { number < 0o110000 }
    ensures value { result ≡ executed_at (figures_at tally.now) instructions.now number }
    ensures few { result ≤ 1 }
{
    if is_executed(tally, instructions, number) {
        1
    } else {
        0
    }
}

/// Whether an instruction stands at the place of a number and was executed.
fn is_executed(tally: &Tally, instructions: &Instructions, number: u16) -> bool
    requires { number < 0o110000 }
    ensures { result ≡ is_executed (figures_at tally.now) instructions.now (number / 0o2000) (number % 0o2000) }
{
    let offset = Offset::of_low_bits(number);
    match Bank::try_new(number / BANK_WORDS) {
        Some(bank) => {
            instructions.is_at(bank, offset)
                && tally
                    .figures(Account::Place(Linear::Fixed(bank, offset)))
                    .count
                    > 0
        }
        None => false,
    }
}
