//! Whether the program itself comes by where interrupts are entered.

ghost use Rattle.std.specs.Prelude.{◌≡◌};
ghost use Rattle.space.specs.declared.place.Linear.TheVariants.{Fixed};
ghost use Rattle.notes.specs.Past.{comes_by, entered_at, enters_shared, executes_shared, is_marked, is_passed, marked};

use crate::past::{Past, RESUME};
use cpu::{Fetched, Machine};
use feed::interrupt::{INTERRUPTS, Interrupt};
use space::{Bank, Linear, Offset};

/// How many flags there are: one for each interrupt by its number, and one for 0, which is none.
pub(crate) const FLAGS: usize = INTERRUPTS as usize + 1;

/// The bank where interrupts are entered.
const ENTRY_BANK: u16 = 2;

/// The words from the entry of one interrupt to that of the next.
const ENTRY_WORDS: u16 = 4;

/// The first offset behind the entries.
const NO_ENTRY: u16 = 44;

/// Whether an interrupt is entered at a place by which the program itself came.
pub(crate) fn enters_shared(past: &Past, interrupt: Interrupt) -> bool
    ensures { result ≡ enters_shared past.now interrupt }
{
    past.passed[usize::from(interrupt.number())]
}

/// Whether the program itself comes by a place where an interrupt was entered, or to a RESUME outside of interrupts.
pub(crate) fn executes_shared(machine: &Machine, past: &Past, fetched: &Fetched) -> bool
    ensures { result ≡ executes_shared machine.now past.now fetched.now }
{
    !fetched.extra && fetched.word.to_u16() == RESUME && !machine.inside()
        || is_marked(&past.entered, comes_by(machine, fetched))
}

/// The interrupt by whose place an instruction comes that is executed outside of interrupts.
#[inline(always)]
pub(crate) fn comes_by(machine: &Machine, fetched: &Fetched) -> Option<Interrupt>
    ensures { result ≡ comes_by machine.now fetched.now }
{
    let entered = match fetched.place {
        Linear::Erasable(_) => None,
        Linear::Fixed(bank, offset) => entered_at(bank, offset),
    };
    if entered.is_some() && (machine.inside() || fetched.waited) {
        None
    } else {
        entered
    }
}

/// The interrupt that is entered at a place of fixed memory.
#[inline(always)]
pub(crate) fn entered_at(bank: Bank, offset: Offset) -> Option<Interrupt>
    ensures { result ≡ entered_at (Fixed bank offset) }
{
    let number = offset.number();
    if bank.number() == ENTRY_BANK
        && number >= ENTRY_WORDS
        && number < NO_ENTRY
        && number % ENTRY_WORDS == 0
    {
        Interrupt::try_new((number / ENTRY_WORDS) as u8)
    } else {
        None
    }
}

/// The flags, with that of an interrupt.
pub(crate) fn marked(flags: [bool; FLAGS], interrupt: Option<Interrupt>) -> [bool; FLAGS]
    ensures { result ≡ marked flags interrupt }
{
    let mut flags = flags;
    if let Some(interrupt) = interrupt {
        flags[usize::from(interrupt.number())] = true;
    }
    flags
}

/// Whether an instruction at the place of an interrupt, or at none, is known: the program came by there before, and no
/// interrupt was entered.
#[inline(always)]
pub(crate) fn is_passed(past: &Past, interrupt: Option<Interrupt>) -> bool
    ensures { result ≡ is_passed past.now interrupt }
{
    interrupt.is_none()
        || is_marked(&past.passed, interrupt) && !is_marked(&past.entered, interrupt)
}

/// Whether the flag of an interrupt is set.
#[inline(always)]
fn is_marked(flags: &[bool; FLAGS], interrupt: Option<Interrupt>) -> bool
    ensures { result ≡ is_marked flags.now interrupt }
{
    match interrupt {
        Some(interrupt) => flags[usize::from(interrupt.number())],
        None => false,
    }
}
