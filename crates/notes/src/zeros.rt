//! Whether CCS tells -0 from +0.

ghost use Rattle.std.specs.Prelude.{◌≡◌, ◌+◌, ◌%◌, ◌<◌};
ghost use Rattle.notes.specs.Notes.{counts_minus_zero, has_two_ways, is_ccs, is_minus_zero, is_one_way, parts_zeros};
ghost use Rattle.cpu.specs.Effects.{next_address};

use crate::other_bank::place_at;
use cpu::{Fetched, Machine, Processor};
use rope::Rope;
use space::{Addr12, Bank, Eras, Linear, Offset};
use words::Word;

/// The words of CCS, from a first one up to one that is none.
const FIRST_CCS: u16 = 0o10000;

const NO_CCS: u16 = 0o12000;

/// How many addresses CCS can name.
const SHORT_ADDRESSES: u16 = 0o2000;

/// How many addresses there are.
const ADDRESSES: u16 = 0o10000;

/// What TCF adds to its address.
const TCF: u16 = 0o10000;

/// How many words a bank holds.
const BANK_WORDS: u16 = 0o2000;

/// The word of -0.
const MINUS_ZERO: u16 = 0o77777;

/// Whether CCS of -0 goes another way than +0 would.
pub(crate) fn parts_zeros(processor: &Processor, machine: &Machine, fetched: &Fetched) -> bool
    ensures { result ≡ parts_zeros processor.now.scenario.rope machine.now fetched.now }
{
    !fetched.waited
        && counts_minus_zero(processor, machine, fetched)
        && has_two_ways(processor.rope(), machine, &fetched.place)
}

/// Whether CCS reads -0.
#[inline(always)]
pub(crate) fn counts_minus_zero(processor: &Processor, machine: &Machine, fetched: &Fetched) -> bool
    ensures { result ≡ counts_minus_zero processor.now.scenario.rope machine.now fetched.now }
{
    is_ccs(fetched)
        && is_minus_zero(
            processor.rope(),
            machine,
            &place_at(machine, short_address(fetched.word)),
        )
}

/// Whether an instruction is CCS.
#[inline(always)]
fn is_ccs(fetched: &Fetched) -> bool
    ensures { result ≡ is_ccs fetched.now }
{
    let word = fetched.word.to_u16();
    !fetched.extra && FIRST_CCS <= word && word < NO_CCS
}

/// Whether a place holds -0.
#[tactic(auto, unfolding(cpu::specs::Effects::value_at))]
fn is_minus_zero(rope: &Rope, machine: &Machine, place: &Linear) -> bool
    ensures { result ≡ is_minus_zero rope.now machine.now place.now }
{
    let word = match place {
        Linear::Erasable(place) => machine.word(*place),
        Linear::Fixed(bank, offset) => rope.word(*bank, *offset),
    };
    word.to_u16() == MINUS_ZERO
}

/// Whether the way of +0 and that of -0 are two.
fn has_two_ways(rope: &Rope, machine: &Machine, place: &Linear) -> bool
    ensures { result ≡ has_two_ways rope.now machine.now place.now }
{
    match place {
        Linear::Erasable(_) => false,
        Linear::Fixed(bank, offset) => {
            offset.number() + 4 < BANK_WORDS && !is_one_way(rope, machine, *bank, *offset)
        }
    }
}

/// Whether the way of +0, the second, and that of -0, the fourth, are one.
fn is_one_way(rope: &Rope, machine: &Machine, bank: Bank, offset: Offset) -> bool
    requires { offset + 4 < 0o2000 }
    ensures { result ≡ is_one_way rope.now (next_address machine.now) bank offset }
{
    let second = rope.word(bank, further(offset, 2)).to_u16();
    let fourth = rope.word(bank, further(offset, 4)).to_u16();
    let there = machine.reg(Eras::Z).to_u16() % ADDRESSES;
    second == fourth || second == TCF + (there + 4) % ADDRESSES
}

/// The offset so many words further on.
fn further(offset: Offset, words: u16) -> Offset
    requires { offset + words < 0o2000 }
    ensures { result ≡ offset + words }
{
    Offset::of_low_bits(offset.number() + words)
}

/// The address in the low 10 bits of a word.
fn short_address(word: Word) -> Addr12
    ensures { result ≡ word % 0o2000 }
{
    Addr12::of_low_bits(word.to_u16() % SHORT_ADDRESSES)
}
