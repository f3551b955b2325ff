//! The names of instructions, and the addresses that they name.

ghost use Rattle.std.specs.Prelude.{◌≡◌, ◌<◌, ◌≤◌, ◌%◌, ◌^◌, length};
ghost use Rattle.cpu.specs.Codes.{bits, code_of, row_of};
ghost use Rattle.cpu.specs.Operands.{address_in, address_of};

use crate::address::{Addr10, address_of_word, before};
use crate::dispatch::{basic_entry, decode};
use crate::instruction::{Instruction, Operand};
use space::Addr12;
use words::Word;

/// The name of the instruction that a word is, under extracode or not.
pub fn instruction_name(word: Word, extra: bool) -> &'static [u8]
    ensures name { result.now ≡ (row_of (code_of extra word).instruction).name }
    ensures short { length result.now ≤ 10 }
{
    decode(word.to_u16(), extra).row().name
}

/// The address that the instruction names which a word is, under extracode or not: of two places that follow one
/// another the first's, and none where it names no place.
#[inline(always)]
pub fn named_address(word: Word, extra: bool) -> Option<Addr12>
    ensures { result ≡ address_of (code_of extra word) }
{
    let number = word.to_u16();
    if extra {
        return address_in_row(number, true);
    }
    match basic_entry(number) {
        Instruction::Tcf
        | Instruction::Ca
        | Instruction::Cs
        | Instruction::Ad
        | Instruction::Mask => Some(address_of_word(number)),
        Instruction::Ccs
        | Instruction::Lxch
        | Instruction::Incr
        | Instruction::Ads
        | Instruction::Ts
        | Instruction::Xch => Some(Addr10::of_word(number).widen()),
        _ => address_in_row(number, false),
    }
}

/// The same by the row of the instruction, which most words need not ask for.
#[inline(never)]
fn address_in_row(word: u16, extra: bool) -> Option<Addr12>
    requires { word < 2 ^ 15 }
    ensures { result ≡ address_of (code_of extra word) }
{
    address_in(decode(word, extra).row().operand, word)
}

/// The address in a word.
fn address_in(operand: Operand, word: u16) -> Option<Addr12>
    ensures { result ≡ address_in operand (word % 2 ^ bits operand) }
{
    match operand {
        Operand::Nothing | Operand::Channel => None,
        Operand::Short => Some(Addr10::of_word(word).widen()),
        Operand::Long => Some(address_of_word(word)),
        Operand::ShortPair => Some(Addr10::of_word(word).before().widen()),
        Operand::LongPair => Some(before(address_of_word(word))),
    }
}
