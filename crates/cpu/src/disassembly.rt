//! Instructions as text.

ghost use Rattle.std.specs.Prelude.{◌≡◌, ◌+◌, ◌≤◌, ◌%◌, ◌^◌, ◌++◌};
ghost use Rattle.arrayvec.specs.ArrayVec.{array_vec_len};
ghost use Rattle.cpu.specs.Codes.{bits};
ghost use Rattle.cpu.specs.Next.{extracode_after};
ghost use Rattle.cpu.specs.Texts.{address_text, channel_text, operand_text, operand_width, disassembly};

use crate::address::{Addr10, address_of_word, before, channel_of_word};
use crate::dispatch::decode;
use crate::execute::extra_by;
use crate::instruction::Operand;
use arrayvec::ArrayVec;
use words::{Word, push_all, push_octal};

/// The most bytes of an instruction's text.
const MOST_TEXT: usize = 10;

/// The instruction that a word is, under extracode or not, as text: its name, and after a blank its address in four
/// octal digits or its channel in three.
#[tactic(auto, unfolding(crate::specs::Texts::instruction_text))]
pub fn disassemble(word: Word, extra: bool) -> ArrayVec<u8, 10>
    ensures { result.items ≡ disassembly extra word }
{
    let number = word.to_u16();
    let row = decode(number, extra).row();
    let mut text = ArrayVec::new();
    push_all(&mut text, row.name);
    push_operand(&mut text, row.operand, number);
    text
}

/// Whether a word, under extracode or not, puts extracode in force for the word after it: EXTEND does, and INDEX under
/// extracode.
pub fn extracode_after(word: Word, extra: bool) -> bool
    ensures { result ≡ extracode_after extra word }
{
    extra_by(decode(word.to_u16(), extra).row().role, extra)
}

/// Appends the operand in a word.
fn push_operand(text: &mut ArrayVec<u8, MOST_TEXT>, operand: Operand, word: u16)
    requires { array_vec_len text.old + operand_width operand ≤ 10 }
    ensures { text.new.items ≡ text.old.items ++ operand_text operand (word % 2 ^ bits operand) }
{
    match operand {
        Operand::Nothing => {}
        Operand::Short => push_address(text, Addr10::of_word(word).number()),
        Operand::Long => push_address(text, address_of_word(word).number()),
        Operand::ShortPair => push_address(text, Addr10::of_word(word).before().number()),
        Operand::LongPair => push_address(text, before(address_of_word(word)).number()),
        Operand::Channel => push_channel(text, channel_of_word(word).number()),
    }
}

fn push_address(text: &mut ArrayVec<u8, MOST_TEXT>, address: u16)
    requires { array_vec_len text.old + 5 ≤ 10 }
    ensures { text.new.items ≡ text.old.items ++ address_text address }
{
    push_all(text, b" ");
    push_octal(text, 4, address);
}

fn push_channel(text: &mut ArrayVec<u8, MOST_TEXT>, channel: u16)
    requires { array_vec_len text.old + 4 ≤ 10 }
    ensures { text.new.items ≡ text.old.items ++ channel_text channel }
{
    push_all(text, b" ");
    push_octal(text, 3, channel);
}
