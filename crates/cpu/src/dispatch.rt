//! From words to instructions.

ghost use Rattle.std.specs.Prelude.{◌≡◌, ◌<◌, ◌/◌, ◌^◌, true, false, get_or};
ghost use Rattle.cpu.specs.Codes.{code_of, operand_of, is_apart};
ghost use Rattle.cpu.specs.Bursts.{is_sure};
ghost use Rattle.cpu.specs.declared.instruction.Instruction.{Instruction};
ghost use Rattle.cpu.specs.declared.dispatch.TheConstants.{BASIC};

use crate::instruction::Instruction;
use crate::instruction::Instruction::{
    Ad, Ads, Aug, Bzf, Bzmf, Ca, Ccs, Cs, Das, Dca, Dcs, Dim, Dv, Dxch, Edrupt, Extend, Incr,
    Index, Inhint, Lxch, Mask, Mp, Msu, Qxch, Rand, Read, Relint, Resume, Ror, Rxor, Su, Tc, Tcf,
    Ts, Wand, Wor, Write, Xch,
};

/// How many words an entry of a table serves.
const SERVED: u16 = 0o1000;

/// What words are where extracode is not in force, but for the four that are set apart, as `basic_by_digits` says too.
const BASIC: [Instruction; 64] = [
    Tc, Tc, Tc, Tc, Tc, Tc, Tc, Tc, Ccs, Ccs, Tcf, Tcf, Tcf, Tcf, Tcf, Tcf, Das, Das, Lxch, Lxch,
    Incr, Incr, Ads, Ads, Ca, Ca, Ca, Ca, Ca, Ca, Ca, Ca, Cs, Cs, Cs, Cs, Cs, Cs, Cs, Cs, Index,
    Index, Dxch, Dxch, Ts, Ts, Xch, Xch, Ad, Ad, Ad, Ad, Ad, Ad, Ad, Ad, Mask, Mask, Mask, Mask,
    Mask, Mask, Mask, Mask,
];

/// What words are under extracode.
const EXTRACODES: [Instruction; 64] = [
    Read, Write, Rand, Wand, Ror, Wor, Rxor, Edrupt, Dv, Dv, Bzf, Bzf, Bzf, Bzf, Bzf, Bzf, Msu,
    Msu, Qxch, Qxch, Aug, Aug, Dim, Dim, Dca, Dca, Dca, Dca, Dca, Dca, Dca, Dca, Dcs, Dcs, Dcs,
    Dcs, Dcs, Dcs, Dcs, Dcs, Index, Index, Index, Index, Index, Index, Index, Index, Su, Su, Bzmf,
    Bzmf, Bzmf, Bzmf, Bzmf, Bzmf, Mp, Mp, Mp, Mp, Mp, Mp, Mp, Mp,
];

// The instruction of a number, where each number has an arm of its own: LLVM makes one jump of this `match` and of one
// on the instruction, which a table or several numbers in an arm do not let it do. Where all numbers of seven bits have
// an arm, it compares none of them first.
macro_rules! instruction_by_number {
    ($number:expr; $($($each:literal)+ => $instruction:ident,)+) => {
        match $number {
            $($($each => $instruction,)+)+
            _ => unreachable!(),
        }
    };
}

/// The instruction that a word is, under extracode or not.
#[inline(always)]
#[tactic(auto, unfolding(crate::specs::Codes::code_of))]
pub(crate) fn decode(word: u16, extra: bool) -> Instruction
    requires { word < 2 ^ 15 }
    ensures instruction { result ≡ (code_of extra word).instruction }
    ensures operand { operand_of result word ≡ (code_of extra word).operand }
{
    if extra { extracode(word) } else { basic(word) }
}

/// The instruction that a word is where extracode is not in force. Among words of TC and of INDEX stand the four that
/// are set apart.
#[inline(always)]
#[tactic(auto, unfolding(crate::specs::Codes::code_of, crate::specs::Codes::basic_rows))]
fn basic(word: u16) -> Instruction
    requires { word < 2 ^ 15 }
    ensures { result ≡ (code_of false word).instruction }
{
    match basic_entry(word) {
        Tc => match word {
            0o3 => Relint,
            0o4 => Inhint,
            0o6 => Extend,
            _ => Tc,
        },
        Index => match word {
            0o50017 => Resume,
            _ => Index,
        },
        instruction => instruction,
    }
}

/// What the table says of a word where extracode is not in force: what it is, but for words of TC and of INDEX.
#[inline(always)]
pub(crate) fn basic_entry(word: u16) -> Instruction
    requires { word < 2 ^ 15 }
    ensures entry { is_apart word ≡ false → result ≡ (code_of false word).instruction }
    ensures relint { word ≡ 0o3 → result ≡ Instruction.Tc }
    ensures inhint { word ≡ 0o4 → result ≡ Instruction.Tc }
    ensures extend { word ≡ 0o6 → result ≡ Instruction.Tc }
    ensures resume { word ≡ 0o50017 → result ≡ Instruction.Index }
    ensures sure { is_sure result ≡ true → result ≡ (code_of false word).instruction }
    ensures operand { is_sure result ≡ true → operand_of result word ≡ (code_of false word).operand }
{
    basic_by_digits(word / SERVED)
}

/// The same, by the first two octal digits of a word. The arms from 0o100 on are of no word.
#[inline(always)]
fn basic_by_digits(digits: u16) -> Instruction
    requires { digits < 0o100 }
    ensures { (d : Instruction) → result ≡ get_or BASIC digits d }
{
    instruction_by_number! { digits;
        0o00 0o01 0o02 0o03 0o04 0o05 0o06 0o07 => Tc,
        0o10 0o11 => Ccs,
        0o12 0o13 0o14 0o15 0o16 0o17 => Tcf,
        0o20 0o21 => Das,
        0o22 0o23 => Lxch,
        0o24 0o25 => Incr,
        0o26 0o27 => Ads,
        0o30 0o31 0o32 0o33 0o34 0o35 0o36 0o37 => Ca,
        0o40 0o41 0o42 0o43 0o44 0o45 0o46 0o47 => Cs,
        0o50 0o51 => Index,
        0o52 0o53 => Dxch,
        0o54 0o55 => Ts,
        0o56 0o57 => Xch,
        0o60 0o61 0o62 0o63 0o64 0o65 0o66 0o67 => Ad,
        0o70 0o71 0o72 0o73 0o74 0o75 0o76 0o77 => Mask,
        0o100 0o101 0o102 0o103 0o104 0o105 0o106 0o107
        0o110 0o111 0o112 0o113 0o114 0o115 0o116 0o117
        0o120 0o121 0o122 0o123 0o124 0o125 0o126 0o127
        0o130 0o131 0o132 0o133 0o134 0o135 0o136 0o137
        0o140 0o141 0o142 0o143 0o144 0o145 0o146 0o147
        0o150 0o151 0o152 0o153 0o154 0o155 0o156 0o157
        0o160 0o161 0o162 0o163 0o164 0o165 0o166 0o167
        0o170 0o171 0o172 0o173 0o174 0o175 0o176 0o177 => Mask,
    }
}

/// The instruction that a word is under extracode.
#[inline(always)]
fn extracode(word: u16) -> Instruction
    requires { word < 2 ^ 15 }
    ensures { result ≡ (code_of true word).instruction }
{
    entry(&EXTRACODES, word)
}

/// A word's entry in a table.
#[inline(always)]
fn entry(table: &[Instruction; 64], word: u16) -> Instruction
    requires { word < 2 ^ 15 }
    ensures { (d : Instruction) → result ≡ get_or table.now (word / 0o1000) d }
{
    table[usize::from(word / SERVED)]
}
