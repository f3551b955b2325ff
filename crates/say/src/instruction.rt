//! The instruction that a word is.

ghost use Rattle.std.specs.Prelude.{◌≡◌};
ghost use Rattle.cpu.specs.Codes.{code_of};
ghost use Rattle.say.specs.Instructions.{basic_named, extracode_named, instruction_named};

use cpu::{Instruction, instruction_name};
use words::Word;

/// The instruction that a word is, under extracode or not.
#[tactic(auto, using(crate::proofs::InstructionNames::named_is))]
pub(crate) fn instruction_at(word: Word, extra: bool) -> Instruction
    ensures { result ≡ (code_of extra word).instruction }
{
    instruction_named(instruction_name(word, extra))
}

/// The instruction of a name.
fn instruction_named(name: &[u8]) -> Instruction
    ensures { result ≡ instruction_named name.now }
{
    match basic_named(name) {
        Some(instruction) => instruction,
        None => extracode_named(name),
    }
}

/// An instruction that needs no EXTEND, by its name.
fn basic_named(name: &[u8]) -> Option<Instruction>
    ensures { result ≡ basic_named name.now }
{
    if name == b"CA".as_slice() {
        Some(Instruction::Ca)
    } else if name == b"TS".as_slice() {
        Some(Instruction::Ts)
    } else if name == b"TC".as_slice() {
        Some(Instruction::Tc)
    } else if name == b"TCF".as_slice() {
        Some(Instruction::Tcf)
    } else if name == b"EXTEND".as_slice() {
        Some(Instruction::Extend)
    } else if name == b"AD".as_slice() {
        Some(Instruction::Ad)
    } else if name == b"CS".as_slice() {
        Some(Instruction::Cs)
    } else if name == b"CCS".as_slice() {
        Some(Instruction::Ccs)
    } else if name == b"INDEX".as_slice() {
        Some(Instruction::Index)
    } else if name == b"XCH".as_slice() {
        Some(Instruction::Xch)
    } else if name == b"DXCH".as_slice() {
        Some(Instruction::Dxch)
    } else if name == b"MASK".as_slice() {
        Some(Instruction::Mask)
    } else if name == b"ADS".as_slice() {
        Some(Instruction::Ads)
    } else if name == b"INCR".as_slice() {
        Some(Instruction::Incr)
    } else if name == b"LXCH".as_slice() {
        Some(Instruction::Lxch)
    } else if name == b"DAS".as_slice() {
        Some(Instruction::Das)
    } else if name == b"RESUME".as_slice() {
        Some(Instruction::Resume)
    } else if name == b"RELINT".as_slice() {
        Some(Instruction::Relint)
    } else if name == b"INHINT".as_slice() {
        Some(Instruction::Inhint)
    } else {
        None
    }
}

/// An instruction that needs EXTEND, by its name.
fn extracode_named(name: &[u8]) -> Instruction
    ensures { result ≡ extracode_named name.now }
{
    if name == b"BZF".as_slice() {
        Instruction::Bzf
    } else if name == b"BZMF".as_slice() {
        Instruction::Bzmf
    } else if name == b"READ".as_slice() {
        Instruction::Read
    } else if name == b"WRITE".as_slice() {
        Instruction::Write
    } else if name == b"RAND".as_slice() {
        Instruction::Rand
    } else if name == b"WAND".as_slice() {
        Instruction::Wand
    } else if name == b"ROR".as_slice() {
        Instruction::Ror
    } else if name == b"WOR".as_slice() {
        Instruction::Wor
    } else if name == b"RXOR".as_slice() {
        Instruction::Rxor
    } else if name == b"DV".as_slice() {
        Instruction::Dv
    } else if name == b"MP".as_slice() {
        Instruction::Mp
    } else if name == b"SU".as_slice() {
        Instruction::Su
    } else if name == b"MSU".as_slice() {
        Instruction::Msu
    } else if name == b"QXCH".as_slice() {
        Instruction::Qxch
    } else if name == b"AUG".as_slice() {
        Instruction::Aug
    } else if name == b"DIM".as_slice() {
        Instruction::Dim
    } else if name == b"DCA".as_slice() {
        Instruction::Dca
    } else if name == b"DCS".as_slice() {
        Instruction::Dcs
    } else {
        Instruction::Edrupt
    }
}
