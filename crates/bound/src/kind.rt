//! The kinds of instructions, by how they lead on.

ghost use Rattle.std.specs.Prelude.{◌≡◌};
ghost use Rattle.cpu.specs.Codes.{code_of, row_of};
ghost use Rattle.bound.specs.Inside.Kinds.{changes, cycles_named, kind_named, kind_of_writing, takes_one, takes_three};
ghost use Rattle.bound.specs.Turns.{kind_of};

use cpu::instruction_name;
use words::Word;

/// How an instruction leads on.
#[derive(Clone, Copy)]
pub(crate) enum Kind {
    /// TC.
    Calls,
    /// TCF.
    Jumps,
    /// BZF and BZMF.
    Branches,
    /// CCS.
    Skips,
    /// TS.
    Stores,
    /// INDEX.
    Indexes,
    /// EXTEND.
    Extends,
    /// RESUME.
    Resumes,
    /// One that writes the place that it names.
    Changes,
    /// QXCH.
    Exchanges,
    /// DAS and DXCH, which write two places.
    ChangesTwo,
    /// One that writes its channel.
    PutsOut,
    /// Any other.
    Passes,
}

/// The kind of the instruction that a word is, under extracode or not.
#[tactic(auto, using(crate::proofs::KindNames::kind_is))]
pub(crate) fn kind_at(word: Word, extra: bool) -> Kind
    ensures { result ≡ kind_of (code_of extra word).instruction }
{
    kind_named(instruction_name(word, extra))
}

/// The cycles of the instruction that a word is, where it does not jump.
#[tactic(auto, using(crate::proofs::KindNames::cycles_are))]
pub(crate) fn cycles_at(word: Word, extra: bool) -> u8
    ensures { result ≡ (row_of (code_of extra word).instruction).cycles }
{
    cycles_named(instruction_name(word, extra))
}

/// The kind of an instruction of a name.
fn kind_named(name: &[u8]) -> Kind
    ensures { result ≡ kind_named name.now }
{
    if name == b"TC".as_slice() {
        Kind::Calls
    } else if name == b"TCF".as_slice() {
        Kind::Jumps
    } else if name == b"BZF".as_slice() || name == b"BZMF".as_slice() {
        Kind::Branches
    } else if name == b"CCS".as_slice() {
        Kind::Skips
    } else if name == b"TS".as_slice() {
        Kind::Stores
    } else if name == b"INDEX".as_slice() {
        Kind::Indexes
    } else if name == b"EXTEND".as_slice() {
        Kind::Extends
    } else if name == b"RESUME".as_slice() {
        Kind::Resumes
    } else {
        kind_of_writing(name)
    }
}

/// The kind of one that leads to the next word, by what it writes.
fn kind_of_writing(name: &[u8]) -> Kind
    ensures { result ≡ kind_of_writing name.now }
{
    if name == b"DAS".as_slice() || name == b"DXCH".as_slice() {
        Kind::ChangesTwo
    } else if name == b"WRITE".as_slice()
        || name == b"WAND".as_slice()
        || name == b"WOR".as_slice()
    {
        Kind::PutsOut
    } else if name == b"QXCH".as_slice() {
        Kind::Exchanges
    } else if changes(name) {
        Kind::Changes
    } else {
        Kind::Passes
    }
}

/// Whether an instruction of a name writes the one place that it names.
fn changes(name: &[u8]) -> bool
    ensures { result ≡ changes name.now }
{
    name == b"LXCH".as_slice()
        || name == b"INCR".as_slice()
        || name == b"ADS".as_slice()
        || name == b"XCH".as_slice()
        || name == b"AUG".as_slice()
        || name == b"DIM".as_slice()
}

/// The cycles of an instruction of a name, where it does not jump.
fn cycles_named(name: &[u8]) -> u8
    ensures { result ≡ cycles_named name.now }
{
    if takes_one(name) {
        1
    } else if takes_three(name) {
        3
    } else if name == b"DV".as_slice() {
        6
    } else {
        2
    }
}

/// Whether an instruction of a name takes one cycle.
fn takes_one(name: &[u8]) -> bool
    ensures { result ≡ takes_one name.now }
{
    name == b"TC".as_slice()
        || name == b"TCF".as_slice()
        || name == b"EXTEND".as_slice()
        || name == b"INHINT".as_slice()
        || name == b"RELINT".as_slice()
}

/// Whether an instruction of a name takes three cycles.
fn takes_three(name: &[u8]) -> bool
    ensures { result ≡ takes_three name.now }
{
    name == b"DAS".as_slice()
        || name == b"DXCH".as_slice()
        || name == b"EDRUPT".as_slice()
        || name == b"DCA".as_slice()
        || name == b"DCS".as_slice()
        || name == b"MP".as_slice()
}
