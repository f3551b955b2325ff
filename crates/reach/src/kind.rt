//! The kinds of instructions, by how they lead on.

ghost use Rattle.std.specs.Prelude.{◌≡◌};
ghost use Rattle.cpu.specs.Codes.{code_of};
ghost use Rattle.reach.specs.Inside.Kinds.{kind_named};
ghost use Rattle.reach.specs.Ways.{kind_of};

use cpu::instruction_name;
use words::Word;

/// How an instruction leads on.
#[derive(Clone, Copy)]
pub(crate) enum Kind {
    /// TC.
    Calls,
    /// TCF.
    Jumps,
    /// BZF and BZMF.
    Branches,
    /// CCS.
    Skips,
    /// TS.
    Stores,
    /// INDEX.
    Indexes,
    /// EXTEND.
    Extends,
    /// RESUME.
    Resumes,
    /// DCA and DCS, which read two places.
    TakesTwo,
    /// Any other.
    Passes,
}

/// The kind of the instruction that a word is, under extracode or not.
#[tactic(auto, using(crate::proofs::KindNames::kind_is))]
pub(crate) fn kind_at(word: Word, extra: bool) -> Kind
    ensures { result ≡ kind_of (code_of extra word).instruction }
{
    kind_named(instruction_name(word, extra))
}

/// The kind of an instruction of a name.
fn kind_named(name: &[u8]) -> Kind
    ensures { result ≡ kind_named name.now }
{
    if name == b"TC".as_slice() {
        Kind::Calls
    } else if name == b"TCF".as_slice() {
        Kind::Jumps
    } else if name == b"BZF".as_slice() || name == b"BZMF".as_slice() {
        Kind::Branches
    } else if name == b"CCS".as_slice() {
        Kind::Skips
    } else if name == b"TS".as_slice() {
        Kind::Stores
    } else if name == b"INDEX".as_slice() {
        Kind::Indexes
    } else if name == b"EXTEND".as_slice() {
        Kind::Extends
    } else if name == b"RESUME".as_slice() {
        Kind::Resumes
    } else if name == b"DCA".as_slice() || name == b"DCS".as_slice() {
        Kind::TakesTwo
    } else {
        Kind::Passes
    }
}
