//! What instructions do with the place to which their addresses lead.

ghost use Rattle.std.specs.Prelude.{◌≡◌};
ghost use Rattle.cpu.specs.Codes.{code_of};
ghost use Rattle.names.specs.Instructions.{is_change, is_exchange, is_jump, use_by, use_named};

use cpu::instruction_name;
use words::Word;
use xref::Use;

/// What the instruction that a word is, under extracode or not, does with the place to which its address leads.
#[tactic(auto, using(crate::proofs::UseNames::use_is))]
pub(crate) fn use_at(word: Word, extra: bool) -> Use
    ensures { result ≡ use_by (code_of extra word).instruction }
{
    use_named(instruction_name(word, extra))
}

// What the instruction of a name does.
fn use_named(name: &[u8]) -> Use
    ensures { result ≡ use_named name.now }
{
    if is_jump(name) {
        Use::Jump
    } else if name == b"TS".as_slice() {
        Use::Write
    } else if is_exchange(name) || is_change(name) {
        Use::Change
    } else {
        Use::Read
    }
}

// Whether it goes on there.
fn is_jump(name: &[u8]) -> bool
    ensures { result ≡ is_jump name.now }
{
    name == b"TC".as_slice()
        || name == b"TCF".as_slice()
        || name == b"BZF".as_slice()
        || name == b"BZMF".as_slice()
}

// Whether it exchanges what stands there.
fn is_exchange(name: &[u8]) -> bool
    ensures { result ≡ is_exchange name.now }
{
    name == b"LXCH".as_slice()
        || name == b"DXCH".as_slice()
        || name == b"XCH".as_slice()
        || name == b"QXCH".as_slice()
}

// Whether it makes of what stands there something else.
fn is_change(name: &[u8]) -> bool
    ensures { result ≡ is_change name.now }
{
    name == b"DAS".as_slice()
        || name == b"INCR".as_slice()
        || name == b"ADS".as_slice()
        || name == b"AUG".as_slice()
        || name == b"DIM".as_slice()
}
