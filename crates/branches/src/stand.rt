//! Words of fixed memory as they are come to, and where a program goes on behind them.

ghost use Rattle.std.specs.Prelude.{◌≡◌, ◌≤◌};
ghost use Rattle.branches.specs.Leading.{after_call, after_extend, after_index, after_jump, after_plain, is_branch};
ghost use Rattle.branches.specs.Leading.{is_called, is_register, moved, names_z, onward, onward_by, plain};

use cpu::{instruction_name, named_address};
use rope::Rope;
use space::{Addr12, Eras, Linear};

/// The first address of fixed memory.
const FIRST_FIXED: u16 = 0o2000;

/// A word that is come to.
#[derive(Clone, Copy)]
pub(crate) struct Stand {
    /// Its address.
    pub(crate) address: Addr12,
    /// Whether it is an extracode.
    pub(crate) extra: bool,
    /// Whether INDEX left a sum for it.
    pub(crate) indexed: bool,
}

/// The word at an address, where nothing waits for it.
pub(crate) fn plain(address: Addr12) -> Stand
    ensures { result ≡ plain address }
{
    Stand {
        address,
        extra: false,
        indexed: false,
    }
}

/// The address so many further.
pub(crate) fn moved(address: Addr12, count: u16) -> Addr12
    requires { count ≤ 4 }
    ensures { result ≡ moved address count }
{
    Addr12::of_low_bits(address.number() + count)
}

/// The word after one.
fn after_plain(at: &Stand) -> Stand
    ensures { result ≡ after_plain at.now }
{
    plain(moved(at.address, 1))
}

/// The word after EXTEND.
fn after_extend(at: &Stand) -> Stand
    ensures { result ≡ after_extend at.now }
{
    Stand {
        address: moved(at.address, 1),
        extra: true,
        indexed: false,
    }
}

/// The word after INDEX.
fn after_index(at: &Stand) -> Stand
    ensures { result ≡ after_index at.now }
{
    Stand {
        address: moved(at.address, 1),
        extra: at.extra,
        indexed: true,
    }
}

/// Where a jump goes on.
fn after_jump(indexed: bool, address: &Option<Addr12>) -> Option<Stand>
    ensures { result ≡ after_jump indexed address.now }
{
    if indexed {
        return None;
    }
    match address {
        Some(address) => Some(plain(*address)),
        None => None,
    }
}

/// Where a program goes on behind a call.
fn after_call(at: &Stand, address: &Option<Addr12>) -> Option<Stand>
    ensures { result ≡ after_call at.now address.now }
{
    if is_called(moved(at.address, 1), address) {
        Some(after_plain(at))
    } else {
        None
    }
}

/// Whether TC calls a routine, by the address behind it and the one that it names.
pub(crate) fn is_called(behind: Addr12, address: &Option<Addr12>) -> bool
    ensures { result ≡ is_called behind address.now }
{
    match address {
        Some(address) => address.number() >= FIRST_FIXED && moved(*address, 1) != behind,
        None => false,
    }
}

/// Whether no word tells where an instruction of a name leads.
fn is_branch(name: &[u8]) -> bool
    ensures { result ≡ is_branch name.now }
{
    name == b"CCS".as_slice()
        || name == b"BZF".as_slice()
        || name == b"BZMF".as_slice()
        || name == b"RESUME".as_slice()
}

/// Whether an instruction names Z.
fn names_z(name: &[u8], address: &Option<Addr12>) -> bool
    ensures { result ≡ names_z name.now address.now }
{
    is_register(Eras::Z, address) || (name == b"DXCH".as_slice() && is_register(Eras::FB, address))
}

/// Where a program goes on behind an instruction without a branch.
fn onward_by(name: &[u8], at: &Stand, address: &Option<Addr12>) -> Option<Stand>
    ensures { result ≡ onward_by name.now at.now address.now }
{
    if name == b"TCF".as_slice() {
        after_jump(at.indexed, address)
    } else if name == b"TC".as_slice() {
        after_call(at, address)
    } else if name == b"EXTEND".as_slice() {
        Some(after_extend(at))
    } else if name == b"INDEX".as_slice() {
        Some(after_index(at))
    } else if is_branch(name) || names_z(name, address) {
        None
    } else {
        Some(after_plain(at))
    }
}

/// Where a program goes on behind the word at a place of fixed memory without a branch.
pub(crate) fn onward(rope: &Rope, at: &Stand, there: &Linear) -> Option<Stand>
    ensures { result ≡ onward rope.now at.now there.now }
{
    match there {
        Linear::Erasable(_) => None,
        Linear::Fixed(bank, offset) => {
            let word = rope.word(*bank, *offset);
            onward_by(
                instruction_name(word, at.extra),
                at,
                &named_address(word, at.extra),
            )
        }
    }
}

/// Whether the address that is named is a register.
pub(crate) fn is_register(register: Eras, address: &Option<Addr12>) -> bool
    ensures { result ≡ is_register register address.now }
{
    match address {
        Some(address) => register.number() == address.number(),
        None => false,
    }
}

impl Default for Stand {
    fn default() -> Stand {
        plain(Addr12::of_low_bits(0))
    }
}
