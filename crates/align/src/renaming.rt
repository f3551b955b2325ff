//! Which address of erasable memory in the words of the new rope stands for which in those of the old one.

ghost use Rattle.std.specs.Prelude.{◌≡◌, ◌+◌, ◌*◌, ◌/◌, ◌%◌, ◌<◌, ◌==◌, ◌||◌, nat_le};
ghost use Rattle.rope.specs.Places.{fixed_places};
ghost use Rattle.align.specs.Renamings.{are_renamed, by_entry, is_renaming, may_stand, renamed, slot, stands_rightly};

use crate::entries::{BANKS, Entry, PLACES, entry_at};

/// The first address of fixed memory.
pub(crate) const FIRST_FIXED: u16 = 0o2000;

/// The first address of the switched bank.
pub(crate) const FIRST_SWITCHED: u16 = 0o1400;

/// The words of a bank of erasable memory.
pub(crate) const ERASABLE_BANK: u16 = 0o400;

/// The first address of erasable memory that is no register and no counter.
pub(crate) const FIRST_FREE: u16 = 0o61;

/// How many entries a list of addresses has: those of the switched bank for each bank of fixed memory.
pub(crate) const SLOTS: usize = 0o400 * (BANKS - 1) + 0o2000;

/// Where an address of erasable memory stands in a list of such.
pub(crate) fn slot(bank: u16, address: u16) -> usize
    ensures { result ≡ slot bank address }
{
    if address < FIRST_SWITCHED {
        usize::from(address)
    } else {
        usize::from(ERASABLE_BANK) * usize::from(bank) + usize::from(address)
    }
}

/// The address that stands for one in the words of a bank.
pub(crate) fn renamed(names: &[Entry], bank: u16, address: u16) -> u16
    requires { address < 0o2000 }
    ensures is { result ≡ renamed names.now bank address }
    ensures within { result < 0o2000 }
{
    by_entry(address, entry_at(names, slot(bank, address)))
}

/// The address that stands for one by an entry.
fn by_entry(address: u16, entry: Entry) -> u16
    requires { address < 0o2000 }
    ensures is { result ≡ by_entry address entry }
    ensures within { result < 0o2000 }
{
    match entry {
        Some(other) => { if other < FIRST_FIXED { other } else { address } }
        None => address,
    }
}

/// Whether addresses are renamed one to one, those outside the switched bank in all words alike, by what stands for
/// each, and for which each stands.
#[tactic(auto, using(crate::proofs::Renames::renamed_first, crate::proofs::Renames::renamed_next))]
pub(crate) fn is_renaming(names: &[Entry], back: &[Entry]) -> bool
    ensures { result ≡ is_renaming names.now back.now }
{
    let mut right = true;
    for place in 0..PLACES {
        right = stands_rightly_at(names, back, place) && right;
    }
    right
}

/// Whether that is so of an address, by its number in all banks.
fn stands_rightly_at(names: &[Entry], back: &[Entry], place: usize) -> bool
    requires { place < fixed_places }
    ensures { result ≡ stands_rightly names.now back.now (place / 0o2000) (place % 0o2000) }
{
    stands_rightly(
        names,
        back,
        (place / 0o2000) as u16,
        (place % 0o2000) as u16,
    )
}

/// Whether the address that stands for one in the words of a bank may do so, and stands for no other one.
fn stands_rightly(names: &[Entry], back: &[Entry], bank: u16, address: u16) -> bool
    requires { address < 0o2000 }
    ensures { result ≡ stands_rightly names.now back.now bank address }
{
    let other = renamed(names, bank, address);
    may_stand(address, other) && renamed(back, bank, other) == address
}

/// Whether an address may stand for another.
fn may_stand(address: u16, other: u16) -> bool
    ensures { result ≡ may_stand address other }
{
    (FIRST_FREE <= address || other == address)
        && if is_switched(address) {
            is_switched(other)
        } else {
            !is_switched(other)
        }
}

/// Whether an address is one of the switched bank.
pub(crate) fn is_switched(address: u16) -> bool
    ensures { result ≡ nat_le 0o1400 address }
{
    FIRST_SWITCHED <= address
}
