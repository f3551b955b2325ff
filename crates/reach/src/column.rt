//! The column before a word.

ghost use Rattle.std.specs.Prelude.{◌≡◌, ◌+◌, ◌*◌, ◌≤◌, ◌==◌, ◌||◌};
ghost use Rattle.reach.specs.Marks.{has};
ghost use Rattle.reach.specs.ReachText.{at_place, column_beyond, is_executed, is_read};
ghost use Rattle.reach.specs.Ways.{spot};
ghost use Rattle.reach.specs.declared.spot.How.TheVariants.{Executes};

use crate::marks::Marks;
use crate::spot::{How, Spot};
use space::{Addr12, Bank, Offset};

/// The first address of fixed memory, and how many words a bank holds.
const BANK_WORDS: u16 = 0o2000;

/// The column of a word to which a way leads from a named place at most.
#[tactic(auto, unfolding(crate::specs::ReachText::column_beyond))]
pub(crate) fn column_beyond(named: &Marks, bank: Bank, offset: Offset) -> &'static [u8]
    ensures { result.now ≡ column_beyond named.now bank offset }
{
    if executes(named, bank, offset) {
        b"NAMED "
    } else if reads(named, bank, offset) {
        b"DATA  "
    } else {
        b"-     "
    }
}

/// Whether the word at a place is executed.
pub(crate) fn executes(marks: &Marks, bank: Bank, offset: Offset) -> bool
    ensures { result ≡ at_place (is_executed marks.now) bank offset }
{
    is_executed(marks, bank, banked(offset))
        || (is_unbanked(bank) && is_executed(marks, bank, unbanked(bank, offset)))
}

/// Whether the word at a place is read.
pub(crate) fn reads(marks: &Marks, bank: Bank, offset: Offset) -> bool
    ensures { result ≡ at_place (is_read marks.now) bank offset }
{
    is_read(marks, bank, banked(offset))
        || (is_unbanked(bank) && is_read(marks, bank, unbanked(bank, offset)))
}

/// Whether a word is executed at an address.
#[tactic(auto, unfolding(crate::specs::ReachText::is_executed))]
fn is_executed(marks: &Marks, bank: Bank, address: Addr12) -> bool
    ensures { result ≡ is_executed marks.now bank address }
{
    executes_so(marks, bank, address, false, false)
        || executes_so(marks, bank, address, true, false)
        || executes_so(marks, bank, address, false, true)
        || executes_so(marks, bank, address, true, true)
}

/// Whether it is executed, under extracode or not, with a sum of INDEX or without.
fn executes_so(marks: &Marks, bank: Bank, address: Addr12, extra: bool, indexed: bool) -> bool
    ensures { result ≡ has marks.now (spot bank address (Executes extra indexed)) }
{
    marks.has(Spot {
        bank,
        address,
        how: How::Executes(extra, indexed),
    })
}

/// Whether a word is read at an address.
#[tactic(auto, unfolding(crate::specs::ReachText::is_read))]
fn is_read(marks: &Marks, bank: Bank, address: Addr12) -> bool
    ensures { result ≡ is_read marks.now bank address }
{
    marks.has(Spot {
        bank,
        address,
        how: How::Reads,
    })
}

/// Whether addresses from 04000 on lead to a bank.
pub(crate) fn is_unbanked(bank: Bank) -> bool
    ensures { result ≡ (bank == 2 || bank == 3) }
{
    bank.number() == 2 || bank.number() == 3
}

/// The address of a place where FB selects its bank.
pub(crate) fn banked(offset: Offset) -> Addr12
    ensures { result ≡ 0o2000 + offset }
{
    Addr12::of_low_bits(BANK_WORDS + offset.number())
}

/// The address of a place of bank 2 or 3 whatever FB holds.
pub(crate) fn unbanked(bank: Bank, offset: Offset) -> Addr12
    requires { bank ≤ 3 }
    ensures { result ≡ 0o2000 * bank + offset }
{
    Addr12::of_low_bits(BANK_WORDS * bank.number() + offset.number())
}
