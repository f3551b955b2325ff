//! Laws of names. Each is the contract of a call that does nothing.

ghost use Rattle.names.specs.Laws.{LeadsThere};

use space::{Addr12, Bank, Linear};

/// A name stands for the place at which the machine reads and writes: where the program counter leads to a word of a
/// bank, an address of that word leads to the place that is told for it, whatever the erasable bank is.
#[tactic(auto, using(crate::proofs::Told::leads_there))]
pub fn names_tell_places(bank: Bank, address: Addr12, there: Linear)
    ensures { LeadsThere bank address there }
{
    let _places = (bank, address, there);
}
