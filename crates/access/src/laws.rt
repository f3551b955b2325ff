//! Laws of what is counted. Each is the contract of a call that does nothing.

ghost use Rattle.access.specs.Accesses.{SlotsDiffer};

/// Two numbers are one only where row, level and kind are.
#[tactic(auto, using(crate::proofs::Slots::slots_differ))]
pub fn slots_differ()
    ensures { SlotsDiffer }
{}
