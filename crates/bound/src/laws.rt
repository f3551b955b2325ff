//! A law of counted loops: the contract of a call that does nothing.

ghost use Rattle.bound.specs.CountedWays.{ValuedWaysCount};

use crate::site::Site;
use rope::Rope;
use space::Addr12;

/// Each way through a routine on which A and the cells hold what its words leave comes to the head of a counted loop at
/// most once more than the constant of this for each time that it enters it.
pub fn counted_loops_count(rope: &Rope, kept: &[Addr12], routine: &Site)
    ensures { ValuedWaysCount rope.now kept.now routine.now }
{
    let _rope = rope;
    let _kept = kept;
    let _routine = routine;
}
