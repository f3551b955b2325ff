//! Laws of what is told. Each is the contract of a call that does nothing.

ghost use Rattle.delays.specs.Stretches.{BestsAreExact};

/// Of the stretches of a row that end in some steps none is longer than the longest that is told, which is one of them,
/// and none shorter than the least.
pub fn bests_are_exact()
    ensures { BestsAreExact }
{}
