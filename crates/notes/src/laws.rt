//! The laws of notes. Each is the contract of a call that does nothing.

ghost use Rattle.notes.specs.RunNotes.{NotesAreExact};
ghost use Rattle.notes.specs.Unread.{UnreadIsExact};
ghost use Rattle.notes.specs.Waits.{MomentsAreExact, WaitsAreExact};

/// A note is counted if and only if it holds of some step, and told at a step if and only if it holds there for the
/// first time.
#[tactic(auto, using(crate::proofs::Exact::are_exact))]
pub fn notes_are_exact()
    ensures { NotesAreExact }
{}

/// An interrupt is told to wait long if and only if it is asked for after some step and after each later one, for so
/// many cycles.
#[tactic(auto, using(crate::proofs::LongWaits::are_exact))]
pub fn waits_are_exact()
    ensures { WaitsAreExact }
{}

/// A channel is told to be unread where a word came there and no step has read it, with the cycles before the first of
/// its words.
pub fn unread_is_exact()
    ensures { UnreadIsExact }
{}

/// The moment since which an interrupt is told to be asked for is the one from which on it is asked for without a
/// break, and not after the step before.
pub fn moments_are_exact()
    ensures { MomentsAreExact }
{}
