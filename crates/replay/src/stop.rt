//! How a call of many steps ends.

/// How a call of many steps ends that was not refused.
#[derive(Clone, Copy, PartialEq, Eq, Debug, Drop)]
pub enum Stop {
    /// All steps were made.
    All,
    /// The watcher ended it.
    Watcher,
    /// The session has come to the last step that it goes to, with steps left.
    StepLimit,
    /// A growth of memory was refused, with steps left.
    NoMemory,
}
