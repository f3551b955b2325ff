//! How trials are told.

/// Which of the words from the first other one on are told.
#[derive(Clone, Copy, PartialEq, Eq, Debug)]
pub(crate) enum Others {
    /// All.
    All,
    /// The first.
    First,
}

/// How trials are told: which of the other words, and the cycles after the run without a trial: one there, or later,
/// never comes.
#[derive(Clone, Copy, PartialEq, Eq, Debug)]
pub(crate) struct Telling {
    pub(crate) others: Others,
    pub(crate) end: u64,
}
