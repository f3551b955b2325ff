//! How lines are read.

/// Which commands a session has.
#[derive(Clone, Copy, Drop)]
pub(crate) enum Manner {
    /// Those of any session.
    Plain,
    /// More, with refusals in words.
    Extended,
}
