//! What comes next where two runs are gone through beside each other.

/// What comes next.
#[derive(Clone, Copy)]
pub(crate) enum Turn {
    /// One of them has no more steps.
    Ended,
    /// So many steps of each are passed over.
    Moves(usize, usize),
    /// They part at these steps.
    Parts(u64, u64),
}
