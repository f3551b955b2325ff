//! How steps end.

/// How steps end.
#[derive(Clone, Copy, Drop)]
pub enum Ending {
    /// All were made.
    Reached,
    /// A breakpoint of this number held.
    Hit(u64),
    /// Memory ran out.
    NoMemory,
    /// No step more may be made.
    Limit,
}
