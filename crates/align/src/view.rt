//! Whose words are told, and how.

/// Whose words are told, and how.
#[derive(Clone, Copy, Debug)]
pub enum View {
    /// Those of the new rope: where they were, or that they are new.
    New,
    /// Those of the old rope that are gone.
    Old,
    /// Those of a passage: where they stand in a rope, or that they are missing.
    Passage,
}
