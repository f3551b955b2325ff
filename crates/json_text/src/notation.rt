//! In which notation rows are written.

/// In which notation rows are written.
#[derive(Clone, Copy, PartialEq, Eq, Debug, Drop)]
pub enum Notation {
    /// As text, in columns, for people.
    Text,
    /// As JSON, an object a line, for programs.
    Json,
}
