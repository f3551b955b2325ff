//! Of which line of which file a line is.

/// A line of a file.
#[derive(Clone, Copy, PartialEq, Eq, Debug, Drop)]
pub struct Place {
    /// The file, by where its name begins among the names.
    pub file: usize,
    /// The line, counted from 1.
    pub line: u64,
}
