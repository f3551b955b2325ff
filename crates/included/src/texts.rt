//! Where the texts of files come from.

ghost use Rattle.std.specs.Prelude.{◌≡◌, ◌≤◌, ℕ, Bool, true, List, Option, Some, IfOk, IfErr, length};
ghost use Rattle.included.specs.Included.{Lacks};

use std::alloc::Global;

/// Why no text of a file is had.
#[derive(Clone, Copy, PartialEq, Eq, Debug, Drop)]
pub enum NoText {
    /// A growth of memory was refused.
    NoMemory,
    /// The file is not there.
    Missing,
    /// It has more bytes than it may have.
    TooLarge,
}

/// Files by their names.
pub trait Texts {
    /// Whether `texts` are told.
    ghost told: { Bool };

    /// The text of each name that has one.
    ghost texts: { Self → List ℕ → Option (List ℕ) };

    /// The text of a name, of at most so many bytes.
    fn text(&self, alloc: Global, name: &[u8], most: usize) -> Result<Vec<u8>, NoText>
        ensures within { IfOk result (λ text. length text.items ≤ most) }
        ensures text { told ≡ true → IfOk result (λ text. texts self.now name.now ≡ Some text.items) }
        ensures none { told ≡ true → IfErr result (λ e. Lacks e most (texts self.now name.now)) };
}
