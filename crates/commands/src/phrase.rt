//! A line of a reply that a command brings with it.

ghost use Rattle.std.specs.Prelude.{◌≡◌, ◌+◌, ◌≤◌, ◌++◌, [], length};

use arrayvec::ArrayVec;
use std::marker::Model;
use words::push_all;

/// The most bytes of a phrase.
const PHRASE_LENGTH: usize = 192;

/// A line of a reply, at most 192 bytes.
#[derive(Drop)]
pub struct Phrase {
    bytes: ArrayVec<u8, PHRASE_LENGTH>,
}

impl Model for Phrase {
    ghost use Rattle.std.specs.Prelude.{List, ℕ};

    ghost Value = { List ℕ };

    ghost view = { λ p. p.bytes.items };
}

impl Phrase {
    // A phrase without a byte.
    pub(crate) fn new() -> Phrase
        ensures { result ≡ [] }
    {
        Phrase {
            bytes: ArrayVec::new(),
        }
    }

    // Adds a text at the end.
    pub(crate) fn push(&mut self, text: &[u8])
        requires { length self.old + length text.now ≤ PHRASE_LENGTH }
        ensures { self.new ≡ self.old ++ text.now }
    {
        push_all(&mut self.bytes, text);
    }

    /// Its bytes.
    pub fn as_slice(&self) -> &[u8]
        ensures { result.now ≡ self.now }
    {
        self.bytes.as_slice()
    }
}
