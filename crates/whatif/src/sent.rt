//! Words that are put out.

use space::Chan;
use words::Word;

/// A word that was put out on a channel.
#[derive(Clone, Copy, PartialEq, Eq, Debug)]
pub struct Sent {
    /// The channel.
    pub channel: Chan,
    /// The word.
    pub word: Word,
}
