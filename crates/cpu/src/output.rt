//! What a step puts out.

use space::Chan;
use words::Word;

/// A word on a channel, and the cycles that had passed when it was written.
#[derive(Clone, Copy, PartialEq, Eq, Debug)]
pub struct Output {
    /// The cycles since the start, those of the writing instruction included.
    pub cycles: u64,
    /// The channel.
    pub channel: Chan,
    /// The word.
    pub word: Word,
}
