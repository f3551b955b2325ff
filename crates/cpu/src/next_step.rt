//! What the next step is.

use feed::{Input, Interrupt};
use space::Linear;
use words::{Wide, Word};

/// What the next step is.
#[derive(Clone, Copy)]
pub enum NextStep {
    /// An input is taken.
    Takes(Input),
    /// An interrupt is entered.
    Enters(Interrupt),
    /// An instruction is executed.
    Executes(Fetched),
}

/// The instruction that a step executes.
#[derive(Clone, Copy)]
pub struct Fetched {
    /// The place where Z leads. The word stands there, but where it waited and where a sum was added to it.
    pub place: Linear,
    /// The word that is executed.
    pub word: Word,
    /// Whether extracode is in force for it.
    pub extra: bool,
    /// Whether the word waited, as RESUME leaves it.
    pub waited: bool,
    /// What INDEX added to it.
    pub added: Option<Wide>,
}
