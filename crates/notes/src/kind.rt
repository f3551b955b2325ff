//! The kinds of what is seldom meant.

/// What may happen in a step that is seldom meant.
#[derive(Clone, Copy, PartialEq, Eq, Debug, Drop)]
pub enum Kind {
    /// DV whose quotient does not fit.
    Quotient,
    /// TS that skips the next instruction.
    Skip,
    /// A word is executed in fixed memory where none stands.
    NoWord,
    /// A word is executed in erasable memory, but at Q, and but a way back.
    InErasable,
    /// An interrupt is entered where no word stands.
    NoHandler,
    /// An instruction reaches another bank than that of the erasable place that its source names.
    OtherBank,
    /// RESUME goes back while A, L, Q, EB, FB or the superbank is not as the interrupt has found it.
    NotKept,
    /// CCS of -0 goes another way than +0 would.
    MinusZero,
    /// A key's word comes where no instruction has read the one before it.
    Overwritten,
    /// The program itself comes by where an interrupt is entered, or to a RESUME of none.
    Shared,
    /// An instruction reaches another bank than that of the place of a switched bank that its source names.
    FixedBank,
}
