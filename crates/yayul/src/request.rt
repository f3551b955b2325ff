//! Requests for words, and for values.

use crate::bank::ErasableBank;
use crate::language::{Content, Operand};
use arrayvec::ArrayVec;
use space::Offset;
use symbols::{FixedBank, NAME_LENGTH};

/// A name that waits for the value of an operand, whose symbol a later line may define.
#[derive(Drop)]
pub(crate) struct Promise {
    /// The line, counted from 1.
    pub(crate) line: u32,
    pub(crate) name: ArrayVec<u8, NAME_LENGTH>,
    pub(crate) operand: Operand,
}

/// The words that a line asks for, from a place on.
#[derive(Drop)]
pub(crate) struct WordRequest {
    /// The line, counted from 1.
    pub(crate) line: u32,
    /// The bank in which the words stand.
    pub(crate) bank: FixedBank,
    /// The offset of the first.
    pub(crate) offset: Offset,
    /// What they are made of.
    pub(crate) content: Content,
    /// Whether extracode is in force on the line.
    pub(crate) extracode: bool,
    /// The erasable bank of a far address.
    pub(crate) eb: ErasableBank,
}
