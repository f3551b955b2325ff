//! Words of the guidance computer and their arithmetic, readers and writers whose contracts see bytes and failures, and
//! digits of text that take no memory.
#![tactic(auto)]

mod counters;
mod device;
mod edits;
pub mod laws;
mod memory;
mod numerals;
mod product;
mod read_ahead;
mod standard;
mod text;
mod wide;
mod word;

pub use counters::{Carry, CounterStep};
pub use device::{Read, Write, WriteFailed, write_all};
pub use memory::Buffer;
pub use numerals::{BackwardText, push_all, push_decimal, push_octal};
pub use product::{Product, Quotient, div};
pub use read_ahead::ReadAhead;
pub use standard::Std;
pub use text::{MOST_BYTES, ReadFault, read_text};
pub use wide::{Overflow, Wide};
pub use word::{Word, WordFault};
