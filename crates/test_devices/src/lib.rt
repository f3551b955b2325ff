//! Devices for tests: a reader and a writer over memory that move one byte a call, and are in trouble once.
#![tactic(auto)]

mod reader;
mod writer;

pub use reader::FaultyReader;
pub use writer::{FaultyWriter, Trouble};
