//! The cross-reference of a source: for each symbol the line that defines it, and what lines do with it.
#![tactic(auto)]

mod mention;
mod table;
mod use_of;

pub use mention::{Mention, mentions};
pub use table::{write_cross_reference, write_use};
pub use use_of::Use;
