//! Fixed memory as a source with names and instructions, which gives its words.
#![tactic(auto)]

mod definitions;
mod given;
mod label;
mod laws;
mod lines;
pub mod octal_laws;
mod source;

pub use laws::named_source_gives_back;
pub use source::named_source;
