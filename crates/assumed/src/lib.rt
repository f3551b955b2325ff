//! Forms of flight sources that are refused since it is not certain what the assembler of flight programs makes of
//! them, taken as a person says that they are meant: each line of such a form is edited, and tells so at its end.
#![tactic(auto)]

mod edits;
pub mod laws;
mod source;
mod wording;

pub use source::{assumed_rows, source_assumed, wording_on};
pub use wording::Wording;
