//! How long the interrupts of a run waited, and for how long none could be entered, with the cycles of each cause, and
//! of the calls of routines.
#![tactic(auto)]

mod call;
mod cause;
pub mod laws;
mod mark;
mod rows;
mod table;
mod tally;
mod text;

pub use tally::Delays;
pub use text::write_delays;
