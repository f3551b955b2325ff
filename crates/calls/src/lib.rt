//! Where a program calls a routine, and where this returns.
#![tactic(auto)]

mod call;
pub mod laws;

pub use call::{called_place, entered, is_call, return_place, standing_place};
