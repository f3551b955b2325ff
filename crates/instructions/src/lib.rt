//! The places of a source whose words are instructions, told apart from constants.
#![tactic(auto)]

mod places;
mod roles;

pub use places::Instructions;
