//! A run as sentences: what each step did, for people who read it aloud.
#![tactic(auto)]

mod called;
mod executed;
mod form;
mod inputs;
mod instruction;
mod line;
mod piece;
mod places;
mod sentence;
mod values;

pub use form::{LineForm, tell_step};
pub use line::say_step;
