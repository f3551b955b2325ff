//! Sets of names, and the name that is near to a text.
#![tactic(auto)]

mod names;
mod nearness;

pub use names::{NameSet, add_field, is_among, is_short};
pub use nearness::{is_in_capitals, near_in};
