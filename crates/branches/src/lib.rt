//! Where the words of fixed memory lead without a branch, and which branches of a run led away from a place.
#![tactic(auto)]

mod branch;
mod leading;
mod stand;

pub use branch::has_way;
pub use leading::{entry_to, is_on_the_way};
