//! The most cycles that a routine takes, from its first word to its return, over all ways through it on which the heads
//! of its loops stand no more often than is stated.
#![tactic(auto)]

mod asking;
mod candidates;
mod charge;
mod checking;
mod counted;
mod finding;
mod graph;
mod kind;
mod laws;
mod looping;
mod search;
mod site;
mod text;
mod turn;

pub use asking::{kept_named, limits_named, routine_named};
pub use charge::Limit;
pub use counted::Counted;
pub use finding::{Answer, Found, bound};
pub use laws::counted_loops_count;
pub use site::Site;
pub use text::write_found;
pub use turn::{Leg, Turn, Why, turn_at};
