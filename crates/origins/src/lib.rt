//! What a word comes from: the whole chain of the steps that made it, gone back over in one walk.
#![tactic(auto)]

mod gathered;
mod image;
mod lines;
mod links;
mod origin;
mod tally;
mod walk;

pub use gathered::Gathered;
pub use links::{Cells, Link, Spots, Targets, all_among, cells_among, cells_of, link_of};
pub use origin::{Origin, OriginLine};
pub use tally::Tally;
pub use walk::{LookFault, LookedBack, look_back};
