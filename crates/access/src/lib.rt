//! Who reads and writes what in a run: each cell by the level of the step, and one cell by the place of the step too.
#![tactic(auto)]

mod asked;
mod cell;
mod kept;
pub mod laws;
mod level;
mod rows;
mod shared;
mod step_slots;
mod tally;
mod text;
mod view;

pub use asked::view_asked;
pub use level::{ALLOWED, last_after, level_name, level_of};
pub use tally::Tally;
pub use text::{account_line, write_accesses};
pub use view::View;
