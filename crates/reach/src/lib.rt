//! Which words of fixed memory a program can come to, as far as they tell, and which its instructions read.
#![tactic(auto)]

mod column;
mod executed;
mod found;
mod image;
mod kind;
pub mod laws;
mod led;
mod marks;
mod named;
mod root_column;
mod roots;
mod search;
mod spot;
mod text;
mod ways;

pub use executed::{Executed, reached_with_run};
pub use found::Found;
pub use led::Led;
pub use marks::Marks;
pub use named::{reached_with_named, reached_with_run_and_named};
pub use roots::Roots;
pub use search::reached_from_vectors;
pub use spot::{How, Spot};
pub use text::write_reach;
