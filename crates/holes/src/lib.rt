//! Lines of the interpretive language in a flight source: each is a word at a place, which is not made. The source is
//! assembled with a word of its own in place of each, and the places of these words, the holes, may take their words
//! from another fixed memory. A run may be made up to the first hole, and the words of an image shown with the holes.
#![tactic(auto)]

mod around;
mod filling;
mod hole_lines;
mod hole_rows;
mod holed_words;
pub mod laws;
mod program;
mod run_to_hole;
mod source;

pub use around::put_around_holes;
pub use filling::filled;
pub use hole_rows::write_holes;
pub use holed_words::write_holed_words;
pub use program::{assemble_as, assemble_with_holes};
pub use run_to_hole::{FoundHole, first_hole, write_hole};
