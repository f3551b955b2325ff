//! Names of places for images: tables of names, the words of an image as text with names, and for each name of a place
//! the words whose addresses lead to it.
#![tactic(auto)]

mod entry;
mod instruction;
mod laws;
mod lines;
mod mention;
mod near;
mod place;
mod table;
mod uses;

pub use laws::names_tell_places;
pub use lines::{Line, line_of_word, named_instruction, named_line, write_named_words};
pub use mention::{Mention, mentions};
pub use near::{place_before, places_before, push_distance};
pub use table::{TableFault, names_in};
pub use uses::write_uses;
