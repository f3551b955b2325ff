//! Texts as strings of JSON. No memory is taken.
#![tactic(auto)]

mod notation;
mod strings;

pub use notation::Notation;
pub use strings::{push_json_string, push_string_or_null, write_json_string, write_string_or_null};
