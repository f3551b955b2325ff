//! Texts taken apart: a text into lines, a line into fields, and the numbers that digits give.
//!
//! Nothing here takes memory: what is handed out are slices of what was passed.
#![tactic(auto)]

mod digits;
mod fields;
mod lines;
mod stretch;
mod text;

pub use digits::{Number, decimal, decimal_value, octal, octal_value};
pub use fields::{Field, Line, before_comment, next_field, split_field};
pub use lines::next_line;
pub use stretch::length_before_byte;
pub use text::{LINE_LENGTH, is_text};
