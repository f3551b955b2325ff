//! A run as text: a line for each step, and what a step is as JSON.
#![tactic(auto)]

mod division;
mod fields;
mod inputs;
mod line;
mod members;
mod names;
mod near;
mod read;
mod steps;
mod written;

pub use division::quotient_fits;
pub use fields::{StepFields, Text, decimal_text, place_text};
pub use inputs::{input_text, interrupt_name};
pub use line::trace_step;
pub use members::{StepMembers, what_members};
pub use names::{Names, PlaceNames, place_name};
pub use near::{OPERAND_GAP, full_name, near_name};
pub use steps::{added_text, entry_place, fetched_text, what_text};
pub use written::{cell_name, cell_reading};
