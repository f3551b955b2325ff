//! The symbols of a program: their names, their values, and the places that these name; and the names of registers.
#![tactic(auto)]

mod bank;
mod name;
mod register;
mod table;
mod text;
mod values;

pub use bank::FixedBank;
pub use name::{NAME_LENGTH, Name};
pub use register::register_place;
pub use table::Symbols;
pub use text::{VALUE_LENGTH, value_text};
pub use values::{Value, place_of};
