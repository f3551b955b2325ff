//! The command line: the table of the subcommands and their arguments, and what the words of a call ask for by it.
#![tactic(auto)]

mod forms;
mod found;
mod given;
mod help;
mod names;
mod reader;
mod reading;
mod rope_help;
mod rope_rows;
mod row;
mod rows;
mod rules;
mod run_help;
mod run_rows;
mod said;
mod similar;
mod source_help;
mod source_rows;
mod table;
mod top;
mod usage;
mod values;

use arguments::Arguments;
pub use row::MOST_STEPS;
use std::alloc::{AllocError, Global};

/// What the words of a call come to.
#[derive(Drop)]
pub enum Parsed<'a> {
    /// Something is to be done.
    Arguments(Arguments<'a>),
    /// Help or the version is asked for: its text.
    Help(String),
    /// The words are wrong: what is said of them.
    Wrong(String),
}

/// Parses the words of a call, of which the first is the program's name.
pub fn parse<'a>(alloc: Global, words: &'a [String]) -> Result<Parsed<'a>, AllocError> {
    top::parsed(alloc, words)
}
