//! Feeds: the inputs that reach the computer, each at its cycle.
#![tactic(auto)]

mod counter;
mod cut;
mod entry;
mod fault;
pub mod input;
pub mod interrupt;
pub mod laws;
mod list;
mod merge;
mod names;
mod reading;
mod series_cursor;
mod slip;
mod statement;

pub use counter::Asks;
pub use entry::Plain;
pub use fault::{FeedFault, LineFault};
pub use input::{Counter, Input, Sequence};
pub use interrupt::{INTERRUPTS, Interrupt};
pub use list::{AddFault, Feed};
pub use merge::MOST_SERIES;
pub use names::{counter_of, input_names};
pub use reading::read;
pub use slip::{Slip, Why, is_cycle, line_slip};
pub use statement::{long_input, parse_line, short_input, word_in};
pub use words::MOST_BYTES;
