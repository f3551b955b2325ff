//! What the debugger is asked for: lines of commands taken off a reader, and what each of them asks for as plain data.
//!
//! Nothing here takes memory.
#![tactic(auto)]

mod breaking;
mod breakpoints;
mod command;
mod extended;
mod fields;
mod line;
mod named_places;
mod parsing;
mod phrase;
mod places;
mod reading;
mod refusal;
mod subject;
mod survey;
mod usage;
mod whatif;

pub use breakpoints::{Breakpoints, MOST_BREAKPOINTS};
pub use command::{Breakpoint, Command, ParsedLine};
pub use extended::{ExtendedLine, IndexLines, LinkLines, MOST_COUNT, MOST_LINKS, extended_line};
pub use fields::{channel_in, count_in, is_word};
pub use line::{COMMAND_LENGTH, CommandLine};
pub use named_places::{begins_with_plus, moved_on, named_place, unnamed_place};
pub use parsing::parsed_line;
pub use phrase::Phrase;
pub use places::erasable_number;
pub use reading::{DeviceFault, LineReader};
pub use subject::{Subject, channel_named};
pub use survey::{MOST_BUCKETS, MOST_SURVEYED, Subjects, Surveyed};
pub use usage::{HelpText, help_text};
pub use whatif::{Extent, Trial};
