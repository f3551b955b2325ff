//! Faults in words: those of a source with the lines that they stand on, beside its warnings, and the first of a feed.
#![tactic(auto)]

mod caret;
mod causes;
mod feed_causes;
mod feeds;
mod flight_causes;
mod interpretive;
mod kinds;
mod lines;
mod mending;
mod objects;
mod operators;
mod reporting;
mod told;
mod warning_causes;

pub use feeds::feed_report;
pub use interpretive::{has_interpretive_operator, is_exit};
pub use reporting::{counts, refused_file, report};
pub use told::Severity;
