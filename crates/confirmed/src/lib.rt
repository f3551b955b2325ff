//! What a rope says of wordings that are assumed of a source's forms.
#![tactic(auto)]

mod counts;
mod places;

pub use counts::write_assumed_lines;
pub use places::AssumedPlaces;
