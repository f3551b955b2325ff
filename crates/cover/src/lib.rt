//! A run's profile as text or JSON: how often each word was executed, and the cycles that this took.
#![tactic(auto)]

mod columns;
mod image;
mod objects;
mod recorder;
mod rest;
mod shown;
mod source;
mod tally;

pub use image::{write_image_profile, write_line};
pub use recorder::{Profiler, Recorder, record_plain_steps, record_steps};
pub use shown::Shown;
pub use source::write_source_profile;
pub use tally::{ACCOUNTS, Figures, Tally, number_of};
