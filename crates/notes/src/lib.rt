//! What happens in a run that is seldom meant.
#![tactic(auto)]

mod first_steps;
mod keys;
mod kind;
mod known;
pub mod laws;
mod ledger;
mod lines;
mod notebook;
mod noted;
mod objects;
mod other_bank;
mod past;
mod quiet;
mod sharing;
mod step;
mod text;
mod unread;
mod waits;
mod zeros;

pub use kind::Kind;
pub use notebook::Notebook;
pub use noted::{Note, NotedSteps, has_note};
pub use text::write_notes;
