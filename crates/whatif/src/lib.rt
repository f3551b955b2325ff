//! What a run would be with one input more: each of some inputs is tried alone.
#![tactic(auto)]

mod answer;
mod branch;
mod change;
mod fault;
mod finish;
mod going;
mod here;
mod images;
pub mod laws;
mod noted;
mod others;
mod restart;
mod seen;
mod sent;
mod span;
mod text_reader;
mod trying;

pub use fault::TrialFault;
pub use here::{TrialsTold, try_steps};
pub use images::Images;
pub use noted::{note_steps, note_trials};
pub use restart::try_restarts;
pub use sent::Sent;
pub use text_reader::TextReader;
pub use trying::try_inputs;
