//! Where two runs part: the first word that they put out, the first cell, and the first step outside of interrupts that
//! they do not have in common; and how these came about.
#![tactic(auto)]

mod causes;
mod main_step;
mod outputs;
mod side;
mod states;
mod text;
mod turn;
mod why;
mod written;

pub use text::{NamedRun, write_differ};
