//! What in a source is likely a mistake, though it is no fault.
#![tactic(auto)]

mod fields;
mod flow;
mod handlers;
mod joining;
mod outputs;
mod registers;
mod reserved;
mod roles;
mod standing;
mod switched;
mod told;
mod unreached;
mod warning;

pub use fields::{begins, is_signed, text_of};
pub use flow::is_instruction;
pub use joining::{count_before, joined};
pub use roles::Class;
pub use told::{Doubt, Warning};
pub use warning::warnings;
