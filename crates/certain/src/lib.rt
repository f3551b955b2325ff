//! The places of a flight source whose words come of forms of which it is not certain what yaYUL makes of them, told
//! apart where such a source and a rope differ.
#![tactic(auto)]

mod accounts;
mod comparison;
mod counts;
mod doubted;
mod form;
mod form_lines;
pub mod laws;
mod line_forms;
mod places;

pub use accounts::write_accounts;
pub use comparison::write_comparison;
pub use counts::differs;
pub use doubted::doubted_lines;
pub use form::UncertainForm;
pub use places::UncertainPlaces;
