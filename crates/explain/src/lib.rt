//! What the numbers of refusals and of warnings mean, and what the kinds of notes do.
#![tactic(auto)]

mod cautions;
mod digits;
mod headings;
mod note_kinds;
mod refusals;

pub use cautions::warning_of;
pub use digits::{DIGITS, push_number};
pub use headings::{all_headings, explanation, warning_explanation};
pub use note_kinds::{NoteKind, note_explanation, note_kind};
pub use refusals::{NUMBERS, Refusal, meaning, refusal_of};
