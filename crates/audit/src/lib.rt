//! Fixed memory as text: its words, a source that gives them, its differences from another, and the sums of its banks,
//! with the words that make them.
#![tactic(auto)]

mod bank_facts;
mod by_bank;
mod by_difference;
mod check_words;
mod damages;
mod differences;
mod form_names;
mod form_sums;
mod layout;
mod lines;
mod lost_modules;
mod mended;
mod octal_words;
mod octals;
pub mod octals_back;
mod one_module;
mod orders;
mod parities;
mod ranges;
mod source;
mod sums;
mod wrong_words;

pub use by_bank::{BankText, EachWord, WordAt, WordText, write_by_bank, write_words_of};
pub use by_difference::{DifferenceText, PlaceOfTwo, write_differing};
pub use check_words::{NoRoom, add_check_words, check_words_hold};
pub use damages::{Finding, write_damages};
pub use differences::{Extent, count_line, difference_text, write_differences};
pub use form_names::{Complements, write_form_sums};
pub use form_sums::holds_sum;
pub use layout::{Layout, arranged};
pub use lines::{Written, bank_of, heading, offset_of, word_line, write_words};
pub use mended::write_mended;
pub use octal_words::{is_beginning, octal_image};
pub use octals::write_octals;
pub use one_module::module_image;
pub use orders::{Arrangement, Order, PLACES};
pub use parities::write_parities;
pub use ranges::count_below;
pub use source::write_source;
pub use sums::{bank_sum, write_sums};
