//! Two ropes side by side: which words of one are words of the other, at the same place or at another, with addresses
//! of fixed memory left out and those of erasable memory renamed one to one; and what has become of the words and of
//! names, as text.
#![tactic(auto)]

mod alignment;
mod carrying;
mod checking;
mod entries;
mod evidence;
mod laws;
mod lines;
mod names;
mod renamed_lines;
mod renaming;
mod search;
mod side;
mod tokens;
mod view;
mod votes;

pub use alignment::{Alignment, align};
pub use entries::Entry;
pub use laws::renamed_one_to_one;
pub use lines::{write_alignment, write_found};
pub use names::write_carried;
