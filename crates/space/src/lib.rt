//! Places, cells and channels: where an address leads, what the erasable places and the channels
//! hold, and how they are read and stored.
#![tactic(auto)]

pub mod laws;
pub mod numbers;
pub mod place;
pub mod resolve;
pub mod store;

pub use numbers::{Addr12, BANK_WORDS, Bank, Chan, Eras, FIXED_BANKS, Offset};
pub use place::{Banks, Linear};
pub use resolve::{
    FIRST_FIXED, FIRST_IN_WINDOW, banks_of, resolve_fixed, resolve_unbanked, window,
};
pub use store::{Store, changed};
