//! The places of fixed memory that the address words of a source name, as those of ADRES, CADR and 2CADR do.
#![tactic(auto)]

mod places;
mod word;

pub use places::AddressedPlaces;
