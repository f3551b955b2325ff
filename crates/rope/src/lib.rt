//! Fixed memory: 36 banks of 1,024 words each.
#![tactic(auto)]

mod dump;
mod fault;
mod form;
mod image;
pub mod laws;
mod memory;
mod reading;
mod slot;
mod spelling;

pub use dump::{Dump, byte_of};
pub use fault::RopeFault;
pub use form::{Form, InForm};
pub use memory::Rope;
pub use spelling::Version;
