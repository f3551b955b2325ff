//! Where a program idles: from there on it makes the same steps for ever, and puts nothing out.
#![tactic(auto)]

mod alike;
mod checkpoint;
mod until;

pub use alike::are_alike;
pub use until::steps_until_idle;
