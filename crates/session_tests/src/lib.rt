//! Tests of sessions.
#![tactic(auto)]

#[cfg(test)]
mod calls;
#[cfg(test)]
mod machines;
#[cfg(test)]
mod memory;
#[cfg(test)]
mod opening;
#[cfg(test)]
mod refusing;
#[cfg(test)]
mod runs;
