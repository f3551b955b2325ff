//! Tests of `commands`, `debugger` and `workshop`.
#![tactic(auto)]

#[cfg(test)]
mod command_tests;
pub mod counting;
#[cfg(test)]
mod device_tests;
#[cfg(test)]
mod memory_tests;
#[cfg(test)]
mod refusing_tests;
#[cfg(test)]
mod run_tests;
#[cfg(test)]
mod sources;
