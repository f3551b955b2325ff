//! Tests of `rope`, `feed` and `cpu`.
#![tactic(auto)]

#[cfg(test)]
mod feed_tests;
#[cfg(test)]
mod idle_tests;
#[cfg(test)]
mod image_tests;
