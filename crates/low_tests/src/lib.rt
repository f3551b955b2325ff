//! Tests of `words`, `agc_text` and `space`.
#![tactic(auto)]

#[cfg(test)]
mod space_tests;
#[cfg(test)]
mod text_tests;
#[cfg(test)]
mod words_tests;
