//! What stands after some lines of a source.

ghost use Rattle.std.specs.Prelude.{◌≤◌, ◌<◌, ℕ, get_or};
ghost use Rattle.rope.specs.Places.{banks, bank_words};
ghost use Rattle.yayul.specs.Inside.Sound.{number_at, end_at};

use crate::bank::ErasableBank;
use crate::faults::Fault;
use crate::language::{Language, Location};
use crate::request::{Promise, WordRequest};
use rope::Rope;
use symbols::Symbols;

/// How many banks fixed memory has.
pub(crate) const BANKS: usize = 0o44;

/// What stands after some lines, besides their words.
#[derive(Drop)]
pub(crate) struct Layout {
    pub(crate) language: Language,
    pub(crate) location: Location,
    pub(crate) symbols: Symbols,
    /// The names that wait for a value, with values of no account.
    pub(crate) promised: Symbols,
    pub(crate) promises: Vec<Promise>,
    pub(crate) extracode: bool,
    pub(crate) eb: ErasableBank,
    ghost located: { number_at location ≤ end_at location },
}

/// The words of some lines, in their places.
#[derive(Drop)]
pub(crate) struct Placing {
    /// The words, and zeros in the places of those that wait.
    pub(crate) rope: Rope,
    /// One past the highest word of each bank, 0 where there is none.
    pub(crate) ends: [u16; BANKS],
    /// The requests with a symbol that neither an earlier line nor their own defines, in order of lines.
    pub(crate) waiting: Vec<WordRequest>,
    /// The least fault of those that do not wait.
    pub(crate) fault: Option<Fault>,
    ghost ended: { (bank : ℕ) → bank < banks → get_or ends bank 0 ≤ bank_words },
}
