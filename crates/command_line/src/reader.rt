//! What is read of the words of a subcommand, and why they are refused.

ghost use Rattle.std.specs.Prelude.{◌≡◌, ◌≤◌, vec_len};
ghost use Rattle.command_line.specs.declared.reader.Refusal.TheVariants.{NoMemory};

use crate::row::Row;
use std::alloc::{AllocError, AllocFailed};

/// A value that the words give, with the row of its argument; an option without a value has an empty one.
#[derive(Clone, Copy)]
pub(crate) struct Given<'a> {
    pub(crate) row: &'static Row,
    pub(crate) value: &'a str,
}

/// Why words are refused, or that they ask for help.
#[derive(Clone, Copy, PartialEq, Eq)]
pub(crate) enum Refusal {
    /// Memory is refused.
    NoMemory,
    /// Help is asked for.
    Help,
    /// No row has the option.
    UnknownOption,
    /// A hyphen stands before a letter that means nothing.
    UnknownLetter,
    /// A word is too much.
    Unexpected,
    /// An option has a value, and takes none.
    UnneededValue,
    /// An option has no value, and takes one.
    NoValue,
    /// It has fewer than it takes.
    TooFewValues,
    /// An argument is given twice.
    Repeated,
    /// A value is not one that the argument takes.
    WrongValue,
    /// Two arguments do not go together.
    Conflict,
    /// An argument is missing that has to be given, or that another one needs.
    Missing,
}

impl<T: Drop> From<AllocFailed<T>> for Refusal {
    ghost from_gives = { λ _ refusal. refusal ≡ NoMemory };

    fn from(_failed: AllocFailed<T>) -> Refusal {
        Refusal::NoMemory
    }
}

/// What was read of the words so far.
#[derive(Drop)]
pub(crate) struct Reader<'a> {
    /// The values that they give, in their order.
    pub(crate) given: Vec<Given<'a>>,
    /// How many of these are tried.
    pub(crate) tried: usize,
    /// The argument whose values are not tried yet.
    pub(crate) open_row: Option<&'static Row>,
    /// The rows among which the next argument is that is told by its place.
    pub(crate) places: &'static [Row],
    /// Whether `--` was read, after which no word is an option.
    pub(crate) is_after: bool,
    /// The word that was read last.
    pub(crate) word: &'a str,
    ghost tried_given: { tried ≤ vec_len given },
}
