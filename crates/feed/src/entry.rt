//! The inputs of a run, and what they are from.

ghost use Rattle.std.specs.Prelude.{◌≡◌};
ghost use Rattle.feed.specs.Merged.{series_on};

use crate::input::Input;

/// An input, where it stands and what it is from.
#[derive(Clone, Copy, PartialEq, Eq, Debug)]
pub struct Entry {
    /// The cycle from which on it is due.
    pub cycle: u64,
    /// The line.
    pub line: u64,
    /// Its number in its series, counted from 0.
    pub number: u64,
    /// The input.
    pub input: Input,
    /// The number of its series, counted from 0; none of a plain input.
    pub series: Option<usize>,
}

/// A plain input.
#[derive(Clone, Copy, PartialEq, Eq, Debug)]
pub struct Plain {
    pub cycle: u64,
    pub line: u64,
    pub input: Input,
}

/// A rule of a series: entry i, from 0 to `count` - 1, stands at `first + (i * num) / den`.
#[derive(Clone, Copy, PartialEq, Eq, Debug)]
pub struct Rule {
    pub first: u64,
    pub num: u64,
    pub den: u64,
    pub count: u64,
    pub input: Input,
}

impl Rule {
    // The series on a line.
    pub(crate) fn on_line(self, line: u64) -> Series
        ensures { result ≡ series_on line self }
    {
        Series {
            line,
            first: self.first,
            num: self.num,
            den: self.den,
            count: self.count,
            input: self.input,
        }
    }
}

/// A series: its rule, and the line on which that stands.
#[derive(Clone, Copy, PartialEq, Eq, Debug)]
pub struct Series {
    pub line: u64,
    pub first: u64,
    pub num: u64,
    pub den: u64,
    pub count: u64,
    pub input: Input,
}
