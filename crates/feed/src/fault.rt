//! What is wrong with a feed.

ghost use Rattle.std.specs.Prelude.{◌≡◌, ◌++◌, Some, codes, decimal};
ghost use Rattle.feed.specs.Faults.{number_of, line_of, number_of_line, fault_text};

use std::fmt;

/// Why no feed was read. Lines are counted from 1.
#[derive(Clone, Copy, PartialEq, Eq, Debug, Drop)]
pub enum FeedFault {
    /// A growth of memory was refused.
    NoMemory,
    /// A read failed.
    ReadFailed,
    /// A line has no form of a line, is too long, or holds a byte that no line may hold.
    BadLine(u32),
    /// The cycle of an input is below that of the input before it.
    OutOfOrder(u32),
    /// More inputs than a feed may have.
    TooMany,
    /// A counter does not take its sequence.
    WrongCounter(u32),
    /// More than 8,388,608 bytes.
    TooLong,
    /// More series than a feed may have.
    TooManySeries(u32),
}

/// What is wrong with a line, whatever stands before it.
#[derive(Clone, Copy, PartialEq, Eq, Debug, Drop)]
pub enum LineFault {
    /// The line has no form of a line, is too long, or holds a byte that no line may hold.
    BadLine,
    /// A counter does not take its sequence.
    WrongCounter,
}

impl FeedFault {
    /// The number that the fault is told by.
    pub fn number(self) -> u8
        ensures { result ≡ number_of self }
    {
        match self {
            FeedFault::NoMemory => 2,
            FeedFault::ReadFailed => 6,
            FeedFault::BadLine(_) => 30,
            FeedFault::OutOfOrder(_) => 31,
            FeedFault::TooMany => 32,
            FeedFault::WrongCounter(_) => 33,
            FeedFault::TooLong => 34,
            FeedFault::TooManySeries(_) => 35,
        }
    }

    /// The line that it stands on, where it is told with one.
    pub fn line(self) -> Option<u32>
        ensures { result ≡ line_of self }
    {
        match self {
            FeedFault::BadLine(line) => Some(line),
            FeedFault::OutOfOrder(line) => Some(line),
            FeedFault::WrongCounter(line) => Some(line),
            FeedFault::TooManySeries(line) => Some(line),
            FeedFault::NoMemory | FeedFault::ReadFailed => None,
            FeedFault::TooMany | FeedFault::TooLong => None,
        }
    }
}

impl fmt::Display for FeedFault {
    ghost output = { λ fault. Some (fault_text fault) };

    fn fmt<W: fmt::Write>(&self, f: &mut fmt::Formatter<W>) -> fmt::Result {
        write!(f, "E{}", self.number())?;
        if let Some(line) = self.line() {
            write!(f, " LINE {line}")?;
        }
        Ok(())
    }
}

impl std::error::Error for FeedFault {}

impl LineFault {
    /// The number that the fault is told by.
    pub fn number(self) -> u8
        ensures { result ≡ number_of_line self }
    {
        match self {
            LineFault::BadLine => 30,
            LineFault::WrongCounter => 33,
        }
    }
}

impl fmt::Display for LineFault {
    ghost output = { λ fault. Some (codes "E" ++ decimal (number_of_line fault)) };

    fn fmt<W: fmt::Write>(&self, f: &mut fmt::Formatter<W>) -> fmt::Result {
        write!(f, "E{}", self.number())
    }
}

impl std::error::Error for LineFault {}
