//! What ends a session of commands early.

ghost use Rattle.std.specs.Prelude.{◌≡◌, ◌++◌, Some, codes, decimal};
ghost use Rattle.debugger.specs.Sessions.{number_of};

use std::fmt;

/// Why a session of commands has ended early.
#[derive(Clone, Copy, PartialEq, Eq, Debug, Drop)]
pub enum DebugFault {
    /// A growth of memory was refused.
    NoMemory,
    /// A read failed.
    ReadFailed,
    /// A write failed, or took none of some bytes.
    WriteFailed,
}

impl DebugFault {
    /// The number that the fault is told by.
    pub fn number(self) -> u8
        ensures { result ≡ number_of self }
    {
        match self {
            DebugFault::NoMemory => 2,
            DebugFault::ReadFailed => 6,
            DebugFault::WriteFailed => 7,
        }
    }
}

impl fmt::Display for DebugFault {
    ghost output = { λ fault. Some (codes "E" ++ decimal (number_of fault)) };

    fn fmt<W: fmt::Write>(&self, f: &mut fmt::Formatter<W>) -> fmt::Result {
        write!(f, "E{}", self.number())
    }
}

impl std::error::Error for DebugFault {}
