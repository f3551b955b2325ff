//! What ends the trials early.

ghost use Rattle.std.specs.Prelude.{◌≡◌, false};
ghost use Rattle.whatif.specs.Failing.{is_write_failed};

use cpu::AddFault;

/// Why a trial was not made.
#[derive(Clone, Copy, PartialEq, Eq, Debug, Drop)]
pub(crate) enum Refused {
    /// A growth of memory was refused.
    NoMemory,
    /// As many plain inputs stand in the feed as may.
    TooMany,
}

/// Why an input was not added.
pub(crate) fn refused_of(fault: AddFault) -> Refused {
    match fault {
        AddFault::NoMemory => Refused::NoMemory,
        AddFault::TooMany => Refused::TooMany,
    }
}

/// How it is told.
pub(crate) fn told_of(refused: Refused) -> TrialFault
    ensures { is_write_failed result ≡ false }
{
    match refused {
        Refused::NoMemory => TrialFault::NoMemory,
        Refused::TooMany => TrialFault::TooMany,
    }
}

/// Why not all trials were told.
#[derive(Clone, Copy, PartialEq, Eq, Debug, Drop)]
pub enum TrialFault {
    /// A growth of memory was refused.
    NoMemory,
    /// A write failed, or took none of some bytes.
    WriteFailed,
    /// As many plain inputs stand in the feed as may.
    TooMany,
    /// The cycle of a trial is below that of the one before it.
    OutOfOrder,
}
