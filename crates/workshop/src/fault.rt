//! What ends an engine early, and how it is told.

ghost use Rattle.std.specs.Prelude.{◌≡◌, ◌≤◌, ◌+◌, ◌++◌, Some, codes, decimal, true, IfOk, IfErr};
ghost use Rattle.arrayvec.specs.ArrayVec.{array_vec_len};
ghost use Rattle.words.specs.Devices.{Writes, failures_after};
ghost use Rattle.feed.specs.Faults.{line_text};
ghost use Rattle.workshop.specs.Faults.{number_of, line_of, fault_text, status_of, of_debug_fault, of_feed_fault};
ghost use Rattle.workshop.specs.Faults.{of_read_fault, of_rope_fault, of_source_fault, of_table_fault};

use arrayvec::ArrayVec;
use debugger::DebugFault;
use feed::FeedFault;
use names::TableFault;
use rope::RopeFault;
use std::fmt;
use words::{ReadFault, Write, WriteFailed, push_all, push_decimal, write_all};
use yayul::{Fault, FaultKind};

/// Why an engine has ended early.
#[derive(Clone, Copy, PartialEq, Eq, Debug, Drop)]
pub enum WorkshopFault {
    /// A growth of memory was refused.
    NoMemory,
    /// A read failed.
    ReadFailed,
    /// A write failed, or took none of some bytes.
    WriteFailed,
    /// The source has a fault.
    Source(Fault),
    /// The feed has a fault.
    Feed(FeedFault),
    /// The rope image has a fault.
    Rope(RopeFault),
    /// The line of this number of a table of names has no form that is taken.
    Table(u32),
    /// The source, the feed or the table of names has more than 8,388,608 bytes.
    TooLong,
}

impl From<ReadFault> for WorkshopFault {
    ghost from_gives = { λ fault e. e ≡ of_read_fault fault };

    fn from(fault: ReadFault) -> WorkshopFault {
        match fault {
            ReadFault::NoMemory => WorkshopFault::NoMemory,
            ReadFault::ReadFailed => WorkshopFault::ReadFailed,
            ReadFault::TooLong => WorkshopFault::TooLong,
        }
    }
}

impl From<WriteFailed> for WorkshopFault {
    ghost use Rattle.workshop.specs.declared.fault.WorkshopFault.{WorkshopFault};

    ghost from_gives = { λ _ e. e ≡ WorkshopFault.WriteFailed };

    fn from(_: WriteFailed) -> WorkshopFault {
        WorkshopFault::WriteFailed
    }
}

impl From<Fault> for WorkshopFault {
    ghost from_gives = { λ fault e. e ≡ of_source_fault fault };

    fn from(fault: Fault) -> WorkshopFault {
        if fault.number == FaultKind::NoMemory.number() {
            WorkshopFault::NoMemory
        } else {
            WorkshopFault::Source(fault)
        }
    }
}

impl From<FeedFault> for WorkshopFault {
    ghost from_gives = { λ fault e. e ≡ of_feed_fault fault };

    fn from(fault: FeedFault) -> WorkshopFault {
        match fault {
            FeedFault::NoMemory => WorkshopFault::NoMemory,
            FeedFault::ReadFailed => WorkshopFault::ReadFailed,
            FeedFault::TooLong => WorkshopFault::TooLong,
            _ => WorkshopFault::Feed(fault),
        }
    }
}

impl From<RopeFault> for WorkshopFault {
    ghost from_gives = { λ fault e. e ≡ of_rope_fault fault };

    fn from(fault: RopeFault) -> WorkshopFault {
        match fault {
            RopeFault::NoMemory => WorkshopFault::NoMemory,
            RopeFault::ReadFailed => WorkshopFault::ReadFailed,
            _ => WorkshopFault::Rope(fault),
        }
    }
}

impl From<TableFault> for WorkshopFault {
    ghost from_gives = { λ fault e. e ≡ of_table_fault fault };

    fn from(fault: TableFault) -> WorkshopFault {
        match fault {
            TableFault::NoMemory => WorkshopFault::NoMemory,
            TableFault::Line(line) => WorkshopFault::Table(line),
        }
    }
}

impl From<DebugFault> for WorkshopFault {
    ghost from_gives = { λ fault e. e ≡ of_debug_fault fault };

    fn from(fault: DebugFault) -> WorkshopFault {
        match fault {
            DebugFault::NoMemory => WorkshopFault::NoMemory,
            DebugFault::ReadFailed => WorkshopFault::ReadFailed,
            DebugFault::WriteFailed => WorkshopFault::WriteFailed,
        }
    }
}

impl WorkshopFault {
    /// The number that the fault is told by.
    pub(crate) fn number(&self) -> u8
        ensures { result ≡ number_of self.now }
    {
        match self {
            WorkshopFault::NoMemory => 2,
            WorkshopFault::ReadFailed => 6,
            WorkshopFault::WriteFailed => 7,
            WorkshopFault::Source(fault) => fault.number,
            WorkshopFault::Feed(fault) => fault.number(),
            WorkshopFault::Rope(fault) => fault.number(),
            WorkshopFault::Table(_) => 36,
            WorkshopFault::TooLong => 34,
        }
    }

    /// The line that it stands on, counted from 1, where it stands on one.
    fn line(&self) -> Option<u32>
        ensures { result ≡ line_of self.now }
    {
        match self {
            WorkshopFault::Source(fault) if fault.line > 0 => Some(fault.line),
            WorkshopFault::Feed(fault) => fault.line(),
            WorkshopFault::Table(line) => Some(*line),
            _ => None,
        }
    }

    /// The exit status of a program that it ends: 1 for an input that is refused, 3 for a device or memory.
    pub fn status(&self) -> u8
        ensures { result ≡ status_of self.now }
    {
        match self {
            WorkshopFault::NoMemory | WorkshopFault::ReadFailed | WorkshopFault::WriteFailed => 3,
            WorkshopFault::Source(fault) if fault.number == FaultKind::NoMemory.number() => 3,
            WorkshopFault::Feed(FeedFault::NoMemory | FeedFault::ReadFailed) => 3,
            WorkshopFault::Rope(RopeFault::NoMemory | RopeFault::ReadFailed) => 3,
            WorkshopFault::Source(_) | WorkshopFault::Feed(_) | WorkshopFault::Rope(_) => 1,
            WorkshopFault::Table(_) | WorkshopFault::TooLong => 1,
        }
    }
}

impl fmt::Display for WorkshopFault {
    ghost output = { λ fault. Some (codes "E" ++ decimal (number_of fault) ++ line_text (line_of fault)) };

    fn fmt<W: fmt::Write>(&self, f: &mut fmt::Formatter<W>) -> fmt::Result {
        write!(f, "E{}", self.number())?;
        if let Some(line) = self.line() {
            write!(f, " LINE {line}")?;
        }
        Ok(())
    }
}

impl std::error::Error for WorkshopFault {}

/// Room for a fault's line: `agcws: E`, a number, ` LINE `, a number and a line feed. No number that is written has
/// more than 20 digits.
const FAULT_LINE: usize = 64;

type FaultLine = ArrayVec<u8, FAULT_LINE>;

#[tactic(auto, using(words::proofs::Digits::short_decimal))]
fn fault_line(fault: &WorkshopFault) -> FaultLine
    ensures { result.items ≡ fault_text fault.now }
{
    let mut line = ArrayVec::new();
    push_all(&mut line, b"agcws: E");
    push_decimal(&mut line, u64::from(fault.number()));
    push_line_number(&mut line, fault.line());
    push_all(&mut line, b"\n");
    line
}

#[tactic(auto, using(words::proofs::Digits::short_decimal))]
fn push_line_number(line: &mut FaultLine, number: Option<u32>)
    requires { array_vec_len line.old ≤ 30 }
    ensures items { line.new.items ≡ line.old.items ++ line_text number }
    ensures len { array_vec_len line.new ≤ array_vec_len line.old + 30 }
{
    if let Some(number) = number {
        push_all(line, b" LINE ");
        push_decimal(line, u64::from(number));
    }
}

/// Writes a fault's line, as `agcws: E14 LINE 9`, and answers the exit status of a program that it ends: 1 for an input
/// that is refused, 3 for a device or memory. It takes no memory.
pub fn report<W: Write>(fault: &WorkshopFault, errors: &mut W) -> Result<u8, WorkshopFault>
    ensures written { W.told ≡ true → Writes (W.written errors.old) (W.written errors.new) (fault_text fault.now)
        result }
    ensures failures { W.failures errors.new ≡ failures_after (W.failures errors.old) result }
    ensures status { IfOk result (λ status. status ≡ status_of fault.now) }
    ensures fault { IfErr result (λ e. e ≡ WorkshopFault.WriteFailed) }
{
    write_all(errors, fault_line(fault).as_slice())?;
    Ok(fault.status())
}
