//! What is wrong with a source.

ghost use Rattle.std.specs.Prelude.{◌≡◌, ◌++◌, Some, codes, decimal};
ghost use Rattle.yayul.specs.Layout.{fault_number, fault_if, standing};
ghost use Rattle.yayul.specs.Program.{is_before};
ghost use Rattle.yayul.specs.Inside.Answers.{least_kind, lesser_if, lesser_kind};
ghost use Rattle.yayul.specs.Told.{fault_text};
ghost use Rattle.yayul.specs.Inside.Waiting.{lesser_on};

use std::fmt;

/// The faults of a source, each with the number that it is told by.
#[derive(Clone, Copy, PartialEq, Eq, Debug, Drop)]
pub enum FaultKind {
    /// A growth of memory was refused; nothing is said of the source.
    NoMemory,
    /// A byte other than 040 to 0176 octal, tab and line feed.
    NotAscii,
    /// More than 120 bytes without a line feed.
    LongLine,
    /// A line 65,537.
    TooManyLines,
    /// A label without a label's form, or missing, or not taken.
    BadLabel,
    /// A label that stands on an earlier line.
    TwiceDefined,
    /// An operator that the language does not have.
    UnknownOperator,
    /// An operand that is missing, not taken or without an operand's form, or a fourth field.
    BadOperand,
    /// A symbol that no line defines.
    Undefined,
    /// A symbol that no earlier line defines, where the location or a symbol depends on it.
    UsedTooEarly,
    /// A bank outside its operator's range.
    BadBank,
    /// A word, a label's location or an ERASE beyond the end of its bank.
    BankFull,
    /// A word stands there already.
    PlaceTaken,
    /// A word at an erasable location.
    CodeInErasable,
    /// An extracode where extracode is not in force.
    NeedsExtend,
    /// A word that is no extracode where extracode is in force.
    NotExtracode,
    /// A value of a kind, or an address, that the operator does not take.
    WrongKindOfAddress,
    /// A number above 077777, or a value out of its range, or without an address or a place.
    OutOfRange,
}

impl FaultKind {
    /// The number that the fault is told by.
    pub fn number(self) -> u8
        ensures { result ≡ fault_number self }
    {
        match self {
            FaultKind::NoMemory => 2,
            FaultKind::NotAscii => 10,
            FaultKind::LongLine => 11,
            FaultKind::TooManyLines => 12,
            FaultKind::BadLabel => 13,
            FaultKind::TwiceDefined => 14,
            FaultKind::UnknownOperator => 15,
            FaultKind::BadOperand => 16,
            FaultKind::Undefined => 17,
            FaultKind::UsedTooEarly => 18,
            FaultKind::BadBank => 19,
            FaultKind::BankFull => 20,
            FaultKind::PlaceTaken => 21,
            FaultKind::CodeInErasable => 22,
            FaultKind::NeedsExtend => 23,
            FaultKind::NotExtracode => 24,
            FaultKind::WrongKindOfAddress => 25,
            FaultKind::OutOfRange => 26,
        }
    }
}

impl fmt::Display for FaultKind {
    ghost output = { λ kind. Some (codes "E" ++ decimal (fault_number kind)) };

    fn fmt<W: fmt::Write>(&self, f: &mut fmt::Formatter<W>) -> fmt::Result {
        write!(f, "E{}", self.number())
    }
}

impl std::error::Error for FaultKind {}

impl FaultKind {
    /// The fault, where its condition holds.
    pub(crate) fn when(self, condition: bool) -> Option<FaultKind>
        ensures { result ≡ fault_if condition self }
    {
        if condition { Some(self) } else { None }
    }
}

/// The fault with the least number of those that stand.
#[inline(always)]
pub(crate) fn least_fault(conditions: &[Option<FaultKind>]) -> Option<FaultKind>
    ensures { result ≡ least_kind (standing conditions.now) }
{
    let mut least = None;
    for condition in conditions {
        least = lesser_fault(least, *condition);
    }
    least
}

#[inline(always)]
fn lesser_fault(least: Option<FaultKind>, other: Option<FaultKind>) -> Option<FaultKind>
    ensures { result ≡ lesser_if least other }
{
    match (least, other) {
        (Some(kind), Some(next)) => Some(lesser_kind(kind, next)),
        (Some(kind), None) => Some(kind),
        (None, next) => next,
    }
}

/// Of two kinds of fault, the one with the lesser number.
pub(crate) fn lesser_kind(kind: FaultKind, next: FaultKind) -> FaultKind
    ensures { result ≡ lesser_kind kind next }
{
    if next.number() < kind.number() {
        next
    } else {
        kind
    }
}

/// A fault of a source, and the line that it stands on.
#[derive(Clone, Copy, PartialEq, Eq, Debug, Drop)]
pub struct Fault {
    /// The line, counted from 1; 0 where memory ran out.
    pub line: u32,
    /// What is wrong: the number of a [`FaultKind`], 2 where memory ran out.
    pub number: u8,
}

impl fmt::Display for Fault {
    ghost output = { λ fault. Some (fault_text fault) };

    fn fmt<W: fmt::Write>(&self, f: &mut fmt::Formatter<W>) -> fmt::Result {
        let (line, number) = (self.line, self.number);
        write!(f, "E{number}")?;
        if line > 0 {
            write!(f, " LINE {line}")?;
        }
        Ok(())
    }
}

impl std::error::Error for Fault {}

impl Fault {
    // Whether it stands on a lesser line than another, or on the same line with a lesser number.
    fn is_before(self, other: Fault) -> bool
        ensures { result ≡ is_before self other }
    {
        self.line < other.line || (self.line == other.line && self.number < other.number)
    }
}

/// The lesser of a fault, where one is held, and one more on a line.
pub(crate) fn lesser_on(first: Option<Fault>, line: u32, kind: Option<FaultKind>) -> Option<Fault>
    ensures { result ≡ lesser_on first line kind }
{
    let Some(kind) = kind else {
        return first;
    };
    let told = Fault {
        line,
        number: kind.number(),
    };
    match first {
        Some(first) if !told.is_before(first) => Some(first),
        _ => Some(told),
    }
}
