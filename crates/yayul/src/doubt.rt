//! What is not known after lines with faults, and which faults follow from others.

ghost use Rattle.std.specs.Prelude.{◌≡◌, Bool, if◌then◌else◌};
ghost use Rattle.std.specs.Option.{option_map};
ghost use Rattle.yayul.specs.Survey.{location_known, rests_on_known, may_give, is_bare, extracode_known};
ghost use Rattle.yayul.specs.Survey.{extracode_after, known_after, content_operand, operand_of, is_among, names_one};
ghost use Rattle.yayul.specs.Survey.{is_here, counts_from_here, waits_in_vain, erases, is_same_byte, follows_other};
ghost use Rattle.yayul.specs.Survey.{follows};

use crate::faults::FaultKind;
use crate::language::{Content, Operand, Operation, Term};
use crate::read_line::ReadLine;
use symbols::Symbols;

/// What is known before a line in spite of faults before it.
#[derive(Clone, Copy, Drop)]
pub(crate) struct Known {
    /// Where words stand.
    pub(crate) location: bool,
    /// Where the words stand that lines so far give, all of them.
    pub(crate) banks: bool,
    /// Whether extracode is in force.
    pub(crate) extracode: bool,
    /// The byte that was last told as none that a line may hold.
    pub(crate) wrong: Option<u8>,
}

impl Known {
    /// Whether all is known that a line rests on, on which an operand stands or none.
    pub(crate) fn is_enough(self, alone: bool, operation: &Operation) -> bool
        ensures { result ≡ rests_on_known self alone operation.now }
    {
        match operation {
            Operation::Setloc(_) | Operation::Equals(_) | Operation::Ebank(_) => {
                self.location || !operation.counts_from_here()
            }
            Operation::Bank(..) => self.banks && (self.location || !alone),
            Operation::Nothing | Operation::Unknown | Operation::Erase(_) | Operation::Gives(_) =>
                self.location,
        }
    }

    /// What is known after a line that is done, or is not.
    pub(crate) fn after(self, line: &ReadLine<'_>, operation: &Operation, done: bool) -> Known
        ensures { result ≡ known_after self line.now.text operation.now done }
    {
        Known {
            location: if operation.moves() {
                done
            } else {
                self.location
            },
            banks: self.banks && (done || !operation.may_give()),
            extracode: operation.keeps_extracode_known(self.extracode),
            wrong: line.wrong_byte().or(self.wrong),
        }
    }
}

impl Operation {
    // Whether the location after it is known where it is done.
    fn moves(&self) -> bool
        ensures { (before done : Bool) → location_known before done self.now ≡ (if result then done else before) }
    {
        !matches!(self, Operation::Equals(_) | Operation::Ebank(_))
    }

    // Whether it gives words, or may.
    fn may_give(&self) -> bool
        ensures { result ≡ may_give self.now }
    {
        matches!(self, Operation::Unknown | Operation::Gives(_))
    }

    /// Whether it takes no label.
    pub(crate) fn is_bare(&self) -> bool
        ensures { result ≡ is_bare self.now }
    {
        matches!(
            self,
            Operation::Setloc(_) | Operation::Bank(..) | Operation::Ebank(_)
        )
    }

    /// Whether it is ERASE.
    pub(crate) fn erases(&self) -> bool
        ensures { result ≡ erases self.now }
    {
        matches!(self, Operation::Erase(_))
    }

    // Whether extracode is known after a line, where it was before or was not.
    fn keeps_extracode_known(&self, before: bool) -> bool
        ensures { result ≡ extracode_known before self.now }
    {
        match self {
            Operation::Unknown | Operation::Gives(None) => false,
            Operation::Gives(Some(content)) => before || !content.extends(true),
            Operation::Nothing
            | Operation::Setloc(_)
            | Operation::Bank(..)
            | Operation::Erase(_)
            | Operation::Equals(_)
            | Operation::Ebank(_) => before,
        }
    }

    /// Whether extracode is in force after its words, which stand nowhere.
    pub(crate) fn extracode_after(&self, extracode: bool) -> bool
        ensures { result ≡ extracode_after self.now extracode }
    {
        match self {
            Operation::Gives(Some(content)) => content.extends(extracode),
            _ => extracode,
        }
    }

    // The operand, where one stands.
    fn operand(&self) -> Option<&Operand>
        ensures { option_map (λ operand. operand.now) result ≡ operand_of self.now }
    {
        match self {
            Operation::Setloc(operand) => operand.as_ref(),
            Operation::Equals(operand) => operand.as_ref(),
            Operation::Ebank(operand) => operand.as_ref(),
            Operation::Gives(Some(content)) => content.operand(),
            Operation::Gives(None)
            | Operation::Nothing
            | Operation::Unknown
            | Operation::Bank(..)
            | Operation::Erase(_) => None,
        }
    }

    /// Whether the operand names one of some symbols.
    pub(crate) fn names_one(&self, symbols: &Symbols) -> bool
        ensures { result ≡ names_one symbols.now self.now }
    {
        match self.operand() {
            Some(operand) => operand.is_among(symbols),
            None => false,
        }
    }

    /// Whether the operand counts from its own line.
    pub(crate) fn counts_from_here(&self) -> bool
        ensures { result ≡ counts_from_here self.now }
    {
        match self.operand() {
            Some(operand) => operand.is_here(),
            None => false,
        }
    }

    /// Whether the operand names a symbol that waits, and comes to no value.
    pub(crate) fn waits_in_vain(&self, promised: &Symbols, symbols: &Symbols) -> bool
        ensures { result ≡ waits_in_vain promised.now symbols.now self.now }
    {
        self.names_one(promised) && !self.names_one(symbols)
    }
}

impl Content {
    fn operand(&self) -> Option<&Operand>
        ensures { option_map (λ operand. operand.now) result ≡ content_operand self.now }
    {
        match self {
            Content::Addressed(_, operand) => Some(operand),
            Content::FarAddress(operand) => Some(operand),
            Content::Complemented(_, operand) => Some(operand),
            Content::FarComplement(operand) => Some(operand),
            Content::BankWord(operand) => Some(operand),
            Content::Constant(_) | Content::Plain(_) | Content::Constants(_) => None,
        }
    }
}

impl Operand {
    fn is_among(&self, symbols: &Symbols) -> bool
        ensures { result ≡ is_among symbols.now self.now.term }
    {
        match &self.term {
            Term::Named(name) => symbols.len() > 0 && symbols.named(name).is_some(),
            Term::Number(_) | Term::Place(..) | Term::Here => false,
        }
    }

    // Whether it counts from its own line.
    pub(crate) fn is_here(&self) -> bool
        ensures { result ≡ is_here self.now.term }
    {
        matches!(self.term, Term::Here)
    }
}

/// What follows from other faults on a line.
#[derive(Clone, Copy, Drop)]
pub(crate) struct Doubt {
    /// All but that of the bytes.
    pub(crate) bytes: bool,
    /// That of the bytes.
    pub(crate) repeated: bool,
    /// Those of where words stand.
    pub(crate) location: bool,
    /// That ERASE stands in fixed memory.
    pub(crate) erased: bool,
    /// Those of an operand that counts from its line.
    pub(crate) counted: bool,
    /// That a symbol is not defined.
    pub(crate) symbol: bool,
    /// That a symbol is not defined before the line.
    pub(crate) early: bool,
    /// Those of extracode.
    pub(crate) extracode: bool,
}

impl Doubt {
    /// Whether a fault follows from another.
    pub(crate) fn follows(self, kind: FaultKind) -> bool
        ensures { result ≡ follows self kind }
    {
        match kind {
            FaultKind::NotAscii => self.repeated,
            kind => self.bytes || self.follows_other(kind),
        }
    }

    // Whether a fault of a line that holds text alone follows from another.
    fn follows_other(self, kind: FaultKind) -> bool
        ensures { result ≡ follows_other self kind }
    {
        match kind {
            FaultKind::BankFull | FaultKind::PlaceTaken | FaultKind::CodeInErasable => {
                self.location
            }
            FaultKind::WrongKindOfAddress => self.erased || self.counted,
            FaultKind::OutOfRange => self.counted,
            FaultKind::Undefined => self.symbol,
            FaultKind::UsedTooEarly => self.early,
            FaultKind::NeedsExtend | FaultKind::NotExtracode => self.extracode,
            FaultKind::NoMemory
            | FaultKind::NotAscii
            | FaultKind::LongLine
            | FaultKind::TooManyLines
            | FaultKind::BadLabel
            | FaultKind::TwiceDefined
            | FaultKind::UnknownOperator
            | FaultKind::BadOperand
            | FaultKind::BadBank => false,
        }
    }
}

/// Whether a byte that a line may not hold is the one that was told last.
pub(crate) fn is_same_byte(byte: Option<u8>, last: Option<u8>) -> bool
    ensures { result ≡ is_same_byte byte last }
{
    match (byte, last) {
        (Some(byte), Some(last)) => byte == last,
        (Some(_), None) | (None, _) => false,
    }
}
