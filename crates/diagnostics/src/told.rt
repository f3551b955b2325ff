//! What is told of a line: its faults and its warnings.

ghost use Rattle.std.specs.Prelude.{◌≡◌};
ghost use Rattle.diagnostics.specs.Report.{as_error, as_warning};

use json_text::Notation;
use warnings::Warning;
use yayul::{Finding, Language, SourceLines, Span};

/// Whether what is found bars a source from assembling.
#[derive(Clone, Copy, PartialEq, Eq, Debug, Drop)]
pub enum Severity {
    /// A fault, which does.
    Error,
    /// What is likely a mistake, and does not.
    Warning,
}

/// A fault or a warning as it is told, and where it stands.
#[derive(Clone, Copy, Drop)]
pub(crate) struct Told {
    pub(crate) severity: Severity,
    /// The number that it is told by.
    pub(crate) number: u8,
    /// The line, counted from 1.
    pub(crate) line: u32,
    /// The bytes of the line that are to blame.
    pub(crate) span: Span,
}

impl Told {
    /// A fault of a source.
    pub(crate) fn error(fault: &Finding) -> Told
        ensures { result ≡ as_error fault.now }
    {
        Told {
            severity: Severity::Error,
            number: fault.kind.number(),
            line: fault.line,
            span: fault.span,
        }
    }

    /// A warning.
    pub(crate) fn warning(warning: &Warning) -> Told
        ensures { result ≡ as_warning warning.now }
    {
        Told {
            severity: Severity::Warning,
            number: warning.number,
            line: warning.line,
            span: warning.span,
        }
    }
}

/// A source that is told of, whose lines were read.
#[derive(Clone, Copy)]
pub(crate) struct SourceRead<'n, 't, 's> {
    pub(crate) notation: Notation,
    /// The name of its file.
    pub(crate) name: &'n [u8],
    /// It, and its lines.
    pub(crate) read: &'t SourceLines<'s>,
}

/// A text that is told of by its lines alone.
#[derive(Clone, Copy)]
pub(crate) struct Source<'n, 't, 's> {
    pub(crate) notation: Notation,
    pub(crate) language: Language,
    /// The name of its file.
    pub(crate) name: &'n [u8],
    /// Its lines.
    pub(crate) texts: &'t [&'s [u8]],
}
