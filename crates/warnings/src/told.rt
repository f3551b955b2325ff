//! What is warned of.

use yayul::Span;

/// Why it is not certain what the assembler of flight programs makes of a word that stays as in the standard language.
#[derive(Clone, Copy, Drop)]
pub enum Doubt {
    /// 2CADR of banks 030 to 037: the superbank bits of its second word.
    SuperbankBits,
    /// EBANK= before an earlier 2CADR: whether it holds for this line too.
    HeldBank,
}

/// What in a source is likely a mistake, and where it stands.
#[derive(Clone, Copy, Drop)]
pub struct Warning {
    /// The line, counted from 1.
    pub line: u32,
    /// The number that it is told by: one of the manual's table of warnings.
    pub number: u8,
    /// The bytes of the line that are to blame.
    pub span: Span,
    /// Why a word of the line is not certain, where that is warned of.
    pub doubt: Option<Doubt>,
}
