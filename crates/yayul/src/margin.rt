//! What stands before the rows of a listing.

ghost use Rattle.std.specs.Prelude.{◌≡◌, ℕ, List, Option, true};
ghost use Rattle.words.specs.Devices.{Writes, failures_after};

use space::{Bank, Offset};
use words::{Write, WriteFailed};

/// What stands before the rows of a listing.
pub trait Margin {
    /// What stands before a row, by the bank and the offset of the word that it shows.
    ghost text: { Self → Option (ℕ × ℕ) → List ℕ };

    /// Writes what stands before a row, by the bank and the offset of the word that it shows.
    ///
    /// After a failure a beginning of it was written.
    fn write<W: Write>(
        &self,
        word: Option<(Bank, Offset)>,
        writer: &mut W,
    ) -> Result<(), WriteFailed>
        ensures written { W.told ≡ true → Writes (W.written writer.old) (W.written writer.new) (text self.now word)
            result }
        ensures failures { W.failures writer.new ≡ failures_after (W.failures writer.old) result };
}

/// Nothing stands before a row.
pub(crate) struct NoMargin;

impl Margin for NoMargin {
    ghost use Rattle.yayul.specs.Listing.{no_margin};

    ghost text = { λ _. no_margin };

    fn write<W: Write>(
        &self,
        word: Option<(Bank, Offset)>,
        writer: &mut W,
    ) -> Result<(), WriteFailed> {
        Ok(())
    }
}
