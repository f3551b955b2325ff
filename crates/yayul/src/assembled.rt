//! Assembled sources.

ghost use Rattle.std.specs.Prelude.{◌≡◌, true, IfOk};
ghost use Rattle.words.specs.Devices.{Writes, failures_after};
ghost use Rattle.yayul.specs.Listing.{listing};
ghost use Rattle.yayul.specs.Named.{named_places};
ghost use Rattle.agc_text.specs.Tables.{value_in};

use crate::listing::write_symbols;
use crate::margin::NoMargin;
use crate::named::NamedPlaces;
use crate::source_rows::SourceRows;
use json_text::Notation;
use rope::Rope;
use std::alloc::{AllocError, Global};
use std::marker::Model;
use symbols::{Symbols, Value};
use words::{Write, WriteFailed};

/// An assembled source: its words in their places, its symbols, and its text.
#[derive(Drop)]
pub struct Program {
    rope: Rope,
    symbols: Symbols,
    rows: SourceRows,
}

impl Model for Program {
    ghost use Rattle.yayul.specs.Program.{Program as Assembled};
    ghost use Rattle.yayul.specs.Inside.Representation.{program_code};

    ghost Value = { Assembled };

    ghost coded = { program_code };

    ghost view = { λ p. record { rope = p.rope; symbols = p.symbols; source = p.rows } };
}

impl Program {
    pub(crate) fn new(rope: Rope, symbols: Symbols, rows: SourceRows) -> Program
        ensures { result ≡ record { rope = rope; symbols = symbols; source = rows } }
    {
        Program {
            rope,
            symbols,
            rows,
        }
    }

    /// The value of a symbol, where it is defined.
    pub fn symbol(&self, name: &[u8]) -> Option<Value>
        ensures { result ≡ value_in self.now.symbols name.now }
    {
        self.symbols.symbol(name)
    }

    /// The words in their places.
    pub fn rope(&self) -> &Rope
        ensures { result.now ≡ self.now.rope }
    {
        &self.rope
    }

    /// The words in their places, and the symbols.
    pub fn split(self) -> (Rope, Symbols)
        ensures rope { result.0 ≡ self.rope }
        ensures symbols { result.1 ≡ self.symbols }
    {
        (self.rope, self.symbols)
    }

    /// The words in their places, and the lines of the source.
    pub fn split_rows(self) -> (Rope, SourceRows)
        ensures rope { result.0 ≡ self.rope }
        ensures source { result.1 ≡ self.source }
    {
        (self.rope, self.rows)
    }

    /// The words in their places, the symbols, and the lines of the source.
    pub fn split_all(self) -> (Rope, Symbols, SourceRows)
        ensures rope { result.0 ≡ self.rope }
        ensures symbols { result.1 ≡ self.symbols }
        ensures source { result.2 ≡ self.source }
    {
        (self.rope, self.symbols, self.rows)
    }

    /// The places that its words name. An `Err` is that memory ran out.
    pub fn named_places(&self, alloc: Global) -> Result<NamedPlaces, AllocError>
        ensures { IfOk result (λ named. named ≡ named_places self.now) }
    {
        self.rows.named_places(alloc, &self.symbols)
    }

    /// Writes the listing: a row for each line of the source, with its number, its place, its word and its text, and
    /// then the symbols in order of definition. No memory is taken.
    ///
    /// After a failure a beginning of it was written.
    pub fn list<W: Write>(&self, writer: &mut W) -> Result<(), WriteFailed>
        ensures written { W.told ≡ true → Writes (W.written writer.old) (W.written writer.new) (listing self.now)
            result }
        ensures failures { W.failures writer.new ≡ failures_after (W.failures writer.old) result }
    {
        self.rows
            .write(Notation::Text, &self.rope, &NoMargin, writer)?;
        write_symbols(&self.symbols, writer)
    }
}
