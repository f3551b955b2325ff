//! The lines of a source as rows of its listing.

ghost use Rattle.std.specs.Prelude.{◌≡◌, true, map, is_some, IfOk};
ghost use Rattle.rope.specs.Places.{Words};
ghost use Rattle.agc_text.specs.Lines.{lines};
ghost use Rattle.words.specs.Devices.{Writes, failures_after};
ghost use Rattle.yayul.specs.Layout.{start};
ghost use Rattle.yayul.specs.Listing.{rows};
ghost use Rattle.yayul.specs.ListingObjects.{line_in};
ghost use Rattle.yayul.specs.Named.{named_places};
ghost use Rattle.yayul.specs.PlaceRows.{line_of, no_source, row_after};
ghost use Rattle.yayul.specs.Inside.Representation.{lines_show, shown_by_mark};

use crate::language::Language;
use crate::listing::write_rows;
use crate::margin::Margin;
use crate::mark::Marks;
use crate::named::NamedPlaces;
use crate::place_rows::{first_to_show, line_after, write_place_row};
use json_text::Notation;
use rope::Rope;
use space::Linear;
use std::alloc::{AllocError, Global};
use std::marker::Model;
use symbols::Symbols;
use words::{Word, Write, WriteFailed, write_all};

/// The lines of a source, with what a listing shows beside each.
#[derive(Drop)]
pub struct SourceRows {
    language: Language,
    source: Vec<u8>,
    marks: Marks,
}

impl Model for SourceRows {
    ghost use Rattle.std.specs.Prelude.{◌≡◌, map};
    ghost use Rattle.agc_text.specs.Lines.{lines};
    ghost use Rattle.yayul.specs.Layout.{start};
    ghost use Rattle.yayul.specs.Program.{Source};
    ghost use Rattle.yayul.specs.Inside.Representation.{source_code, shown_by_mark, lines_show};

    ghost Value = { Source };

    ghost coded = { source_code };

    ghost view = { λ r. record { language = r.language; text = r.source.items } };

    ghost invariant = { λ r. map shown_by_mark r.marks ≡ lines_show 1 (start r.language) (lines r.source.items) };
}

impl SourceRows {
    pub(crate) fn new(language: Language, source: Vec<u8>, marks: Marks) -> SourceRows
        requires { map shown_by_mark marks ≡ lines_show 1 (start language) (lines source.items) }
        ensures { result ≡ record { language = language; text = source.items } }
    {
        SourceRows {
            language,
            source,
            marks,
        }
    }

    /// No lines. Nothing is allocated.
    pub fn none(alloc: Global) -> SourceRows
        ensures { result ≡ no_source }
    {
        SourceRows {
            language: Language::Standard,
            source: Vec::new(alloc),
            marks: Marks::new(alloc),
        }
    }

    /// The places that the words of a program name which has these lines, and some symbols. An `Err` is that memory ran
    /// out.
    pub fn named_places(&self, alloc: Global, symbols: &Symbols) -> Result<NamedPlaces, AllocError>
        ensures { (rope : Words) → IfOk result (λ named. named ≡ named_places (record {
          rope = rope;
          symbols = symbols.now;
          source = self.now;
        })) }
    {
        NamedPlaces::of_lines(
            alloc,
            self.language,
            symbols,
            &self.source,
            self.marks.as_slice(),
        )
    }

    /// Writes the row of a place after some bytes, where a line shows the place, and answers whether one does. The word
    /// is that which stands at the place. No memory is taken.
    ///
    /// After a failure a beginning of it was written.
    pub fn write_row_of<W: Write>(
        &self,
        front: &[u8],
        rope: &Rope,
        word: Word,
        place: Linear,
        writer: &mut W,
    ) -> Result<bool, WriteFailed>
        ensures written { W.told ≡ true → Writes (W.written writer.old) (W.written writer.new)
            (row_after front.now self.now rope.now word place) result }
        ensures some { IfOk result (λ some. some ≡ is_some (line_of self.now place)) }
        ensures failures { W.failures writer.new ≡ failures_after (W.failures writer.old) result }
    {
        let marks = self.marks.as_slice();
        let index = first_to_show(marks, &place);
        if index == marks.len() {
            return Ok(false);
        }
        let text = line_after(&self.source, index);
        write_all(writer, front)?;
        write_place_row(
            rope,
            place,
            word,
            index as u64 + 1,
            text,
            &marks[index],
            writer,
        )?;
        Ok(true)
    }

    /// Writes the rows of all lines in a notation: as text each after its margin, and as JSON with the margin as
    /// further members of its object. The words are those of the rope. No memory is taken.
    ///
    /// After a failure a beginning of them was written.
    pub fn write<M: Margin, W: Write>(
        &self,
        notation: Notation,
        rope: &Rope,
        margin: &M,
        writer: &mut W,
    ) -> Result<(), WriteFailed>
        ensures written { W.told ≡ true → Writes (W.written writer.old) (W.written writer.new)
            (rows (line_in notation (M.text margin.now)) 1 (start self.now.language) rope.now (lines self.now.text))
            result }
        ensures failures { W.failures writer.new ≡ failures_after (W.failures writer.old) result }
    {
        write_rows(
            notation,
            rope,
            &self.source,
            self.marks.as_slice(),
            margin,
            writer,
        )
    }
}
