//! What engines do with the names of an image: they read them, and write a source with them, or where they are used.

ghost use Rattle.workshop.specs.Failures.{reader, writer};
ghost use Rattle.workshop.specs.Inputs.{named_by};
ghost use Rattle.workshop.specs.Loading.{Reads, ReadsText};
ghost use Rattle.workshop.specs.Making.{MakesText, ShowsMade, named_text};
ghost use Rattle.workshop.specs.Ropes.{showing};

use crate::fault::WorkshopFault;
use audit::write_source;
use named_source::named_source;
use names::{mentions, names_in, write_uses};
use rope::{Rope, Version};
use space::Bank;
use std::alloc::Global;
use words::{MOST_BYTES, Read, Write, read_text, write_all};
use yayul::Symbols;

/// Reads a table of names whole: the lines below SYMBOLS of a listing, or where there is no such line all lines, each
/// with a name and what it stands for. It has at most 8,388,608 bytes.
///
/// The first line that has another form is told.
pub fn read_names<R: Read>(alloc: Global, table: &mut R) -> Result<Symbols, WorkshopFault>
    ensures { Reads (λ old new. ReadsText (named_by old) old new)
        (reader R.Read table.old) (reader R.Read table.new) result }
{
    let text = read_text(alloc, table, MOST_BYTES)?;
    Ok(names_in(alloc, &text)?)
}

/// What is made of the words of an image and of names that stand for its places.
#[derive(Clone, Copy)]
pub enum NamedText {
    /// A source with names and instructions that gives the words of a bank, or of all banks.
    Source,
    /// The cross-reference of the names: for each that has a place this place, and the words of a bank, or of all
    /// banks, whose addresses lead to it, with what they do there.
    Uses,
}

/// Reads a rope image of a version to its end, and writes a text that is made of its words and of some names.
///
/// The first fault of the image is answered, or that memory ran out, and then nothing is written.
pub fn named_text_engine<R: Read, W: Write>(
    alloc: Global,
    text: NamedText,
    names: &Symbols,
    image: &mut R,
    version: Version,
    bank: Option<Bank>,
    out: &mut W,
) -> Result<(), WorkshopFault>
    ensures { ShowsMade version (λ words. named_text text names.now words bank)
        (showing (reader R.Read image.old) (writer W.Write out.old))
        (showing (reader R.Read image.new) (writer W.Write out.new)) result }
{
    let rope = Rope::read(alloc, image, version)?;
    write_named(alloc, text, names, &rope, bank, out)
}

/// Writes a text that is made of some words and names: of a source that does not give the words the one of octal words.
fn write_named<W: Write>(
    alloc: Global,
    text: NamedText,
    names: &Symbols,
    rope: &Rope,
    bank: Option<Bank>,
    out: &mut W,
) -> Result<(), WorkshopFault>
    ensures { MakesText (named_text text names.now rope.now bank)
        (writer W.Write out.old) (writer W.Write out.new) result }
{
    match text {
        NamedText::Source => match named_source(alloc, names, rope, &bank) {
            Err(_) => Err(WorkshopFault::NoMemory),
            Ok(Some(text)) => Ok(write_all(out, text.as_slice())?),
            Ok(None) => Ok(write_source(rope, bank, out)?),
        },
        NamedText::Uses => match mentions(alloc, rope, bank) {
            Err(_) => Err(WorkshopFault::NoMemory),
            Ok(found) => Ok(write_uses(names, &found, out)?),
        },
    }
}
