//! The engine that shows the words of an image beside a source with holes: lines of the interpretive language.

ghost use Rattle.workshop.specs.Failures.{reader, writer};
ghost use Rattle.workshop.specs.HoledWords.{ShowsHoled, ShowsWithHoles};
ghost use Rattle.workshop.specs.Ropes.{showing};

use crate::fault::WorkshopFault;
use holes::{assemble_with_holes, put_around_holes, write_holed_words};
use rope::{Rope, Version};
use space::Bank;
use std::alloc::Global;
use trace::PlaceNames;
use words::{Read, Write};
use yayul::Program;

/// Assembles a source of the language of flight programs, in which each line of the interpretive language is a hole,
/// reads a rope image of a version to its end, and writes a line for each word of a bank, or of all banks, as
/// `named_words_engine` does with the names of the source; but of a hole its place, the word and `HOLE`. Behind a hole
/// no extracode is in force, whatever word the image has there.
///
/// The first fault of the source is answered, or that there is no memory for its names, else the first fault of the
/// image; then nothing is written.
pub fn holed_words_engine<R: Read, W: Write>(
    alloc: Global,
    source: &[u8],
    image: &mut R,
    version: Version,
    bank: Option<Bank>,
    out: &mut W,
) -> Result<(), WorkshopFault>
    ensures { ShowsHoled source.now version bank
        (showing (reader R.Read image.old) (writer W.Write out.old))
        (showing (reader R.Read image.new) (writer W.Write out.new)) result }
{
    let (program, other) = assemble_with_holes(alloc, source)?;
    show_with_holes(alloc, program, &other, image, version, bank, out)
}

/// Reads a rope image, and writes a line for each word with the names of a program with holes.
fn show_with_holes<R: Read, W: Write>(
    alloc: Global,
    program: Program,
    other: &Rope,
    image: &mut R,
    version: Version,
    bank: Option<Bank>,
    out: &mut W,
) -> Result<(), WorkshopFault>
    ensures { ShowsWithHoles version bank program other.now
        (showing (reader R.Read image.old) (writer W.Write out.old))
        (showing (reader R.Read image.new) (writer W.Write out.new)) result }
{
    let (words, symbols, _) = program.split_all();
    let Ok(names) = PlaceNames::new(alloc, symbols) else {
        return Err(WorkshopFault::NoMemory);
    };
    let Ok(mut plain) = words.copied(alloc) else {
        return Err(WorkshopFault::NoMemory);
    };
    let rope = Rope::read(alloc, image, version)?;
    put_around_holes(&mut plain, other, &rope);
    Ok(write_holed_words(&words, other, &names, &rope, &plain, bank, out)?)
}
