//! The engines that align two ropes: what has become of their words, where the names of one stand in the other, and
//! where a passage of a source stands in an image.

ghost use Rattle.std.specs.Prelude.{◌≡◌, true, IfOk};
ghost use Rattle.align.specs.AlignTexts.{alignment_lines, found_lines};
ghost use Rattle.align.specs.CarriedNames.{carried_lines};
ghost use Rattle.workshop.specs.Aligning.{Aligns, Finds, TellsAligned, least_run};
ghost use Rattle.workshop.specs.Failures.{reader, writer};
ghost use Rattle.workshop.specs.Ropes.{comparing};

use crate::fault::WorkshopFault;
use crate::inputs::read_program;
use crate::ropes::Compared;
use align::{align, write_alignment, write_carried, write_found};
use rope::{Rope, Version};
use std::alloc::Global;
use words::{Read, Write};
use yayul::{Language, Symbols};

/// The fewest words of a run.
const LEAST_RUN: usize = 12;

/// Reads two rope images, each of its version, to their ends, and writes what has become of their words.
///
/// The first fault of the old image is answered, else that of the new one, or that memory ran out, and then nothing is
/// written. Which of the images was read last, of which a fault is, stands in `last`.
pub fn align_engine<A: Read, B: Read, W: Write>(
    alloc: Global,
    old: &mut A,
    old_version: Version,
    new: &mut B,
    new_version: Version,
    last: &mut Compared,
    out: &mut W,
) -> Result<(), WorkshopFault>
    ensures { Aligns alignment_lines old_version new_version
        (comparing (reader A.Read old.old) (reader B.Read new.old) (writer W.Write out.old))
        (comparing (reader A.Read old.new) (reader B.Read new.new) (writer W.Write out.new)) last.new result }
{
    *last = Compared::Old;
    let words = Rope::read(alloc, old, old_version)?;
    *last = Compared::New;
    let others = Rope::read(alloc, new, new_version)?;
    tell_alignment(alloc, &words, &others, out)
}

/// Reads two rope images, as `align_engine` does, and writes the names of a table of the old one with their places in
/// the new one.
pub fn carry_engine<A: Read, B: Read, W: Write>(
    alloc: Global,
    names: &Symbols,
    old: &mut A,
    old_version: Version,
    new: &mut B,
    new_version: Version,
    last: &mut Compared,
    out: &mut W,
) -> Result<(), WorkshopFault>
    ensures { Aligns (λ _ _ renaming pairing. carried_lines renaming pairing names.now) old_version new_version
        (comparing (reader A.Read old.old) (reader B.Read new.old) (writer W.Write out.old))
        (comparing (reader A.Read old.new) (reader B.Read new.new) (writer W.Write out.new)) last.new result }
{
    *last = Compared::Old;
    let words = Rope::read(alloc, old, old_version)?;
    *last = Compared::New;
    let others = Rope::read(alloc, new, new_version)?;
    tell_carried(alloc, names, &words, &others, out)
}

/// Assembles a source of a language, reads a rope image of a version to its end, and writes where the words of the
/// source stand in it.
///
/// The source has at most 8,388,608 bytes. Its first fault is answered, else that of the image, or that memory ran out,
/// and then nothing is written. Which of them was read last stands in `last`.
pub fn find_engine<S: Read, R: Read, W: Write>(
    alloc: Global,
    language: Language,
    source: &mut S,
    image: &mut R,
    version: Version,
    last: &mut Compared,
    out: &mut W,
) -> Result<(), WorkshopFault>
    ensures { Finds language version
        (comparing (reader S.Read source.old) (reader R.Read image.old) (writer W.Write out.old))
        (comparing (reader S.Read source.new) (reader R.Read image.new) (writer W.Write out.new)) last.new result }
{
    *last = Compared::Old;
    let program = read_program(alloc, language, source)?;
    *last = Compared::New;
    let words = Rope::read(alloc, image, version)?;
    tell_found(alloc, program.rope(), &words, out)
}

/// Writes what has become of the words of two ropes.
fn tell_alignment<W: Write>(
    alloc: Global,
    old: &Rope,
    new: &Rope,
    out: &mut W,
) -> Result<(), WorkshopFault>
    ensures { TellsAligned alignment_lines old.now new.now (writer W.Write out.old)
        (writer W.Write out.new) result }
{
    let Ok(alignment) = align(alloc, old, new, LEAST_RUN) else {
        return Err(WorkshopFault::NoMemory);
    };
    Ok(write_alignment(old, new, &alignment, out)?)
}

/// Writes names of the old of two ropes with their places in the new one.
fn tell_carried<W: Write>(
    alloc: Global,
    names: &Symbols,
    old: &Rope,
    new: &Rope,
    out: &mut W,
) -> Result<(), WorkshopFault>
    ensures { TellsAligned (λ _ _ renaming pairing. carried_lines renaming pairing names.now) old.now new.now
        (writer W.Write out.old) (writer W.Write out.new) result }
{
    let Ok(alignment) = align(alloc, old, new, LEAST_RUN) else {
        return Err(WorkshopFault::NoMemory);
    };
    Ok(write_carried(&alignment, names, out)?)
}

/// Writes where the words of a passage stand in a rope.
fn tell_found<W: Write>(
    alloc: Global,
    passage: &Rope,
    rope: &Rope,
    out: &mut W,
) -> Result<(), WorkshopFault>
    ensures { TellsAligned found_lines passage.now rope.now (writer W.Write out.old)
        (writer W.Write out.new) result }
{
    let Ok(alignment) = align(alloc, passage, rope, LEAST_RUN) else {
        return Err(WorkshopFault::NoMemory);
    };
    Ok(write_found(&alignment, out)?)
}
