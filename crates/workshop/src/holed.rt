//! The engine that assembles a source with lines of the interpretive language, which are holes.

ghost use Rattle.std.specs.Prelude.{◌≡◌};
ghost use Rattle.std.specs.Option.{option_map};
ghost use Rattle.workshop.specs.Failures.{writer};
ghost use Rattle.holes.specs.Holes.{filled};
ghost use Rattle.workshop.specs.Holed.{PrintsSummed, PrintsWithRoom};
ghost use Rattle.workshop.specs.Holed.{AssemblesFilledChecked, AssemblesWithHoles, FillsAndPrints};
ghost use Rattle.workshop.specs.Holed.{PrintsFilled, listing_with, printing};
ghost use Rattle.workshop.specs.Ropes.{WritesText};

use crate::fault::WorkshopFault;
use audit::{NoRoom, add_check_words};
use holes::{assemble_with_holes, filled, write_holes};
use rope::{Rope, Version};
use space::Bank;
use std::alloc::Global;
use words::Write;
use yayul::Program;

/// Assembles a source of the language of flight programs, in which each line of the interpretive language is a hole: a
/// word at a place that is not made, and is 0. With a filling the holes have its words. Writes the rope image, of a
/// version, to one writer, and then the listing and the holes to the other.
///
/// The first fault of the source is answered, and then nothing is written. Nothing of the listing is written before the
/// whole image.
pub fn asm_with_holes<I: Write, L: Write>(
    alloc: Global,
    source: &[u8],
    filling: Option<&Rope>,
    image: &mut I,
    listing: &mut L,
    version: Version,
) -> Result<(), WorkshopFault>
    ensures { AssemblesWithHoles version (option_map (λ r. r.now) filling.entry) source.now
        (printing (writer I.Write image.old) (writer L.Write listing.old))
        (printing (writer I.Write image.new) (writer L.Write listing.new)) result }
{
    let (program, other) = assemble_with_holes(alloc, source)?;
    match filling {
        Some(from) => fill_and_print(alloc, &program, &other, from, image, listing, version),
        None => print_filled(program.rope(), &program, &other, image, listing, version),
    }
}

/// Assembles a source as `asm_with_holes` does, with a filling, and writes the image with check words: after the last
/// word of each bank two TC to themselves, and the word that makes the sum of the bank, holes filled, its number or the
/// complement of it.
///
/// Where a bank has no room for them the first such is answered, and nothing is written.
pub fn asm_filled_with_check_words<I: Write, L: Write>(
    alloc: Global,
    source: &[u8],
    filling: &Rope,
    image: &mut I,
    listing: &mut L,
    version: Version,
) -> Result<Option<Bank>, WorkshopFault>
    ensures { AssemblesFilledChecked version filling.now source.now
        (printing (writer I.Write image.old) (writer L.Write listing.old))
        (printing (writer I.Write image.new) (writer L.Write listing.new)) result }
{
    let (program, other) = assemble_with_holes(alloc, source)?;
    fill_and_sum(alloc, &program, &other, filling, image, listing, version)
}

/// Writes the image of a program whose holes have their words of a filling, with check words, of a version, and then
/// the listing with its holes; or answers the first bank without room. Memory may be refused, and then nothing is
/// written.
fn fill_and_sum<I: Write, L: Write>(
    alloc: Global,
    program: &Program,
    other: &Rope,
    from: &Rope,
    image: &mut I,
    listing: &mut L,
    version: Version,
) -> Result<Option<Bank>, WorkshopFault>
    ensures { PrintsSummed version program.now other.now (filled program.now.rope other.now from.now)
        (printing (writer I.Write image.old) (writer L.Write listing.old))
        (printing (writer I.Write image.new) (writer L.Write listing.new)) result }
{
    let mut words = filled(alloc, program.rope(), other, from)?;
    print_summed(&mut words, program, other, image, listing, version)
}

/// Adds check words to some words, and writes their image, of a version, and then the listing of a program with its
/// holes; or answers the first bank without room, and writes nothing.
fn print_summed<I: Write, L: Write>(
    words: &mut Rope,
    program: &Program,
    other: &Rope,
    image: &mut I,
    listing: &mut L,
    version: Version,
) -> Result<Option<Bank>, WorkshopFault>
    ensures { PrintsWithRoom version program.now other.now words.old
        (printing (writer I.Write image.old) (writer L.Write listing.old))
        (printing (writer I.Write image.new) (writer L.Write listing.new)) result }
{
    if let Err(NoRoom { bank }) = add_check_words(words) {
        return Ok(Some(bank));
    }
    print_filled(words, program, other, image, listing, version)?;
    Ok(None)
}

/// Writes the image of a program whose holes have their words of a filling, of a version, and then the listing with its
/// holes. Memory may be refused, and then nothing is written.
fn fill_and_print<I: Write, L: Write>(
    alloc: Global,
    program: &Program,
    other: &Rope,
    from: &Rope,
    image: &mut I,
    listing: &mut L,
    version: Version,
) -> Result<(), WorkshopFault>
    ensures { FillsAndPrints version program.now other.now from.now
        (printing (writer I.Write image.old) (writer L.Write listing.old))
        (printing (writer I.Write image.new) (writer L.Write listing.new)) result }
{
    let words = filled(alloc, program.rope(), other, from)?;
    print_filled(&words, program, other, image, listing, version)
}

/// Writes the image of some words, of a version, and then the listing of a program with its holes.
fn print_filled<I: Write, L: Write>(
    words: &Rope,
    program: &Program,
    other: &Rope,
    image: &mut I,
    listing: &mut L,
    version: Version,
) -> Result<(), WorkshopFault>
    ensures { PrintsFilled version program.now other.now words.now
        (printing (writer I.Write image.old) (writer L.Write listing.old))
        (printing (writer I.Write image.new) (writer L.Write listing.new)) result }
{
    words.write(image, version)?;
    list_holes(words, program, other, listing)
}

/// Writes the listing of a program, and then its holes.
fn list_holes<L: Write>(
    words: &Rope,
    program: &Program,
    other: &Rope,
    listing: &mut L,
) -> Result<(), WorkshopFault>
    ensures { WritesText (listing_with program.now other.now words.now)
        (writer L.Write listing.old) (writer L.Write listing.new) result }
{
    program.list(listing)?;
    Ok(write_holes(program.rope(), other, words, listing)?)
}
