//! The engines that read images: they show them as text, compare them, and upgrade them.

ghost use Rattle.std.specs.Prelude.{◌≡◌, true, IfOk};
ghost use Rattle.words.specs.Devices.{Writes, failures_after};
ghost use Rattle.names.specs.NamedLines.{named_lines};
ghost use Rattle.rope.specs.Image.{image};
ghost use Rattle.workshop.specs.Failures.{Reader, reader, writer};
ghost use Rattle.workshop.specs.Ropes.{Compares, ComparesNext, ComparesOnly, Shows, ShowsMended, TellsDump};
ghost use Rattle.workshop.specs.Ropes.{comparing, showing, shown_text};
ghost use Rattle.workshop.specs.Ropes.{WritesCompared, WritesUncertain, dump_count, dump_text};

use crate::fault::WorkshopFault;
use crate::inputs::read_program;
use audit::{
    Extent, write_damages, write_differences, write_form_sums, write_mended, write_octals,
    write_parities, write_source, write_sums, write_words,
};
use certain::{UncertainPlaces, write_comparison};
use names::write_named_words;
use rope::{Dump, Rope, Version};
use space::Bank;
use std::alloc::Global;
use trace::PlaceNames;
use words::{Read, Write, WriteFailed};
use yayul::{Language, Program, Symbols};

/// Which of two that are compared.
#[derive(Clone, Copy, PartialEq, Eq, Debug)]
pub enum Compared {
    /// The first: an image, or a source.
    Old,
    /// The second, an image.
    New,
}

/// What is shown of the words of an image.
#[derive(Clone, Copy)]
pub enum RopeText {
    /// A line for each word of a bank, or of all banks: its place, the word, and the instruction that it is.
    Words(Option<Bank>),
    /// A source that gives the words of a bank, or of all banks.
    Source(Option<Bank>),
    /// The octal words of a bank, or of all banks.
    Octals(Option<Bank>),
    /// A line for each bank: its number, and the sum of its words.
    Sums,
    /// A line for each bank: its number, the sums of its words in both orders of the bits, and in which forms the sum
    /// is the bank's number or the complement of it.
    FormSums,
}

/// Reads a rope image of a version to its end, and writes what is to be shown of its words.
///
/// The first fault of the image is answered, and then nothing is written.
pub fn show_engine<R: Read, W: Write>(
    alloc: Global,
    image: &mut R,
    version: Version,
    text: RopeText,
    out: &mut W,
) -> Result<(), WorkshopFault>
    ensures { Shows version (shown_text text version)
        (showing (reader R.Read image.old) (writer W.Write out.old))
        (showing (reader R.Read image.new) (writer W.Write out.new)) result }
{
    let rope = Rope::read(alloc, image, version)?;
    Ok(write_shown(&rope, version, text, out)?)
}

/// Writes what is to be shown of the words of an image of a version.
fn write_shown<W: Write>(
    rope: &Rope,
    version: Version,
    text: RopeText,
    out: &mut W,
) -> Result<(), WriteFailed>
    ensures written { W.told ≡ true → Writes (W.written out.old) (W.written out.new)
        (shown_text text version rope.now) result }
    ensures failures { W.failures out.new ≡ failures_after (W.failures out.old) result }
{
    match text {
        RopeText::Words(bank) => write_words(rope, bank, out),
        RopeText::Source(bank) => write_source(rope, bank, out),
        RopeText::Octals(bank) => write_octals(rope, bank, out),
        RopeText::Sums => write_sums(rope, out),
        RopeText::FormSums => write_form_sums(rope, version, out),
    }
}

/// Reads a rope image of a version to its end, and writes a line for each word of a bank, or of all banks, as
/// `show_engine` does, with names for the places to which the words lead.
///
/// That there is no memory for the names is answered before anything is read, else the first fault of the image; then
/// nothing is written.
pub fn named_words_engine<R: Read, W: Write>(
    alloc: Global,
    names: Symbols,
    image: &mut R,
    version: Version,
    bank: Option<Bank>,
    out: &mut W,
) -> Result<(), WorkshopFault>
    ensures { Shows version (λ words. named_lines names words bank)
        (showing (reader R.Read image.old) (writer W.Write out.old))
        (showing (reader R.Read image.new) (writer W.Write out.new)) result }
{
    let Ok(named) = PlaceNames::new(alloc, names) else {
        return Err(WorkshopFault::NoMemory);
    };
    let words = Rope::read(alloc, image, version)?;
    Ok(write_named_words(&words, &named, bank, out)?)
}

/// Reads a rope image of version 1 to its end, and writes the image of the same words in version 2.
///
/// The first fault of the image is answered, and then nothing is written.
pub fn upgrade_engine<R: Read, W: Write>(
    alloc: Global,
    old: &mut R,
    out: &mut W,
) -> Result<(), WorkshopFault>
    ensures { Shows Version.One (image Version.Two)
        (showing (reader R.Read old.old) (writer W.Write out.old))
        (showing (reader R.Read old.new) (writer W.Write out.new)) result }
{
    let rope = Rope::read(alloc, old, Version::One)?;
    Ok(rope.write(out, Version::Two)?)
}

/// Reads two rope images, each of its version, to their ends, and writes a line for each place where their words
/// differ, and then how many places there are, which it answers.
///
/// The first fault of the old image is answered, else that of the new one, and then nothing is written. Which of them
/// was read last, of which a fault is, stands in `last`.
pub fn compare_engine<A: Read, B: Read, W: Write>(
    alloc: Global,
    old: &mut A,
    old_version: Version,
    new: &mut B,
    new_version: Version,
    last: &mut Compared,
    out: &mut W,
) -> Result<u32, WorkshopFault>
    ensures { Compares old_version new_version
        (comparing (reader A.Read old.old) (reader B.Read new.old) (writer W.Write out.old))
        (comparing (reader A.Read old.new) (reader B.Read new.new) (writer W.Write out.new)) last.new result }
{
    *last = Compared::Old;
    let words = Rope::read(alloc, old, old_version)?;
    *last = Compared::New;
    let others = Rope::read(alloc, new, new_version)?;
    Ok(write_differences(&words, &others, Extent::All, out)?)
}

/// Assembles a source of a language, reads a rope image of a version to its end, and writes a line for each place that
/// the source fills where the words differ, and then how many places there are, which it answers. Of the other places
/// nothing is said. Of a flight source the lines of uncertain words have a remark, and more lines tell how many there
/// are, and what the image says of each form.
///
/// The source has at most 8,388,608 bytes. Its first fault is answered, else that of the image, and then nothing is
/// written. Which of them was read last stands in `last`.
pub fn compare_only_engine<S: Read, R: Read, W: Write>(
    alloc: Global,
    language: Language,
    source: &mut S,
    image: &mut R,
    version: Version,
    last: &mut Compared,
    out: &mut W,
) -> Result<u32, WorkshopFault>
    ensures { ComparesOnly language version
        (comparing (reader S.Read source.old) (reader R.Read image.old) (writer W.Write out.old))
        (comparing (reader S.Read source.new) (reader R.Read image.new) (writer W.Write out.new)) last.new result }
{
    *last = Compared::Old;
    let program = read_program(alloc, language, source)?;
    *last = Compared::New;
    let words = Rope::read(alloc, image, version)?;
    compare_program(alloc, language, program, &words, out)
}

/// Writes where the words of a source and those of an image differ: of a flight source with the uncertain places told
/// apart. All memory is taken before anything is written.
fn compare_program<W: Write>(
    alloc: Global,
    language: Language,
    program: Program,
    words: &Rope,
    out: &mut W,
) -> Result<u32, WorkshopFault>
    ensures { WritesCompared language program words.now (writer W.Write out.old)
        (writer W.Write out.new) result }
{
    match language {
        Language::Standard => Ok(write_differences(program.rope(), words, Extent::Filled, out)?),
        Language::Flight => compare_flight_program(alloc, program, words, out),
    }
}

/// The same of a flight source.
fn compare_flight_program<W: Write>(
    alloc: Global,
    program: Program,
    words: &Rope,
    out: &mut W,
) -> Result<u32, WorkshopFault>
    ensures { WritesUncertain program words.now (writer W.Write out.old)
        (writer W.Write out.new) result }
{
    let (rope, rows) = program.split_rows();
    let Some(uncertain) = UncertainPlaces::of(alloc, &rows, &rope) else {
        return Err(WorkshopFault::NoMemory);
    };
    Ok(write_comparison(&uncertain, &rope, words, out)?)
}

/// What is told of the bytes of an image, and counted.
#[derive(Clone, Copy)]
pub enum DumpText {
    /// A line for each word whose two bytes have an even number of one bits, and then how many such words there are.
    Parities,
    /// What is damaged in it, bank by bank: what the words, their parities and the sums tell together; or in which ways
    /// it stands otherwise. And then of how many banks or ways that tells, the parity of the whole image counted as
    /// one.
    Damages,
}

/// Reads the bytes of a rope image to their end, and writes what is to be told of them; it answers the count that this
/// ends with.
///
/// An image that is short or long is refused, and then nothing is written.
pub fn dump_engine<R: Read, W: Write>(
    alloc: Global,
    text: DumpText,
    image: &mut R,
    out: &mut W,
) -> Result<u32, WorkshopFault>
    ensures { TellsDump text
        (showing (reader R.Read image.old) (writer W.Write out.old))
        (showing (reader R.Read image.new) (writer W.Write out.new)) result }
{
    let bytes = Dump::read(alloc, image)?;
    Ok(write_told(text, &bytes, out)?)
}

/// Writes what is to be told of the bytes of an image, and answers the count that this ends with.
fn write_told<W: Write>(text: DumpText, bytes: &Dump, out: &mut W) -> Result<u32, WriteFailed>
    ensures written { W.told ≡ true → Writes (W.written out.old) (W.written out.new) (dump_text text bytes.now) result }
    ensures count { IfOk result (λ count. count ≡ dump_count text bytes.now) }
    ensures failures { W.failures out.new ≡ failures_after (W.failures out.old) result }
{
    match text {
        DumpText::Parities => write_parities(bytes, out),
        DumpText::Damages => write_damages(bytes, out),
    }
}

/// Reads the bytes of a rope image to their end, and writes a source that gives its words: where one bit alone can have
/// been wrong in a bank's words of wrong parity, by its sum, with that bit turned.
///
/// An image that is short or long is refused, and then nothing is written.
pub fn mended_engine<R: Read, W: Write>(
    alloc: Global,
    image: &mut R,
    out: &mut W,
) -> Result<(), WorkshopFault>
    ensures { ShowsMended
        (showing (reader R.Read image.old) (writer W.Write out.old))
        (showing (reader R.Read image.new) (writer W.Write out.new)) result }
{
    let bytes = Dump::read(alloc, image)?;
    Ok(write_mended(&bytes, out)?)
}
