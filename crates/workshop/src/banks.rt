//! The engine that compares a flight source with an image, and gives an account of each bank.

ghost use Rattle.std.specs.Prelude.{◌≡◌, ◌++◌, true, length, IfOk};
ghost use Rattle.words.specs.Devices.{Writes, failures_after};
ghost use Rattle.audit.specs.Differences.{differing};
ghost use Rattle.audit.specs.declared.differences.Extent.TheVariants.{Filled};
ghost use Rattle.confirmed.specs.Confirmed.{assumed_lines};
ghost use Rattle.workshop.specs.Banks.{ComparesBanks, GivesAssumed, WritesBanks, banks_text};
ghost use Rattle.workshop.specs.Failures.{reader, writer};
ghost use Rattle.workshop.specs.Ropes.{showing};

use crate::fault::WorkshopFault;
use crate::ropes::Compared;
use assumed::{Wording, source_assumed};
use certain::{UncertainPlaces, write_accounts, write_comparison};
use confirmed::{AssumedPlaces, write_assumed_lines};
use holes::{assemble_as, put_around_holes};
use rope::{Rope, Version};
use std::alloc::Global;
use words::{Read, Write, WriteFailed};
use yayul::{Fault, Program};

/// The number of the fault that memory ran out.
const NO_MEMORY: u8 = 2;

/// Assembles a source of the language of flight programs, in which lines of the interpretive language are holes, or are
/// refused; reads a rope image of a version to its end; and writes a line for each place that the source fills, and
/// that is no hole, where the words differ, as `compare_only_engine` does, how many there are, which it answers, what
/// the image says of uncertain words, an account of each bank, and then what the image says of each wording that is
/// assumed. Behind a hole no extracode is in force, whatever word the image has there.
///
/// The first fault of the source is answered, else that of the image, and then nothing is written. Which of them was
/// read last stands in `last`.
pub fn compare_banks_engine<R: Read, W: Write>(
    alloc: Global,
    wordings: &[Wording],
    holes: bool,
    source: &[u8],
    image: &mut R,
    version: Version,
    last: &mut Compared,
    out: &mut W,
) -> Result<u32, WorkshopFault>
    ensures { ComparesBanks wordings.now holes source.now version
        (showing (reader R.Read image.old) (writer W.Write out.old))
        (showing (reader R.Read image.new) (writer W.Write out.new)) last.new result }
{
    *last = Compared::Old;
    let (program, other) = assemble_assumed(alloc, wordings, holes, source)?;
    *last = Compared::New;
    let words = Rope::read(alloc, image, version)?;
    compare_banks(alloc, wordings, source, program, &other, &words, out)
}

/// Assembles a source under assumptions, in which lines of the interpretive language are holes, or are refused.
fn assemble_assumed(
    alloc: Global,
    wordings: &[Wording],
    holes: bool,
    source: &[u8],
) -> Result<(Program, Rope), Fault>
    ensures { GivesAssumed wordings.now holes source.now result }
{
    let Ok(text) = source_assumed(alloc, wordings, source) else {
        return Err(Fault {
            line: 0,
            number: NO_MEMORY,
        });
    };
    assemble_as(alloc, holes, &text)
}

/// Writes where the words of a source and those of an image differ, and an account of each bank. All memory is taken
/// before anything is written.
fn compare_banks<W: Write>(
    alloc: Global,
    wordings: &[Wording],
    source: &[u8],
    program: Program,
    other: &Rope,
    words: &Rope,
    out: &mut W,
) -> Result<u32, WorkshopFault>
    ensures { WritesBanks wordings.now source.now program other.now words.now
        (writer W.Write out.old) (writer W.Write out.new) result }
{
    let (rope, rows) = program.split_rows();
    let mut around = rope.copied(alloc)?;
    put_around_holes(&mut around, other, words);
    let Some(uncertain) = UncertainPlaces::of(alloc, &rows, &rope) else {
        return Err(WorkshopFault::NoMemory);
    };
    let Some(places) = AssumedPlaces::of(alloc, wordings, source, &rows, &rope) else {
        return Err(WorkshopFault::NoMemory);
    };
    Ok(write_assumed(wordings, &places, &uncertain, &rope, other, &around, out)?)
}

/// Writes a comparison of the words of a source with those of an image around its holes, the accounts of the banks, and
/// what the image says of each wording that is assumed.
fn write_assumed<W: Write>(
    wordings: &[Wording],
    places: &AssumedPlaces,
    uncertain: &UncertainPlaces,
    rope: &Rope,
    other: &Rope,
    around: &Rope,
    out: &mut W,
) -> Result<u32, WriteFailed>
    ensures written { W.told ≡ true → Writes (W.written out.old) (W.written out.new)
        (banks_text uncertain.now rope.now other.now around.now
        ++ assumed_lines wordings.now places.now rope.now around.now) result }
    ensures count { IfOk result (λ count. count ≡ length (differing Filled rope.now around.now)) }
    ensures failures { W.failures out.new ≡ failures_after (W.failures out.old) result }
{
    let count = write_comparison(uncertain, rope, around, out)?;
    write_accounts(uncertain, rope, other, around, out)?;
    write_assumed_lines(wordings, places, rope, around, out)?;
    Ok(count)
}
