//! What an engine reads: a program, and then a feed.

ghost use Rattle.workshop.specs.Inputs.{assembled};
ghost use Rattle.workshop.specs.Failures.{reader};
ghost use Rattle.workshop.specs.Loading.{Loads, Reads, ReadsInputs, ReadsText, program_and_feed};

use crate::fault::WorkshopFault;
use crate::origin::Origin;
use feed::Feed;
use rope::Rope;
use std::alloc::Global;
use words::{MOST_BYTES, Read, read_text};
use yayul::{Language, Program, SourceRows, Symbols, assemble};

/// The words of a program, its symbols, the lines of its source, and the inputs of a feed.
#[derive(Drop)]
pub(crate) struct Loaded {
    pub(crate) rope: Rope,
    pub(crate) symbols: Symbols,
    pub(crate) rows: SourceRows,
    pub(crate) feed: Feed,
}

/// Reads a program, and then a feed.
pub(crate) fn load<P: Read, F: Read>(
    alloc: Global,
    origin: Origin,
    program: &mut P,
    feed: &mut F,
) -> Result<Loaded, WorkshopFault>
    ensures { Loads origin
        (program_and_feed (reader P.Read program.old) (reader F.Read feed.old))
        (program_and_feed (reader P.Read program.new) (reader F.Read feed.new)) result }
{
    let (rope, symbols, rows) = origin.read(alloc, program)?;
    let feed = read_feed(alloc, feed)?;
    Ok(Loaded {
        rope,
        symbols,
        rows,
        feed,
    })
}

/// Reads a source of a language whole, and assembles it.
pub(crate) fn read_program<S: Read>(
    alloc: Global,
    language: Language,
    source: &mut S,
) -> Result<Program, WorkshopFault>
    ensures { Reads (λ old new. ReadsText (assembled language old) old new)
        (reader S.Read source.old) (reader S.Read source.new) result }
{
    let text = read_text(alloc, source, MOST_BYTES)?;
    Ok(assemble(alloc, language, &text)?)
}

/// Reads a feed.
pub(crate) fn read_feed<F: Read>(alloc: Global, feed: &mut F) -> Result<Feed, WorkshopFault>
    ensures { Reads ReadsInputs
        (reader F.Read feed.old) (reader F.Read feed.new) result }
{
    Ok(feed::read(alloc, feed)?)
}
