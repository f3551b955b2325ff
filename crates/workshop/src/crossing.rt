//! The engine that writes the cross-reference of a source.

ghost use Rattle.workshop.specs.Crossing.{CrossReferences};
ghost use Rattle.workshop.specs.Failures.{writer};

use crate::fault::WorkshopFault;
use std::alloc::Global;
use words::Write;
use xref::{mentions, write_cross_reference};
use yayul::Language;

/// Writes the cross-reference of a source of a language: for each name that a line defines, in the order of the lines,
/// a row for each line that mentions it, with what it does with it. All memory is taken before anything is written.
pub fn xref_engine<W: Write>(
    alloc: Global,
    language: Language,
    source: &[u8],
    out: &mut W,
) -> Result<(), WorkshopFault>
    ensures { CrossReferences language source.now (writer W.Write out.old)
        (writer W.Write out.new) result }
{
    let Ok(found) = mentions(alloc, language, source) else {
        return Err(WorkshopFault::NoMemory);
    };
    Ok(write_cross_reference(&found, out)?)
}
