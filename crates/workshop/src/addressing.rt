//! Reads a program, with the places that its source names as addresses.

ghost use Rattle.workshop.specs.Addressings.{ReadsAddressing, ReadsUnaddressed, addressing_of};
ghost use Rattle.workshop.specs.Failures.{reader};
ghost use Rattle.workshop.specs.Inputs.{assembled};
ghost use Rattle.workshop.specs.Loading.{Reads, ReadsText};

use crate::covering::read_subject;
use crate::fault::WorkshopFault;
use crate::inputs::read_program;
use crate::origin::Origin;
use addressed::AddressedPlaces;
use cover::Shown;
use json_text::Notation;
use rope::Rope;
use std::alloc::Global;
use words::Read;
use yayul::Language;

/// The words of a program, what is shown of it, and the places that its source names as addresses.
#[derive(Drop)]
pub(crate) struct Addressing {
    pub(crate) rope: Rope,
    pub(crate) rows: Shown,
    pub(crate) places: AddressedPlaces,
}

/// Reads a program, and which places its source names: an image has none, and names none.
pub(crate) fn read_addressing<P: Read>(
    alloc: Global,
    origin: Origin,
    program: &mut P,
) -> Result<Addressing, WorkshopFault>
    ensures { Reads (ReadsAddressing origin)
        (reader P.Read program.old) (reader P.Read program.new) result }
{
    match origin {
        Origin::Source(language) => read_addressing_source(alloc, language, program),
        Origin::Image(version) => read_unaddressed(alloc, Origin::Image(version), program),
        Origin::NamedImage(version, names) => {
            read_unaddressed(alloc, Origin::NamedImage(version, names), program)
        }
    }
}

/// Reads a source of a language, and which places it names.
fn read_addressing_source<P: Read>(
    alloc: Global,
    language: Language,
    program: &mut P,
) -> Result<Addressing, WorkshopFault>
    ensures { Reads (λ old new. ReadsText (addressing_of language (assembled language old)) old new)
        (reader P.Read program.old) (reader P.Read program.new) result }
{
    let (rope, symbols, rows) = read_program(alloc, language, program)?.split_all();
    let Some(places) = AddressedPlaces::of(alloc, language, &symbols, &rows, &rope) else {
        return Err(WorkshopFault::NoMemory);
    };
    Ok(Addressing {
        rope,
        rows: Shown::Source(rows, None),
        places,
    })
}

/// Reads what names no place.
fn read_unaddressed<P: Read>(
    alloc: Global,
    origin: Origin,
    program: &mut P,
) -> Result<Addressing, WorkshopFault>
    ensures { Reads (λ old new. ReadsUnaddressed origin old new)
        (reader P.Read program.old) (reader P.Read program.new) result }
{
    let (rope, rows) = read_subject(alloc, Notation::Text, origin, program)?;
    Ok(Addressing {
        rope,
        rows,
        places: AddressedPlaces::none(alloc),
    })
}
