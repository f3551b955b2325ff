//! The program of a flight source with holes.

ghost use Rattle.std.specs.Prelude.{◌≡◌, codes};
ghost use Rattle.holes.specs.Holes.{program_as};
ghost use Rattle.yayul.specs.Program.{GivesProgram};
ghost use Rattle.holes.specs.Holes.{GivesHoles, program_with};

use crate::source::source_with_holes;
use rope::Rope;
use std::alloc::Global;
use yayul::{Fault, Language, Program, assemble};

/// The number of the fault that memory ran out.
const NO_MEMORY: u8 = 2;

/// Assembles a source of the language of flight programs with the word 0 in place of each line of the interpretive
/// language. Beside the program stands fixed memory with 1 in place of these words: the places where the two differ are
/// the holes.
pub fn assemble_with_holes(alloc: Global, source: &[u8]) -> Result<(Program, Rope), Fault>
    ensures { GivesHoles (program_with (codes "0") source.now) (program_with (codes "1") source.now) result }
{
    let program = assemble_with(alloc, b"0", source)?;
    let (other, _) = assemble_with(alloc, b"1", source)?.split();
    Ok((program, other))
}

/// Assembles a source of the language of flight programs as `assemble_with_holes` does, or as it stands: then no place
/// is a hole.
pub fn assemble_as(alloc: Global, holes: bool, source: &[u8]) -> Result<(Program, Rope), Fault>
    ensures { GivesHoles (program_as holes (codes "0") source.now) (program_as holes (codes "1") source.now) result }
{
    if holes {
        return assemble_with_holes(alloc, source);
    }
    let program = assemble(alloc, Language::Flight, source)?;
    match program.rope().copied(alloc) {
        Ok(other) => Ok((program, other)),
        Err(_) => Err(Fault {
            line: 0,
            number: NO_MEMORY,
        }),
    }
}

// Assembles a source with a word in place of each line of the interpretive language.
fn assemble_with(alloc: Global, word: &[u8], source: &[u8]) -> Result<Program, Fault>
    ensures { GivesProgram (program_with word.now source.now) result }
{
    let Ok(text) = source_with_holes(alloc, word, source) else {
        return Err(Fault {
            line: 0,
            number: NO_MEMORY,
        });
    };
    assemble(alloc, Language::Flight, &text)
}
