//! The engine that shows what is reached.

ghost use Rattle.workshop.specs.Failures.{reader, writer};
ghost use Rattle.workshop.specs.Loading.{answering};
ghost use Rattle.std.specs.Prelude.{IfOk};
ghost use Rattle.reach.specs.Marks.{AreReached};
ghost use Rattle.reach.specs.Named.{with_named};
ghost use Rattle.reach.specs.Roots.{AreShown, program_roots};
ghost use Rattle.reach.specs.Ways.{vectors};
ghost use Rattle.workshop.specs.Reaches.{Reaches, ReachesText};

use crate::addressing::{Addressing, read_addressing};
use crate::fault::WorkshopFault;
use crate::origin::Origin;
use reach::{Led, Roots, reached_from_vectors, reached_with_named, write_reach};
use std::alloc::{AllocError, Global};
use words::{Read, Write};

/// Reads a program, and writes the rows of its source's listing, or the words of its image, each after whether a way
/// leads to its word from where a run starts and from the entries of interrupts, or an instruction reads it to which
/// one leads; or a way leads to it from a place that the source names as an address. Where roots are shown each has the
/// first of these behind it from which a way leads to its word.
///
/// The first fault of the program is answered, else that memory ran out, and then nothing is written. Memory is taken
/// for a mark of each word and each way to come to it, and for those that are come to. After a write that failed a
/// beginning of the text was written.
pub fn reach_program<P: Read, W: Write>(
    alloc: Global,
    origin: Origin,
    program: &mut P,
    shows_roots: bool,
    out: &mut W,
) -> Result<(), WorkshopFault>
    ensures { Reaches origin shows_roots
        (answering (reader P.Read program.old) (writer W.Write out.old))
        (answering (reader P.Read program.new) (writer W.Write out.new)) result }
{
    let addressing = read_addressing(alloc, origin, program)?;
    write_reached(alloc, &addressing, shows_roots, out)
}

/// Writes what is reached of a program.
fn write_reached<W: Write>(
    alloc: Global,
    program: &Addressing,
    shows_roots: bool,
    out: &mut W,
) -> Result<(), WorkshopFault>
    ensures { ReachesText program.now shows_roots (writer W.Write out.old)
        (writer W.Write out.new) result }
{
    let Ok(led) = led(alloc, program, shows_roots) else {
        return Err(WorkshopFault::NoMemory);
    };
    write_reach(&led, &program.rope, &program.rows, out)?;
    Ok(())
}

/// What is reached from the vectors, and from these and the places that a program names; and the roots.
fn led(alloc: Global, program: &Addressing, shows_roots: bool) -> Result<Led, AllocError>
    ensures start { IfOk result (λ led. AreReached program.now.rope vectors led.start) }
    ensures named { IfOk result (λ led. AreReached program.now.rope (with_named program.now.places vectors) led.named) }
    ensures roots { IfOk result (λ led. AreShown shows_roots program.now.rope
        (program_roots program.now.places) led.roots) }
{
    let start = reached_from_vectors(alloc, &program.rope)?;
    let named = reached_with_named(alloc, &program.rope, program.places.as_slice())?;
    let roots = roots(alloc, program, shows_roots)?;
    Ok(Led::new(start, named, roots))
}

/// The roots, where they are shown.
fn roots(
    alloc: Global,
    program: &Addressing,
    shows_roots: bool,
) -> Result<Option<Roots>, AllocError>
    ensures { IfOk result (λ roots. AreShown shows_roots program.now.rope (program_roots program.now.places) roots) }
{
    if !shows_roots {
        return Ok(None);
    }
    let roots = Roots::of_program(alloc, &program.rope, program.places.as_slice())?;
    Ok(Some(roots))
}
