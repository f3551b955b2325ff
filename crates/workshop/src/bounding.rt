//! The engine that tells the most cycles of a routine.

ghost use Rattle.std.specs.Prelude.{◌≡◌};
ghost use Rattle.workshop.specs.BoundRuns.{Bounds, BoundsRoutine, question, told_of};
ghost use Rattle.workshop.specs.Failures.{reader, writer};
ghost use Rattle.workshop.specs.Loading.{answering};

use crate::fault::WorkshopFault;
use crate::origin::Origin;
use bound::{Answer, bound, kept_named, limits_named, routine_named, write_found};
use rope::Rope;
use std::alloc::Global;
use words::{Read, Write};
use yayul::Symbols;

/// What came of asking for the bound of a routine.
#[derive(Clone, Copy, PartialEq, Eq, Debug)]
pub enum Bounded {
    /// It is told.
    Told,
    /// A place is told where none was found, and why.
    Refused,
    /// The routine, a loop or a cell is none.
    NotNamed,
}

/// Reads a program, and writes the most cycles of a routine, or a place where no bound was found, and why. `loops` are
/// pairs of a place and of how often a way comes to it at most; `kept` are cells that hold the way back at TC of one,
/// and at QXCH of one while Q does not. Answers whether it is told; where one of the places is none nothing is written.
///
/// The first fault of the program is answered, else that memory ran out, and then nothing is written. After a write
/// that failed a beginning of the text was written.
pub fn bound_program<P: Read, W: Write>(
    alloc: Global,
    origin: Origin,
    program: &mut P,
    routine: &[u8],
    loops: &[u8],
    kept: &[u8],
    out: &mut W,
) -> Result<Bounded, WorkshopFault>
    ensures { Bounds origin (question routine.now loops.now kept.now)
        (answering (reader P.Read program.old) (writer W.Write out.old))
        (answering (reader P.Read program.new) (writer W.Write out.new)) result }
{
    let (rope, symbols, _) = origin.read(alloc, program)?;
    bound_routine(alloc, &rope, &symbols, routine, loops, kept, out)
}

/// Writes the most cycles of a routine of a program.
fn bound_routine<W: Write>(
    alloc: Global,
    rope: &Rope,
    symbols: &Symbols,
    routine: &[u8],
    loops: &[u8],
    kept: &[u8],
    out: &mut W,
) -> Result<Bounded, WorkshopFault>
    ensures { BoundsRoutine rope.now symbols.now (question routine.now loops.now kept.now)
        (writer W.Write out.old) (writer W.Write out.new) result }
{
    let Some(site) = routine_named(symbols, routine) else {
        return Ok(Bounded::NotNamed);
    };
    let Ok(limits) = limits_named(alloc, symbols, loops) else {
        return Err(WorkshopFault::NoMemory);
    };
    let Some(limits) = limits else {
        return Ok(Bounded::NotNamed);
    };
    let Ok(cells) = kept_named(alloc, symbols, kept) else {
        return Err(WorkshopFault::NoMemory);
    };
    let Some(cells) = cells else {
        return Ok(Bounded::NotNamed);
    };
    let Ok(found) = bound(alloc, rope, cells.as_slice(), limits.as_slice(), &site) else {
        return Err(WorkshopFault::NoMemory);
    };
    write_found(&found, out)?;
    Ok(told(&found.answer))
}

/// Whether a bound is told.
fn told(answer: &Answer) -> Bounded
    ensures { result ≡ told_of answer.now }
{
    match answer {
        Answer::Most(_) => Bounded::Told,
        Answer::Refused(_, _) => Bounded::Refused,
    }
}
