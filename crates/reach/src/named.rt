//! What is reached from the places that a program names.

ghost use Rattle.std.specs.Prelude.{◌≡◌, ◌++◌, IfOk, ℕ, map};
ghost use Rattle.cpu.specs.State.{Scenario};
ghost use Rattle.reach.specs.Executed.{HasExecuted, run_roots};
ghost use Rattle.reach.specs.Marks.{AreReached};
ghost use Rattle.reach.specs.Named.{named_spot, with_named};
ghost use Rattle.reach.specs.Ways.{vectors};

use crate::executed::Executed;
use crate::marks::Marks;
use crate::search::{reached, vectors};
use crate::spot::Spot;
use crate::ways::PLAIN;
use rope::Rope;
use space::resolve::window;
use space::{Bank, Linear, Offset};
use std::alloc::{AllocError, Global};

/// What is reached from where a run starts, from the entries of interrupts, and from some places.
pub fn reached_with_named(
    alloc: Global,
    rope: &Rope,
    places: &[(Bank, Offset)],
) -> Result<Marks, AllocError>
    ensures { IfOk result (λ marks. AreReached rope.now (with_named places.now vectors) marks) }
{
    let mut roots = named_spots(alloc, places)?;
    roots.extend_from_slice(&vectors())?;
    reached(alloc, rope, roots.as_slice())
}

/// What is reached from there, and from all that a run has executed.
pub fn reached_with_run_and_named(
    alloc: Global,
    rope: &Rope,
    executed: &Executed,
    places: &[(Bank, Offset)],
) -> Result<Marks, AllocError>
    ensures { IfOk result (λ marks. (scenario : Scenario) (n : ℕ) → HasExecuted scenario n executed.now
        → AreReached rope.now (with_named places.now (run_roots scenario n)) marks) }
{
    let mut roots = named_spots(alloc, places)?;
    roots.extend_from_slice(&vectors())?;
    roots.extend_from_slice(executed.in_order())?;
    reached(alloc, rope, roots.as_slice())
}

/// The spots of some places.
fn named_spots(alloc: Global, places: &[(Bank, Offset)]) -> Result<Vec<Spot>, AllocError>
    ensures { IfOk result (λ spots. spots.items ≡ map named_spot places.now) }
{
    let mut spots = Vec::with_capacity(alloc, places.len())?;
    for place in places {
        spots.push(named_spot(*place))?;
    }
    Ok(spots)
}

/// The spot of a place: the word there, executed at the address at which a program reaches it.
pub(crate) fn named_spot(place: (Bank, Offset)) -> Spot
    ensures { result ≡ named_spot place }
{
    let (bank, offset) = place;
    Spot {
        bank,
        address: window(Linear::Fixed(bank, offset)),
        how: PLAIN,
    }
}
