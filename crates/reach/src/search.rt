//! The search for what is reached.

ghost use Rattle.std.specs.Prelude.{◌≡◌, ◌≤◌, IfOk, List, OnOk, length, take, ℕ};
ghost use Rattle.reach.specs.Inside.Seen.{Agree, Explored, marks_all, marks_by, order_all, order_by};
ghost use Rattle.reach.specs.Marks.{AreReached, IsSpot};
ghost use Rattle.reach.specs.Ways.{Among, vector, vectors};
ghost use Rattle.reach.specs.declared.spot.Spot.{Spot};

use crate::marks::Marks;
use crate::spot::{How, Spot};
use crate::ways::{PLAIN, leads};
use rope::Rope;
use space::{Addr12, Bank};
use std::alloc::{AllocError, Global};

/// What is reached from the start of a run and from the entries of interrupts. Each spot is looked at once.
pub fn reached_from_vectors(alloc: Global, rope: &Rope) -> Result<Marks, AllocError>
    ensures { IfOk result (λ marks. AreReached rope.now vectors marks) }
{
    reached(alloc, rope, &vectors())
}

/// What is reached from some spots.
pub(crate) fn reached(alloc: Global, rope: &Rope, roots: &[Spot]) -> Result<Marks, AllocError>
    ensures { IfOk result (λ marks. AreReached rope.now roots.now marks) }
{
    let mut marks = Marks::nothing(alloc)?;
    let mut order = Vec::new(alloc);
    come_to_all(&mut marks, &mut order, roots)?;
    explore(rope, &mut marks, &mut order, 0)?;
    Ok(marks)
}

/// Comes to all to which those lead that were come to, of which so many are done.
pub(crate) fn explore(
    rope: &Rope,
    marks: &mut Marks,
    order: &mut Vec<Spot>,
    first: usize,
) -> Result<(), AllocError>
    requires agree { Agree marks.old order.old.items }
    ensures agree { OnOk result (Agree marks.new order.new.items) }
    ensures longer { OnOk result (length order.old.items ≤ length order.new.items) }
    ensures stays { OnOk result ((n : ℕ) → n ≤ length order.old.items
        → take n order.new.items ≡ take n order.old.items) }
    ensures explored { OnOk result ((roots : List Spot) → Explored rope.now roots marks.old order.old.items first
        → Explored rope.now roots marks.new order.new.items (length order.new.items)) }
{
    let mut done = first;
    while done < order.len() {
        let ways = leads(rope, &order[done]);
        come_to_all(marks, order, ways.as_slice())?;
        done += 1;
    }
    Ok(())
}

/// Comes to some spots, one after another.
pub(crate) fn come_to_all(
    marks: &mut Marks,
    order: &mut Vec<Spot>,
    spots: &[Spot],
) -> Result<(), AllocError>
    ensures marks { OnOk result (marks.new ≡ marks_all marks.old spots.now) }
    ensures order { OnOk result (order.new.items ≡ order_all marks.old order.old.items spots.now) }
    ensures are { OnOk result ((q : Spot) → Among q spots.now → IsSpot q) }
{
    for spot in spots {
        come_to(marks, order, spot)?;
    }
    Ok(())
}

/// Comes to a spot: it is marked, and stands last, unless it was marked already.
pub(crate) fn come_to(
    marks: &mut Marks,
    order: &mut Vec<Spot>,
    spot: &Spot,
) -> Result<(), AllocError>
    ensures marks { OnOk result (marks.new ≡ marks_by marks.old spot.now) }
    ensures order { OnOk result (order.new.items ≡ order_by marks.old order.old.items spot.now) }
    ensures is { IsSpot spot.now }
{
    if marks.come_to(spot) {
        order.push(*spot)?;
    }
    Ok(())
}

/// Where a run starts, and where each interrupt is entered.
#[tactic(auto, unfolding(crate::specs::Ways::vectors))]
pub(crate) fn vectors() -> [Spot; 11]
    ensures { result ≡ vectors }
{
    [
        vector(0),
        vector(1),
        vector(2),
        vector(3),
        vector(4),
        vector(5),
        vector(6),
        vector(7),
        vector(8),
        vector(9),
        vector(10),
    ]
}

/// Where an interrupt is entered; the start of a run for 0.
fn vector(number: u16) -> Spot
    requires { number ≤ 10 }
    ensures { result ≡ vector number }
{
    Spot {
        bank: Bank::try_new(2).unwrap(),
        address: Addr12::of_low_bits(0o4000 + 4 * number),
        how: PLAIN,
    }
}
