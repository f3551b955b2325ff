//! The first root from which a way leads to each word.

ghost use Rattle.std.specs.Prelude.{◌≡◌, ◌+◌, ◌*◌, ◌<◌, ◌≤◌, ◌^◌, ◌++◌, [], ◌∷◌, IfOk, List, OnOk, length, map, min, ℕ};
ghost use Rattle.cpu.specs.State.{Scenario};
ghost use Rattle.rope.specs.Places.{Words};
ghost use Rattle.reach.specs.Executed.{HasExecuted};
ghost use Rattle.reach.specs.Inside.Rooted.{AreRooted, HaveSame, first_all, first_by};
ghost use Rattle.reach.specs.Inside.Seen.{Agree};
ghost use Rattle.reach.specs.Marks.{IsSpot, spots};
ghost use Rattle.reach.specs.Roots.{ShowsRoots, WayRoot, all_roots, no_root, place_root, program_roots, vector_places};
ghost use Rattle.reach.specs.Ways.{Among};

use crate::executed::Executed;
use crate::marks::Marks;
use crate::named::named_spot;
use crate::search::{come_to_all, explore};
use crate::spot::{SPOTS, Spot};
use rope::Rope;
use space::{Bank, Offset};
use std::alloc::{AllocError, Global};
use std::marker::Model;

/// Stands for a spot to which no root leads.
pub(crate) const NO_ROOT: usize = usize::MAX;

/// The first root from which a way leads to each word: the vectors one by one, then all that a run executes, then the
/// places that a program names one by one.
#[derive(Drop)]
pub struct Roots {
    // What is shown of each root, and of each spot by its number that of its root.
    pub(crate) places: Vec<Option<(Bank, Offset)>>,
    pub(crate) firsts: Vec<usize>,
}

impl Model for Roots {
    ghost use Rattle.std.specs.Prelude.{◌≡◌, vec_len};
    ghost use Rattle.reach.specs.Marks.{spots};
    ghost use Rattle.reach.specs.Roots.{Rooting};

    ghost Value = { Rooting };

    ghost view = { λ r. record { places = r.places.items; firsts = r.firsts.items } };

    ghost invariant = { λ r. vec_len r.firsts ≡ spots };
}

impl Roots {
    /// Those of a program without a run: the vectors, and the places that it names.
    pub fn of_program(
        alloc: Global,
        rope: &Rope,
        places: &[(Bank, Offset)],
    ) -> Result<Roots, AllocError>
        ensures { IfOk result (λ roots. ShowsRoots rope.now (program_roots places.now) roots) }
    {
        let mut search = RootSearch::new(alloc)?;
        search.take_places(rope, &vector_places())?;
        search.take_places(rope, places)?;
        Ok(search.into_roots())
    }

    /// The same with all that a run has executed.
    pub fn beside_run(
        alloc: Global,
        rope: &Rope,
        executed: &Executed,
        places: &[(Bank, Offset)],
    ) -> Result<Roots, AllocError>
        ensures { IfOk result (λ roots. (scenario : Scenario) (n : ℕ) → HasExecuted scenario n executed.now
            → ShowsRoots rope.now (all_roots scenario n places.now) roots) }
    {
        let mut search = RootSearch::new(alloc)?;
        search.take_places(rope, &vector_places())?;
        search.take(rope, None, executed.in_order())?;
        search.take_places(rope, places)?;
        Ok(search.into_roots())
    }
}

// What is known while roots are taken.
#[derive(Drop)]
struct RootSearch {
    marks: Marks,
    order: Vec<Spot>,
    firsts: Vec<usize>,
    places: Vec<Option<(Bank, Offset)>>,
}

impl Model for RootSearch {
    ghost use Rattle.std.specs.Prelude.{◌≡◌, vec_len};
    ghost use Rattle.reach.specs.Inside.Rooted.{Rooted};
    ghost use Rattle.reach.specs.Marks.{spots};

    ghost Value = { Rooted };

    ghost view = { λ s. record {
      marks = s.marks;
      order = s.order.items;
      firsts = s.firsts.items;
      places
          = s.places.items;
    } };

    ghost invariant = { λ s. vec_len s.firsts ≡ spots };
}

impl RootSearch {
    // No root is taken.
    fn new(alloc: Global) -> Result<RootSearch, AllocError>
        ensures agree { IfOk result (λ search. Agree search.marks search.order) }
        ensures none { IfOk result (λ search. (words : Words) → AreRooted words [] search) }
    {
        let marks = Marks::nothing(alloc)?;
        let order = Vec::new(alloc);
        let mut firsts = Vec::with_capacity(alloc, SPOTS)?;
        firsts.resize(SPOTS, NO_ROOT)?;
        let places = Vec::new(alloc);
        Ok(RootSearch {
            marks,
            order,
            firsts,
            places,
        })
    }

    // Takes some places as further roots, one after another.
    fn take_places(&mut self, rope: &Rope, places: &[(Bank, Offset)]) -> Result<(), AllocError>
        requires agree { Agree self.old.marks self.old.order }
        ensures agree { OnOk result (Agree self.new.marks self.new.order) }
        ensures rooted { OnOk result ((roots : List WayRoot) → AreRooted rope.now roots self.old
            → AreRooted rope.now (roots ++ map place_root places.now) self.new) }
    {
        for place in places {
            self.take(rope, Some(*place), &[named_spot(*place)])?;
        }
        Ok(())
    }

    // Takes some spots as a further root, of which a place is shown, or none.
    fn take(
        &mut self,
        rope: &Rope,
        place: Option<(Bank, Offset)>,
        spots: &[Spot],
    ) -> Result<(), AllocError>
        requires agree { Agree self.old.marks self.old.order }
        ensures agree { OnOk result (Agree self.new.marks self.new.order) }
        ensures rooted { OnOk result ((roots : List WayRoot) (root : WayRoot) → root.place ≡ place
            → HaveSame spots.now root.spots
            → AreRooted rope.now roots self.old → AreRooted rope.now (roots ++ root ∷ []) self.new) }
    {
        let done = self.order.len();
        come_to_all(&mut self.marks, &mut self.order, spots)?;
        explore(rope, &mut self.marks, &mut self.order, done)?;
        tell_all(&mut self.firsts, self.places.len(), &self.order[done..]);
        self.places.push(place)?;
        Ok(())
    }

    // What is found.
    fn into_roots(self) -> Roots
        ensures { result ≡ record { places = self.places; firsts = self.firsts } }
    {
        Roots {
            places: self.places,
            firsts: self.firsts,
        }
    }
}

// Spots are told by the root of a number, each unless it was told by one before.
fn tell_all(firsts: &mut Vec<usize>, root: usize, order: &[Spot])
    requires each { length firsts.old.items ≡ spots }
    ensures each { length firsts.new.items ≡ spots }
    ensures firsts { firsts.new.items ≡ first_all root firsts.old.items order.now }
{
    for spot in order {
        tell(firsts, root, spot);
    }
}

// A spot is told by the root of a number, unless it was told by one before.
fn tell(firsts: &mut Vec<usize>, root: usize, spot: &Spot)
    requires each { length firsts.old.items ≡ spots }
    ensures each { length firsts.new.items ≡ spots }
    ensures firsts { firsts.new.items ≡ first_by root firsts.old.items spot.now }
{
    let number = spot.number();
    if firsts[number] == NO_ROOT {
        firsts[number] = root;
    }
}

// The places of the vectors.
#[tactic(auto, unfolding(crate::specs::Roots::vector_places))]
fn vector_places() -> [(Bank, Offset); 11]
    ensures { result ≡ vector_places }
{
    [
        vector_place(0),
        vector_place(1),
        vector_place(2),
        vector_place(3),
        vector_place(4),
        vector_place(5),
        vector_place(6),
        vector_place(7),
        vector_place(8),
        vector_place(9),
        vector_place(10),
    ]
}

// The place of the start of a run for 0, else of where an interrupt is entered.
fn vector_place(number: u16) -> (Bank, Offset)
    requires { number ≤ 10 }
    ensures place { result ≡ (2, 4 * number) }
{
    (Bank::try_new(2).unwrap(), Offset::of_low_bits(4 * number))
}
