//! Sets of spots.

ghost use Rattle.std.specs.Prelude.{◌≡◌, IfOk, not};
ghost use Rattle.reach.specs.Inside.Seen.{IsNothing, marks_by};
ghost use Rattle.reach.specs.Marks.{IsSpot, has};

use crate::spot::{SPOTS, Spot};
use std::alloc::{AllocError, Global};
use std::marker::Model;

/// A set of spots.
#[derive(Drop)]
pub struct Marks {
    // Of each spot by its number whether it is in the set.
    marks: Vec<bool>,
}

impl Model for Marks {
    ghost use Rattle.std.specs.Prelude.{◌≡◌, Bool, List, vec_len};
    ghost use Rattle.reach.specs.Marks.{spots};

    ghost Value = { List Bool };

    ghost view = { λ m. m.marks.items };

    ghost invariant = { λ m. vec_len m.marks ≡ spots };
}

impl Marks {
    /// No spots. All memory is taken here.
    pub(crate) fn nothing(alloc: Global) -> Result<Marks, AllocError>
        ensures { IfOk result (λ marks. IsNothing marks) }
    {
        let mut marks = Vec::with_capacity(alloc, SPOTS)?;
        marks.resize(SPOTS, false)?;
        Ok(Marks { marks })
    }

    /// Whether a spot is in the set.
    pub fn has(&self, spot: Spot) -> bool
        ensures { result ≡ has self.now spot }
    {
        self.marks[spot.number()]
    }

    /// A spot is in the set from now on. Answers whether it was not yet.
    pub(crate) fn come_to(&mut self, spot: &Spot) -> bool
        ensures value { self.new ≡ marks_by self.old spot.now }
        ensures new { result ≡ not (has self.old spot.now) }
        ensures is { IsSpot spot.now }
    {
        let number = spot.number();
        if self.marks[number] {
            false
        } else {
            self.marks[number] = true;
            true
        }
    }
}
