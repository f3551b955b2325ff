//! What is asked of flows: which cells they write, and from what comes what one of these holds.

ghost use Rattle.std.specs.Prelude.{◌≡◌, ◌+◌, ◌-◌, ◌≤◌, [], ◌∷◌, ◌++◌, length};
ghost use Rattle.cpu.specs.declared.spot.Spot.{Spot};
ghost use Rattle.cpu.specs.Links.{place_cells};
ghost use Rattle.cpu.specs.Trails.{gathered, passed, source_spots, untouched};

use crate::flows::Sink;
use crate::source::{Source, is_of_place};
use crate::spot::{Cell, Spot};
use arrayvec::ArrayVec;
use space::{Chan, Eras};
use std::marker::Model;

/// The cells that flows write, in their order.
#[derive(Drop)]
pub(crate) struct Targets {
    cells: ArrayVec<Cell, 10>,
}

impl Model for Targets {
    ghost use Rattle.std.specs.Prelude.{List, ℕ};

    ghost Value = { List ℕ };

    ghost view = { λ t. t.cells.items };
}

impl Targets {
    /// No cells.
    pub(crate) fn none() -> Targets
        ensures { result ≡ [] }
    {
        Targets {
            cells: ArrayVec::new(),
        }
    }

    /// The cells.
    pub(crate) fn into_cells(self) -> ArrayVec<Cell, 10>
        ensures { result.items ≡ self }
    {
        self.cells
    }
}

impl Sink for Targets {
    ghost after = { gathered };

    ghost room = { λ cells. 10 - length cells };

    #[inline(always)]
    fn place(&mut self, place: Eras, from: Source) {
        let _from = from;
        if place == Eras::BB {
            self.cells.push(Cell::of_place(Eras::FB));
            self.cells.push(Cell::of_place(Eras::EB));
        } else if place != Eras::ZERO {
            self.cells.push(Cell::of_place(place));
        }
    }

    #[inline(always)]
    fn channel(&mut self, channel: Chan, from: Source) {
        let _from = from;
        self.cells.push(Cell::of_channel(channel));
    }
}

/// The trail of a cell, as one flow follows another: from what comes what it holds.
#[derive(Drop)]
pub(crate) struct Trail {
    cell: Cell,
    from: ArrayVec<Spot, 6>,
}

impl Model for Trail {
    ghost use Rattle.cpu.specs.Trails.{Trace};

    ghost Value = { Trace };

    ghost view = { λ t. record { cell = t.cell; from = t.from.items } };
}

impl Trail {
    /// The trail of a cell before any flow.
    pub(crate) fn new(cell: Cell) -> Trail
        ensures { result ≡ untouched cell }
    {
        let mut from = ArrayVec::new();
        from.push(Spot::Cell(cell));
        Trail { cell, from }
    }

    /// From what comes what the cell holds.
    pub(crate) fn into_from(self) -> ArrayVec<Spot, 6>
        ensures { result.items ≡ self.from }
    {
        self.from
    }

    // It comes from a source.
    fn come_from(&mut self, source: Source)
        ensures cell { self.new.cell ≡ self.old.cell }
        ensures from { self.new.from ≡ source_spots source }
    {
        self.from = ArrayVec::new();
        source.push_to(&mut self.from);
    }
}

impl Sink for Trail {
    ghost after = { passed };

    ghost room = { λ _. 10 };

    fn place(&mut self, place: Eras, from: Source) {
        if is_of_place(self.cell, place) {
            self.come_from(from);
        }
    }

    fn channel(&mut self, channel: Chan, from: Source) {
        if self.cell == Cell::of_channel(channel) {
            self.come_from(from);
        }
    }
}
