//! Where numbers stand.

ghost use Rattle.std.specs.Prelude.{◌≡◌, ◌<◌, nat_lt, Some, None, if◌then◌else◌};
ghost use Rattle.cpu.specs.Links.{cell_of_channel, is_in};

use space::{Bank, Chan, Eras, Offset};
use std::marker::Model;

/// A cell: that of an erasable place, or from 04000 on that of a channel. BB and the place that reads as 0 have none of
/// their own, nor have the channels that are L and Q.
#[derive(Clone, Copy, PartialEq, Eq, Debug)]
pub struct Cell {
    number: u16,
}

impl Model for Cell {
    ghost use Rattle.std.specs.Prelude.{ℕ, ◌<◌};

    ghost Value = { ℕ };

    ghost view = { λ c. c.number };

    ghost invariant = { λ c. c.number < 0o5000 };

    ghost inverse = { λ n. record { number = n } };
}

impl Cell {
    /// A.
    pub const A: Cell = Cell { number: 0 };

    /// L.
    pub const L: Cell = Cell { number: 1 };

    /// Z.
    pub const Z: Cell = Cell { number: 5 };

    /// The cell of an erasable place.
    pub fn of_place(place: Eras) -> Cell
        ensures { result ≡ place }
    {
        Cell {
            number: place.number(),
        }
    }

    /// The cell of a channel.
    pub fn of_channel(channel: Chan) -> Cell
        ensures { result ≡ cell_of_channel channel }
    {
        if channel == Chan::L {
            Cell::of_place(Eras::L)
        } else if channel == Chan::Q {
            Cell::of_place(Eras::Q)
        } else {
            Cell {
                number: 0o4000 + channel.number(),
            }
        }
    }

    /// The cell of a number, where it has one.
    pub fn try_new(number: u16) -> Option<Cell>
        ensures { result ≡ (if nat_lt number 0o5000 then Some number else None) }
    {
        if number < 0o5000 {
            Some(Cell { number })
        } else {
            None
        }
    }

    /// Its number.
    pub fn number(self) -> u16
        ensures value { result ≡ self }
        ensures range { result < 0o5000 }
    {
        self.number
    }
}

impl Default for Cell {
    fn default() -> Cell {
        Cell::A
    }
}

/// Where a number stands that a step reads: a cell, or a place of fixed memory.
#[derive(Clone, Copy, PartialEq, Eq, Debug)]
pub enum Spot {
    /// A cell.
    Cell(Cell),
    /// A bank of fixed memory, and an offset in it.
    InRope(Bank, Offset),
}

impl Default for Spot {
    fn default() -> Spot {
        Spot::Cell(Cell::A)
    }
}

/// Whether a cell is among some.
pub(crate) fn is_among(cell: Cell, cells: &[Cell]) -> bool
    ensures { result ≡ is_in cell cells.now }
{
    for index in 0..cells.len() {
        if cells[index] == cell {
            return true;
        }
    }
    false
}
