//! From which spots a word comes, or which a step reads.

ghost use Rattle.std.specs.Prelude.{◌≡◌, ◌+◌, ◌≤◌, [], ◌∷◌, ◌++◌};
ghost use Rattle.arrayvec.specs.ArrayVec.{array_vec_len};
ghost use Rattle.cpu.specs.declared.spot.Spot.{Spot};
ghost use Rattle.space.specs.Cells.{lower_accumulator};
ghost use Rattle.cpu.specs.Links.{exchange_flows, is_in, place_cells, place_spots, sources_by, spots};
ghost use Rattle.cpu.specs.Trails.{source_spots};

use crate::spot::{Cell, Spot};
use arrayvec::ArrayVec;
use space::{Chan, Eras, Linear};

/// From which spots a word comes, or which a step reads: six at most. They are worked out where they are asked for
/// alone, since the search for a writer asks for none.
#[derive(Clone, Copy)]
pub(crate) enum Source {
    /// None.
    Nothing,
    /// A place.
    Place(Linear),
    /// Two places.
    Places(Linear, Linear),
    /// A, L, and a place.
    RegistersAndPlace(Linear),
    /// A, L, and two places.
    RegistersAndPair(Eras, Eras),
    /// A with the first place, and L with the second, as DAS adds them.
    Doubles(Eras, Eras),
    /// A channel.
    Channel(Chan),
    /// A, and a channel.
    AndChannel(Chan),
    /// What the second place holds after L and the first were exchanged.
    Exchanged(Eras, Eras),
}

impl Source {
    /// A.
    pub(crate) const A: Source = Source::Place(Linear::Erasable(Eras::A));

    /// An erasable place.
    pub(crate) fn erasable(place: Eras) -> Source
        ensures { source_spots result ≡ place_spots place }
    {
        Source::Place(Linear::Erasable(place))
    }

    /// A register, and a place.
    pub(crate) fn register_and(register: Eras, place: Linear) -> Source
        ensures { source_spots result ≡ place_spots register ++ spots place }
    {
        Source::Places(Linear::Erasable(register), place)
    }

    /// Appends the spots.
    pub(crate) fn push_to<const CAPACITY: usize>(self, to: &mut ArrayVec<Spot, CAPACITY>)
        requires { array_vec_len to.old + 6 ≤ CAPACITY }
        ensures { to.new.items ≡ to.old.items ++ source_spots self }
    {
        match self {
            Source::Nothing => {}
            Source::Place(place) => push_place(to, place),
            Source::Places(first, second) => {
                push_place(to, first);
                push_place(to, second);
            }
            Source::RegistersAndPlace(place) => {
                to.push(A);
                to.push(L);
                push_place(to, place);
            }
            Source::RegistersAndPair(first, second) => {
                to.push(A);
                to.push(L);
                push_erasable(to, first);
                push_erasable(to, second);
            }
            Source::Doubles(high, low) => {
                to.push(A);
                push_erasable(to, high);
                to.push(L);
                push_erasable(to, low);
            }
            Source::Channel(channel) => to.push(Spot::Cell(Cell::of_channel(channel))),
            Source::AndChannel(channel) => {
                to.push(A);
                to.push(Spot::Cell(Cell::of_channel(channel)));
            }
            Source::Exchanged(low, place) => push_exchanged(to, low, place),
        }
    }
}

// A.
const A: Spot = Spot::Cell(Cell::A);

// L.
const L: Spot = Spot::Cell(Cell::L);

/// Whether a cell is one of a place's.
pub(crate) fn is_of_place(cell: Cell, place: Eras) -> bool
    ensures { result ≡ is_in cell (place_cells place) }
{
    let cell = cell.number();
    if place == Eras::BB {
        cell == Eras::FB.number() || cell == Eras::EB.number()
    } else if place == Eras::ZERO {
        false
    } else {
        cell == place.number()
    }
}

/// Appends what is read at a place.
pub(crate) fn push_place<const CAPACITY: usize>(to: &mut ArrayVec<Spot, CAPACITY>, place: Linear)
    requires { array_vec_len to.old + 2 ≤ CAPACITY }
    ensures items { to.new.items ≡ to.old.items ++ spots place }
    ensures len { array_vec_len to.new ≤ array_vec_len to.old + 2 }
{
    match place {
        Linear::Erasable(place) => push_erasable(to, place),
        Linear::Fixed(bank, offset) => to.push(Spot::InRope(bank, offset)),
    }
}

// Appends what is read at an erasable place.
fn push_erasable<const CAPACITY: usize>(to: &mut ArrayVec<Spot, CAPACITY>, place: Eras)
    requires { array_vec_len to.old + 2 ≤ CAPACITY }
    ensures items { to.new.items ≡ to.old.items ++ place_spots place }
    ensures len { array_vec_len to.new ≤ array_vec_len to.old + 2 }
{
    if place == Eras::BB {
        to.push(Spot::Cell(Cell::of_place(Eras::FB)));
        to.push(Spot::Cell(Cell::of_place(Eras::EB)));
    } else if place != Eras::ZERO {
        to.push(Spot::Cell(Cell::of_place(place)));
    }
}

// Appends from what comes what a place holds after L and another were exchanged.
fn push_exchanged<const CAPACITY: usize>(to: &mut ArrayVec<Spot, CAPACITY>, low: Eras, place: Eras)
    requires { array_vec_len to.old + 4 ≤ CAPACITY }
    ensures { to.new.items ≡ to.old.items ++ source_spots (Source.Exchanged low place) }
{
    if place == Eras::BB {
        push_exchanged_cell(to, low, Cell::of_place(Eras::FB));
        push_exchanged_cell(to, low, Cell::of_place(Eras::EB));
    } else if place != Eras::ZERO {
        push_exchanged_cell(to, low, Cell::of_place(place));
    }
}

// The same of a cell.
fn push_exchanged_cell<const CAPACITY: usize>(
    to: &mut ArrayVec<Spot, CAPACITY>,
    low: Eras,
    cell: Cell,
)
    requires { array_vec_len to.old + 2 ≤ CAPACITY }
    ensures items { to.new.items ≡ to.old.items
        ++ sources_by (exchange_flows lower_accumulator low) cell (Spot.Cell cell ∷ []) }
    ensures len { array_vec_len to.new ≤ array_vec_len to.old + 2 }
{
    if is_of_place(cell, low) {
        to.push(L);
    } else if cell == Cell::L {
        push_erasable(to, low);
    } else {
        to.push(Spot::Cell(cell));
    }
}
