//! The steps of a chain: what each has written, and what it read for that.

ghost use Rattle.std.specs.Prelude.{◌≡◌, ◌+◌, ◌*◌, ◌≤◌, ◌++◌, length, filter, map};
ghost use Rattle.std.specs.List.{flat_map};
ghost use Rattle.arrayvec.specs.ArrayVec.{array_vec_len};
ghost use Rattle.cpu.specs.State.{FitsRun};
ghost use Rattle.cpu.specs.Chains.{cells_among};
ghost use Rattle.cpu.specs.Links.{link, targets, sources};
ghost use Rattle.cpu.specs.declared.spot.Spot.TheVariants as spot;
ghost use Rattle.origins.specs.Following.{those_in, left_in, same_spot, has_spot, with_spots, reads, with_cells};
ghost use Rattle.origins.specs.Following.{cells_before, cells_of};

use arrayvec::ArrayVec;
use cpu::{Cell, CellSet, Machine, Processor, Spot};

/// The most cells that a step writes.
const MOST_TARGETS: usize = 10;

/// The most spots that a step reads: six for each cell.
const MOST_SPOTS: usize = 60;

/// How many cells there are.
const CELL_COUNT: u16 = 0o5000;

/// Cells that a step writes.
pub type Targets = ArrayVec<Cell, MOST_TARGETS>;

/// Spots that a step reads.
pub type Spots = ArrayVec<Spot, MOST_SPOTS>;

/// Cells, each once.
pub type Cells = ArrayVec<Cell, 0o5000>;

/// A step of a chain.
#[derive(Drop)]
pub struct Link {
    /// The cells that it writes, of those that were followed.
    pub cells: Targets,
    /// What it reads for them.
    pub spots: Spots,
}

/// What the next step of a machine writes of some cells, and what it reads for them. Those from which these come are
/// followed on.
pub fn link_of(processor: &Processor, machine: &Machine, pending: &mut CellSet) -> Link
    requires { FitsRun processor.now.scenario machine.now }
    ensures cells { result.cells.items ≡ those_in (targets (link processor.now.scenario machine.now)) pending.old }
    ensures spots { result.spots.items ≡ reads (link processor.now.scenario machine.now) result.cells.items }
    ensures pending { pending.new ≡ cells_before (link processor.now.scenario machine.now) pending.old }
{
    let cells = take_out(processor.targets(machine).as_slice(), pending);
    let spots = spots_read(processor, machine, cells.as_slice());
    follow(pending, spots.as_slice());
    Link { cells, spots }
}

/// Takes cells out of a set, and answers those that were in it.
fn take_out(cells: &[Cell], pending: &mut CellSet) -> Targets
    requires { length cells.now ≤ 10 }
    ensures taken { result.items ≡ those_in cells.now pending.old }
    ensures left { pending.new ≡ left_in cells.now pending.old }
{
    let mut taken = ArrayVec::new();
    for cell in cells {
        if pending.contains(*cell) {
            pending.remove(*cell);
            taken.push(*cell);
        }
    }
    taken
}

/// What the next step of a machine reads for some cells that it writes, each spot once.
fn spots_read(processor: &Processor, machine: &Machine, cells: &[Cell]) -> Spots
    requires fits { FitsRun processor.now.scenario machine.now }
    requires few { length cells.now ≤ 10 }
    ensures { result.items ≡ reads (link processor.now.scenario machine.now) cells.now }
{
    let mut spots = ArrayVec::new();
    for cell in cells {
        push_spots(&mut spots, processor.sources(machine, *cell).as_slice());
    }
    spots
}

/// Appends spots, but for those that stand already.
fn push_spots(spots: &mut Spots, more: &[Spot])
    requires { array_vec_len spots.old + length more.now ≤ 60 }
    ensures items { spots.new.items ≡ with_spots spots.old.items more.now }
    ensures len { array_vec_len spots.new ≤ array_vec_len spots.old + length more.now }
{
    for spot in more {
        if !has_spot(spots.as_slice(), spot) {
            spots.push(*spot);
        }
    }
}

/// Whether a spot is among some.
fn has_spot(spots: &[Spot], spot: &Spot) -> bool
    ensures { result ≡ has_spot spots.now spot.now }
{
    for other in spots {
        if is_same(other, spot) {
            return true;
        }
    }
    false
}

/// Whether two spots are one.
fn is_same(one: &Spot, other: &Spot) -> bool
    ensures { result ≡ same_spot one.now other.now }
{
    match *one {
        Spot::Cell(cell) => match *other {
            Spot::Cell(same) => cell == same,
            Spot::InRope(..) => false,
        },
        Spot::InRope(bank, offset) => match *other {
            Spot::Cell(_) => false,
            Spot::InRope(same, place) => bank == same && offset == place,
        },
    }
}

/// Puts the cells among some spots into a set.
fn follow(pending: &mut CellSet, spots: &[Spot])
    ensures { pending.new ≡ with_cells pending.old spots.now }
{
    for spot in spots {
        match *spot {
            Spot::Cell(cell) => pending.insert(cell),
            Spot::InRope(..) => {}
        }
    }
}

/// Cells as a set.
pub fn all_among(cells: &[Cell]) -> CellSet
    ensures { result ≡ cells_among (map (λ c. spot.Cell c) cells.now) }
{
    let mut among = CellSet::new();
    let mut left = cells.len();
    while left > 0 {
        left -= 1;
        among.insert(cells[left]);
    }
    among
}

/// The cells among some spots.
pub fn cells_among(spots: &[Spot]) -> CellSet
    ensures { result ≡ cells_among spots.now }
{
    let mut among = CellSet::new();
    let mut left = spots.len();
    while left > 0 {
        left -= 1;
        match spots[left] {
            Spot::Cell(cell) => among.insert(cell),
            Spot::InRope(..) => {}
        }
    }
    among
}

/// The cells of a set, in their order.
pub fn cells_of(pending: &CellSet) -> Cells
    ensures { result.items ≡ cells_of pending.now }
{
    let mut cells = ArrayVec::new();
    for number in 0..CELL_COUNT {
        if let Some(cell) = Cell::try_new(number) {
            if pending.contains(cell) {
                cells.push(cell);
            }
        }
    }
    cells
}
