//! Sets of cells.

ghost use Rattle.std.specs.Prelude.{◌≡◌};
ghost use Rattle.cpu.specs.Chains.{is_any_in};
ghost use Rattle.std.specs.FinSet.{contains, insert, remove, empty};

use crate::spot::Cell;
use std::marker::Model;

/// How many cells there are.
const CELLS: usize = 0o5000;

/// A set of cells.
#[derive(Drop)]
pub struct CellSet {
    members: [bool; CELLS],
}

impl Model for CellSet {
    ghost use Rattle.std.specs.Ordering.{nat_cmp};
    ghost use Rattle.std.specs.FinSet as set;
    ghost use Rattle.std.specs.Coded.{coded_ℕ};
    ghost use Rattle.cpu.specs.Representation.{marked_cells};

    ghost Value = { set.FinSet nat_cmp };

    ghost coded = { set.code coded_ℕ };

    ghost view = { λ s. marked_cells s.members };
}

impl CellSet {
    /// The set of no cell.
    pub fn new() -> CellSet
        ensures { result ≡ empty }
    {
        CellSet {
            members: [false; CELLS],
        }
    }

    /// Whether a cell is in it.
    #[tactic(auto, using(crate::proofs::CellSets::contains_marked))]
    pub fn contains(&self, cell: Cell) -> bool
        ensures { result ≡ contains self.now cell }
    {
        self.members[usize::from(cell.number())]
    }

    /// Whether one of some cells is in it.
    pub fn has_any(&self, cells: &[Cell]) -> bool
        ensures { result ≡ is_any_in cells.now self.now }
    {
        for index in 0..cells.len() {
            if self.contains(cells[index]) {
                return true;
            }
        }
        false
    }

    /// Puts a cell in.
    #[tactic(auto, using(crate::proofs::CellSets::marked_insert))]
    pub fn insert(&mut self, cell: Cell)
        ensures { self.new ≡ insert self.old cell }
    {
        self.members[usize::from(cell.number())] = true;
    }

    /// Takes a cell out.
    #[tactic(auto, using(crate::proofs::CellSets::marked_remove))]
    pub fn remove(&mut self, cell: Cell)
        ensures { self.new ≡ remove self.old cell }
    {
        self.members[usize::from(cell.number())] = false;
    }
}

impl Default for CellSet {
    fn default() -> CellSet {
        CellSet::new()
    }
}
