//! A table of stretches.

ghost use Rattle.std.specs.Prelude.{◌≡◌, ◌<◌, ◌≤◌, ◌^◌, IfOk, get_or, length, replicate, set, true};
ghost use Rattle.delays.specs.Stretches.{better, no_best};

use crate::mark::{Best, NO_BEST, Stretch, improve};
use std::alloc::{AllocError, Global};
use std::marker::Model;

/// The stretches of each row: how many, and the longest.
#[derive(Drop)]
pub(crate) struct Table {
    bests: Vec<Best>,
}

impl Model for Table {
    ghost use Rattle.std.specs.Prelude.{List};
    ghost use Rattle.delays.specs.declared.mark.Best.{Best as OfRow};

    ghost Value = { List OfRow };

    ghost view = { λ t. t.bests.items };
}

impl Table {
    /// So many rows of no stretch. All memory is taken here.
    pub(crate) fn new(alloc: Global, rows: usize) -> Result<Table, AllocError>
        ensures { IfOk result (λ table. table ≡ replicate rows no_best) }
    {
        let mut bests = Vec::with_capacity(alloc, rows)?;
        bests.resize(rows, NO_BEST)?;
        Ok(Table { bests })
    }

    /// The stretches of a row.
    pub(crate) fn best(&self, row: usize) -> Best
        requires { row < length self.now }
        ensures { result ≡ get_or self.now row no_best }
    {
        self.bests[row]
    }

    /// Whether a row has no stretch.
    pub(crate) fn is_empty(&self, row: usize) -> bool
        requires { row < length self.now }
        ensures { result ≡ true → (get_or self.now row no_best).count ≡ 0 }
    {
        self.bests[row].count == 0
    }

    /// A stretch more.
    pub(crate) fn add(&mut self, row: usize, stretch: &Stretch)
        requires within { row < length self.old }
        requires small { (get_or self.old row no_best).count ≤ 2 ^ 62 }
        ensures { self.new ≡ set self.old row (better (get_or self.old row no_best) stretch.now) }
    {
        improve(&mut self.bests[row], stretch);
    }
}
