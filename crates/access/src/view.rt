//! What is counted.

use cpu::Cell;

/// What is counted of a run.
#[derive(Clone, Copy, PartialEq, Eq, Debug, Drop)]
pub enum View {
    /// The reads and writes of each cell, by the level of the step.
    All,
    /// Those of one cell, by the place of the step too.
    One(Cell),
}
