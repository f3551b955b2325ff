//! What a run executes is reached. Each law is the contract of a call that does nothing.

ghost use Rattle.std.specs.Prelude.{◌≡◌, ℕ, List};
ghost use Rattle.reach.specs.Runs.{RunIsCovered, StepIsCovered};
ghost use Rattle.reach.specs.declared.spot.Spot.{Spot};

use cpu::{Machine, Processor};

/// A step that is told leads from what is reached to what is reached, from any roots that have the vectors.
pub fn step_is_covered(processor: &Processor, machine: &Machine)
    ensures { (roots : List Spot) → StepIsCovered processor.now.scenario roots machine.now }
{
    let _processor = processor;
    let _machine = machine;
}

/// Each word of fixed memory that a run executes is reached, where each step is told, or leads to what is reached.
pub fn run_is_covered(processor: &Processor)
    ensures { (roots : List Spot) (n : ℕ) → RunIsCovered processor.now.scenario roots n }
{
    let _processor = processor;
}
