//! What is kept of a run to find where it comes again.

ghost use Rattle.std.specs.Prelude.{◌≡◌, ◌≤◌, ◌^◌};
ghost use Rattle.cpu.specs.State.{FitsRun};
ghost use Rattle.cpu.specs.Run.{run};
ghost use Rattle.idle.specs.Idling.{checkpoint, is_again, renewed};

use crate::alike::are_alike;
use cpu::{Machine, Processor};

/// The machine after a step.
#[derive(Drop)]
pub(crate) struct Checkpoint {
    /// The number of the step.
    pub(crate) step: u64,
    /// The machine.
    pub(crate) machine: Machine,
    /// Whether an input is still to come then.
    pub(crate) has_input_left: bool,
    /// How many words were put out up to then.
    pub(crate) outputs: u64,
}

impl Checkpoint {
    /// That of the start.
    #[tactic(auto, unfolding(crate::specs::Idling::checkpoint, cpu::specs::Run::run))]
    pub(crate) fn start(processor: &Processor) -> Checkpoint
        ensures { result ≡ checkpoint processor.now.scenario 0 }
    {
        let machine = Machine::start();
        let has_input_left = processor.has_input_left(&machine);
        Checkpoint {
            step: 0,
            machine,
            has_input_left,
            outputs: 0,
        }
    }

    /// Whether a machine is in this state again, with no input to come since then, and nothing put out.
    #[inline(always)]
    pub(crate) fn is_again(&self, machine: &Machine, outputs: u64) -> bool
        ensures { result ≡ is_again self.now machine.now outputs }
    {
        !self.has_input_left && self.outputs == outputs && are_alike(&self.machine, machine)
    }

    /// Keeps the machine after a step, where its number is twice that of this one.
    #[inline(always)]
    pub(crate) fn renew(
        &mut self,
        processor: &Processor,
        machine: &Machine,
        step: u64,
        outputs: u64,
    )
        requires fits { FitsRun processor.now.scenario machine.now }
        requires few { self.old.step ≤ 2 ^ 62 }
        ensures { self.new ≡ renewed processor.now.scenario step machine.now outputs self.old }
    {
        if 2 * self.step <= step {
            self.step = step;
            machine.copy_to(&mut self.machine);
            self.has_input_left = processor.has_input_left(machine);
            self.outputs = outputs;
        }
    }
}
