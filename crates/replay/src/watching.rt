//! Making many steps, each of them watched.

ghost use Rattle.std.specs.Prelude.{◌≡◌, ◌+◌, ◌-◌, ◌^◌, ◌<◌, ◌≤◌, Bool, true, false, Option};
ghost use Rattle.cpu.specs.State.{State, Scenario, FitsRun};
ghost use Rattle.cpu.specs.Next.{next, most_cycles};
ghost use Rattle.cpu.specs.Run.{run};
ghost use Rattle.cpu.specs.declared.output.Output.{Output};
ghost use Rattle.replay.specs.View.{counted, counted_by};
ghost use Rattle.replay.specs.Walked.{Walked};

use cpu::{Machine, Output, Processor};

/// What watches steps as they are made.
///
/// What it makes of a step is its own: it may write, count, or look for a place to end at. Its `sees` says what is
/// known of it before and after a step.
pub trait Watcher {
    /// How it stood before a step, the output of the step, the machine after it, whether it ends there, and how it
    /// stands then.
    ghost sees: { Self → Option Output → State → Bool → Self → Type 0 };

    /// A step was made, and put this out. Answers whether it is the last one.
    fn watch(&mut self, output: Option<Output>, machine: &Machine) -> bool
        ensures { sees self.old output machine.now result self.new };
}

/// What makes steps, and looks at the machine before each and after it.
pub trait Stepper {
    /// How it stood before a step, what runs, the state before the step, whether it ends there, and how it stands then.
    ghost sees: { Self → Scenario → State → Bool → Self → Type 0 };

    /// Makes a step as the processor does. Answers whether it is the last one.
    fn make_step(&mut self, processor: &mut Processor, machine: &mut Machine) -> bool
        requires cycles { machine.old.cycles ≤ most_cycles }
        requires fits { FitsRun processor.old.scenario machine.old }
        ensures processor { processor.new ≡ record processor.old { meter = counted processor.old.meter } }
        ensures state { machine.new ≡ (next processor.old.scenario machine.old).0 }
        ensures sees { sees self.old processor.old.scenario machine.old result self.new };
}

/// What makes steps, and tells a watcher of each.
#[derive(Drop)]
pub(crate) struct Watching<'a, W: Watcher> {
    pub(crate) watcher: &'a mut W,
}

impl<'a, W: Watcher> Stepper for Watching<'a, W> {
    ghost use Rattle.cpu.specs.Next.{next};

    ghost sees = { λ old scenario state ended new. (new.watcher.ghost_name ≡ old.watcher.ghost_name)
        × W.Watcher.sees old.watcher.now (next scenario state).1 (next scenario state).0 ended new.watcher.now };

    #[inline(always)]
    fn make_step(&mut self, processor: &mut Processor, machine: &mut Machine) -> bool {
        let output = processor.step(machine);
        self.watcher.watch(output, machine)
    }
}

/// Makes the steps from `low` up to `high`, or up to the one where the stepper ends. Answers the step where the machine
/// stands then, and whether the stepper ended there.
pub(crate) fn walk<S: Stepper>(
    processor: &mut Processor,
    machine: &mut Machine,
    low: u64,
    high: u64,
    stepper: &mut S,
) -> (u64, bool)
    requires order { low < high }
    requires within { high < 2 ^ 40 }
    requires metered { processor.old.meter < 2 ^ 128 }
    requires stands { machine.old ≡ run processor.old.scenario low }
    ensures past { low < result.0 }
    ensures within { result.0 ≤ high }
    ensures all { result.1 ≡ false → result.0 ≡ high }
    ensures machine { machine.new ≡ run processor.old.scenario result.0 }
    ensures walked { Walked S.sees processor.old.scenario low result.0 result.1 stepper.old stepper.new }
    ensures scenario { processor.new.scenario ≡ processor.old.scenario }
    ensures metered { processor.new.meter < 2 ^ 128 }
    ensures least { counted_by (result.0 - low) processor.old.meter ≤ processor.new.meter }
    ensures most { processor.new.meter + low ≤ processor.old.meter + result.0 }
{
    for at in low..high {
        if stepper.make_step(processor, machine) {
            return (at + 1, true);
        }
    }
    (high, false)
}
