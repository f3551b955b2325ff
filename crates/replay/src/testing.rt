//! What is asked of steps.

ghost use Rattle.std.specs.Prelude.{◌≡◌, ℕ, ◌≤◌, Bool, Option, ⊤};
ghost use Rattle.std.specs.Fn.{FnReturnsAt};
ghost use Rattle.cpu.specs.State.{State, Scenario, FitsRun};
ghost use Rattle.cpu.specs.Next.{next, most_cycles};
ghost use Rattle.cpu.specs.Links.{link};
ghost use Rattle.cpu.specs.Chains.{writes_some};
ghost use Rattle.replay.specs.View.{counted};
ghost use Rattle.replay.specs.Found.{found_if};

use cpu::{CellSet, Machine, Processor, make_step};

/// What makes a step, and tests it.
pub trait StepTest {
    /// What it finds, if anything, by what runs and the state before the step.
    ghost finds: { Self → Scenario → State → Option ℕ };

    /// Makes a step as the processor does, and answers what it finds of it.
    fn test_step(&self, processor: &mut Processor, machine: &mut Machine) -> Option<u64>
        requires cycles { machine.old.cycles ≤ most_cycles }
        requires fits { FitsRun processor.old.scenario machine.old }
        ensures processor { processor.new ≡ record processor.old { meter = counted processor.old.meter } }
        ensures state { machine.new ≡ (next processor.old.scenario machine.old).0 }
        ensures found { result ≡ finds self.now processor.old.scenario machine.old };
}

/// What makes a step, and answers what it finds of it: a step test, or a question about what stands before the step or
/// after it.
pub(crate) trait Probe {
    /// Whether it may be asked.
    ghost ready: { Self → Type 0 };

    /// What it may answer, by what runs and the state before the step.
    ghost answers: { Self → Scenario → State → Option ℕ → Type 0 };

    /// Makes a step as the processor does, and answers what it finds of it.
    fn ask(&self, processor: &mut Processor, machine: &mut Machine) -> Option<u64>
        requires ready { ready self.now }
        requires cycles { machine.old.cycles ≤ most_cycles }
        requires fits { FitsRun processor.old.scenario machine.old }
        ensures processor { processor.new ≡ record processor.old { meter = counted processor.old.meter } }
        ensures state { machine.new ≡ (next processor.old.scenario machine.old).0 }
        ensures answers { answers self.now processor.old.scenario machine.old result };
}

/// What a step test finds.
#[derive(Drop)]
pub(crate) struct Tested<'a, T: StepTest> {
    pub(crate) test: &'a T,
}

impl<'a, T: StepTest> Probe for Tested<'a, T> {
    ghost ready = { λ _. ⊤ };

    ghost answers = { λ probe scenario state found. found ≡ T.StepTest.finds probe.test.now scenario state };

    #[inline(always)]
    fn ask(&self, processor: &mut Processor, machine: &mut Machine) -> Option<u64> {
        self.test.test_step(processor, machine)
    }
}

/// Whether something holds of the machine before a step.
#[derive(Drop)]
pub(crate) struct Before<'a, F: Fn(&Machine) -> bool> {
    pub(crate) hit: &'a F,
}

impl<'a, F: Fn(&Machine) -> bool> Probe for Before<'a, F> {
    ghost ready = { λ probe. F.IsAlwaysCallable probe.hit.now };

    ghost answers = { λ probe scenario state found.
        (holds : Bool) × FnReturnsAt F.Fn probe.hit.now state holds × (found ≡ found_if holds) };

    #[inline(always)]
    fn ask(&self, processor: &mut Processor, machine: &mut Machine) -> Option<u64> {
        let holds = (self.hit)(machine);
        make_step(processor, machine);
        found_if(holds)
    }
}

/// Whether something holds of the machine after a step.
#[derive(Drop)]
pub(crate) struct After<'a, F: Fn(&Machine) -> bool> {
    pub(crate) hit: &'a F,
}

impl<'a, F: Fn(&Machine) -> bool> Probe for After<'a, F> {
    ghost ready = { λ probe. F.IsAlwaysCallable probe.hit.now };

    ghost answers = { λ probe scenario state found.
        (holds : Bool) × FnReturnsAt F.Fn probe.hit.now (next scenario state).0 holds × (found ≡ found_if holds) };

    #[inline(always)]
    fn ask(&self, processor: &mut Processor, machine: &mut Machine) -> Option<u64> {
        make_step(processor, machine);
        let holds = (self.hit)(machine);
        found_if(holds)
    }
}

/// Whether a step writes one of some cells.
#[derive(Drop)]
pub(crate) struct Writing<'a> {
    pub(crate) cells: &'a CellSet,
}

impl<'a> Probe for Writing<'a> {
    ghost ready = { λ _. ⊤ };

    ghost answers = { λ probe scenario state found.
        found ≡ found_if (writes_some (link scenario state) probe.cells.now) };

    #[inline(always)]
    fn ask(&self, processor: &mut Processor, machine: &mut Machine) -> Option<u64> {
        let writes = processor.writes_some(machine, self.cells);
        make_step(processor, machine);
        found_if(writes)
    }
}

/// Something is found where the answer is yes, and nothing else is known of it.
#[inline(always)]
fn found_if(holds: bool) -> Option<u64>
    ensures { result ≡ found_if holds }
{
    if holds { Some(0) } else { None }
}
