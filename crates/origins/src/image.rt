//! A run at a step.

ghost use Rattle.std.specs.Prelude.{◌≡◌, ◌+◌, ◌^◌, ◌<◌, ◌≤◌};
ghost use Rattle.cpu.specs.State.{FitsRun, Scenario};
ghost use Rattle.origins.specs.Served.{served_after, served_then};
ghost use Rattle.origins.specs.Walks.{IsOfRun};

use cpu::{Machine, NextStep, Processor, make_step};
use feed::Interrupt;

/// A run after some steps: the machine there, and the interrupt that is served.
#[derive(Drop)]
pub(crate) struct Image {
    pub(crate) machine: Machine,
    pub(crate) served: Option<Interrupt>,
    pub(crate) step: u64,
}

impl Image {
    /// The start of a run.
    pub(crate) fn at_start() -> Image
        ensures of_run { (scenario : Scenario) → IsOfRun scenario result }
        ensures step { result.step ≡ 0 }
    {
        Image {
            machine: Machine::start(),
            served: None,
            step: 0,
        }
    }

    /// The run at a step from here on.
    pub(crate) fn gone_on(&self, processor: &mut Processor, high: u64) -> Image
        requires order { self.now.step ≤ high }
        requires few { high < 2 ^ 40 }
        requires of_run { IsOfRun processor.old.scenario self.now }
        ensures of_run { IsOfRun processor.old.scenario result }
        ensures step { result.step ≡ high }
        ensures scenario { processor.new.scenario ≡ processor.old.scenario }
        ensures once { processor.new.meter + self.now.step ≤ processor.old.meter + high }
    {
        let mut image = self.copied();
        for _ in self.step..high {
            image.make_step(processor);
        }
        image
    }

    /// The same again.
    fn copied(&self) -> Image
        ensures machine { result.machine ≡ self.now.machine }
        ensures served { result.served ≡ self.now.served }
        ensures step { result.step ≡ self.now.step }
    {
        let mut machine = Machine::start();
        self.machine.copy_to(&mut machine);
        Image {
            machine,
            served: self.served,
            step: self.step,
        }
    }

    /// A step on.
    fn make_step(&mut self, processor: &mut Processor)
        requires few { self.old.step < 2 ^ 40 }
        requires of_run { IsOfRun processor.old.scenario self.old }
        ensures of_run { IsOfRun processor.old.scenario self.new }
        ensures step { self.new.step ≡ self.old.step + 1 }
        ensures scenario { processor.new.scenario ≡ processor.old.scenario }
        ensures once { processor.new.meter ≤ processor.old.meter + 1 }
    {
        let served = served_then(processor, &self.machine, self.served);
        make_step(processor, &mut self.machine);
        self.served = served_after(self.machine.inside(), served);
        self.step += 1;
    }
}

/// The interrupt that is served after a step, where one is in service.
fn served_after(inside: bool, served: Option<Interrupt>) -> Option<Interrupt>
    ensures { result ≡ served_after inside served }
{
    if inside { served } else { None }
}

/// The interrupt that is served if the next step leaves one in service.
fn served_then(
    processor: &Processor,
    machine: &Machine,
    served: Option<Interrupt>,
) -> Option<Interrupt>
    requires { FitsRun processor.now.scenario machine.now }
    ensures { result ≡ served_then processor.now.scenario machine.now served }
{
    if machine.inside() {
        return served;
    }
    match processor.next_step(machine) {
        NextStep::Takes(_) => None,
        NextStep::Enters(interrupt) => Some(interrupt),
        NextStep::Executes(_) => None,
    }
}
