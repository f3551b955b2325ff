//! A run on its way, with what is seen of it so far.

ghost use Rattle.std.specs.Prelude.{◌≡◌, ◌+◌, ◌-◌, ◌^◌, ◌<◌, ◌≤◌, IfOk, OnOk};
ghost use Rattle.cpu.specs.Run.{run};
ghost use Rattle.cpu.specs.State.{start};
ghost use Rattle.whatif.specs.Images.{most_images, with_image};
ghost use Rattle.whatif.specs.Looked.{looked};
ghost use Rattle.whatif.specs.Trials.{IsBefore};

use crate::fault::Refused;
use crate::images::Images;
use crate::seen::Seen;
use cpu::{Machine, Processor};
use std::alloc::Global;

/// A run after some steps: the machine there, and what is seen of those after so many.
#[derive(Drop)]
pub(crate) struct Going<S> {
    pub(crate) machine: Machine,
    pub(crate) seen: S,
    pub(crate) from: u64,
    pub(crate) done: u64,
}

impl<S: Seen> Going<S> {
    /// A run of no step.
    pub(crate) fn at_start(alloc: Global, images: &mut Images) -> Going<S>
        requires room { images.old.held < most_images }
        ensures images { images.new ≡ with_image images.old }
        ensures machine { result.machine ≡ start }
        ensures seen { result.seen ≡ S.begins }
        ensures from { result.from ≡ 0 }
        ensures done { result.done ≡ 0 }
    {
        images.take();
        Going {
            machine: Machine::start(),
            seen: S::none(alloc),
            from: 0,
            done: 0,
        }
    }

    /// A run after some steps, of which none is looked at.
    pub(crate) fn after(
        alloc: Global,
        images: &mut Images,
        machine: &Machine,
        done: u64,
    ) -> Going<S>
        requires room { images.old.held < most_images }
        ensures images { images.new ≡ with_image images.old }
        ensures machine { result.machine ≡ machine.now }
        ensures seen { result.seen ≡ S.begins }
        ensures from { result.from ≡ done }
        ensures done { result.done ≡ done }
    {
        images.take();
        let mut copy = Machine::start();
        machine.copy_to(&mut copy);
        Going {
            machine: copy,
            seen: S::none(alloc),
            from: done,
            done,
        }
    }

    /// The same again.
    pub(crate) fn copied(&self, alloc: Global, images: &mut Images) -> Result<Going<S>, Refused>
        requires room { images.old.held < most_images }
        ensures images { OnOk result (images.new ≡ with_image images.old) }
        ensures machine { IfOk result (λ going. going.machine ≡ self.now.machine) }
        ensures seen { IfOk result (λ going. going.seen ≡ self.now.seen) }
        ensures from { IfOk result (λ going. going.from ≡ self.now.from) }
        ensures done { IfOk result (λ going. going.done ≡ self.now.done) }
    {
        let seen = self.seen.again(alloc)?;
        images.take();
        let mut machine = Machine::start();
        self.machine.copy_to(&mut machine);
        Ok(Going {
            machine,
            seen,
            from: self.from,
            done: self.done,
        })
    }

    /// On to a step, each of the steps made once.
    pub(crate) fn go_on(
        &mut self,
        processor: &mut Processor,
        beside: &S::Beside,
        steps: u64,
    ) -> Result<(), Refused>
        requires few { steps ≤ 2 ^ 40 - 2 }
        requires begun { self.old.from ≤ self.old.done }
        requires within { self.old.done ≤ steps }
        requires machine { self.old.machine ≡ run processor.old.scenario self.old.done }
        requires seen { self.old.seen
            ≡ looked S.begins (S.more beside.now) self.old.from processor.old.scenario self.old.done }
        ensures scenario { processor.new.scenario ≡ processor.old.scenario }
        ensures once { processor.new.meter + self.old.done ≤ processor.old.meter + steps }
        ensures from { self.new.from ≡ self.old.from }
        ensures machine { OnOk result (self.new.machine ≡ run processor.old.scenario steps) }
        ensures seen { OnOk result (self.new.seen
            ≡ looked S.begins (S.more beside.now) self.old.from processor.old.scenario steps) }
        ensures done { OnOk result (self.new.done ≡ steps) }
    {
        for _ in self.done..steps {
            self.seen.look(beside, processor, &mut self.machine)?;
        }
        self.done = steps;
        Ok(())
    }

    /// On to the first step with so many cycles, or to the last of some steps.
    pub(crate) fn go_to(
        &mut self,
        processor: &mut Processor,
        beside: &S::Beside,
        cycle: u64,
        steps: u64,
    ) -> Result<(), Refused>
        requires few { steps ≤ 2 ^ 40 - 2 }
        requires begun { self.old.from ≤ self.old.done }
        requires within { self.old.done ≤ steps }
        requires machine { self.old.machine ≡ run processor.old.scenario self.old.done }
        requires seen { self.old.seen
            ≡ looked S.begins (S.more beside.now) self.old.from processor.old.scenario self.old.done }
        requires before { IsBefore processor.old.scenario self.old.done cycle }
        ensures scenario { processor.new.scenario ≡ processor.old.scenario }
        ensures once { OnOk result (processor.new.meter + self.old.done ≤ processor.old.meter + self.new.done) }
        ensures most { processor.new.meter + self.old.done ≤ processor.old.meter + steps }
        ensures within { self.new.done ≤ steps }
        ensures from { self.new.from ≡ self.old.from }
        ensures begun { self.old.done ≤ self.new.done }
        ensures machine { OnOk result (self.new.machine ≡ run processor.old.scenario self.new.done) }
        ensures seen { OnOk result (self.new.seen
            ≡ looked S.begins (S.more beside.now) self.old.from processor.old.scenario self.new.done) }
        ensures before { OnOk result (IsBefore processor.old.scenario self.new.done cycle) }
    {
        let mut done = self.done;
        while done < steps && self.machine.cycles() < cycle {
            self.seen.look(beside, processor, &mut self.machine)?;
            done += 1;
        }
        self.done = done;
        Ok(())
    }
}
