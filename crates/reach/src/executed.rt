//! What a run executes, and what is reached from there.

ghost use Rattle.std.specs.Prelude.{◌≡◌, ◌≤◌, ◌^◌, ◌++◌, IfOk, OnOk, ℕ};
ghost use Rattle.cpu.specs.Next.{next};
ghost use Rattle.cpu.specs.NextStep.{next_step};
ghost use Rattle.cpu.specs.Run.{run};
ghost use Rattle.cpu.specs.State.{FitsRun, Scenario};
ghost use Rattle.reach.specs.Executed.{HasExecuted, run_roots, spot_executed, spot_fetched, spots_in};
ghost use Rattle.reach.specs.Inside.Seen.{marks_all, order_all};
ghost use Rattle.reach.specs.Marks.{AreReached, IsSpot};
ghost use Rattle.reach.specs.Ways.{Among, vectors};
ghost use Rattle.reach.specs.declared.spot.Spot.{Spot as OfWord};

use crate::marks::Marks;
use crate::search::{come_to, reached, vectors};
use crate::spot::{How, Spot};
use cpu::{Fetched, Machine, NextStep, Processor, make_step};
use rope::Rope;
use space::Linear;
use std::alloc::{AllocError, Global};
use std::marker::Model;

/// The spots that the steps of a run have executed: as a set, and each once, in the order in which they came.
#[derive(Drop)]
pub struct Executed {
    marks: Marks,
    order: Vec<Spot>,
}

impl Model for Executed {
    ghost use Rattle.reach.specs.Executed.{Came};

    ghost Value = { Came };

    ghost view = { λ e. record { marks = e.marks; order = e.order.items } };
}

impl Executed {
    /// None.
    pub fn new(alloc: Global) -> Result<Executed, AllocError>
        ensures { IfOk result (λ executed. (scenario : Scenario) → HasExecuted scenario 0 executed) }
    {
        let marks = Marks::nothing(alloc)?;
        let order = Vec::new(alloc);
        Ok(Executed { marks, order })
    }

    /// Their set.
    pub(crate) fn marks(&self) -> &Marks
        ensures { result.now ≡ self.now.marks }
    {
        &self.marks
    }

    /// Each once, in the order in which they came.
    pub(crate) fn in_order(&self) -> &[Spot]
        ensures { result.now ≡ self.now.order }
    {
        &self.order
    }

    /// Makes more steps of a run of which some are done, and keeps what they execute. What they put out is passed over.
    pub fn make_steps(
        &mut self,
        processor: &mut Processor,
        machine: &mut Machine,
        done: u64,
        stop: u64,
    ) -> Result<(), AllocError>
        requires within { done ≤ stop }
        requires few { stop ≤ 2 ^ 40 }
        requires state { machine.old ≡ run processor.old.scenario done }
        requires executed { HasExecuted processor.old.scenario done self.old }
        ensures scenario { processor.new.scenario ≡ processor.old.scenario }
        ensures state { OnOk result (machine.new ≡ run processor.old.scenario stop) }
        ensures executed { OnOk result (HasExecuted processor.old.scenario stop self.new) }
    {
        for _ in done..stop {
            self.step(processor, machine)?;
        }
        Ok(())
    }

    /// Makes a step, and keeps what it executes. What it puts out is passed over.
    fn step(&mut self, processor: &mut Processor, machine: &mut Machine) -> Result<(), AllocError>
        requires cycles { machine.old.cycles ≤ 2 ^ 62 }
        requires fits { FitsRun processor.old.scenario machine.old }
        ensures scenario { processor.new.scenario ≡ processor.old.scenario }
        ensures state { OnOk result (machine.new ≡ (next processor.old.scenario machine.old).0) }
        ensures marks { OnOk result (self.new.marks
            ≡ marks_all self.old.marks (spots_in
            (spot_executed machine.old (next_step processor.old.scenario machine.old)))) }
        ensures order { OnOk result (self.new.order
            ≡ order_all self.old.marks self.old.order
            (spots_in (spot_executed machine.old (next_step processor.old.scenario machine.old)))) }
        ensures are { OnOk result ((q : OfWord)
            → Among q (spots_in (spot_executed machine.old (next_step processor.old.scenario machine.old)))
            → IsSpot q) }
    {
        let spot = spot_executed(&processor.next_step(machine), machine);
        self.keep(spot)?;
        make_step(processor, machine);
        Ok(())
    }

    /// Keeps a spot, if there is one.
    fn keep(&mut self, spot: Option<Spot>) -> Result<(), AllocError>
        ensures marks { OnOk result (self.new.marks ≡ marks_all self.old.marks (spots_in spot)) }
        ensures order { OnOk result (self.new.order ≡ order_all self.old.marks self.old.order (spots_in spot)) }
        ensures are { OnOk result ((q : OfWord) → Among q (spots_in spot) → IsSpot q) }
    {
        match spot {
            Some(spot) => come_to(&mut self.marks, &mut self.order, &spot),
            None => Ok(()),
        }
    }
}

/// What is reached from where a run starts, from the entries of interrupts, and from all that the run has executed.
pub fn reached_with_run(
    alloc: Global,
    rope: &Rope,
    executed: &Executed,
) -> Result<Marks, AllocError>
    ensures { IfOk result (λ marks. (scenario : Scenario) (n : ℕ) → HasExecuted scenario n executed.now
        → AreReached rope.now (run_roots scenario n) marks) }
{
    let mut roots = Vec::new(alloc);
    roots.extend_from_slice(&vectors())?;
    roots.extend_from_slice(executed.order.as_slice())?;
    reached(alloc, rope, roots.as_slice())
}

/// The spot of the word that a step executes: none in erasable memory, and none of a word that waited.
fn spot_executed(step: &NextStep, machine: &Machine) -> Option<Spot>
    ensures { result ≡ spot_executed machine.now step.now }
{
    match step {
        NextStep::Takes(_) => None,
        NextStep::Enters(_) => None,
        NextStep::Executes(fetched) => spot_fetched(fetched, machine),
    }
}

/// The spot of a word that is fetched.
fn spot_fetched(fetched: &Fetched, machine: &Machine) -> Option<Spot>
    ensures { result ≡ spot_fetched machine.now fetched.now }
{
    if fetched.waited {
        return None;
    }
    match fetched.place {
        Linear::Erasable(_) => None,
        Linear::Fixed(bank, _) => Some(Spot {
            bank,
            address: machine.store().next_address(),
            how: How::Executes(machine.extra(), machine.waiting_sum().is_some()),
        }),
    }
}
