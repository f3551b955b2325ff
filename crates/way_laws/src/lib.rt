//! The laws of the way that a run goes: where a step leads, which step is next, and when two runs go the same way. They
//! are contracts of calls that do nothing.
#![tactic(auto)]

ghost use Rattle.std.specs.Prelude.{ℕ};
ghost use Rattle.cpu.specs.State.{State, Scenario};
ghost use Rattle.way_laws.specs.Leading.{IsOnePlace, LeadsToOnePlace};
ghost use Rattle.way_laws.specs.SameWay.{ChainsFixWay, ChainsFixWayFromStart, GuidesChoices, GuidesFixStep};
ghost use Rattle.way_laws.specs.SameWay.{WayDependsOnOrigins};

use cpu::{Machine, Processor};

/// Where a step leads depends on the step, on what it chooses by, and on that from which it sets the banks, and on
/// nothing else.
pub fn step_leads_to_one_place()
    ensures { (one other : Scenario) (s t : State) → LeadsToOnePlace one s other t }
{}

/// Where Z and the banks are the same, Z leads to the same place.
pub fn banks_fix_place(
    processor: &Processor,
    machine: &Machine,
    other_processor: &Processor,
    other: &Machine,
)
    ensures { IsOnePlace processor.now.scenario machine.now other_processor.now.scenario other.now }
{
    let _processor = processor;
    let _machine = machine;
    let _other_processor = other_processor;
    let _other = other;
}

/// Which step is next, and where it leads, depends on the position, on the input that is due, and on the guides, and on
/// nothing else. Among the guides is what the step chooses by.
pub fn guides_fix_step()
    ensures step { (one other : Scenario) (s t : State) → GuidesFixStep one s other t }
    ensures choices { (one other : Scenario) (s t : State) → GuidesChoices one s other t }
{}

/// The way of a run depends on the position from which it goes, on the inputs at its steps, and on the words from which
/// its guides come, and on nothing else.
pub fn way_depends_on_origins()
    ensures { (one other : Scenario) (m n k : ℕ) → WayDependsOnOrigins one m other n k }
{}

/// Two runs whose guides come by the same chains from the same words go the same way, where the same inputs are taken
/// at the same steps, from any two steps in one position on.
pub fn chains_fix_way()
    ensures { (one other : Scenario) (m n k : ℕ) → ChainsFixWay one m other n k }
{}

/// So do they from their start.
pub fn chains_fix_way_from_start()
    ensures { (one other : Scenario) (k : ℕ) → ChainsFixWayFromStart one other k }
{}
