//! Looking at each state of a run.

ghost use Rattle.std.specs.Prelude.{◌≡◌, ◌+◌, ◌^◌, ◌<◌, ◌≤◌};
ghost use Rattle.cpu.specs.State.{State, Scenario, FitsRun, start};
ghost use Rattle.cpu.specs.Run.{run};
ghost use Rattle.replay.specs.Looked.{Looked};

use crate::showing::Shown;
use cpu::{Machine, Processor, make_step};

/// What looks at states, one after another.
pub trait Onlooker {
    /// How it stood before it saw a state, what runs, the state, and how it stands then.
    ghost sees: { Self → Scenario → State → Self → Type 0 };

    /// Sees the state before a step.
    fn look(&mut self, processor: &Processor, machine: &Machine)
        requires { FitsRun processor.now.scenario machine.now }
        ensures { sees self.old processor.now.scenario machine.now self.new };
}

/// Makes the first `count` steps, and shows an onlooker the state before each.
pub(crate) fn look_on<L: Onlooker>(
    processor: &mut Processor,
    shown: &mut Shown,
    count: u64,
    onlooker: &mut L,
)
    requires within { count < 2 ^ 40 }
    requires metered { processor.old.meter < 2 ^ 128 }
    requires stands { shown.old.machine ≡ start }
    ensures looked { Looked L.sees processor.old.scenario count onlooker.old onlooker.new }
    ensures scenario { processor.new.scenario ≡ processor.old.scenario }
    ensures metered { processor.new.meter < 2 ^ 128 }
    ensures least { processor.old.meter ≤ processor.new.meter }
    ensures most { processor.new.meter ≤ processor.old.meter + count }
    ensures stands { shown.new.machine ≡ run processor.old.scenario shown.new.step }
    ensures there { shown.new.step ≡ count }
{
    for _ in 0..count {
        onlooker.look(processor, &shown.machine);
        make_step(processor, &mut shown.machine);
    }
    shown.step = count;
}
