//! The step, once for all who make few of them.

ghost use Rattle.std.specs.Prelude.{◌≡◌, ◌+◌, ◌-◌, ◌<◌, ◌≤◌, ◌^◌, min};
ghost use Rattle.cpu.specs.State.{FitsRun};
ghost use Rattle.cpu.specs.Next.{next, most_cycles};

use crate::machine::Machine;
use crate::output::Output;
use crate::processor::Processor;

/// Makes one step, as the processor does. It is not brought into its callers, since the processor's step is brought
/// into each of its own, and a program is the faster the fewer copies of it stand there.
#[inline(never)]
pub fn make_step(processor: &mut Processor, machine: &mut Machine) -> Option<Output>
    ensures meter { processor.new ≡ record processor.old { meter = min (processor.old.meter + 1) (2 ^ 128 - 1) } }
    ensures growing { processor.old.meter < 2 ^ 128 → processor.old.meter ≤ processor.new.meter }
    ensures step { machine.old.cycles ≤ most_cycles → FitsRun processor.old.scenario machine.old →
        (machine.new, result) ≡ next processor.old.scenario machine.old }
    ensures fits { machine.old.cycles ≤ most_cycles → FitsRun processor.old.scenario machine.old
        → FitsRun processor.old.scenario machine.new }
{
    processor.step(machine)
}
