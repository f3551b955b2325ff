//! How many steps a program makes until it idles.

ghost use Rattle.std.specs.Prelude.{◌≡◌, ◌+◌, ◌-◌, ◌≤◌, ◌<◌, ◌^◌, length};
ghost use Rattle.std.specs.Option.{option_to_list};
ghost use Rattle.cpu.specs.Next.{next};
ghost use Rattle.cpu.specs.State.{FitsRun};
ghost use Rattle.idle.specs.Idling.{steps_until_idle};

use crate::checkpoint::Checkpoint;
use cpu::{Machine, Processor, make_step};

/// How many steps a run from the start has that ends where the program idles, or after so many. It makes these steps,
/// and takes no memory.
///
/// A program idles after a step where the machine is, but for its cycles, that after the last step before whose number
/// is a power of two, no input was to come since then, and nothing was put out since then: it goes on in the same loop
/// for ever.
pub fn steps_until_idle(processor: &mut Processor, most: u64) -> u64
    requires { most ≤ 2 ^ 40 - 2 }
    ensures steps { result ≡ steps_until_idle processor.old.scenario most }
    ensures within { result ≤ most }
    ensures some { 0 < most → 0 < result }
    ensures scenario { processor.new.scenario ≡ processor.old.scenario }
    ensures once { processor.new.meter ≤ processor.old.meter + result }
{
    let mut machine = Machine::start();
    let mut kept = Checkpoint::start(processor);
    let mut outputs = 0;
    for done in 0..most {
        outputs += step_and_count(processor, &mut machine);
        if kept.is_again(&machine, outputs) {
            return done + 1;
        }
        kept.renew(processor, &machine, done + 1, outputs);
    }
    most
}

/// Makes a step, and answers how many words it puts out.
fn step_and_count(processor: &mut Processor, machine: &mut Machine) -> u64
    requires cycles { machine.old.cycles ≤ 2 ^ 62 }
    requires fits { FitsRun processor.old.scenario machine.old }
    ensures scenario { processor.new.scenario ≡ processor.old.scenario }
    ensures state { machine.new ≡ (next processor.old.scenario machine.old).0 }
    ensures fits { FitsRun processor.new.scenario machine.new }
    ensures count { result ≡ length (option_to_list (next processor.old.scenario machine.old).1) }
    ensures few { result ≤ 1 }
    ensures meter { processor.new.meter ≤ processor.old.meter + 1 }
{
    match make_step(processor, machine) {
        Some(_) => 1,
        None => 0,
    }
}
