//! Whether a run bears out what is claimed of it.

ghost use Rattle.std.specs.Prelude.{◌≡◌, ◌+◌, ◌-◌, ◌≤◌, ◌<◌, ◌^◌, IfOk, OnOk, map, min};
ghost use Rattle.std.specs.List.{All};
ghost use Rattle.cpu.specs.Next.{next};
ghost use Rattle.cpu.specs.Run.{run};
ghost use Rattle.cpu.specs.State.{FitsRun, start};
ghost use Rattle.expect.specs.Facts.{facts_of};
ghost use Rattle.expect.specs.Watches.{AreFew, ended, judged, noted, settled, started, unseen, watched};

use crate::claim::Stated;
use crate::known::Known;
use crate::watch::Watch;
use cpu::{Machine, Output, Processor, make_step};
use std::alloc::{AllocError, Global};

/// Makes some steps of a run from its start, where the machine stands, each once, and tells of each claim whether they
/// bear it out, and if not where it fails first. Of notes, of what `check` tells and of instructions executed `settle`
/// judges afterwards.
///
/// Memory is taken once, before the first step; where it is refused no step is made.
pub fn judge(
    alloc: Global,
    processor: &mut Processor,
    machine: &mut Machine,
    claims: &[Stated],
    steps: u64,
) -> Result<Vec<Watch>, AllocError>
    requires few { steps ≤ 2 ^ 40 - 2 }
    requires start { machine.old ≡ start }
    ensures judged { IfOk result (λ watches. watches.items ≡ map (judged processor.old.scenario steps) claims.now) }
    ensures end { OnOk result (machine.new ≡ run processor.old.scenario steps) }
    ensures scenario { processor.new.scenario ≡ processor.old.scenario }
    ensures meter { processor.new.meter ≤ processor.old.meter + steps }
{
    let mut watches = watched(alloc, processor, claims)?;
    let mut done = 0;
    while done < steps {
        done += 1;
        step_and_note(processor, machine, &mut watches, done);
    }
    end_all(&mut watches, machine, steps);
    Ok(watches)
}

/// Looks at what is known of a run beside its steps for each claim, where the machine stands at its end.
pub fn settle(watches: Vec<Watch>, known: &Known<'_>, machine: &Machine, steps: u64) -> Vec<Watch>
    ensures { result.items ≡ map (settled (facts_of known.now) machine.now steps) watches.items }
{
    let mut settled = watches;
    settle_all(&mut settled, known, machine, steps);
    settled
}

/// Looks at what is known for each claim.
fn settle_all(watches: &mut [Watch], known: &Known<'_>, machine: &Machine, steps: u64)
    ensures { watches.new ≡ map (settled (facts_of known.now) machine.now steps) watches.old }
{
    for watch in watches.iter_mut() {
        watch.settle(known, machine, steps);
    }
}

/// Some claims at the start of a run.
fn watched(
    alloc: Global,
    processor: &Processor,
    claims: &[Stated],
) -> Result<Vec<Watch>, AllocError>
    ensures { IfOk result (λ watches. watches.items ≡ map (watched processor.now.scenario 0) claims.now) }
{
    let mut watches = unseen(alloc, claims)?;
    let machine = Machine::start();
    start_all(&mut watches, processor, &machine);
    Ok(watches)
}

/// Looks at the start for each claim.
fn start_all(watches: &mut [Watch], processor: &Processor, machine: &Machine)
    requires fits { FitsRun processor.now.scenario machine.now }
    ensures { watches.new ≡ map (started processor.now.scenario machine.now) watches.old }
{
    for watch in watches.iter_mut() {
        watch.start(processor, machine);
    }
}

/// Some claims of a run that has not begun.
fn unseen(alloc: Global, claims: &[Stated]) -> Result<Vec<Watch>, AllocError>
    ensures { IfOk result (λ watches. watches.items ≡ map unseen claims.now) }
{
    claims
        .iter()
        .map(|stated| Watch::new(stated))
        .collect(alloc)
}

/// Makes a step, and looks at it for each claim.
fn step_and_note(processor: &mut Processor, machine: &mut Machine, watches: &mut [Watch], step: u64)
    requires cycles { machine.old.cycles ≤ 2 ^ 62 }
    requires fits { FitsRun processor.old.scenario machine.old }
    requires few { AreFew watches.old }
    ensures scenario { processor.new.scenario ≡ processor.old.scenario }
    ensures state { machine.new ≡ (next processor.old.scenario machine.old).0 }
    ensures watches { watches.new ≡ map (noted processor.old.scenario (next processor.old.scenario machine.old).0
        (next processor.old.scenario machine.old).1 step) watches.old }
    ensures meter { processor.new.meter ≤ processor.old.meter + 1 }
{
    let put = make_step(processor, machine);
    note_all(watches, processor, machine, &put, step);
}

/// Looks at a step for each claim.
fn note_all(
    watches: &mut [Watch],
    processor: &Processor,
    machine: &Machine,
    put: &Option<Output>,
    step: u64,
)
    requires fits { FitsRun processor.now.scenario machine.now }
    requires few { AreFew watches.old }
    ensures { watches.new ≡ map (noted processor.now.scenario machine.now put.now step) watches.old }
{
    for watch in watches.iter_mut() {
        watch.note(processor, machine, put, step);
    }
}

/// Looks at the end for each claim.
fn end_all(watches: &mut [Watch], machine: &Machine, steps: u64)
    ensures { watches.new ≡ map (ended machine.now steps) watches.old }
{
    for watch in watches.iter_mut() {
        watch.end(machine, steps);
    }
}
