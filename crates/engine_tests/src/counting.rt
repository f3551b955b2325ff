//! The outputs of a run, counted by an observer of its calls; the time-travel theorem says what it has counted.

ghost use Rattle.std.specs.Prelude.{◌≡◌, true, IfOk, IsOkAnd, All, length};
ghost use Rattle.cpu.specs.Run.{outs};
ghost use Rattle.replay.specs.Calls.{IsAllowed};
ghost use Rattle.workshop.specs.Inputs.{prepared, scenario_of};
ghost use Rattle.engine_tests.specs.Counting.{AddsNothing};

use cpu::{Input, Machine, Output, Processor};
use replay::{Call, Observer, Refusal, Stop, Watcher};
use std::alloc::Global;
use words::Read;
use workshop::{WorkshopFault, follow_source};

/// An observer that counts what the steps put out, as far as 64 bits go.
#[derive(Drop)]
struct OutputCount {
    count: u64,
}

impl Watcher for OutputCount {
    ghost use Rattle.std.specs.Option.{option_to_list};
    ghost use Rattle.engine_tests.specs.Counting.{CountsOn};

    ghost sees = { λ old output machine ended new. CountsOn old.count (option_to_list output) new.count };

    fn watch(&mut self, output: Option<Output>, _machine: &Machine) -> bool {
        self.went(output);
        false
    }
}

impl Observer for OutputCount {
    ghost use Rattle.engine_tests.specs.Counting.{CountsOn, outputs_with};

    ghost sees = { λ old told new. CountsOn old.count (outputs_with told.1) new.count };

    fn went(&mut self, output: Option<Output>) {
        if output.is_some() {
            self.count = self.count.saturating_add(1);
        }
    }

    fn advanced(&mut self, _k: u64, _stop: Stop) {}

    fn shown(&mut self, _t: u64, _machine: &Machine) {}

    fn shown_beside(&mut self, _t: u64, _old: &Machine, _present: &Machine, _over: &Processor) {}

    fn sought(&mut self, _p: u64, _found: Option<u64>) {}

    fn added(&mut self, _cycle: u64, _input: &Input) {}

    fn refused(&mut self, _call: Call, _refusal: Refusal) {}
}

/// How many steps were gone, and how many outputs were counted.
#[derive(Clone, Copy, PartialEq, Eq, Debug, Drop)]
pub struct Counted {
    /// The steps.
    pub steps: u64,
    /// The outputs.
    pub outputs: u64,
}

/// Makes these calls of a session over the program of a source, and counts the outputs: those of the reference run up
/// to the step to which the session has come, however the calls show its earlier steps and search them.
pub fn count_outputs<S: Read, F: Read>(
    alloc: Global,
    source: &mut S,
    feed: &mut F,
    calls: &[Call],
) -> Result<Counted, WorkshopFault>
    requires allowed { All IsAllowed calls.now }
    requires no_input { All AddsNothing calls.now }
    ensures { S.told ≡ true → F.told ≡ true
        → IfOk result (λ c. IsOkAnd (prepared (S.left source.old) (F.left feed.old))
        (λ l. c.outputs ≡ length (outs (scenario_of l) c.steps))) }
{
    let mut observer = OutputCount { count: 0 };
    let is_odd = |machine: &Machine| machine.cycles() % 2 == 1;
    match follow_source(alloc, source, feed, calls, &is_odd, &mut observer) {
        Ok(steps) => Ok(Counted {
            steps,
            outputs: observer.count,
        }),
        Err(fault) => Err(fault),
    }
}

#[cfg(test)]
mod tests {
    use super::*;
    use crate::sources::FIVE_PLUS_FIVE;
    use std::test::Fail;

    #[test]
    fn outputs_counted_once(rt: HostRuntime) -> Result<(), Fail> {
        let (mut source, mut feed) = (FIVE_PLUS_FIVE, b"".as_slice());
        let mut calls = [Call::Forward; 24];
        calls[5] = Call::Show(2);
        calls[6] = Call::Show(4);
        calls[11] = Call::WithPresent(3);
        calls[17] = Call::SeekBack(9);
        calls[20] = Call::Advance(100_000);
        calls[22] = Call::Advance(0);
        let counted = count_outputs(rt.alloc(), &mut source, &mut feed, &calls);
        assert!(rt;
            counted
                == Ok(Counted {
                    steps: 100_018,
                    outputs: 20_003,
                })
        );
        Ok(())
    }
}
