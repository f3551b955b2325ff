//! What a trial looks at while it goes on, and what it comes to beside the run without it.

ghost use Rattle.std.specs.Prelude.{◌≡◌, ◌+◌, ◌^◌, ◌≤◌, ℕ, Bool, List, true, IfOk, OnOk, if◌then◌else◌};
ghost use Rattle.words.specs.Devices.{Writes, one_more};
ghost use Rattle.cpu.specs.Next.{next};
ghost use Rattle.cpu.specs.State.{FitsRun, State};
ghost use Rattle.whatif.specs.Failing.{has_write_failed};
ghost use Rattle.whatif.specs.Looked.{More, step_more};
ghost use Rattle.whatif.specs.declared.span.Span.{Span};

use crate::fault::{Refused, TrialFault};
use crate::going::Going;
use crate::span::Span;
use cpu::{Machine, Processor};
use std::alloc::Global;
use words::Write;

/// What is seen of the steps of a run: what it puts out, or its notes.
pub(crate) trait Seen: Drop {
    /// Beside what a step is looked at.
    type Beside;

    /// What a trial comes to.
    type Came: Drop;

    /// How trials are told.
    type Way: Copy;

    /// Of no step.
    ghost begins: { Self };

    /// With a step more.
    ghost more: { Self.Beside → More Self };

    /// What a trial comes to, by the end of the run without it, and its own.
    ghost comes: { State → Self → State → Self → Self.Came };

    /// Whether a trial at a cycle comes to what those of a span do.
    ghost joins_by: { Self.Way → Span Self.Came → ℕ → Self.Came → Bool };

    /// What is told of a span.
    ghost tells: { Self.Way → Span Self.Came → List ℕ };

    /// Of no step.
    fn none(alloc: Global) -> Self
        ensures { result ≡ begins };

    /// The same again.
    fn again(&self, alloc: Global) -> Result<Self, Refused>
        ensures { IfOk result (λ copy. copy ≡ self.now) };

    /// Makes a step, and looks at it.
    fn look(
        &mut self,
        beside: &Self::Beside,
        processor: &mut Processor,
        machine: &mut Machine,
    ) -> Result<(), Refused>
        requires cycles { machine.old.cycles ≤ 2 ^ 62 }
        requires fits { FitsRun processor.old.scenario machine.old }
        ensures scenario { processor.new.scenario ≡ processor.old.scenario }
        ensures state { machine.new ≡ (next processor.old.scenario machine.old).0 }
        ensures seen { OnOk result (self.new
            ≡ step_more (more beside.now) processor.old.scenario machine.old self.old) }
        ensures meter { processor.new.meter ≤ processor.old.meter + 1 };

    /// What a run comes to, beside the one without a trial.
    fn compare(
        alloc: Global,
        without: &Going<Self>,
        going: Going<Self>,
    ) -> Result<Self::Came, Refused>
        ensures { IfOk result (λ came. came ≡ comes without.now.machine without.now.seen going.machine going.seen) };

    /// Whether a trial at a cycle comes to what those of a span do.
    fn joins(told: Self::Way, span: &Span<Self::Came>, cycle: u64, came: &Self::Came) -> bool
        ensures { result ≡ joins_by told span.now cycle came.now };

    /// Tells the trials of a span.
    fn write_span<W: Write>(
        told: Self::Way,
        span: &Span<Self::Came>,
        out: &mut W,
    ) -> Result<(), TrialFault>
        ensures written { W.told ≡ true → Writes (W.written out.old) (W.written out.new) (tells told span.now) result }
        ensures failures { W.failures out.new ≡
            (if has_write_failed result then one_more (W.failures out.old) else W.failures out.old) };
}
