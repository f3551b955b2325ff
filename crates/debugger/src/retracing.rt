//! `trace` and `say`: the last steps, a line each.

ghost use Rattle.std.specs.Prelude.{◌≡◌, ◌-◌, ◌*◌, ◌≤◌, min, true};
ghost use Rattle.words.specs.Devices.{Writes, failures_after};
ghost use Rattle.debugger.specs.Retracing.{traced_text};
ghost use Rattle.replay.specs.Retraced.{HasRetraced};
ghost use Rattle.debugger.specs.Desks.{Looks};

use crate::desk::Desk;
use cpu::{Machine, Processor};
use replay::{Keeper, StepWriter};
use say::{LineForm, tell_step};
use symbols::Symbols;
use words::{Write, WriteFailed};

/// What writes the line of a step, in a form and with symbols.
#[derive(Clone, Copy, Drop)]
struct LineWriter<'a> {
    form: LineForm,
    symbols: &'a Symbols,
}

impl<'a> StepWriter for LineWriter<'a> {
    ghost use Rattle.say.specs.Said.{told_line};

    ghost text = { λ w scenario number s. told_line w.form w.symbols.now scenario number s };

    fn write_step<W: Write>(
        &self,
        processor: &mut Processor,
        machine: &mut Machine,
        number: u64,
        out: &mut W,
    ) -> Result<(), WriteFailed> {
        tell_step(self.form, self.symbols, processor, machine, number, out)
    }
}

impl<'a, K: Keeper> Desk<'a, K> {
    /// `trace` and `say`: the lines of the last so many steps up to the position.
    pub(crate) fn trace<W: Write>(
        &mut self,
        form: LineForm,
        steps: u64,
        out: &mut W,
    ) -> Result<(), WriteFailed>
        ensures writes { W.told ≡ true → Writes (W.written out.old) (W.written out.new)
            (traced_text form self.old.symbols.now self.old.session.now.scenario self.old.position steps) result }
        ensures looked { Looks (2 * self.old.session.now.n) self.old self.new }
        ensures retraced { HasRetraced self.old.session.now (self.old.position - min steps self.old.position)
            (min steps self.old.position) self.new.session.now }
        ensures failures { W.failures out.new ≡ failures_after (W.failures out.old) result }
    {
        let count = steps.min(self.position);
        self.session.retrace(
            &LineWriter {
                form,
                symbols: self.symbols,
            },
            self.position - count,
            count,
            out,
        )
    }
}
