//! The command that adds an input.

ghost use Rattle.std.specs.Prelude.{◌≡◌};
ghost use Rattle.commands.specs.declared.command.Command.TheVariants as command;
ghost use Rattle.commands.specs.declared.command.ParsedLine.TheVariants.{Known};
ghost use Rattle.debugger.specs.Executions.{desk, BringsAdding};
ghost use Rattle.debugger.specs.Desks.{standing, IsSame};

use crate::desk::Desk;
use crate::texts::{Text, text_line};
use feed::Input;
use replay::{Keeper, Refusal};

/// The last cycle at which an input may be added.
const GREATEST_CYCLE: u64 = 999_999_999_999_999;

impl<'a, K: Keeper> Desk<'a, K> {
    /// `add`: one input more, at a cycle.
    pub(crate) fn add(&mut self, cycle: u64, input: Input) -> Text
        ensures brings { BringsAdding (standing self.old)
            (Known (command.Add cycle input)) result.items (standing self.new) }
        ensures steps { self.new.session.now.n ≡ self.old.session.now.n }
        ensures meter { self.new.session.now.meter ≡ self.old.session.now.meter }
        ensures same { IsSame self.old self.new }
    {
        if cycle > GREATEST_CYCLE {
            return text_line(b"E50 COMMAND");
        }
        match self.session.add(cycle, input) {
            Ok(()) => text_line(b"ADDED"),
            Err(Refusal::TooEarly) => text_line(b"E42 TOO EARLY"),
            Err(Refusal::TooMany) => text_line(b"E32 TOO MANY"),
            Err(Refusal::NoMemory) => text_line(b"E2 MEMORY"),
            Err(Refusal::StepLimit) => unreachable!(),
            Err(Refusal::NotYet) => unreachable!(),
        }
    }
}
