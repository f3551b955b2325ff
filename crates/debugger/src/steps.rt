//! Commands that make new steps.

ghost use Rattle.std.specs.Prelude.{◌≡◌, ◌+◌, ◌≤◌, ◌++◌, true};
ghost use Rattle.words.specs.Devices.{Writes, failures_after};
ghost use Rattle.commands.specs.declared.command.Command.TheVariants as command;
ghost use Rattle.commands.specs.declared.command.ParsedLine.TheVariants.{Known};
ghost use Rattle.debugger.specs.History.{history};
ghost use Rattle.debugger.specs.Replies.{ending_line, at_line_of};
ghost use Rattle.debugger.specs.Executions.{desk, Executes};
ghost use Rattle.debugger.specs.Desks.{standing, Looks, HasServed};

use crate::desk::Desk;
use crate::ending::Ending;
use crate::growing::grow;
use crate::manner::Manner;
use crate::texts::ending_and_at_line;
use commands::Breakpoints;
use replay::Keeper;
use words::{Write, WriteFailed, write_all};

impl<'a, K: Keeper> Desk<'a, K> {
    /// `step`: so many steps on from the position.
    pub(crate) fn step<W: Write>(
        &mut self,
        manner: Manner,
        steps: u64,
        out: &mut W,
    ) -> Result<(), WriteFailed>
        ensures executes { W.told ≡ true → Executes manner K.may_refuse
            (standing self.old) (Known (command.Step steps))
            (standing self.new) (W.written out.old) (W.written out.new) result }
        ensures served { HasServed 3 self.old self.new }
        ensures failures { W.failures out.new ≡ failures_after (W.failures out.old) result }
    {
        let more = steps.saturating_sub(self.session.steps() - self.position);
        let ending = grow(
            self.session,
            self.tail,
            &Breakpoints::new(),
            more,
            self.quiet,
            out,
        )?;
        self.position += steps.min(self.session.steps() - self.position);
        self.tell_ending(manner, ending, out)
    }

    /// `run`: so many steps on from the present, up to a breakpoint.
    pub(crate) fn run<W: Write>(
        &mut self,
        manner: Manner,
        steps: u64,
        out: &mut W,
    ) -> Result<(), WriteFailed>
        ensures executes { W.told ≡ true → Executes manner K.may_refuse
            (standing self.old) (Known (command.Run steps))
            (standing self.new) (W.written out.old) (W.written out.new) result }
        ensures served { HasServed 3 self.old self.new }
        ensures failures { W.failures out.new ≡ failures_after (W.failures out.old) result }
    {
        let ending = grow(
            self.session,
            self.tail,
            &self.breakpoints,
            steps,
            self.quiet,
            out,
        )?;
        self.position = self.session.steps();
        self.tell_ending(manner, ending, out)
    }

    /// Writes how steps ended, and the line of the position.
    #[tactic(auto, unfolding(crate::specs::History::history))]
    pub(crate) fn tell_ending<W: Write>(
        &mut self,
        manner: Manner,
        ending: Ending,
        out: &mut W,
    ) -> Result<(), WriteFailed>
        ensures written { W.told ≡ true → Writes (W.written out.old) (W.written out.new)
            (ending_line ending ++ at_line_of manner self.old.position
            ((history self.old.session.now.scenario).after self.old.position)) result }
        ensures looked { Looks self.old.session.now.n self.old self.new }
        ensures failures { W.failures out.new ≡ failures_after (W.failures out.old) result }
    {
        match self.session.show(self.position) {
            Ok(machine) => {
                let text = ending_and_at_line(manner, ending, self.position, machine);
                write_all(out, text.as_slice())
            }
            Err(_) => unreachable!(),
        }
    }
}
