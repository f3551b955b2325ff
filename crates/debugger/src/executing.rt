//! What is done for a request.

ghost use Rattle.std.specs.Prelude.{◌≡◌, ◌≤◌, true};
ghost use Rattle.words.specs.Devices.{failures_after};
ghost use Rattle.commands.specs.declared.command.ParsedLine.TheVariants.{Known};
ghost use Rattle.replay.specs.View.{HasShown};
ghost use Rattle.debugger.specs.Looks.{request_looks, command_looks};
ghost use Rattle.debugger.specs.Executions.{desk, Executes};
ghost use Rattle.debugger.specs.declared.manner.Manner.TheVariants as manner;
ghost use Rattle.debugger.specs.Desks.{standing, HasServed};

use crate::desk::Desk;
use crate::manner::Manner;
use crate::texts::{symbol_line, text_line};
use commands::{Command, ParsedLine};
use replay::Keeper;
use words::{Write, WriteFailed, write_all};

impl<'a, K: Keeper> Desk<'a, K> {
    /// Does what is asked for, and writes the reply.
    pub(crate) fn answer<W: Write>(
        &mut self,
        request: ParsedLine,
        out: &mut W,
    ) -> Result<(), WriteFailed>
        ensures executes { W.told ≡ true → Executes manner.Plain K.may_refuse
            (standing self.old) request
            (standing self.new) (W.written out.old) (W.written out.new) result }
        ensures served { HasServed 3 self.old self.new }
        ensures looks { request_looks request ≡ true → HasShown self.old.session.now self.old.position
            self.new.session.now }
        ensures failures { W.failures out.new ≡ failures_after (W.failures out.old) result }
    {
        match request {
            ParsedLine::Nothing => Ok(()),
            ParsedLine::TooLong => write_all(out, text_line(b"E51 LONG").as_slice()),
            ParsedLine::Unknown => write_all(out, text_line(b"E50 COMMAND").as_slice()),
            ParsedLine::WrongCounter => write_all(out, text_line(b"E33 COUNTER").as_slice()),
            ParsedLine::Known(command) => self.obey(Manner::Plain, command, out),
        }
    }

    /// Executes a command, and writes its reply.
    pub(crate) fn obey<W: Write>(
        &mut self,
        manner: Manner,
        command: Command,
        out: &mut W,
    ) -> Result<(), WriteFailed>
        ensures executes { W.told ≡ true → Executes manner K.may_refuse
            (standing self.old) (Known command)
            (standing self.new) (W.written out.old) (W.written out.new) result }
        ensures served { HasServed 3 self.old self.new }
        ensures looks { command_looks command ≡ true → HasShown self.old.session.now self.old.position
            self.new.session.now }
        ensures failures { W.failures out.new ≡ failures_after (W.failures out.old) result }
    {
        match command {
            Command::Step(steps) => self.step(manner, steps, out),
            Command::Run(steps) => self.run(manner, steps, out),
            Command::Back(steps) => write_all(out, self.back(manner, steps).as_slice()),
            Command::Goto(step) => write_all(out, self.goto(manner, step).as_slice()),
            Command::Seek => write_all(out, self.seek(manner).as_slice()),
            Command::Break(breakpoint) => {
                write_all(out, self.set_breakpoint(breakpoint).as_slice())
            }
            Command::Clear => write_all(out, self.clear().as_slice()),
            Command::Registers => write_all(out, self.registers().as_slice()),
            Command::Memory(place) => write_all(out, self.memory(place).as_slice()),
            Command::Channel(channel) => write_all(out, self.channel(channel).as_slice()),
            Command::Last(place) => write_all(out, self.last(place).as_slice()),
            Command::Symbol(value) => write_all(out, symbol_line(value).as_slice()),
            Command::Changed(step) => write_all(out, self.changed(step).as_slice()),
            Command::Tail => write_all(out, self.tail.text().as_slice()),
            Command::Add(cycle, input) => { write_all(out, self.add(cycle, input).as_slice()) }
            Command::Quit => Ok(()),
        }
    }
}
