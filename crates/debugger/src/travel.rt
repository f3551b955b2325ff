//! `over` and `out`: on to where a routine or an interrupt returns to.

ghost use Rattle.std.specs.Prelude.{◌≡◌, ◌+◌, ◌-◌, ◌*◌, ◌≤◌, ◌++◌, true, IfSome};
ghost use Rattle.arrayvec.specs.ArrayVec.{array_vec_len};
ghost use Rattle.words.specs.Devices.{failures_after};
ghost use Rattle.cpu.specs.State.{FitsRun};
ghost use Rattle.cpu.specs.Run.{run};
ghost use Rattle.commands.specs.declared.extended.ExtendedLine.TheVariants as asked;
ghost use Rattle.debugger.specs.History.{history};
ghost use Rattle.debugger.specs.Replies.{at_line_of};
ghost use Rattle.debugger.specs.Routines.{over_end, out_end, arrived, routines, next_end, arrival_text};
ghost use Rattle.debugger.specs.Conversation.{to_asked};
ghost use Rattle.debugger.specs.declared.manner.Manner.TheVariants as manner;
ghost use Rattle.debugger.specs.Executions.{desk, Replies, goes_to_end, grows_to_end};
ghost use Rattle.debugger.specs.Desks.{standing, terms, Looks, HasGrown, HasServed};

use crate::desk::Desk;
use crate::ending::Ending;
use crate::growing::grow;
use crate::manner::Manner;
use crate::routines::Calls;
use crate::stops::{Stops, led_to, step_of};
use crate::texts::{Text, number_line, push_at_line, text_line};
use arrayvec::ArrayVec;
use calls::entered;
use commands::{Breakpoint, Breakpoints};
use cpu::{Machine, Processor};
use replay::Keeper;
use words::{Write, WriteFailed, write_all};

impl<'a, K: Keeper> Desk<'a, K> {
    /// `over`: to after the routine that the next instruction enters, or one step on.
    pub(crate) fn go_over<W: Write>(&mut self, steps: u64, out: &mut W) -> Result<(), WriteFailed>
        ensures executes { W.told ≡ true → Replies K.may_refuse (to_asked (terms self.old) (asked.Over steps))
            (standing self.old) (standing self.new) (W.written out.old) (W.written out.new) result }
        ensures served { HasServed 3 self.old self.new }
        ensures failures { W.failures out.new ≡ failures_after (W.failures out.old) result }
    {
        let (end, cycles) = self.over_end();
        self.go_to(&end, cycles, steps, out)
    }

    /// `out`: to where the routine or the interrupt returns to that is in progress.
    pub(crate) fn go_out<W: Write>(&mut self, steps: u64, out: &mut W) -> Result<(), WriteFailed>
        ensures executes { W.told ≡ true → Replies K.may_refuse (to_asked (terms self.old) (asked.Out steps))
            (standing self.old) (standing self.new) (W.written out.old) (W.written out.new) result }
        ensures served { HasServed 4 self.old self.new }
        ensures failures { W.failures out.new ≡ failures_after (W.failures out.old) result }
    {
        let (end, cycles) = self.out_end();
        match end {
            Some(end) => self.go_to(&end, cycles, steps, out),
            None => write_all(out, b"NONE\n"),
        }
    }

    /// Where `over` ends, and the cycles at the position.
    fn over_end(&mut self) -> (Breakpoint, u64)
        ensures end { result.0 ≡ over_end self.old.session.now.scenario
            (run self.old.session.now.scenario self.old.position) }
        ensures cycles { result.1 ≡ (run self.old.session.now.scenario self.old.position).cycles }
        ensures looked { Looks self.old.session.now.n self.old self.new }
    {
        match self.session.with_present(self.position) {
            Ok((machine, _, processor)) => (over_end(processor, machine), machine.cycles()),
            Err(_) => unreachable!(),
        }
    }

    /// Where `out` ends, if anything is in progress, and the cycles at the position.
    fn out_end(&mut self) -> (Option<Breakpoint>, u64)
        ensures end { result.0 ≡ out_end (run self.old.session.now.scenario self.old.position)
            (routines self.old.session.now.scenario self.old.position) }
        ensures cycles { result.1 ≡ (run self.old.session.now.scenario self.old.position).cycles }
        ensures looked { Looks (2 * self.old.session.now.n) self.old self.new }
    {
        let mut routines = self.routines_before();
        match self.session.show(self.position) {
            Ok(machine) => (out_end(machine, &mut routines.outside), machine.cycles()),
            Err(_) => unreachable!(),
        }
    }

    /// On to the first step at which an end is come to, by at most so many.
    fn go_to<W: Write>(
        &mut self,
        end: &Breakpoint,
        cycles: u64,
        steps: u64,
        out: &mut W,
    ) -> Result<(), WriteFailed>
        requires { cycles ≡ (run self.old.session.now.scenario self.old.position).cycles }
        ensures executes { W.told ≡ true → Replies K.may_refuse (goes_to_end end.now steps)
            (standing self.old) (standing self.new) (W.written out.old) (W.written out.new) result }
        ensures grown { HasGrown 4 self.old self.new }
        ensures failures { W.failures out.new ≡ failures_after (W.failures out.old) result }
    {
        match self.next_end(end, steps) {
            Some(step) => {
                self.position = step;
                let text = self.arrival_text(Ending::Hit(1), cycles);
                write_all(out, text.as_slice())
            }
            None => self.grow_to(end, cycles, steps, out),
        }
    }

    /// The first step after the position, of so many that stand, at which an end is come to.
    fn next_end(&mut self, end: &Breakpoint, steps: u64) -> Option<u64>
        ensures next { result ≡ next_end (history self.old.session.now.scenario)
            (standing self.old) end.now steps }
        ensures within { IfSome result (λ t. t ≤ self.old.session.now.n) }
        ensures looked { Looks self.old.session.now.n self.old self.new }
    {
        let count = steps.min(self.session.steps() - self.position);
        let ends = Breakpoints::of_one(*end);
        let stops = Stops::at(&ends);
        step_of(led_to(self.session.seek_step_on(self.position, count, &stops)))
    }

    /// How steps ended, with the cycles since so many, and the line of the position.
    #[tactic(auto, unfolding(crate::specs::History::history))]
    fn arrival_text(&mut self, ending: Ending, cycles: u64) -> Text
        ensures text { result.items ≡ arrival_text ending
            ((run self.old.session.now.scenario self.old.position).cycles - cycles)
            ++ at_line_of manner.Extended self.old.position
            ((history self.old.session.now.scenario).after self.old.position) }
        ensures looked { Looks self.old.session.now.n self.old self.new }
    {
        match self.session.show(self.position) {
            Ok(machine) => {
                let mut text = arrival_text(ending, machine.cycles().saturating_sub(cycles));
                push_at_line(&mut text, Manner::Extended, self.position, machine);
                text
            }
            Err(_) => unreachable!(),
        }
    }

    /// On by new steps, where none that stands comes to the end.
    fn grow_to<W: Write>(
        &mut self,
        end: &Breakpoint,
        cycles: u64,
        steps: u64,
        out: &mut W,
    ) -> Result<(), WriteFailed>
        requires { cycles ≡ (run self.old.session.now.scenario self.old.position).cycles }
        ensures executes { W.told ≡ true → Replies K.may_refuse (grows_to_end end.now steps)
            (standing self.old) (standing self.new) (W.written out.old) (W.written out.new) result }
        ensures grown { HasGrown 3 self.old self.new }
        ensures failures { W.failures out.new ≡ failures_after (W.failures out.old) result }
    {
        let breakpoints = Breakpoints::of_one(*end);
        let more = steps.saturating_sub(self.session.steps() - self.position);
        match grow(self.session, self.tail, &breakpoints, more, self.quiet, out) {
            Ok(ending) => {
                self.position += steps.min(self.session.steps() - self.position);
                let text = self.arrival_text(ending, cycles);
                write_all(out, text.as_slice())
            }
            Err(failed) => Err(failed),
        }
    }
}

/// Where `over` ends.
fn over_end(processor: &Processor, machine: &Machine) -> Breakpoint
    requires { FitsRun processor.now.scenario machine.now }
    ensures { result ≡ over_end processor.now.scenario machine.now }
{
    match entered(processor, machine) {
        Some(place) => Breakpoint::Returned(place, machine.inside()),
        None => Breakpoint::Cycles(0),
    }
}

/// Where `out` ends, by the routines that were in progress before the machine came to where it stands.
fn out_end(machine: &Machine, calls: &mut Calls) -> Option<Breakpoint>
    ensures { result ≡ out_end machine.now (arrived machine.now calls.old.list.items) }
{
    if machine.inside() {
        return Some(Breakpoint::Outside);
    }
    calls.arrive(machine);
    let place = calls.innermost()?;
    Some(Breakpoint::Returned(place, false))
}

/// How steps ended, with the cycles that they took where they came to the end.
fn arrival_text(ending: Ending, cycles: u64) -> Text
    ensures items { result.items ≡ arrival_text ending cycles }
    ensures short { array_vec_len result ≤ 41 }
{
    match ending {
        Ending::Reached => ArrayVec::new(),
        Ending::Hit(_) => number_line(b"TOOK ", cycles),
        Ending::NoMemory => text_line(b"E2 MEMORY"),
        Ending::Limit => text_line(b"E40 LIMIT"),
    }
}
