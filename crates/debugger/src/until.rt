//! `until`: to the first step with so many cycles.

ghost use Rattle.std.specs.Prelude.{◌≡◌, ◌+◌, ◌*◌, ◌≤◌, true, IfSome};
ghost use Rattle.words.specs.Devices.{failures_after};
ghost use Rattle.commands.specs.declared.extended.ExtendedLine.TheVariants as asked;
ghost use Rattle.debugger.specs.History.{history};
ghost use Rattle.debugger.specs.Replies.{at_line_of};
ghost use Rattle.debugger.specs.ExtendedReplies.{first_at, unhit};
ghost use Rattle.debugger.specs.Conversation.{to_asked};
ghost use Rattle.debugger.specs.declared.manner.Manner.TheVariants as manner;
ghost use Rattle.debugger.specs.Executions.{desk, Replies, makes_until, HasLooked};
ghost use Rattle.debugger.specs.Desks.{standing, terms, Looks, HasGrown, HasServed};

use crate::desk::Desk;
use crate::ending::Ending;
use crate::growing::grow;
use crate::manner::Manner;
use crate::texts::{Text, at_line};
use commands::{Breakpoint, Breakpoints, MOST_COUNT};
use replay::{Keeper, Session};
use words::{Write, WriteFailed, write_all};

impl<'a, K: Keeper> Desk<'a, K> {
    /// `until`: to the first step with so many cycles, over steps that stand and then new ones.
    pub(crate) fn until<W: Write>(&mut self, cycles: u64, out: &mut W) -> Result<(), WriteFailed>
        ensures executes { W.told ≡ true → Replies K.may_refuse (to_asked (terms self.old) (asked.Until cycles))
            (standing self.old) (standing self.new) (W.written out.old) (W.written out.new) result }
        ensures served { HasServed 3 self.old self.new }
        ensures failures { W.failures out.new ≡ failures_after (W.failures out.old) result }
    {
        match first_at(self.session, cycles) {
            Some(step) => {
                self.position = step;
                write_all(out, self.position_text().as_slice())
            }
            None => self.grow_until(cycles, out),
        }
    }

    /// The line of the position.
    #[tactic(auto, unfolding(crate::specs::History::history))]
    fn position_text(&mut self) -> Text
        ensures text { result.items ≡ at_line_of manner.Extended self.old.position
            ((history self.old.session.now.scenario).after self.old.position) }
        ensures looked { Looks self.old.session.now.n self.old self.new }
    {
        match self.session.show(self.position) {
            Ok(machine) => at_line(Manner::Extended, self.position, machine),
            Err(_) => unreachable!(),
        }
    }

    /// `until` where no step that was made has so many cycles.
    fn grow_until<W: Write>(&mut self, cycles: u64, out: &mut W) -> Result<(), WriteFailed>
        ensures executes { W.told ≡ true → Replies K.may_refuse (makes_until cycles)
            (standing self.old) (standing self.new) (W.written out.old) (W.written out.new) result }
        ensures grown { HasGrown 3 self.old self.new }
        ensures failures { W.failures out.new ≡ failures_after (W.failures out.old) result }
    {
        let breakpoints = Breakpoints::of_one(Breakpoint::Cycles(cycles));
        match grow(
            self.session,
            self.tail,
            &breakpoints,
            MOST_COUNT,
            self.quiet,
            out,
        ) {
            Ok(ending) => {
                self.position = self.session.steps();
                self.tell_ending(Manner::Extended, unhit(ending), out)
            }
            Err(failed) => Err(failed),
        }
    }
}

/// The first step that was made with so many cycles.
pub(crate) fn first_at<K: Keeper>(session: &mut Session<K>, cycles: u64) -> Option<u64>
    ensures first { result ≡ first_at (history session.old.scenario) session.old.n cycles }
    ensures within { IfSome result (λ t. t ≤ session.old.n) }
    ensures looked { HasLooked session.old session.new session.old.n }
{
    if cycles == 0 {
        return Some(0);
    }
    // (Cycles rise: where the last step has fewer, all have.)
    if session.present().cycles() < cycles {
        return None;
    }
    let count = session.steps();
    session.seek_on(1, count, |machine| cycles <= machine.cycles())
}

/// How steps ended, where it is not told that they came to a number of cycles.
pub(crate) fn unhit(ending: Ending) -> Ending
    ensures { result ≡ unhit ending }
{
    match ending {
        Ending::Hit(_) => Ending::Reached,
        other => other,
    }
}
