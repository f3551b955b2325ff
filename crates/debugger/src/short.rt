//! Commands that make no new step and have a short reply.

ghost use Rattle.std.specs.Prelude.{◌≡◌, ◌+◌, ◌-◌, ◌*◌, ◌^◌, ◌<◌, ◌≤◌, codes, Some, IfSome};
ghost use Rattle.std.specs.Option.{option_map};
ghost use Rattle.cpu.specs.State.{Scenario};
ghost use Rattle.commands.specs.declared.command.Command.TheVariants as command;
ghost use Rattle.commands.specs.declared.command.ParsedLine.TheVariants.{Known};
ghost use Rattle.space.specs.Cells.{changed_places};
ghost use Rattle.replay.specs.View.{HasShown};
ghost use Rattle.debugger.specs.History.{history, sight};
ghost use Rattle.debugger.specs.Growth.{hit_at};
ghost use Rattle.debugger.specs.Replies.{line, changed_text, memory_word, last_stop, last_change};
ghost use Rattle.debugger.specs.Executions.{desk, Brings, BringsIn};
ghost use Rattle.debugger.specs.Desks.{standing, Keeps, Looks, Moves};

use crate::breakpoints::lowest_hit;
use crate::desk::Desk;
use crate::manner::Manner;
use crate::stops::{Stops, led_to};
use crate::texts::{
    PlacesText, Text, at_line, hit_and_at_line, last_line, number_line, places_text,
    registers_text, text_line, word_line,
};
use arrayvec::ArrayVec;
use commands::Breakpoint;
use cpu::{Machine, Processor};
use replay::Keeper;
use space::place::Linear;
use space::store::{Store, changed};
use space::{Chan, Eras};
use words::{Word, push_all};

impl<'a, K: Keeper> Desk<'a, K> {
    /// `back`: so many steps back.
    pub(crate) fn back(&mut self, manner: Manner, steps: u64) -> Text
        ensures brings { BringsIn manner (standing self.old)
            (Known (command.Back steps)) result.items (standing self.new) }
        ensures looked { Moves self.old.session.now.n self.old self.new }
        ensures shown { HasShown self.old.session.now self.new.position self.new.session.now }
    {
        self.position = self.position.saturating_sub(steps);
        match self.session.show(self.position) {
            Ok(machine) => at_line(manner, self.position, machine),
            Err(_) => unreachable!(),
        }
    }

    /// `goto`: to a step.
    pub(crate) fn goto(&mut self, manner: Manner, step: u64) -> Text
        ensures brings { BringsIn manner (standing self.old)
            (Known (command.Goto step)) result.items (standing self.new) }
        ensures looked { Moves self.old.session.now.n self.old self.new }
        ensures shown { HasShown self.old.session.now step self.new.session.now }
    {
        match self.session.show(step) {
            Ok(machine) => {
                self.position = step;
                at_line(manner, step, machine)
            }
            Err(_) => text_line(b"E41 NOT YET"),
        }
    }

    /// `seek`: back to the last step before this one at which a breakpoint holds.
    pub(crate) fn seek(&mut self, manner: Manner) -> Text
        ensures brings { BringsIn manner (standing self.old)
            (Known (command.Seek)) result.items (standing self.new) }
        ensures looked { Moves (3 * self.old.session.now.n) self.old self.new }
    {
        let Some((step, number)) = self.last_stop() else {
            return text_line(b"NONE");
        };
        self.position = step;
        match self.session.show(step) {
            Ok(machine) => hit_and_at_line(manner, Some(number), step, machine),
            Err(_) => unreachable!(),
        }
    }

    /// The last step before the position at which a breakpoint holds, and the lowest of those that do.
    fn last_stop(&mut self) -> Option<(u64, u64)>
        ensures last { option_map (λ r. r.0) result
            ≡ last_stop (history self.old.session.now.scenario) (standing self.old) }
        ensures hit { IfSome result (λ r. Some r.1 ≡ hit_at (history self.old.session.now.scenario)
            self.old.breakpoints r.0) }
        ensures before { IfSome result (λ r. r.0 ≤ self.old.session.now.n) }
        ensures same { self.new.session.now ≡ record self.old.session.now
            { shown = self.new.session.now.shown; meter = self.new.session.now.meter } }
        ensures looked { Looks (2 * self.old.session.now.n) self.old self.new }
    {
        if self.position == 0 {
            return None;
        }
        let _limited = self.session.steps();
        let stops = Stops::at(&self.breakpoints);
        let found = led_to(self.session.seek_step_back(self.position - 1, &stops));
        if found.is_some() {
            return found;
        }
        self.stop_at_start()
    }

    /// The start, where a breakpoint holds there, and the lowest of those that do.
    fn stop_at_start(&self) -> Option<(u64, u64)>
        ensures { (scenario : Scenario) → result
            ≡ option_map (λ i. (0, i)) (hit_at (history scenario) self.now.breakpoints 0) }
    {
        match lowest_hit(self.breakpoints.as_slice(), &None, &Machine::start()) {
            Some(number) => Some((0, number)),
            None => None,
        }
    }

    /// `break`: one breakpoint more.
    pub(crate) fn set_breakpoint(&mut self, breakpoint: Breakpoint) -> Text
        ensures brings { Brings (standing self.old) (Known (command.Break breakpoint)) result.items
            (standing self.new) }
        ensures keeps { Keeps self.old self.new }
    {
        if self.breakpoints.is_full() {
            return text_line(b"E52 FULL");
        }
        self.breakpoints.push(breakpoint);
        number_line(b"BREAK ", self.breakpoints.len() as u64)
    }

    /// `clear`: no breakpoints.
    pub(crate) fn clear(&mut self) -> Text
        ensures brings { Brings (standing self.old) (Known command.Clear) result.items (standing self.new) }
        ensures keeps { Keeps self.old self.new }
    {
        self.breakpoints.clear();
        text_line(b"CLEAR")
    }

    /// `regs`: the registers, and the next instruction.
    pub(crate) fn registers(&mut self) -> Text
        ensures brings { Brings (standing self.old) (Known (command.Registers))
            result.items (standing self.new) }
        ensures looked { Looks self.old.session.now.n self.old self.new }
        ensures shown { HasShown self.old.session.now self.old.position self.new.session.now }
    {
        match self.session.with_present(self.position) {
            Ok((machine, _, processor)) => registers_text(machine, processor),
            Err(_) => unreachable!(),
        }
    }

    /// `mem`: the word at a place.
    pub(crate) fn memory(&mut self, place: Linear) -> Text
        ensures brings { Brings (standing self.old) (Known (command.Memory place))
            result.items (standing self.new) }
        ensures looked { Looks self.old.session.now.n self.old self.new }
        ensures shown { HasShown self.old.session.now self.old.position self.new.session.now }
    {
        match self.session.with_present(self.position) {
            Ok((machine, _, processor)) => word_line(b"MEM ", word_at(machine, processor, place)),
            Err(_) => unreachable!(),
        }
    }

    /// `chan`: the word on a channel.
    pub(crate) fn channel(&mut self, channel: Chan) -> Text
        ensures brings { Brings (standing self.old)
            (Known (command.Channel channel)) result.items (standing self.new) }
        ensures looked { Looks self.old.session.now.n self.old self.new }
        ensures shown { HasShown self.old.session.now self.old.position self.new.session.now }
    {
        match self.session.show(self.position) {
            Ok(machine) => word_line(b"CHAN ", machine.channel(channel).correct()),
            Err(_) => unreachable!(),
        }
    }

    /// `last`: the step after which a place first held what it holds now.
    pub(crate) fn last(&mut self, place: Eras) -> Text
        ensures brings { Brings (standing self.old) (Known (command.Last place))
            result.items (standing self.new) }
        ensures looked { Looks (3 * self.old.session.now.n) self.old self.new }
    {
        last_line(self.last_change(place))
    }

    /// `changed`: the erasable places that read differently after a step and now.
    pub(crate) fn changed(&mut self, step: u64) -> PlacesText
        ensures brings { Brings (standing self.old) (Known (command.Changed step))
            result.items (standing self.new) }
        ensures looked { Looks self.old.session.now.n self.old self.new }
    {
        match self.session.with_present(step) {
            Ok((machine, present, _)) => changed_text(machine.store(), present.store()),
            Err(_) => not_yet(),
        }
    }

    /// The last step before the position at which a place held another word.
    fn last_change(&mut self, place: Eras) -> Option<u64>
        ensures last { result ≡ last_change (history self.old.session.now.scenario)
            (standing self.old) place }
        ensures below { IfSome result (λ t. t < 2 ^ 40) }
        ensures looked { Looks (3 * self.old.session.now.n) self.old self.new }
    {
        let word = match self.session.show(self.position) {
            Ok(machine) => machine.word(place),
            Err(_) => unreachable!(),
        };
        self.session
            .seek_back(self.position, |machine| machine.word(place) != word)
    }
}

/// The word at a place.
#[tactic(auto, unfolding(crate::specs::History::history))]
pub(crate) fn word_at(machine: &Machine, processor: &Processor, place: Linear) -> Word
    ensures { result ≡ memory_word (history processor.now.scenario) (sight processor.now.scenario.rope machine.now)
        place }
{
    match place {
        Linear::Erasable(place) => machine.word(place),
        Linear::Fixed(bank, offset) => processor.rope().word(bank, offset),
    }
}

/// The erasable places that read differently in two stores.
fn changed_text(old: &Store, new: &Store) -> PlacesText
    ensures { result.items ≡ changed_text (changed_places old.now new.now) }
{
    let mut places = [0; 2048];
    let count = changed(old, new, &mut places);
    places_text(&places[..count])
}

/// That a step was not made yet.
fn not_yet() -> PlacesText
    ensures { result.items ≡ line (codes "E41 NOT YET") }
{
    let mut text = ArrayVec::new();
    push_all(&mut text, b"E41 NOT YET\n");
    text
}
