//! The commands that an extended session has besides.

ghost use Rattle.std.specs.Prelude.{◌≡◌, ◌+◌, ◌*◌, ◌≤◌, ◌++◌, codes, length, true, Some, IfSome};
ghost use Rattle.std.specs.Option.{option_map};
ghost use Rattle.arrayvec.specs.ArrayVec.{array_vec_len};
ghost use Rattle.words.specs.Devices.{failures_after};
ghost use Rattle.words.specs.Numerals.{octal_text};
ghost use Rattle.replay.specs.View.{HasShown};
ghost use Rattle.commands.specs.declared.extended.ExtendedLine.TheVariants as asked;
ghost use Rattle.yayul.specs.Listing.{place_text};
ghost use Rattle.debugger.specs.Replies.{hit_text, at_line_of};
ghost use Rattle.debugger.specs.ExtendedReplies.{breakpoint_text, breaks_from, next_stop, subject_text};
ghost use Rattle.debugger.specs.History.{history};
ghost use Rattle.debugger.specs.Growth.{hit_at};
ghost use Rattle.debugger.specs.Conversation.{effort, to_asked};
ghost use Rattle.debugger.specs.Looks.{looks};
ghost use Rattle.debugger.specs.declared.manner.Manner.TheVariants as manner;
ghost use Rattle.debugger.specs.Executions.{desk, BringsAsked, Replies, grows_on};
ghost use Rattle.debugger.specs.Desks.{standing, terms, Keeps, Looks, HasGrown, HasServed};

use crate::desk::Desk;
use crate::growing::grow;
use crate::inputs::tell_inputs;
use crate::manner::Manner;
use crate::rows::RowKind;
use crate::standing::find;
use crate::stepped_tail::tail_steps;
use crate::stops::{Stops, led_to};
use crate::survey::survey;
use crate::texts::{Text, hit_and_at_line, number_line, text_line};
use arrayvec::ArrayVec;
use commands::{Breakpoint, Breakpoints, ExtendedLine, Subject, help_text};
use replay::Keeper;
use say::LineForm;
use space::Chan;
use space::place::Linear;
use std::alloc::Global;
use trace::place_text;
use words::{Word, Write, WriteFailed, push_all, push_decimal, push_octal, write_all};

impl<'a, K: Keeper> Desk<'a, K> {
    /// Does what a line of an extended session asks for, and writes the reply.
    #[tactic(auto, unfolding(crate::specs::ExtendedReplies::extended_reply))]
    pub(crate) fn answer_asked<W: Write>(
        &mut self,
        alloc: Global,
        request: &ExtendedLine,
        out: &mut W,
    ) -> Result<(), WriteFailed>
        ensures executes { W.told ≡ true → Replies K.may_refuse
            (to_asked (terms self.old) request.now)
            (standing self.old) (standing self.new) (W.written out.old) (W.written out.new) result }
        ensures served { HasServed (effort request.now) self.old self.new }

        // What looks at the position alone shows it, so that the next such command executes no step.
        ensures looks { looks request.now ≡ true → HasShown self.old.session.now self.old.position
            self.new.session.now }
        ensures failures { W.failures out.new ≡ failures_after (W.failures out.old) result }
    {
        match request {
            ExtendedLine::Plain(request) => self.answer(*request, out),
            ExtendedLine::Common(command) => { self.obey(Manner::Extended, *command, out) }
            ExtendedLine::Says(text) => write_all(out, text.as_slice()),
            ExtendedLine::Help => write_all(out, help_text().as_slice()),
            ExtendedLine::Breaks => { write_all(out, breaks_text(&self.breakpoints).as_slice()) }
            ExtendedLine::ClearOne(number) => { write_all(out, self.clear_one(*number).as_slice()) }
            ExtendedLine::On(steps) => self.go_on(*steps, out),
            ExtendedLine::Until(cycles) => self.until(*cycles, out),
            ExtendedLine::AllRegisters => { write_all(out, self.all_registers().as_slice()) }
            ExtendedLine::WhyStep(lines) => self.why_step(*lines, out),
            ExtendedLine::Why(subject, links, lines) => { self.why(*subject, *links, *lines, out) }
            ExtendedLine::WhySince(subject, links, lines, since) => {
                self.why_since(*subject, *links, *lines, *since, out)
            }
            ExtendedLine::WhyWay => self.why_way(out),
            ExtendedLine::WhyControl(subject) => self.why_control(*subject, out),
            ExtendedLine::WhyInputs(subject) => { self.why_inputs(alloc, *subject, out) }
            ExtendedLine::WhyInterrupts(subject) => { self.why_interrupts(alloc, *subject, out) }
            ExtendedLine::Words(place, count) => {
                write_all(out, self.words(place, *count).as_slice())
            }
            ExtendedLine::Where => self.tell_where(out),
            ExtendedLine::Find(beginning) => find(self.symbols, beginning.as_slice(), out),
            ExtendedLine::Trace(steps) => { self.trace(LineForm::Steps, *steps, out) }
            ExtendedLine::TailSteps(count) => tail_steps(self.session, *count, out),
            ExtendedLine::Inputs => tell_inputs(self.session, self.first_added, out),
            ExtendedLine::Over(steps) => self.go_over(*steps, out),
            ExtendedLine::Out(steps) => self.go_out(*steps, out),
            ExtendedLine::Listed(place, count) => {
                self.rows(RowKind::Instruction, place, *count, out)
            }
            ExtendedLine::Values(place, count) => { self.rows(RowKind::Number, place, *count, out) }
            ExtendedLine::Channels => write_all(out, self.channels().as_slice()),
            ExtendedLine::Differs(step) => self.differs(*step, out),
            ExtendedLine::Survey(asked) => survey(self.session, asked, out),
            ExtendedLine::Say(steps) => { self.trace(LineForm::Sentences, *steps, out) }
            ExtendedLine::WhatIf(trial, extent) => { self.what_if(alloc, *trial, *extent, out) }
            ExtendedLine::Never(place) => self.never(place, out),
            ExtendedLine::Calls => write_all(out, self.calls().as_slice()),
            ExtendedLine::Quiet(on) => write_all(out, self.hush(*on).as_slice()),
        }
    }

    /// `clear I`: one breakpoint less.
    #[tactic(auto, unfolding(crate::specs::ExtendedReplies::extended_reply))]
    fn clear_one(&mut self, number: u64) -> Text
        ensures brings { BringsAsked (standing self.old) (asked.ClearOne number) result.items (standing self.new) }
        ensures keeps { Keeps self.old self.new }
    {
        if number == 0 || number > self.breakpoints.len() as u64 {
            return text_line(b"NONE");
        }
        self.breakpoints.remove(number as usize - 1);
        number_line(b"CLEAR ", number)
    }

    /// `quiet`: the outputs of new steps are counted from now on, or told again.
    #[tactic(auto, unfolding(crate::specs::ExtendedReplies::extended_reply))]
    fn hush(&mut self, on: bool) -> Text
        ensures brings { BringsAsked (standing self.old) (asked.Quiet on) result.items (standing self.new) }
        ensures keeps { Keeps self.old self.new }
    {
        self.quiet = on;
        if on {
            return text_line(b"QUIET on");
        }
        text_line(b"QUIET off")
    }

    /// `on`: on from the position up to a breakpoint, over steps that stand and then new ones.
    fn go_on<W: Write>(&mut self, steps: u64, out: &mut W) -> Result<(), WriteFailed>
        ensures executes { W.told ≡ true → Replies K.may_refuse (to_asked (terms self.old) (asked.On steps))
            (standing self.old) (standing self.new) (W.written out.old) (W.written out.new) result }
        ensures served { HasServed 3 self.old self.new }
        ensures failures { W.failures out.new ≡ failures_after (W.failures out.old) result }
    {
        match self.next_stop(steps) {
            Some((step, number)) => {
                self.position = step;
                write_all(out, self.stop_text(number).as_slice())
            }
            None => self.grow_on(steps, out),
        }
    }

    /// The first step after the position, of so many that stand, at which a breakpoint holds, and the lowest of those
    /// that do.
    fn next_stop(&mut self, steps: u64) -> Option<(u64, u64)>
        ensures next { option_map (λ r. r.0) result
            ≡ next_stop (history self.old.session.now.scenario) (standing self.old) steps }
        ensures hit { IfSome result (λ r. Some r.1 ≡ hit_at (history self.old.session.now.scenario)
            self.old.breakpoints r.0) }
        ensures within { IfSome result (λ r. r.0 ≤ self.old.session.now.n) }
        ensures looked { Looks self.old.session.now.n self.old self.new }
    {
        let count = steps.min(self.session.steps() - self.position);
        let stops = Stops::at(&self.breakpoints);
        led_to(self.session.seek_step_on(self.position, count, &stops))
    }

    /// A breakpoint that holds at the position, and the line of the position.
    #[tactic(auto, unfolding(crate::specs::History::history))]
    fn stop_text(&mut self, number: u64) -> Text
        ensures text { result.items ≡ hit_text (Some number)
            ++ at_line_of manner.Extended self.old.position
            ((history self.old.session.now.scenario).after self.old.position) }
        ensures looked { Looks self.old.session.now.n self.old self.new }
    {
        match self.session.show(self.position) {
            Ok(machine) => hit_and_at_line(Manner::Extended, Some(number), self.position, machine),
            Err(_) => unreachable!(),
        }
    }

    /// `on` where no breakpoint holds among the steps that stand.
    fn grow_on<W: Write>(&mut self, steps: u64, out: &mut W) -> Result<(), WriteFailed>
        ensures executes { W.told ≡ true → Replies K.may_refuse (grows_on steps)
            (standing self.old) (standing self.new) (W.written out.old) (W.written out.new) result }
        ensures grown { HasGrown 3 self.old self.new }
        ensures failures { W.failures out.new ≡ failures_after (W.failures out.old) result }
    {
        let more = steps.saturating_sub(self.session.steps() - self.position);
        match grow(
            self.session,
            self.tail,
            &self.breakpoints,
            more,
            self.quiet,
            out,
        ) {
            Ok(ending) => {
                self.position += steps.min(self.session.steps() - self.position);
                self.tell_ending(Manner::Extended, ending, out)
            }
            Err(failed) => Err(failed),
        }
    }
}

/// The most bytes of the lines of breakpoints: 64 for each of 16, and `COUNT `, 20 digits and a line feed.
const BREAKS_TEXT: usize = 1_056;

/// The lines of breakpoints.
type BreaksText = ArrayVec<u8, BREAKS_TEXT>;

/// A line for each breakpoint, and how many there are.
#[tactic(auto, using(words::proofs::Digits::short_decimal))]
fn breaks_text(breakpoints: &Breakpoints) -> BreaksText
    ensures { result.items ≡ breaks_from 0 breakpoints.now }
{
    let mut text = ArrayVec::new();
    let mut number = 0;
    let _at_most_sixteen = breakpoints.len();
    for breakpoint in breakpoints.as_slice() {
        number += 1;
        push_all(&mut text, b"BREAK ");
        push_decimal(&mut text, number);
        push_all(&mut text, b" ");
        push_breakpoint(&mut text, *breakpoint);
        push_all(&mut text, b"\n");
    }
    push_all(&mut text, b"COUNT ");
    push_decimal(&mut text, number);
    push_all(&mut text, b"\n");
    text
}

/// Adds a breakpoint as the command that sets it, with its place as a listing has it.
#[tactic(auto, using(words::proofs::Digits::short_decimal))]
fn push_breakpoint(text: &mut BreaksText, breakpoint: Breakpoint)
    requires { array_vec_len text.old ≤ 1000 }
    ensures items { text.new.items ≡ text.old.items ++ breakpoint_text breakpoint }
    ensures short { array_vec_len text.new ≤ array_vec_len text.old + 27 }
{
    match breakpoint {
        Breakpoint::Place(place) => {
            push_all(text, b"at ");
            push_place(text, place);
        }
        Breakpoint::Word(place, word) => {
            push_all(text, b"word ");
            push_place(text, Linear::Erasable(place));
            push_all(text, b" ");
            push_octal(text, 5, word.to_u16());
        }
        Breakpoint::Channel(channel, word) => push_channel(text, channel, word),
        Breakpoint::Bits(channel, word, mask) => {
            push_channel(text, channel, word);
            push_all(text, b" ");
            push_octal(text, 5, mask.to_u16());
        }
        Breakpoint::Cycles(cycles) => {
            push_all(text, b"cycles ");
            push_decimal(text, cycles);
        }
        Breakpoint::Returned(place, _) => {
            push_all(text, b"returned ");
            push_place(text, place);
        }
        Breakpoint::Outside => push_all(text, b"outside"),
        Breakpoint::Executed(place) => {
            push_all(text, b"exec ");
            push_place(text, place);
        }
        Breakpoint::Changed(subject) => {
            push_all(text, b"change ");
            push_subject(text, subject);
        }
    }
}

/// Adds a channel and a word as `break chan` takes them.
fn push_channel(text: &mut BreaksText, channel: Chan, word: Word)
    requires { array_vec_len text.old ≤ 1000 }
    ensures items { text.new.items ≡ text.old.items ++ codes "chan " ++ octal_text 3 channel ++ codes " "
        ++ octal_text 5 word }
    ensures len { array_vec_len text.new ≡ array_vec_len text.old + 14 }
{
    push_all(text, b"chan ");
    push_octal(text, 3, channel.number());
    push_all(text, b" ");
    push_octal(text, 5, word.to_u16());
}

/// Adds an erasable place as a listing has it, or a channel.
fn push_subject(text: &mut BreaksText, subject: Subject)
    requires { array_vec_len text.old ≤ 1009 }
    ensures items { text.new.items ≡ text.old.items ++ subject_text subject }
    ensures short { array_vec_len text.new ≤ array_vec_len text.old + 7 }
{
    match subject {
        Subject::Place(place) => push_place(text, Linear::Erasable(place)),
        Subject::Channel(channel) => {
            push_all(text, b"CH");
            push_octal(text, 3, channel.number());
        }
    }
}

/// Adds a place as a listing has it.
fn push_place(text: &mut BreaksText, place: Linear)
    requires { array_vec_len text.old ≤ 1009 }
    ensures items { text.new.items ≡ text.old.items ++ place_text place }
    ensures len { array_vec_len text.new ≡ array_vec_len text.old + 7 }
{
    push_all(text, place_text(place).as_slice());
}
