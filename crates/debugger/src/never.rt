//! `never`: the last branch that led away from a place, or what else kept the program from it.

ghost use Rattle.std.specs.Prelude.{◌≡◌, ℕ, ◌*◌, ◌<◌, ◌≤◌, IfSome, None, Some, length, true};
ghost use Rattle.words.specs.Devices.{Writes, failures_after};
ghost use Rattle.cpu.specs.State.{FitsRun};
ghost use Rattle.cpu.specs.Run.{run};
ghost use Rattle.branches.specs.Leading.{entry_to, is_on_the_way};
ghost use Rattle.debugger.specs.Executions.{HasLooked};
ghost use Rattle.debugger.specs.Nevers.{away_text, barred_text, came_text, comes, kept_away, last_away, last_came};
ghost use Rattle.debugger.specs.Nevers.{later, never_text};
ghost use Rattle.debugger.specs.Desks.{Looks};

use crate::desk::Desk;
use crate::texts::{Text, number_line, text_line};
use crate::ways::tell_choice;
use arrayvec::ArrayVec;
use branches::{entry_to, has_way, is_on_the_way};
use cpu::{Account, Machine, Processor, make_step};
use feed::Interrupt;
use replay::{Keeper, Session, StepTest};
use space::Linear;
use words::{Write, WriteFailed, push_all, push_decimal, write_all};

impl<'a, K: Keeper> Desk<'a, K> {
    /// `never`: the last step that came to a place, and the last choice since then that led away from it.
    pub(crate) fn never<W: Write>(&mut self, place: &Linear, out: &mut W) -> Result<(), WriteFailed>
        ensures writes { W.told ≡ true → Writes (W.written out.old) (W.written out.new)
            (never_text self.old.symbols.now self.old.session.now.scenario place.now self.old.position) result }
        ensures looked { Looks (107 * self.old.session.now.n) self.old self.new }
        ensures failures { W.failures out.new ≡ failures_after (W.failures out.old) result }
    {
        let came = last_came(self.session, place, self.position);
        let away = last_away(self.session, place, self.position);
        write_all(out, came_text(came, self.position).as_slice())?;
        self.tell_away(place, came, later(came, away), out)
    }

    /// The choice that led away from a place, or what else kept the program from it.
    fn tell_away<W: Write>(
        &mut self,
        place: &Linear,
        came: Option<u64>,
        away: Option<u64>,
        out: &mut W,
    ) -> Result<(), WriteFailed>
        requires { IfSome away (λ t. t < self.old.position) }
        ensures writes { W.told ≡ true → Writes (W.written out.old) (W.written out.new)
            (away_text self.old.symbols.now self.old.session.now.scenario place.now self.old.position came away)
            result }
        ensures looked { Looks (103 * self.old.session.now.n) self.old self.new }
        ensures failures { W.failures out.new ≡ failures_after (W.failures out.old) result }
    {
        if is_near(self.session, place, self.position) {
            return write_all(out, b"ON THE WAY\n");
        }
        match away {
            Some(step) => tell_choice(self.session, self.symbols, step, out),
            None => write_all(
                out,
                kept_away_at(self.session, place, self.position, came).as_slice(),
            ),
        }
    }
}

/// Whether the words where the program stands after so many steps lead to a place.
#[tactic(auto, using(crate::proofs::Looking::looked_at))]
fn is_near<K: Keeper>(session: &mut Session<K>, place: &Linear, position: u64) -> bool
    requires { position ≤ session.old.n }
    ensures near { result
        ≡ is_on_the_way session.old.scenario.rope place.now (run session.old.scenario position) }
    ensures looked { HasLooked session.old session.new session.old.n }
{
    match session.with_present(position) {
        Ok((machine, _, processor)) => is_on_the_way(processor.rope(), place, machine),
        Err(_) => unreachable!(),
    }
}

/// The last of so many steps that executed the instruction at a place.
fn last_came<K: Keeper>(session: &mut Session<K>, place: &Linear, position: u64) -> Option<u64>
    requires { position ≤ session.old.n }
    ensures last { result ≡ last_came session.old.scenario place.now position }
    ensures within { IfSome result (λ t. t < position) }
    ensures looked { HasLooked session.old session.new (2 * session.old.n) }
{
    match session.seek_step_back(position, &Coming { place: *place }) {
        Some((step, _)) => Some(step),
        None => None,
    }
}

/// The last of so many steps that led away from a place.
fn last_away<K: Keeper>(session: &mut Session<K>, place: &Linear, position: u64) -> Option<u64>
    requires { position ≤ session.old.n }
    ensures last { result ≡ last_away session.old.scenario place.now position }
    ensures within { IfSome result (λ t. t < position) }
    ensures looked { HasLooked session.old session.new (2 * session.old.n) }
{
    match session.seek_step_back(position, &Leading { place: *place }) {
        Some((step, _)) => Some(step),
        None => None,
    }
}

/// The second of two steps, where it is later than the first.
fn later(came: Option<u64>, away: Option<u64>) -> Option<u64>
    ensures later { result ≡ later came away }
    ensures within { (n : ℕ) → IfSome away (λ t. t < n) → IfSome result (λ t. t < n) }
{
    let Some(came) = came else {
        return away;
    };
    match away {
        Some(away) if came < away => Some(away),
        Some(_) => None,
        None => None,
    }
}

/// The line of the step that came there last.
fn came_text(came: Option<u64>, position: u64) -> Text
    requires { IfSome came (λ t. t < position) }
    ensures items { result.items ≡ came_text came }
{
    match came {
        Some(step) => number_line(b"CAME ", step + 1),
        None => ArrayVec::new(),
    }
}

/// What kept the program away after so many steps, where no choice led away.
#[tactic(auto, using(crate::proofs::Looking::looked_at))]
fn kept_away_at<K: Keeper>(
    session: &mut Session<K>,
    place: &Linear,
    position: u64,
    came: Option<u64>,
) -> Text
    requires { position ≤ session.old.n }
    ensures text { result.items ≡ kept_away came (run session.old.scenario position)
        (entry_to session.old.scenario.rope (run session.old.scenario position) place.now) }
    ensures looked { HasLooked session.old session.new session.old.n }
{
    match session.with_present(position) {
        Ok((machine, _, processor)) => {
            let entry = entry_to(processor.rope(), machine, place);
            kept_away(came, machine, entry)
        }
        Err(_) => unreachable!(),
    }
}

/// What kept the program away, where no choice led away, by whether it came before.
fn kept_away(came: Option<u64>, machine: &Machine, entry: Option<Interrupt>) -> Text
    ensures { result.items ≡ kept_away came machine.now entry }
{
    match entry {
        Some(request) => interrupt_line(machine, request),
        None => {
            if came.is_some() {
                ArrayVec::new()
            } else {
                text_line(b"NO CHOICE LED AWAY")
            }
        }
    }
}

/// The line of an interrupt, and what keeps it from being entered.
#[tactic(auto, using(words::proofs::Digits::short_decimal))]
fn interrupt_line(machine: &Machine, request: Interrupt) -> Text
    ensures { result.items ≡ kept_away None machine.now (Some request) }
{
    let mut text = ArrayVec::new();
    push_all(&mut text, b"INTERRUPT ");
    push_decimal(&mut text, u64::from(request.number()));
    push_all(&mut text, barred_text(machine, request));
    push_all(&mut text, b"\n");
    text
}

/// What keeps an interrupt from being entered.
fn barred_text(machine: &Machine, request: Interrupt) -> &'static [u8]
    ensures text { result.now ≡ barred_text machine.now request }
    ensures short { length result.now ≤ 10 }
{
    if !machine.is_asked(request) {
        b" NOT ASKED"
    } else if machine.inside() {
        b" INSIDE"
    } else if machine.inhibit() {
        b" INHIBITED"
    } else {
        b" ASKED"
    }
}

/// Whether the next step executes the instruction at a place.
fn comes(processor: &Processor, machine: &Machine, place: &Linear) -> bool
    requires { FitsRun processor.now.scenario machine.now }
    ensures { result ≡ comes processor.now.scenario place.now machine.now }
{
    match processor.account(machine) {
        Account::Place(there) => there == *place,
        Account::Input => false,
        Account::Entry => false,
        Account::Waiting => false,
    }
}

/// Steps that execute the instruction at a place.
#[derive(Clone, Copy, Drop)]
struct Coming {
    place: Linear,
}

impl StepTest for Coming {
    ghost use Rattle.debugger.specs.Nevers.{comes};
    ghost use Rattle.debugger.specs.WhysSince.{found_if};

    ghost finds = { λ test scenario state. found_if (comes scenario test.place state) };

    fn test_step(&self, processor: &mut Processor, machine: &mut Machine) -> Option<u64> {
        let found = comes(processor, machine, &self.place);
        make_step(processor, machine);
        if found { Some(0) } else { None }
    }
}

/// Steps that led away from a place.
#[derive(Clone, Copy, Drop)]
struct Leading {
    place: Linear,
}

impl StepTest for Leading {
    ghost use Rattle.branches.specs.Branches.{leads_away};
    ghost use Rattle.debugger.specs.WhysSince.{found_if};

    ghost finds = { λ test scenario state. found_if (leads_away scenario test.place state) };

    fn test_step(&self, processor: &mut Processor, machine: &mut Machine) -> Option<u64> {
        let has_way = has_way(processor, &self.place, machine);
        make_step(processor, machine);
        if has_way && !is_on_the_way(processor.rope(), &self.place, machine) {
            Some(0)
        } else {
            None
        }
    }
}
