//! A claim that is watched while a run is made.

ghost use Rattle.std.specs.Prelude.{◌≡◌, ◌+◌, ◌-◌, ◌%◌, ◌≤◌, ◌^◌};
ghost use Rattle.cpu.specs.State.{FitsRun};
ghost use Rattle.expect.specs.Claims.{begun, breaks, broken_at_start, called, counts, is_at, is_long, is_on, is_sought};
ghost use Rattle.expect.specs.Claims.{lacks, on_call, resumed_place, told_at_end, told_of, word_of};
ghost use Rattle.expect.specs.Facts.{facts_of};
ghost use Rattle.expect.specs.Watches.{ended, noted, settled, started, unseen};

use crate::claim::{Claim, Sought, Stated};
use crate::known::{Known, misses};
use cpu::{Account, Machine, Output, Processor};
use space::resolve::resolve;
use space::{Addr12, Chan, Eras, Linear};
use words::Word;

/// So much is the address before another beyond it, of 12 bits.
const BEFORE: u16 = 0o7777;

/// Where a claim fails.
#[derive(Clone, Copy, Debug, Drop)]
pub struct Failure {
    /// The step after which it does.
    pub step: u64,
    /// The cycles after that step.
    pub cycles: u64,
    /// The word that was put out, or that stands at the place; none where nothing came.
    pub word: Option<Word>,
}

/// A call of a routine that goes on.
#[derive(Clone, Copy, Debug, Drop)]
pub struct Call {
    /// The address to which it leads back: Q, where the program came to the routine.
    pub back: Addr12,
    /// The cycles after which it did.
    pub cycles: u64,
}

/// A claim of a test, how much it has counted so far, and where it has failed.
#[derive(Clone, Copy, Debug, Drop)]
pub struct Watch {
    /// The claim, with its test and its line.
    pub stated: Stated,
    /// How many words on its channel were put out, or how often the program came to its place.
    pub seen: u64,
    /// The call of its routine that goes on.
    pub call: Option<Call>,
    /// Where it has failed first.
    pub failure: Option<Failure>,
}

impl Watch {
    /// A claim of a run that has not begun.
    pub(crate) fn new(stated: &Stated) -> Watch
        ensures { result ≡ unseen stated.now }
    {
        Watch {
            stated: *stated,
            seen: 0,
            call: None,
            failure: None,
        }
    }

    /// Looks at the start of a run, for claims of places.
    pub(crate) fn start(&mut self, processor: &Processor, machine: &Machine)
        requires fits { FitsRun processor.now.scenario machine.now }
        ensures { self.new ≡ started processor.now.scenario machine.now self.old }
    {
        let claim = self.stated.claim;
        self.failure = broken_at_start(&claim, processor, machine);
        self.seen = if counts(&claim, processor, machine, &None) {
            1
        } else {
            0
        };
        self.call = called(&claim, &None, processor, machine);
    }

    /// Looks at a step that was made: at the machine after it, and at what it has put out.
    #[inline(always)]
    pub(crate) fn note(
        &mut self,
        processor: &Processor,
        machine: &Machine,
        put: &Option<Output>,
        step: u64,
    )
        requires fits { FitsRun processor.now.scenario machine.now }
        requires few { self.old.seen ≤ 2 ^ 62 }
        ensures { self.new ≡ noted processor.now.scenario machine.now put.now step self.old }
    {
        if self.failure.is_none()
            && breaks(
                &self.stated.claim,
                self.seen,
                &self.call,
                processor,
                machine,
                put,
            )
        {
            self.failure = Some(Failure {
                step,
                cycles: machine.cycles(),
                word: told_of(&self.stated.claim, machine, put),
            });
        }
        if counts(&self.stated.claim, processor, machine, put) {
            self.seen += 1;
        }
        self.call = called(&self.stated.claim, &self.call, processor, machine);
    }

    /// Looks at the end of a run of some steps.
    pub(crate) fn end(&mut self, machine: &Machine, steps: u64)
        ensures { self.new ≡ ended machine.now steps self.old }
    {
        if self.failure.is_none() && lacks(&self.stated.claim, self.seen, machine) {
            self.failure = Some(Failure {
                step: steps,
                cycles: machine.cycles(),
                word: told_at_end(&self.stated.claim, machine),
            });
        }
    }

    /// Looks at what is known of a run of some steps beside them.
    pub(crate) fn settle(&mut self, known: &Known<'_>, machine: &Machine, steps: u64)
        ensures { self.new ≡ settled (facts_of known.now) machine.now steps self.old }
    {
        if self.failure.is_none() && misses(known, &self.stated.claim) {
            self.failure = Some(Failure {
                step: steps,
                cycles: machine.cycles(),
                word: None,
            });
        }
    }
}

/// What the start tells that breaks a claim.
fn broken_at_start(claim: &Claim, processor: &Processor, machine: &Machine) -> Option<Failure>
    requires { FitsRun processor.now.scenario machine.now }
    ensures { result ≡ broken_at_start processor.now.scenario claim.now machine.now }
{
    match claim {
        Claim::At(_, _) | Claim::Calls(_, _) => {
            if breaks(claim, 0, &None, processor, machine, &None) {
                Some(Failure {
                    step: 0,
                    cycles: machine.cycles(),
                    word: told_of(claim, machine, &None),
                })
            } else {
                None
            }
        }
        _ => None,
    }
}

/// Whether a step breaks a claim that has counted so many before.
#[inline(always)]
fn breaks(
    claim: &Claim,
    seen: u64,
    call: &Option<Call>,
    processor: &Processor,
    machine: &Machine,
    put: &Option<Output>,
) -> bool
    requires { FitsRun processor.now.scenario machine.now }
    ensures { result ≡ breaks processor.now.scenario claim.now seen call.now machine.now put.now }
{
    match claim {
        Claim::Puts(sought) => {
            is_on(sought.channel, put) && seen == sought.before && !is_sought(sought, put)
        }
        Claim::PutsNoMore(channel, most) => is_on(*channel, put) && *most <= seen,
        Claim::Always(condition) => !condition.holds(machine),
        Claim::Never(condition) => condition.holds(machine),
        Claim::AtEnd(_) => false,
        Claim::At(place, condition) => {
            is_at(processor, machine, place) && !condition.holds(machine)
        }
        Claim::Calls(place, times) => is_at(processor, machine, place) && *times <= seen,
        Claim::CallsWithin(_, most) => is_long(*most, machine, call),
        Claim::Notes(_) | Claim::Check | Claim::Covered(_) => false,
    }
}

/// What a claim counts: words on its channel, or how often the program comes to its place.
#[inline(always)]
fn counts(claim: &Claim, processor: &Processor, machine: &Machine, put: &Option<Output>) -> bool
    requires { FitsRun processor.now.scenario machine.now }
    ensures { result ≡ counts processor.now.scenario claim.now machine.now put.now }
{
    match claim {
        Claim::Puts(sought) => is_on(sought.channel, put),
        Claim::PutsNoMore(channel, _) => is_on(*channel, put),
        Claim::Always(_) | Claim::Never(_) | Claim::AtEnd(_) => false,
        Claim::At(place, _) => is_at(processor, machine, place),
        Claim::Calls(place, _) | Claim::CallsWithin(place, _) => {
            is_at(processor, machine, place)
        }
        Claim::Notes(_) | Claim::Check | Claim::Covered(_) => false,
    }
}

/// What is told of a step that breaks a claim: the word that was put out, or the word at its place.
fn told_of(claim: &Claim, machine: &Machine, put: &Option<Output>) -> Option<Word>
    ensures { result ≡ told_of claim.now machine.now put.now }
{
    match claim {
        Claim::Puts(_) | Claim::PutsNoMore(_, _) => word_of(put),
        Claim::Always(it) | Claim::Never(it) | Claim::AtEnd(it) | Claim::At(_, it) => {
            Some(machine.word(it.place))
        }
        Claim::Calls(_, _) | Claim::CallsWithin(_, _) => None,
        Claim::Notes(_) | Claim::Check | Claim::Covered(_) => None,
    }
}

/// Whether a claim that no step has broken is still not borne out at the end.
fn lacks(claim: &Claim, seen: u64, machine: &Machine) -> bool
    ensures { result ≡ lacks claim.now seen machine.now }
{
    match claim {
        Claim::Puts(sought) => seen <= sought.before,
        Claim::PutsNoMore(_, _) | Claim::Always(_) | Claim::Never(_) => false,
        Claim::AtEnd(condition) => !condition.holds(machine),
        Claim::At(_, _) | Claim::CallsWithin(_, _) => seen == 0,
        Claim::Calls(_, times) => seen < *times,
        Claim::Notes(_) | Claim::Check | Claim::Covered(_) => false,
    }
}

/// What is told of the end then: nothing where it never came.
fn told_at_end(claim: &Claim, machine: &Machine) -> Option<Word>
    ensures { result ≡ told_at_end claim.now machine.now }
{
    match claim {
        Claim::AtEnd(condition) => Some(machine.word(condition.place)),
        _ => None,
    }
}

/// Whether a step has put a word on a channel.
#[inline(always)]
fn is_on(channel: Chan, put: &Option<Output>) -> bool
    ensures { result ≡ is_on channel put.now }
{
    match put {
        Some(output) => output.channel == channel,
        None => false,
    }
}

/// The word that a step has put out.
fn word_of(put: &Option<Output>) -> Option<Word>
    ensures { result ≡ word_of put.now }
{
    match put {
        Some(output) => Some(output.word),
        None => None,
    }
}

/// Whether it is the word that is sought, in time.
fn is_sought(sought: &Sought, put: &Option<Output>) -> bool
    ensures { result ≡ is_sought sought.now put.now }
{
    match put {
        Some(output) => output.word == sought.word && output.cycles <= sought.within,
        None => false,
    }
}

/// Whether the program executes the word at a place next.
#[inline(always)]
fn is_at(processor: &Processor, machine: &Machine, place: &Linear) -> bool
    requires { FitsRun processor.now.scenario machine.now }
    ensures { result ≡ is_at processor.now.scenario place.now machine.now }
{
    match processor.account(machine) {
        Account::Place(next) => next == *place,
        Account::Waiting => resumed_place(machine) == *place,
        Account::Input | Account::Entry => false,
    }
}

/// The place of a word that RESUME brings back, past which Z leads.
#[tactic(auto, unfolding(cpu::specs::Effects::place_in))]
fn resumed_place(machine: &Machine) -> Linear
    ensures { result ≡ resumed_place machine.now }
{
    let store = machine.store();
    let next = store.next_address().number();
    resolve(Addr12::of_low_bits(next + BEFORE), store.banks())
}

/// The call of a claim's routine that goes on after a step.
#[inline(always)]
fn called(
    claim: &Claim,
    call: &Option<Call>,
    processor: &Processor,
    machine: &Machine,
) -> Option<Call>
    requires { FitsRun processor.now.scenario machine.now }
    ensures { result ≡ called processor.now.scenario claim.now machine.now call.now }
{
    match claim {
        Claim::CallsWithin(place, _) => on_call(call, processor, machine, place),
        _ => None,
    }
}

/// The call of a routine that goes on after a step.
fn on_call(
    call: &Option<Call>,
    processor: &Processor,
    machine: &Machine,
    place: &Linear,
) -> Option<Call>
    requires { FitsRun processor.now.scenario machine.now }
    ensures { result ≡ on_call processor.now.scenario place.now machine.now call.now }
{
    match call {
        Some(call) => {
            if machine.store().next_address() == call.back {
                None
            } else {
                Some(*call)
            }
        }
        None => {
            if is_at(processor, machine, place) {
                Some(begun(machine))
            } else {
                None
            }
        }
    }
}

/// A call that begins.
fn begun(machine: &Machine) -> Call
    ensures { result ≡ begun machine.now }
{
    Call {
        back: Addr12::of_low_bits(machine.reg(Eras::Q).to_u16()),
        cycles: machine.cycles(),
    }
}

/// Whether a call has taken more cycles.
fn is_long(most: u64, machine: &Machine, call: &Option<Call>) -> bool
    ensures { result ≡ is_long most machine.now call.now }
{
    match call {
        Some(call) => most < machine.cycles().saturating_sub(call.cycles),
        None => false,
    }
}
