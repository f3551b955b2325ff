//! What is noted before a step, by which it is known what the step did.

ghost use Rattle.std.specs.Prelude.{◌≡◌, map, get_or, None};
ghost use Rattle.cpu.specs.State.{FitsRun};
ghost use Rattle.debugger.specs.History.{word_of, step_from};
ghost use Rattle.debugger.specs.Growth.{is_executed};
ghost use Rattle.debugger.specs.Stopping.{watched_word, is_other};

use arrayvec::ArrayVec;
use commands::{Breakpoint, Breakpoints, MOST_BREAKPOINTS, Subject};
use cpu::{Account, Machine, Processor};
use space::Linear;
use words::Word;

/// What was noted before a step.
#[derive(Drop)]
pub(crate) struct Noted {
    /// The place whose instruction the step executes, if it executes one.
    executed: Option<Linear>,

    /// For each breakpoint the word that it watches for a change, if it watches one.
    words: ArrayVec<Option<Word>, MOST_BREAKPOINTS>,
}

impl Noted {
    /// What some breakpoints ask of the next step. It stands apart, so that a step without it has none of its locals.
    #[inline(never)]
    pub(crate) fn asked_by(
        breakpoints: &Breakpoints,
        processor: &Processor,
        machine: &Machine,
    ) -> Noted
        ensures executed { FitsRun processor.now.scenario machine.now
            → result.executed ≡ (step_from processor.now.scenario machine.now).executed }
        ensures words { result.words.items ≡ map (watched_word machine.now) breakpoints.now }
    {
        Noted {
            executed: place_executed(processor, machine),
            words: watched_words(breakpoints, machine),
        }
    }

    /// Whether the step executed the instruction at a place.
    pub(crate) fn has_executed(&self, place: &Linear) -> bool
        ensures { result ≡ is_executed self.now.executed place.now }
    {
        match &self.executed {
            Some(executed) => executed == place,
            None => false,
        }
    }

    /// Whether the step to a machine changed the word that the breakpoint of an index watches.
    pub(crate) fn has_changed(&self, index: usize, subject: Subject, machine: &Machine) -> bool
        ensures { result ≡ is_other (get_or self.now.words.items index None) machine.now subject }
    {
        match self.words.as_slice().get(index) {
            Some(Some(word)) => *word != word_of(subject, machine),
            Some(None) => false,
            None => false,
        }
    }
}

/// The place whose instruction the next step executes, if it executes one.
fn place_executed(processor: &Processor, machine: &Machine) -> Option<Linear>
    ensures { FitsRun processor.now.scenario machine.now
        → result ≡ (step_from processor.now.scenario machine.now).executed }
{
    match processor.account(machine) {
        Account::Place(place) => Some(place),
        Account::Input => None,
        Account::Entry => None,
        Account::Waiting => None,
    }
}

/// For each breakpoint the word that it watches for a change, if it watches one.
fn watched_words(
    breakpoints: &Breakpoints,
    machine: &Machine,
) -> ArrayVec<Option<Word>, MOST_BREAKPOINTS>
    ensures { result.items ≡ map (watched_word machine.now) breakpoints.now }
{
    let mut words = ArrayVec::new();
    let _at_most_sixteen = breakpoints.len();
    for breakpoint in breakpoints.as_slice() {
        words.push(watched_word(breakpoint, machine));
    }
    words
}

/// The word that a breakpoint watches for a change, if it watches one.
fn watched_word(breakpoint: &Breakpoint, machine: &Machine) -> Option<Word>
    ensures { result ≡ watched_word machine.now breakpoint.now }
{
    match breakpoint {
        Breakpoint::Changed(subject) => Some(word_of(*subject, machine)),
        _ => None,
    }
}

/// The word of an erasable place or of a channel.
pub(crate) fn word_of(subject: Subject, machine: &Machine) -> Word
    ensures { result ≡ word_of machine.now subject }
{
    match subject {
        Subject::Place(place) => machine.word(place),
        Subject::Channel(channel) => machine.channel(channel).correct(),
    }
}
