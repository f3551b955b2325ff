//! Taking an input.

ghost use Rattle.std.specs.Prelude.{◌≡◌, ◌≤◌, Some, None, if◌then◌else◌};
ghost use Rattle.cpu.specs.Inputs.{step_of, is_overflow, asked_by, carried_by, stepped, carried, asked, counted};
ghost use Rattle.cpu.specs.Inputs.{asked_on, received, take};
ghost use Rattle.cpu.specs.Asking.{interrupt_asked};
ghost use Rattle.cpu.specs.Representation.{HasRoom};
ghost use Rattle.cpu.specs.Next.{most_cycles};

use crate::machine::Machine;
use feed::{Asks, Counter, Input, Interrupt, Sequence};
use space::Chan;
use words::{Carry, CounterStep, Word};

/// The cycles that a sequence of a counter takes.
const COUNTER_CYCLES: u64 = 1;

/// The interrupts for which the two keyboards ask.
const FIRST_KEYBOARD: u8 = 5;

const SECOND_KEYBOARD: u8 = 6;

/// The channels of the two keyboards.
const FIRST_KEYBOARD_CHANNEL: u16 = 0o15;

const SECOND_KEYBOARD_CHANNEL: u16 = 0o16;

impl Machine {
    /// Takes an input that is from a series or plain.
    #[tactic(auto, unfolding(crate::specs::Inputs::take))]
    pub(crate) fn take(&mut self, input: Input, series: Option<usize>)
        requires { self.old.cycles ≤ most_cycles }
        ensures { HasRoom self.old → self.new ≡ take self.old (input, series) }
    {
        self.count_input(series);
        match input {
            Input::Count(counter, sequence) => {
                self.add_cycles(COUNTER_CYCLES);
                self.count(counter, sequence);
            }
            Input::Word(channel, word) => self.receive(channel, word),
            Input::Interrupt(request) => self.ask(request),
        }
    }

    /// The interrupt for which an input asks, where it is taken now.
    pub fn interrupt_asked(&self, input: Input) -> Option<Interrupt>
        ensures { result ≡ interrupt_asked self.now input }
    {
        match input {
            Input::Count(counter, sequence) => {
                let step = step_of(sequence, self.word(counter.place()));
                asked_by(counter.asks(), &step)
            }
            Input::Word(channel, _) => asked_on(channel),
            Input::Interrupt(interrupt) => Some(interrupt),
        }
    }

    /// A sequence of a counter: its step, what that carries into another counter, and the interrupt for which it asks.
    #[tactic(auto, unfolding(crate::specs::Inputs::counted))]
    fn count(&mut self, counter: Counter, sequence: Sequence)
        ensures { self.new ≡ counted self.old counter sequence }
    {
        let step = step_of(sequence, self.word(counter.place()));
        self.set_counter(counter, &step);
        self.carry(carried_by(counter.asks()), step.carry);
        self.ask_any(asked_by(counter.asks(), &step));
    }

    /// A counter holds the word of a step.
    fn set_counter(&mut self, counter: Counter, step: &CounterStep)
        ensures { self.new ≡ stepped self.old counter step.now }
    {
        self.put(counter.place(), step.word.extend());
    }

    /// Adds one to a counter into which an overflow is carried.
    fn carry(&mut self, counter: Option<Counter>, carry: Carry)
        ensures { self.new ≡ carried self.old counter carry }
    {
        if let Some(counter) = counter
            && is_overflow(carry)
        {
            let step = self.word(counter.place()).pinc();
            self.set_counter(counter, &step);
        }
    }

    /// A word on a channel, which may ask for an interrupt.
    #[tactic(auto, unfolding(crate::specs::Inputs::received))]
    fn receive(&mut self, channel: Chan, word: Word)
        ensures { self.new ≡ received self.old channel word }
    {
        self.set_channel(channel, word.extend());
        self.ask_any(asked_on(channel));
    }

    /// Asks for an interrupt, if there is one to ask for.
    fn ask_any(&mut self, request: Option<Interrupt>)
        ensures { self.new ≡ asked self.old request }
    {
        if let Some(request) = request {
            self.ask(request);
        }
    }
}

/// The step that a sequence makes of a word.
pub(crate) fn step_of(sequence: Sequence, word: Word) -> CounterStep
    ensures { result ≡ step_of sequence word }
{
    match sequence {
        Sequence::Pinc => word.pinc(),
        Sequence::Minc => word.minc(),
        Sequence::Dinc => word.dinc(),
        Sequence::Pcdu => word.pcdu(),
        Sequence::Mcdu => word.mcdu(),
        Sequence::Shinc => word.shinc(),
        Sequence::Shanc => word.shanc(),
    }
}

/// Whether plus or minus one has overflowed.
pub(crate) fn is_overflow(carry: Carry) -> bool
    ensures { result ≡ is_overflow carry }
{
    carry == Carry::Plus || carry == Carry::Minus
}

/// The counter into which an overflow is carried.
pub(crate) fn carried_by(asks: Asks) -> Option<Counter>
    ensures { result ≡ carried_by asks }
{
    match asks {
        Asks::CarryInto(other) => Some(other),
        _ => None,
    }
}

/// The interrupt that is asked for after a step.
fn asked_by(asks: Asks, step: &CounterStep) -> Option<Interrupt>
    ensures { result ≡ asked_by asks step.now }
{
    match asks {
        Asks::Nothing | Asks::CarryInto(_) => None,
        Asks::OnOverflow(request) => request_if(is_overflow(step.carry), request),
        Asks::AtZero(request) => request_if(step.word == Word::ZERO, request),
        Asks::OnOneShiftedOut(request) => request_if(step.carry == Carry::ShiftedOut, request),
    }
}

/// The interrupt for which a word on a channel asks.
fn asked_on(channel: Chan) -> Option<Interrupt>
    ensures { result ≡ asked_on channel }
{
    match channel.number() {
        FIRST_KEYBOARD_CHANNEL => Some(Interrupt::new(FIRST_KEYBOARD)),
        SECOND_KEYBOARD_CHANNEL => Some(Interrupt::new(SECOND_KEYBOARD)),
        _ => None,
    }
}

/// An interrupt, where it is asked for.
fn request_if(is_asked: bool, request: Interrupt) -> Option<Interrupt>
    ensures { result ≡ (if is_asked then Some request else None) }
{
    if is_asked { Some(request) } else { None }
}
