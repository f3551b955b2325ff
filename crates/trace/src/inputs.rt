//! Inputs and interrupts as text.

ghost use Rattle.std.specs.Prelude.{◌≡◌, ◌+◌, ◌≤◌, ◌++◌, length};
ghost use Rattle.arrayvec.specs.ArrayVec.{array_vec_len};
ghost use Rattle.feed.specs.Counters.{row_of};
ghost use Rattle.trace.specs.TraceLines.{asked_text, input_text, interrupt_name, sequence_name};

use crate::fields::Text;
use arrayvec::ArrayVec;
use feed::interrupt::Interrupt;
use feed::{Counter, Input, Sequence};
use words::{push_all, push_decimal, push_octal};

/// An input, as a line of a feed has it after its cycle.
#[tactic(auto, using(words::proofs::Digits::short_decimal))]
pub fn input_text(input: &Input) -> Text
    ensures items { result.items ≡ input_text input.now }
    ensures short { array_vec_len result ≤ 32 }
{
    let mut text = ArrayVec::new();
    match input {
        Input::Count(counter, sequence) => {
            push_all(&mut text, counter_name(*counter));
            push_all(&mut text, b" ");
            push_all(&mut text, sequence_name(*sequence));
        }
        Input::Word(channel, word) => {
            push_all(&mut text, b"CHAN ");
            push_octal(&mut text, 3, channel.number());
            push_all(&mut text, b" ");
            push_octal(&mut text, 5, word.to_u16());
        }
        Input::Interrupt(interrupt) => {
            push_all(&mut text, b"RUPT ");
            push_decimal(&mut text, u64::from(interrupt.number()));
        }
    }
    text
}

/// Appends the interrupt for which an input asks, if any.
pub(crate) fn push_asked(text: &mut Text, asked: Option<Interrupt>)
    requires { array_vec_len text.old ≤ 32 }
    ensures items { text.new.items ≡ text.old.items ++ asked_text asked }
    ensures short { array_vec_len text.new ≤ array_vec_len text.old + 14 }
{
    if let Some(interrupt) = asked {
        push_all(text, b" ASKS ");
        push_all(text, interrupt_name(interrupt));
    }
}

/// The name of a counter.
fn counter_name(counter: Counter) -> &'static [u8]
    ensures name { result.now ≡ (row_of counter).name }
    ensures short { length result.now ≤ 6 }
{
    match counter {
        Counter::Time1 => b"TIME1",
        Counter::Time2 => b"TIME2",
        Counter::Time3 => b"TIME3",
        Counter::Time4 => b"TIME4",
        Counter::Time5 => b"TIME5",
        Counter::Time6 => b"TIME6",
        Counter::CduX => b"CDUX",
        Counter::CduY => b"CDUY",
        Counter::CduZ => b"CDUZ",
        Counter::OptY => b"OPTY",
        Counter::OptX => b"OPTX",
        Counter::PipaX => b"PIPAX",
        Counter::PipaY => b"PIPAY",
        Counter::PipaZ => b"PIPAZ",
        Counter::Inlink => b"INLINK",
    }
}

/// The name of a sequence.
fn sequence_name(sequence: Sequence) -> &'static [u8]
    ensures name { result.now ≡ sequence_name sequence }
    ensures short { length result.now ≤ 5 }
{
    match sequence {
        Sequence::Pinc => b"PINC",
        Sequence::Minc => b"MINC",
        Sequence::Dinc => b"DINC",
        Sequence::Pcdu => b"PCDU",
        Sequence::Mcdu => b"MCDU",
        Sequence::Shinc => b"SHINC",
        Sequence::Shanc => b"SHANC",
    }
}

/// The name of an interrupt.
pub fn interrupt_name(interrupt: Interrupt) -> &'static [u8]
    ensures name { result.now ≡ interrupt_name interrupt }
    ensures short { length result.now ≤ 8 }
{
    match interrupt.number() {
        1 => b"T6RUPT",
        2 => b"T5RUPT",
        3 => b"T3RUPT",
        4 => b"T4RUPT",
        5 => b"KEYRUPT1",
        6 => b"KEYRUPT2",
        7 => b"UPRUPT",
        8 => b"DOWNRUPT",
        9 => b"RADARUPT",
        _ => b"RUPT10",
    }
}
