//! Whether the words that keys leave on their channels are read.

ghost use Rattle.std.specs.Prelude.{◌≡◌};
ghost use Rattle.notes.specs.Past.{comes_on, overwrites, reads_channel, reads_on, unread_by};

use crate::past::Past;
use cpu::{Fetched, Input, NextStep};

/// The channels of the two keyboards.
pub(crate) const FIRST_KEYBOARD: u16 = 0o15;

pub(crate) const SECOND_KEYBOARD: u16 = 0o16;

/// How many channels there are, and so how many words name one with the same instruction.
const CHANNELS: u16 = 0o1000;

/// Which of these instructions is WRITE, counted from 0.
const WRITE: u16 = 1;

/// The first word behind those that name a channel.
const NO_CHANNEL: u16 = 0o7000;

/// Whether an instruction reads a channel: READ, RAND, WAND, ROR, WOR or RXOR.
#[inline(always)]
pub(crate) fn reads_channel(fetched: &Fetched) -> bool
    ensures { result ≡ reads_channel fetched.now }
{
    let word = fetched.word.to_u16();
    fetched.extra && word < NO_CHANNEL && word / CHANNELS != WRITE
}

/// Whether an instruction reads this channel.
fn reads_on(channel: u16, fetched: &Fetched) -> bool
    ensures { result ≡ reads_on channel fetched.now }
{
    reads_channel(fetched) && fetched.word.to_u16() % CHANNELS == channel
}

/// Whether an input is a word on a channel.
pub(crate) fn comes_on(channel: u16, input: &Input) -> bool
    ensures { result ≡ comes_on channel input.now }
{
    match input {
        Input::Word(on, _) => on.number() == channel,
        Input::Count(_, _) | Input::Interrupt(_) => false,
    }
}

/// Whether the last word that came on a channel is unread after a step.
pub(crate) fn unread_by(channel: u16, before: bool, step: &NextStep) -> bool
    ensures { result ≡ unread_by channel before step.now }
{
    match step {
        NextStep::Takes(input) => before || comes_on(channel, input),
        NextStep::Enters(_) => before,
        NextStep::Executes(fetched) => before && !reads_on(channel, fetched),
    }
}

/// Whether an input is a key's word, and the one before it is unread.
pub(crate) fn overwrites(past: &Past, input: &Input) -> bool
    ensures { result ≡ overwrites past.now input.now }
{
    past.first_key && comes_on(FIRST_KEYBOARD, input)
        || past.second_key && comes_on(SECOND_KEYBOARD, input)
}
