//! Which field of a line of a feed is refused, and why.

ghost use Rattle.std.specs.Prelude.{◌≡◌, ◌≤◌, ◌+◌, is_some};
ghost use Rattle.agc_text.specs.Fields.{runs, texts};
ghost use Rattle.feed.specs.Slips.{slip_at, sequence_why, surplus_slip, word_slip, channel_slip, request_slip};
ghost use Rattle.feed.specs.Slips.{sequence_slip, input_slip, factors_slip, series_slip, line_slip};
ghost use Rattle.feed.specs.Statements.{cycle_in};

use crate::input::Counter;
use crate::names::{counter_of, sequence_of};
use crate::statement::{CYCLE_DIGITS, channel_in, factor_in, request_in, word_in};
use agc_text::{decimal, split_field};

/// A field of a line that is refused, and why.
#[derive(Clone, Copy, Drop)]
pub struct Slip {
    /// How many fields stand before it.
    pub field: u8,
    /// Why it is refused.
    pub why: Why,
}

/// Why a field of a line is refused.
#[derive(Clone, Copy, Drop)]
pub enum Why {
    /// It is not: nothing is wrong with the line.
    Taken,
    /// It begins the line, and is no cycle and not EVERY.
    Cycle,
    /// It stands for the first cycle of a series, and is none.
    First,
    /// It stands for NUM, DEN or COUNT of a series, and is none.
    Factor,
    /// Behind it a number of a series is missing.
    MissingFactor,
    /// It begins an input, and is neither CHAN nor RUPT nor a counter's name.
    Name,
    /// It is no channel of inputs.
    Channel,
    /// It is no word.
    Word,
    /// It is no interrupt that can be asked for.
    Request,
    /// It stands for a sequence of this counter, and is none.
    Sequence(Counter),
    /// It is a sequence that this counter does not take.
    NotTaken(Counter),
    /// Behind it a part of the input is missing.
    Missing,
    /// It follows the whole input.
    Surplus,
}

/// The field of a line without its comment at which the line is refused; the last where it is not.
pub fn line_slip(text: &[u8]) -> Slip
    ensures { result ≡ line_slip (texts (runs text.now)) }
{
    let Some((first, rest)) = split_field(text) else {
        return slip_at(0, Why::Taken);
    };
    if first == "EVERY".as_bytes() {
        series_slip(rest)
    } else if is_cycle(first) {
        input_slip(0, rest)
    } else {
        slip_at(0, Why::Cycle)
    }
}

/// Whether a field is a cycle: 1 to 15 decimal digits.
pub fn is_cycle(field: &[u8]) -> bool
    ensures { result ≡ is_some (cycle_in field.now) }
{
    decimal(field, CYCLE_DIGITS).is_some()
}

// A field that so many stand before, and why it is refused.
fn slip_at(field: u8, why: Why) -> Slip
    ensures { result ≡ slip_at field why }
{
    Slip { field, why }
}

// Of the fields after EVERY.
fn series_slip(text: &[u8]) -> Slip
    ensures { result ≡ series_slip (texts (runs text.now)) }
{
    let Some((first, rest)) = split_field(text) else {
        return slip_at(0, Why::MissingFactor);
    };
    if is_cycle(first) {
        factors_slip(3, 1, rest)
    } else {
        slip_at(1, Why::First)
    }
}

// Of those after the first cycle of a series: so many numbers, and an input.
fn factors_slip(left: u8, field: u8, text: &[u8]) -> Slip
    requires { field + left ≤ 4 }
    ensures { result ≡ factors_slip left field (texts (runs text.now)) }
{
    if left == 0 {
        return input_slip(field, text);
    }
    let Some((number, rest)) = split_field(text) else {
        return slip_at(field, Why::MissingFactor);
    };
    if factor_in(number).is_some() {
        factors_slip(left - 1, field + 1, rest)
    } else {
        slip_at(field + 1, Why::Factor)
    }
}

// Of those after a cycle, or after the numbers of a series: an input.
fn input_slip(field: u8, text: &[u8]) -> Slip
    requires { field ≤ 4 }
    ensures { result ≡ input_slip field (texts (runs text.now)) }
{
    let Some((name, rest)) = split_field(text) else {
        return slip_at(field, Why::Missing);
    };
    if name == "CHAN".as_bytes() {
        channel_slip(field + 1, rest)
    } else if name == "RUPT".as_bytes() {
        request_slip(field + 1, rest)
    } else if let Some(counter) = counter_of(name) {
        sequence_slip(field + 1, counter, rest)
    } else {
        slip_at(field + 1, Why::Name)
    }
}

// Of those after CHAN: a channel and a word.
fn channel_slip(field: u8, text: &[u8]) -> Slip
    requires { field ≤ 5 }
    ensures { result ≡ channel_slip field (texts (runs text.now)) }
{
    match split_field(text) {
        None => slip_at(field, Why::Missing),
        Some((channel, rest)) if channel_in(channel).is_some() => word_slip(field + 1, rest),
        Some(_) => slip_at(field + 1, Why::Channel),
    }
}

// Of those after a channel: a word.
fn word_slip(field: u8, text: &[u8]) -> Slip
    requires { field ≤ 6 }
    ensures { result ≡ word_slip field (texts (runs text.now)) }
{
    match split_field(text) {
        None => slip_at(field, Why::Missing),
        Some((word, rest)) if word_in(word).is_some() => {
            surplus_slip(field + 1, Why::Taken, rest)
        }
        Some(_) => slip_at(field + 1, Why::Word),
    }
}

// Of those after RUPT: an interrupt.
fn request_slip(field: u8, text: &[u8]) -> Slip
    requires { field ≤ 5 }
    ensures { result ≡ request_slip field (texts (runs text.now)) }
{
    match split_field(text) {
        None => slip_at(field, Why::Missing),
        Some((number, rest)) if request_in(number).is_some() => {
            surplus_slip(field + 1, Why::Taken, rest)
        }
        Some(_) => slip_at(field + 1, Why::Request),
    }
}

// Of those after a counter: a sequence.
fn sequence_slip(field: u8, counter: Counter, text: &[u8]) -> Slip
    requires { field ≤ 5 }
    ensures { result ≡ sequence_slip field counter (texts (runs text.now)) }
{
    match split_field(text) {
        None => slip_at(field, Why::Missing),
        Some((sequence, rest)) => surplus_slip(field + 1, sequence_why(counter, sequence), rest),
    }
}

// Why a counter does not take what stands for its sequence.
fn sequence_why(counter: Counter, text: &[u8]) -> Why
    ensures { result ≡ sequence_why counter text.now }
{
    match sequence_of(text) {
        Some(sequence) if counter.takes(sequence) => Why::Taken,
        Some(_) => Why::NotTaken(counter),
        None => Why::Sequence(counter),
    }
}

// Of those after all that an input has: the first is one too many, where there is one.
fn surplus_slip(field: u8, why: Why, text: &[u8]) -> Slip
    requires { field ≤ 7 }
    ensures { result ≡ surplus_slip field why (texts (runs text.now)) }
{
    match split_field(text) {
        None => slip_at(field, why),
        Some(_) => slip_at(field + 1, Why::Surplus),
    }
}
