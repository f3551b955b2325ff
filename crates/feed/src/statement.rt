//! What a line of a feed says, whatever stands before it.

ghost use Rattle.std.specs.Prelude.{◌≡◌, ◌∷◌, ◌<◌, ◌^◌, IfOk, IfSome};
ghost use Rattle.agc_text.specs.Fields.{runs, texts};
ghost use Rattle.feed.specs.Gathering.{IsRuled, HasRule};
ghost use Rattle.feed.specs.Statements.{is_allowed, is_input_channel, channel_in, word_in, request_in, factor_in};
ghost use Rattle.feed.specs.Statements.{formed, pulse_of, short_input, long_input, input_in, at_cycle, timed_in};
ghost use Rattle.feed.specs.Statements.{rule_in, statement_in, gives, repeats, statement_of, parsed};

use crate::entry::Rule;
use crate::fault::LineFault;
use crate::input::{Counter, Input, Sequence};
use crate::interrupt::{INTERRUPTS, Interrupt};
use crate::names::{counter_of, sequence_of};
use agc_text::{LINE_LENGTH, before_comment, decimal, is_text, octal, split_field};
use space::Chan;
use words::Word;

/// The most digits of a cycle.
pub(crate) const CYCLE_DIGITS: usize = 15;

/// The most digits of the other numbers of a rule.
const FACTOR_DIGITS: usize = 9;

/// The most digits of a channel and of a word.
const OCTAL_DIGITS: usize = 5;

/// The most digits of an interrupt's number.
const REQUEST_DIGITS: usize = 2;

/// What a line says.
#[derive(Clone, Copy, Drop)]
pub enum Statement {
    /// No field stands.
    Nothing,
    /// The line has a fault.
    Faulty(LineFault),
    /// An input at its cycle.
    Gives(u64, Input),
    /// A series of inputs.
    Repeats(Rule),
}

/// The cycle and the input that a line tells: `cycle CHAN channel word`, `cycle RUPT k` or `cycle counter sequence`.
///
/// `BadLine` for any other line, one without a field included; `WrongCounter` where the counter does not take the
/// sequence. Nothing here takes memory.
#[tactic(auto, unfolding(crate::specs::Statements::parsed))]
pub fn parse_line(line: &[u8]) -> Result<(u64, Input), LineFault>
    ensures { result ≡ parsed line.now }
{
    if !is_allowed(line) {
        return Err(LineFault::BadLine);
    }
    match split_field(before_comment(line)) {
        Some((cycle, input)) => timed_in(cycle, input),
        None => Err(LineFault::BadLine),
    }
}

/// What a line says.
#[tactic(auto, unfolding(crate::specs::Statements::statement_of))]
pub(crate) fn statement_of(line: &[u8]) -> Statement
    ensures value { result ≡ statement_of line.now }
    ensures rule { HasRule result }
{
    if !is_allowed(line) {
        return Statement::Faulty(LineFault::BadLine);
    }
    match split_field(before_comment(line)) {
        Some((first, rest)) => statement_in(first, rest),
        None => Statement::Nothing,
    }
}

// What a first field and the fields after it say.
fn statement_in(first: &[u8], rest: &[u8]) -> Statement
    ensures value { result ≡ statement_in (first.now ∷ texts (runs rest.now)) }
    ensures rule { HasRule result }
{
    if first == "EVERY".as_bytes() {
        repeats(rule_in(rest))
    } else {
        gives(timed_in(first, rest))
    }
}

// Whether a line is short enough and may hold each of its bytes.
fn is_allowed(line: &[u8]) -> bool
    ensures { result ≡ is_allowed line.now }
{
    line.len() <= LINE_LENGTH && is_text(line)
}

fn gives(timed: Result<(u64, Input), LineFault>) -> Statement
    ensures value { result ≡ gives timed }
    ensures rule { HasRule result }
{
    match timed {
        Ok((cycle, input)) => Statement::Gives(cycle, input),
        Err(fault) => Statement::Faulty(fault),
    }
}

fn repeats(rule: Result<Rule, LineFault>) -> Statement
    ensures value { result ≡ repeats rule }
    ensures rule { IfOk rule IsRuled → HasRule result }
{
    match rule {
        Ok(rule) => Statement::Repeats(rule),
        Err(fault) => Statement::Faulty(fault),
    }
}

// The rule that stands after EVERY.
fn rule_in(text: &[u8]) -> Result<Rule, LineFault>
    ensures value { result ≡ rule_in (texts (runs text.now)) }
    ensures small { IfOk result IsRuled }
{
    let Some((first, rest)) = split_field(text) else {
        return Err(LineFault::BadLine);
    };
    let Some((num, rest)) = split_field(rest) else {
        return Err(LineFault::BadLine);
    };
    let Some((den, rest)) = split_field(rest) else {
        return Err(LineFault::BadLine);
    };
    let Some((count, input)) = split_field(rest) else {
        return Err(LineFault::BadLine);
    };
    let Some(first) = decimal(first, CYCLE_DIGITS) else {
        return Err(LineFault::BadLine);
    };
    let (Some(num), Some(den), Some(count)) = (factor_in(num), factor_in(den), factor_in(count))
    else {
        return Err(LineFault::BadLine);
    };
    Ok(Rule {
        first,
        num,
        den,
        count,
        input: input_in(input)?,
    })
}

// A number that makes the cycles of a series.
pub(crate) fn factor_in(field: &[u8]) -> Option<u64>
    ensures value { result ≡ factor_in field.now }
    ensures below { IfSome result (λ n. n < 10 ^ 9) }
    ensures some { IfSome result (λ n. 0 < n) }
{
    match decimal(field, FACTOR_DIGITS) {
        Some(number) if number >= 1 => Some(number),
        Some(_) => None,
        None => None,
    }
}

// The input that stands after a cycle, and that.
fn timed_in(cycle: &[u8], input: &[u8]) -> Result<(u64, Input), LineFault>
    ensures { result ≡ timed_in (cycle.now ∷ texts (runs input.now)) }
{
    at_cycle(decimal(cycle, CYCLE_DIGITS), input_in(input))
}

fn at_cycle(cycle: Option<u64>, input: Result<Input, LineFault>) -> Result<(u64, Input), LineFault>
    ensures { result ≡ at_cycle cycle input }
{
    match (cycle, input) {
        (Some(cycle), Ok(input)) => Ok((cycle, input)),
        (Some(_), Err(fault)) => Err(fault),
        (None, _) => Err(LineFault::BadLine),
    }
}

// The input that the fields of a text tell.
fn input_in(text: &[u8]) -> Result<Input, LineFault>
    ensures { result ≡ input_in (texts (runs text.now)) }
{
    let Some((name, rest)) = split_field(text) else {
        return Err(LineFault::BadLine);
    };
    let Some((first, rest)) = split_field(rest) else {
        return Err(LineFault::BadLine);
    };
    let Some((second, rest)) = split_field(rest) else {
        return short_input(name, first);
    };
    match split_field(rest) {
        Some(_) => Err(LineFault::BadLine),
        None => long_input(name, first, second),
    }
}

/// An interrupt that is asked for, `RUPT k`, or a pulse of a counter, `counter sequence`, by its two fields.
pub fn short_input(name: &[u8], argument: &[u8]) -> Result<Input, LineFault>
    ensures { result ≡ short_input name.now argument.now }
{
    if name == "RUPT".as_bytes() {
        formed(request_in(argument))
    } else {
        pulse_of(counter_of(name), sequence_of(argument))
    }
}

/// A word on a channel, `CHAN channel word`, by its three fields.
pub fn long_input(name: &[u8], channel: &[u8], word: &[u8]) -> Result<Input, LineFault>
    ensures { result ≡ long_input name.now channel.now word.now }
{
    if name != "CHAN".as_bytes() {
        return Err(LineFault::BadLine);
    }
    match (channel_in(channel), word_in(word)) {
        (Some(channel), Some(word)) => Ok(Input::Word(channel, word)),
        (Some(_), None) => Err(LineFault::BadLine),
        (None, _) => Err(LineFault::BadLine),
    }
}

// An input, where it has its form.
fn formed(input: Option<Input>) -> Result<Input, LineFault>
    ensures { result ≡ formed input }
{
    match input {
        Some(input) => Ok(input),
        None => Err(LineFault::BadLine),
    }
}

// A pulse of a counter, where both have their names and the counter takes the sequence.
fn pulse_of(counter: Option<Counter>, sequence: Option<Sequence>) -> Result<Input, LineFault>
    ensures { result ≡ pulse_of counter sequence }
{
    match (counter, sequence) {
        (Some(counter), Some(sequence)) if counter.takes(sequence) => {
            Ok(Input::Count(counter, sequence))
        }
        (Some(_), Some(_)) => Err(LineFault::WrongCounter),
        (Some(_), None) => Err(LineFault::BadLine),
        (None, _) => Err(LineFault::BadLine),
    }
}

// The channel of some octal digits, where it takes inputs: all do but L and Q.
pub(crate) fn channel_in(field: &[u8]) -> Option<Chan>
    ensures { result ≡ channel_in field.now }
{
    match octal(field, OCTAL_DIGITS) {
        Some(number) if is_input_channel(number) => Chan::try_new(number as u16),
        Some(_) => None,
        None => None,
    }
}

fn is_input_channel(number: u64) -> bool
    ensures { result ≡ is_input_channel number }
{
    number == 0 || (3..0o1000).contains(&number)
}

/// The word of 1 to 5 octal digits, where the field is that.
pub fn word_in(field: &[u8]) -> Option<Word>
    ensures { result ≡ word_in field.now }
{
    match octal(field, OCTAL_DIGITS) {
        Some(number) if number <= 0o77777 => Some(Word::of_low_bits(number as u16)),
        Some(_) => None,
        None => None,
    }
}

// The interrupt of some decimal digits.
pub(crate) fn request_in(field: &[u8]) -> Option<Input>
    ensures { result ≡ request_in field.now }
{
    match decimal(field, REQUEST_DIGITS) {
        Some(number) if (1..=u64::from(INTERRUPTS)).contains(&number) => {
            Some(Input::Interrupt(Interrupt::new(number as u8)))
        }
        Some(_) => None,
        None => None,
    }
}
