//! What is wrong with a line of a feed in words, by why one of its fields is refused.

ghost use Rattle.std.specs.Prelude.{◌≡◌, is_some};
ghost use Rattle.diagnostics.specs.FeedCauses.{is_decimal, taken_words, slip_cause, cycle_cause, first_cause};
ghost use Rattle.diagnostics.specs.FeedCauses.{factor_cause, name_cause, channel_cause, word_cause};
ghost use Rattle.diagnostics.specs.FeedCauses.{not_taken};
ghost use Rattle.diagnostics.specs.Views.{cause_in};

use crate::causes::{Cause, is_beyond_octal};
use agc_text::decimal_value;
use explain::meaning;
use feed::{Counter, Sequence, Why, input_names};
use near_names::{is_among, is_in_capitals, near_in};

/// The most digits of NUM, DEN and COUNT of a series.
const FACTOR_DIGITS: usize = 9;

/// Why a field of a line of a feed is refused, in words; `~` stands for the field.
pub(crate) fn slip_cause(why: Why, text: &[u8]) -> Cause
    ensures { cause_in result ≡ slip_cause why text.now }
{
    match why {
        Why::Taken => Cause::said(meaning(30)),
        Why::Cycle => cycle_cause(text),
        Why::First => first_cause(text),
        Why::Factor => factor_cause(text),
        Why::MissingFactor => Cause::said(
            b"EVERY is followed by FIRST NUM DEN COUNT, and an input without its cycle",
        ),
        Why::Name => name_cause(text),
        Why::Channel => channel_cause(text),
        Why::Word => word_cause(text),
        Why::Request => Cause::said(b"~ is no interrupt, which are 1 to 10"),
        Why::Sequence(counter) => not_taken(b"~ is no sequence", counter),
        Why::NotTaken(counter) => not_taken(b"the counter does not take ~", counter),
        Why::Missing => Cause::cured(
            b"nothing follows ~",
            b"CHAN with a channel and a word, RUPT with a number, or a counter with a sequence",
        ),
        Why::Surplus => Cause::cured(b"~ follows the whole input", b"a comment begins with #"),
    }
}

// Why a field is no cycle.
fn cycle_cause(text: &[u8]) -> Cause
    ensures { cause_in result ≡ cycle_cause text.now }
{
    if is_among(input_names(), text) {
        Cause::cured(
            b"no cycle stands before ~",
            b"a line begins with its cycle, in decimal digits",
        )
    } else if is_in_capitals(text, b"EVERY") {
        Cause::cured(b"~ is no cycle", b"did you mean EVERY?")
    } else if is_decimal(text) {
        Cause::said(b"a cycle has 15 digits at most")
    } else {
        Cause::said(b"~ is no cycle, which is 1 to 15 decimal digits")
    }
}

// What stands for FIRST of a series.
fn first_cause(text: &[u8]) -> Cause
    ensures { cause_in result ≡ first_cause text.now }
{
    if is_among(input_names(), text) {
        Cause::cured(
            b"a number is missing before ~",
            b"EVERY FIRST NUM DEN COUNT, and an input without its cycle",
        )
    } else {
        cycle_cause(text)
    }
}

// Why it is none of the numbers of a series.
fn factor_cause(text: &[u8]) -> Cause
    ensures { cause_in result ≡ factor_cause text.now }
{
    if is_among(input_names(), text) {
        Cause::cured(
            b"a number is missing before ~",
            b"EVERY FIRST NUM DEN COUNT, and an input without its cycle",
        )
    } else if !is_decimal(text) {
        Cause::said(b"~ is no number, which is 1 to 9 decimal digits")
    } else if text.len() <= FACTOR_DIGITS {
        Cause::said(b"NUM, DEN and COUNT are 1 or more")
    } else {
        Cause::said(b"NUM, DEN and COUNT have 9 digits at most")
    }
}

// Why it begins no input.
fn name_cause(text: &[u8]) -> Cause
    ensures { cause_in result ≡ name_cause text.now }
{
    if is_decimal(text) {
        Cause::cured(
            b"~ stands where CHAN, RUPT or a counter does",
            b"one cycle stands before an input, and none before that of a series",
        )
    } else if let Some(near) = near_in(input_names(), text) {
        Cause::cured_by(
            b"~ is no counter, and neither CHAN nor RUPT",
            b"did you mean !?",
            near,
        )
    } else {
        Cause::said(b"~ is no counter, and neither CHAN nor RUPT")
    }
}

fn channel_cause(text: &[u8]) -> Cause
    ensures { cause_in result ≡ channel_cause text.now }
{
    if is_beyond_octal(text) {
        Cause::said(b"channels are octal, and ~ has a digit 8 or 9")
    } else {
        Cause::said(b"~ is no channel of inputs, which are 0 and 3 to 777 in octal")
    }
}

fn word_cause(text: &[u8]) -> Cause
    ensures { cause_in result ≡ word_cause text.now }
{
    if is_beyond_octal(text) {
        Cause::said(b"words are octal, and ~ has a digit 8 or 9")
    } else {
        Cause::said(b"~ is no word, which is 0 to 77777 in octal")
    }
}

// What is no sequence that a counter takes.
fn not_taken(words: &'static [u8], counter: Counter) -> Cause
    ensures { cause_in result ≡ not_taken words.now counter }
{
    Cause::cured_by(words, taken_words(counter), counter.name())
}

// What a counter takes, in words; `!` stands for its name.
fn taken_words(counter: Counter) -> &'static [u8]
    ensures { result.now ≡ taken_words counter }
{
    if counter.takes(Sequence::Pcdu) {
        b"! takes PCDU and MCDU"
    } else if counter.takes(Sequence::Shinc) {
        b"! takes SHINC and SHANC"
    } else if counter.takes(Sequence::Minc) {
        b"! takes PINC and MINC"
    } else if counter.takes(Sequence::Dinc) {
        b"! takes DINC"
    } else {
        b"! takes PINC"
    }
}

fn is_decimal(text: &[u8]) -> bool
    ensures { result ≡ is_decimal text.now }
{
    decimal_value(text).is_some()
}
