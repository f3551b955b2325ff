//! What `whatif` takes.

ghost use Rattle.std.specs.Prelude.{◌≡◌, option_and_then};
ghost use Rattle.agc_text.specs.Fields.{runs, texts};
ghost use Rattle.commands.specs.WhatIfs.{each_in, extent_in, here_in, input_tried, restart_tried, tried_in};
ghost use Rattle.commands.specs.WhatIfs.{noted_of, noted_since, noted_tried, notes_form, trial_form};
ghost use Rattle.commands.specs.WhatIfs.{usual_steps, whatif_form, word_tried};

use crate::command::ParsedLine;
use crate::extended::ExtendedLine;
use crate::fields::{count_in, is_word};
use agc_text::split_field;
use feed::{Input, LineFault, long_input, short_input};

/// How many steps it goes on where no number is named.
const USUAL_STEPS: u64 = 1_000;

/// What is tried.
#[derive(Clone, Copy, PartialEq, Eq, Debug, Drop)]
pub enum Trial {
    /// An input more.
    Given(Input),
    /// A restart.
    Restart,
    /// An input more, of which the notes are told that come and go: those since a step, or since it comes.
    Noted(Option<u64>, Input),
}

/// Where it is tried, and how many steps on.
#[derive(Clone, Copy, PartialEq, Eq, Debug, Drop)]
pub enum Extent {
    /// So many steps on, at the position.
    Here(u64),
    /// So many steps on from the last, at each of some steps: the first of them, and how many more.
    Each(u64, u64, u64),
}

// What `whatif` takes.
pub(crate) fn whatif_form(rest: &[u8]) -> Option<ExtendedLine>
    ensures { result ≡ whatif_form (texts (runs rest.now)) }
{
    let (word, more) = split_field(rest)?;
    if is_word(word, "notes") {
        notes_form(more)
    } else {
        trial_form(rest)
    }
}

// What stands after `notes`: since which step they count, if that is said, and what is tried.
fn notes_form(rest: &[u8]) -> Option<ExtendedLine>
    ensures { result ≡ notes_form (texts (runs rest.now)) }
{
    let (word, more) = split_field(rest)?;
    if is_word(word, "since") {
        noted_since(more)
    } else {
        noted_tried(None, rest)
    }
}

// A step since which notes count, and what is tried.
fn noted_since(rest: &[u8]) -> Option<ExtendedLine>
    ensures { result ≡ noted_since (texts (runs rest.now)) }
{
    let (step, more) = split_field(rest)?;
    let since = count_in(step)?;
    noted_tried(Some(since), more)
}

// What is tried, of which the notes are told.
fn noted_tried(since: Option<u64>, rest: &[u8]) -> Option<ExtendedLine>
    ensures { result ≡ noted_tried since (texts (runs rest.now)) }
{
    let request = trial_form(rest)?;
    noted_of(since, request)
}

// An input that is tried, of which the notes are told; of a restart none are.
fn noted_of(since: Option<u64>, request: ExtendedLine) -> Option<ExtendedLine>
    ensures { result ≡ noted_of since request }
{
    match request {
        ExtendedLine::WhatIf(Trial::Given(input), extent) => {
            Some(ExtendedLine::WhatIf(Trial::Noted(since, input), extent))
        }
        ExtendedLine::WhatIf(_, _) => None,
        request => Some(request),
    }
}

// What is tried.
fn trial_form(rest: &[u8]) -> Option<ExtendedLine>
    ensures { result ≡ trial_form (texts (runs rest.now)) }
{
    let (name, rest) = split_field(rest)?;
    if is_word(name, "RESTART") {
        restart_tried(extent_in(rest))
    } else {
        input_tried(name, rest)
    }
}

// A restart that is tried so.
fn restart_tried(extent: Option<Extent>) -> Option<ExtendedLine>
    ensures { result ≡ restart_tried extent }
{
    match extent {
        Some(extent) => Some(ExtendedLine::WhatIf(Trial::Restart, extent)),
        None => None,
    }
}

// An input that is tried: what it begins with, and the rest of it.
fn input_tried(name: &[u8], rest: &[u8]) -> Option<ExtendedLine>
    ensures { result ≡ input_tried name.now (texts (runs rest.now)) }
{
    let (first, rest) = split_field(rest)?;
    if is_word(name, "CHAN") {
        word_tried(name, first, rest)
    } else {
        tried_in(short_input(name, first), extent_in(rest))
    }
}

// A word on a channel that is tried.
fn word_tried(name: &[u8], channel: &[u8], rest: &[u8]) -> Option<ExtendedLine>
    ensures { result ≡ word_tried name.now channel.now (texts (runs rest.now)) }
{
    let (word, rest) = split_field(rest)?;
    tried_in(long_input(name, channel, word), extent_in(rest))
}

// What stands after an input.
fn extent_in(rest: &[u8]) -> Option<Extent>
    ensures { result ≡ extent_in (texts (runs rest.now)) }
{
    let Some((steps, rest)) = split_field(rest) else {
        return Some(Extent::Here(USUAL_STEPS));
    };
    let Some((from, rest)) = split_field(rest) else {
        return here_in(count_in(steps));
    };
    let (first, rest) = split_field(rest)?;
    let (to, rest) = split_field(rest)?;
    let (last, rest) = split_field(rest)?;
    if split_field(rest).is_some() {
        return None;
    }
    if is_word(from, "from") && is_word(to, "to") {
        each_in(count_in(steps), count_in(first), count_in(last))
    } else {
        None
    }
}

// So many steps on, at the position.
fn here_in(steps: Option<u64>) -> Option<Extent>
    ensures { result ≡ here_in steps }
{
    match steps {
        Some(steps) => Some(Extent::Here(steps)),
        None => None,
    }
}

// So many steps on, at each step from one to another.
fn each_in(steps: Option<u64>, first: Option<u64>, last: Option<u64>) -> Option<Extent>
    ensures { result ≡ each_in steps first last }
{
    let (Some(steps), Some(first), Some(last)) = (steps, first, last) else {
        return None;
    };
    if first <= last {
        Some(Extent::Each(steps, first, last - first))
    } else {
        None
    }
}

// An input that is tried so, where it has its form.
fn tried_in(input: Result<Input, LineFault>, extent: Option<Extent>) -> Option<ExtendedLine>
    ensures { result ≡ tried_in input extent }
{
    let extent = extent?;
    match input {
        Ok(input) => Some(ExtendedLine::WhatIf(Trial::Given(input), extent)),
        Err(LineFault::BadLine) => None,
        Err(LineFault::WrongCounter) => Some(ExtendedLine::Plain(ParsedLine::WrongCounter)),
    }
}
