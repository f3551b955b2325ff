//! What a line of an extended session asks for.

ghost use Rattle.std.specs.Prelude.{◌≡◌, ◌≤◌, List, ℕ, Some, codes, drop, length, option_and_then, All, IfSome};
ghost use Rattle.std.specs.Option.{option_map, option_or};
ghost use Rattle.agc_text.specs.Fields.{runs, texts, fields};
ghost use Rattle.agc_text.specs.Tables.{value_in};
ghost use Rattle.commands.specs.Lines.{kept_line};
ghost use Rattle.commands.specs.Commands.{count_in};
ghost use Rattle.commands.specs.declared.extended.ExtendedLine.TheVariants as asked;
ghost use Rattle.commands.specs.Extended.{extended_forms, sole, with_none, with_word, with_field};
ghost use Rattle.commands.specs.Extended.{with_field_or, help_in, few_in, counted_links, links_in, why_of, why_place};
ghost use Rattle.commands.specs.Extended.{why_form, memory_of, channel_form, memory_form, count_after, counted_place};
ghost use Rattle.commands.specs.Extended.{with_counted_place, usual_links, place_alone, last_form, break_form};
ghost use Rattle.commands.specs.Extended.{behind_blank, echoed, extended_in, extended_line};
ghost use Rattle.commands.specs.Extended.{in_words, steps_in, telling};
ghost use Rattle.commands.specs.Extended.{places_in, lines_in, word_alone, stepped_in, word_then, links_then, since_in};
ghost use Rattle.commands.specs.Extended.{index_told, since_of, why_since, quiet_in};

use crate::breaking::break_form;
use crate::command::{Command, ParsedLine};
use crate::fields::{count_in, is_word};
use crate::line::CommandLine;
use crate::named_places::{after_place, place_first};
use crate::parsing::parsed_in;
use crate::phrase::Phrase;
use crate::places::erasable_number;
use crate::refusal::refusal_line;
use crate::subject::{Subject, channel_named, channel_subject, place_subject};
use crate::survey::{Surveyed, survey_in};
use crate::usage::help_of;
use crate::whatif::{Extent, Trial, whatif_form};
use agc_text::{before_comment, next_field, split_field};
use space::place::Linear;
use symbols::Symbols;

/// The most steps that a command can name.
pub const MOST_COUNT: u64 = 999_999_999_999_999;

/// The most links that `why` can name, and the most words that `mem` can.
pub const MOST_LINKS: u64 = 999;

/// How many links `why` tells where none is named.
const USUAL_LINKS: u64 = 16;

/// How many outputs `tail` tells where no number is named.
const USUAL_OUTPUTS: u64 = 32;

/// What `why` tells besides the line of each step.
#[derive(Clone, Copy, PartialEq, Eq, Debug)]
pub struct LinkLines {
    /// The INDEX that moved its operand.
    pub index: IndexLines,
    /// Whether its place is told.
    pub places: bool,
}

/// Whether `why` tells the INDEX that moved an operand.
#[derive(Clone, Copy, PartialEq, Eq, Debug)]
pub enum IndexLines {
    /// It does not.
    Omitted,
    /// In a line after that of the step.
    Told,
}

/// What a line of an extended session asks for.
#[derive(Drop)]
pub enum ExtendedLine {
    /// What a line of a plain session asks for.
    Plain(ParsedLine),
    /// A command of any session, where the session is extended.
    Common(Command),
    /// This reply, with which nothing changes.
    Says(Phrase),
    /// What each command takes and does.
    Help,
    /// The breakpoints.
    Breaks,
    /// One breakpoint less, by its number.
    ClearOne(u64),
    /// On from the position up to a breakpoint, at most so many steps.
    On(u64),
    /// To the first step with at least so many cycles.
    Until(u64),
    /// To after the routine that the next instruction enters, by at most so many steps.
    Over(u64),
    /// To where the routine or the interrupt returns to that is in progress, by at most so many steps.
    Out(u64),
    /// All registers, with what waits and what is asked for.
    AllRegisters,
    /// What the step did that led to the position.
    WhyStep(LinkLines),
    /// The last choice before the position.
    WhyWay,
    /// The last choice before the step that wrote the word of something.
    WhyControl(Subject),
    /// What the word of something comes from.
    WhyInputs(Subject),
    /// In which interrupts the steps stand that made the word of something.
    WhyInterrupts(Subject),
    /// How the word of something came to be what it is, by at most so many steps.
    Why(Subject, u64, LinkLines),
    /// The same, by steps from one on, which is the last number.
    WhySince(Subject, u64, LinkLines, u64),
    /// The words from a place on, at most so many.
    Words(Linear, u64),
    /// The inputs that were added.
    Inputs,
    /// Where the next instruction stands, and the interrupt that is served.
    Where,
    /// The symbols whose names begin so.
    Find(Phrase),
    /// The last so many steps up to the position, a line each.
    Trace(u64),
    /// The last so many outputs, each with the step that put it out.
    TailSteps(u64),
    /// The rows of the places from one on, at most so many.
    Listed(Linear, u64),
    /// The words from a place on as numbers, at most so many.
    Values(Linear, u64),
    /// The channels whose words are not zero.
    Channels,
    /// The words that are other ones than after a step.
    Differs(u64),
    /// What happened in some steps, bucket by bucket.
    Survey(Surveyed),
    /// `say K`: what each of the last so many steps did, in sentences.
    Say(u64),
    /// What an input, or a restart, would change, that came where a session stands, or at each of some steps.
    WhatIf(Trial, Extent),
    /// The calls of routines that are in progress.
    Calls,
    /// Why the program never came to a place.
    Never(Linear),
    /// Whether the outputs of new steps are counted from now on, in place of a line for each.
    Quiet(bool),
}

/// What a line of an extended session asks for, where the symbols of a program stand.
pub fn extended_line(symbols: &Symbols, line: &CommandLine) -> ExtendedLine
    ensures { (bytes : List ℕ) → line.now ≡ kept_line bytes → result ≡ extended_line symbols.now bytes }
{
    match line.text() {
        Some(text) => extended_in(symbols, text),
        None => ExtendedLine::Plain(ParsedLine::TooLong),
    }
}

// What a line asks for that is not too long.
fn extended_in(symbols: &Symbols, line: &[u8]) -> ExtendedLine
    requires { length line.now ≤ 80 }
    ensures { result ≡ extended_in symbols.now line.now (fields line.now) }
{
    let Some((name, rest)) = split_field(before_comment(line)) else {
        return ExtendedLine::Plain(ParsedLine::Nothing);
    };
    if is_word(name, "echo") {
        return echoed(line);
    }
    match command_in(symbols, name, rest) {
        Some(request) => request,
        None => in_words(symbols, name, rest, parsed_in(symbols, line)),
    }
}

// What a line asks for whose first field is `echo`.
fn echoed(line: &[u8]) -> ExtendedLine
    requires { length line.now ≤ 80 }
    ensures { result ≡ echoed line.now (fields line.now) }
{
    match next_field(line, 0) {
        Some(name) => {
            let end = line.len().min(name.start + name.text.len());
            let mut phrase = Phrase::new();
            phrase.push(behind_blank(&line[end..]));
            phrase.push(b"\n");
            ExtendedLine::Says(phrase)
        }
        None => ExtendedLine::Plain(ParsedLine::Nothing),
    }
}

// A text, without a blank that it begins with.
fn behind_blank(text: &[u8]) -> &[u8]
    ensures { result.now ≡ behind_blank text.now }
{
    if !text.is_empty() && (text[0] == b' ' || text[0] == b'\t') {
        &text[1..]
    } else {
        text
    }
}

// The request of a name that no plain session has, or has in fewer forms, and of the fields of what follows it.
#[tactic(auto, unfolding(crate::specs::Extended::extended_forms))]
fn command_in(symbols: &Symbols, name: &[u8], rest: &[u8]) -> Option<ExtendedLine>
    requires { All (λ field. length field ≤ 80) (texts (runs rest.now)) }
    ensures { result ≡ option_and_then (λ form. form (texts (runs rest.now)))
        (value_in (extended_forms symbols.now) name.now) }
{
    if is_word(name, "on") {
        steps_in(rest).map(ExtendedLine::On)
    } else if is_word(name, "until") {
        count_alone(rest).map(ExtendedLine::Until)
    } else if is_word(name, "over") {
        steps_in(rest).map(ExtendedLine::Over)
    } else if is_word(name, "out") {
        steps_in(rest).map(ExtendedLine::Out)
    } else {
        still_command_in(symbols, name, rest)
    }
}

// The same of all names but the first four, which move the position.
#[tactic(auto, unfolding(crate::specs::Extended::extended_forms))]
fn still_command_in(symbols: &Symbols, name: &[u8], rest: &[u8]) -> Option<ExtendedLine>
    requires { All (λ field. length field ≤ 80) (texts (runs rest.now)) }
    ensures { result ≡ option_and_then (λ form. form (texts (runs rest.now)))
        (value_in (drop 4 (extended_forms symbols.now)) name.now) }
{
    if is_word(name, "why") {
        why_form(symbols, rest)
    } else if is_word(name, "regs") {
        registers_form(rest)
    } else if is_word(name, "breaks") {
        with_none(ExtendedLine::Breaks, rest)
    } else if is_word(name, "clear") {
        count_alone(rest).map(ExtendedLine::ClearOne)
    } else if is_word(name, "help") {
        help_form(rest)
    } else if is_word(name, "mem") {
        memory_form(symbols, rest)
    } else if is_word(name, "last") {
        last_form(symbols, rest)
    } else if is_word(name, "break") {
        break_form(symbols, rest)
    } else {
        row_command_in(symbols, name, rest)
    }
}

// The same of the names after the first twelve, which ask for inputs, symbols, steps and rows.
#[tactic(auto, unfolding(crate::specs::Extended::extended_forms))]
fn row_command_in(symbols: &Symbols, name: &[u8], rest: &[u8]) -> Option<ExtendedLine>
    requires { All (λ field. length field ≤ 80) (texts (runs rest.now)) }
    ensures { result ≡ option_and_then (λ form. form (texts (runs rest.now)))
        (value_in (drop 12 (extended_forms symbols.now)) name.now) }
{
    if is_word(name, "inputs") {
        with_none(ExtendedLine::Inputs, rest)
    } else if is_word(name, "where") {
        with_none(ExtendedLine::Where, rest)
    } else if is_word(name, "find") {
        find_form(rest)
    } else if is_word(name, "trace") {
        count_alone(rest).map(ExtendedLine::Trace)
    } else if is_word(name, "tail") {
        stepped_in(rest).map(ExtendedLine::TailSteps)
    } else if is_word(name, "list") {
        list_form(symbols, rest)
    } else if is_word(name, "value") {
        value_form(symbols, rest)
    } else {
        state_command_in(symbols, name, rest)
    }
}

// The same of the names after the first nineteen, which ask for words of whole states.
#[tactic(auto, unfolding(crate::specs::Extended::extended_forms))]
fn state_command_in(symbols: &Symbols, name: &[u8], rest: &[u8]) -> Option<ExtendedLine>
    requires { All (λ field. length field ≤ 80) (texts (runs rest.now)) }
    ensures { result ≡ option_and_then (λ form. form (texts (runs rest.now)))
        (value_in (drop 19 (extended_forms symbols.now)) name.now) }
{
    if is_word(name, "chans") {
        with_none(ExtendedLine::Channels, rest)
    } else if is_word(name, "differs") {
        count_alone(rest).map(ExtendedLine::Differs)
    } else if is_word(name, "survey") {
        survey_in(symbols, rest).map(ExtendedLine::Survey)
    } else if is_word(name, "say") {
        count_alone(rest).map(ExtendedLine::Say)
    } else if is_word(name, "whatif") {
        whatif_form(rest)
    } else if is_word(name, "calls") {
        with_none(ExtendedLine::Calls, rest)
    } else if is_word(name, "never") {
        place_alone(symbols, rest).map(ExtendedLine::Never)
    } else if is_word(name, "quiet") {
        quiet_in(rest).map(ExtendedLine::Quiet)
    } else {
        None
    }
}

/// The field that stands alone.
pub(crate) fn sole(rest: &[u8]) -> Option<&[u8]>
    requires { All (λ field. length field ≤ 80) (texts (runs rest.now)) }
    ensures field { option_map (λ field. field.now) result ≡ sole (texts (runs rest.now)) }
    ensures short { IfSome result (λ field. length field.now ≤ 80) }
{
    let (field, more) = split_field(rest)?;
    match split_field(more) {
        None => Some(field),
        Some(_) => None,
    }
}

// A number that stands alone.
fn count_alone(rest: &[u8]) -> Option<u64>
    requires { All (λ field. length field ≤ 80) (texts (runs rest.now)) }
    ensures { result ≡ option_and_then count_in (sole (texts (runs rest.now))) }
{
    sole(rest).and_then(count_in)
}

// A request, where no field stands.
fn with_none(request: ExtendedLine, rest: &[u8]) -> Option<ExtendedLine>
    ensures { result ≡ with_none request (texts (runs rest.now)) }
{
    match split_field(rest) {
        None => Some(request),
        Some(_) => None,
    }
}

// A number of steps, or the most where no field stands.
fn steps_in(rest: &[u8]) -> Option<u64>
    requires { All (λ field. length field ≤ 80) (texts (runs rest.now)) }
    ensures { result ≡ steps_in (texts (runs rest.now)) }
{
    match split_field(rest) {
        None => Some(MOST_COUNT),
        Some(_) => count_alone(rest),
    }
}

// What `help` takes.
fn help_form(rest: &[u8]) -> Option<ExtendedLine>
    requires { All (λ field. length field ≤ 80) (texts (runs rest.now)) }
    ensures { result ≡ with_field_or asked.Help help_in (λ text. asked.Says text) (texts (runs rest.now)) }
{
    match split_field(rest) {
        None => Some(ExtendedLine::Help),
        Some(_) => {
            let name = sole(rest)?;
            help_of(name).map(ExtendedLine::Says)
        }
    }
}

// What `regs` takes besides nothing.
fn registers_form(rest: &[u8]) -> Option<ExtendedLine>
    requires { All (λ field. length field ≤ 80) (texts (runs rest.now)) }
    ensures { result ≡ with_word (codes "all") asked.AllRegisters (texts (runs rest.now)) }
{
    match sole(rest) {
        Some(field) if is_word(field, "all") => Some(ExtendedLine::AllRegisters),
        Some(_) => None,
        None => None,
    }
}

// What `tail` takes besides nothing: the word `steps`, and before it a number of outputs or none.
fn stepped_in(rest: &[u8]) -> Option<u64>
    requires { All (λ field. length field ≤ 80) (texts (runs rest.now)) }
    ensures count { result ≡ stepped_in (texts (runs rest.now)) }
{
    let (field, more) = split_field(rest)?;
    if is_sole(rest, "steps") {
        return Some(USUAL_OUTPUTS);
    }
    if is_sole(more, "steps") {
        return few_in(field);
    }
    None
}

// Whether a word stands alone.
fn is_sole(rest: &[u8], word: &str) -> bool
    requires { All (λ field. length field ≤ 80) (texts (runs rest.now)) }
    ensures { result ≡ word_alone word.now (sole (texts (runs rest.now))) }
{
    match sole(rest) {
        Some(field) => is_word(field, word),
        None => false,
    }
}

// What `quiet` takes: `on` or `off`.
fn quiet_in(rest: &[u8]) -> Option<bool>
    requires { All (λ field. length field ≤ 80) (texts (runs rest.now)) }
    ensures { result ≡ quiet_in (texts (runs rest.now)) }
{
    if is_sole(rest, "on") {
        Some(true)
    } else if is_sole(rest, "off") {
        Some(false)
    } else {
        None
    }
}

// What `find` takes.
fn find_form(rest: &[u8]) -> Option<ExtendedLine>
    requires { All (λ field. length field ≤ 80) (texts (runs rest.now)) }
    ensures { result ≡ with_field (λ field. Some field) (λ text. asked.Find text) (texts (runs rest.now)) }
{
    let field = sole(rest)?;
    let mut beginning = Phrase::new();
    beginning.push(field);
    Some(ExtendedLine::Find(beginning))
}

// What `why` takes.
fn why_form(symbols: &Symbols, rest: &[u8]) -> Option<ExtendedLine>
    requires { All (λ field. length field ≤ 80) (texts (runs rest.now)) }
    ensures { result ≡ why_form symbols.now (texts (runs rest.now)) }
{
    if is_sole(rest, "step") {
        return Some(ExtendedLine::WhyWay);
    }
    match lines_in(rest) {
        Some(lines) => Some(ExtendedLine::WhyStep(lines)),
        None => why_of_place(symbols, rest),
    }
}

// `why` of an erasable place or a channel, by all steps or since one.
fn why_of_place(symbols: &Symbols, rest: &[u8]) -> Option<ExtendedLine>
    requires { All (λ field. length field ≤ 80) (texts (runs rest.now)) }
    ensures { result ≡ option_or (why_place symbols.now (texts (runs rest.now)))
        (why_since symbols.now (texts (runs rest.now))) }
{
    match why_place(symbols, rest) {
        Some(request) => Some(request),
        None => why_since(symbols, rest),
    }
}

// `why` of an erasable place or a channel since a step.
fn why_since(symbols: &Symbols, rest: &[u8]) -> Option<ExtendedLine>
    requires { All (λ field. length field ≤ 80) (texts (runs rest.now)) }
    ensures { result ≡ why_since symbols.now (texts (runs rest.now)) }
{
    let (field, more) = split_field(rest)?;
    match since_of(place_subject(symbols, rest), after_place(rest)) {
        Some(request) => Some(request),
        None => since_of(channel_subject(symbols, field), more),
    }
}

// `why` of a subject, followed by a number of links or none, by what is told besides, and by since which step.
fn since_of(subject: Option<Subject>, rest: &[u8]) -> Option<ExtendedLine>
    requires { All (λ field. length field ≤ 80) (texts (runs rest.now)) }
    ensures { result ≡ since_of subject (texts (runs rest.now)) }
{
    let subject = subject?;
    let (links, rest) = links_then(rest);
    let (index, rest) = word_then(rest, "index");
    let (places, rest) = word_then(rest, "places");
    let since = since_in(rest)?;
    let lines = telling(index_told(index), places);
    Some(ExtendedLine::WhySince(subject, links, lines, since))
}

// A number of links, where it stands first, and what follows it.
fn links_then(rest: &[u8]) -> (u64, &[u8])
    requires { All (λ field. length field ≤ 80) (texts (runs rest.now)) }
    ensures links { result.0 ≡ (links_then (texts (runs rest.now))).0 }
    ensures fields { texts (runs result.1.now) ≡ (links_then (texts (runs rest.now))).1 }
    ensures short { All (λ field. length field ≤ 80) (texts (runs result.1.now)) }
{
    let Some((field, more)) = split_field(rest) else {
        return (USUAL_LINKS, rest);
    };
    match few_in(field) {
        Some(links) => (links, more),
        None => (USUAL_LINKS, rest),
    }
}

// A word, where it stands first, and what follows it.
fn word_then<'a>(rest: &'a [u8], word: &str) -> (bool, &'a [u8])
    requires { All (λ field. length field ≤ 80) (texts (runs rest.now)) }
    ensures stands { result.0 ≡ (word_then word.now (texts (runs rest.now))).0 }
    ensures fields { texts (runs result.1.now) ≡ (word_then word.now (texts (runs rest.now))).1 }
    ensures short { All (λ field. length field ≤ 80) (texts (runs result.1.now)) }
{
    let Some((field, more)) = split_field(rest) else {
        return (false, rest);
    };
    if is_word(field, word) {
        (true, more)
    } else {
        (false, rest)
    }
}

// The word `since`, and a step.
fn since_in(rest: &[u8]) -> Option<u64>
    requires { All (λ field. length field ≤ 80) (texts (runs rest.now)) }
    ensures { result ≡ since_in (texts (runs rest.now)) }
{
    let (field, more) = split_field(rest)?;
    if is_word(field, "since") {
        return count_alone(more);
    }
    None
}

// Whether the lines of INDEX are told.
fn index_told(told: bool) -> IndexLines
    ensures { result ≡ index_told told }
{
    if told {
        IndexLines::Told
    } else {
        IndexLines::Omitted
    }
}

// `why` of an erasable place or a channel.
fn why_place(symbols: &Symbols, rest: &[u8]) -> Option<ExtendedLine>
    requires { All (λ field. length field ≤ 80) (texts (runs rest.now)) }
    ensures { result ≡ why_place symbols.now (texts (runs rest.now)) }
{
    let (field, more) = split_field(rest)?;
    match why_of(place_subject(symbols, rest), after_place(rest)) {
        Some(request) => Some(request),
        None => why_of(channel_subject(symbols, field), more),
    }
}

// `why` of a subject, followed by a word that asks for something else, or by a number of links or none and by what is
// told besides.
fn why_of(subject: Option<Subject>, rest: &[u8]) -> Option<ExtendedLine>
    requires { All (λ field. length field ≤ 80) (texts (runs rest.now)) }
    ensures { result ≡ why_of subject (texts (runs rest.now)) }
{
    let subject = subject?;
    if is_sole(rest, "control") {
        return Some(ExtendedLine::WhyControl(subject));
    }
    if is_sole(rest, "inputs") {
        return Some(ExtendedLine::WhyInputs(subject));
    }
    if is_sole(rest, "interrupts") {
        return Some(ExtendedLine::WhyInterrupts(subject));
    }
    let (links, lines) = links_in(rest)?;
    Some(ExtendedLine::Why(subject, links, lines))
}

// A number of links or none, and what is told besides.
fn links_in(rest: &[u8]) -> Option<(u64, LinkLines)>
    requires { All (λ field. length field ≤ 80) (texts (runs rest.now)) }
    ensures links { result ≡ links_in (texts (runs rest.now)) }
{
    match lines_in(rest) {
        Some(lines) => Some((USUAL_LINKS, lines)),
        None => counted_links(rest),
    }
}

// A number of links, and what is told besides.
fn counted_links(rest: &[u8]) -> Option<(u64, LinkLines)>
    requires { All (λ field. length field ≤ 80) (texts (runs rest.now)) }
    ensures links { result ≡ counted_links (texts (runs rest.now)) }
{
    let (field, more) = split_field(rest)?;
    let links = few_in(field)?;
    let lines = lines_in(more)?;
    Some((links, lines))
}

// What is told besides: the words `index` and `places`, each or none.
fn lines_in(rest: &[u8]) -> Option<LinkLines>
    requires { All (λ field. length field ≤ 80) (texts (runs rest.now)) }
    ensures { result ≡ lines_in (texts (runs rest.now)) }
{
    if let Some((field, more)) = split_field(rest) {
        if is_word(field, "index") {
            let places = places_in(more)?;
            return Some(telling(IndexLines::Told, places));
        }
    }
    let places = places_in(rest)?;
    Some(telling(IndexLines::Omitted, places))
}

// What is told besides.
fn telling(index: IndexLines, places: bool) -> LinkLines
    ensures { result ≡ telling index places }
{
    LinkLines { index, places }
}

// Whether places are told: the word `places`, or no field.
fn places_in(rest: &[u8]) -> Option<bool>
    requires { All (λ field. length field ≤ 80) (texts (runs rest.now)) }
    ensures { result ≡ places_in (texts (runs rest.now)) }
{
    if split_field(rest).is_none() {
        return Some(false);
    }
    if is_sole(rest, "places") {
        return Some(true);
    }
    None
}

// A number of links, or of words.
fn few_in(field: &[u8]) -> Option<u64>
    ensures few { result ≡ few_in field.now }
{
    match count_in(field) {
        Some(links) if links <= MOST_LINKS => Some(links),
        Some(_) => None,
        None => None,
    }
}

// The same, where it stands alone.
fn few_alone(rest: &[u8]) -> Option<u64>
    requires { All (λ field. length field ≤ 80) (texts (runs rest.now)) }
    ensures { result ≡ option_and_then few_in (sole (texts (runs rest.now))) }
{
    sole(rest).and_then(few_in)
}

// What `mem` takes.
fn memory_form(symbols: &Symbols, rest: &[u8]) -> Option<ExtendedLine>
    requires { All (λ field. length field ≤ 80) (texts (runs rest.now)) }
    ensures { result ≡ memory_form symbols.now (texts (runs rest.now)) }
{
    let request = match place_first(symbols, rest) {
        Some(place) => memory_of(place, after_place(rest)),
        None => None,
    };
    match request {
        Some(request) => Some(request),
        None => channel_form(symbols, rest),
    }
}

// `mem` of a channel.
fn channel_form(symbols: &Symbols, rest: &[u8]) -> Option<ExtendedLine>
    requires { All (λ field. length field ≤ 80) (texts (runs rest.now)) }
    ensures { result ≡ channel_form symbols.now (texts (runs rest.now)) }
{
    let channel = channel_named(symbols, sole(rest)?)?;
    Some(ExtendedLine::Common(Command::Channel(channel)))
}

// `mem` of a place, followed by a number of words or by nothing.
fn memory_of(place: Linear, rest: &[u8]) -> Option<ExtendedLine>
    requires { All (λ field. length field ≤ 80) (texts (runs rest.now)) }
    ensures { result ≡ memory_of place (texts (runs rest.now)) }
{
    match split_field(rest) {
        None => Some(ExtendedLine::Common(Command::Memory(place))),
        Some(_) => {
            let count = few_alone(rest)?;
            Some(ExtendedLine::Words(place, count))
        }
    }
}

// What `list` takes.
fn list_form(symbols: &Symbols, rest: &[u8]) -> Option<ExtendedLine>
    requires { All (λ field. length field ≤ 80) (texts (runs rest.now)) }
    ensures { result ≡ with_counted_place symbols.now usual_links (λ place k. asked.Listed place k)
        (texts (runs rest.now)) }
{
    let (place, count) = counted_place(symbols, rest, USUAL_LINKS)?;
    Some(ExtendedLine::Listed(place, count))
}

// What `value` takes.
fn value_form(symbols: &Symbols, rest: &[u8]) -> Option<ExtendedLine>
    requires { All (λ field. length field ≤ 80) (texts (runs rest.now)) }
    ensures { result ≡ with_counted_place symbols.now 1 (λ place k. asked.Values place k) (texts (runs rest.now)) }
{
    let (place, count) = counted_place(symbols, rest, 1)?;
    Some(ExtendedLine::Values(place, count))
}

// A place and a number of words, or the usual one where none is named.
fn counted_place(symbols: &Symbols, rest: &[u8], usual: u64) -> Option<(Linear, u64)>
    requires { All (λ field. length field ≤ 80) (texts (runs rest.now)) }
    ensures { result ≡ counted_place symbols.now usual (texts (runs rest.now)) }
{
    let place = place_first(symbols, rest)?;
    let count = count_after(usual, after_place(rest))?;
    Some((place, count))
}

// A number of words, or the usual one where none is named.
fn count_after(usual: u64, rest: &[u8]) -> Option<u64>
    requires { All (λ field. length field ≤ 80) (texts (runs rest.now)) }
    ensures { result ≡ count_after usual (texts (runs rest.now)) }
{
    match split_field(rest) {
        None => Some(usual),
        Some(_) => few_alone(rest),
    }
}

/// A place, where no field stands after it.
pub(crate) fn place_alone(symbols: &Symbols, rest: &[u8]) -> Option<Linear>
    requires { All (λ field. length field ≤ 80) (texts (runs rest.now)) }
    ensures { result ≡ place_alone symbols.now (texts (runs rest.now)) }
{
    match split_field(after_place(rest)) {
        None => place_first(symbols, rest),
        Some(_) => None,
    }
}

// What `last` takes.
fn last_form(symbols: &Symbols, rest: &[u8]) -> Option<ExtendedLine>
    requires { All (λ field. length field ≤ 80) (texts (runs rest.now)) }
    ensures { result ≡ last_form symbols.now (texts (runs rest.now)) }
{
    let place = place_alone(symbols, rest)?;
    match erasable_number(place) {
        Some(place) => Some(ExtendedLine::Common(Command::Last(place))),
        None => None,
    }
}

// What any session is asked for, with words for what is no command.
fn in_words(symbols: &Symbols, name: &[u8], rest: &[u8], request: ParsedLine) -> ExtendedLine
    requires name { length name.now ≤ 80 }
    requires fields { All (λ field. length field ≤ 80) (texts (runs rest.now)) }
    ensures { result ≡ in_words symbols.now name.now (texts (runs rest.now)) request }
{
    match request {
        ParsedLine::Unknown => ExtendedLine::Says(refusal_line(symbols, name, rest)),
        ParsedLine::Nothing => ExtendedLine::Plain(ParsedLine::Nothing),
        ParsedLine::TooLong => ExtendedLine::Plain(ParsedLine::TooLong),
        ParsedLine::WrongCounter => ExtendedLine::Plain(ParsedLine::WrongCounter),
        ParsedLine::Known(command) => ExtendedLine::Common(command),
    }
}
