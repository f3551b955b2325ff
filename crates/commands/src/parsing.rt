//! What a line of commands asks for.

ghost use Rattle.std.specs.Prelude.{◌≡◌, [], ◌∷◌, List, ℕ, option_and_then};
ghost use Rattle.agc_text.specs.Fields.{runs, texts, fields};
ghost use Rattle.agc_text.specs.Tables.{value_in};
ghost use Rattle.feed.specs.Statements.{parsed};
ghost use Rattle.commands.specs.Commands.{forms, break_word, known, adding, added_by, parsed_in, parsed_line};
ghost use Rattle.commands.specs.Lines.{kept_line};

use crate::command::{Breakpoint, Command, ParsedLine};
use crate::fields::{channel_in, count_in, is_word};
use crate::line::CommandLine;
use crate::places::{erasable_in, place_in};
use agc_text::{before_comment, next_field, split_field};
use feed::{LineFault, parse_line, word_in};
use symbols::Symbols;

/// What a line of commands asks for, where the symbols of a program stand.
pub fn parsed_line(symbols: &Symbols, line: &CommandLine) -> ParsedLine
    ensures { (bytes : List ℕ) → line.now ≡ kept_line bytes → result ≡ parsed_line symbols.now bytes }
{
    match line.text() {
        Some(text) => parsed_in(symbols, text),
        None => ParsedLine::TooLong,
    }
}

// What a line asks for that is not too long.
pub(crate) fn parsed_in(symbols: &Symbols, line: &[u8]) -> ParsedLine
    ensures { result ≡ parsed_in symbols.now line.now (fields line.now) }
{
    let Some((name, rest)) = split_field(before_comment(line)) else {
        return ParsedLine::Nothing;
    };
    if is_word(name, "add") {
        added_by(line)
    } else {
        known(command_in(symbols, name, rest))
    }
}

// What a line asks for whose first field is `add`.
fn added_by(line: &[u8]) -> ParsedLine
    ensures { result ≡ added_by line.now (fields line.now) }
{
    match next_field(line, 0) {
        Some(name) => adding(&line[name.start + name.text.len()..]),
        None => ParsedLine::Nothing,
    }
}

// The command of a name and of the fields of what follows it.
fn command_in(symbols: &Symbols, name: &[u8], rest: &[u8]) -> Option<Command>
    ensures { result ≡ option_and_then (λ form. form (texts (runs rest.now))) (value_in (forms symbols.now) name.now) }
{
    let Some((first, rest)) = split_field(rest) else {
        return command_alone(symbols, name);
    };
    let Some((second, rest)) = split_field(rest) else {
        return command_of_one(symbols, name, first);
    };
    let Some((third, rest)) = split_field(rest) else {
        return command_of_two(symbols, name, first, second);
    };
    match split_field(rest) {
        Some(_) => None,
        None => command_of_three(symbols, name, first, second, third),
    }
}

// The command of a name alone.
#[tactic(auto, unfolding(crate::specs::Commands::forms))]
fn command_alone(symbols: &Symbols, name: &[u8]) -> Option<Command>
    ensures { result ≡ option_and_then (λ form. form []) (value_in (forms symbols.now) name.now) }
{
    if is_word(name, "seek") {
        Some(Command::Seek)
    } else if is_word(name, "clear") {
        Some(Command::Clear)
    } else if is_word(name, "regs") {
        Some(Command::Registers)
    } else if is_word(name, "tail") {
        Some(Command::Tail)
    } else if is_word(name, "quit") {
        Some(Command::Quit)
    } else {
        None
    }
}

// The command of a name and one field.
#[tactic(auto, unfolding(crate::specs::Commands::forms))]
fn command_of_one(symbols: &Symbols, name: &[u8], field: &[u8]) -> Option<Command>
    ensures { result ≡ option_and_then (λ form. form (field.now ∷ [])) (value_in (forms symbols.now) name.now) }
{
    if is_word(name, "step") {
        count_in(field).map(Command::Step)
    } else if is_word(name, "run") {
        count_in(field).map(Command::Run)
    } else if is_word(name, "back") {
        count_in(field).map(Command::Back)
    } else if is_word(name, "goto") {
        count_in(field).map(Command::Goto)
    } else if is_word(name, "mem") {
        place_in(symbols, field).map(Command::Memory)
    } else if is_word(name, "chan") {
        channel_in(field).map(Command::Channel)
    } else if is_word(name, "last") {
        erasable_in(symbols, field).map(Command::Last)
    } else if is_word(name, "sym") {
        Some(Command::Symbol(symbols.symbol(field)))
    } else if is_word(name, "changed") {
        count_in(field).map(Command::Changed)
    } else {
        None
    }
}

// The command of a name and two fields.
#[tactic(auto, unfolding(crate::specs::Commands::forms))]
fn command_of_two(symbols: &Symbols, name: &[u8], first: &[u8], second: &[u8]) -> Option<Command>
    ensures { result ≡ option_and_then (λ form. form (first.now ∷ second.now ∷ []))
        (value_in (forms symbols.now) name.now) }
{
    if is_word(name, "break") && is_word(first, "at") {
        match place_in(symbols, second) {
            Some(place) => Some(Command::Break(Breakpoint::Place(place))),
            None => None,
        }
    } else {
        None
    }
}

// The command of a name and three fields.
#[tactic(auto, unfolding(crate::specs::Commands::forms))]
fn command_of_three(
    symbols: &Symbols,
    name: &[u8],
    kind: &[u8],
    watched: &[u8],
    word: &[u8],
) -> Option<Command>
    ensures { result ≡ option_and_then (λ form. form (kind.now ∷ watched.now ∷ word.now ∷ []))
        (value_in (forms symbols.now) name.now) }
{
    if is_word(name, "break") {
        break_word(symbols, kind, watched, word)
    } else {
        None
    }
}

// A breakpoint on a word, of an erasable place or of a channel.
fn break_word(symbols: &Symbols, kind: &[u8], watched: &[u8], word: &[u8]) -> Option<Command>
    ensures { result ≡ break_word symbols.now kind.now watched.now word.now }
{
    if is_word(kind, "word") {
        match (erasable_in(symbols, watched), word_in(word)) {
            (Some(place), Some(word)) => Some(Command::Break(Breakpoint::Word(place, word))),
            (Some(_), None) => None,
            (None, _) => None,
        }
    } else if is_word(kind, "chan") {
        match (channel_in(watched), word_in(word)) {
            (Some(channel), Some(word)) => Some(Command::Break(Breakpoint::Channel(channel, word))),
            (Some(_), None) => None,
            (None, _) => None,
        }
    } else {
        None
    }
}

// What is asked for where a command stands, or none.
fn known(command: Option<Command>) -> ParsedLine
    ensures { result ≡ known command }
{
    match command {
        Some(command) => ParsedLine::Known(command),
        None => ParsedLine::Unknown,
    }
}

// What `add` asks for, followed by a line of a feed.
fn adding(line: &[u8]) -> ParsedLine
    ensures { result ≡ adding (parsed line.now) }
{
    match parse_line(line) {
        Ok((cycle, input)) => ParsedLine::Known(Command::Add(cycle, input)),
        Err(LineFault::BadLine) => ParsedLine::Unknown,
        Err(LineFault::WrongCounter) => ParsedLine::WrongCounter,
    }
}
