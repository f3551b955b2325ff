//! What a line of commands asks for.

use crate::subject::Subject;
use feed::Input;
use space::place::Linear;
use space::{Chan, Eras};
use symbols::Value;
use words::Word;

/// Where a run stops.
#[derive(Clone, Copy, Drop)]
pub enum Breakpoint {
    /// The next instruction stands at a place.
    Place(Linear),
    /// An erasable place holds a word.
    Word(Eras, Word),
    /// A channel holds a word.
    Channel(Chan, Word),
    /// A channel holds a word's bits, where a mask has ones.
    Bits(Chan, Word, Word),
    /// So many cycles have passed.
    Cycles(u64),
    /// The next instruction stands at a place, and no interrupt is served unless one may be.
    Returned(Linear, bool),
    /// No interrupt is served.
    Outside,
    /// The step executed the instruction at a place.
    Executed(Linear),
    /// The step changed the word of something.
    Changed(Subject),
}

/// A command.
#[derive(Clone, Copy, Drop)]
pub enum Command {
    /// So many steps on from the position.
    Step(u64),
    /// So many steps on from the present, up to a breakpoint.
    Run(u64),
    /// So many steps back.
    Back(u64),
    /// To a step.
    Goto(u64),
    /// Back to a breakpoint.
    Seek,
    /// One breakpoint more.
    Break(Breakpoint),
    /// No breakpoints.
    Clear,
    /// The registers, and the next instruction.
    Registers,
    /// The word at a place.
    Memory(Linear),
    /// The word on a channel.
    Channel(Chan),
    /// The last step that changed an erasable word.
    Last(Eras),
    /// The value of a symbol, where it is defined.
    Symbol(Option<Value>),
    /// The erasable places that changed since a step.
    Changed(u64),
    /// The last outputs.
    Tail,
    /// One input more, at a cycle.
    Add(u64, Input),
    /// The end.
    Quit,
}

/// What a line asks for.
#[derive(Clone, Copy, Drop)]
pub enum ParsedLine {
    /// No field stands.
    Nothing,
    /// The line is too long.
    TooLong,
    /// The line has no form of a command.
    Unknown,
    /// An input is to be added whose counter does not take its sequence.
    WrongCounter,
    /// A command.
    Known(Command),
}
