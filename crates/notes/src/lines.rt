//! The lines of notes, in a notation.

ghost use Rattle.std.specs.Prelude.{◌≡◌, ◌+◌, ◌≤◌, ◌++◌, codes, decimal, length};
ghost use Rattle.arrayvec.specs.ArrayVec.{array_vec_len};
ghost use Rattle.notes.specs.Counted.{told_of};
ghost use Rattle.notes.specs.RunNotes.{end_text, inside_in, kind_field, kinds_text, note_in, note_line, told_line};
ghost use Rattle.notes.specs.RunNotes.{what_in};
ghost use Rattle.notes.specs.Waits.{kept_text, wait_in, wait_line, wait_text};
ghost use Rattle.cpu.specs.NextStep.{next_step};
ghost use Rattle.cpu.specs.State.{FitsRun};

use crate::kind::Kind;
use crate::notebook::Told;
use crate::objects::{inside_object, note_object, wait_object};
use crate::waits::{Moment, Waits};
use arrayvec::ArrayVec;
use cpu::{Machine, Processor};
use feed::interrupt::{INTERRUPTS, Interrupt};
use json_text::Notation;
use trace::{PlaceNames, interrupt_name, what_members, what_text};
use words::{push_all, push_decimal};

/// The most bytes of what a step is: as JSON at most 487.
const WHAT: usize = 512;

/// What a step is.
pub(crate) type What = ArrayVec<u8, WHAT>;

/// The most bytes of a line: its words, what its step is, and three numbers of 64 bits.
const LINE: usize = 640;

/// A line.
pub(crate) type Line = ArrayVec<u8, LINE>;

/// The most bytes of the lines of a step.
const LINES: usize = 7040;

/// The lines of a step.
pub(crate) type Lines = ArrayVec<u8, LINES>;

/// The cycles after which an interrupt waits long: 10 milliseconds.
pub(crate) const LONG_WAIT: u64 = 853;

/// What all notes of a step have: what the step is, its number, and the cycles after it.
#[derive(Drop)]
pub(crate) struct Heading {
    pub(crate) what: What,
    pub(crate) number: u64,
    pub(crate) cycles: u64,
}

/// What the next step is, in a notation.
pub(crate) fn what_in(
    notation: Notation,
    names: &PlaceNames,
    processor: &Processor,
    machine: &Machine,
) -> What
    requires { FitsRun processor.now.scenario machine.now }
    ensures items { result.items ≡ what_in notation names.now processor.now.scenario.rope machine.now
        (next_step processor.now.scenario machine.now) }
    ensures short { array_vec_len result ≤ 487 }
{
    let mut what = ArrayVec::new();
    match notation {
        Notation::Text => push_all(&mut what, what_text(names, processor, machine).as_slice()),
        Notation::Json => push_all(
            &mut what,
            what_members(names, processor, machine).as_slice(),
        ),
    }
    what
}

/// The lines of what is told at a step.
pub(crate) fn lines_of(notation: Notation, heading: &Heading, told: &Told) -> Lines
    requires { array_vec_len heading.now.what ≤ 487 }
    ensures { result.items ≡ kinds_text notation heading.now.what.items heading.now.number heading.now.cycles
        (told_of told.now) }
{
    let mut lines = ArrayVec::new();
    push_line(
        notation,
        &mut lines,
        heading,
        Kind::Quotient,
        told.quotients,
    );
    push_line(notation, &mut lines, heading, Kind::Skip, told.skips);
    push_line(notation, &mut lines, heading, Kind::NoWord, told.no_words);
    push_line(
        notation,
        &mut lines,
        heading,
        Kind::InErasable,
        told.in_erasable,
    );
    push_line(
        notation,
        &mut lines,
        heading,
        Kind::NoHandler,
        told.no_handlers,
    );
    push_line(
        notation,
        &mut lines,
        heading,
        Kind::OtherBank,
        told.other_banks,
    );
    push_line(notation, &mut lines, heading, Kind::NotKept, told.not_kept);
    push_line(
        notation,
        &mut lines,
        heading,
        Kind::MinusZero,
        told.minus_zeros,
    );
    push_line(
        notation,
        &mut lines,
        heading,
        Kind::Overwritten,
        told.overwritten,
    );
    push_line(notation, &mut lines, heading, Kind::Shared, told.shared);
    push_line(
        notation,
        &mut lines,
        heading,
        Kind::FixedBank,
        told.fixed_banks,
    );
    lines
}

/// Appends the line of a note, where it is told.
fn push_line(notation: Notation, lines: &mut Lines, heading: &Heading, kind: Kind, count: u64)
    requires what { array_vec_len heading.now.what ≤ 487 }
    requires room { array_vec_len lines.old ≤ 6400 }
    ensures items { lines.new.items ≡ lines.old.items
        ++ told_line notation kind heading.now.what.items heading.now.number heading.now.cycles count }
    ensures short { array_vec_len lines.new ≤ array_vec_len lines.old + 640 }
{
    if count == 0 {
        return;
    }
    push_all(lines, note_in(notation, heading, kind, count).as_slice());
}

/// What is told of a note in a notation.
fn note_in(notation: Notation, heading: &Heading, kind: Kind, count: u64) -> Line
    requires { array_vec_len heading.now.what ≤ 487 }
    ensures { result.items ≡ note_in notation kind heading.now.what.items heading.now.number heading.now.cycles count }
{
    match notation {
        Notation::Text => note_line(heading, kind, count),
        Notation::Json => note_object(heading, kind, count),
    }
}

/// The line of a note.
#[tactic(auto, using(words::proofs::Digits::short_decimal), unfolding(crate::specs::RunNotes::note_line))]
fn note_line(heading: &Heading, kind: Kind, count: u64) -> Line
    requires { array_vec_len heading.now.what ≤ 487 }
    ensures { result.items ≡ note_line kind heading.now.what.items heading.now.number heading.now.cycles count }
{
    let mut line = ArrayVec::new();
    push_all(&mut line, b"NOTE ");
    push_all(&mut line, kind_field(kind));
    push_all(&mut line, heading.what.as_slice());
    push_all(&mut line, b"STEP ");
    push_decimal(&mut line, heading.number);
    push_all(&mut line, b" CYCLES ");
    push_decimal(&mut line, heading.cycles);
    push_all(&mut line, b" TIMES ");
    push_decimal(&mut line, count);
    push_all(&mut line, b"\n");
    line
}

/// The word of a kind, with blanks up to the next column.
fn kind_field(kind: Kind) -> &'static [u8]
    ensures field { result.now ≡ kind_field kind }
    ensures short { length result.now ≤ 13 }
{
    match kind {
        Kind::Quotient => b"QUOTIENT   ",
        Kind::Skip => b"SKIP       ",
        Kind::NoWord => b"NOWORD     ",
        Kind::InErasable => b"ERASABLE   ",
        Kind::NoHandler => b"NOHANDLER  ",
        Kind::OtherBank => b"OTHERBANK  ",
        Kind::NotKept => b"NOTKEPT    ",
        Kind::MinusZero => b"MINUSZERO  ",
        Kind::Overwritten => b"OVERWRITTEN  ",
        Kind::Shared => b"SHARED     ",
        Kind::FixedBank => b"FIXEDBANK  ",
    }
}

/// The lines of a run's end: that it is within an interrupt, and which interrupts wait long.
pub(crate) fn end_lines(
    notation: Notation,
    inside: bool,
    steps: u64,
    waits: &Waits,
    cycles: u64,
) -> Lines
    ensures { result.items ≡ end_text notation inside steps ++ kept_text notation cycles waits.now }
{
    let mut lines = end_line(notation, inside, steps);
    for number in 1..INTERRUPTS + 1 {
        let interrupt = Interrupt::new(number);
        push_wait(
            notation,
            &mut lines,
            interrupt,
            waits.since(interrupt),
            cycles,
        );
    }
    lines
}

/// Appends the line of an interrupt that waits long since a moment; none of another.
fn push_wait(
    notation: Notation,
    lines: &mut Lines,
    interrupt: Interrupt,
    since: Option<Moment>,
    cycles: u64,
)
    requires { array_vec_len lines.old ≤ 1100 }
    ensures items { lines.new.items ≡ lines.old.items ++ wait_text notation cycles interrupt since }
    ensures short { array_vec_len lines.new ≤ array_vec_len lines.old + 104 }
{
    if let Some(moment) = since
        && cycles.saturating_sub(moment.cycles) >= LONG_WAIT
    {
        push_all(lines, wait_in(notation, interrupt, &moment).as_slice());
    }
}

/// What is told of an interrupt that waits long, in a notation.
fn wait_in(notation: Notation, interrupt: Interrupt, moment: &Moment) -> Line
    ensures items { result.items ≡ wait_in notation interrupt moment.now }
    ensures short { array_vec_len result ≤ 104 }
{
    match notation {
        Notation::Text => wait_line(interrupt, moment),
        Notation::Json => wait_object(interrupt, moment),
    }
}

/// The line of an interrupt that waits long since a moment.
#[tactic(auto, using(words::proofs::Digits::short_decimal), unfolding(crate::specs::Waits::wait_line))]
fn wait_line(interrupt: Interrupt, moment: &Moment) -> Line
    ensures items { result.items ≡ wait_line interrupt moment.now }
    ensures short { array_vec_len result ≤ 80 }
{
    let mut line = ArrayVec::new();
    push_all(&mut line, b"NOTE WAITING ");
    push_all(&mut line, interrupt_name(interrupt));
    push_all(&mut line, b" STEP ");
    push_decimal(&mut line, moment.step);
    push_all(&mut line, b" CYCLES ");
    push_decimal(&mut line, moment.cycles);
    push_all(&mut line, b"\n");
    line
}

/// The line of a run that ends within an interrupt; none of another.
#[tactic(auto, unfolding(crate::specs::RunNotes::end_text))]
fn end_line(notation: Notation, inside: bool, steps: u64) -> Lines
    ensures items { result.items ≡ end_text notation inside steps }
    ensures short { array_vec_len result ≤ 64 }
{
    let mut lines = ArrayVec::new();
    if inside {
        push_all(&mut lines, inside_in(notation, steps).as_slice());
    }
    lines
}

/// What is told of a run that ends within an interrupt, in a notation.
fn inside_in(notation: Notation, steps: u64) -> Line
    ensures items { result.items ≡ inside_in notation steps }
    ensures short { array_vec_len result ≤ 64 }
{
    match notation {
        Notation::Text => inside_line(steps),
        Notation::Json => inside_object(steps),
    }
}

/// The line of a run that ends within an interrupt.
#[tactic(auto, using(words::proofs::Digits::short_decimal))]
fn inside_line(steps: u64) -> Line
    ensures items { result.items ≡ codes "NOTE INSIDE STEP " ++ (decimal steps ++ codes "\n") }
    ensures short { array_vec_len result ≤ 64 }
{
    let mut line = ArrayVec::new();
    push_all(&mut line, b"NOTE INSIDE STEP ");
    push_decimal(&mut line, steps);
    push_all(&mut line, b"\n");
    line
}
