//! Feeds from their bytes.

ghost use Rattle.std.specs.Prelude.{◌≡◌, ◌≤◌, ◌<◌, ◌+◌, [], None, true, if◌then◌else◌, IfOk, IfErr, OnOk, length};
ghost use Rattle.words.specs.Devices.{one_more};
ghost use Rattle.feed.specs.Feed.{most_bytes, plain_from, series_from, statements, is_late, first_fault};
ghost use Rattle.feed.specs.Gathering.{IsRuled, Tells, TakesLine};
ghost use Rattle.feed.specs.Kept.{AreGathered};
ghost use Rattle.feed.specs.Reading.{ReadsFeed, has_read_failed};
ghost use Rattle.feed.specs.Statements.{statement_of};
ghost use Rattle.feed.specs.declared.statement.Statement.TheVariants.{Gives, Repeats};

use crate::entry::{Plain, Rule};
use crate::fault::{FeedFault, LineFault};
use crate::input::Input;
use crate::list::{Feed, MOST_INPUTS};
use crate::merge::MOST_SERIES;
use crate::series_cursor::SeriesCursor;
use crate::statement::{Statement, statement_of};
use agc_text::next_line;
use arrayvec::ArrayVec;
use std::alloc::Global;
use words::{MOST_BYTES, Read, ReadFault, read_text};

/// Reads a feed to its end, and answers its inputs.
///
/// A line has one of the forms `cycle CHAN channel word`, `cycle RUPT k` and `cycle counter sequence`; or `EVERY first
/// num den count` and then such a line without its cycle, which stands for `count` inputs, number i of them, counted
/// from 0, at cycle `first + (i * num) / den`; or it has no field at all. The inputs are in order by their cycles, then
/// by their lines.
///
/// The bytes are read to the end first: `ReadFailed` where a read failed, `TooLong` once one byte more was read than a
/// feed may have. Then the first line with a fault is told, by the first of `BadLine`, `WrongCounter`, `OutOfOrder`,
/// `TooManySeries` and `TooMany`: EVERY lines may stand anywhere, and `OutOfOrder` and `TooMany` are told of the others
/// alone. `NoMemory` where a growth was refused.
pub fn read<R: Read>(alloc: Global, reader: &mut R) -> Result<Feed, FeedFault>
    ensures bytes { R.told ≡ true → ReadsFeed (R.left reader.old) (R.left reader.new) result }
    ensures failures { R.failures reader.new
        ≡ (if has_read_failed result then one_more (R.failures reader.old) else R.failures reader.old) }
{
    let text = match read_text(alloc, reader, MOST_BYTES) {
        Ok(text) => text,
        Err(ReadFault::NoMemory) => return Err(FeedFault::NoMemory),
        Err(ReadFault::ReadFailed) => return Err(FeedFault::ReadFailed),
        Err(ReadFault::TooLong) => return Err(FeedFault::TooLong),
    };
    let gathered = inputs_in(alloc, &text)?;
    Ok(Feed::new(gathered.plain, gathered.sources, gathered.line))
}

// What the lines of a text give, up to the first fault.
fn inputs_in(alloc: Global, text: &[u8]) -> Result<Gathered, FeedFault>
    requires { length text.now ≤ most_bytes }
    ensures faultless { IfOk result (λ _. first_fault [] (statements text.now) ≡ None) }
    ensures plain { IfOk result (λ g. g.plain.items ≡ plain_from 1 (statements text.now)) }
    ensures series { IfOk result (λ g. g.sources.items ≡ series_from 1 (statements text.now)) }
    ensures gathered { IfOk result (λ g. AreGathered g.plain.items g.sources.items g.line) }
    ensures fault { IfErr result (Tells (first_fault [] (statements text.now))) }
{
    let mut gathered = Gathered::new(alloc);
    let mut rest = text;
    while let Some((first, following)) = next_line(rest) {
        gathered.take_line(first)?;
        rest = following;
        gathered.line += 1;
    }
    Ok(gathered)
}

/// What some lines give, and the number of the line after them.
#[derive(Drop)]
struct Gathered {
    plain: Vec<Plain>,
    sources: ArrayVec<SeriesCursor, MOST_SERIES>,
    line: u32,
}

impl Gathered {
    // What no lines give.
    fn new(alloc: Global) -> Gathered
        ensures plain { result.plain.items ≡ [] }
        ensures series { result.sources.items ≡ [] }
        ensures line { result.line ≡ 1 }
    {
        Gathered {
            plain: Vec::new(alloc),
            sources: ArrayVec::new(),
            line: 1,
        }
    }

    // Adds what the next line gives, and leaves the number of the line.
    fn take_line(&mut self, text: &[u8]) -> Result<(), FeedFault>
        requires { AreGathered self.old.plain.items self.old.sources.items self.old.line }
        ensures line { TakesLine self.old (statement_of text.now) self.new result }
        ensures gathered { OnOk result (AreGathered self.new.plain.items self.new.sources.items (self.old.line + 1)) }
        ensures same_line { self.new.line ≡ self.old.line }
    {
        match statement_of(text) {
            Statement::Nothing => Ok(()),
            Statement::Faulty(LineFault::BadLine) => Err(FeedFault::BadLine(self.line)),
            Statement::Faulty(LineFault::WrongCounter) => Err(FeedFault::WrongCounter(self.line)),
            Statement::Gives(cycle, input) => self.take_input(cycle, input),
            Statement::Repeats(rule) => self.take_rule(rule),
        }
    }

    // Adds the plain input of the next line.
    fn take_input(&mut self, cycle: u64, input: Input) -> Result<(), FeedFault>
        requires { AreGathered self.old.plain.items self.old.sources.items self.old.line }
        ensures line { TakesLine self.old (Gives cycle input) self.new result }
        ensures gathered { OnOk result (AreGathered self.new.plain.items self.new.sources.items (self.old.line + 1)) }
        ensures same_line { self.new.line ≡ self.old.line }
    {
        if is_late(&self.plain, cycle) {
            return Err(FeedFault::OutOfOrder(self.line));
        }
        if self.plain.as_slice().len() >= MOST_INPUTS {
            return Err(FeedFault::TooMany);
        }
        let line = u64::from(self.line);
        match self.plain.push(Plain { cycle, line, input }) {
            Ok(()) => Ok(()),
            Err(_) => Err(FeedFault::NoMemory),
        }
    }

    // Adds the series of the next line.
    fn take_rule(&mut self, rule: Rule) -> Result<(), FeedFault>
        requires gathered { AreGathered self.old.plain.items self.old.sources.items self.old.line }
        requires rule { IsRuled rule }
        ensures line { TakesLine self.old (Repeats rule) self.new result }
        ensures gathered { OnOk result (AreGathered self.new.plain.items self.new.sources.items (self.old.line + 1)) }
        ensures same_line { self.new.line ≡ self.old.line }
    {
        if self.sources.is_full() {
            return Err(FeedFault::TooManySeries(self.line));
        }
        let line = u64::from(self.line);
        self.sources.push(SeriesCursor::new(rule.on_line(line)));
        Ok(())
    }
}

// Whether a cycle is below that of the last input.
fn is_late(before: &[Plain], cycle: u64) -> bool
    ensures { result ≡ is_late before.now cycle }
{
    match before.last() {
        Some(last) => cycle < last.cycle,
        None => false,
    }
}
