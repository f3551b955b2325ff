//! The inputs of a run.

ghost use Rattle.std.specs.Prelude.{◌≡◌, ◌≢◌, ◌≤◌, ◌<◌, ◌+◌, ◌^◌, ℕ, List, [], true, Some, None, Err, OnOk, OnErr};
ghost use Rattle.std.specs.Prelude.{IfOk, IfSome, filter, map, slice_get, slice_index};
ghost use Rattle.feed.specs.Added.{AddsLast, TakenBelow};
ghost use Rattle.feed.specs.Feed.{most_inputs};
ghost use Rattle.feed.specs.CountsTaken.{CountsTaken, is_from, number_from, AreInputs};
ghost use Rattle.feed.specs.Kept.{AreGathered, IsPlaceOf, due_from};
ghost use Rattle.feed.specs.Merged.{merged, plain_entry, due, when_come};
ghost use Rattle.feed.specs.Order.{IsInOrder};

use crate::entry::{Entry, Plain};
use crate::input::Input;
use crate::merge::{MOST_SERIES, next_at, next_of};
use crate::series_cursor::SeriesCursor;
use arrayvec::ArrayVec;
use std::alloc::Global;
use std::marker::Model;

/// The most plain inputs.
pub(crate) const MOST_INPUTS: usize = 65_536;

/// The inputs of a run, seen as their list in order. They are never listed: the next one is found by how many a machine
/// took, in all and from each series.
#[derive(Drop)]
pub struct Feed {
    plain: Vec<Plain>,
    sources: ArrayVec<SeriesCursor, MOST_SERIES>,
    // Entry `known`, counted from 0, is due at no cycle below `due_at`, and it is `kept` where that is one.
    known: usize,
    due_at: u64,
    kept: Option<Entry>,
    // A line after all others.
    line: u64,
}

/// Why an input is not added.
#[derive(Clone, Copy, PartialEq, Eq, Debug, Drop)]
pub enum AddFault {
    /// A growth of memory was refused.
    NoMemory,
    /// As many plain inputs stand as may.
    TooMany,
}

impl Model for Feed {
    ghost use Rattle.std.specs.Prelude.{List};
    ghost use Rattle.feed.specs.declared.entry.Entry.{Entry};
    ghost use Rattle.feed.specs.Kept.{IsFeed};
    ghost use Rattle.feed.specs.Merged.{merged};

    ghost Value = { List Entry };

    ghost view = { λ f. merged f.plain.items f.sources.items };

    ghost invariant = { λ f. IsFeed f.plain.items f.sources.items f.known f.due_at f.line f.kept };
}

impl Feed {
    /// A feed without an input.
    pub fn empty(alloc: Global) -> Feed
        ensures { result ≡ [] }
    {
        Feed::new(Vec::new(alloc), ArrayVec::new(), 1)
    }

    // The feed of these sources, and a line after all of theirs.
    pub(crate) fn new(
        plain: Vec<Plain>,
        sources: ArrayVec<SeriesCursor, MOST_SERIES>,
        line: u32,
    ) -> Feed
        requires { AreGathered plain.items sources.items line }
        ensures { result ≡ merged plain.items sources.items }
    {
        Feed {
            plain,
            sources,
            known: 0,
            due_at: 0,
            kept: None,
            line: u64::from(line),
        }
    }

    /// The same inputs again, or `NoMemory`.
    pub fn copied(&self, alloc: Global) -> Result<Feed, AddFault>
        ensures ok { IfOk result (λ feed. feed ≡ self.now) }
        ensures err { OnErr result (result ≡ Err AddFault.NoMemory) }
    {
        let mut plain = Vec::new(alloc);
        match plain.extend_from_slice(&self.plain) {
            Ok(()) => Ok(Feed {
                plain,
                sources: copied_sources(&self.sources),
                known: self.known,
                due_at: self.due_at,
                kept: self.kept,
                line: self.line,
            }),
            Err(_) => Err(AddFault::NoMemory),
        }
    }

    /// Whether it is known that no input is due for a machine that took `taken`, up to `cycles`: two comparisons.
    pub fn is_none_due(&self, taken: usize, cycles: u64) -> bool
        ensures { result ≡ true → due self.now taken cycles ≡ None }
    {
        taken == self.known && cycles < self.due_at
    }

    /// The cycle up to which it is known that no input is due for a machine that took `taken`; 0 where nothing is
    /// known.
    pub fn none_due_before(&self, taken: usize) -> u64
        ensures { (cycles : ℕ) → cycles < result → due self.now taken cycles ≡ None }
    {
        if taken == self.known { self.due_at } else { 0 }
    }

    /// The next input for a machine that took `taken`, by its counts so many from each series, where its cycle is at
    /// most
    /// `cycles`; and the number of its series, where it is from one.
    pub fn due(
        &mut self,
        taken: usize,
        counts: &[u32; MOST_SERIES],
        cycles: u64,
    ) -> Option<(Input, Option<usize>)>
        ensures same { self.new ≡ self.old }
        ensures value { CountsTaken self.old taken counts.now → result ≡ due self.old taken cycles }
        ensures room { CountsTaken self.old taken counts.now → IfSome result (λ given. taken < 2 ^ 63) }
        ensures small { CountsTaken self.old taken counts.now → (j : ℕ) → slice_index counts.now j < 10 ^ 9 }
        ensures series { IfSome result (λ given. IfSome given.1 (λ j. j < 16)) }
        ensures inputs { AreInputs self.old }
    {
        when_come(cycles, self.next(taken, counts))
    }

    /// The same, while nothing is kept: `due` is the faster where a run goes on.
    pub fn peek(
        &self,
        taken: usize,
        counts: &[u32; MOST_SERIES],
        cycles: u64,
    ) -> Option<(Input, Option<usize>)>
        ensures { CountsTaken self.now taken counts.now → result ≡ due self.now taken cycles }
    {
        if self.is_none_due(taken, cycles) {
            return None;
        }
        when_come(cycles, self.entry(taken, counts))
    }

    /// Adds a plain input at a cycle, on a line after all others; `TooMany` where the most plain inputs stand.
    pub fn add(&mut self, cycle: u64, input: Input) -> Result<(), AddFault>
        ensures added { OnOk result (AddsLast self.old cycle input self.new) }
        ensures fits { OnOk result ((taken : ℕ) → (counts : List ℕ) → TakenBelow self.old taken cycle
            → CountsTaken self.old taken counts → CountsTaken self.new taken counts) }
        ensures later { OnOk result ((k : ℕ) → (cycles : ℕ) → cycles < cycle
            → due self.new k cycles ≡ due self.old k cycles) }
        ensures unchanged { OnErr result (self.new ≡ self.old) }
        ensures room { result ≢ Err AddFault.TooMany → number_from None self.old < most_inputs }
        ensures full { result ≡ Err AddFault.TooMany → most_inputs ≤ number_from None self.old }
        ensures inputs { OnOk result (AreInputs self.old) }
    {
        if self.plain.as_slice().len() >= MOST_INPUTS {
            return Err(AddFault::TooMany);
        }
        let place = place_of(&self.plain, cycle);
        let line = self.line;
        match self.plain.insert(place, Plain { cycle, line, input }) {
            Ok(()) => {
                self.line = line + 1;
                self.due_at = 0;
                self.kept = None;
                Ok(())
            }
            Err(_) => Err(AddFault::NoMemory),
        }
    }

    /// The plain inputs, in order.
    pub fn plain(&self) -> &[Plain]
        ensures { map plain_entry result.now ≡ filter (is_from None) self.now }
    {
        &self.plain
    }

    // The next entry for a machine: the one that is kept, or else each source is looked at.
    fn next(&mut self, taken: usize, counts: &[u32; MOST_SERIES]) -> Option<Entry>
        ensures same { self.new ≡ self.old }
        ensures entry { CountsTaken self.old taken counts.now → slice_get self.old taken ≡ result }
        ensures series { IfSome result (λ e. IfSome e.series (λ j. j < 16)) }
        ensures inputs { AreInputs self.old }
    {
        match self.kept {
            Some(entry) if taken == self.known => Some(entry),
            Some(_) => self.look(taken, counts),
            None => self.look(taken, counts),
        }
    }

    // The same, while nothing is kept.
    fn entry(&self, taken: usize, counts: &[u32; MOST_SERIES]) -> Option<Entry>
        ensures { CountsTaken self.now taken counts.now → slice_get self.now taken ≡ result }
    {
        match self.kept {
            Some(entry) if taken == self.known => Some(entry),
            Some(_) => next_at(&self.plain, &self.sources, taken, counts),
            None => next_at(&self.plain, &self.sources, taken, counts),
        }
    }

    // The next entry for a machine, by a look at each source. It is kept where the counts are seen to fit.
    fn look(&mut self, taken: usize, counts: &[u32; MOST_SERIES]) -> Option<Entry>
        ensures same { self.new ≡ self.old }
        ensures entry { CountsTaken self.old taken counts.now → slice_get self.old taken ≡ result }
        ensures series { IfSome result (λ e. IfSome e.series (λ j. j < 16)) }
        ensures inputs { AreInputs self.old }
    {
        let (next, known) = next_of(&self.plain, &mut self.sources, taken, counts);
        if known {
            self.known = taken;
            self.due_at = due_from(&next);
            self.kept = next;
        }
        next
    }
}

// The same sources again.
fn copied_sources(
    sources: &ArrayVec<SeriesCursor, MOST_SERIES>,
) -> ArrayVec<SeriesCursor, MOST_SERIES>
    ensures { result.items ≡ sources.now.items }
{
    let mut copy = ArrayVec::new();
    for source in sources.as_slice() {
        copy.push(source.copied());
    }
    copy
}

// What an entry gives, where it stands and its cycle has come.
fn when_come(cycles: u64, entry: Option<Entry>) -> Option<(Input, Option<usize>)>
    ensures { result ≡ when_come cycles entry }
{
    match entry {
        Some(entry) if entry.cycle <= cycles => Some((entry.input, entry.series)),
        Some(_) => None,
        None => None,
    }
}

// The cycle from which on an entry is due, or the greatest, where none stands.
fn due_from(entry: &Option<Entry>) -> u64
    ensures { result ≡ due_from entry.now }
{
    match *entry {
        Some(entry) => entry.cycle,
        None => u64::MAX,
    }
}

// The place after all plain inputs that are due no later than a cycle.
fn place_of(plain: &[Plain], cycle: u64) -> usize
    requires { IsInOrder (map plain_entry plain.now) }
    ensures { IsPlaceOf plain.now cycle result }
{
    plain.partition_point(|other| other.cycle <= cycle)
}
