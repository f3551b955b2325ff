//! A series, with the cycles that were told last.

ghost use Rattle.std.specs.Prelude.{◌≡◌, ◌-◌, slice_get};
ghost use Rattle.feed.specs.Merged.{cycle_of, entries_of};
ghost use Rattle.feed.specs.Heads.{IsRule, entry_before};

use crate::entry::{Entry, Series};
use crate::input::Input;
use crate::interrupt::Interrupt;
use std::marker::Model;

/// A series, with the cycles of one of its entries and of the one before that. An entry that follows costs one
/// division.
#[derive(Drop)]
pub struct SeriesCursor {
    rule: Series,
    number: u32,
    cycle: u64,
    before: u64,
}

impl Model for SeriesCursor {
    ghost use Rattle.feed.specs.declared.entry.Series.{Series};
    ghost use Rattle.feed.specs.Heads.{IsKept};

    ghost Value = { Series };

    ghost view = { λ s. s.rule };

    ghost invariant = { λ s. IsKept s.rule s.number s.cycle s.before };
}

impl SeriesCursor {
    /// The source of a series.
    pub fn new(rule: Series) -> SeriesCursor
        requires { IsRule rule }
        ensures { result ≡ rule }
    {
        let first = cycle_of(&rule, 0);
        SeriesCursor {
            rule,
            number: 0,
            cycle: first,
            before: first,
        }
    }

    // The same source again.
    pub(crate) fn copied(&self) -> SeriesCursor
        ensures { result ≡ self.now }
    {
        SeriesCursor {
            rule: self.rule,
            number: self.number,
            cycle: self.cycle,
            before: self.before,
        }
    }

    // The cycles of entry `number` and of the one before it.
    fn cycles(&mut self, number: u32) -> (u64, u64)
        ensures same { self.new ≡ self.old }
        ensures cycle { result.0 ≡ cycle_of self.old number }
        ensures last { result.1 ≡ cycle_of self.old (number - 1) }
    {
        if number != self.number {
            self.before = if number > 0 && number - 1 == self.number {
                self.cycle
            } else {
                cycle_of(&self.rule, number.saturating_sub(1))
            };
            self.cycle = cycle_of(&self.rule, number);
            self.number = number;
        }
        (self.cycle, self.before)
    }

    // The entry before entry `number`, and that, where they stand.
    pub(crate) fn look(&mut self, index: usize, number: u32) -> (Option<Entry>, Option<Entry>)
        ensures same { self.new ≡ self.old }
        ensures last { result.0 ≡ entry_before (entries_of index self.old) number }
        ensures next { result.1 ≡ slice_get (entries_of index self.old) number }
    {
        let (cycle, before) = self.cycles(number);
        let next = series_entry(index, &self.rule, number, cycle);
        let last = if number == 0 {
            None
        } else {
            series_entry(index, &self.rule, number - 1, before)
        };
        (last, next)
    }

    // Entry `number`, where it stands, while nothing is kept.
    pub(crate) fn entry(&self, index: usize, number: u32) -> Option<Entry>
        ensures { result ≡ slice_get (entries_of index self.now) number }
    {
        series_entry(index, &self.rule, number, cycle_of(&self.rule, number))
    }
}

// What stands in a place without a source.
impl Default for SeriesCursor {
    fn default() -> SeriesCursor {
        SeriesCursor::new(Series {
            line: 0,
            first: 0,
            num: 0,
            den: 1,
            count: 0,
            input: Input::Interrupt(Interrupt::new(1)),
        })
    }
}

// The cycle of entry `number` of a series.
fn cycle_of(rule: &Series, number: u32) -> u64
    requires { IsRule rule.now }
    ensures { result ≡ cycle_of rule.now number }
{
    rule.first + number as u64 * rule.num / rule.den
}

// Entry `number` of series `index`, where it stands.
fn series_entry(index: usize, rule: &Series, number: u32, cycle: u64) -> Option<Entry>
    requires { cycle ≡ cycle_of rule.now number }
    ensures { result ≡ slice_get (entries_of index rule.now) number }
{
    let number = number as u64;
    if number < rule.count {
        Some(Entry {
            cycle,
            line: rule.line,
            number,
            input: rule.input,
            series: Some(index),
        })
    } else {
        None
    }
}
