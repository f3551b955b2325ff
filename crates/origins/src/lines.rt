//! The lines of a chain's origins, each once.

ghost use Rattle.std.specs.Prelude.{◌≡◌, ◌≤◌, length};
ghost use Rattle.origins.specs.Lines.{new_line, no_lines, place_of, with_origin};

use crate::origin::{Origin, OriginLine, is_same};
use crate::tally::Tally;
use arrayvec::ArrayVec;
use std::marker::Model;

/// The most lines that are told.
const MOST_LINES: usize = 1_024;

/// The lines of origins, those of the last steps first, and whether there were more than are told.
#[derive(Drop)]
pub(crate) struct Lines {
    lines: ArrayVec<OriginLine, MOST_LINES>,
    more: bool,
}

impl Model for Lines {
    ghost use Rattle.origins.specs.Lines.{Table};

    ghost Value = { Table };

    ghost view = { λ t. record { lines = t.lines.items; more = t.more } };
}

impl Lines {
    /// None.
    pub(crate) fn none() -> Lines
        ensures { result ≡ no_lines }
    {
        Lines {
            lines: ArrayVec::new(),
            more: false,
        }
    }

    /// The lines.
    pub(crate) fn as_slice(&self) -> &[OriginLine]
        ensures { result.now ≡ self.now.lines }
    {
        self.lines.as_slice()
    }

    /// Whether there were more.
    pub(crate) fn has_more(&self) -> bool
        ensures { result ≡ self.now.more }
    {
        self.more
    }

    /// A step has an origin: its line has a step more, or is a new one where there is room.
    pub(crate) fn note(&mut self, number: u64, origin: Origin)
        ensures { self.new ≡ with_origin number origin self.old }
    {
        let place = place_of(self.lines.as_slice(), &origin);
        if place < self.lines.len() {
            self.lines.as_mut_slice()[place].tally.add(number);
        } else if self.lines.len() < MOST_LINES {
            self.lines.push(new_line(number, origin));
        } else {
            self.more = true;
        }
    }
}

/// The first line of an origin, by the number of its step.
fn new_line(number: u64, origin: Origin) -> OriginLine
    ensures { result ≡ new_line number origin }
{
    let mut tally = Tally::none();
    tally.add(number);
    OriginLine { origin, tally }
}

/// Where the line of an origin stands among some, or how many they are, where it does not.
fn place_of(lines: &[OriginLine], origin: &Origin) -> usize
    ensures place { result ≡ place_of origin.now lines.now }
    ensures within { result ≤ length lines.now }
{
    for index in 0..lines.len() {
        if is_same(&lines[index].origin, origin) {
            return index;
        }
    }
    lines.len()
}
