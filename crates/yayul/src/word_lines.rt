//! The lines whose words stand at the places of fixed memory.

ghost use Rattle.std.specs.Prelude.{◌≡◌, ◌<◌, IfOk};
ghost use Rattle.rope.specs.Places.{fixed_places, place_number};
ghost use Rattle.yayul.specs.Inside.WordLines.{no_lines, held_at, held_from, with_line, with_lines, words_given};

use crate::language::{Location, Operation};
use crate::layout::{BANKS, Layout};
use space::{BANK_WORDS, Offset};
use std::alloc::{AllocError, Global};
use std::marker::Model;
use symbols::FixedBank;

/// How many places fixed memory has.
const PLACES: usize = BANKS * BANK_WORDS as usize;

/// For each place of fixed memory the line whose word stands there.
#[derive(Drop)]
pub(crate) struct WordLines {
    // By the number of the place.
    lines: Vec<Option<u32>>,
}

impl Model for WordLines {
    ghost use Rattle.std.specs.Prelude.{◌≡◌, vec_len};
    ghost use Rattle.rope.specs.Places.{fixed_places};
    ghost use Rattle.yayul.specs.Inside.WordLines.{WordLines};

    ghost Value = { WordLines };

    ghost view = { λ w. w.lines.items };

    ghost invariant = { λ w. vec_len w.lines ≡ fixed_places };
}

impl WordLines {
    /// No word stands anywhere. All memory is taken here, and an `Err` is that it ran out.
    pub(crate) fn nothing(alloc: Global) -> Result<WordLines, AllocError>
        ensures { IfOk result (λ lines. lines ≡ no_lines) }
    {
        let mut lines = Vec::with_capacity(alloc, PLACES)?;
        lines.resize(PLACES, None)?;
        Ok(WordLines { lines })
    }

    /// The line whose word stands where the first of so many would, else the second where there are two.
    pub(crate) fn from(&self, layout: &Layout, count: usize) -> Option<u32>
        ensures { result ≡ held_from self.now layout.now.location count }
    {
        match self.at(layout.location) {
            Some(line) => Some(line),
            None if count > 1 => self.at(layout.location.after_word()),
            None => None,
        }
    }

    // The line whose word stands at a location.
    fn at(&self, here: Location) -> Option<u32>
        ensures { result ≡ held_at self.now here }
    {
        match here.word_place() {
            Some((bank, offset)) => self.lines[place_number(bank, offset)],
            None => None,
        }
    }

    /// Holds that none, one or two words of a line stand from the location on, but where another's do.
    pub(crate) fn hold(&mut self, line: u32, layout: &Layout, count: usize)
        ensures { self.new ≡ with_lines line layout.now.location count self.old }
    {
        if count > 0 {
            self.hold_at(line, layout.location);
        }
        if count > 1 {
            self.hold_at(line, layout.location.after_word());
        }
    }

    // Holds that a word of a line stands at a location, unless another's does.
    fn hold_at(&mut self, line: u32, here: Location)
        ensures { self.new ≡ with_line line here self.old }
    {
        if let Some((bank, offset)) = here.word_place() {
            let place = place_number(bank, offset);
            self.lines[place] = self.lines[place].or(Some(line));
        }
    }
}

impl Operation {
    /// How many words it gives.
    pub(crate) fn width(&self) -> usize
        ensures { result ≡ words_given self.now }
    {
        match self {
            Operation::Gives(Some(content)) => content.width(),
            _ => 0,
        }
    }
}

// The number of a place.
fn place_number(bank: FixedBank, offset: Offset) -> usize
    ensures value { result ≡ place_number bank offset }
    ensures range { result < fixed_places }
{
    usize::from(bank.bank().number()) * BANK_WORDS as usize + usize::from(offset.number())
}
