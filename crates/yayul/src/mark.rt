//! What the listing shows beside the number and the text of a line.

ghost use Rattle.std.specs.Prelude.{◌≡◌, [], ◌∷◌, ◌++◌, OnOk, None};
ghost use Rattle.yayul.specs.Listing.{place_here, words_from, shown};
ghost use Rattle.yayul.specs.PlaceRows.{shows};
ghost use Rattle.yayul.specs.Inside.Representation.{shown_by_mark};

use crate::language::{Content, Location, Operation, Statement};
use space::{Bank, Eras, Linear, Offset};
use std::alloc::{AllocError, Global};
use std::marker::Model;

/// What the listing shows beside the number and the text of a line.
#[derive(Clone, Copy, Drop)]
pub(crate) enum Mark {
    /// Neither a place nor a word.
    Nothing,
    /// An erasable place alone.
    Erasable(Eras),
    /// A bank and an offset alone.
    Fixed(Bank, Offset),
    /// The word at a bank and an offset.
    Word(Bank, Offset),
    /// The word at a bank and an offset, and a second one of its bank.
    Words(Bank, Offset, Offset),
}

impl Mark {
    /// What a statement shows, which stands at a location.
    pub(crate) fn of(here: Location, statement: &Statement) -> Mark
        ensures { shown_by_mark result ≡ shown here statement.now }
    {
        match &statement.operation {
            Operation::Nothing if statement.label.is_missing() => Mark::Nothing,
            Operation::Nothing | Operation::Erase(_) => Mark::of_place(here),
            Operation::Gives(Some(content)) => Mark::of_words(here, content.width()),
            Operation::Gives(None) => Mark::Nothing,
            Operation::Unknown
            | Operation::Setloc(_)
            | Operation::Bank(..)
            | Operation::Equals(_)
            | Operation::Ebank(_) => Mark::Nothing,
        }
    }

    /// Whether a line that shows this shows a place.
    pub(crate) fn shows(&self, place: &Linear) -> bool
        ensures { result ≡ shows place.now (shown_by_mark self.now) }
    {
        match (self, place) {
            (Mark::Erasable(shown), Linear::Erasable(number)) => shown == number,
            (Mark::Word(bank, offset), Linear::Fixed(..)) => {
                *place == Linear::Fixed(*bank, *offset)
            }
            (Mark::Words(bank, first, second), Linear::Fixed(..)) => {
                *place == Linear::Fixed(*bank, *first) || *place == Linear::Fixed(*bank, *second)
            }
            _ => false,
        }
    }

    // The place at a location alone, unless that stands past an end.
    fn of_place(here: Location) -> Mark
        ensures { shown_by_mark result ≡ record { place = place_here here; words = [] } }
    {
        match here {
            Location::Erasable(number) => match Eras::try_new(number) {
                Some(place) => Mark::Erasable(place),
                None => Mark::Nothing,
            },
            Location::Fixed(bank, number) => match Offset::try_new(number) {
                Some(offset) => Mark::Fixed(bank.bank(), offset),
                None => Mark::Nothing,
            },
        }
    }

    // One or two words from a location on, where they may stand.
    fn of_words(here: Location, count: usize) -> Mark
        ensures { shown_by_mark result ≡ record { place = None; words = words_from count here } }
    {
        match here.word_place() {
            Some((bank, first)) => match Offset::try_new(first.number() + 1) {
                Some(second) if count > 1 => Mark::Words(bank.bank(), first, second),
                _ => Mark::Word(bank.bank(), first),
            },
            None => Mark::Nothing,
        }
    }
}

/// What the lines of a source show, in order.
#[derive(Drop)]
pub(crate) struct Marks {
    marks: Vec<Mark>,
}

impl Model for Marks {
    ghost use Rattle.std.specs.Prelude.{List};
    ghost use Rattle.yayul.specs.declared.mark.Mark.{Mark as Shown};

    ghost Value = { List Shown };

    ghost view = { λ m. m.marks.items };
}

impl Marks {
    /// What no line shows. Nothing is allocated.
    pub(crate) fn new(alloc: Global) -> Marks
        ensures { result ≡ [] }
    {
        Marks {
            marks: Vec::new(alloc),
        }
    }

    /// Adds what the next line shows.
    pub(crate) fn push(&mut self, mark: Mark) -> Result<(), AllocError>
        ensures { OnOk result (self.new ≡ self.old ++ mark ∷ []) }
    {
        self.marks.push(mark)?;
        Ok(())
    }

    /// What each line shows.
    pub(crate) fn as_slice(&self) -> &[Mark]
        ensures { result.now ≡ self.now }
    {
        &self.marks
    }
}
