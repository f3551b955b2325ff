//! The places of lines that stand by an assumption.

ghost use Rattle.std.specs.Prelude.{◌≡◌, ◌+◌, ◌-◌, ◌<◌, ◌≤◌, ◌^◌, IfOk, IfSome, None, drop, get_or, length, set};
ghost use Rattle.agc_text.specs.Lines.{lines};
ghost use Rattle.rope.specs.Places.{fixed_places, place_number};
ghost use Rattle.yayul.specs.PlaceMargin.{place_before};
ghost use Rattle.confirmed.specs.Confirmed.{assumed_words, first_wording, line_on, none_assumed};
ghost use Rattle.confirmed.specs.Confirmed.{row_passed, rows_passed, start_with, with_wording};

use agc_text::next_line;
use assumed::{Wording, wording_on};
use rope::Rope;
use space::BANK_WORDS;
use std::alloc::{AllocError, Global};
use std::marker::Model;
use yayul::{SourceRows, is_second, place_before, placed_rows};

/// How many places there are, those of the banks 044 to 047 included.
const HELD_PLACES: usize = 0o50 * BANK_WORDS as usize;

/// A line of a source: its number, from 1 on, and the wording by which it stands.
#[derive(Clone, Copy, Drop)]
pub(crate) struct MarkedLine {
    number: u64,
    wording: Option<Wording>,
}

impl MarkedLine {
    // What stands before the first line.
    fn none() -> MarkedLine
        ensures { result ≡ record { number = 0; wording = None } }
    {
        MarkedLine {
            number: 0,
            wording: None,
        }
    }

    // The line after this one, the first of those of a source that are left.
    fn next(&self, wordings: &[Wording], left: &[u8]) -> MarkedLine
        requires { self.now.number + 1 < 2 ^ 64 }
        ensures { result ≡ line_on wordings.now self.now (lines left.now) }
    {
        MarkedLine {
            number: self.number + 1,
            wording: first_wording(wordings, left),
        }
    }
}

// The wording by which the first line of a text stands, if any.
fn first_wording(wordings: &[Wording], text: &[u8]) -> Option<Wording>
    ensures { result ≡ first_wording wordings.now (lines text.now) }
{
    match next_line(text) {
        Some((line, _)) => wording_on(wordings, line),
        None => None,
    }
}

// The lines of a text after the first.
fn after_first(text: &[u8]) -> &[u8]
    ensures { lines result.now ≡ drop 1 (lines text.now) }
{
    match next_line(text) {
        Some((_, after)) => after,
        None => text,
    }
}

/// For each place of fixed memory the wording by which its word stands, if any.
#[derive(Drop)]
pub struct AssumedPlaces {
    // By the number of the place.
    held: Vec<Option<Wording>>,
}

impl Model for AssumedPlaces {
    ghost use Rattle.std.specs.Prelude.{◌≡◌, vec_len};
    ghost use Rattle.certain.specs.Places.{held_places};
    ghost use Rattle.confirmed.specs.Confirmed.{AssumedWords};

    ghost Value = { AssumedWords };

    ghost view = { λ p. p.held.items };

    ghost invariant = { λ p. vec_len p.held ≡ held_places };
}

impl AssumedPlaces {
    /// Those of the lines of a source, whose rows under assumptions are given, and whose words stand in a fixed memory.
    /// `None` is that memory ran out.
    #[tactic(auto, unfolding(crate::specs::Confirmed::assumed_words))]
    pub fn of(
        alloc: Global,
        wordings: &[Wording],
        source: &[u8],
        rows: &SourceRows,
        rope: &Rope,
    ) -> Option<AssumedPlaces>
        ensures { IfSome result (λ places. places
            ≡ assumed_words wordings.now source.now rows.now rope.now) }
    {
        let Some(listing) = placed_rows(alloc, rows, rope) else {
            return None;
        };
        let Ok(mut places) = AssumedPlaces::none(alloc) else {
            return None;
        };
        places.walk(wordings, source, listing.as_slice());
        Some(places)
    }

    /// The wording of the word at the place of a number, if any.
    pub(crate) fn wording_numbered(&self, place: u32) -> Option<Wording>
        requires { place < fixed_places }
        ensures { result ≡ get_or self.now place None }
    {
        self.held[place as usize]
    }

    // No place stands by an assumption. All memory is taken here.
    fn none(alloc: Global) -> Result<AssumedPlaces, AllocError>
        ensures { IfOk result (λ places. places ≡ none_assumed) }
    {
        let mut held = Vec::with_capacity(alloc, HELD_PLACES)?;
        held.resize(HELD_PLACES, None)?;
        Ok(AssumedPlaces { held })
    }

    // Holds the wordings of the words of some rows, those of the lines of a source.
    fn walk(&mut self, wordings: &[Wording], source: &[u8], listing: &[u8])
        ensures { self.new
            ≡ (rows_passed wordings.now (start_with (lines source.now) self.old) (lines listing.now)).held }
    {
        let mut line = MarkedLine::none();
        let mut left = source;
        let mut rest = listing;
        while let Some((row, after)) = next_line(rest) {
            left = self.pass(wordings, &mut line, left, row);
            rest = after;
        }
    }

    // Holds the wording of the word of a row, and which line is the last one. Answers the lines that are left.
    #[tactic(auto, unfolding(crate::specs::Confirmed::row_passed))]
    fn pass<'a>(
        &mut self,
        wordings: &[Wording],
        line: &mut MarkedLine,
        left: &'a [u8],
        row: &[u8],
    ) -> &'a [u8]
        requires { line.old.number + 1 < 2 ^ 64 }
        ensures walk { record { line = line.new; left = lines result.now; held = self.new }
            ≡ row_passed wordings.now (record { line = line.old; left = lines left.now; held = self.old }) row.now }
        ensures number { line.new.number ≤ line.old.number + 1 }
    {
        if is_second(line.number, row) {
            self.hold(place_before(row), line.wording);
            return left;
        }
        *line = line.next(wordings, left);
        self.hold(place_before(row), line.wording);
        after_first(left)
    }

    // Holds the wording of the word at a place, if there is one.
    fn hold(&mut self, place: Option<(u16, u16)>, wording: Option<Wording>)
        ensures { self.new ≡ with_wording self.old place wording }
    {
        if let Some((bank, offset)) = place {
            self.set(bank, offset, wording);
        }
    }

    // The word at a place stands by a wording, or by none.
    #[tactic(auto, using(crate::proofs::Sets::set_past))]
    fn set(&mut self, bank: u16, offset: u16, wording: Option<Wording>)
        ensures { self.new ≡ set self.old (place_number bank offset) wording }
    {
        let place = usize::from(bank) * BANK_WORDS as usize + usize::from(offset);
        if place < HELD_PLACES {
            self.held[place] = wording;
        }
    }
}
