//! The uncertain places of a source.

ghost use Rattle.std.specs.Prelude.{◌≡◌, ◌+◌, ◌<◌, ◌≤◌, ◌^◌, IfOk, IfSome, None, get_or, set};
ghost use Rattle.agc_text.specs.Lines.{lines};
ghost use Rattle.rope.specs.Places.{fixed_places, place_number, word_at};
ghost use Rattle.yayul.specs.PlaceMargin.{place_before, placed_rows};
ghost use Rattle.certain.specs.Places.{all_certain, form_at, held_places, line_on, no_line, row_passed, rows_passed};
ghost use Rattle.certain.specs.Places.{second_held, start_with, uncertain_words, with_form};

use crate::form::UncertainForm;
use crate::line_forms::{EbankUse, LineForms};
use agc_text::next_line;
use rope::Rope;
use space::{BANK_WORDS, Bank, Offset};
use std::alloc::{AllocError, Global};
use std::marker::Model;
use words::Word;
use yayul::{Language, SourceRows, is_second, place_before, placed_rows, reading_of, text_on};

/// How many places there are, those of the banks 044 to 047 included.
const HELD_PLACES: usize = 0o50 * BANK_WORDS as usize;

/// A line of a source: its number, from 1 on, and the forms of its words.
#[derive(Clone, Copy, Drop)]
pub(crate) struct CurrentLine {
    number: u64,
    // Whether an EBANK= stands before the line after it.
    ebank: EbankUse,
    forms: LineForms,
}

impl CurrentLine {
    // What stands before the first line.
    fn none() -> CurrentLine
        ensures { result ≡ no_line }
    {
        CurrentLine {
            number: 0,
            ebank: EbankUse::Missing,
            forms: LineForms::both(None),
        }
    }

    // The line of a row after this one.
    fn next(&self, row: &[u8]) -> CurrentLine
        requires { self.now.number + 1 < 2 ^ 64 }
        ensures { result ≡ line_on self.now row.now }
    {
        let number = self.number + 1;
        let reading = reading_of(Language::Flight, text_on(number, row));
        CurrentLine {
            number,
            ebank: self.ebank.after(reading.role),
            forms: LineForms::on(&reading, self.ebank.is_held()),
        }
    }
}

/// The uncertain places of a source: for each place of fixed memory the uncertain form of its word, if any.
#[derive(Drop)]
pub struct UncertainPlaces {
    // By the number of the place.
    forms: Vec<Option<UncertainForm>>,
}

impl Model for UncertainPlaces {
    ghost use Rattle.std.specs.Prelude.{◌≡◌, vec_len};
    ghost use Rattle.certain.specs.Places.{UncertainWords, held_places};

    ghost Value = { UncertainWords };

    ghost view = { λ p. p.forms.items };

    ghost invariant = { λ p. vec_len p.forms ≡ held_places };
}

impl UncertainPlaces {
    /// The uncertain places of the lines of a source of the language of flight programs, whose words stand in a fixed
    /// memory. `None` is that memory ran out.
    #[tactic(auto, unfolding(crate::specs::Places::uncertain_words))]
    pub fn of(alloc: Global, rows: &SourceRows, rope: &Rope) -> Option<UncertainPlaces>
        ensures { IfSome result (λ places. places ≡ uncertain_words rows.now rope.now) }
    {
        let Some(listing) = placed_rows(alloc, rows, rope) else {
            return None;
        };
        let Ok(mut places) = UncertainPlaces::none(alloc) else {
            return None;
        };
        places.walk(rope, listing.as_slice());
        Some(places)
    }

    /// The uncertain form of the word at a place, if any.
    pub(crate) fn form_at(&self, bank: Bank, offset: Offset) -> Option<UncertainForm>
        ensures { result ≡ form_at self.now bank offset }
    {
        self.forms[number_of(bank, offset)]
    }

    /// The uncertain form of the word at the place of a number, if any.
    pub(crate) fn form_numbered(&self, place: u32) -> Option<UncertainForm>
        requires { place < fixed_places }
        ensures { result ≡ get_or self.now place None }
    {
        self.forms[place as usize]
    }

    /// The uncertain form of the word at a bank and an offset, if any.
    pub(crate) fn form_of(&self, bank: u16, offset: u16) -> Option<UncertainForm>
        ensures { result ≡ form_at self.now bank offset }
    {
        let place = usize::from(bank) * BANK_WORDS as usize + usize::from(offset);
        match self.forms.get(place) {
            Some(form) => *form,
            None => None,
        }
    }

    // No place is uncertain. All memory is taken here.
    fn none(alloc: Global) -> Result<UncertainPlaces, AllocError>
        ensures { IfOk result (λ places. places ≡ all_certain) }
    {
        let mut forms = Vec::with_capacity(alloc, HELD_PLACES)?;
        forms.resize(HELD_PLACES, None)?;
        Ok(UncertainPlaces { forms })
    }

    // Holds the forms of the words of some rows.
    fn walk(&mut self, rope: &Rope, listing: &[u8])
        ensures { self.new ≡ (rows_passed rope.now (start_with self.old) (lines listing.now)).forms }
    {
        let mut line = CurrentLine::none();
        let mut rest = listing;
        while let Some((row, after)) = next_line(rest) {
            self.pass(rope, &mut line, row);
            rest = after;
        }
    }

    // Holds the form of the word of a row, and which line is the last one.
    #[tactic(auto, unfolding(crate::specs::Places::row_passed))]
    fn pass(&mut self, rope: &Rope, line: &mut CurrentLine, row: &[u8])
        requires { line.old.number + 1 < 2 ^ 64 }
        ensures walk { record { line = line.new; forms = self.new }
            ≡ row_passed rope.now (record { line = line.old; forms = self.old }) row.now }
        ensures number { line.new.number ≤ line.old.number + 1 }
    {
        if is_second(line.number, row) {
            self.hold_second(rope, &line.forms, row);
        } else {
            *line = line.next(row);
            self.hold(place_before(row), line.forms.first);
        }
    }

    // Holds the form of a second word.
    fn hold_second(&mut self, rope: &Rope, forms: &LineForms, row: &[u8])
        ensures { self.new ≡ second_held rope.now self.old forms.now (place_before row.now) }
    {
        if let Some((bank, offset)) = place_before(row) {
            let form = forms.second_at(word_at(rope, bank, offset));
            self.set(bank, offset, form);
        }
    }

    // Holds the form of the word at a place, if there is one.
    fn hold(&mut self, place: Option<(u16, u16)>, form: Option<UncertainForm>)
        ensures { self.new ≡ with_form self.old place form }
    {
        if let Some((bank, offset)) = place {
            self.set(bank, offset, form);
        }
    }

    // The word at a place is of a form, or of none.
    #[tactic(auto, using(crate::proofs::Sets::set_past))]
    fn set(&mut self, bank: u16, offset: u16, form: Option<UncertainForm>)
        ensures { self.new ≡ set self.old (place_number bank offset) form }
    {
        let place = usize::from(bank) * BANK_WORDS as usize + usize::from(offset);
        if place < HELD_PLACES {
            self.forms[place] = form;
        }
    }
}

// The word at a bank and an offset, 0 where none stands.
#[tactic(auto, unfolding(rope::specs::Places::slot_at))]
fn word_at(rope: &Rope, bank: u16, offset: u16) -> Word
    ensures { result ≡ word_at rope.now bank offset }
{
    match (Bank::try_new(bank), Offset::try_new(offset)) {
        (Some(bank), Some(offset)) => rope.word(bank, offset),
        _ => Word::ZERO,
    }
}

// The number of a place.
fn number_of(bank: Bank, offset: Offset) -> usize
    ensures value { result ≡ place_number bank offset }
    ensures range { result < held_places }
{
    usize::from(bank.number()) * BANK_WORDS as usize + usize::from(offset.number())
}
