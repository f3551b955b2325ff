//! The places of a source whose words are instructions.

ghost use Rattle.std.specs.Prelude.{◌≡◌, ◌+◌, ◌<◌, ◌≤◌, ◌^◌, IfOk, IfSome, false, set};
ghost use Rattle.agc_text.specs.Lines.{lines};
ghost use Rattle.rope.specs.Places.{place_number};
ghost use Rattle.instructions.specs.Places.{held_places, instructions, is_marked, makes_instruction, none_marked};
ghost use Rattle.instructions.specs.Places.{row_passed, rows_passed, start_with, with_mark};

use crate::roles::is_instruction;
use agc_text::next_line;
use rope::Rope;
use space::{BANK_WORDS, Bank, Offset};
use std::alloc::{AllocError, Global};
use std::marker::Model;
use yayul::{Language, SourceRows, is_second, place_before, placed_rows, reading_of, text_on};

/// How many places there are, those of the banks 044 to 047 included.
const HELD_PLACES: usize = 0o50 * BANK_WORDS as usize;

/// For each place of fixed memory whether its word is an instruction: whether a line makes it by the operator of one.
#[derive(Drop)]
pub struct Instructions {
    // By the number of the place.
    marks: Vec<bool>,
}

impl Model for Instructions {
    ghost use Rattle.std.specs.Prelude.{◌≡◌, Bool, List, vec_len};
    ghost use Rattle.instructions.specs.Places.{held_places};

    ghost Value = { List Bool };

    ghost view = { λ i. i.marks.items };

    ghost invariant = { λ i. vec_len i.marks ≡ held_places };
}

impl Instructions {
    /// Those of the lines of a source of a language, whose words stand in a fixed memory. `None` is that memory ran
    /// out.
    #[tactic(auto, unfolding(crate::specs::Places::instructions))]
    pub fn of(
        alloc: Global,
        language: Language,
        rows: &SourceRows,
        rope: &Rope,
    ) -> Option<Instructions>
        ensures { IfSome result (λ marks. marks ≡ instructions language rows.now rope.now) }
    {
        let listing = placed_rows(alloc, rows, rope)?;
        let Ok(mut found) = Instructions::none(alloc) else {
            return None;
        };
        found.walk(language, listing.as_slice());
        Some(found)
    }

    /// No word is one. All memory is taken here.
    pub fn none(alloc: Global) -> Result<Instructions, AllocError>
        ensures { IfOk result (λ marks. marks ≡ none_marked) }
    {
        let mut marks = Vec::with_capacity(alloc, HELD_PLACES)?;
        marks.resize(HELD_PLACES, false)?;
        Ok(Instructions { marks })
    }

    /// Whether the word at a place is one.
    pub fn is_at(&self, bank: Bank, offset: Offset) -> bool
        ensures { result ≡ is_marked self.now bank offset }
    {
        self.marks[number_of(bank, offset)]
    }

    // Marks the instructions of some rows.
    fn walk(&mut self, language: Language, listing: &[u8])
        ensures { self.new ≡ (rows_passed language (start_with self.old) (lines listing.now)).marks }
    {
        let mut line = 0;
        let mut rest = listing;
        while let Some((row, after)) = next_line(rest) {
            line = self.pass(language, line, row);
            rest = after;
        }
    }

    // Marks the word of a row, after a line of a number, and answers the number of its own line.
    #[tactic(auto, unfolding(crate::specs::Places::row_passed))]
    fn pass(&mut self, language: Language, line: u64, row: &[u8]) -> u64
        requires { line + 1 < 2 ^ 64 }
        ensures walk { record { line = result; marks = self.new }
            ≡ row_passed language (record { line = line; marks = self.old }) row.now }
        ensures number { result ≤ line + 1 }
    {
        if is_second(line, row) {
            return line;
        }
        let next = line + 1;
        self.mark(place_before(row), makes_instruction(language, next, row));
        next
    }

    // Marks the word at a place, if there is one.
    fn mark(&mut self, place: Option<(u16, u16)>, is: bool)
        ensures { self.new ≡ with_mark self.old place is }
    {
        if let Some((bank, offset)) = place {
            self.set(bank, offset, is);
        }
    }

    // The word at a place is an instruction, or none.
    #[tactic(auto, using(crate::proofs::Sets::set_past))]
    fn set(&mut self, bank: u16, offset: u16, is: bool)
        ensures { self.new ≡ set self.old (place_number bank offset) is }
    {
        let place = usize::from(bank) * BANK_WORDS as usize + usize::from(offset);
        if place < HELD_PLACES {
            self.marks[place] = is;
        }
    }
}

// Whether the line of a number makes an instruction, by its row.
fn makes_instruction(language: Language, line: u64, row: &[u8]) -> bool
    ensures { result ≡ makes_instruction language line row.now }
{
    is_instruction(reading_of(language, text_on(line, row)).role)
}

// The number of a place.
fn number_of(bank: Bank, offset: Offset) -> usize
    ensures value { result ≡ place_number bank offset }
    ensures range { result < held_places }
{
    usize::from(bank.number()) * BANK_WORDS as usize + usize::from(offset.number())
}
