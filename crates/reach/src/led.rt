//! What is found of each word.

ghost use Rattle.std.specs.Prelude.{◌≡◌};
ghost use Rattle.reach.specs.ReachText.{column, led_column};

use crate::column::{column_beyond, executes, reads};
use crate::marks::Marks;
use crate::root_column::roots_column;
use crate::roots::Roots;
use space::{Bank, Offset};
use std::marker::Model;
use words::{Write, WriteFailed, write_all};
use yayul::Margin;

/// What is reached from where a run starts and from the entries of interrupts; and what is reached from there and from
/// the places that a program names; and the roots, where they are shown.
#[derive(Drop)]
pub struct Led {
    start: Marks,
    named: Marks,
    roots: Option<Roots>,
}

impl Model for Led {
    ghost use Rattle.reach.specs.ReachText.{Led as OfWords};

    ghost Value = { OfWords };

    ghost view = { λ l. record { start = l.start; named = l.named; roots = l.roots } };
}

/// The column where a row has no word.
const NO_COLUMN: &[u8] = b"      ";

impl Margin for Led {
    ghost use Rattle.reach.specs.ReachText.{margin_of};

    ghost text = { margin_of };

    fn write<W: Write>(
        &self,
        word: Option<(Bank, Offset)>,
        writer: &mut W,
    ) -> Result<(), WriteFailed> {
        write_all(writer, self.led_column(&word))?;
        write_all(writer, roots_column(&self.roots, &word).as_slice())
    }
}

impl Led {
    /// What is reached from where a run starts and from the entries of interrupts; and what is reached from there and
    /// from the places that a program names; and the roots, where they are shown.
    pub fn new(start: Marks, named: Marks, roots: Option<Roots>) -> Led
        ensures { result ≡ record { start = start; named = named; roots = roots } }
    {
        Led {
            start,
            named,
            roots,
        }
    }

    /// The column before a row.
    fn led_column(&self, word: &Option<(Bank, Offset)>) -> &'static [u8]
        ensures { result.now ≡ led_column self.now word.now }
    {
        match word {
            Some((bank, offset)) => self.column(*bank, *offset),
            None => NO_COLUMN,
        }
    }

    /// The column before a word: START where a way leads to it, DATA where an instruction reads it, else that of named
    /// places.
    #[tactic(auto, unfolding(crate::specs::ReachText::column))]
    fn column(&self, bank: Bank, offset: Offset) -> &'static [u8]
        ensures { result.now ≡ column self.now bank offset }
    {
        if executes(&self.start, bank, offset) {
            b"START "
        } else if reads(&self.start, bank, offset) {
            b"DATA  "
        } else {
            column_beyond(&self.named, bank, offset)
        }
    }
}
