//! What is found of each word beside a run.

ghost use Rattle.std.specs.Prelude.{◌≡◌, true};
ghost use Rattle.words.specs.Devices.{Writes, failures_after};
ghost use Rattle.reach.specs.RunText.{found_columns, idle_column, root_column};

use crate::column::{column_beyond, executes, reads};
use crate::executed::Executed;
use crate::marks::Marks;
use crate::root_column::roots_column;
use crate::roots::Roots;
use space::{Bank, Offset};
use std::marker::Model;
use words::{Write, WriteFailed, write_all};
use yayul::Margin;

/// What is reached from where a run starts and from the entries of interrupts; what is reached from there and from all
/// that the run executes; what is reached from all of these and from the places that a program names; and what the run
/// executes; and the roots, where they are shown.
#[derive(Drop)]
pub struct Found {
    start: Marks,
    run: Marks,
    named: Marks,
    done: Executed,
    roots: Option<Roots>,
}

impl Model for Found {
    ghost use Rattle.reach.specs.RunText.{Found as OfRun};

    ghost Value = { OfRun };

    ghost view = { λ f. record {
      start = f.start;
      run = f.run;
      named = f.named;
      done = f.done.marks;
      roots
          = f.roots;
    } };
}

/// The columns where a row has no word.
const NO_COLUMNS: &[u8] = b"           ";

impl Margin for Found {
    ghost use Rattle.reach.specs.RunText.{found_margin};

    ghost text = { found_margin };

    fn write<W: Write>(
        &self,
        word: Option<(Bank, Offset)>,
        writer: &mut W,
    ) -> Result<(), WriteFailed> {
        self.write_columns(&word, writer)?;
        write_all(writer, roots_column(&self.roots, &word).as_slice())
    }
}

impl Found {
    /// What is reached from where a run starts and from the entries of interrupts; what is reached from there and from
    /// all that the run executes; what is reached from all of these and from the places that a program names; and what
    /// the run executes; and the roots, where they are shown.
    pub fn new(
        start: Marks,
        run: Marks,
        named: Marks,
        done: Executed,
        roots: Option<Roots>,
    ) -> Found
        ensures { result
            ≡ record { start = start; run = run; named = named; done = done.marks; roots = roots } }
    {
        Found {
            start,
            run,
            named,
            done,
            roots,
        }
    }

    /// Writes the columns before a row.
    fn write_columns<W: Write>(
        &self,
        word: &Option<(Bank, Offset)>,
        writer: &mut W,
    ) -> Result<(), WriteFailed>
        ensures written { W.told ≡ true → Writes (W.written writer.old) (W.written writer.new)
            (found_columns self.now word.now) result }
        ensures failures { W.failures writer.new ≡ failures_after (W.failures writer.old) result }
    {
        match word {
            Some((bank, offset)) => {
                write_all(writer, self.root_column(*bank, *offset))?;
                write_all(writer, self.idle_column(*bank, *offset))
            }
            None => write_all(writer, NO_COLUMNS),
        }
    }

    /// The kind of root from which a way leads to a word.
    #[tactic(auto, unfolding(crate::specs::RunText::root_column))]
    fn root_column(&self, bank: Bank, offset: Offset) -> &'static [u8]
        ensures { result.now ≡ root_column self.now bank offset }
    {
        if executes(&self.start, bank, offset) {
            b"START "
        } else if executes(&self.run, bank, offset) {
            b"RUN   "
        } else if reads(&self.run, bank, offset) {
            b"DATA  "
        } else {
            column_beyond(&self.named, bank, offset)
        }
    }

    /// Whether a way leads to a word that the run has not executed.
    fn idle_column(&self, bank: Bank, offset: Offset) -> &'static [u8]
        ensures { result.now ≡ idle_column self.now bank offset }
    {
        if executes(&self.run, bank, offset) && !executes(self.done.marks(), bank, offset) {
            b"IDLE "
        } else {
            b"     "
        }
    }
}
