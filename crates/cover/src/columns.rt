//! The columns of figures.

ghost use Rattle.std.specs.Prelude.{◌≡◌, ◌+◌, ◌≤◌, ◌++◌, decimal, length};
ghost use Rattle.arrayvec.specs.ArrayVec.{array_vec_len};
ghost use Rattle.cover.specs.CoverText.{column, figure_columns};

use crate::tally::Figures;
use arrayvec::ArrayVec;
use trace::decimal_text;
use words::push_all;
use yayul::push_blanks;

/// The most bytes of the columns: two numbers of at most 20 digits, with a blank after each.
const COLUMNS: usize = 42;

pub(crate) type Columns = ArrayVec<u8, COLUMNS>;

/// How wide each column is.
const WIDTH: usize = 10;

/// How often, and the cycles; of what was never executed a sign in each.
#[tactic(auto, unfolding(crate::specs::CoverText::figure_columns))]
pub(crate) fn figure_columns(figures: Figures) -> Columns
    ensures { result.items ≡ figure_columns figures }
{
    let mut line = ArrayVec::new();
    if figures.count == 0 {
        push_column(&mut line, b"-");
        push_column(&mut line, b"-");
    } else {
        push_column(&mut line, decimal_text(figures.count).as_slice());
        push_column(&mut line, decimal_text(figures.cycles).as_slice());
    }
    line
}

/// Appends a column with a text.
fn push_column(line: &mut Columns, text: &[u8])
    requires room { array_vec_len line.old ≤ 21 }
    requires short { length text.now ≤ 20 }
    ensures items { line.new.items ≡ line.old.items ++ column text.now }
    ensures short { array_vec_len line.new ≤ array_vec_len line.old + 21 }
{
    push_blanks(line, WIDTH.saturating_sub(text.len()));
    push_all(line, text);
    push_all(line, b" ");
}
