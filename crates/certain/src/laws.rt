//! The laws of uncertain places. They are contracts of calls that do nothing.

ghost use Rattle.std.specs.Prelude.{ℕ};
ghost use Rattle.certain.specs.Accounts.{CountsAll};
ghost use Rattle.certain.specs.Doubted.{WarnedAreUncertain};
ghost use Rattle.certain.specs.Lines.{AreOfLines};

use crate::places::UncertainPlaces;
use rope::Rope;
use yayul::SourceRows;

/// The uncertain places of a source are those of its lines: the word of a line is of the form that its operator, its
/// operand and the lines before it make it.
pub fn words_are_of_lines(rows: &SourceRows, words: &Rope)
    ensures { AreOfLines rows.now words.now }
{
    let _rows = rows;
    let _words = words;
}

/// The lines that are warned of are those of the uncertain places of the two forms that are less than 90 % sure.
pub fn warned_are_uncertain(rows: &SourceRows, words: &Rope)
    ensures { WarnedAreUncertain rows.now words.now }
{
    let _rows = rows;
    let _words = words;
}

/// An account counts each place that a source fills in a bank once: as certain, as uncertain or as a hole; and of the
/// certain ones some have the rope's word.
pub fn accounts_count_all(uncertain: &UncertainPlaces, words: &Rope, other: &Rope, new: &Rope)
    ensures { (bank : ℕ) → CountsAll uncertain.now words.now other.now new.now bank }
{
    let _uncertain = uncertain;
    let _words = words;
    let _other = other;
    let _new = new;
}
