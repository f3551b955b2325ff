//! A word that is watched while steps are made.

ghost use Rattle.std.specs.Prelude.{◌≡◌, nat_lt};
ghost use Rattle.debugger.specs.Surveys.{rank, begun_with, gone_on_with};
ghost use Rattle.debugger.specs.Surveying.{watch_seen};

use crate::noted::word_of;
use commands::Subject;
use cpu::Machine;
use space::Chan;
use words::Word;

/// A word that is watched, and what it was after some steps.
#[derive(Clone, Copy, Drop)]
pub(crate) struct Watch {
    /// What has it.
    pub(crate) subject: Subject,
    /// The least of ones' complement, where -0 is below +0.
    pub(crate) least: Word,
    /// The greatest.
    pub(crate) greatest: Word,
    /// The last.
    pub(crate) last: Word,
}

impl Watch {
    /// The word of a subject, which was this alone.
    pub(crate) fn begun_with(subject: Subject, word: Word) -> Watch
        ensures { result ≡ begun_with subject word }
    {
        Watch {
            subject,
            least: word,
            greatest: word,
            last: word,
        }
    }

    /// A step led to a machine: the first of them, or one more.
    pub(crate) fn see(&mut self, is_first: bool, machine: &Machine)
        ensures { self.new ≡ watch_seen is_first machine.now self.old }
    {
        let word = word_of(self.subject, machine);
        if is_first {
            *self = Watch::begun_with(self.subject, word);
        } else if word != self.last {
            self.go_on_with(word);
        }
    }

    /// The word is another one now. It stands apart, so that a step that leaves it as it is has none of its locals.
    #[inline(never)]
    fn go_on_with(&mut self, word: Word)
        ensures { self.new ≡ gone_on_with self.old word }
    {
        if is_below(word, self.least) {
            self.least = word;
        }
        if is_below(self.greatest, word) {
            self.greatest = word;
        }
        self.last = word;
    }
}

/// Whether a word is less than another of ones' complement, where -0 is below +0.
fn is_below(word: Word, other: Word) -> bool
    ensures { result ≡ nat_lt (rank word) (rank other) }
{
    rank(word) < rank(other)
}

/// Where a word stands among all, from the least on.
fn rank(word: Word) -> u16
    ensures { result ≡ rank word }
{
    let bits = word.to_u16();
    if bits < 0o40000 {
        bits + 0o40000
    } else {
        bits - 0o40000
    }
}

// What an empty place of a list holds.
impl Default for Watch {
    fn default() -> Watch {
        Watch::begun_with(Subject::Channel(Chan::L), Word::ZERO)
    }
}
