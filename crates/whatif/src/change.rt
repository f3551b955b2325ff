//! What an input changes: the notes that a run then has, and those that it has no longer.

ghost use Rattle.std.specs.Prelude.{◌≡◌, ◌≤◌, ◌+◌, ◌++◌, length, IfOk, OnOk};
ghost use Rattle.agc_text.specs.Tables.{same_name};
ghost use Rattle.arrayvec.specs.ArrayVec.{array_vec_len};
ghost use Rattle.notes.specs.RunNotes.{kind_word};
ghost use Rattle.whatif.specs.Changes.{change_text, note_line, nowhere_text, other_line, others_text, spot_text};

use arrayvec::ArrayVec;
use notes::{Kind, Note, has_note};
use space::Linear;
use std::alloc::{AllocError, Global};
use std::marker::Model;
use trace::place_text;
use words::push_all;

/// The most bytes of a line: its word, a kind and a place.
const LINE: usize = 64;

/// A line.
type Line = ArrayVec<u8, LINE>;

/// The lines of what changes.
#[derive(Drop)]
pub(crate) struct Change {
    text: Vec<u8>,
}

impl Model for Change {
    ghost use Rattle.std.specs.Prelude.{ℕ, List};

    ghost Value = { List ℕ };

    ghost view = { λ c. c.text.items };
}

impl Change {
    /// Between the notes of two runs.
    pub(crate) fn between(
        alloc: Global,
        without: &[Note],
        now: &[Note],
    ) -> Result<Change, AllocError>
        ensures { IfOk result (λ change. change ≡ change_text without.now now.now) }
    {
        let mut text = Vec::new(alloc);
        push_others(&mut text, b"MORE ", without, now)?;
        push_others(&mut text, b"LESS ", now, without)?;
        Ok(Change { text })
    }

    /// Its lines.
    pub(crate) fn text(&self) -> &[u8]
        ensures { result.now ≡ self.now }
    {
        &self.text
    }

    /// Whether another is the same.
    pub(crate) fn is_same(&self, other: &Change) -> bool
        ensures { result ≡ same_name self.now other.now }
    {
        self.text.as_slice() == other.text.as_slice()
    }
}

/// Appends the lines of those notes that are not among some, each after a word.
pub(crate) fn push_others(
    text: &mut Vec<u8>,
    word: &[u8],
    notes: &[Note],
    others: &[Note],
) -> Result<(), AllocError>
    requires { length word.now ≤ 8 }
    ensures { OnOk result (text.new.items ≡ text.old.items ++ others_text word.now notes.now others.now) }
{
    for note in others {
        push_other(text, word, notes, note)?;
    }
    Ok(())
}

/// Appends the line of a note, where that is not among some.
fn push_other(
    text: &mut Vec<u8>,
    word: &[u8],
    notes: &[Note],
    note: &Note,
) -> Result<(), AllocError>
    requires { length word.now ≤ 8 }
    ensures { OnOk result (text.new.items ≡ text.old.items ++ other_line word.now notes.now note.now) }
{
    if has_note(notes, note) {
        return Ok(());
    }
    text.extend_from_slice(note_line(word, note).as_slice())
}

/// The line of a note.
fn note_line(word: &[u8], note: &Note) -> Line
    requires { length word.now ≤ 8 }
    ensures { result.items ≡ note_line word.now note.now }
{
    let mut line = ArrayVec::new();
    push_all(&mut line, word);
    push_all(&mut line, kind_word(note.kind));
    push_all(&mut line, b" ");
    push_spot(&mut line, note.kind, note.place);
    push_all(&mut line, b"\n");
    line
}

/// Appends where a note of a kind is.
fn push_spot(line: &mut Line, kind: Kind, place: Option<Linear>)
    requires { array_vec_len line.old ≤ 40 }
    ensures items { line.new.items ≡ line.old.items ++ spot_text kind place }
    ensures short { array_vec_len line.new ≤ array_vec_len line.old + 7 }
{
    match place {
        None => push_all(line, nowhere_text(kind)),
        Some(place) => push_all(line, place_text(place).as_slice()),
    }
}

/// What stands where a note has no place: it is of an input, or else of a word that waited.
fn nowhere_text(kind: Kind) -> &'static [u8]
    ensures text { result.now ≡ nowhere_text kind }
    ensures short { length result.now ≤ 5 }
{
    match kind {
        Kind::Overwritten => b"-",
        _ => b"BRUPT",
    }
}

/// The word of a kind.
fn kind_word(kind: Kind) -> &'static [u8]
    ensures word { result.now ≡ kind_word kind }
    ensures short { length result.now ≤ 11 }
{
    match kind {
        Kind::Quotient => b"QUOTIENT",
        Kind::Skip => b"SKIP",
        Kind::NoWord => b"NOWORD",
        Kind::InErasable => b"ERASABLE",
        Kind::NoHandler => b"NOHANDLER",
        Kind::OtherBank => b"OTHERBANK",
        Kind::NotKept => b"NOTKEPT",
        Kind::MinusZero => b"MINUSZERO",
        Kind::Overwritten => b"OVERWRITTEN",
        Kind::Shared => b"SHARED",
        Kind::FixedBank => b"FIXEDBANK",
    }
}
