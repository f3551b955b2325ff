//! The row of a place: the first line of a source that shows it, as the listing has that. No memory is taken.

ghost use Rattle.std.specs.Prelude.{◌≡◌, ◌+◌, ◌<◌, ◌≤◌, ◌++◌, [], true, false, codes, get_or, length, slice_get};
ghost use Rattle.std.specs.List.{position_or_len};
ghost use Rattle.std.specs.Option.{option_map_or};
ghost use Rattle.agc_text.specs.Lines.{lines};
ghost use Rattle.space.specs.declared.place.Linear.TheVariants as linear;
ghost use Rattle.words.specs.Devices.{Writes, failures_after};
ghost use Rattle.words.specs.Numerals.{octal_text};
ghost use Rattle.yayul.specs.Listing.{front_with, place_text};
ghost use Rattle.yayul.specs.PlaceRows.{place_row, shows, stands_at};
ghost use Rattle.yayul.specs.Inside.Representation.{shown_by_mark};

use crate::listing::{
    FRONT, first_word, further_row, number_column, push_gap, push_place, row_front, write_row,
};
use crate::mark::Mark;
use agc_text::next_line;
use arrayvec::ArrayVec;
use rope::Rope;
use space::{Eras, Linear};
use words::{Word, Write, WriteFailed, push_all, push_octal, write_all};

/// The first of some lines that shows a place, or how many lines there are.
pub(crate) fn first_to_show(marks: &[Mark], place: &Linear) -> usize
    ensures within { result ≤ length marks.now }
    ensures first { result ≡ position_or_len (λ mark. shows place.now (shown_by_mark mark)) marks.now }
{
    for index in 0..marks.len() {
        if marks[index].shows(place) {
            return index;
        }
    }
    marks.len()
}

/// The line after so many.
pub(crate) fn line_after(source: &[u8], count: usize) -> &[u8]
    ensures { result.now ≡ get_or (lines source.now) count [] }
{
    let mut rest = source;
    for passed in 0..count {
        let Some((_, after)) = next_line(rest) else {
            return &[];
        };
        rest = after;
    }
    match next_line(rest) {
        Some((text, _)) => text,
        None => &[],
    }
}

/// Writes the row of a place on a line that shows it.
pub(crate) fn write_place_row<W: Write>(
    rope: &Rope,
    place: Linear,
    word: Word,
    number: u64,
    text: &[u8],
    mark: &Mark,
    writer: &mut W,
) -> Result<(), WriteFailed>
    ensures written { W.told ≡ true → Writes (W.written writer.old) (W.written writer.new)
        (place_row rope.now word place (record { number = number; text = text.now; shown = shown_by_mark mark.now }))
        result }
    ensures failures { W.failures writer.new ≡ failures_after (W.failures writer.old) result }
{
    match place {
        Linear::Erasable(erasable) => {
            let front = erasable_front(number, erasable, word, text);
            write_row(front.as_slice(), text, writer)
        }
        Linear::Fixed(bank, offset) => {
            if begins_at(mark, place) {
                let front = row_front(number, rope, mark, text);
                write_row(front.as_slice(), text, writer)
            } else {
                write_all(writer, further_row(number, rope, bank, offset).as_slice())
            }
        }
    }
}

/// Whether the first word of a line stands at a place.
fn begins_at(mark: &Mark, place: Linear) -> bool
    ensures { result ≡ option_map_or (stands_at place) (slice_get (shown_by_mark mark.now).words 0) false }
{
    match first_word(mark) {
        Some((bank, offset)) => place == Linear::Fixed(bank, offset),
        None => false,
    }
}

/// What stands on the row of an erasable place before the text of its line.
fn erasable_front(number: u64, place: Eras, word: Word, text: &[u8]) -> ArrayVec<u8, FRONT>
    ensures { result.items ≡ front_with number (place_text (linear.Erasable place) ++ codes " " ++ octal_text 5 word)
        text.now }
{
    let mut line = number_column(number);
    push_place(&mut line, Linear::Erasable(place));
    push_all(&mut line, b" ");
    push_octal(&mut line, 5, word.to_u16());
    push_gap(&mut line, text);
    line
}
