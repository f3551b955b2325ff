//! The rows of a listing as JSON. No memory is taken.

ghost use Rattle.std.specs.Prelude.{◌≡◌, ◌+◌, ◌≤◌, ◌++◌, None, Some, decimal, drop, flat_map, length, slice_get, true};
ghost use Rattle.std.specs.Option.{option_map};
ghost use Rattle.arrayvec.specs.ArrayVec.{array_vec_len};
ghost use Rattle.words.specs.Devices.{Writes, failures_after};
ghost use Rattle.yayul.specs.ListingObjects.{line_objects, place_members, place_or_null, row_end, row_front};
ghost use Rattle.yayul.specs.ListingObjects.{row_object, shown_members, word_members};
ghost use Rattle.yayul.specs.Inside.Representation.{shown_by_mark};

use crate::listing::{first_word, push_place};
use crate::margin::Margin;
use crate::mark::Mark;
use arrayvec::ArrayVec;
use json_text::write_string_or_null;
use rope::Rope;
use space::place::Linear;
use space::{Bank, Offset};
use words::{Write, WriteFailed, push_all, push_decimal, push_octal, write_all};

/// The most bytes of the members of a place and of its word.
const MEMBERS: usize = 48;

/// The most bytes of an object before what its margin gives: 22, 20 digits, and members.
const FRONT: usize = 96;

/// Members of an object.
pub type Members = ArrayVec<u8, MEMBERS>;

/// Writes the objects of a line's rows.
pub(crate) fn write_line_objects<M: Margin, W: Write>(
    number: u64,
    rope: &Rope,
    text: &[u8],
    mark: &Mark,
    margin: &M,
    writer: &mut W,
) -> Result<(), WriteFailed>
    ensures written { W.told ≡ true → Writes (W.written writer.old) (W.written writer.new)
        (line_objects (M.text margin.now) number rope.now text.now (shown_by_mark mark.now)) result }
    ensures failures { W.failures writer.new ≡ failures_after (W.failures writer.old) result }
{
    let members = shown_members(rope, mark);
    write_object(
        number,
        &members,
        first_word(mark),
        Some(text),
        margin,
        writer,
    )?;
    write_further_objects(number, rope, mark, margin, writer)
}

/// Writes the object of a second word, where there is one.
fn write_further_objects<M: Margin, W: Write>(
    number: u64,
    rope: &Rope,
    mark: &Mark,
    margin: &M,
    writer: &mut W,
) -> Result<(), WriteFailed>
    ensures written { W.told ≡ true → Writes (W.written writer.old) (W.written writer.new)
        (flat_map (λ p. row_object number (word_members rope.now p.0 p.1) (M.text margin.now (Some p)) None)
        (drop 1 (shown_by_mark mark.now).words)) result }
    ensures failures { W.failures writer.new ≡ failures_after (W.failures writer.old) result }
{
    match mark {
        Mark::Words(bank, _, second) => {
            let members = word_members(rope, *bank, *second);
            write_object(
                number,
                &members,
                Some((*bank, *second)),
                None,
                margin,
                writer,
            )
        }
        Mark::Nothing | Mark::Erasable(_) | Mark::Fixed(..) | Mark::Word(..) => Ok(()),
    }
}

/// Writes the object of a row.
fn write_object<M: Margin, W: Write>(
    number: u64,
    members: &Members,
    word: Option<(Bank, Offset)>,
    text: Option<&[u8]>,
    margin: &M,
    writer: &mut W,
) -> Result<(), WriteFailed>
    ensures written { W.told ≡ true → Writes (W.written writer.old) (W.written writer.new)
        (row_object number members.now.items (M.text margin.now word) (option_map (λ text. text.now) text.entry))
        result }
    ensures failures { W.failures writer.new ≡ failures_after (W.failures writer.old) result }
{
    write_all(writer, row_front(number, members).as_slice())?;
    margin.write(word, writer)?;
    write_row_end(text, writer)
}

/// Writes the end of an object: the text of its line, or that it has none.
#[tactic(auto, unfolding(crate::specs::ListingObjects::row_end))]
fn write_row_end<W: Write>(text: Option<&[u8]>, writer: &mut W) -> Result<(), WriteFailed>
    ensures written { W.told ≡ true → Writes (W.written writer.old) (W.written writer.new)
        (row_end (option_map (λ text. text.now) text.entry)) result }
    ensures failures { W.failures writer.new ≡ failures_after (W.failures writer.old) result }
{
    write_all(writer, b",\"text\":")?;
    write_string_or_null(text, writer)?;
    write_all(writer, b"}\n")
}

/// The beginning of an object.
#[tactic(auto, using(words::proofs::Digits::short_decimal), unfolding(crate::specs::ListingObjects::row_front))]
fn row_front(number: u64, members: &Members) -> ArrayVec<u8, FRONT>
    ensures { result.items ≡ row_front number members.now.items }
{
    let mut front = ArrayVec::new();
    push_all(&mut front, b"{\"kind\":\"line\",\"line\":");
    push_decimal(&mut front, number);
    push_all(&mut front, members.as_slice());
    front
}

/// The members of what a line shows.
fn shown_members(rope: &Rope, mark: &Mark) -> Members
    ensures { result.items ≡ shown_members rope.now (shown_by_mark mark.now) }
{
    match mark {
        Mark::Nothing => place_members(None),
        Mark::Erasable(place) => place_members(Some(Linear::Erasable(*place))),
        Mark::Fixed(bank, offset) => place_members(Some(Linear::Fixed(*bank, *offset))),
        Mark::Word(bank, offset) | Mark::Words(bank, offset, _) => {
            word_members(rope, *bank, *offset)
        }
    }
}

/// The members of a place without a word.
#[tactic(auto, unfolding(crate::specs::ListingObjects::place_members))]
fn place_members(place: Option<Linear>) -> Members
    ensures { result.items ≡ place_members place }
{
    let mut members = ArrayVec::new();
    push_all(&mut members, b",\"place\":");
    push_place_or_null(&mut members, place);
    push_all(&mut members, b",\"word\":null");
    members
}

/// Appends a place, or that there is none.
fn push_place_or_null(members: &mut Members, place: Option<Linear>)
    requires { array_vec_len members.old ≤ 9 }
    ensures items { members.new.items ≡ members.old.items ++ place_or_null place }
    ensures short { array_vec_len members.new ≤ array_vec_len members.old + 9 }
{
    match place {
        None => push_all(members, b"null"),
        Some(place) => {
            push_all(members, b"\"");
            push_place(members, place);
            push_all(members, b"\"");
        }
    }
}

/// The members of a place of fixed memory and of the word that stands there, as `,"place":"02,4104","word":"54100"`.
#[tactic(auto, unfolding(crate::specs::ListingObjects::word_members))]
pub fn word_members(rope: &Rope, bank: Bank, offset: Offset) -> Members
    ensures items { result.items ≡ word_members rope.now bank offset }
    ensures len { array_vec_len result ≡ 33 }
{
    let mut members = ArrayVec::new();
    push_all(&mut members, b",\"place\":\"");
    push_place(&mut members, Linear::Fixed(bank, offset));
    push_all(&mut members, b"\",\"word\":\"");
    push_octal(&mut members, 5, rope.word(bank, offset).to_u16());
    push_all(&mut members, b"\"");
    members
}
