//! The rows of a profile as JSON. No memory is taken.

ghost use Rattle.std.specs.Prelude.{◌≡◌, ◌+◌, ◌≤◌, ◌++◌, IfSome, length};
ghost use Rattle.std.specs.Option.{option_map};
ghost use Rattle.arrayvec.specs.ArrayVec.{array_vec_len};
ghost use Rattle.audit.specs.WordLines.{extracode_at};
ghost use Rattle.cover.specs.CoverObjects.{account_members, figure_members, figure_object, image_object};
ghost use Rattle.cover.specs.CoverObjects.{instruction_in, place_object, symbol_in};
ghost use Rattle.space.specs.declared.place.Linear.TheVariants.{Fixed};

use crate::tally::Figures;
use arrayvec::ArrayVec;
use cpu::disassemble;
use json_text::{push_json_string, push_string_or_null};
use names::named_instruction;
use rope::Rope;
use space::{Bank, Linear, Offset};
use trace::{Names, PlaceNames, place_text};
use words::{push_all, push_decimal};
use yayul::word_members;

/// The most bytes of the members of a place: 10 and a symbol, 9 and 20 digits, 10 and 20 digits.
const MEMBERS: usize = 128;

/// Members of an object.
type Members = ArrayVec<u8, MEMBERS>;

/// The most bytes of an object: 14, 33 of a place and a word, members, and 10 with an instruction of 25 bytes.
const OBJECT: usize = 384;

/// An object and a newline.
type Object = ArrayVec<u8, OBJECT>;

/// The most bytes of an instruction.
const INSTRUCTION: usize = 32;

/// The object of a place that no other row shows.
#[tactic(auto, unfolding(crate::specs::CoverObjects::place_object))]
pub(crate) fn place_object(names: &Option<PlaceNames>, figures: Figures, place: &Linear) -> Object
    ensures { result.items ≡ place_object names.now figures place.now }
{
    let mut object = ArrayVec::new();
    push_all(&mut object, b"{\"kind\":\"place\",\"place\":\"");
    push_all(&mut object, place_text(*place).as_slice());
    push_all(&mut object, b"\"");
    push_all(
        &mut object,
        account_members(names, figures, place).as_slice(),
    );
    push_all(&mut object, b"}\n");
    object
}

/// The object of what is executed at no place, or of all steps, by its name.
#[tactic(auto, unfolding(crate::specs::CoverObjects::figure_object))]
pub(crate) fn figure_object(figures: Figures, name: &[u8]) -> Object
    requires { length name.now ≤ 8 }
    ensures { result.items ≡ figure_object figures name.now }
{
    let mut object = ArrayVec::new();
    push_all(&mut object, b"{\"kind\":\"");
    push_all(&mut object, name);
    push_all(&mut object, b"\"");
    push_figures(&mut object, figures);
    push_all(&mut object, b"}\n");
    object
}

/// The object of a word of an image.
#[tactic(auto, unfolding(crate::specs::CoverObjects::image_object))]
pub(crate) fn image_object(
    names: &Option<PlaceNames>,
    figures: Figures,
    rope: &Rope,
    bank: Bank,
    offset: Offset,
    extra: bool,
) -> Object
    requires { extra ≡ extracode_at rope.now bank offset }
    ensures { result.items ≡ image_object names.now figures rope.now bank offset }
{
    let place = &Linear::Fixed(bank, offset);
    let mut object = ArrayVec::new();
    push_all(&mut object, b"{\"kind\":\"word\"");
    push_all(&mut object, word_members(rope, bank, offset).as_slice());
    push_all(
        &mut object,
        account_members(names, figures, place).as_slice(),
    );
    push_all(&mut object, b",\"text\":");
    let instruction = instruction_in(names, rope, bank, offset, extra);
    push_json_string(&mut object, instruction.as_slice());
    push_all(&mut object, b"}\n");
    object
}

/// The instruction that a word of an image is, with names or without.
#[tactic(auto, unfolding(audit::specs::WordLines::instruction_at))]
fn instruction_in(
    names: &Option<PlaceNames>,
    rope: &Rope,
    bank: Bank,
    offset: Offset,
    extra: bool,
) -> ArrayVec<u8, INSTRUCTION>
    requires { extra ≡ extracode_at rope.now bank offset }
    ensures items { result.items ≡ instruction_in names.now rope.now bank offset }
    ensures short { array_vec_len result ≤ 25 }
{
    let mut text = ArrayVec::new();
    match names {
        Some(names) => push_all(
            &mut text,
            named_instruction(rope, names, bank, offset, extra).as_slice(),
        ),
        None => push_all(
            &mut text,
            disassemble(rope.word(bank, offset), extra).as_slice(),
        ),
    }
    text
}

/// The members of a place: its symbol, where names are known, and its figures.
#[tactic(auto, unfolding(crate::specs::CoverObjects::account_members))]
pub(crate) fn account_members(
    names: &Option<PlaceNames>,
    figures: Figures,
    place: &Linear,
) -> Members
    ensures items { result.items ≡ account_members names.now figures place.now }
    ensures short { array_vec_len result ≤ 124 }
{
    let mut members = ArrayVec::new();
    push_all(&mut members, b",\"symbol\":");
    push_string_or_null(&mut members, symbol_in(names, place));
    push_figures(&mut members, figures);
    members
}

/// The symbol of a place, where names are known.
fn symbol_in<'a>(names: &'a Option<PlaceNames>, place: &Linear) -> Option<&'a [u8]>
    ensures name { option_map (λ name. name.now) result ≡ symbol_in names.now place.now }
    ensures short { IfSome result (λ name. length name.now ≤ 8) }
{
    match names {
        Some(names) => names.symbol_at(place),
        None => None,
    }
}

/// Appends the members of figures.
#[tactic(auto, using(words::proofs::Digits::short_decimal), unfolding(crate::specs::CoverObjects::figure_members))]
fn push_figures<const N: usize>(line: &mut ArrayVec<u8, N>, figures: Figures)
    requires { array_vec_len line.old + 60 ≤ N }
    ensures items { line.new.items ≡ line.old.items ++ figure_members figures }
    ensures short { array_vec_len line.new ≤ array_vec_len line.old + 60 }
{
    push_all(line, b",\"count\":");
    push_decimal(line, figures.count);
    push_all(line, b",\"cycles\":");
    push_decimal(line, figures.cycles);
}
