//! Likely mistakes in where a program goes on: to a constant, or from a vector into the next.

ghost use Rattle.std.specs.Prelude.{◌≡◌, ◌≤◌, map, false};
ghost use Rattle.yayul.specs.ReadLines.{parts_on};
ghost use Rattle.yayul.specs.Readings.{parts_in};
ghost use Rattle.warnings.specs.Warnings.{gives_word, is_instruction, is_jump_register, is_jump_place, leaves};
ghost use Rattle.warnings.specs.Warnings.{goes_on_to_instruction, runs_out, is_vector, sets_vector, word_count};
ghost use Rattle.warnings.specs.Warnings.{is_overrun, overruns, filled_after, before_next, at_start};
ghost use Rattle.warnings.specs.Warnings.{starts_with_constant};
ghost use Rattle.agc_text.specs.Digits.{digits_value};
ghost use Rattle.agc_text.specs.Tables.{value_in};
ghost use Rattle.symbols.specs.Registers.{registers};
ghost use Rattle.std.specs.Option.{option_map_or};

use crate::fields::text_of;
use crate::handlers::{Handlers, Unkept, has_label};
use crate::roles::Class;
use crate::standing::{bank_after, is_same_known, leads_on, place_after};
use crate::switched::{Target, common_after};
use crate::unreached::{behind_after, skips_after};
use crate::warning::{has_alone, indexed_after, is_register_number};
use agc_text::{Number, octal_value};
use near_names::NameSet;
use symbols::register_place;
use yayul::{ReadLine, Reading};

/// How many words a vector has.
const VECTOR_WORDS: u8 = 4;

/// What stands before a line.
#[derive(Clone, Copy, Drop)]
pub(crate) struct Before {
    /// Whether INDEX stands last.
    pub(crate) indexed: bool,
    /// How many words a vector has so far, where one is filled.
    pub(crate) filled: Option<u8>,
    /// Whether the last word is left for another place.
    pub(crate) left: bool,
    /// Whether words stand in bank 2 or 3.
    pub(crate) common: bool,
    /// The number of the place where the line stands, as SETLOC takes it, where the fields of the lines tell it.
    pub(crate) place: Option<u32>,
    /// The bank behind whose words it stands, likewise.
    pub(crate) bank: Option<u32>,
    /// What the routine of an interrupt has not kept.
    pub(crate) unkept: Unkept,
    /// Whether TCF, RETURN or RESUME stands last.
    pub(crate) behind: bool,
    /// How many words from here on may be led to by what skips.
    pub(crate) skips: u8,
}

impl Before {
    /// What stands before the first line.
    pub(crate) fn at_start() -> Before
        ensures { result ≡ at_start }
    {
        Before {
            indexed: false,
            filled: None,
            left: false,
            common: true,
            place: Some(0o4000),
            bank: Some(2),
            unkept: Unkept::none(),
            behind: false,
            skips: 0,
        }
    }

    /// What stands after a line whose operand has a target.
    pub(crate) fn next(self, handlers: &Handlers, target: Target, parts: &Reading<'_>) -> Before
        ensures { result ≡ before_next handlers.now self target (parts_in parts.now) }
    {
        Before {
            indexed: indexed_after(self.indexed, parts),
            filled: filled_after(self.filled, parts),
            left: if gives_word(parts) {
                leaves(parts)
            } else {
                self.left
            },
            common: common_after(self.common, target, parts),
            place: place_after(self.place, parts),
            bank: bank_after(self.bank, parts),
            unkept: handlers.unkept_at(self.unkept, parts).after(parts),
            behind: behind_after(self.behind, parts),
            skips: skips_after(self.skips, parts),
        }
    }
}

// How many words a vector has after a line.
fn filled_after(filled: Option<u8>, parts: &Reading<'_>) -> Option<u8>
    ensures { result ≡ filled_after filled (parts_in parts.now) }
{
    if Class::MovesLocation.has(parts.role) {
        return if sets_vector(parts) { Some(0) } else { None };
    }
    match filled {
        Some(count) if count < VECTOR_WORDS => Some(count + word_count(parts)),
        Some(_) if gives_word(parts) => None,
        filled => filled,
    }
}

/// How many words a line gives.
pub(crate) fn word_count(parts: &Reading<'_>) -> u8
    ensures count { result ≡ word_count (parts_in parts.now) }
    ensures few { result ≤ 2 }
{
    if Class::GivesTwo.has(parts.role) {
        2
    } else if gives_word(parts) {
        1
    } else {
        0
    }
}

/// Whether a word stands behind the four of a vector, where these go on to it.
pub(crate) fn overruns(before: Before, parts: &Reading<'_>) -> bool
    ensures { result ≡ overruns before (parts_in parts.now) }
{
    is_overrun(before) && gives_word(parts)
}

fn is_overrun(before: Before) -> bool
    ensures { result ≡ is_overrun before.filled before.left }
{
    matches!(before.filled, Some(count) if count >= VECTOR_WORDS) && !before.left
}

/// SETLOC and the place of a vector.
pub(crate) fn sets_vector(parts: &Reading<'_>) -> bool
    ensures { result ≡ sets_vector (parts_in parts.now) }
{
    has_alone(Class::Setloc.has(parts.role), parts) && is_vector(text_of(parts.operand))
}

// The place of a vector where an interrupt enters.
fn is_vector(text: &[u8]) -> bool
    ensures { result ≡ option_map_or is_vector (digits_value 8 text.now) false }
{
    matches!(octal_value(text), Some(Number::Small(place)) if is_vector_place(place))
}

/// Whether an interrupt enters at a place.
pub(crate) fn is_vector_place(place: u32) -> bool
    ensures { result ≡ is_vector place }
{
    place % 4 == 0 && (0o4004..=0o4050).contains(&place)
}

/// Whether an instruction goes on to a constant, or where no word stands.
pub(crate) fn runs_out(
    read: &NameSet,
    before: Before,
    after: &[ReadLine<'_>],
    parts: &Reading<'_>,
) -> bool
    ensures { result ≡ runs_out read.now before (map parts_on after.now) (parts_in parts.now) }
{
    parts.role.is_some()
        && is_instruction(parts)
        && !leaves(parts)
        && !has_label(read, parts)
        && !goes_on_to_instruction(
            place_after(before.place, parts),
            bank_after(before.bank, parts),
            after,
        )
}

/// Whether a constant or an address stands where a run starts, while an instruction stands in the source.
pub(crate) fn starts_with_constant(instructs: bool, place: Option<u32>, parts: &Reading<'_>) -> bool
    ensures { result ≡ starts_with_constant instructs place (parts_in parts.now) }
{
    instructs
        && is_same_known(place, Some(0o4000))
        && gives_word(parts)
        && Class::Constant.has(parts.role)
}

// Whether of some lines the first that gives words or moves the location to another place gives an instruction.
fn goes_on_to_instruction(place: Option<u32>, bank: Option<u32>, lines: &[ReadLine<'_>]) -> bool
    ensures { result ≡ goes_on_to_instruction place bank (map parts_on lines.now) }
{
    for line in lines {
        let parts = line.reading();
        if leads_on(place, bank, &parts) {
            continue;
        }
        if gives_word(&parts) || Class::MovesLocation.has(parts.role) {
            return is_instruction(&parts);
        }
    }
    false
}

/// Operators that give words.
pub(crate) fn gives_word(parts: &Reading<'_>) -> bool
    ensures { result ≡ gives_word (parts_in parts.now) }
{
    parts.operator.is_some()
        && !(Class::MovesLocation.has(parts.role) || Class::KeepsLocation.has(parts.role))
}

/// Instructions.
pub fn is_instruction(parts: &Reading<'_>) -> bool
    ensures { result ≡ is_instruction (parts_in parts.now) }
{
    gives_word(parts) && !Class::Constant.has(parts.role)
}

// Whether the next word is not reached from this one.
fn leaves(parts: &Reading<'_>) -> bool
    ensures { result ≡ leaves (parts_in parts.now) }
{
    Class::Leaving.has(parts.role)
        || (Class::Stores.has(parts.role) && is_jump_place(text_of(parts.operand)))
}

// Whether a text is a place whose change may lead elsewhere.
fn is_jump_place(text: &[u8]) -> bool
    ensures { result ≡ is_jump_place text.now }
{
    is_jump_name(text) || is_register_number(text)
}

/// Whether a text is the name of a register whose change may lead elsewhere.
pub(crate) fn is_jump_name(text: &[u8]) -> bool
    ensures { result ≡ option_map_or is_jump_register (value_in registers text.now) false }
{
    match register_place(text) {
        Some(place) => is_jump_register(place),
        None => false,
    }
}

fn is_jump_register(place: &[u8]) -> bool
    ensures { result ≡ is_jump_register place.now }
{
    place == b"4".as_slice() || place == b"5".as_slice() || place == b"6".as_slice()
}
