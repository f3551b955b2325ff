//! Places without a name, by the symbols before them.

ghost use Rattle.std.specs.Prelude.{◌≡◌, ◌+◌, ◌-◌, ◌<◌, ◌≤◌, IfSome, length};
ghost use Rattle.std.specs.Option.{option_map};
ghost use Rattle.arrayvec.specs.ArrayVec.{array_vec_len};
ghost use Rattle.space.specs.declared.place.Linear.TheVariants.{Erasable};
ghost use Rattle.trace.specs.TraceLines.{behind_text, full_name, near_count, near_name};

use crate::fields::Text;
use crate::names::{Names, place_name};
use crate::steps::push_short_octal;
use arrayvec::ArrayVec;
use space::{Eras, Linear};
use words::push_all;

/// How many words behind a symbol are called by it.
const NEAR_WORDS: u16 = 0o77;

/// One past the last register and counter.
const FIRST_PLAIN: u16 = 0o61;

/// What stands in an operand between a symbol and how many words behind it.
pub const OPERAND_GAP: &[u8] = b" ";

/// What stands there in a cell, which blanks part from the next: nothing.
pub(crate) const CELL_GAP: &[u8] = b"";

/// The name of a place, or of an erasable one the symbol before it, and how many words behind it: `BUFFER +1`.
pub fn full_name<N: Names>(gap: &[u8], names: &N, place: &Linear) -> Option<Text>
    requires { length gap.now ≤ 1 }
    ensures name { option_map (λ text. text.items) result ≡ full_name gap.now (N.table names.now) place.now }
    ensures short { IfSome result (λ text. array_vec_len text ≤ 12) }
{
    match place_name(names, *place) {
        Some(name) => {
            let mut text = ArrayVec::new();
            push_all(&mut text, name);
            Some(text)
        }
        None => near_name(gap, names, place),
    }
}

/// An erasable place by the symbol before it.
pub fn near_name<N: Names>(gap: &[u8], names: &N, place: &Linear) -> Option<Text>
    requires { length gap.now ≤ 1 }
    ensures name { option_map (λ text. text.items) result ≡ near_name gap.now (N.table names.now) place.now }
    ensures short { IfSome result (λ text. array_vec_len text ≤ 12) }
{
    match place {
        Linear::Erasable(place) => near_erasable(gap, names, *place),
        Linear::Fixed(_, _) => None,
    }
}

/// An erasable place by the nearest symbol before it.
fn near_erasable<N: Names>(gap: &[u8], names: &N, place: Eras) -> Option<Text>
    requires { length gap.now ≤ 1 }
    ensures name { option_map (λ text. text.items) result ≡ near_name gap.now (N.table names.now) (Erasable place) }
    ensures short { IfSome result (λ text. array_vec_len text ≤ 12) }
{
    for passed in 0..near_count(place) {
        let distance = passed + 1;
        if let Some(name) = names.symbol_at(&place_before(place, distance)) {
            return Some(behind(gap, name, distance));
        }
    }
    None
}

/// How many places before an erasable one a symbol is sought.
fn near_count(place: Eras) -> u16
    ensures value { result ≡ near_count place }
    ensures few { result ≤ 63 }
    ensures within { result ≤ place }
{
    place.number().saturating_sub(FIRST_PLAIN).min(NEAR_WORDS)
}

/// The place so many before an erasable place.
fn place_before(place: Eras, distance: u16) -> Linear
    requires { distance ≤ place }
    ensures { result ≡ Erasable (place - distance) }
{
    Linear::Erasable(Eras::of_low_bits(place.number() - distance))
}

/// A symbol, and how many words behind it.
fn behind(gap: &[u8], name: &[u8], distance: u16) -> Text
    requires gap { length gap.now ≤ 1 }
    requires short { length name.now ≤ 8 }
    requires few { distance < 0o100 }
    ensures items { result.items ≡ behind_text gap.now (name.now, distance) }
    ensures len { array_vec_len result ≤ 12 }
{
    let mut text = ArrayVec::new();
    push_all(&mut text, name);
    push_all(&mut text, gap);
    push_all(&mut text, b"+");
    push_short_octal(&mut text, distance);
    text
}
