//! The kinds of notes, as `run --notes` names them.

ghost use Rattle.std.specs.Prelude.{◌≡◌, ◌≤◌, ◌+◌, ◌^◌, IfSome};
ghost use Rattle.std.specs.List.{list_any};
ghost use Rattle.std.specs.Option.{option_map};
ghost use Rattle.agc_text.specs.Fields.{runs, texts};
ghost use Rattle.agc_text.specs.Lines.{lines};
ghost use Rattle.expect.specs.Kinds.{and_kind, and_spot, first_other, has_kind, is_listed_at, is_other, is_spot};
ghost use Rattle.expect.specs.Kinds.{kind_in, kind_named, later_kind_in, nothing_allowed, place_noted, with_kind};

use crate::claim::{Allowed, MOST_SPOTS, Spot};
use crate::fields::is_word;
use agc_text::{next_line, split_field};
use commands::unnamed_place;
use space::Linear;

/// The number of a kind, a power of two.
pub(crate) fn kind_in(field: &[u8]) -> Option<u64>
    ensures number { result ≡ kind_in field.now }
    ensures few { IfSome result (λ kind. (1 ≤ kind) × (kind ≤ 8192)) }
{
    if is_word(field, "QUOTIENT") {
        Some(1)
    } else if is_word(field, "SKIP") {
        Some(2)
    } else if is_word(field, "NOWORD") {
        Some(4)
    } else if is_word(field, "ERASABLE") {
        Some(8)
    } else if is_word(field, "NOHANDLER") {
        Some(16)
    } else if is_word(field, "OTHERBANK") {
        Some(32)
    } else if is_word(field, "FIXEDBANK") {
        Some(64)
    } else if is_word(field, "NOTKEPT") {
        Some(128)
    } else if is_word(field, "MINUSZERO") {
        Some(256)
    } else if is_word(field, "OVERWRITTEN") {
        Some(512)
    } else {
        later_kind_in(field)
    }
}

/// The same of the last ones.
fn later_kind_in(field: &[u8]) -> Option<u64>
    ensures number { result ≡ later_kind_in field.now }
    ensures few { IfSome result (λ kind. (1 ≤ kind) × (kind ≤ 8192)) }
{
    if is_word(field, "SHARED") {
        Some(1024)
    } else if is_word(field, "INSIDE") {
        Some(2048)
    } else if is_word(field, "WAITING") {
        Some(4096)
    } else if is_word(field, "UNREAD") {
        Some(8192)
    } else {
        None
    }
}

/// No notes.
pub(crate) fn nothing_allowed() -> Allowed
    ensures { result ≡ nothing_allowed }
{
    Allowed {
        kinds: 0,
        count: 0,
        spots: [None; MOST_SPOTS],
    }
}

/// Some notes, and those of one kind more, anywhere.
pub(crate) fn and_kind(allowed: Allowed, kind: u64) -> Allowed
    requires first { 1 ≤ kind }
    requires last { kind ≤ 8192 }
    requires few { allowed.kinds ≤ 2 ^ 32 }
    ensures value { result ≡ and_kind allowed kind }
    ensures few { result.kinds ≤ allowed.kinds + 8192 }
{
    let mut more = allowed;
    more.kinds = with_kind(more.kinds, kind);
    more
}

/// Some notes, and one of a kind at a place more, where there is room.
pub(crate) fn and_spot(allowed: Allowed, spot: Spot) -> Option<Allowed>
    ensures value { result ≡ and_spot allowed spot }
    ensures same { IfSome result (λ more. more.kinds ≡ allowed.kinds) }
{
    let count = allowed.count;
    if count >= MOST_SPOTS {
        return None;
    }
    let mut more = allowed;
    more.spots[count] = Some(spot);
    more.count = count + 1;
    Some(more)
}

/// The first line of some that is not a note that a run may have.
pub(crate) fn first_other<'a>(allowed: &Allowed, notes: &'a [u8]) -> Option<&'a [u8]>
    ensures { option_map (λ line. line.now) result ≡ first_other allowed.now (lines notes.now) }
{
    let mut rest = notes;
    while let Some((line, following)) = next_line(rest) {
        if is_other(allowed, line) {
            return Some(line);
        }
        rest = following;
    }
    None
}

/// Whether a line is not a note that a run may have.
fn is_other(allowed: &Allowed, line: &[u8]) -> bool
    ensures { result ≡ is_other allowed.now line.now }
{
    match kind_named(line) {
        Some(kind) => {
            !(has_kind(allowed.kinds, kind) || is_listed_at(allowed, kind, place_noted(line)))
        }
        None => true,
    }
}

/// Whether a note of a kind is listed at a place.
fn is_listed_at(allowed: &Allowed, kind: u64, place: Option<Linear>) -> bool
    ensures { result ≡ is_listed_at allowed.now kind place }
{
    match place {
        Some(place) => has_spot(&allowed.spots, &Spot { kind, place }),
        None => false,
    }
}

/// Whether a note at a place is among some.
fn has_spot(spots: &[Option<Spot>], note: &Spot) -> bool
    ensures { result ≡ list_any (is_spot note.now.kind note.now.place) spots.now }
{
    spots.iter().any(|spot| is_spot(note, spot))
}

/// Whether a note at a place is the one that is listed.
fn is_spot(note: &Spot, spot: &Option<Spot>) -> bool
    ensures { result ≡ is_spot note.now.kind note.now.place spot.now }
{
    match spot {
        Some(spot) => spot.kind == note.kind && spot.place == note.place,
        None => false,
    }
}

/// Whether a kind is one of some, which have the sum of their numbers.
fn has_kind(kinds: u64, kind: u64) -> bool
    requires { 1 ≤ kind }
    ensures { result ≡ has_kind kinds kind }
{
    kinds / kind % 2 == 1
}

/// Some kinds, and one more.
fn with_kind(kinds: u64, kind: u64) -> u64
    requires first { 1 ≤ kind }
    requires last { kind ≤ 8192 }
    requires few { kinds ≤ 2 ^ 32 }
    ensures value { result ≡ with_kind kinds kind }
    ensures few { result ≤ kinds + 8192 }
{
    if has_kind(kinds, kind) {
        kinds
    } else {
        kinds + kind
    }
}

/// The kind that the line of a note names.
fn kind_named(line: &[u8]) -> Option<u64>
    ensures number { result ≡ kind_named (texts (runs line.now)) }
    ensures few { IfSome result (λ kind. (1 ≤ kind) × (kind ≤ 8192)) }
{
    let (_, rest) = split_field(line)?;
    let (kind, _) = split_field(rest)?;
    kind_in(kind)
}

/// The place that the line of a note names behind its kind, where one stands there.
fn place_noted(line: &[u8]) -> Option<Linear>
    ensures { result ≡ place_noted (texts (runs line.now)) }
{
    let (_, rest) = split_field(line)?;
    let (_, rest) = split_field(rest)?;
    let (place, _) = split_field(rest)?;
    unnamed_place(place)
}
