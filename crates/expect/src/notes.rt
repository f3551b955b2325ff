//! What a line claims of the notes of a run, and of how many instructions it executes.

ghost use Rattle.std.specs.Prelude.{◌≡◌, ◌≤◌, ◌*◌, ◌+◌, IfOk};
ghost use Rattle.agc_text.specs.Fields.{runs, texts};
ghost use Rattle.expect.specs.Kinds.{kind_in};
ghost use Rattle.expect.specs.Lines.{covered_at, kinds_at, listed_all, listed_next, moved, notes_at, opened};
ghost use Rattle.expect.specs.Lines.{opened_after, pending_kind, placed, so_far, with_room};

use crate::calls::ended;
use crate::claim::{Allowed, Claim, Spot};
use crate::condition::wrong;
use crate::fields::{begins_with_plus, count_in, is_word, moved_in};
use crate::kinds::{and_kind, and_spot, kind_in, nothing_allowed};
use crate::refusal::{Asked, Wrong};
use agc_text::split_field;
use commands::named_place;
use space::Linear;
use symbols::Symbols;

/// The last field of a line that lists notes.
const LAST_KIND: u64 = 60;

/// What is read of a line that lists notes, and not listed yet.
#[derive(Clone, Copy, Drop)]
pub(crate) enum Pending {
    /// Nothing.
    Nothing,
    /// A kind, which may be anywhere where AT does not follow.
    Kind(u64),
    /// A kind and AT, for which a place is asked.
    Place(u64),
    /// A kind at a place, which may be moved on.
    At(Spot),
}

/// What is read of a line that lists notes.
#[derive(Clone, Copy, Drop)]
pub(crate) struct Listing {
    /// The notes that there may be.
    pub(crate) allowed: Allowed,
    /// What is read behind them, and not listed yet.
    pub(crate) pending: Pending,
}

/// What a line claims of notes: NONE, or those that there may be, of a kind each, anywhere or AT a place. The first has
/// a number among the fields.
pub(crate) fn notes_at(symbols: &Symbols, at: u64, fields: &[u8]) -> Result<Claim, Wrong>
    requires { at ≤ 1 }
    ensures { result ≡ notes_at symbols.now at (texts (runs fields.now)) }
{
    let Some((field, rest)) = split_field(fields) else {
        return Err(wrong(at, Asked::Notes));
    };
    if is_word(field, "NONE") {
        ended(at + 1, Claim::Notes(nothing_allowed()), rest)
    } else {
        kinds_at(
            symbols,
            at,
            so_far(nothing_allowed(), Pending::Nothing),
            fields,
        )
    }
}

/// What is read of a line.
fn so_far(allowed: Allowed, pending: Pending) -> Listing
    ensures { result ≡ so_far allowed pending }
{
    Listing { allowed, pending }
}

/// What is listed, and what some fields list.
fn kinds_at(symbols: &Symbols, at: u64, listed: Listing, fields: &[u8]) -> Result<Claim, Wrong>
    requires last { at ≤ 61 }
    requires few { listed.allowed.kinds ≤ 8192 * at }
    requires some { 1 ≤ pending_kind listed.pending }
    requires known { pending_kind listed.pending ≤ 8192 }
    ensures { result ≡ kinds_at symbols.now at listed (texts (runs fields.now)) }
{
    let Some((field, rest)) = split_field(fields) else {
        return match listed_all(at, &listed) {
            Ok(allowed) => Ok(Claim::Notes(allowed)),
            Err(wrong) => Err(wrong),
        };
    };
    if at > LAST_KIND {
        return Err(wrong(at, Asked::End));
    }
    match listed_next(symbols, at, &listed, field) {
        Ok(next) => kinds_at(symbols, at + 1, next, rest),
        Err(wrong) => Err(wrong),
    }
}

/// What is listed at the end of a line.
fn listed_all(at: u64, listed: &Listing) -> Result<Allowed, Wrong>
    requires last { at ≤ 61 }
    requires few { listed.now.allowed.kinds ≤ 8192 * at }
    requires some { 1 ≤ pending_kind listed.now.pending }
    requires known { pending_kind listed.now.pending ≤ 8192 }
    ensures { result ≡ listed_all at listed.now.allowed listed.now.pending }
{
    match listed.pending {
        Pending::Nothing => Ok(listed.allowed),
        Pending::Kind(kind) => Ok(and_kind(listed.allowed, kind)),
        Pending::Place(_) => Err(wrong(at, Asked::Routine)),
        Pending::At(spot) => with_room(at, and_spot(listed.allowed, spot)),
    }
}

/// What is read with a field more.
fn listed_next(symbols: &Symbols, at: u64, listed: &Listing, field: &[u8]) -> Result<Listing, Wrong>
    requires last { at ≤ 61 }
    requires few { listed.now.allowed.kinds ≤ 8192 * at }
    requires some { 1 ≤ pending_kind listed.now.pending }
    requires known { pending_kind listed.now.pending ≤ 8192 }
    ensures next { result ≡ listed_next symbols.now at listed.now.allowed listed.now.pending field.now }
    ensures few { IfOk result (λ next. next.allowed.kinds ≤ 8192 * (at + 1)) }
    ensures some { IfOk result (λ next. 1 ≤ pending_kind next.pending) }
    ensures known { IfOk result (λ next. pending_kind next.pending ≤ 8192) }
{
    match listed.pending {
        Pending::Nothing => opened(at, &listed.allowed, field),
        Pending::Kind(kind) => {
            if is_word(field, "AT") {
                Ok(so_far(listed.allowed, Pending::Place(kind)))
            } else {
                opened(at, &and_kind(listed.allowed, kind), field)
            }
        }
        Pending::Place(kind) => placed(at, &listed.allowed, kind, named_place(symbols, field)),
        Pending::At(spot) => {
            if begins_with_plus(field) {
                moved(at, &listed.allowed, spot.kind, moved_in(spot.place, field))
            } else {
                opened_after(at, with_room(at, and_spot(listed.allowed, spot)), field)
            }
        }
    }
}

/// A field names a kind.
fn opened(at: u64, allowed: &Allowed, field: &[u8]) -> Result<Listing, Wrong>
    ensures next { result ≡ opened at allowed.now (kind_in field.now) }
    ensures same { IfOk result (λ next. next.allowed ≡ allowed.now) }
    ensures some { IfOk result (λ next. 1 ≤ pending_kind next.pending) }
    ensures known { IfOk result (λ next. pending_kind next.pending ≤ 8192) }
{
    match kind_in(field) {
        Some(kind) => Ok(so_far(*allowed, Pending::Kind(kind))),
        None => Err(wrong(at, Asked::Kind)),
    }
}

/// A note at a place is listed where there is room.
fn with_room(at: u64, allowed: Option<Allowed>) -> Result<Allowed, Wrong>
    ensures { result ≡ with_room at allowed }
{
    match allowed {
        Some(allowed) => Ok(allowed),
        None => Err(wrong(at, Asked::FewerPlaces)),
    }
}

/// A field names a kind behind a note at a place.
fn opened_after(at: u64, allowed: Result<Allowed, Wrong>, field: &[u8]) -> Result<Listing, Wrong>
    requires few { IfOk allowed (λ a. a.kinds ≤ 8192 * at) }
    ensures next { result ≡ opened_after at allowed (kind_in field.now) }
    ensures few { IfOk result (λ next. next.allowed.kinds ≤ 8192 * at) }
    ensures some { IfOk result (λ next. 1 ≤ pending_kind next.pending) }
    ensures known { IfOk result (λ next. pending_kind next.pending ≤ 8192) }
{
    match allowed {
        Ok(allowed) => opened(at, &allowed, field),
        Err(wrong) => Err(wrong),
    }
}

/// The place of a kind.
fn placed(at: u64, allowed: &Allowed, kind: u64, place: Option<Linear>) -> Result<Listing, Wrong>
    requires some { 1 ≤ kind }
    requires known { kind ≤ 8192 }
    ensures next { result ≡ placed at allowed.now kind place }
    ensures same { IfOk result (λ next. next.allowed ≡ allowed.now) }
    ensures some { IfOk result (λ next. 1 ≤ pending_kind next.pending) }
    ensures known { IfOk result (λ next. pending_kind next.pending ≤ 8192) }
{
    match place {
        Some(place) => Ok(so_far(*allowed, Pending::At(Spot { kind, place }))),
        None => Err(wrong(at, Asked::Routine)),
    }
}

/// The place of a kind that is moved on.
fn moved(at: u64, allowed: &Allowed, kind: u64, place: Option<Linear>) -> Result<Listing, Wrong>
    ensures next { result ≡ moved at allowed.now kind place }
    ensures same { IfOk result (λ next. next.allowed.kinds ≡ allowed.now.kinds) }
    ensures some { IfOk result (λ next. 1 ≤ pending_kind next.pending) }
    ensures known { IfOk result (λ next. pending_kind next.pending ≤ 8192) }
{
    let Some(place) = place else {
        return Err(wrong(at, Asked::Offset));
    };
    match with_room(at, and_spot(*allowed, Spot { kind, place })) {
        Ok(allowed) => Ok(so_far(allowed, Pending::Nothing)),
        Err(wrong) => Err(wrong),
    }
}

/// What a line claims of the instructions that are executed: how many they are at least, which has a number among the
/// fields.
pub(crate) fn covered_at(at: u64, fields: &[u8]) -> Result<Claim, Wrong>
    requires { at ≤ 1 }
    ensures { result ≡ covered_at at (texts (runs fields.now)) }
{
    let Some((field, rest)) = split_field(fields) else {
        return Err(wrong(at, Asked::Least));
    };
    match count_in(field) {
        Some(least) => ended(at + 1, Claim::Covered(least), rest),
        None => Err(wrong(at, Asked::Least)),
    }
}
