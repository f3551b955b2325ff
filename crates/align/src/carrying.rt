//! Where the places of names of fixed memory are carried to.

ghost use Rattle.std.specs.Prelude.{IfSome, ◌≡◌, ◌+◌, ◌*◌, ◌<◌, ◌≤◌, ◌^◌, ◌++◌, codes, length};
ghost use Rattle.arrayvec.specs.ArrayVec.{array_vec_len};
ghost use Rattle.rope.specs.Places.{fixed_places};
ghost use Rattle.align.specs.Carried.{changed_to, fixed_at, fixed_line, has_changed, has_resumed, is_last, is_sure};
ghost use Rattle.align.specs.Carried.{is_sure_ahead, is_sure_back, name_line, resumes, unpaired_line};
ghost use Rattle.align.specs.Pairings.{pairing};

use crate::checking::Pairing;
use crate::entries::{Entry, PLACES, WORDS, entry_at, goes_on, is_entry, is_first, is_free};
use crate::lines::stands_free;
use arrayvec::ArrayVec;
use space::Offset;
use symbols::{FixedBank, Value, value_text};
use words::push_all;

/// How many words of a run stand on each side of a name that is surely carried.
const SURE: usize = 4;

/// The most bytes of a line: what it begins with, a name, a value, and what stands between.
const LINE: usize = 40;

pub(crate) type Line = ArrayVec<u8, LINE>;

/// The line of a name of fixed memory, whose place has this entry.
pub(crate) fn fixed_line(p: Pairing<'_>, name: &[u8], old: usize, entry: Entry) -> Line
    requires name { length name.now ≤ 8 }
    requires place { old < fixed_places }
    ensures { result.items ≡ fixed_line (pairing p.entry.own.now p.entry.old.now p.entry.new.now p.entry.to_old.now
        p.entry.to_new.now) name.now old entry }
{
    let Some(new) = entry else {
        return unpaired_line(name, old, changed_to(p, old));
    };
    let new = usize::from(new);
    if new >= PLACES {
        name_line(b"# GONE ", name, fixed_at(old))
    } else if is_sure(p, old, new) {
        name_line(b"", name, fixed_at(new))
    } else {
        name_line(b"# UNSURE ", name, fixed_at(new))
    }
}

/// The line of a name whose place is paired with none, by where its word has changed alone.
fn unpaired_line(name: &[u8], old: usize, changed: Option<usize>) -> Line
    requires name { length name.now ≤ 8 }
    requires place { old < fixed_places }
    requires changed { IfSome changed (λ new. new < fixed_places) }
    ensures { result.items ≡ unpaired_line name.now old changed }
{
    match changed {
        Some(new) => name_line(b"# UNSURE ", name, fixed_at(new)),
        None => name_line(b"# GONE ", name, fixed_at(old)),
    }
}

/// Where the word of a place that is paired with none has changed alone: right behind the partner of the one before it.
fn changed_to(p: Pairing<'_>, old: usize) -> Option<usize>
    requires { old < fixed_places }
    ensures is { result ≡ changed_to (pairing p.entry.own.now p.entry.old.now p.entry.new.now p.entry.to_old.now
        p.entry.to_new.now) old }
    ensures within { IfSome result (λ new. new < fixed_places) }
{
    if is_first(old) {
        return None;
    }
    let new = usize::from(entry_at(p.to_new, old - 1)?);
    if new + 1 < PLACES && resumes(p, old - 1, new) {
        Some(new + 1)
    } else {
        None
    }
}

/// A name, and what it stands for, after some bytes.
pub(crate) fn name_line(title: &[u8], name: &[u8], value: Value) -> Line
    requires title { length title.now ≤ 9 }
    requires name { length name.now ≤ 8 }
    ensures { result.items ≡ title.now ++ name_line name.now value }
{
    let mut line = ArrayVec::new();
    push_all(&mut line, title);
    push_all(&mut line, name);
    push_all(&mut line, b" ");
    push_all(&mut line, value_text(value).as_slice());
    push_all(&mut line, b"\n");
    line
}

/// A place of fixed memory by its number.
fn fixed_at(place: usize) -> Value
    requires { place < fixed_places }
    ensures { result ≡ fixed_at place }
{
    let bank = FixedBank::try_new((place / WORDS) as u16).unwrap();
    let offset = Offset::try_new((place % WORDS) as u16).unwrap();
    Value::Fixed(bank, offset)
}

/// Whether a name is surely carried from a place to another.
pub(crate) fn is_sure(p: Pairing<'_>, old: usize, new: usize) -> bool
    requires old { old < fixed_places }
    requires new { new < fixed_places }
    ensures { result ≡ is_sure (pairing p.entry.own.now p.entry.old.now p.entry.new.now p.entry.to_old.now
        p.entry.to_new.now) old new }
{
    is_sure_ahead(p, old, new, SURE) && is_sure_back(p, old, new, SURE)
}

/// Whether a run goes on from two paired places so many times, where one changed word is passed over, or up to the last
/// words of both banks.
#[tactic(auto, unfolding(crate::specs::Carried::is_sure_ahead))]
fn is_sure_ahead(p: Pairing<'_>, old: usize, new: usize, count: usize) -> bool
    requires old { old + 2 * count < 2 ^ 31 }
    requires new { new + 2 * count < 2 ^ 31 }
    ensures { result ≡ is_sure_ahead (pairing p.entry.own.now p.entry.old.now p.entry.new.now p.entry.to_old.now
        p.entry.to_new.now) old new count }
{
    if count == 0 {
        true
    } else if goes_on(p.to_new, old) {
        is_sure_ahead(p, old + 1, new + 1, count - 1)
    } else if is_last(p.old, old) && is_last(p.new, new) {
        true
    } else {
        resumes(p, old, new) && is_sure_ahead(p, old + 2, new + 2, count - 1)
    }
}

/// Whether after two paired places one word of each bank has changed, and the next two are paired.
#[tactic(auto, unfolding(crate::specs::Carried::resumes))]
fn resumes(p: Pairing<'_>, old: usize, new: usize) -> bool
    requires old { old < 2 ^ 31 }
    requires new { new < 2 ^ 31 }
    ensures { result ≡ resumes (pairing p.entry.own.now p.entry.old.now p.entry.new.now p.entry.to_old.now
        p.entry.to_new.now) old new }
{
    has_changed(p, old + 1, new + 1)
        && !is_first(old + 2)
        && !is_first(new + 2)
        && is_entry(entry_at(p.to_new, old + 2), new + 2)
}

/// Whether words of one bank in each rope have changed alone.
fn has_changed(p: Pairing<'_>, old: usize, new: usize) -> bool
    ensures { result ≡ has_changed (pairing p.entry.own.now p.entry.old.now p.entry.new.now p.entry.to_old.now
        p.entry.to_new.now) old new }
{
    stands_free(p.to_new, p.old, old) && stands_free(p.to_old, p.new, new)
}

/// Whether before two paired places, which are no first ones of banks, one word of each bank has changed, and the two
/// before are paired.
#[tactic(auto, unfolding(crate::specs::Carried::has_resumed))]
fn has_resumed(p: Pairing<'_>, old: usize, new: usize) -> bool
    ensures { result ≡ has_resumed (pairing p.entry.own.now p.entry.old.now p.entry.new.now p.entry.to_old.now
        p.entry.to_new.now) old new }
{
    !is_first(new)
        && has_changed(p, old.saturating_sub(1), new.saturating_sub(1))
        && is_entry(
            entry_at(p.to_new, old.saturating_sub(2)),
            new.saturating_sub(2),
        )
}

/// Whether it comes so from so many places before them, or from the first words of both banks.
#[tactic(auto, unfolding(crate::specs::Carried::is_sure_back))]
fn is_sure_back(p: Pairing<'_>, old: usize, new: usize, count: usize) -> bool
    requires old { old < 2 ^ 31 }
    ensures { result ≡ is_sure_back (pairing p.entry.own.now p.entry.old.now p.entry.new.now p.entry.to_old.now
        p.entry.to_new.now) old new count }
{
    if count == 0 {
        true
    } else if is_first(old) {
        is_first(new)
    } else if goes_on(p.to_new, old - 1) {
        is_sure_back(p, old - 1, new.saturating_sub(1), count - 1)
    } else {
        has_resumed(p, old, new)
            && is_sure_back(p, old.saturating_sub(2), new.saturating_sub(2), count - 1)
    }
}

/// Whether a place is the last of its bank where something is compared.
#[tactic(auto, unfolding(crate::specs::Carried::is_last))]
fn is_last(tokens: &[Entry], place: usize) -> bool
    requires { place < 2 ^ 31 }
    ensures { result ≡ is_last tokens.now place }
{
    is_first(place + 1) || is_free(entry_at(tokens, place + 1))
}
