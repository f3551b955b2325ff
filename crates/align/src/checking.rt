//! Whether a pairing of two ropes is right.

ghost use Rattle.std.specs.Prelude.{◌≡◌, ◌+◌, ◌<◌, ◌≤◌, ◌^◌};
ghost use Rattle.rope.specs.Places.{fixed_places};
ghost use Rattle.align.specs.Pairings.{agree, at, begins, could_grow_ahead, could_grow_back, could_pair, goes_on_for};
ghost use Rattle.align.specs.Pairings.{is_long, is_right, is_right_at, is_right_new, is_right_old, name_alike, pairing};

use crate::entries::{
    CHECK, Entry, PLACES, entry_at, follows, goes_on, is_entry, is_equal, is_first, is_free,
};

/// Two ropes' tokens, those of the old one also with its own addresses, and with which places of the other rope each
/// one's are paired.
#[derive(Clone, Copy, Debug)]
pub(crate) struct Pairing<'a> {
    pub(crate) own: &'a [Entry],
    pub(crate) old: &'a [Entry],
    pub(crate) new: &'a [Entry],
    pub(crate) to_old: &'a [Entry],
    pub(crate) to_new: &'a [Entry],
}

/// Whether a pairing is right, by each of its places.
#[tactic(auto, using(crate::proofs::Steps::right_first, crate::proofs::Steps::right_next))]
pub(crate) fn is_right(least: usize, p: Pairing<'_>) -> bool
    requires { least ≤ 1024 }
    ensures { result ≡ is_right least (pairing p.entry.own.now p.entry.old.now p.entry.new.now p.entry.to_old.now
        p.entry.to_new.now) }
{
    let mut right = true;
    for place in 0..PLACES {
        right = is_right_at(least, p, place) && right;
    }
    right
}

/// Whether all is right at a place of both ropes.
#[tactic(auto, unfolding(crate::specs::Pairings::is_right_at))]
fn is_right_at(least: usize, p: Pairing<'_>, place: usize) -> bool
    requires least { least ≤ 1024 }
    requires place { place < fixed_places }
    ensures { result ≡ is_right_at least (pairing p.entry.own.now p.entry.old.now p.entry.new.now p.entry.to_old.now
        p.entry.to_new.now) place }
{
    is_right_new(least, p, place, entry_at(p.to_old, place))
        && is_right_old(p, place, entry_at(p.to_new, place))
}

/// Whether all is right at a place of the new rope that has an entry.
fn is_right_new(least: usize, p: Pairing<'_>, new: usize, entry: Entry) -> bool
    requires least { least ≤ 1024 }
    requires place { new < fixed_places }
    ensures { result ≡ is_right_new least (pairing p.entry.own.now p.entry.old.now p.entry.new.now p.entry.to_old.now
        p.entry.to_new.now) new entry }
{
    let Some(old) = entry else {
        return true;
    };
    let old = usize::from(old);
    agree(p, old, new)
        && is_entry(entry_at(p.to_new, old), new)
        && is_long(least, p.to_old, new)
        && !could_grow_ahead(p, old, new)
        && !could_grow_back(p, old, new)
}

/// Whether the words at two places agree: they are equal, or lead to places that are paired.
fn agree(p: Pairing<'_>, old: usize, new: usize) -> bool
    ensures { result ≡ agree (pairing p.entry.own.now p.entry.old.now p.entry.new.now p.entry.to_old.now
        p.entry.to_new.now) old new }
{
    let other = entry_at(p.new, new);
    is_equal(entry_at(p.old, old), other) || follows(p.to_new, entry_at(p.own, old), other)
}

/// Whether the words at two places are equal, and no check words.
pub(crate) fn name_alike(p: Pairing<'_>, old: usize, new: usize) -> bool
    ensures { result ≡ name_alike (pairing p.entry.own.now p.entry.old.now p.entry.new.now p.entry.to_old.now
        p.entry.to_new.now) old new }
{
    let token = entry_at(p.old, old);
    is_equal(token, entry_at(p.new, new)) && !is_entry(token, usize::from(CHECK))
}

/// Whether all is right at a place of the old rope that has an entry.
fn is_right_old(p: Pairing<'_>, old: usize, entry: Entry) -> bool
    ensures { result ≡ is_right_old (pairing p.entry.own.now p.entry.old.now p.entry.new.now p.entry.to_old.now
        p.entry.to_new.now) old entry }
{
    match entry {
        Some(new) => is_entry(entry_at(p.to_old, usize::from(new)), old),
        None => true,
    }
}

/// Whether the run that begins at a paired place, where one does, has so many words, or stands where it stood.
#[tactic(auto, unfolding(crate::specs::Pairings::is_long))]
fn is_long(least: usize, pairs: &[Entry], place: usize) -> bool
    requires least { least ≤ 1024 }
    requires place { place < fixed_places }
    ensures { result ≡ is_long least pairs.now place }
{
    is_entry(entry_at(pairs, place), place)
        || !begins(pairs, place)
        || goes_on_for(pairs, place, least.saturating_sub(1))
}

/// Whether a run begins at a paired place.
fn begins(pairs: &[Entry], place: usize) -> bool
    requires { place < fixed_places }
    ensures { result ≡ begins pairs.now place }
{
    is_first(place) || !goes_on(pairs, place - 1)
}

/// Whether a run goes on so many times from a place.
#[tactic(auto, using(crate::proofs::Steps::goes_first, crate::proofs::Steps::goes_next))]
fn goes_on_for(pairs: &[Entry], place: usize, count: usize) -> bool
    requires count { count ≤ 1024 }
    requires place { place < fixed_places }
    ensures { result ≡ goes_on_for pairs.now place count }
{
    let mut on = true;
    for more in 0..count {
        on = goes_on(pairs, place + more) && on;
    }
    on
}

/// Whether two places could be paired as well.
fn could_pair(p: Pairing<'_>, old: usize, new: usize) -> bool
    ensures { result ≡ could_pair (pairing p.entry.own.now p.entry.old.now p.entry.new.now p.entry.to_old.now
        p.entry.to_new.now) old new }
{
    is_equal(entry_at(p.old, old), entry_at(p.new, new))
        && is_free(entry_at(p.to_new, old))
        && is_free(entry_at(p.to_old, new))
}

/// Whether a run could have the places after two that are paired.
#[tactic(auto, unfolding(crate::specs::Pairings::could_grow_ahead))]
fn could_grow_ahead(p: Pairing<'_>, old: usize, new: usize) -> bool
    requires old { old < 2 ^ 16 }
    requires place { new < fixed_places }
    ensures { result ≡ could_grow_ahead (pairing p.entry.own.now p.entry.old.now p.entry.new.now p.entry.to_old.now
        p.entry.to_new.now) old new }
{
    !is_first(old + 1) && !is_first(new + 1) && could_pair(p, old + 1, new + 1)
}

/// Whether a run could have the places before two that are paired.
#[tactic(auto, unfolding(crate::specs::Pairings::could_grow_back))]
fn could_grow_back(p: Pairing<'_>, old: usize, new: usize) -> bool
    ensures { result ≡ could_grow_back (pairing p.entry.own.now p.entry.old.now p.entry.new.now p.entry.to_old.now
        p.entry.to_new.now) old new }
{
    !is_first(old) && !is_first(new) && could_pair(p, old - 1, new - 1)
}
