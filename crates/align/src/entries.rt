//! Entries of places, by the numbers of the places.

ghost use Rattle.std.specs.Prelude.{◌≡◌, ◌+◌, ◌<◌, ◌≤◌, ◌^◌, ◌%◌};
ghost use Rattle.align.specs.Pairings.{at, follows, goes_on, is_entry, is_equal, is_first, is_free, is_next};
ghost use Rattle.rope.specs.Places.{fixed_places};

use space::{BANK_WORDS, FIXED_BANKS};

/// What stands at a place: a token, or the number of a place.
pub type Entry = Option<u16>;

/// How many words a bank holds.
pub(crate) const WORDS: usize = BANK_WORDS as usize;

/// How many banks there are.
pub(crate) const BANKS: usize = FIXED_BANKS as usize;

/// How many places there are.
pub(crate) const PLACES: usize = BANKS * WORDS;

/// What is compared of a check word: TC 2000, which is compared of no other word.
pub(crate) const CHECK: u16 = 0o2000;

/// The entry of a place, none outside.
pub(crate) fn entry_at(entries: &[Entry], place: usize) -> Entry
    ensures { result ≡ at entries.now place }
{
    if place < entries.len() {
        entries[place]
    } else {
        None
    }
}

/// Whether a place is the first of its bank.
pub(crate) fn is_first(place: usize) -> bool
    ensures { result ≡ is_first place }
{
    place % WORDS == 0
}

/// Whether two tokens stand, and are equal.
pub(crate) fn is_equal(first: Entry, second: Entry) -> bool
    ensures { result ≡ is_equal first second }
{
    match (first, second) {
        (Some(token), Some(other)) => token == other,
        _ => false,
    }
}

/// Whether an entry is a place.
pub(crate) fn is_entry(entry: Entry, place: usize) -> bool
    ensures { result ≡ is_entry entry place }
{
    match entry {
        Some(entry) => usize::from(entry) == place,
        None => false,
    }
}

/// Whether two tokens are addresses of places of bank 4 to 37 that are paired with each other, by the pairs of the
/// first.
pub(crate) fn follows(to_new: &[Entry], first: Entry, second: Entry) -> bool
    ensures { result ≡ follows to_new.now first second }
{
    match (first, second) {
        (Some(address), Some(other)) => {
            0o10000 <= address
                && address < 0o100000
                && other < 0o100000
                && is_entry(entry_at(to_new, usize::from(address)), usize::from(other))
        }
        _ => false,
    }
}

/// Whether a place is paired with none.
pub(crate) fn is_free(entry: Entry) -> bool
    ensures { result ≡ is_free entry }
{
    entry.is_none()
}

/// Whether the second of two entries is the place after the first, in the same bank.
pub(crate) fn is_next(first: Entry, second: Entry) -> bool
    ensures { result ≡ is_next first second }
{
    match (first, second) {
        (Some(place), Some(next)) => {
            usize::from(next) == usize::from(place) + 1 && !is_first(usize::from(next))
        }
        _ => false,
    }
}

/// Whether a run goes on from a place to the one after it.
#[tactic(auto, unfolding(crate::specs::Pairings::goes_on))]
pub(crate) fn goes_on(pairs: &[Entry], place: usize) -> bool
    requires { place < 2 ^ 32 }
    ensures { result ≡ goes_on pairs.now place }
{
    !is_first(place + 1) && is_next(entry_at(pairs, place), entry_at(pairs, place + 1))
}
