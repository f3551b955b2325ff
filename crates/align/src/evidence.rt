//! What is known of an address of erasable memory by the words that name it.

ghost use Rattle.std.specs.Prelude.{◌≡◌, ◌+◌, ◌<◌, ◌≤◌, length};
ghost use Rattle.rope.specs.Places.{fixed_places};
ghost use Rattle.align.specs.Evidences.{IsKnown, is_enough, kept_word, with_word};
ghost use Rattle.align.specs.Pairings.{pairing};

use crate::carrying::is_sure;
use crate::checking::{Pairing, name_alike};
use crate::entries::{Entry, PLACES, WORDS, entry_at};

/// How many addresses of erasable memory there are.
pub(crate) const ADDRESSES: usize = 0o2000;

/// What is known of an address by the words of the old rope that name it.
#[derive(Clone, Copy, Debug)]
pub(crate) struct Evidence {
    /// How many of them are paired with equal ones.
    pub(crate) words: usize,
    /// Whether one is not paired.
    pub(crate) is_lost: bool,
    /// Whether one is surely carried.
    pub(crate) is_sure: bool,
    /// The bank of the last one that is equal.
    pub(crate) bank: u16,
}

/// Nothing is known.
const NOTHING: Evidence = Evidence {
    words: 0,
    is_lost: false,
    is_sure: false,
    bank: 0,
};

/// What is known of each address by all words that name it, by one pass over the words.
#[tactic(auto, using(crate::proofs::Known::known_start))]
pub(crate) fn weigh(operands: &[Entry], p: Pairing<'_>) -> [Evidence; ADDRESSES]
    ensures len { length result ≡ 0o2000 }
    ensures known { IsKnown operands.now (pairing p.entry.own.now p.entry.old.now p.entry.new.now p.entry.to_old.now
        p.entry.to_new.now) fixed_places result }
{
    let mut known = [NOTHING; ADDRESSES];
    for place in 0..PLACES {
        take_word(&mut known, operands, p, place);
    }
    known
}

/// Takes what the word of a place tells, after the words before it.
#[tactic(auto, using(crate::proofs::Known::known_steps))]
fn take_word(known: &mut [Evidence; ADDRESSES], operands: &[Entry], p: Pairing<'_>, place: usize)
    requires place { place < fixed_places }
    requires len { length known.old ≡ 0o2000 }
    requires so_far { IsKnown operands.now (pairing p.own.now p.old.now p.new.now p.to_old.now p.to_new.now) place
        known.old }
    ensures len { length known.new ≡ 0o2000 }
    ensures known { IsKnown operands.now (pairing p.entry.own.now p.entry.old.now p.entry.new.now p.entry.to_old.now
        p.entry.to_new.now) (place + 1) known.new }
{
    let Some(address) = entry_at(operands, place) else {
        return;
    };
    let address = usize::from(address);
    if address < ADDRESSES {
        known[address] = with_word(p, place, entry_at(p.to_new, place), known[address]);
    }
}

/// What is known by one word more, at a place that has this entry.
fn with_word(p: Pairing<'_>, place: usize, entry: Entry, known: Evidence) -> Evidence
    requires place { place < fixed_places }
    requires few { known.words ≤ place }
    ensures is { result ≡ with_word (pairing p.entry.own.now p.entry.old.now p.entry.new.now p.entry.to_old.now
        p.entry.to_new.now) place entry known }
{
    match entry {
        Some(new) => {
            let new = usize::from(new);
            if new < PLACES && name_alike(p, place, new) {
                kept_word(p, place, new, known)
            } else {
                known
            }
        }
        None => Evidence {
            words: known.words,
            is_lost: true,
            is_sure: known.is_sure,
            bank: known.bank,
        },
    }
}

/// What is known by one word more that is equal to that with which it is paired.
fn kept_word(p: Pairing<'_>, place: usize, new: usize, known: Evidence) -> Evidence
    requires place { place < fixed_places }
    requires new { new < fixed_places }
    requires few { known.words ≤ place }
    ensures { result ≡ kept_word (pairing p.entry.own.now p.entry.old.now p.entry.new.now p.entry.to_old.now
        p.entry.to_new.now) place new known }
{
    Evidence {
        words: known.words + 1,
        is_lost: known.is_lost,
        is_sure: known.is_sure || is_sure(p, place, new),
        bank: (place / WORDS) as u16,
    }
}

/// Whether it is known surely which address stands for one: two words or more that name it are paired with equal ones,
/// one of them is surely carried, and each is paired.
pub(crate) fn is_enough(known: Evidence) -> bool
    ensures { result ≡ is_enough known }
{
    2 <= known.words && known.is_sure && !known.is_lost
}
