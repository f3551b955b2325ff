//! The search for the addresses that stand for others. What it finds is checked afterwards.

use crate::entries::{BANKS, Entry, PLACES, WORDS, entry_at};
use crate::renaming::{ERASABLE_BANK, FIRST_FREE, FIRST_SWITCHED, SLOTS, is_switched, slot};
use crate::search::{Index, get, put};
use std::alloc::{AllocError, Global};

/// How many words are compared at once.
const WINDOW: usize = 16;

/// The number by whose powers the words of a window are weighed.
const BASE: u64 = 0x9E37_79B9_7F4A_7C15;

/// What is compared at the places of a rope, and the addresses of erasable memory that its words name.
#[derive(Clone, Copy, Debug)]
pub(crate) struct Named<'a> {
    pub(crate) tokens: &'a [Entry],
    pub(crate) operands: &'a [Entry],
}

/// Which address most words say that stands for one, and how many more say so than do not.
#[derive(Drop)]
struct Votes {
    others: Vec<Entry>,
    counts: Vec<u32>,
}

/// Which address of the new rope stands for each of the old one, and which of the old one for each of the new one: what
/// most words say where 16 of both ropes, one after another, are equal, whatever they name, as long as it is the same
/// where it was the same.
///
/// Nothing is renamed by one word alone, but where most are.
pub(crate) fn search_names(
    alloc: Global,
    old: Named<'_>,
    new: Named<'_>,
) -> Result<(Vec<Entry>, Vec<Entry>), AllocError> {
    let olds = marks(alloc, old)?;
    let news = marks(alloc, new)?;
    let partners = partners(alloc, &olds, &news)?;
    let mut votes = Votes::new(alloc)?;
    for place in 0..PLACES {
        if let Some(first) = entry_at(&partners, place) {
            let (first, bank) = (usize::from(first), first / 0o2000);
            votes.take(
                bank,
                entry_at(old.operands, first),
                entry_at(new.operands, place),
            );
        }
    }
    votes.settle(alloc)
}

/// What tells the window that begins at each place from others; 0 where none does.
fn marks(alloc: Global, rope: Named<'_>) -> Result<Vec<u64>, AllocError> {
    let distances = distances(alloc, rope.operands)?;
    let mut marks = Vec::with_capacity(alloc, PLACES)?;
    marks.resize(PLACES, 0)?;
    for place in 0..PLACES {
        if place % WORDS <= WORDS - WINDOW {
            let mark = mark(rope, &distances, place);
            if place < marks.len() {
                marks[place] = mark;
            }
        }
    }
    Ok(marks)
}

/// For each place how far before it in its bank the same address is named; 0 where it is not.
fn distances(alloc: Global, operands: &[Entry]) -> Result<Vec<u32>, AllocError> {
    let mut distances = Vec::with_capacity(alloc, PLACES)?;
    distances.resize(PLACES, 0)?;
    let mut lasts = Vec::with_capacity(alloc, 0o2000)?;
    lasts.resize(0o2000, 0)?;
    for place in 0..PLACES {
        if let Some(address) = entry_at(operands, place) {
            let last = get(&lasts, usize::from(address)) as usize;
            if last != 0 && (last - 1) / WORDS == place / WORDS {
                put(
                    &mut distances,
                    place,
                    (place + 1).saturating_sub(last) as u32,
                );
            }
            put(&mut lasts, usize::from(address), place as u32 + 1);
        }
    }
    Ok(distances)
}

/// What tells the window that begins at a place from others; 0 where something in it is not compared.
fn mark(rope: Named<'_>, distances: &[u32], place: usize) -> u64 {
    let mut mark: u64 = 1;
    for more in 0..WINDOW {
        let here = place.saturating_add(more);
        let Some(token) = entry_at(rope.tokens, here) else {
            return 0;
        };
        let distance = get(distances, here) as usize;
        let near = if distance > more { 0 } else { distance };
        mark = mark
            .wrapping_mul(BASE)
            .wrapping_add(shape(token, entry_at(rope.operands, here), near as u64));
    }
    mark
}

/// What is compared of a word whatever it names, but for a register or a counter: and how far before it the same
/// address is named.
fn shape(token: u16, operand: Entry, distance: u64) -> u64 {
    match operand {
        Some(address) => {
            if address < FIRST_FREE {
                u64::from(token) << 16
            } else {
                let kind = if is_switched(address) { 0o4000 } else { 0o2000 };
                (u64::from(token.wrapping_sub(address)) << 16)
                    .wrapping_add(kind)
                    .wrapping_add(distance)
            }
        }
        None => u64::from(token) << 16,
    }
}

/// With which places of the old rope those of the new one are compared: of the first windows that are equal those after
/// the last ones, or at the same place, or the only ones.
fn partners(alloc: Global, olds: &[u64], news: &[u64]) -> Result<Vec<Entry>, AllocError> {
    let mut index = Index::new(alloc)?;
    index.fill_marks(olds);
    let mut partners = Vec::with_capacity(alloc, PLACES)?;
    partners.resize(PLACES, None)?;
    let mut next = PLACES;
    for place in 0..PLACES {
        let wanted = mark_at(news, place);
        let found = if wanted == 0 {
            None
        } else if mark_at(olds, next) == wanted {
            Some(next)
        } else if mark_at(olds, place) == wanted {
            Some(place)
        } else {
            index.only(olds, wanted)
        };
        next = match found {
            Some(first) => {
                put_partners(&mut partners, first, place);
                first.saturating_add(1)
            }
            None => PLACES,
        };
    }
    Ok(partners)
}

/// Puts down the places of a window that are not compared with others.
fn put_partners(partners: &mut [Entry], first: usize, place: usize) {
    for more in 0..WINDOW {
        let here = place.saturating_add(more);
        if here < partners.len() && partners[here].is_none() {
            partners[here] = u16::try_from(first.saturating_add(more)).ok();
        }
    }
}

/// The mark of a place, 0 outside.
fn mark_at(marks: &[u64], place: usize) -> u64 {
    if place < marks.len() { marks[place] } else { 0 }
}

impl Votes {
    /// No word says anything.
    fn new(alloc: Global) -> Result<Votes, AllocError> {
        let mut counts = Vec::with_capacity(alloc, SLOTS)?;
        counts.resize(SLOTS, 0)?;
        Ok(Votes {
            others: no_entries(alloc)?,
            counts,
        })
    }

    /// Takes what the words of two places say, of which the first is in a bank.
    fn take(&mut self, bank: u16, old: Entry, new: Entry) {
        let (Some(address), Some(other)) = (old, new) else {
            return;
        };
        if address < FIRST_FREE
            || other < FIRST_FREE
            || is_switched(address) != is_switched(other)
        {
            return;
        }
        let place = slot(bank, address);
        let count = get(&self.counts, place);
        if count == 0 {
            put_entry(&mut self.others, place, Some(other));
            put(&mut self.counts, place, 1);
        } else if entry_at(&self.others, place) == Some(other) {
            put(&mut self.counts, place, count.saturating_add(1));
        } else {
            put(&mut self.counts, place, count.saturating_sub(1));
        }
    }

    /// How many words have to say that an address stands for another: one where most say so of theirs, else two.
    fn least(&self) -> u32 {
        let mut kept: u32 = 0;
        let mut changed: u32 = 0;
        for place in 0..SLOTS {
            if let Some(other) = entry_at(&self.others, place) {
                let count = get(&self.counts, place);
                if other == address_of(place) {
                    kept = kept.saturating_add(count);
                } else {
                    changed = changed.saturating_add(count);
                }
            }
        }
        if changed > kept { 1 } else { 2 }
    }

    /// For which address each stands: for that of which most words say so.
    fn owners(&self, alloc: Global) -> Result<Vec<Entry>, AllocError> {
        let mut owners = no_entries(alloc)?;
        let least = self.least();
        for place in 0..SLOTS {
            let (bank, address) = (bank_of_entry(place), address_of(place));
            let count = get(&self.counts, place);
            if let Some(other) = entry_at(&self.others, place)
                && (count >= least || count > 0 && other == address)
            {
                let target = slot(bank, other);
                let so_far = match entry_at(&owners, target) {
                    Some(owner) => get(&self.counts, slot(bank, owner)),
                    None => 0,
                };
                if count > so_far {
                    put_entry(&mut owners, target, Some(address));
                }
            }
        }
        Ok(owners)
    }

    /// Which address stands for each, and for which each stands: of which too few words say it, it is the same one
    /// where that is free, and else one that is left.
    fn settle(&self, alloc: Global) -> Result<(Vec<Entry>, Vec<Entry>), AllocError> {
        let mut back = self.owners(alloc)?;
        let mut names = no_entries(alloc)?;
        for target in 0..SLOTS {
            if let Some(address) = entry_at(&back, target) {
                let place = slot(bank_of_entry(target), address);
                put_entry(&mut names, place, Some(address_of(target)));
            }
        }
        for place in 0..SLOTS {
            if entry_at(&names, place).is_none() && entry_at(&back, place).is_none() {
                put_entry(&mut names, place, Some(address_of(place)));
                put_entry(&mut back, place, Some(address_of(place)));
            }
        }
        let mut target = 0;
        for place in 0..SLOTS {
            if place >= usize::from(FIRST_SWITCHED) && place % usize::from(ERASABLE_BANK) == 0 {
                target = place;
            }
            if entry_at(&names, place).is_none() {
                target = free_from(&back, target);
                put_entry(&mut names, place, Some(address_of(target)));
                put_entry(&mut back, target, Some(address_of(place)));
            }
        }
        Ok((names, back))
    }
}

/// No entry of any address.
fn no_entries(alloc: Global) -> Result<Vec<Entry>, AllocError> {
    let mut entries = Vec::with_capacity(alloc, SLOTS)?;
    entries.resize(SLOTS, None)?;
    Ok(entries)
}

/// The first place from one on that has no entry.
fn free_from(entries: &[Entry], place: usize) -> usize {
    for here in place..SLOTS {
        if entry_at(entries, here).is_none() {
            return here;
        }
    }
    place
}

/// The bank of whose words an entry is.
fn bank_of_entry(place: usize) -> u16 {
    ((place / usize::from(ERASABLE_BANK)).saturating_sub(3) % BANKS) as u16
}

/// The address of an entry.
fn address_of(place: usize) -> u16 {
    if place < usize::from(FIRST_SWITCHED) {
        place as u16
    } else {
        FIRST_SWITCHED + (place % usize::from(ERASABLE_BANK)) as u16
    }
}

fn put_entry(entries: &mut [Entry], at: usize, entry: Entry) {
    if at < entries.len() {
        entries[at] = entry;
    }
}
