//! One of two ropes, as runs are searched in it.

use crate::entries::{Entry, PLACES, WORDS, entry_at, is_first};
use std::alloc::{AllocError, Global};

/// The number by whose powers the words of a window are weighed.
const BASE: u64 = 0x9E37_79B9_7F4A_7C15;

/// One of two ropes, as runs are searched in it.
#[derive(Drop)]
pub(crate) struct Side {
    // For each place the place in the other rope with which it is paired.
    pairs: Vec<Entry>,
    // How many words from a place on, in its bank, stand and are paired with none.
    rooms: Vec<u16>,
    // The sum of what stands before a place, weighed.
    sums: Vec<u64>,
}

impl Side {
    /// A rope of which nothing is paired.
    pub(crate) fn new(alloc: Global, tokens: &[Entry]) -> Result<Side, AllocError> {
        let mut pairs = Vec::with_capacity(alloc, PLACES)?;
        pairs.resize(PLACES, None)?;
        let mut rooms = Vec::with_capacity(alloc, PLACES)?;
        rooms.resize(PLACES, 0)?;
        let mut sums = Vec::with_capacity(alloc, PLACES + 1)?;
        sums.resize(PLACES + 1, 0)?;
        fill_rooms(&mut rooms, tokens);
        fill_sums(&mut sums, tokens);
        Ok(Side { pairs, rooms, sums })
    }

    /// For each place the place in the other rope with which it is paired.
    pub(crate) fn into_pairs(self) -> Vec<Entry> {
        let Side {
            pairs,
            rooms: _rooms,
            sums: _sums,
        } = self;
        pairs
    }

    /// For each place the place in the other rope with which it is paired.
    pub(crate) fn pairs(&self) -> &[Entry] {
        self.pairs.as_slice()
    }

    /// With which place of the other rope a place is paired.
    pub(crate) fn partner(&self, place: usize) -> Entry {
        entry_at(self.pairs.as_slice(), place)
    }

    /// How many words from a place on may be paired.
    pub(crate) fn room(&self, place: usize) -> usize {
        usize::from(room_at(&self.rooms, place))
    }

    /// The weighed sum of so many words from a place on, which tells them from others, nearly always.
    pub(crate) fn weighed(&self, place: usize, length: usize, power: u64) -> u64 {
        if place >= PLACES {
            return 0;
        }
        let before = sum_at(&self.sums, place).wrapping_mul(power);
        sum_at(&self.sums, place.saturating_add(length)).wrapping_sub(before)
    }

    /// Pairs a place, which then has no room.
    pub(crate) fn pair(&mut self, place: usize, other: usize) {
        if place < self.pairs.len() {
            self.pairs[place] = u16::try_from(other).ok();
        }
        put_room(&mut self.rooms, place, 0);
    }

    /// Tells the places before one that has no room that theirs ends there.
    pub(crate) fn close(&mut self, place: usize) {
        for room in 1..WORDS as u16 {
            let Some(before) = place.checked_sub(usize::from(room)) else {
                return;
            };
            if before % WORDS == WORDS - 1 || room_at(&self.rooms, before) == 0 {
                return;
            }
            put_room(&mut self.rooms, before, room);
        }
    }
}

/// The rooms of a rope of which nothing is paired.
fn fill_rooms(rooms: &mut [u16], tokens: &[Entry]) {
    let mut room: u16 = 0;
    for back in 0..PLACES {
        let place = PLACES - 1 - back;
        let after = if is_first(place + 1) { 0 } else { room };
        room = match entry_at(tokens, place) {
            Some(_) => after.saturating_add(1),
            None => 0,
        };
        put_room(rooms, place, room);
    }
}

/// The weighed sums before each place.
fn fill_sums(sums: &mut [u64], tokens: &[Entry]) {
    let mut sum: u64 = 0;
    for place in 0..PLACES {
        let token = match entry_at(tokens, place) {
            Some(token) => u64::from(token) + 1,
            None => 0,
        };
        sum = sum.wrapping_mul(BASE).wrapping_add(token);
        if place + 1 < sums.len() {
            sums[place + 1] = sum;
        }
    }
}

/// The weight of the word before a window of so many.
pub(crate) fn power(length: usize) -> u64 {
    let mut power: u64 = 1;
    for _ in 0..length {
        power = power.wrapping_mul(BASE);
    }
    power
}

fn room_at(rooms: &[u16], place: usize) -> u16 {
    if place < rooms.len() { rooms[place] } else { 0 }
}

fn put_room(rooms: &mut [u16], place: usize, room: u16) {
    if place < rooms.len() {
        rooms[place] = room;
    }
}

fn sum_at(sums: &[u64], place: usize) -> u64 {
    if place < sums.len() { sums[place] } else { 0 }
}
