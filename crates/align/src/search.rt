//! The search for equal runs of two ropes, from the longest. What it finds is checked afterwards.

use crate::entries::{Entry, PLACES, WORDS, entry_at, follows, is_equal, is_first};
use crate::side::{Side, power};
use std::alloc::{AllocError, Global};

/// How many lists of places an index has.
const LISTS: usize = 0o100000;

/// The most places of a list that are looked at for one that is the only one.
const MOST: usize = 64;

/// How many times runs are grown by words that agree, since of addresses these are more after each time.
const GROWN: usize = 2;

/// The places of the old rope by their windows.
#[derive(Drop)]
pub(crate) struct Index {
    // The first place of each list, and one more; 0 where it has none.
    heads: Vec<u32>,
    // The place after each in its list, and one more; 0 where it is the last.
    nexts: Vec<u32>,
}

/// A window of so many words of both ropes.
#[derive(Clone, Copy)]
struct Window {
    length: usize,
    power: u64,
}

/// The pairs of two ropes: the longest runs first, of those as long as each other such as stand at one place, and then
/// by the place in the new rope, and by that in the old one; then the words at both ends of runs that agree; at last
/// the runs of fewer words that stand at one place, and what agrees at their ends.
pub(crate) fn search(
    alloc: Global,
    own: &[Entry],
    old: &[Entry],
    new: &[Entry],
    least: usize,
) -> Result<(Vec<Entry>, Vec<Entry>), AllocError> {
    let mut olds = Side::new(alloc, old)?;
    let mut news = Side::new(alloc, new)?;
    let mut index = Index::new(alloc)?;
    let mut most = WORDS;
    for _ in 0..WORDS {
        let Some(length) = longest(&mut index, &olds, &news, least, most) else {
            break;
        };
        let window = Window::of(length);
        pair_in_place(&mut olds, &mut news, old, new, window);
        index.fill(&olds, window);
        pair_moved(&mut index, &mut olds, &mut news, old, new, window);
        most = length.saturating_sub(1);
    }
    let window = Window::of(1);
    for _ in 0..GROWN {
        grow(&mut olds, &mut news, own, old, new);
    }
    pair_in_place(&mut olds, &mut news, old, new, window);
    grow(&mut olds, &mut news, own, old, new);
    Ok((news.into_pairs(), olds.into_pairs()))
}

/// The greatest number of words, of some on up to some, for which both ropes have an equal window with room: it is
/// sought below the last one by steps that double, and then by halves, since with a window each part of it is equal.
fn longest(
    index: &mut Index,
    olds: &Side,
    news: &Side,
    least: usize,
    most: usize,
) -> Option<usize> {
    let mut none = most.saturating_add(1);
    let mut step: usize = 1;
    for _ in 0..WORDS {
        if none <= least {
            return None;
        }
        let length = none.saturating_sub(step).max(least);
        if index.has_equal(olds, news, length) {
            return Some(between(index, olds, news, length, none));
        }
        none = length;
        step = step.saturating_add(step);
    }
    None
}

/// The greatest number of words for which both ropes have an equal window, between one for which they have and one for
/// which they have none.
fn between(index: &mut Index, olds: &Side, news: &Side, has: usize, none: usize) -> usize {
    let (mut has, mut none) = (has, none);
    for _ in 0..WORDS {
        let length = has.saturating_add(none.saturating_sub(has) / 2);
        if length == has {
            return has;
        }
        if index.has_equal(olds, news, length) {
            has = length;
        } else {
            none = length;
        }
    }
    has
}

/// Grows runs by words that agree: those after a run from the first place of the new rope on, then those before a run
/// from the last place on.
fn grow(olds: &mut Side, news: &mut Side, own: &[Entry], old: &[Entry], new: &[Entry]) {
    for place in 0..PLACES {
        if let Some(pair) = news.partner(place) {
            let (first, second) = (usize::from(pair) + 1, place + 1);
            if !is_first(first) && !is_first(second) {
                pair_agreeing(olds, news, own, old, new, first, second);
            }
        }
    }
    for back in 0..PLACES {
        let place = PLACES - 1 - back;
        if let Some(pair) = news.partner(place) {
            let first = usize::from(pair);
            if !is_first(first) && !is_first(place) {
                pair_agreeing(olds, news, own, old, new, first - 1, place - 1);
            }
        }
    }
}

/// Pairs two places where neither is paired, and their words agree.
fn pair_agreeing(
    olds: &mut Side,
    news: &mut Side,
    own: &[Entry],
    old: &[Entry],
    new: &[Entry],
    first: usize,
    second: usize,
) {
    if olds.room(first) == 0 || news.room(second) == 0 {
        return;
    }
    let (token, other) = (entry_at(old, first), entry_at(new, second));
    if is_equal(token, other) || follows(olds.pairs(), entry_at(own, first), other) {
        olds.pair(first, second);
        news.pair(second, first);
        olds.close(first);
        news.close(second);
    }
}

/// Pairs the runs of a length that stand at one place in both ropes.
fn pair_in_place(olds: &mut Side, news: &mut Side, old: &[Entry], new: &[Entry], window: Window) {
    for place in 0..PLACES {
        if news.room(place) >= window.length && olds.has(window, place, news.mark(window, place)) {
            pair_run(olds, news, old, new, place, place, window.length);
        }
    }
}

/// Pairs the runs of a length that stand at other places.
fn pair_moved(
    index: &mut Index,
    olds: &mut Side,
    news: &mut Side,
    old: &[Entry],
    new: &[Entry],
    window: Window,
) {
    for place in 0..PLACES {
        if news.room(place) >= window.length {
            let mark = news.mark(window, place);
            if let Some(first) = index.find(olds, window, mark) {
                pair_run(olds, news, old, new, first, place, window.length);
            }
        }
    }
}

/// Pairs the run through two places, grown as far as it can be, where it has so many words.
fn pair_run(
    olds: &mut Side,
    news: &mut Side,
    old: &[Entry],
    new: &[Entry],
    here: usize,
    there: usize,
    length: usize,
) {
    let ahead = run_ahead(olds, news, old, new, (here, there));
    let back = run_back(olds, news, old, new, (here, there));
    let count = ahead.saturating_add(back);
    if count < length {
        return;
    }
    let (here, there) = (here.saturating_sub(back), there.saturating_sub(back));
    for more in 0..count {
        let (first, second) = (here.saturating_add(more), there.saturating_add(more));
        olds.pair(first, second);
        news.pair(second, first);
    }
    olds.close(here);
    news.close(there);
}

/// How many words from two places on are equal, and may be paired.
fn run_ahead(olds: &Side, news: &Side, old: &[Entry], new: &[Entry], at: (usize, usize)) -> usize {
    let (here, there) = at;
    let most = olds.room(here).min(news.room(there));
    for more in 0..most {
        let first = entry_at(old, here.saturating_add(more));
        let second = entry_at(new, there.saturating_add(more));
        if !is_equal(first, second) {
            return more;
        }
    }
    most
}

/// How many words before two places are equal, and may be paired.
fn run_back(olds: &Side, news: &Side, old: &[Entry], new: &[Entry], at: (usize, usize)) -> usize {
    let (here, there) = at;
    for back in 0..WORDS {
        let (Some(first), Some(second)) = (here.checked_sub(back), there.checked_sub(back)) else {
            return back;
        };
        if is_first(first) || is_first(second) {
            return back;
        }
        let (before, other) = (first - 1, second - 1);
        let may = olds.room(before) > 0 && news.room(other) > 0;
        if !may || !is_equal(entry_at(old, before), entry_at(new, other)) {
            return back;
        }
    }
    0
}

impl Window {
    /// A window of so many words.
    fn of(length: usize) -> Window {
        Window {
            length,
            power: power(length),
        }
    }
}

impl Side {
    /// What tells the words of a window from others.
    fn mark(&self, window: Window, place: usize) -> u64 {
        self.weighed(place, window.length, window.power)
    }

    /// Whether the window of a place has a mark, and room.
    fn has(&self, window: Window, place: usize, mark: u64) -> bool {
        self.room(place) >= window.length && self.mark(window, place) == mark
    }
}

impl Index {
    /// An index without places.
    pub(crate) fn new(alloc: Global) -> Result<Index, AllocError> {
        let mut heads = Vec::with_capacity(alloc, LISTS)?;
        heads.resize(LISTS, 0)?;
        let mut nexts = Vec::with_capacity(alloc, PLACES)?;
        nexts.resize(PLACES, 0)?;
        Ok(Index { heads, nexts })
    }

    /// Puts the places of a rope that have room for a window into lists, in each by rising numbers.
    fn fill(&mut self, olds: &Side, window: Window) {
        for list in 0..LISTS {
            put(&mut self.heads, list, 0);
        }
        for back in 0..PLACES {
            let place = PLACES - 1 - back;
            if olds.room(place) >= window.length {
                let list = list_of(olds.mark(window, place));
                put(&mut self.nexts, place, get(&self.heads, list));
                put(&mut self.heads, list, place as u32 + 1);
            }
        }
    }

    /// Whether both ropes have an equal window of so many words, with room.
    fn has_equal(&mut self, olds: &Side, news: &Side, length: usize) -> bool {
        let window = Window::of(length);
        self.fill(olds, window);
        for place in 0..PLACES {
            if news.room(place) >= length
                && self.find(olds, window, news.mark(window, place)).is_some()
            {
                return true;
            }
        }
        false
    }

    /// Puts the places of a rope that have a mark into lists.
    pub(crate) fn fill_marks(&mut self, marks: &[u64]) {
        for place in 0..marks.len().min(PLACES) {
            if marks[place] != 0 {
                let list = list_of(marks[place]);
                put(&mut self.nexts, place, get(&self.heads, list));
                put(&mut self.heads, list, place as u32 + 1);
            }
        }
    }

    /// The only place that has a mark.
    pub(crate) fn only(&self, marks: &[u64], mark: u64) -> Option<usize> {
        let mut found = None;
        let mut entry = get(&self.heads, list_of(mark));
        for _ in 0..MOST {
            let Some(place) = (entry as usize).checked_sub(1) else {
                return found;
            };
            if place < marks.len() && marks[place] == mark {
                if found.is_some() {
                    return None;
                }
                found = Some(place);
            }
            entry = get(&self.nexts, place);
        }
        None
    }

    /// The first place whose window has a mark, and room still.
    fn find(&mut self, olds: &Side, window: Window, mark: u64) -> Option<usize> {
        let list = list_of(mark);
        let mut entry = get(&self.heads, list);
        for _ in 0..PLACES {
            let place = (entry as usize).checked_sub(1)?;
            if olds.has(window, place, mark) {
                return Some(place);
            }
            let next = get(&self.nexts, place);
            if olds.room(place) < window.length && get(&self.heads, list) == entry {
                put(&mut self.heads, list, next);
            }
            entry = next;
        }
        None
    }
}

/// The list of a mark.
fn list_of(mark: u64) -> usize {
    (mark >> 49) as usize
}

pub(crate) fn get(numbers: &[u32], at: usize) -> u32 {
    if at < numbers.len() { numbers[at] } else { 0 }
}

pub(crate) fn put(numbers: &mut [u32], at: usize, number: u32) {
    if at < numbers.len() {
        numbers[at] = number;
    }
}
