//! The next entry of several sources.

ghost use Rattle.std.specs.Prelude.{◌≡◌, ◌≤◌, ◌<◌, ◌&&◌, ℕ, true, IfSome, length, sum, slice_get, slice_index, map};
ghost use Rattle.feed.specs.CountsTaken.{CountsTaken};
ghost use Rattle.feed.specs.Heads.{AreSources, AreEnded, IsLeast, head, entry_before, earlier, later, stands};
ghost use Rattle.feed.specs.Merged.{plain_entry, merged};

use crate::cut::{earlier, later, passes};
use crate::entry::{Entry, Plain};
use crate::series_cursor::SeriesCursor;

/// The most series.
pub const MOST_SERIES: usize = 16;

// The sum of the counts.
fn total(counts: &[u32; MOST_SERIES]) -> usize
    ensures { result ≡ sum counts.now }
{
    let mut total: usize = 0;
    for count in counts {
        total += *count as usize;
    }
    total
}

// Plain input `index`, where it stands.
fn plain_head(plain: &[Plain], index: usize) -> Option<Entry>
    ensures { result ≡ slice_get (map plain_entry plain.now) index }
{
    match plain.get(index) {
        Some(plain) => Some(Entry {
            cycle: plain.cycle,
            line: plain.line,
            number: 0,
            input: plain.input,
            series: None,
        }),
        None => None,
    }
}

// The plain input before number `index`, where it stands.
fn plain_before(plain: &[Plain], index: usize) -> Option<Entry>
    ensures { result ≡ entry_before (map plain_entry plain.now) index }
{
    if index == 0 {
        None
    } else {
        plain_head(plain, index - 1)
    }
}

// Whether nothing is counted from a number on.
fn none_from(counts: &[u32; MOST_SERIES], from: usize) -> bool
    ensures { result ≡ true → (j : ℕ) → from ≤ j → slice_index counts.now j ≡ 0 }
{
    for index in from..MOST_SERIES {
        if counts[index] != 0 {
            return false;
        }
    }
    true
}

/// What a look at some of the sources tells: the first of their entries that were not taken, the last of those that
/// were, and whether of each source as many stand as were taken.
#[derive(Clone, Copy, Drop)]
struct Looked {
    next: Option<Entry>,
    last: Option<Entry>,
    stand: bool,
}

impl Looked {
    // What a look at one source more tells, of which so many were taken.
    fn with(self, number: usize, last: Option<Entry>, next: Option<Entry>) -> Looked
        ensures next { result.next ≡ earlier self.next next }
        ensures last { result.last ≡ later self.last last }
        ensures stand { result.stand ≡ (self.stand && stands number last) }
    {
        Looked {
            next: earlier(self.next, next),
            last: later(self.last, last),
            stand: self.stand && (number == 0 || last.is_some()),
        }
    }
}

// Looks at each source once.
fn look(
    plain: &[Plain],
    sources: &mut [SeriesCursor],
    taken: usize,
    counts: &[u32; MOST_SERIES],
) -> Looked
    requires { length sources.old ≤ 16 }
    ensures same { sources.new ≡ sources.old }
    ensures next { IsLeast (head plain.now sources.old taken counts.now) result.next }
    ensures last { result.stand ≡ true → AreEnded plain.now sources.old taken counts.now result.last }
{
    let total = total(counts);
    let number = taken.saturating_sub(total);
    let known = total <= taken && none_from(counts, sources.len());
    let none = Looked {
        next: None,
        last: None,
        stand: known,
    };
    let mut looked = none.with(
        number,
        plain_before(plain, number),
        plain_head(plain, number),
    );
    for index in 0..sources.len() {
        let (last, next) = sources[index].look(index, counts[index]);
        looked = looked.with(counts[index] as usize, last, next);
    }
    looked
}

// The next entry for a machine whose counts fit; and whether they are known to: all that it took is before that entry.
pub(crate) fn next_of(
    plain: &[Plain],
    sources: &mut [SeriesCursor],
    taken: usize,
    counts: &[u32; MOST_SERIES],
) -> (Option<Entry>, bool)
    requires few { length sources.old ≤ 16 }
    requires sources { AreSources plain.now sources.old }
    ensures same { sources.new ≡ sources.old }
    ensures entry { CountsTaken (merged plain.now sources.old) taken counts.now
        → slice_get (merged plain.now sources.old) taken ≡ result.0 }
    ensures series { IfSome result.0 (λ e. IfSome e.series (λ j. j < 16)) }
    ensures fits { result.1 ≡ true → CountsTaken (merged plain.now sources.old) taken counts.now }
{
    let looked = look(plain, sources, taken, counts);
    let known = looked.stand && passes(&looked.last, &looked.next);
    (looked.next, known)
}

// The next entry for a machine whose counts fit, by a look at each source that keeps nothing.
pub(crate) fn next_at(
    plain: &[Plain],
    sources: &[SeriesCursor],
    taken: usize,
    counts: &[u32; MOST_SERIES],
) -> Option<Entry>
    requires few { length sources.now ≤ 16 }
    requires sources { AreSources plain.now sources.now }
    ensures { CountsTaken (merged plain.now sources.now) taken counts.now
        → slice_get (merged plain.now sources.now) taken ≡ result }
{
    let number = taken.saturating_sub(total(counts));
    let mut next = plain_head(plain, number);
    for index in 0..sources.len() {
        next = earlier(next, sources[index].entry(index, counts[index]));
    }
    next
}
