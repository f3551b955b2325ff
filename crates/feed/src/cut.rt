//! The order of entries.

ghost use Rattle.std.specs.Prelude.{◌≡◌};
ghost use Rattle.feed.specs.Merged.{is_before};
ghost use Rattle.feed.specs.Heads.{earlier, later, passes};

use crate::entry::Entry;

// Whether an entry stands before another.
#[tactic(auto, unfolding(crate::specs::Merged::is_before))]
fn is_before(entry: &Entry, other: &Entry) -> bool
    ensures { result ≡ is_before entry.now other.now }
{
    entry.cycle < other.cycle
        || (entry.cycle == other.cycle
            && (entry.line < other.line
                || (entry.line == other.line && entry.number < other.number)))
}

// The earlier of two entries that may stand.
pub(crate) fn earlier(entry: Option<Entry>, other: Option<Entry>) -> Option<Entry>
    ensures { result ≡ earlier entry other }
{
    match (entry, other) {
        (None, other) => other,
        (Some(entry), None) => Some(entry),
        (Some(entry), Some(other)) => {
            if is_before(&other, &entry) {
                Some(other)
            } else {
                Some(entry)
            }
        }
    }
}

// The later of two entries that may stand.
pub(crate) fn later(entry: Option<Entry>, other: Option<Entry>) -> Option<Entry>
    ensures { result ≡ later entry other }
{
    match (entry, other) {
        (None, other) => other,
        (Some(entry), None) => Some(entry),
        (Some(entry), Some(other)) => {
            if is_before(&entry, &other) {
                Some(other)
            } else {
                Some(entry)
            }
        }
    }
}

// Whether an entry is before another, where both stand.
pub(crate) fn passes(last: &Option<Entry>, next: &Option<Entry>) -> bool
    ensures { result ≡ passes last.now next.now }
{
    match (*last, *next) {
        (None, _) => true,
        (Some(_), None) => true,
        (Some(last), Some(next)) => is_before(&last, &next),
    }
}
