//! Whether words are of a loop that no limit bounds.

ghost use Rattle.std.specs.Prelude.{◌≡◌};
ghost use Rattle.bound.specs.Inside.Searches.{all_stay, is_in, is_limited, leads_into, stays_in};

use crate::charge::Limit;
use crate::site::Site;
use crate::turn::{Turn, turn_at};
use rope::Rope;
use space::Addr12;

/// Whether each of some words stands at no place of a limit, and leads to one of them.
pub(crate) fn all_stay(rope: &Rope, kept: &[Addr12], limits: &[Limit], words: &[Site]) -> bool
    ensures { result ≡ all_stay rope.now kept.now limits.now words.now }
{
    words
        .iter()
        .all(|site| stays_in(rope, kept, limits, words, site))
}

/// The same of one word.
fn stays_in(rope: &Rope, kept: &[Addr12], limits: &[Limit], words: &[Site], site: &Site) -> bool
    ensures { result ≡ stays_in rope.now kept.now limits.now words.now site.now }
{
    !is_limited(limits, site) && leads_into(words, &turn_at(rope, kept, site))
}

/// Whether a word stands at the place of a limit.
fn is_limited(limits: &[Limit], site: &Site) -> bool
    ensures { result ≡ is_limited limits.now site.now }
{
    limits.iter().any(|limit| limit.has(site))
}

/// Whether a turn leads to one of some words.
fn leads_into(words: &[Site], turn: &Turn) -> bool
    ensures { result ≡ leads_into words.now turn.now }
{
    match turn {
        Turn::Back(_) => false,
        Turn::Through(_, leg) => is_in(words, &leg.to),
        Turn::One(leg) => is_in(words, &leg.to),
        Turn::Two(one, other) => is_in(words, &one.to) || is_in(words, &other.to),
        Turn::Four(a, b, c, d) => {
            (is_in(words, &a.to) || is_in(words, &b.to))
                || (is_in(words, &c.to) || is_in(words, &d.to))
        }
        Turn::Stop(_) => false,
    }
}

/// Whether a word is among some.
pub(crate) fn is_in(words: &[Site], site: &Site) -> bool
    ensures { result ≡ is_in words.now site.now }
{
    words.iter().any(|word| word.is(site))
}
