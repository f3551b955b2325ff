//! The numbers of lines in a text that is told of a source.

ghost use Rattle.std.specs.Prelude.{◌≡◌, ◌+◌, ◌≤◌, length, IfSome};
ghost use Rattle.std.specs.List.{position_or_len};
ghost use Rattle.std.specs.Option.{option_map};
ghost use Rattle.included.specs.Located.{after_front, after_spaces, begins, is_no_space, line_after};
ghost use Rattle.included.specs.Located.{mark_at, place_before, row_after};

use crate::joined::Joined;
use crate::place::Place;
use agc_text::{decimal, length_before_byte};

/// The most digits of a number of a line.
const DIGITS: usize = 15;

/// What follows some bytes that stand first in a text, where they do.
pub(crate) fn after_front<'a>(front: &[u8], text: &'a [u8]) -> Option<&'a [u8]>
    ensures value { option_map (λ rest. rest.now) result ≡ after_front front.now text.now }
    ensures within { IfSome result (λ rest. length rest.now + length front.now ≡ length text.now) }
{
    text.strip_prefix(front)
}

/// Whether some bytes stand first in a text.
pub(crate) fn begins(front: &[u8], text: &[u8]) -> bool
    ensures { result ≡ begins front.now text.now }
{
    after_front(front, text).is_some()
}

/// What follows the blanks at the front of a text.
fn after_spaces(text: &[u8]) -> &[u8]
    ensures { result.now ≡ after_spaces text.now }
{
    &text[spaces_before(text)..]
}

/// How many blanks stand at the front of a text.
fn spaces_before(text: &[u8]) -> usize
    ensures value { result ≡ position_or_len is_no_space text.now }
    ensures within { result ≤ length text.now }
{
    for (n, byte) in text.iter().enumerate() {
        if is_no_space(*byte) {
            return n;
        }
    }
    text.len()
}

/// Whether a byte is no blank.
fn is_no_space(byte: u8) -> bool
    ensures { result ≡ is_no_space byte }
{
    byte != b' '
}

/// The line whose number ends before a sign, or at the end of a text, and what follows the number.
pub(crate) fn place_before<'a>(
    joined: &Joined,
    sign: u8,
    text: &'a [u8],
) -> Option<(Place, &'a [u8])>
    ensures { option_map (λ p. (p.0, p.1.now)) result ≡ place_before joined.now sign text.now }
{
    let end = length_before_byte(text, sign);
    let number = decimal(&text[..end], DIGITS)?;
    match joined.place_of(number) {
        Some(place) => Some((place, &text[end..])),
        None => None,
    }
}

/// The line of a row, whose number follows some bytes and blanks, and what follows the number.
pub(crate) fn row_after<'a>(
    joined: &Joined,
    front: &[u8],
    row: &'a [u8],
) -> Option<(Place, &'a [u8])>
    ensures { option_map (λ p. (p.0, p.1.now)) result ≡ row_after joined.now front.now row.now }
{
    let text = after_front(front, row)?;
    place_before(joined, b' ', after_spaces(text))
}

/// What stands before some bytes, the line whose number follows them, up to a comma, and what follows the number.
pub(crate) fn line_after<'a>(
    joined: &Joined,
    mark: &[u8],
    text: &'a [u8],
) -> Option<(&'a [u8], Place, &'a [u8])>
    ensures { option_map (λ t. (t.0.now, t.1, t.2.now)) result ≡ line_after joined.now mark.now text.now }
{
    let before = mark_at(mark, text)?;
    match place_before(joined, b',', &text[before + mark.len()..]) {
        Some((place, rest)) => Some((&text[..before], place, rest)),
        None => None,
    }
}

/// Where some bytes first stand in a text.
#[tactic(auto, using(crate::proofs::Turns::mark_steps))]
fn mark_at(mark: &[u8], text: &[u8]) -> Option<usize>
    ensures place { result ≡ mark_at mark.now text.now 0 }
    ensures within { IfSome result (λ n. n + length mark.now ≤ length text.now) }
{
    for n in 0..text.len() {
        if begins(mark, &text[n..]) {
            return Some(n);
        }
    }
    None
}
