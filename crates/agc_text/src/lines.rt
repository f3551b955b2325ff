//! The lines of a text.

ghost use Rattle.std.specs.Prelude.{◌≡◌, ◌∷◌, ◌+◌, ◌<◌, [], drop, length, IfSome, MatchOption};
ghost use Rattle.agc_text.specs.Lines.{lines};

use crate::stretch::{End, length_before};

/// The first line of a text, without its line feed, and what follows it.
///
/// A text without a byte has no line. A line feed ends a line, so nothing follows where it is the last byte.
pub fn next_line(text: &[u8]) -> Option<(&[u8], &[u8])>
    ensures lines { MatchOption result
        (lines text.now ≡ [])
        (λ r. lines text.now ≡ r.0.now ∷ lines r.1.now) }
    ensures rest { IfSome result (λ r. r.1.now ≡ drop (length r.0.now + 1) text.now) }
    ensures shorter { IfSome result (λ r. length r.1.now < length text.now) }
{
    if text.is_empty() {
        return None;
    }
    let end = length_before(text, End::Byte(b'\n'));
    if end < text.len() {
        Some((&text[..end], &text[end + 1..]))
    } else {
        Some((text, &[]))
    }
}
