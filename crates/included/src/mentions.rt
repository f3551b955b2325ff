//! Words that name lines of a source of several files.

ghost use Rattle.std.specs.Prelude.{◌≡◌, ◌==◌, ◌++◌, ◌∷◌, ◌<◌, [], codes, length, MatchOption, IfSome, OnOk};
ghost use Rattle.std.specs.List.{slice_split};
ghost use Rattle.agc_text.specs.Bytes.{space};
ghost use Rattle.included.specs.Located.{located_words, tells_line, word_text};

use crate::joined::Joined;
use crate::numbers::place_before;
use crate::paths::line_path;
use agc_text::length_before_byte;
use std::alloc::AllocError;

/// Appends a text in which `line` and a number name a line, with the path of that for the number.
pub(crate) fn push_located(
    out: &mut Vec<u8>,
    path: &[u8],
    joined: &Joined,
    text: &[u8],
) -> Result<(), AllocError>
    ensures { OnOk result (out.new.items ≡ out.old.items ++ located_words path.now joined.now text.now) }
{
    let mut told = false;
    let mut rest = text;
    while let Some((word, following)) = split_word(rest) {
        push_spaced(out, path, joined, told, word)?;
        told = tells_line(word);
        rest = following;
    }
    push_word(out, path, joined, told, rest)
}

/// The word before the first blank, and what follows that.
#[tactic(auto, using(crate::proofs::Turns::split_first, crate::proofs::Turns::split_none))]
fn split_word(text: &[u8]) -> Option<(&[u8], &[u8])>
    ensures words { MatchOption result
        (slice_split (λ byte. byte == space) text.now ≡ text.now ∷ [])
        (λ r. slice_split (λ byte. byte == space) text.now ≡ r.0.now ∷ slice_split (λ byte. byte == space) r.1.now) }
    ensures shorter { IfSome result (λ r. length r.1.now < length text.now) }
{
    let end = length_before_byte(text, b' ');
    if end < text.len() {
        Some((&text[..end], &text[end + 1..]))
    } else {
        None
    }
}

/// Whether the word behind one is the number of a line.
fn tells_line(word: &[u8]) -> bool
    ensures { result ≡ tells_line word.now }
{
    word == b"line".as_slice() || word.ends_with(b"\"line")
}

/// Appends a word and a blank.
fn push_spaced(
    out: &mut Vec<u8>,
    path: &[u8],
    joined: &Joined,
    told: bool,
    word: &[u8],
) -> Result<(), AllocError>
    ensures { OnOk result (out.new.items
        ≡ out.old.items ++ (word_text path.now joined.now told word.now ++ codes " ")) }
{
    push_word(out, path, joined, told, word)?;
    out.push(b' ')?;
    Ok(())
}

/// Appends a word, which may be the number of a line.
fn push_word(
    out: &mut Vec<u8>,
    path: &[u8],
    joined: &Joined,
    told: bool,
    word: &[u8],
) -> Result<(), AllocError>
    ensures { OnOk result (out.new.items ≡ out.old.items ++ word_text path.now joined.now told word.now) }
{
    if !told {
        return out.extend_from_slice(word);
    }
    match place_before(joined, b',', word) {
        Some((place, rest)) => {
            let line = line_path(*out.allocator(), path, joined, place)?;
            out.extend_from_slice(&line)?;
            out.extend_from_slice(rest)
        }
        None => out.extend_from_slice(word),
    }
}
