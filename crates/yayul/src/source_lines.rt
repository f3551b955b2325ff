//! The lines of a source, each read once.

ghost use Rattle.std.specs.Prelude.{◌≡◌, ◌==◌, ◌+◌, ◌<◌, ◌≤◌, ◌∷◌, [], length, map, IfOk, IfSome, MatchOption};
ghost use Rattle.std.specs.List.{position_or_len};
ghost use Rattle.std.specs.Simd.Lanes.{mask_l};
ghost use Rattle.agc_text.specs.Bytes.{line_feed};
ghost use Rattle.agc_text.specs.Lines.{lines};
ghost use Rattle.yayul.specs.Flight.{most_lines};
ghost use Rattle.yayul.specs.Program.{Source};
ghost use Rattle.yayul.specs.ReadLines.{lines_of};

use crate::flight::most_lines;
use crate::language::Language;
use crate::read_line::ReadLine;
use agc_text::length_before_byte;
use std::alloc::{AllocError, Global};
use std::marker::Model;
use std::simd::prelude::*;

/// How many bytes are tested for a line feed at once.
const TESTED: usize = 16;

/// A source of a language, whose lines are read once: as many as it may have, and one.
#[derive(Drop)]
pub struct SourceLines<'a> {
    language: Language,
    text: &'a [u8],
    lines: Vec<ReadLine<'a>>,
}

impl<'a> Model for SourceLines<'a> {
    ghost use Rattle.std.specs.Prelude.{◌≡◌};
    ghost use Rattle.yayul.specs.Program.{Source};
    ghost use Rattle.yayul.specs.ReadLines.{lines_of};
    ghost use Rattle.yayul.specs.Inside.Representation.{source_code};

    ghost Value = { Source };

    ghost coded = { source_code };

    ghost view = { λ s. record { language = s.language; text = s.text.now } };

    ghost invariant = { λ s. s.lines.items ≡ lines_of (record { language = s.language; text = s.text.now }) };
}

impl<'a> SourceLines<'a> {
    /// Reads the lines of a source. An `Err` is that memory ran out.
    pub fn read(
        alloc: Global,
        language: Language,
        source: &'a [u8],
    ) -> Result<SourceLines<'a>, AllocError>
        ensures { IfOk result (λ lines. lines ≡ record { language = language; text = source.now }) }
    {
        let lines = read_lines(alloc, language, source)?;
        Ok(SourceLines {
            language,
            text: source,
            lines,
        })
    }

    /// The language.
    pub fn language(&self) -> Language
        ensures { result ≡ self.now.language }
    {
        self.language
    }

    /// The source.
    pub fn text(&self) -> &'a [u8]
        ensures { result.now ≡ self.now.text }
    {
        self.text
    }

    /// The lines, in order.
    pub fn lines(&self) -> &[ReadLine<'a>]
        ensures lines { result.now ≡ lines_of self.now }
        ensures few { length result.now ≤ most_lines self.now.language + 1 }
    {
        &self.lines
    }
}

// The lines of a source that are looked at.
fn read_lines(
    alloc: Global,
    language: Language,
    source: &[u8],
) -> Result<Vec<ReadLine<'_>>, AllocError>
    ensures { IfOk result (λ lines. lines.items ≡ lines_of (record { language = language; text = source.now })) }
{
    let mut lines = Vec::new(alloc);
    let mut rest = source;
    for _ in 0..most_lines(language) + 1 {
        let Some((text, after)) = line_and_rest(rest) else {
            return Ok(lines);
        };
        lines.push(ReadLine::of(language, text))?;
        rest = after;
    }
    Ok(lines)
}

// The first line of a text, without its line feed, and what follows it, as `next_line` tells them.
fn line_and_rest(text: &[u8]) -> Option<(&[u8], &[u8])>
    ensures lines { MatchOption result (lines text.now ≡ []) (λ r. lines text.now ≡ r.0.now ∷ lines r.1.now) }
    ensures shorter { IfSome result (λ r. length r.1.now < length text.now) }
{
    if text.is_empty() {
        return None;
    }
    let end = length_before_feed(text);
    if end < text.len() {
        Some((&text[..end], &text[end + 1..]))
    } else {
        Some((text, &[]))
    }
}

// How many bytes stand before the first line feed: all, where none stands.
fn length_before_feed(text: &[u8]) -> usize
    ensures value { result ≡ position_or_len (λ byte. byte == line_feed) text.now }
    ensures within { result ≤ length text.now }
{
    let mut start = 0;
    while text.len() - start >= TESTED {
        let feeds = feeds_in(u8x16::from_slice(&text[start..]));
        if feeds != 0 {
            return start + feeds.trailing_zeros() as usize;
        }
        start += TESTED;
    }
    start + length_before_byte(&text[start..], b'\n')
}

// Which of some bytes are line feeds, the first by the lowest bit.
#[inline(always)]
fn feeds_in(bytes: u8x16) -> u64
    ensures { result ≡ mask_l (map (λ byte. byte == line_feed) bytes) }
{
    bytes.simd_eq(u8x16::splat(b'\n')).to_bitmask()
}
