//! Lines of a source by their numbers: as they were read, or beyond those that were.

ghost use Rattle.std.specs.Prelude.{◌≡◌, [], drop, length, slice_get, unwrap_or};
ghost use Rattle.agc_text.specs.Lines.{lines};
ghost use Rattle.yayul.specs.ReadLines.{lines_of};
ghost use Rattle.yayul.specs.Readings.{parts_for, parts_in};
ghost use Rattle.diagnostics.specs.Shown.{text_at};
ghost use Rattle.diagnostics.specs.Objects.{place_of};
ghost use Rattle.diagnostics.specs.Views.{place_in};

use crate::objects::{Place, front_span};
use agc_text::next_line;
use yayul::{Reading, SourceLines, reading_of};

/// The line of a number, and its fields; one that does not stand is empty.
#[tactic(auto, using(crate::proofs::ReadTexts::read_text, crate::proofs::ReadTexts::read_parts))]
pub(crate) fn line_at<'a>(source: &SourceLines<'a>, line: u64) -> (&'a [u8], Reading<'a>)
    ensures text { result.0.now ≡ text_at (lines source.now.text) line }
    ensures parts { parts_in result.1 ≡ parts_for source.now.language (text_at (lines source.now.text) line) }
{
    let index = (line as usize).saturating_sub(1);
    match source.lines().get(index) {
        Some(line) => (line.text(), line.reading()),
        None => {
            let text = line_after(source.text(), index);
            (text, reading_of(source.language(), text))
        }
    }
}

/// The label of a line of a source, or its operator.
pub(crate) fn place_on<'a>(source: &SourceLines<'a>, line: u64) -> Place<'a>
    ensures { place_in result ≡ place_of source.now.language (lines source.now.text) line }
{
    let (text, parts) = line_at(source, line);
    Place {
        line,
        text,
        span: front_span(&parts),
    }
}

/// What follows the lines of a source that were read.
pub(crate) fn beyond<'a>(source: &SourceLines<'a>) -> &'a [u8]
    ensures { lines result.now ≡ drop (length (lines_of source.now)) (lines source.now.text) }
{
    text_beyond(source.text(), source.lines().len())
}

// The line of a text that stands after so many; one that does not stand is empty.
fn line_after(text: &[u8], count: usize) -> &[u8]
    ensures { result.now ≡ unwrap_or (slice_get (lines text.now) count) [] }
{
    match next_line(text_beyond(text, count)) {
        Some((line, _)) => line,
        None => &[],
    }
}

/// What follows so many lines of a text.
pub(crate) fn text_beyond(text: &[u8], count: usize) -> &[u8]
    ensures { lines result.now ≡ drop count (lines text.now) }
{
    let mut rest = text;
    for _ in 0..count {
        let Some((_, after)) = next_line(rest) else {
            return rest;
        };
        rest = after;
    }
    rest
}
