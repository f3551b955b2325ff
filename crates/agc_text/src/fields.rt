//! The fields of a line.

ghost use Rattle.std.specs.Prelude.{◌≡◌, ℕ, ◌<◌, ◌≤◌, ◌^◌, ◌∷◌, [], nat_le, nat_lt, length, find, slice_get, drop};
ghost use Rattle.std.specs.Prelude.{IfSome, MatchOption, slice_index, true, false};
ghost use Rattle.std.specs.Option.{option_map};
ghost use Rattle.agc_text.specs.Fields.{is_blank, before_comment, is_run_start, run_at, runs, runs_after, texts};
ghost use Rattle.agc_text.specs.Fields.{fields, label_of, others_of};
ghost use Rattle.agc_text.specs.Views.{piece, end_of, runs_from, IsSliceOf, AreSlicesOf};

use crate::stretch::{End, is_blank_byte, length_before};

/// A field of a line: bytes that are no blanks, as many as stand together.
#[derive(Clone, Copy)]
pub struct Field<'a> {
    /// The place of the first byte in the line, counted from 0.
    pub start: usize,
    /// The bytes.
    pub text: &'a [u8],
}

impl Field<'_> {
    // The place after the last byte.
    fn end(&self) -> usize
        requires { end_of self.now < 2 ^ 64 }
        ensures { result ≡ end_of self.now }
    {
        self.start + self.text.len()
    }
}

/// A line of a source taken apart.
#[derive(Clone, Copy)]
pub struct Line<'a> {
    /// The first field, where it begins at the line's first byte.
    pub label: Option<Field<'a>>,
    /// The first field besides the label.
    pub operator: Option<Field<'a>>,
    /// The second.
    pub operand: Option<Field<'a>>,
    /// The third.
    pub offset: Option<Field<'a>>,
    /// Whether a fourth stands.
    pub more: bool,
}

impl<'a> Line<'a> {
    /// Takes a line apart. Fields stand between blanks (spaces and tabs), and only before the first `#`.
    pub fn of(line: &'a [u8]) -> Line<'a>
        ensures label { option_map piece result.label ≡ label_of (fields line.now) }
        ensures operator { option_map piece result.operator ≡ slice_get (others_of (fields line.now)) 0 }
        ensures operand { option_map piece result.operand ≡ slice_get (others_of (fields line.now)) 1 }
        ensures offset { option_map piece result.offset ≡ slice_get (others_of (fields line.now)) 2 }
        ensures slices { AreSlicesOf line.now result }
        ensures more { result.more ≡ nat_lt 3 (length (others_of (fields line.now))) }
    {
        let text = before_comment(line);
        let (label, operator) = label_and_operator(text);
        let operand = following(text, operator);
        let offset = following(text, operand);
        let more = following(text, offset).is_some();
        Line {
            label,
            operator,
            operand,
            offset,
            more,
        }
    }
}

/// The first field of a line that begins at byte `from` or later, of those before the first `#`.
pub fn next_field(line: &[u8], from: usize) -> Option<Field<'_>>
    ensures found { option_map piece result ≡ find (λ f. nat_le from f.start) (fields line.now) }
    ensures slice { IfSome result (IsSliceOf line.now) }
{
    next_run(before_comment(line), from)
}

// The first run, where it begins at the first byte, and the run after it, or else the first.
fn label_and_operator(text: &[u8]) -> (Option<Field<'_>>, Option<Field<'_>>)
    ensures label { option_map piece result.0 ≡ label_of (runs text.now) }
    ensures operator { runs_from text.now result.1 ≡ others_of (runs text.now) }
    ensures label_slice { IfSome result.0 (IsSliceOf text.now) }
    ensures operator_slice { IfSome result.1 (IsSliceOf text.now) }
{
    let first = next_run(text, 0);
    match first {
        Some(label) if label.start == 0 => (first, next_run(text, label.end())),
        _ => (None, first),
    }
}

// The run after a run.
fn following<'a>(text: &'a [u8], field: Option<Field<'a>>) -> Option<Field<'a>>
    requires { IfSome field (IsSliceOf text.now) }
    ensures next { runs_from text.now result ≡ drop 1 (runs_from text.now field.entry) }
    ensures slice { IfSome result (IsSliceOf text.now) }
{
    match field {
        Some(field) => next_run(text, field.end()),
        None => None,
    }
}

/// What stands before the first `#` of a line.
pub fn before_comment(line: &[u8]) -> &[u8]
    ensures { result.now ≡ before_comment line.now }
{
    &line[..length_before(line, End::Byte(b'#'))]
}

/// The first field of a text that has no comment, and what follows it; none where the text has no field.
pub fn split_field(text: &[u8]) -> Option<(&[u8], &[u8])>
    ensures { MatchOption result
        (texts (runs text.now) ≡ [])
        (λ r. texts (runs text.now) ≡ r.0.now ∷ texts (runs r.1.now)) }
{
    let rest = without_blanks(text);
    if rest.is_empty() {
        return None;
    }
    let end = length_before(rest, End::Blank);
    Some((&rest[..end], &rest[end..]))
}

// What follows the blanks at the front.
fn without_blanks(text: &[u8]) -> &[u8]
    ensures runs { texts (runs text.now) ≡ texts (runs result.now) }
    ensures first { 0 < length result.now → is_blank (slice_index result.now 0) ≡ false }
{
    &text[length_before(text, End::NoBlank)..]
}

// The first run that begins at byte `from` or later.
fn next_run(text: &[u8], from: usize) -> Option<Field<'_>>
    ensures first { runs_from text.now result ≡ runs_after text.now from }
    ensures slice { IfSome result (IsSliceOf text.now) }
{
    for start in after_blanks(text, from)..text.len() {
        if begins_run(text, start) {
            return Some(run_from(text, start));
        }
    }
    None
}

// The first place at byte `from` or later at which no blank stands.
fn after_blanks(text: &[u8], from: usize) -> usize
    ensures from { from ≤ result }
    ensures blanks { (k : ℕ) → from ≤ k → k < result → k < length text.now → is_blank (slice_index text.now k) ≡ true }
{
    for place in from..text.len() {
        if !is_blank_byte(text[place]) {
            return place;
        }
    }
    from.max(text.len())
}

fn begins_run(text: &[u8], place: usize) -> bool
    requires { place < length text.now }
    ensures { result ≡ is_run_start text.now place }
{
    !is_blank_byte(text[place]) && (place == 0 || is_blank_byte(text[place - 1]))
}

// The run from the place on, up to the first blank.
fn run_from(text: &[u8], start: usize) -> Field<'_>
    requires { start ≤ length text.now }
    ensures run { piece result ≡ run_at text.now start }
    ensures slice { IsSliceOf text.now result }
{
    let rest = &text[start..];
    let text = &rest[..length_before(rest, End::Blank)];
    Field { start, text }
}
