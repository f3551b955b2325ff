//! Which lines of a flight source are of the interpretive language.

ghost use Rattle.std.specs.Prelude.{◌≡◌, ◌==◌, length, not, true};
ghost use Rattle.std.specs.Option.{option_map, option_map_or};
ghost use Rattle.agc_text.specs.Fields.{fields};
ghost use Rattle.agc_text.specs.Views.{piece};
ghost use Rattle.yayul.specs.Readings.{parts_in};
ghost use Rattle.holes.specs.HoleLines.{before_last_two, inside_after, is_count_alone, is_hole, is_indexed};
ghost use Rattle.holes.specs.HoleLines.{is_offset, is_operand, last_two};

use agc_text::{Field, before_comment, split_field};
use diagnostics::{has_interpretive_operator, is_exit};
use warnings::is_instruction;
use yayul::{Reading, is_count};

/// How many bytes an index register takes.
const INDEX: usize = 2;

/// Whether a line is of the interpretive language, among its lines or not.
pub(crate) fn is_hole(inside: bool, text: &[u8], parts: &Reading<'_>) -> bool
    ensures { result ≡ is_hole inside text.now (parts_in parts.now) }
{
    has_interpretive_operator(parts)
        || (inside && (is_operand(parts) || is_count_alone(text, parts)))
}

/// Whether what follows a line stands among lines of the interpretive language.
pub(crate) fn inside_after(inside: bool, text: &[u8], parts: &Reading<'_>) -> bool
    ensures { result ≡ inside_after inside text.now (parts_in parts.now) }
{
    if has_interpretive_operator(parts) {
        !is_exit(parts)
    } else if is_hole(inside, text, parts) {
        true
    } else {
        inside && !is_instruction(parts)
    }
}

// Whether an operand of the interpretive language may stand on a line.
fn is_operand(parts: &Reading<'_>) -> bool
    ensures { result ≡ is_operand (parts_in parts.now) }
{
    parts.operator.is_some()
        && parts.role.is_none()
        && is_offset_or_none(parts.operand)
        && parts.offset.is_none()
}

// Whether a count stands on a line, and nothing else.
fn is_count_alone(text: &[u8], parts: &Reading<'_>) -> bool
    ensures { result ≡ is_count_alone text.now (parts_in parts.now) }
{
    has_field(text) && parts.label.is_none() && parts.operator.is_none()
}

// Whether a line has a field.
fn has_field(text: &[u8]) -> bool
    ensures { result ≡ not (length (fields text.now) == 0) }
{
    split_field(before_comment(text)).is_some()
}

// Whether a field is a count, which an index register may follow, or does not stand.
fn is_offset_or_none(field: Option<Field<'_>>) -> bool
    ensures { result ≡ option_map_or (λ p. is_offset p.text) (option_map piece field.entry) true }
{
    match field {
        Some(field) => is_offset(field.text),
        None => true,
    }
}

// Whether a text is a count, which an index register may follow.
fn is_offset(text: &[u8]) -> bool
    ensures { result ≡ is_offset text.now }
{
    is_count(text) || (is_indexed(text) && is_count(before_last_two(text)))
}

// Whether a text ends in an index register.
fn is_indexed(text: &[u8]) -> bool
    ensures { result ≡ is_indexed text.now }
{
    let end = last_two(text);
    end == b",1".as_slice() || end == b",2".as_slice()
}

fn last_two(text: &[u8]) -> &[u8]
    ensures { result.now ≡ last_two text.now }
{
    &text[text.len().saturating_sub(INDEX)..]
}

fn before_last_two(text: &[u8]) -> &[u8]
    ensures { result.now ≡ before_last_two text.now }
{
    &text[..text.len().saturating_sub(INDEX)]
}
