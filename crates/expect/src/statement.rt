//! The statements of a text.

ghost use Rattle.std.specs.Prelude.{◌≡◌, ◌∷◌, [], ◌+◌, ◌≤◌, ◌<◌, ◌^◌, length, IfSome, MatchOption};
ghost use Rattle.agc_text.specs.Fields.{runs, texts};
ghost use Rattle.agc_text.specs.Lines.{lines};
ghost use Rattle.expect.specs.Statements.{before_return, has_field, statements};

use agc_text::{before_comment, next_line, split_field};

/// A line with a field.
#[derive(Clone, Copy, Drop)]
pub(crate) struct Statement<'a> {
    /// Its number, from 1 on.
    pub(crate) line: u64,
    /// Its fields.
    pub(crate) fields: &'a [u8],
    /// What follows it.
    pub(crate) rest: &'a [u8],
}

/// The first line with a field of a text, before which so many lines stand.
pub(crate) fn next_statement(text: &[u8], before: u64) -> Option<Statement<'_>>
    requires { before + length text.now ≤ 2 ^ 32 }
    ensures statements { MatchOption result
        (statements before (lines text.now) ≡ [])
        (λ s. statements before (lines text.now)
        ≡ record { line = s.line; fields = texts (runs s.fields.now) } ∷ statements s.line (lines s.rest.now)) }
    ensures shorter { IfSome result (λ s. s.line + length s.rest.now ≤ before + length text.now) }
    ensures later { IfSome result (λ s. before < s.line) }
    ensures less { IfSome result (λ s. length s.rest.now < length text.now) }
{
    let mut rest = text;
    let mut number = before;
    while let Some((line, following)) = next_line(rest) {
        rest = following;
        number += 1;
        let bare = before_return(line);
        let fields = before_comment(bare);
        if has_field(fields) {
            return Some(Statement {
                line: number,
                fields,
                rest,
            });
        }
    }
    None
}

/// The byte that ends a line before its line feed, as some editors write it.
const CARRIAGE_RETURN: u8 = 0o15;

/// A line without that byte.
fn before_return(line: &[u8]) -> &[u8]
    ensures { result.now ≡ before_return line.now }
{
    let length = line.len();
    if length > 0 && line[length - 1] == CARRIAGE_RETURN {
        &line[..length - 1]
    } else {
        line
    }
}

/// Whether a text has a field.
pub(crate) fn has_field(text: &[u8]) -> bool
    ensures { result ≡ has_field (texts (runs text.now)) }
{
    match split_field(text) {
        Some(_) => true,
        None => false,
    }
}
