//! Which arguments go together.

ghost use Rattle.std.specs.Prelude.{◌≡◌};
ghost use Rattle.std.specs.Option.{option_map};
ghost use Rattle.command_line.specs.Reading.{given_of};
ghost use Rattle.command_line.specs.Rules.{has_conflict, excludes, first_conflict, is_missing, lacks, lacks_required};
ghost use Rattle.command_line.specs.Rules.{lacks_needed};

use crate::reader::Given;
use crate::reading::is_given;
use crate::row::Row;
use crate::values::is_among;

/// The row of the first argument that does not go together with another one.
pub(crate) fn first_conflict(given: &[Given<'_>]) -> Option<&'static Row>
    ensures { option_map (λ row. row.now) result ≡ first_conflict (given_of given.now) }
{
    for it in given {
        if has_conflict(given, it.row) {
            return Some(it.row);
        }
    }
    None
}

fn has_conflict(given: &[Given<'_>], row: &Row) -> bool
    ensures { result ≡ has_conflict (given_of given.now) row.now }
{
    for it in given {
        if excludes(row, it.row) {
            return true;
        }
    }
    false
}

/// Whether two arguments do not go together.
pub(crate) fn excludes(one: &Row, other: &Row) -> bool
    ensures { result ≡ excludes one.now other.now }
{
    is_among(one.conflicts, other.name) || is_among(other.conflicts, one.name)
}

/// Whether an argument is missing.
pub(crate) fn is_missing(rows: &[Row], given: &[Given<'_>]) -> bool
    ensures { result ≡ is_missing rows.now (given_of given.now) }
{
    lacks_required(rows, given) || lacks_needed(given)
}

// Whether an argument is missing that has to be given.
fn lacks_required(rows: &[Row], given: &[Given<'_>]) -> bool
    ensures { result ≡ lacks_required rows.now (given_of given.now) }
{
    for row in rows {
        if row.is_required && !is_given(given, row.name) {
            return true;
        }
    }
    false
}

// Whether an argument is missing that one of those given needs.
fn lacks_needed(given: &[Given<'_>]) -> bool
    ensures { result ≡ lacks_needed (given_of given.now) }
{
    for it in given {
        if lacks(given, it.row) {
            return true;
        }
    }
    false
}

fn lacks(given: &[Given<'_>], row: &Row) -> bool
    ensures { result ≡ lacks (given_of given.now) row.now }
{
    for name in row.needs {
        if !is_given(given, name) {
            return true;
        }
    }
    false
}
