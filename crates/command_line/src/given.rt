//! The values of arguments by their names.

ghost use Rattle.std.specs.Prelude.{◌≡◌};
ghost use Rattle.std.specs.List.{slice_get};
ghost use Rattle.std.specs.Option.{option_map};
ghost use Rattle.command_line.specs.Rules.{is_given};
ghost use Rattle.command_line.specs.Reading.{given_of};
ghost use Rattle.command_line.specs.Found.{values_of, text_of, default_of};

use crate::reader::Given;
use crate::reading::is_given;
use crate::row::Row;

/// What the words of a subcommand give.
#[derive(Clone, Copy)]
pub(crate) struct Values<'v, 'a> {
    /// Its rows.
    pub(crate) rows: &'static [Row],
    /// The values that the words give.
    pub(crate) given: &'v [Given<'a>],
}

impl<'v, 'a> Values<'v, 'a> {
    /// Whether an argument is given.
    pub(crate) fn has(&self, name: &str) -> bool
        ensures { result ≡ is_given (given_of self.now.given.now) name.now }
    {
        is_given(self.given, name)
    }

    /// The value of an argument: the first that is given, or else its default.
    pub(crate) fn text(&self, name: &str) -> Option<&'a str>
        ensures { option_map (λ s. s.now) result ≡ text_of self.now.rows.now (given_of self.now.given.now) name.now }
    {
        match self.nth(name, 0) {
            Some(value) => Some(value),
            None => default_of(self.rows, name),
        }
    }

    /// A value of an argument that is given, by how many of it stand before.
    pub(crate) fn nth(&self, name: &str, before: usize) -> Option<&'a str>
        ensures { option_map (λ s. s.now) result
            ≡ slice_get (values_of (given_of self.now.given.now) name.now) before }
    {
        let mut left = before;
        for it in self.given {
            if it.row.name == name {
                if left == 0 {
                    return Some(it.value);
                }
                left -= 1;
            }
        }
        None
    }

    /// The number that the value of an argument is.
    pub(crate) fn number(&self, name: &str) -> Option<u64> {
        self.text(name)?.parse::<u64>().ok()
    }
}

// The default of an argument.
fn default_of(rows: &[Row], name: &str) -> Option<&'static str>
    ensures { option_map (λ s. s.now) result ≡ default_of rows.now name.now }
{
    for row in rows {
        if row.name == name {
            return row.default_value;
        }
    }
    None
}
