//! Operators' names that are near to a text.

ghost use Rattle.std.specs.Prelude.{◌≡◌};
ghost use Rattle.std.specs.Option.{option_map};
ghost use Rattle.yayul.specs.Roles.{names_of_length};
ghost use Rattle.near_names.specs.Names.{near_name};
ghost use Rattle.diagnostics.specs.Causes.{near_operator};

use near_names::near_in;
use yayul::operator_names;

/// The operator's name that is near to a text: one as long, else one longer, else one shorter.
pub(crate) fn near_operator(text: &[u8]) -> Option<&'static [u8]>
    ensures { option_map (λ name. name.now) result ≡ near_operator text.now }
{
    match near_of_length(text.len(), text) {
        Some(name) => Some(name),
        None => match near_of_length(text.len() + 1, text) {
            Some(name) => Some(name),
            None => near_of_length(text.len().saturating_sub(1), text),
        },
    }
}

// The one that has so many characters.
fn near_of_length(count: usize, text: &[u8]) -> Option<&'static [u8]>
    ensures { option_map (λ name. name.now) result ≡ near_name (names_of_length count) text.now }
{
    let names = operator_names(count);
    near_in(names.as_slice(), text)
}
