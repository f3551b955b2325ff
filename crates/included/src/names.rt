//! The names of files that lines stand for.

ghost use Rattle.std.specs.Prelude.{◌≡◌};
ghost use Rattle.std.specs.Option.{option_map};
ghost use Rattle.included.specs.Included.{after_byte, after_dollar, before_return, doubles_dot};
ghost use Rattle.included.specs.Included.{included_name, is_inside, is_open};
ghost use Rattle.included.specs.Included.{is_rooted};
ghost use Rattle.std.specs.Prelude.{false};

use agc_text::{Line, is_text, next_line};

/// The byte that some editors write before a line feed.
const CARRIAGE_RETURN: u8 = 0o15;

/// A line without a carriage return at its end.
pub(crate) fn before_return(line: &[u8]) -> &[u8]
    ensures { result.now ≡ before_return line.now }
{
    let length = line.len();
    if length > 0 && line[length - 1] == CARRIAGE_RETURN {
        &line[..length - 1]
    } else {
        line
    }
}

/// The name of the file for which a line stands, where it does.
pub(crate) fn included_name(line: &[u8]) -> Option<&[u8]>
    ensures { option_map (λ name. name.now) result ≡ included_name line.now }
{
    match Line::of(line).label {
        Some(field) => after_dollar(field.text),
        None => None,
    }
}

/// What follows a dollar sign that stands first, where something does.
fn after_dollar(text: &[u8]) -> Option<&[u8]>
    ensures { option_map (λ name. name.now) result ≡ after_dollar text.now }
{
    if text.len() > 1 && text[0] == b'$' {
        Some(&text[1..])
    } else {
        None
    }
}

/// Whether a name is that of a file in the folder of the source, or below it.
pub fn is_inside(name: &[u8]) -> bool
    ensures { result ≡ is_inside name.now }
{
    is_text(name) && !is_rooted(name) && !doubles_dot(name)
}

/// Whether a slash stands first.
fn is_rooted(name: &[u8]) -> bool
    ensures { result ≡ is_rooted name.now }
{
    name.len() > 0 && name[0] == b'/'
}

/// Whether two dots stand together.
#[tactic(auto, using(crate::proofs::Steps::dots_steps))]
fn doubles_dot(name: &[u8]) -> bool
    ensures { result ≡ doubles_dot false name.now }
{
    let mut before = false;
    for byte in name {
        let Some(next) = after_byte(before, *byte) else {
            return true;
        };
        before = next;
    }
    false
}

/// Whether a dot stands last, after one more byte; nothing where two stand together.
fn after_byte(before: bool, byte: u8) -> Option<bool>
    ensures { result ≡ after_byte before byte }
{
    let is_dot = byte == b'.';
    if before && is_dot { None } else { Some(is_dot) }
}

/// Whether a name is that of a file which is being read.
pub(crate) fn is_open(around: &[u8], name: &[u8]) -> bool
    ensures { result ≡ is_open around.now name.now }
{
    let mut rest = around;
    while let Some((line, following)) = next_line(rest) {
        if line == name {
            return true;
        }
        rest = following;
    }
    false
}
