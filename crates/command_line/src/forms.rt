//! What a word of a call looks like: an option, letters behind a hyphen, or neither.

ghost use Rattle.std.specs.Prelude.{◌≡◌, false};
ghost use Rattle.std.specs.Option.{option_map};
ghost use Rattle.command_line.specs.Forms.{behind_hyphen, option_in, name_and_value, letters_in, is_number, is_digit};
ghost use Rattle.command_line.specs.Forms.{is_more_number};

// What follows a first hyphen.
fn behind_hyphen(word: &str) -> Option<&str>
    ensures { option_map (λ s. s.now) result ≡ behind_hyphen word.now }
{
    word.strip_prefix('-')
}

/// The name of an option, and its value where it stands in the same word: of `--name` or `--name=value`.
pub(crate) fn option_in(word: &str) -> Option<(&str, Option<&str>)>
    ensures { option_map (λ it. (it.0.now, option_map (λ s. s.now) it.1)) result ≡ option_in word.now }
{
    let text = behind_hyphen(behind_hyphen(word)?)?;
    if text.is_empty() {
        return None;
    }
    Some(name_and_value(text))
}

// What stands before the first `=`, and what stands behind it where there is one.
fn name_and_value(text: &str) -> (&str, Option<&str>)
    ensures { (result.0.now, option_map (λ s. s.now) result.1) ≡ name_and_value text.now }
{
    match text.split_once('=') {
        Some((name, value)) => (name, Some(value)),
        None => (text, None),
    }
}

/// The letters of `-abc`; of a hyphen alone, and of two, there are none.
pub(crate) fn letters_in(word: &str) -> Option<&str>
    ensures { option_map (λ s. s.now) result ≡ letters_in word.now }
{
    let letters = behind_hyphen(word)?;
    if letters.is_empty() || behind_hyphen(letters).is_some() {
        None
    } else {
        Some(letters)
    }
}

/// Whether a text is digits, with at most one point and one exponent, as `1.5e3`: with a hyphen before it it is a
/// number below zero.
pub(crate) fn is_number(text: &str) -> bool
    ensures { result ≡ is_number text.now }
{
    match text.as_bytes().split_first() {
        Some((first, more)) => is_digit(*first) && is_more_number(more),
        None => true,
    }
}

fn is_digit(byte: u8) -> bool
    ensures { result ≡ is_digit byte }
{
    b'0' <= byte && byte <= b'9'
}

// Whether more of a number follows a digit.
fn is_more_number(text: &[u8]) -> bool
    ensures { result ≡ is_more_number false false text.now }
{
    let mut has_point = false;
    let mut has_exponent = false;
    for i in 0..text.len() {
        match text[i] {
            b'0'..=b'9' => {}
            b'.' if !has_point && !has_exponent => has_point = true,
            b'e' | b'E' if !has_exponent && i + 1 < text.len() => has_exponent = true,
            _ => return false,
        }
    }
    true
}
