//! Strings of JSON.

ghost use Rattle.std.specs.Prelude.{◌≡◌, ℕ, List, Option, ◌+◌, ◌*◌, ◌<◌, ◌≤◌, ◌++◌, length, true, IfSome};
ghost use Rattle.std.specs.Option.{option_map};
ghost use Rattle.arrayvec.specs.ArrayVec.{array_vec_len};
ghost use Rattle.words.specs.Devices.{Writes, failures_after};
ghost use Rattle.json_text.specs.Strings.{escaped, escaped_byte, hex_digit, json_string, string_or_null};

use arrayvec::ArrayVec;
use words::{Write, WriteFailed, push_all, write_all};

/// The most bytes that stand for one.
const ESCAPED: usize = 6;

/// Appends a text as a string.
pub fn push_json_string<const N: usize>(line: &mut ArrayVec<u8, N>, text: &[u8])
    requires { array_vec_len line.old + (6 * length text.now + 2) ≤ N }
    ensures items { line.new.items ≡ line.old.items ++ json_string text.now }
    ensures short { array_vec_len line.new ≤ array_vec_len line.old + (6 * length text.now + 2) }
{
    push_all(line, b"\"");
    push_escaped(line, text);
    push_all(line, b"\"");
}

/// Appends a text as a string, or `null`.
pub fn push_string_or_null<const N: usize>(line: &mut ArrayVec<u8, N>, text: Option<&[u8]>)
    requires room { array_vec_len line.old + 54 ≤ N }
    requires short { IfSome text (λ text. length text.now ≤ 8) }
    ensures items { line.new.items ≡ line.old.items ++ string_or_null (option_map (λ text. text.now) text.entry) }
    ensures short { array_vec_len line.new ≤ array_vec_len line.old + 54 }
{
    match text {
        Some(text) => push_json_string(line, text),
        None => push_all(line, b"null"),
    }
}

/// Writes a text as a string.
///
/// After a failure a beginning of it was written.
pub fn write_json_string<W: Write>(text: &[u8], out: &mut W) -> Result<(), WriteFailed>
    ensures written { W.told ≡ true → Writes (W.written out.old) (W.written out.new) (json_string text.now) result }
    ensures failures { W.failures out.new ≡ failures_after (W.failures out.old) result }
{
    write_all(out, b"\"")?;
    write_escaped(text, out)?;
    write_all(out, b"\"")
}

/// Writes a text as a string, or `null`.
///
/// After a failure a beginning of it was written.
pub fn write_string_or_null<W: Write>(text: Option<&[u8]>, out: &mut W) -> Result<(), WriteFailed>
    ensures written { W.told ≡ true → Writes (W.written out.old) (W.written out.new)
        (string_or_null (option_map (λ text. text.now) text.entry)) result }
    ensures failures { W.failures out.new ≡ failures_after (W.failures out.old) result }
{
    match text {
        Some(text) => write_json_string(text, out),
        None => write_all(out, b"null"),
    }
}

/// Appends what stands within quotes for a text.
fn push_escaped<const N: usize>(line: &mut ArrayVec<u8, N>, text: &[u8])
    requires { array_vec_len line.old + 6 * length text.now ≤ N }
    ensures items { line.new.items ≡ line.old.items ++ escaped text.now }
    ensures short { array_vec_len line.new ≤ array_vec_len line.old + 6 * length text.now }
{
    for byte in text {
        push_all(line, escaped_byte(*byte).as_slice());
    }
}

/// Writes what stands within quotes for a text.
fn write_escaped<W: Write>(text: &[u8], out: &mut W) -> Result<(), WriteFailed>
    ensures written { W.told ≡ true → Writes (W.written out.old) (W.written out.new) (escaped text.now) result }
    ensures failures { W.failures out.new ≡ failures_after (W.failures out.old) result }
{
    for byte in text {
        write_all(out, escaped_byte(*byte).as_slice())?;
    }
    Ok(())
}

/// What stands within quotes for a byte.
#[tactic(auto, unfolding(crate::specs::Strings::escaped_byte))]
fn escaped_byte(byte: u8) -> ArrayVec<u8, ESCAPED>
    ensures items { result.items ≡ escaped_byte byte }
    ensures short { array_vec_len result ≤ 6 }
{
    let mut text = ArrayVec::new();
    if byte == b'"' || byte == b'\\' {
        text.push(b'\\');
        text.push(byte);
    } else if byte < 0o40 || byte > 0o176 {
        push_all(&mut text, b"\\u00");
        text.push(hex_digit(byte / 16));
        text.push(hex_digit(byte % 16));
    } else {
        text.push(byte);
    }
    text
}

/// The digit of a number.
fn hex_digit(number: u8) -> u8
    requires { number < 16 }
    ensures { result ≡ hex_digit number }
{
    if number < 10 {
        b'0' + number
    } else {
        b'a' - 10 + number
    }
}
