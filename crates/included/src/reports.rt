//! What is told of sources of several files: faults and warnings.

ghost use Rattle.std.specs.Prelude.{◌≡◌, ◌++◌, [], codes, decimal, option_and_then, IfOk, OnOk};
ghost use Rattle.std.specs.Option.{option_map};
ghost use Rattle.included.specs.Located.{after_front, file_member, from_fix, from_related, if_shown, line_members};
ghost use Rattle.included.specs.Located.{located_report, object_text, place_before, report_line, right_in, row_after};
ghost use Rattle.included.specs.Located.{told_text};

use crate::joined::Joined;
use crate::mentions::push_located;
use crate::numbers::{after_front, begins, line_after, place_before, row_after};
use crate::paths::{file_path, line_path, push_number, push_right};
use crate::place::Place;
use agc_text::next_line;
use json_text::write_json_string;
use std::alloc::{AllocError, Global};
use words::Buffer;

/// How many places the number of a line that is shown has.
const NUMBER_WIDTH: usize = 5;

/// What stands behind it.
const BAR: &[u8] = b" |";

/// What stands before the numbers of lines in an object.
const FIX: &[u8] = b"\"fix\":{\"line\":";

const RELATED: &[u8] = b"\"related\":{\"line\":";

/// What is told of a source of several files, by its path: each fault and warning by the path of a file, and the number
/// of a line in it, for the path of the source and the number of a line of the text. An `Err` is that memory ran out.
pub fn located_report(
    alloc: Global,
    path: &[u8],
    joined: &Joined,
    report: &[u8],
) -> Result<Vec<u8>, AllocError>
    ensures { IfOk result (λ text. text.items ≡ located_report path.now joined.now report.now) }
{
    let mut out = Vec::new(alloc);
    let mut rest = report;
    while let Some((line, following)) = next_line(rest) {
        push_line(&mut out, path, joined, line)?;
        rest = following;
    }
    Ok(out)
}

/// Appends a line of a report and a line feed.
fn push_line(out: &mut Vec<u8>, path: &[u8], joined: &Joined, line: &[u8]) -> Result<(), AllocError>
    ensures { OnOk result (out.new.items ≡ out.old.items ++ (report_line path.now joined.now line.now ++ codes "\n")) }
{
    match shown(joined, line) {
        Some((place, rest)) => push_shown(out, place, rest)?,
        None => push_told(out, path, joined, line)?,
    }
    out.push(b'\n')?;
    Ok(())
}

/// The line that is shown behind its number and a bar, where a line of a report shows one, and what follows the number.
fn shown<'a>(joined: &Joined, line: &'a [u8]) -> Option<(Place, &'a [u8])>
    ensures { option_map (λ p. (p.0, p.1.now)) result ≡ if_shown (row_after joined.now [] line.now) }
{
    let (place, rest) = row_after(joined, b"", line)?;
    if begins(BAR, rest) {
        Some((place, rest))
    } else {
        None
    }
}

/// Appends a line that is shown.
fn push_shown(out: &mut Vec<u8>, place: Place, rest: &[u8]) -> Result<(), AllocError>
    ensures { OnOk result (out.new.items ≡ out.old.items ++ (right_in 5 (decimal place.line) ++ rest.now)) }
{
    let mut number = Vec::new(*out.allocator());
    push_number(&mut number, place.line)?;
    push_right(out, NUMBER_WIDTH, &number)?;
    out.extend_from_slice(rest)?;
    Ok(())
}

/// Appends a line that tells what is wrong, after the path of the source and the number of a line, or as an object.
fn push_told(out: &mut Vec<u8>, path: &[u8], joined: &Joined, text: &[u8]) -> Result<(), AllocError>
    ensures { OnOk result (out.new.items ≡ out.old.items ++ told_text path.now joined.now text.now) }
{
    match head(*out.allocator(), path, joined, text)? {
        Some((place, rest)) => {
            let told = line_path(*out.allocator(), path, joined, place)?;
            out.extend_from_slice(&told)?;
            push_located(out, path, joined, rest)
        }
        None => push_object(out, path, joined, text),
    }
}

/// The line of which a text tells after the path of the source, and what follows its number.
fn head<'a>(
    alloc: Global,
    path: &[u8],
    joined: &Joined,
    text: &'a [u8],
) -> Result<Option<(Place, &'a [u8])>, AllocError>
    ensures { IfOk result (λ found. option_map (λ p. (p.0, p.1.now)) found
        ≡ option_and_then (place_before joined.now 0o72) (after_front (path.now ++ codes ":") text.now)) }
{
    let mut front = Vec::from_slice(alloc, path)?;
    front.push(b':')?;
    match after_front(&front, text) {
        Some(rest) => Ok(place_before(joined, b':', rest)),
        None => Ok(None),
    }
}

/// Appends an object that tells of a line.
fn push_object(
    out: &mut Vec<u8>,
    path: &[u8],
    joined: &Joined,
    text: &[u8],
) -> Result<(), AllocError>
    ensures { OnOk result (out.new.items ≡ out.old.items ++ object_text path.now joined.now text.now) }
{
    let mut mark = Vec::new(*out.allocator());
    push_file(&mut mark, path)?;
    match line_after(joined, &mark, text) {
        Some((before, place, rest)) => {
            out.extend_from_slice(before)?;
            push_line_members(out, path, joined, place)?;
            push_from_fix(out, path, joined, rest)
        }
        None => out.extend_from_slice(text),
    }
}

/// Appends the members of an object from those of an edit on.
fn push_from_fix(
    out: &mut Vec<u8>,
    path: &[u8],
    joined: &Joined,
    text: &[u8],
) -> Result<(), AllocError>
    ensures { OnOk result (out.new.items ≡ out.old.items ++ from_fix path.now joined.now text.now) }
{
    match line_after(joined, FIX, text) {
        Some((before, place, rest)) => {
            push_located(out, path, joined, before)?;
            out.extend_from_slice(b"\"fix\":{")?;
            push_line_members(out, path, joined, place)?;
            push_from_related(out, path, joined, rest)
        }
        None => push_from_related(out, path, joined, text),
    }
}

/// Appends the members of an object from those of another line on.
fn push_from_related(
    out: &mut Vec<u8>,
    path: &[u8],
    joined: &Joined,
    text: &[u8],
) -> Result<(), AllocError>
    ensures { OnOk result (out.new.items ≡ out.old.items ++ from_related path.now joined.now text.now) }
{
    match line_after(joined, RELATED, text) {
        Some((before, place, rest)) => {
            push_located(out, path, joined, before)?;
            out.extend_from_slice(b"\"related\":{")?;
            push_line_members(out, path, joined, place)?;
            push_located(out, path, joined, rest)
        }
        None => push_located(out, path, joined, text),
    }
}

/// Appends a line as members of an object.
fn push_line_members(
    out: &mut Vec<u8>,
    path: &[u8],
    joined: &Joined,
    place: Place,
) -> Result<(), AllocError>
    ensures { OnOk result (out.new.items ≡ out.old.items ++ line_members path.now joined.now place) }
{
    let file = file_path(*out.allocator(), path, joined, place)?;
    push_file(out, &file)?;
    push_number(out, place.line)
}

/// Appends the member of a file, and the name of the member of its line.
fn push_file(out: &mut Vec<u8>, file: &[u8]) -> Result<(), AllocError>
    ensures { OnOk result (out.new.items ≡ out.old.items ++ file_member file.now) }
{
    let mut string = Buffer::new(*out.allocator());
    if write_json_string(file, &mut string).is_err() {
        return Err(AllocError);
    }
    out.extend_from_slice(b"\"file\":")?;
    out.extend_from_slice(string.as_slice())?;
    out.extend_from_slice(b",\"line\":")?;
    Ok(())
}
