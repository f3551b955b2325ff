//! The paths of files, and the names of lines.

ghost use Rattle.std.specs.Prelude.{◌≡◌, ◌++◌, ◌≤◌, decimal, length, replicate, IfOk, OnOk};
ghost use Rattle.agc_text.specs.Bytes.{space};
ghost use Rattle.included.specs.Located.{file_path, folder_length, line_name, line_path, numbered, path_beside};
ghost use Rattle.included.specs.Located.{right_in};

use crate::joined::Joined;
use crate::place::Place;
use arrayvec::ArrayVec;
use std::alloc::{AllocError, Global};
use words::push_decimal;

/// The most digits of a number.
const DIGITS: usize = 20;

/// The path of a file of a name in the folder of a source, by the path of that. An `Err` is that memory ran out.
pub fn path_beside(alloc: Global, source: &[u8], name: &[u8]) -> Result<Vec<u8>, AllocError>
    ensures { IfOk result (λ path. path.items ≡ path_beside source.now name.now) }
{
    let mut path = Vec::new(alloc);
    path.extend_from_slice(&source[..folder_length(source)])?;
    path.extend_from_slice(name)?;
    Ok(path)
}

/// How many bytes of a path stand up to its last slash.
#[tactic(auto, using(crate::proofs::Turns::folder_steps))]
fn folder_length(path: &[u8]) -> usize
    ensures value { result ≡ folder_length path.now (length path.now) }
    ensures within { result ≤ length path.now }
{
    let mut end = path.len();
    while end > 0 && path[end - 1] != b'/' {
        end -= 1;
    }
    end
}

/// The path of a line: that of its file, by the path of the source, and its number in it. An `Err` is that memory ran
/// out.
pub fn line_path(
    alloc: Global,
    source: &[u8],
    joined: &Joined,
    place: Place,
) -> Result<Vec<u8>, AllocError>
    ensures { IfOk result (λ path. path.items ≡ line_path source.now joined.now place) }
{
    numbered(file_path(alloc, source, joined, place)?, place.line)
}

/// The path of the file of a line.
pub(crate) fn file_path(
    alloc: Global,
    source: &[u8],
    joined: &Joined,
    place: Place,
) -> Result<Vec<u8>, AllocError>
    ensures { IfOk result (λ path. path.items ≡ file_path source.now joined.now place) }
{
    path_beside(alloc, source, joined.name_of(place.file))
}

/// The name of a line: that of its file, and its number in it.
pub(crate) fn line_name(alloc: Global, joined: &Joined, place: Place) -> Result<Vec<u8>, AllocError>
    ensures { IfOk result (λ name. name.items ≡ line_name joined.now place) }
{
    numbered(
        Vec::from_slice(alloc, joined.name_of(place.file))?,
        place.line,
    )
}

/// The number of a line behind what names its file.
fn numbered(name: Vec<u8>, line: u64) -> Result<Vec<u8>, AllocError>
    ensures { IfOk result (λ text. text.items ≡ numbered name.items line) }
{
    let mut text = name;
    text.push(b':')?;
    push_number(&mut text, line)?;
    Ok(text)
}

/// Appends a number.
#[tactic(auto, using(words::proofs::Digits::short_decimal))]
pub(crate) fn push_number(out: &mut Vec<u8>, number: u64) -> Result<(), AllocError>
    ensures { OnOk result (out.new.items ≡ out.old.items ++ decimal number) }
{
    let mut digits = ArrayVec::<u8, DIGITS>::new();
    push_decimal(&mut digits, number);
    out.extend_from_slice(digits.as_slice())?;
    Ok(())
}

/// Appends a text right in so many places.
pub(crate) fn push_right(out: &mut Vec<u8>, width: usize, text: &[u8]) -> Result<(), AllocError>
    ensures { OnOk result (out.new.items ≡ out.old.items ++ right_in width text.now) }
{
    push_spaces(out, width.saturating_sub(text.len()))?;
    out.extend_from_slice(text)?;
    Ok(())
}

/// Appends blanks.
fn push_spaces(out: &mut Vec<u8>, count: usize) -> Result<(), AllocError>
    ensures { OnOk result (out.new.items ≡ out.old.items ++ replicate count space) }
{
    for i in 0..count {
        out.push(b' ')?;
    }
    Ok(())
}
