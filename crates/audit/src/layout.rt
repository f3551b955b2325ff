//! The bytes of an image that stand otherwise than as written.

ghost use Rattle.std.specs.Prelude.{◌≡◌, IfOk, slice_index_or};
ghost use Rattle.audit.specs.Layouts.{arranged, by_number, byte_in, complemented, swapped};

use std::alloc::{AllocError, Global};

/// How many bytes two banks have.
const TWO_BANKS: usize = 0o10000;

/// How the bytes of an image stand otherwise than as written.
#[derive(Clone, Copy, PartialEq, Eq, Debug)]
pub struct Layout {
    /// The second of each two bytes first.
    pub is_swapped: bool,
    /// Each bit the other one.
    pub is_complemented: bool,
    /// The banks by their numbers, and not 2, 3, 0 and 1 first.
    pub is_numbered: bool,
}

/// The bytes of an image as written, of such as stand otherwise.
pub fn arranged(alloc: Global, layout: Layout, bytes: &[u8]) -> Result<Vec<u8>, AllocError>
    ensures { IfOk result (λ made. made.items ≡ arranged layout bytes.now) }
{
    let mut made = Vec::new(alloc);
    for number in 0..bytes.len() {
        made.push(byte_in(layout, bytes, number))?;
    }
    Ok(made)
}

/// A byte of the image, by its number.
fn byte_in(layout: Layout, bytes: &[u8], number: usize) -> u8
    ensures { result ≡ byte_in layout bytes.now number }
{
    let place = swapped(layout.is_swapped, by_number(layout.is_numbered, number));
    complemented(layout.is_complemented, byte_at(bytes, place))
}

/// A byte of a file, 0 outside.
pub(crate) fn byte_at(bytes: &[u8], place: usize) -> u8
    ensures { result ≡ slice_index_or bytes.now place 0 }
{
    if place < bytes.len() { bytes[place] } else { 0 }
}

/// Where a byte of an image stands where its banks stand by their numbers, or do not.
fn by_number(is_numbered: bool, byte: usize) -> usize
    ensures { result ≡ by_number is_numbered byte }
{
    if is_numbered && byte < TWO_BANKS {
        byte + TWO_BANKS
    } else if is_numbered && byte < 2 * TWO_BANKS {
        byte - TWO_BANKS
    } else {
        byte
    }
}

/// Where a byte stands where the second of each two stands first, or does not.
fn swapped(is_swapped: bool, byte: usize) -> usize
    ensures { result ≡ swapped is_swapped byte }
{
    if !is_swapped {
        byte
    } else if byte % 2 == 0 {
        byte + 1
    } else {
        byte - 1
    }
}

/// A byte, or the one in which each bit is the other one.
fn complemented(is_complemented: bool, byte: u8) -> u8
    ensures { result ≡ complemented is_complemented byte }
{
    if is_complemented { 255 - byte } else { byte }
}
