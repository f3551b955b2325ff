//! The bytes of an image of which one module alone is there.

ghost use Rattle.std.specs.Prelude.{◌≡◌, ◌<◌, IfOk};
ghost use Rattle.rope.specs.Reading.{image_length};
ghost use Rattle.audit.specs.Layouts.{empty_byte, module_byte, module_image, module_part};

use crate::layout::byte_at;
use std::alloc::{AllocError, Global};

/// How many bytes a module of six banks has.
const MODULE_BYTES: usize = 0o30000;

/// How many bytes an image has.
const IMAGE_BYTES: usize = 73_728;

/// The bytes of an image whose banks stand by their numbers: the module of a number, from 1 on, has these bytes, and
/// each place of the others the two of an empty one.
pub fn module_image(
    alloc: Global,
    number: usize,
    high: u8,
    low: u8,
    bytes: &[u8],
) -> Result<Vec<u8>, AllocError>
    ensures { IfOk result (λ made. made.items ≡ module_image number high low bytes.now) }
{
    let mut made = Vec::new(alloc);
    for byte in 0..IMAGE_BYTES {
        made.push(module_byte(number, high, low, bytes, byte))?;
    }
    Ok(made)
}

/// A byte of such an image.
fn module_byte(number: usize, high: u8, low: u8, bytes: &[u8], byte: usize) -> u8
    requires { byte < image_length }
    ensures { result ≡ module_byte number high low bytes.now byte }
{
    if byte / MODULE_BYTES + 1 == number {
        byte_at(bytes, byte % MODULE_BYTES)
    } else {
        empty_byte(high, low, byte)
    }
}

/// A byte of the two of an empty place.
fn empty_byte(high: u8, low: u8, byte: usize) -> u8
    ensures { result ≡ empty_byte high low byte }
{
    if byte % 2 == 0 { high } else { low }
}
