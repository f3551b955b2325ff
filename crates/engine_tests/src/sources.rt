//! Sources that several tests run, and what they come to.

use std::alloc::Global;
use words::Buffer;
use workshop::{Language, Version, asm_engine};

/// Five plus five, written on channel 10 again and again.
pub const FIVE_PLUS_FIVE: &[u8] = b" SETLOC 4000
 CA FIVE
 AD FIVE
 EXTEND
 WRITE 10
 TCF 4000
FIVE OCT 5
";

/// Its listing.
pub const LISTING: &[u8] = b"    1                 SETLOC 4000
    2 02,4000 34005   CA FIVE
    3 02,4001 64005   AD FIVE
    4 02,4002 00006   EXTEND
    5 02,4003 01010   WRITE 10
    6 02,4004 14000   TCF 4000
    7 02,4005 00005  FIVE OCT 5
SYMBOLS 1
FIVE     FIXED 02,0005
";

/// How many bytes an image has.
pub const IMAGE_BYTES: usize = 73_728;

/// The front of its image of version 2; the words after these are 0.
pub const IMAGE_OF_TWO: [u8; 14] = [
    0x70, 0x0a, 0xd0, 0x0a, 0x00, 0x0d, 0x04, 0x11, 0x30, 0x01, 0x00, 0x0b, 0x00, 0x01,
];

/// The image of a source.
pub fn image_of(alloc: Global, source: &[u8], version: Version) -> Buffer {
    let mut source = source;
    let mut image = Buffer::new(alloc);
    let mut listing = Buffer::new(alloc);
    let _outcome = asm_engine(
        alloc,
        Language::Standard,
        &mut source,
        &mut image,
        &mut listing,
        version,
    );
    image
}
