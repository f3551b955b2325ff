//! Where the bytes of an image or a source come from: a file as it stands, one that stands otherwise than as written,
//! or what was made of a text.

use crate::files::{no_memory, not_opened};
use crate::joining::{SourceText, source_text};
use arguments::ImageLayout;
use audit::{is_beginning, octal_image};
use included::Joined;
use plans::Image;
use std::alloc::{AllocError, Global};
use std::io::Read;
use std::{fs, io};
use words::{MOST_BYTES, ReadAhead, ReadFault, Std, read_text, write_all};
use workshop::{Form, Language, Layout, Version, WorkshopFault, arranged, module_image};

/// How many bytes an image has.
const IMAGE_BYTES: usize = 73_728;

/// How many bytes a module of six banks has.
const MODULE_BYTES: usize = 12_288;

/// How many bytes are looked at, to tell a text from an image.
const LOOKED_AT: usize = 4096;

/// That the bytes of an image stand as `agcws` writes them.
pub const AS_WRITTEN: ImageLayout = ImageLayout {
    is_swapped: false,
    is_complemented: false,
    is_numbered: false,
    one_module: 0,
};

/// The bytes of an image or a source.
#[derive(Drop)]
pub enum ImageBytes {
    /// Those of a file, as it is read.
    File(fs::File),
    /// Those of a file that stood otherwise, or of a source that was joined.
    Made(Made),
    /// Those of the words of a text.
    Octals(Made),
}

/// Bytes that were made, and how many of them were read.
#[derive(Drop)]
pub struct Made {
    bytes: Vec<u8>,
    read: usize,
}

impl Read for ImageBytes {
    fn read(&mut self, buf: &mut [u8]) -> io::Result<usize> {
        match self {
            ImageBytes::File(file) => file.read(buf),
            ImageBytes::Made(made) | ImageBytes::Octals(made) => made.read(buf),
        }
    }
}

impl Read for Made {
    fn read(&mut self, buf: &mut [u8]) -> io::Result<usize> {
        let rest = self.bytes.as_slice();
        let rest = &rest[self.read.min(rest.len())..];
        let count = rest.len().min(buf.len());
        buf[..count].copy_from_slice(&rest[..count]);
        self.read = self.read.saturating_add(count);
        Ok(count)
    }
}

/// The bytes of an image, of which a file that stands as written is not read yet.
///
/// A text of octal words that is not taken is told with its line, and then its bytes are those of an image, which is
/// refused.
pub fn opened_bytes(rt: &HostRuntime, image: &Image<'_>) -> Result<ImageBytes, WorkshopFault> {
    if is_octal_text(rt, image.path)? {
        let text = text_of(rt, image.path)?;
        match octal_image(rt.alloc(), text.as_slice(), image.version)? {
            Ok(bytes) => return Ok(ImageBytes::Octals(Made { bytes, read: 0 })),
            Err(line) => refuse_line(rt, image.path, line)?,
        }
    }
    let file = fs::open(rt, image.path).map_err(not_opened)?;
    if is_as_written(image.layout) {
        return Ok(ImageBytes::File(file));
    }
    let bytes = made_bytes(rt, image, file)?;
    Ok(ImageBytes::Made(Made { bytes, read: 0 }))
}

/// The bytes of a source, of which one of the standard language is not read yet, and how it was joined, where lines of
/// it stood for files.
pub fn opened_source(
    rt: &HostRuntime,
    path: &str,
    language: Language,
) -> Result<(ImageBytes, Option<Joined>), WorkshopFault> {
    match language {
        Language::Standard => {
            let file = fs::open(rt, path).map_err(not_opened)?;
            Ok((ImageBytes::File(file), None))
        }
        Language::Flight => {
            let SourceText { text, joined } = source_text(rt, path, language)?;
            let made = Made {
                bytes: text,
                read: 0,
            };
            Ok((ImageBytes::Made(made), joined))
        }
    }
}

/// The bytes of a source.
pub fn source_bytes(
    rt: &HostRuntime,
    path: &str,
    language: Language,
) -> Result<ImageBytes, WorkshopFault> {
    let (bytes, _) = opened_source(rt, path, language)?;
    Ok(bytes)
}

fn is_as_written(layout: ImageLayout) -> bool {
    !layout.is_swapped && !layout.is_complemented && !layout.is_numbered && layout.one_module == 0
}

/// The bytes of an image that stands otherwise than as written: none where a module has fewer than one has, and more
/// than an image has where the file has more.
fn made_bytes(
    rt: &HostRuntime,
    image: &Image<'_>,
    file: fs::File,
) -> Result<Vec<u8>, WorkshopFault> {
    let is_module = image.layout.one_module > 0;
    let most = if is_module { MODULE_BYTES } else { IMAGE_BYTES };
    let layout = Layout {
        is_swapped: image.layout.is_swapped,
        is_complemented: image.layout.is_complemented,
        is_numbered: image.layout.is_numbered,
    };
    let Some(bytes) = bytes_of(rt, file, most)? else {
        return too_many(rt.alloc(), image.version).map_err(no_memory);
    };
    if is_module && bytes.len() < MODULE_BYTES {
        return Ok(Vec::new(rt.alloc()));
    }
    let bytes = arranged(rt.alloc(), layout, bytes.as_slice()).map_err(no_memory)?;
    if is_module {
        whole_image(rt.alloc(), image, bytes.as_slice()).map_err(no_memory)
    } else {
        Ok(bytes)
    }
}

/// The bytes of an image of which one module alone is there.
fn whole_image(alloc: Global, image: &Image<'_>, bytes: &[u8]) -> Result<Vec<u8>, AllocError> {
    let (high, low) = empty_place(image);
    let numbered = module_image(alloc, image.layout.one_module, high, low, bytes)?;
    let layout = Layout {
        is_swapped: false,
        is_complemented: false,
        is_numbered: true,
    };
    arranged(alloc, layout, numbered.as_slice())
}

/// The two bytes of a place without a word: with a parity bit where the image has such bits, as it is taken.
fn empty_place(image: &Image<'_>) -> (u8, u8) {
    match (image.version, image.form) {
        (Version::One, _) => (0, 0),
        (Version::Two, Form::Hardware | Form::HardwareParityIgnored) => (0o100, 0),
        (Version::Two, Form::AsWritten | Form::ParityIgnored) => (0, 1),
    }
}

/// The bytes of a file, or nothing where it has more than so many.
fn bytes_of(
    rt: &HostRuntime,
    file: fs::File,
    most: usize,
) -> Result<Option<Vec<u8>>, WorkshopFault> {
    let mut reader = ReadAhead::new(Std::new(file));
    match read_text(rt.alloc(), &mut reader, most) {
        Ok(bytes) => Ok(Some(bytes)),
        Err(ReadFault::TooLong) => Ok(None),
        Err(ReadFault::NoMemory) => Err(WorkshopFault::NoMemory),
        Err(ReadFault::ReadFailed) => Err(WorkshopFault::ReadFailed),
    }
}

/// More bytes than an image has, which spell words 0.
fn too_many(alloc: Global, version: Version) -> Result<Vec<u8>, AllocError> {
    let has_parity = match version {
        Version::One => false,
        Version::Two => true,
    };
    let mut bytes = Vec::new(alloc);
    for _ in 0..IMAGE_BYTES / 2 + 1 {
        bytes.extend_from_slice(&[0, u8::from(has_parity)])?;
    }
    Ok(bytes)
}

/// The bytes of a file that is a text.
fn text_of(rt: &HostRuntime, path: &str) -> Result<Vec<u8>, WorkshopFault> {
    let file = fs::open(rt, path).map_err(not_opened)?;
    let mut reader = ReadAhead::new(Std::new(file));
    Ok(read_text(rt.alloc(), &mut reader, MOST_BYTES)?)
}

/// Whether a path leads to a plain file that begins as a text of octal words does.
fn is_octal_text(rt: &HostRuntime, path: &str) -> Result<bool, WorkshopFault> {
    if !fs::metadata(rt, path).map_err(not_opened)?.is_file() {
        return Ok(false);
    }
    let mut file = fs::open(rt, path).map_err(not_opened)?;
    let mut bytes = [0; LOOKED_AT];
    let count = file.read(&mut bytes).map_err(not_opened)?;
    let beginning = &bytes[..count];
    Ok(are_text(beginning) && is_beginning(beginning))
}

/// Whether all bytes are those of a text.
fn are_text(bytes: &[u8]) -> bool {
    for byte in bytes {
        if !matches!(*byte, b'\t' | b'\n' | b'\r' | b' '..=b'~') {
            return false;
        }
    }
    true
}

/// Tells a line of a text of octal words that is not taken.
fn refuse_line(rt: &HostRuntime, path: &str, line: u64) -> Result<(), WorkshopFault> {
    let told = format!(in rt.alloc();
        "{path}:{line}: error: a text of octal words has lines of BANK= and a bank, each once, and below it words of \
            five octal digits, at most 1024\n"
    );
    write_all(
        &mut Std::new(rt.stderr()),
        told.map_err(no_memory)?.as_bytes(),
    )?;
    Ok(())
}
