//! Which files may be written.

use std::fs;
use std::os::unix::fs::MetadataExt;
use std::rt::Files;

/// Why a file may not be written.
#[derive(Clone, Copy, PartialEq, Eq)]
pub enum WrongTarget {
    /// It has the path of the file that is read.
    SamePath,
    /// It is the file that is read, by another path.
    SameFile,
    /// It has the name of a source or a feed.
    Text,
}

impl WrongTarget {
    /// What is said where `agcws asm` is to write it.
    pub fn of_an_assembly(self) -> &'static [u8] {
        match self {
            WrongTarget::SamePath => b"error: SRC and ROPE are the same path\n",
            WrongTarget::SameFile => b"error: SRC and ROPE are the same file\n",
            WrongTarget::Text => {
                b"error: ROPE has the name of a source or a feed: no image is written to a file whose name ends in \
                    .agc or .feed\n"
            }
        }
    }

    /// What is said where `agcws upgrade` is to write it.
    pub fn of_an_upgrade(self) -> &'static [u8] {
        match self {
            WrongTarget::SamePath => b"error: OLD and NEW are the same path\n",
            WrongTarget::SameFile => b"error: OLD and NEW are the same file\n",
            WrongTarget::Text => {
                b"error: NEW has the name of a source or a feed: no image is written to a file whose name ends in .agc \
                    or .feed\n"
            }
        }
    }
}

/// Why the file of a path may not be written while that of another is read; `None` where it may. Links are followed, so
/// that one file is told by whatever paths and names it has. Nothing is opened.
pub fn wrong_target<R: Files>(rt: &R, source: &str, target: &str) -> Option<WrongTarget> {
    if source == target {
        Some(WrongTarget::SamePath)
    } else if is_name_of_text(target) {
        Some(WrongTarget::Text)
    } else if is_one_file(rt, source, target) {
        Some(WrongTarget::SameFile)
    } else {
        None
    }
}

/// Whether a path ends as those of sources and feeds do.
fn is_name_of_text(path: &str) -> bool {
    path.ends_with(".agc") || path.ends_with(".feed")
}

/// Whether two paths lead to one file that is there.
fn is_one_file<R: Files>(rt: &R, one: &str, other: &str) -> bool {
    match (fs::metadata(rt, one), fs::metadata(rt, other)) {
        (Ok(one), Ok(other)) => (one.dev(), one.ino()) == (other.dev(), other.ino()),
        _ => false,
    }
}
