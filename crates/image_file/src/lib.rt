//! A file for an image, which is made when something is written to it, and stands in its place only once it is whole.
#![tactic(auto)]

ghost use Rattle.std.specs.Io.{WritesAtMost};

use std::cell::Cell;
use std::fs::{Metadata, OpenFile, OpenOptions};
use std::io::{ErrorKind, Write};
use std::os::unix::fs::{MetadataExt, chown};
use std::rt::Files;
use std::{fs, io};

/// The bytes of a whole image.
const IMAGE_BYTES: usize = 73_728;

/// How many names are tried for a draft, where files of these names stand already.
const MOST_DRAFTS: u32 = 100;

/// A file for an image. It is made at the first write, so that an engine that is refused leaves none: as a draft in the
/// same folder, which takes the place of the file of the path once it is whole. So a write that fails leaves what stood
/// there. Where the path names no plain file, or no draft can stand for it, the bytes go to the path itself. A cell
/// outside it tells where there was no memory, for an engine sees only that a write failed.
#[derive(Drop)]
pub struct ImageFile<'a, R: Files + AllocGlobal> {
    rt: &'a R,
    path: &'a str,
    refused: &'a Cell<bool>,
    stage: Stage<R::File>,
}

/// How far an image is.
#[derive(Drop)]
enum Stage<F: Drop> {
    /// Nothing is written yet.
    Unmade,
    /// What is written goes to the path itself.
    InPlace(F),
    /// What is written goes to a draft.
    Beside(Draft<F>),
    /// The image stands in its place, or was given up.
    Ended,
}

/// An image that is not whole yet.
#[derive(Drop)]
struct Draft<F: Drop> {
    file: F,
    path: String,
    /// The path that the image is for, without links.
    place: String,
    /// How many bytes are to come.
    left: usize,
}

impl<'a, R: Files + AllocGlobal> ImageFile<'a, R> {
    /// The file of this path, which is not made yet.
    pub fn new(rt: &'a R, path: &'a str, refused: &'a Cell<bool>) -> ImageFile<'a, R> {
        ImageFile {
            rt,
            path,
            refused,
            stage: Stage::Unmade,
        }
    }

    /// Makes the file at the first write.
    fn begin(&mut self) -> io::Result<()> {
        if let Stage::Unmade = self.stage {
            self.stage = match first_draft(self.rt, self.path)? {
                Some(draft) => Stage::Beside(draft),
                None => Stage::InPlace(fs::create(self.rt, self.path)?),
            };
        }
        Ok(())
    }

    /// Writes a beginning of the bytes, and puts the image in its place where it is whole with them.
    fn write_some(&mut self, bytes: &[u8]) -> io::Result<usize>
        ensures { WritesAtMost result bytes.now }
    {
        self.begin()?;
        match &mut self.stage {
            Stage::InPlace(file) => file.write(bytes),
            Stage::Beside(draft) => {
                let count = draft.file.write(bytes)?;
                draft.left = draft.left.saturating_sub(count);
                if draft.left == 0 {
                    draft.settle(self.rt)?;
                    self.stage = Stage::Ended;
                }
                Ok(count)
            }
            Stage::Unmade | Stage::Ended => Ok(0),
        }
    }

    /// Gives up a draft, for an image that a write has failed for.
    fn give_up(&mut self) {
        if let Stage::Beside(draft) = &self.stage {
            let _removed = fs::remove_file(self.rt, draft.path.as_str());
        }
        self.stage = Stage::Ended;
    }
}

impl<F: Drop> Draft<F> {
    /// Puts a whole draft where it is to stand: in one step, or else, where that place can't change its file, by a
    /// copy.
    fn settle<R: Files>(&self, rt: &R) -> io::Result<()> {
        let (draft, place) = (self.path.as_str(), self.place.as_str());
        if fs::rename(rt, draft, place).is_ok() {
            return Ok(());
        }
        fs::copy(rt, draft, place)?;
        fs::remove_file(rt, draft)
    }
}

impl<'a, R: Files + AllocGlobal> Write for ImageFile<'a, R> {
    fn write(&mut self, bytes: &[u8]) -> io::Result<usize> {
        let outcome = self.write_some(bytes);
        match &outcome {
            Ok(count) if *count > 0 || bytes.is_empty() => {}
            Ok(_) => self.give_up(),
            Err(error) => {
                self.refused.set(error.kind() == ErrorKind::OutOfMemory);
                self.give_up();
            }
        }
        outcome
    }

    fn flush(&mut self) -> io::Result<()> {
        match &mut self.stage {
            Stage::InPlace(file) => file.flush(),
            Stage::Beside(draft) => draft.file.flush(),
            Stage::Unmade | Stage::Ended => Ok(()),
        }
    }
}

/// The draft of an image for a path: none where the path names what is no plain file, a file of several names, or one
/// whose draft could not be made in its folder or would be another's.
fn first_draft<R: Files + AllocGlobal>(rt: &R, path: &str) -> io::Result<Option<Draft<R::File>>> {
    match fs::metadata(rt, path) {
        Ok(old) if old.is_file() && old.nlink() == 1 => {
            // A file that may not be written is left alone.
            let _written = OpenOptions::new().write(true).open(rt, path)?;
            let place = fs::canonicalize(rt, path)?.into_string();
            draft_like(rt, place, &old)
        }
        Err(error)
            if error.kind() == ErrorKind::NotFound && fs::symlink_metadata(rt, path).is_err() => {
            draft_of(rt, String::from_str(rt.alloc(), path)?)
        }
        _ => Ok(None),
    }
}

/// The draft of an image in place of an old file, with the owner and the permissions of that; none where it can't have
/// them.
fn draft_like<R: Files + AllocGlobal>(
    rt: &R,
    place: String,
    old: &Metadata,
) -> io::Result<Option<Draft<R::File>>> {
    let Some(draft) = draft_of(rt, place)? else {
        return Ok(None);
    };
    if draft.take_after(rt, old).is_ok() {
        return Ok(Some(draft));
    }
    fs::remove_file(rt, draft.path.as_str())?;
    Ok(None)
}

impl<F: OpenFile + Drop> Draft<F> {
    /// Gives a draft the owner and the permissions of an old file.
    fn take_after<R: Files>(&self, rt: &R, old: &Metadata) -> io::Result<()> {
        let new = self.file.metadata()?;
        if (new.uid(), new.gid()) != (old.uid(), old.gid()) {
            chown(rt, self.path.as_str(), Some(old.uid()), Some(old.gid()))?;
        }
        self.file.set_permissions(old.permissions())
    }
}

/// The draft of an image for a path: none where its folder takes no new file, or none of so long a name.
fn draft_of<R: Files + AllocGlobal>(rt: &R, place: String) -> io::Result<Option<Draft<R::File>>> {
    for number in 0..MOST_DRAFTS {
        let path = format!(in rt.alloc(); "{place}.part{number}")?;
        let made = OpenOptions::new()
            .write(true)
            .create_new(true)
            .open(rt, path.as_str());
        match made {
            Ok(file) => {
                return Ok(Some(Draft {
                    file,
                    path,
                    place,
                    left: IMAGE_BYTES,
                }));
            }
            Err(error) if error.kind() == ErrorKind::AlreadyExists => {}
            Err(error)
                if error.kind() == ErrorKind::PermissionDenied
                    || error.kind() == ErrorKind::InvalidFilename => return Ok(None),
            Err(error) => return Err(error),
        }
    }
    Ok(None)
}
