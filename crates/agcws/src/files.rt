//! The files and streams that a subcommand reads and writes, and what is told of those that fail.

use crate::dumps::{AS_WRITTEN, ImageBytes, opened_bytes, source_bytes};
use crate::gathered::Gathered;
use plans::{Image, Kind, Listed, Program};
use std::alloc::AllocError;
use std::cell::Cell;
use std::{fs, io};
use words::{ReadAhead, Std, Write, write_all};
use workshop::{Form, InForm, Origin, Symbols, WorkshopFault, read_names, unread_text};

/// A file that is read.
pub type ReadFile = ReadAhead<Std<fs::File>>;

/// The file of a program, whose bytes are taken in a form.
pub type ProgramFile = InForm<ReadAhead<Std<ImageBytes>>>;

/// Standard output, with what is to be written gathered.
type StandardOutput<'a> = Std<Gathered<'a>>;

/// A program whose files are open: where its words come from, its file with the form in which its bytes are taken, and
/// that of its feed.
#[derive(Drop)]
pub struct OpenProgram {
    pub origin: Origin,
    pub file: Std<ImageBytes>,
    pub form: Form,
    pub feed: Std<fs::File>,
}

/// Opens the files of a program, and reads its table of names once all are open.
pub fn opened_program(
    rt: &HostRuntime,
    program: &Program<'_>,
) -> Result<OpenProgram, WorkshopFault> {
    let table = opened_table(rt, program.symbols)?;
    let (file, form) = opened_words(rt, program.path, program.kind, program.form)?;
    let feed = opened_file(rt, program.feed)?;
    let names = names_of(rt, table)?;
    Ok(OpenProgram {
        origin: origin(program.kind, names),
        file,
        form,
        feed,
    })
}

/// A program that is not run, whose file is open: where its words come from, and its file with the form in which its
/// bytes are taken.
#[derive(Drop)]
pub struct OpenListed {
    pub origin: Origin,
    pub file: Std<ImageBytes>,
    pub form: Form,
}

/// Opens the file of a program, and reads its table of names once it is open.
pub fn opened_listed(rt: &HostRuntime, listed: &Listed<'_>) -> Result<OpenListed, WorkshopFault> {
    let table = opened_table(rt, listed.symbols)?;
    let (file, form) = opened_words(rt, listed.path, listed.kind, listed.form)?;
    let names = names_of(rt, table)?;
    Ok(OpenListed {
        origin: origin(listed.kind, names),
        file,
        form,
    })
}

/// The file of a program, a text of octal words in place of an image included, and the form in which its bytes are
/// taken.
fn opened_words(
    rt: &HostRuntime,
    path: &str,
    kind: Kind,
    form: Form,
) -> Result<(Std<ImageBytes>, Form), WorkshopFault> {
    let bytes = match kind {
        Kind::Source(language) => source_bytes(rt, path, language)?,
        Kind::Image(version) => {
            let layout = AS_WRITTEN;
            let image = Image {
                path,
                form,
                layout,
                version,
            };
            opened_bytes(rt, &image)?
        }
    };
    let form = form_of(&bytes, form);
    Ok((Std::new(bytes), form))
}

/// The form in which bytes are taken: those of a text of octal words are as written.
fn form_of(bytes: &ImageBytes, form: Form) -> Form {
    match bytes {
        ImageBytes::Octals(_) => Form::AsWritten,
        ImageBytes::File(_) | ImageBytes::Made(_) => form,
    }
}

/// Where the words of a program come from: a source, or an image, with names for its places where there are some.
fn origin(kind: Kind, names: Option<Symbols>) -> Origin {
    match (kind, names) {
        (Kind::Source(language), _) => Origin::Source(language),
        (Kind::Image(version), Some(names)) => Origin::NamedImage(version, names),
        (Kind::Image(version), None) => Origin::Image(version),
    }
}

/// A table of names, where there is one: it is opened, and read later.
fn opened_table(
    rt: &HostRuntime,
    path: Option<&str>,
) -> Result<Option<Std<fs::File>>, WorkshopFault> {
    match path {
        Some(path) => Ok(Some(opened_file(rt, path)?)),
        None => Ok(None),
    }
}

/// The names of a table, where there is one.
fn names_of(
    rt: &HostRuntime,
    table: Option<Std<fs::File>>,
) -> Result<Option<Symbols>, WorkshopFault> {
    match table {
        Some(table) => Ok(Some(read_names(rt.alloc(), &mut ReadAhead::new(table))?)),
        None => Ok(None),
    }
}

/// An image, in the form in which its bytes are taken.
pub fn opened_image(rt: &HostRuntime, image: &Image<'_>) -> Result<ProgramFile, WorkshopFault> {
    let bytes = opened_bytes(rt, image)?;
    let form = form_of(&bytes, image.form);
    Ok(InForm::new(ReadAhead::new(Std::new(bytes)), form))
}

/// A file that is read, from its beginning on.
pub fn opened(rt: &HostRuntime, path: &str) -> Result<ReadFile, WorkshopFault> {
    Ok(ReadAhead::new(opened_file(rt, path)?))
}

/// A file, before room is made for what is read ahead of it.
fn opened_file(rt: &HostRuntime, path: &str) -> Result<Std<fs::File>, WorkshopFault> {
    Ok(Std::new(fs::open(rt, path).map_err(not_opened)?))
}

/// A file whose bytes are taken in a form. It is made where it is read, since what is read ahead lies in it: each move
/// takes as long as reading so many bytes.
pub fn taken_in(file: Std<ImageBytes>, form: Form) -> ProgramFile {
    InForm::new(ReadAhead::new(file), form)
}

/// Calls an engine with standard output, which is flushed then. That it can't be is told whatever the engine has
/// answered.
pub fn with_stdout<'a, T: Drop, F: FnOnce(&mut StandardOutput<'a>) -> Result<T, WorkshopFault>>(
    rt: &'a HostRuntime,
    engine: F,
) -> Result<T, WorkshopFault>
    requires { F.IsAlwaysCallable engine }
{
    let mut out = Std::new(Gathered::new(rt).map_err(not_buffered)?);
    let outcome = engine(&mut out);
    flushed(&mut out, outcome)
}

/// Opens the files of a program, and calls an engine with where its words come from, its file, its feed, and standard
/// output, as `with_stdout` does.
pub fn with_program<
    'a,
    T: Drop,
    F: FnOnce(
        Origin,
        &mut ProgramFile,
        &mut Std<fs::File>,
        &mut StandardOutput<'a>,
    ) -> Result<T, WorkshopFault>,
>(rt: &'a HostRuntime, program: &Program<'_>, engine: F) -> Result<T, WorkshopFault>
    requires { F.IsAlwaysCallable engine }
{
    let OpenProgram {
        origin,
        file,
        form,
        mut feed,
    } = opened_program(rt, program)?;
    let mut file = taken_in(file, form);
    let mut out = Std::new(Gathered::new(rt).map_err(not_buffered)?);
    let outcome = engine(origin, &mut file, &mut feed, &mut out);
    flushed(&mut out, outcome)
}

/// What an engine has answered, where standard output can be flushed then.
fn flushed<T: Drop>(
    out: &mut StandardOutput<'_>,
    outcome: Result<T, WorkshopFault>,
) -> Result<T, WorkshopFault> {
    match out.flush() {
        Ok(()) => outcome,
        Err(_) => Err(WorkshopFault::WriteFailed),
    }
}

/// How a command ends that makes a file, where there may have been no memory to make it.
pub fn ended<T: Drop>(
    outcome: Result<T, WorkshopFault>,
    refused: &Cell<bool>,
) -> Result<T, WorkshopFault> {
    match outcome {
        Err(_) if refused.get() => Err(WorkshopFault::NoMemory),
        outcome => outcome,
    }
}

/// Tells a fault: one of a file that can't be read, and one of an image, as faults of a source are told.
pub fn refused_file(
    rt: &HostRuntime,
    name: &str,
    fault: WorkshopFault,
) -> Result<u8, WorkshopFault> {
    match fault {
        WorkshopFault::ReadFailed | WorkshopFault::TooLong | WorkshopFault::Rope(_) => {
            let text = unread_text(rt.alloc(), name.as_bytes(), &fault)?;
            write_all(&mut Std::new(rt.stderr()), text.as_slice())?;
            Ok(fault.status())
        }
        fault => Err(fault),
    }
}

pub fn no_memory(_: AllocError) -> WorkshopFault {
    WorkshopFault::NoMemory
}

/// The fault of a file that could not be opened, or for which no buffer could be made.
pub fn not_opened(error: io::Error) -> WorkshopFault {
    if error.kind() == io::ErrorKind::OutOfMemory {
        WorkshopFault::NoMemory
    } else {
        WorkshopFault::ReadFailed
    }
}

/// The fault of standard output, where no buffer could be made for it.
fn not_buffered(error: io::Error) -> WorkshopFault {
    if error.kind() == io::ErrorKind::OutOfMemory {
        WorkshopFault::NoMemory
    } else {
        WorkshopFault::WriteFailed
    }
}
