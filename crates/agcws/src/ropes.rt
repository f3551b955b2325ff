//! The subcommands that read rope images.

use crate::assumptions::{Assumptions, asked_wordings, refuse_wording};
use crate::dumps::{AS_WRITTEN, source_bytes};
use crate::files::{ended, opened, opened_image, refused_file, with_stdout};
use crate::target::wrong_target;
use crate::{DIFFERENT, DONE, refuse_arguments};
use assumed::Wording;
use image_file::ImageFile;
use plans::{Image, Original, Shown, Words};
use std::cell::Cell;
use words::{MOST_BYTES, Std, read_text};
use workshop::holed_words::holed_words_engine;
use workshop::{
    Compared, DumpText, Form, Language, NamedText, RopeText, Symbols, Version, WorkshopFault,
    align_engine, carry_engine, compare_banks_engine, compare_engine, compare_only_engine,
    dump_engine, find_engine, mended_engine, named_text_engine, named_words_engine, read_names,
    report, report_where, show_engine, upgrade_engine,
};

/// `agcws upgrade OLD NEW`. The file NEW is made at the first write, so that a refused image leaves none. A path of the
/// old image, or of a source, is refused for NEW before anything is opened.
pub fn upgrade(rt: &HostRuntime, old: &str, new: &str) -> Result<u8, WorkshopFault> {
    if let Some(wrong) = wrong_target(rt, old, new) {
        return refuse_arguments(rt, wrong.of_an_upgrade());
    }
    let mut image = opened_image(
        rt,
        &Image {
            path: old,
            form: Form::AsWritten,
            layout: AS_WRITTEN,
            version: Version::One,
        },
    )?;
    let refused = Cell::new(false);
    let mut out = Std::new(ImageFile::new(rt, new, &refused));
    ended(upgrade_engine(rt.alloc(), &mut image, &mut out), &refused)?;
    Ok(DONE)
}

/// `agcws words [--source | --octal | --symbols FILE [--xref | --flight --holes]] [--where] .. ROPE [BANK]`.
pub fn show_words(rt: &HostRuntime, words: &Words<'_>) -> Result<u8, WorkshopFault> {
    match write_words(rt, words) {
        Ok(()) => Ok(DONE),
        Err(WorkshopFault::Source(fault)) => Err(WorkshopFault::Source(fault)),
        Err(fault) if words.tells_where => refused_where(rt, &fault),
        Err(fault) => Err(fault),
    }
}

/// Writes the words of an image as they are to be shown.
fn write_words(rt: &HostRuntime, words: &Words<'_>) -> Result<(), WorkshopFault> {
    match words.shown {
        Shown::Named(table) => write_named_words(rt, table, words),
        Shown::NamedSource(table) => write_named_words(rt, table, words),
        Shown::Crossed(table) => write_named_words(rt, table, words),
        Shown::Holed(source) => write_holed_words(rt, source, words),
        Shown::Source => write_shown(rt, &words.image, RopeText::Source(words.bank)),
        Shown::Octals => write_shown(rt, &words.image, RopeText::Octals(words.bank)),
        Shown::Instructions => write_shown(rt, &words.image, RopeText::Words(words.bank)),
    }
}

/// Writes what is to be shown of the words of an image.
fn write_shown(rt: &HostRuntime, image: &Image<'_>, text: RopeText) -> Result<(), WorkshopFault> {
    let mut file = opened_image(rt, image)?;
    with_stdout(rt, |out| {
        show_engine(rt.alloc(), &mut file, image.version, text, out)
    })
}

/// Writes the words of an image with the names of a table, as a source or not, or which words use them. Both files are
/// opened before anything is read, and the table is read first.
fn write_named_words(
    rt: &HostRuntime,
    table: &str,
    words: &Words<'_>,
) -> Result<(), WorkshopFault> {
    let (version, bank) = (words.image.version, words.bank);
    let mut table = opened(rt, table)?;
    let mut file = opened_image(rt, &words.image)?;
    let names = read_names(rt.alloc(), &mut table)?;
    let text = match words.shown {
        Shown::NamedSource(_) => NamedText::Source,
        Shown::Crossed(_) => NamedText::Uses,
        _ => {
            return with_stdout(rt, |out| {
                named_words_engine(rt.alloc(), names, &mut file, version, bank, out)
            });
        }
    };
    with_stdout(rt, |out| {
        named_text_engine(rt.alloc(), text, &names, &mut file, version, bank, out)
    })
}

/// Writes the words of an image with the names of a flight source and its holes. Both files are opened before the image
/// is read, and the source is assembled first.
fn write_holed_words(
    rt: &HostRuntime,
    source: &str,
    words: &Words<'_>,
) -> Result<(), WorkshopFault> {
    let mut text = Std::new(source_bytes(rt, source, Language::Flight)?);
    let mut file = opened_image(rt, &words.image)?;
    let text = read_text(rt.alloc(), &mut text, MOST_BYTES)?;
    let (version, bank) = (words.image.version, words.bank);
    with_stdout(rt, |out| {
        holed_words_engine(rt.alloc(), &text, &mut file, version, bank, out)
    })
}

/// Tells a fault, and where an image is refused.
fn refused_where(rt: &HostRuntime, fault: &WorkshopFault) -> Result<u8, WorkshopFault> {
    let mut errors = Std::new(rt.stderr());
    let status = report(fault, &mut errors)?;
    report_where(fault, &mut errors)?;
    Ok(status)
}

/// `agcws compare [--old VERSION] [--new VERSION] .. OLD NEW`. Both files are opened before anything is read. A fault
/// of an image is told by the file's name.
pub fn compare(rt: &HostRuntime, old: &Image<'_>, new: &Image<'_>) -> Result<u8, WorkshopFault> {
    let mut last = Compared::Old;
    match compare_images(rt, old, new, &mut last) {
        Ok(count) => Ok(status_of(count)),
        Err(fault) => refused_file(rt, of_compared(last, old.path, new.path), fault),
    }
}

/// Compares two images, and answers at how many places they differ. It is told which was opened or read last.
fn compare_images(
    rt: &HostRuntime,
    old: &Image<'_>,
    new: &Image<'_>,
    last: &mut Compared,
) -> Result<u32, WorkshopFault> {
    let mut image = opened_image(rt, old)?;
    *last = Compared::New;
    let mut other = opened_image(rt, new)?;
    *last = Compared::Old;
    with_stdout(rt, |out| {
        compare_engine(
            rt.alloc(),
            &mut image,
            old.version,
            &mut other,
            new.version,
            last,
            out,
        )
    })
}

/// `agcws compare --only [--flight] [--new VERSION] .. SRC ROPE`: compares a source with an image, as two images are
/// compared. A fault of a file that stands on no line is told by the file's name.
pub fn compare_only(
    rt: &HostRuntime,
    source: &Original<'_>,
    image: &Image<'_>,
) -> Result<u8, WorkshopFault> {
    let mut last = Compared::Old;
    match compare_with_source(rt, source, image, &mut last) {
        Ok(count) => Ok(status_of(count)),
        Err(fault) => refused_file(rt, of_compared(last, source.path, image.path), fault),
    }
}

/// Compares a source with an image, as `compare_images` does.
fn compare_with_source(
    rt: &HostRuntime,
    source: &Original<'_>,
    image: &Image<'_>,
    last: &mut Compared,
) -> Result<u32, WorkshopFault> {
    let mut text = Std::new(source_bytes(rt, source.path, source.language)?);
    *last = Compared::New;
    let mut file = opened_image(rt, image)?;
    *last = Compared::Old;
    with_stdout(rt, |out| {
        compare_only_engine(
            rt.alloc(),
            source.language,
            &mut text,
            &mut file,
            image.version,
            last,
            out,
        )
    })
}

/// `agcws compare --only --flight [--holes] [--banks] [--assume WORDINGS] .. SRC ROPE`: compares a source with an
/// image, as without these, and tells an account of each bank, and what the image says of each wording. A fault of a
/// file that stands on no line is told by the file's name.
pub fn compare_banks(
    rt: &HostRuntime,
    source: &Original<'_>,
    image: &Image<'_>,
    holes: bool,
) -> Result<u8, WorkshopFault> {
    let Assumptions::Made(wordings) = asked_wordings(rt, source.assumed)? else {
        return refuse_wording(rt);
    };
    let mut last = Compared::Old;
    match compare_banks_with(rt, source, wordings.as_slice(), image, holes, &mut last) {
        Ok(count) => Ok(status_of(count)),
        Err(fault) => refused_file(rt, of_compared(last, source.path, image.path), fault),
    }
}

/// Compares a source with an image bank by bank. It is told which was opened or read last.
fn compare_banks_with(
    rt: &HostRuntime,
    source: &Original<'_>,
    wordings: &[Wording],
    image: &Image<'_>,
    holes: bool,
    last: &mut Compared,
) -> Result<u32, WorkshopFault> {
    let mut text = Std::new(source_bytes(rt, source.path, source.language)?);
    *last = Compared::New;
    let mut file = opened_image(rt, image)?;
    *last = Compared::Old;
    let text = read_text(rt.alloc(), &mut text, MOST_BYTES)?;
    with_stdout(rt, |out| {
        compare_banks_engine(
            rt.alloc(),
            wordings,
            holes,
            &text,
            &mut file,
            image.version,
            last,
            out,
        )
    })
}

/// `agcws align [--old VERSION] [--new VERSION] .. OLD NEW`. Both files are opened before anything is read. A fault of
/// an image is told by the file's name.
pub fn align(rt: &HostRuntime, old: &Image<'_>, new: &Image<'_>) -> Result<u8, WorkshopFault> {
    let mut last = Compared::Old;
    match align_images(rt, None, old, new, &mut last) {
        Ok(()) => Ok(DONE),
        Err(fault) => refused_file(rt, of_compared(last, old.path, new.path), fault),
    }
}

/// `agcws align --symbols FILE .. OLD NEW`. The table is read before the images are opened.
pub fn carry(
    rt: &HostRuntime,
    table: &str,
    old: &Image<'_>,
    new: &Image<'_>,
) -> Result<u8, WorkshopFault> {
    let mut file = opened(rt, table)?;
    let names = read_names(rt.alloc(), &mut file)?;
    let mut last = Compared::Old;
    match align_images(rt, Some(names), old, new, &mut last) {
        Ok(()) => Ok(DONE),
        Err(fault) => refused_file(rt, of_compared(last, old.path, new.path), fault),
    }
}

/// Aligns two images, and carries names. It is told which was opened or read last.
fn align_images(
    rt: &HostRuntime,
    names: Option<Symbols>,
    old: &Image<'_>,
    new: &Image<'_>,
    last: &mut Compared,
) -> Result<(), WorkshopFault> {
    let mut image = opened_image(rt, old)?;
    *last = Compared::New;
    let mut other = opened_image(rt, new)?;
    *last = Compared::Old;
    let (alloc, olds, news) = (rt.alloc(), old.version, new.version);
    with_stdout(rt, |out| match names {
        Some(names) => carry_engine(alloc, &names, &mut image, olds, &mut other, news, last, out),
        None => align_engine(alloc, &mut image, olds, &mut other, news, last, out),
    })
}

/// `agcws find [--flight] [--rope VERSION] .. PASSAGE ROPE`. A fault of a file that stands on no line is told by the
/// file's name.
pub fn find(
    rt: &HostRuntime,
    passage: &Original<'_>,
    image: &Image<'_>,
) -> Result<u8, WorkshopFault> {
    let mut last = Compared::Old;
    match find_passage(rt, passage, image, &mut last) {
        Ok(()) => Ok(DONE),
        Err(fault) => refused_file(rt, of_compared(last, passage.path, image.path), fault),
    }
}

/// Finds a passage of a source in an image. It is told which was opened or read last.
fn find_passage(
    rt: &HostRuntime,
    passage: &Original<'_>,
    image: &Image<'_>,
    last: &mut Compared,
) -> Result<(), WorkshopFault> {
    let mut text = Std::new(source_bytes(rt, passage.path, passage.language)?);
    *last = Compared::New;
    let mut file = opened_image(rt, image)?;
    *last = Compared::Old;
    with_stdout(rt, |out| {
        find_engine(
            rt.alloc(),
            passage.language,
            &mut text,
            &mut file,
            image.version,
            last,
            out,
        )
    })
}

/// The exit status where so many places differ, so many words have a wrong parity, or so many banks are damaged.
fn status_of(count: u32) -> u8 {
    if count == 0 { DONE } else { DIFFERENT }
}

/// The name of one of two that are compared.
fn of_compared<'a>(read: Compared, old: &'a str, new: &'a str) -> &'a str {
    match read {
        Compared::Old => old,
        Compared::New => new,
    }
}

/// `agcws sums [--rope VERSION] .. ROPE`.
pub fn show_sums(rt: &HostRuntime, image: &Image<'_>) -> Result<u8, WorkshopFault> {
    write_shown(rt, image, RopeText::Sums)?;
    Ok(DONE)
}

/// `agcws sums --forms [--rope VERSION] ROPE`.
pub fn show_sums_of_both_forms(rt: &HostRuntime, image: &Image<'_>) -> Result<u8, WorkshopFault> {
    write_shown(rt, image, RopeText::FormSums)?;
    Ok(DONE)
}

/// `agcws damages [--form FORM] ROPE`.
pub fn show_damages(rt: &HostRuntime, image: &Image<'_>) -> Result<u8, WorkshopFault> {
    tell_dump(rt, image, DumpText::Damages)
}

/// `agcws damages --source [--form FORM] ROPE`.
pub fn show_mended(rt: &HostRuntime, image: &Image<'_>) -> Result<u8, WorkshopFault> {
    let mut file = opened_image(rt, image)?;
    with_stdout(rt, |out| mended_engine(rt.alloc(), &mut file, out))?;
    Ok(DONE)
}

/// `agcws parity [--form FORM] ROPE`.
pub fn show_parity(rt: &HostRuntime, image: &Image<'_>) -> Result<u8, WorkshopFault> {
    tell_dump(rt, image, DumpText::Parities)
}

/// Writes what is to be told of the bytes of an image, and answers the exit status.
fn tell_dump(rt: &HostRuntime, image: &Image<'_>, text: DumpText) -> Result<u8, WorkshopFault> {
    let mut file = opened_image(rt, image)?;
    let count = with_stdout(rt, |out| dump_engine(rt.alloc(), text, &mut file, out))?;
    Ok(status_of(count))
}
