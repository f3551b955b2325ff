//! What is told of a source of several files is written, each line by its file.

use crate::files::no_memory;
use included::{Joined, located_listing, located_report, located_row};
use std::alloc::Global;
use words::{Write, write_all};
use workshop::WorkshopFault;

/// Writes a listing, whose rows have the name of a file and the number of a line in it for the number of the line.
pub fn write_listing<W: Write>(
    alloc: Global,
    joined: &Joined,
    listing: &[u8],
    out: &mut W,
) -> Result<(), WorkshopFault> {
    let text = located_listing(alloc, joined, listing).map_err(no_memory)?;
    Ok(write_all(out, &text)?)
}

/// Writes the line of a text in which the row of a listing follows some bytes, where it has one.
pub fn write_behind<W: Write>(
    alloc: Global,
    joined: &Joined,
    front: &[u8],
    text: &[u8],
    out: &mut W,
) -> Result<(), WorkshopFault> {
    let row = located_row(alloc, joined, front, text).map_err(no_memory)?;
    Ok(write_all(out, &row)?)
}

/// Writes what is told of faults and warnings, by the paths of files and the numbers of lines in them.
pub fn write_report<W: Write>(
    alloc: Global,
    path: &str,
    joined: &Joined,
    report: &[u8],
    out: &mut W,
) -> Result<(), WorkshopFault> {
    let text = located_report(alloc, path.as_bytes(), joined, report).map_err(no_memory)?;
    Ok(write_all(out, &text)?)
}
