//! The engines that assemble a source.

ghost use Rattle.std.specs.Prelude.{◌≡◌, true, IfOk, IfErr};
ghost use Rattle.words.specs.Devices.{Writes, failures_after};
ghost use Rattle.workshop.specs.Assemblies.{Assembles, AssemblesChecked, WritesProgram, no_room_text, assembling};
ghost use Rattle.workshop.specs.Failures.{Reader, reader, writer};
ghost use Rattle.workshop.specs.Faults.{input_refused};

use crate::fault::WorkshopFault;
use crate::inputs::read_program;
use arrayvec::ArrayVec;
use audit::{NoRoom, add_check_words};
use rope::{Rope, Version};
use space::Bank;
use std::alloc::Global;
use words::{Read, Write, push_all, push_octal, write_all};
use yayul::{Language, Program};

/// Assembles the source, which is of a language, and writes the rope image of 73,728 bytes, of a version, to one
/// writer, and then the listing to the other.
///
/// The source has at most 8,388,608 bytes. Its first fault is answered, and then nothing is written. Nothing of the
/// listing is written before the whole image.
pub fn asm_engine<S: Read, I: Write, L: Write>(
    alloc: Global,
    language: Language,
    source: &mut S,
    image: &mut I,
    listing: &mut L,
    version: Version,
) -> Result<(), WorkshopFault>
    ensures { Assembles language version
        (assembling (reader S.Read source.old) (writer I.Write image.old) (writer L.Write listing.old))
        (assembling (reader S.Read source.new) (writer I.Write image.new) (writer L.Write listing.new)) result }
{
    let program = read_program(alloc, language, source)?;
    write_program(program.rope(), &program, image, listing, version)
}

/// Assembles the source as `asm_engine` does, and writes the image with check words: after the last word of each bank
/// two TC to themselves, and the word that makes the bank's sum its number or the complement of it.
///
/// Where a bank has no room for them the first such is answered, and nothing is written.
pub fn asm_with_check_words<S: Read, I: Write, L: Write>(
    alloc: Global,
    language: Language,
    source: &mut S,
    image: &mut I,
    listing: &mut L,
    version: Version,
) -> Result<Option<Bank>, WorkshopFault>
    ensures { AssemblesChecked language version
        (assembling (reader S.Read source.old) (writer I.Write image.old) (writer L.Write listing.old))
        (assembling (reader S.Read source.new) (writer I.Write image.new) (writer L.Write listing.new)) result }
{
    let program = read_program(alloc, language, source)?;
    let mut rope = program.rope().copied(alloc)?;
    if let Err(NoRoom { bank }) = add_check_words(&mut rope) {
        return Ok(Some(bank));
    }
    write_program(&rope, &program, image, listing, version)?;
    Ok(None)
}

/// Writes the image of some words, of a version, and then the listing of a program.
fn write_program<I: Write, L: Write>(
    words: &Rope,
    program: &Program,
    image: &mut I,
    listing: &mut L,
    version: Version,
) -> Result<(), WorkshopFault>
    ensures { (unread read : Reader) → WritesProgram version words.now program.now
        (assembling unread (writer I.Write image.old) (writer L.Write listing.old))
        (assembling read (writer I.Write image.new) (writer L.Write listing.new)) result }
{
    words.write(image, version)?;
    Ok(program.list(listing)?)
}

/// The exit status of a program whose input is refused.
const INPUT_REFUSED: u8 = 1;

/// Room for the line that tells a bank without room.
const NO_ROOM_LINE: usize = 96;

/// The line that tells a bank without room.
fn no_room_line(bank: Bank) -> ArrayVec<u8, NO_ROOM_LINE>
    ensures { result.items ≡ no_room_text bank }
{
    let mut line = ArrayVec::new();
    push_all(&mut line, b"agcws: bank ");
    push_octal(&mut line, 2, bank.number());
    push_all(
        &mut line,
        b" has no room for check words: they take 3 places after its last word\n",
    );
    line
}

/// Tells a bank without room for check words, as `agcws: bank 02 has no room for check words: they take 3 places after
/// its last word`, and answers the exit status of a program that it ends. It takes no memory.
pub fn report_no_room<W: Write>(bank: Bank, errors: &mut W) -> Result<u8, WorkshopFault>
    ensures written { W.told ≡ true → Writes (W.written errors.old) (W.written errors.new) (no_room_text bank) result }
    ensures failures { W.failures errors.new ≡ failures_after (W.failures errors.old) result }
    ensures status { IfOk result (λ status. status ≡ input_refused) }
    ensures fault { IfErr result (λ e. e ≡ WorkshopFault.WriteFailed) }
{
    write_all(errors, no_room_line(bank).as_slice())?;
    Ok(INPUT_REFUSED)
}
