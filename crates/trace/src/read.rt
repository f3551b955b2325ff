//! What a step reads, as text.

ghost use Rattle.std.specs.Prelude.{◌≡◌, ◌*◌, ◌+◌, ◌≤◌, ◌++◌, length, unwrap_or};
ghost use Rattle.std.specs.List.{flat_map};
ghost use Rattle.arrayvec.specs.ArrayVec.{array_vec_len};
ghost use Rattle.words.specs.Numerals.{octal_text};
ghost use Rattle.rope.specs.Places.{word_at};
ghost use Rattle.space.specs.declared.place.Linear.TheVariants.{Fixed};
ghost use Rattle.yayul.specs.Listing.{place_text};
ghost use Rattle.cpu.specs.State.{FitsRun};
ghost use Rattle.trace.specs.TraceLines.{or_none, place_name, reads_text, spot_is_z, spot_name, spot_reading, was_read};

use crate::fields::{Text, place_text};
use crate::names::{Names, place_name};
use crate::written::{cell_reading, cell_shown};
use arrayvec::ArrayVec;
use cpu::{Cell, Machine, Processor, Spot};
use rope::Rope;
use space::{Bank, Linear, Offset};
use words::{push_all, push_octal};

/// The most bytes of what a step reads: eight spots of at most 20, and the word before them.
const READ: usize = 192;

/// What a step reads.
pub(crate) type Read = ArrayVec<u8, READ>;

/// What the next step reads, where that is shown, as `READS A=000005 TMP=00012 `.
#[tactic(auto, unfolding(crate::specs::TraceLines::reads_text))]
pub(crate) fn reads_text<N: Names>(
    shows_reads: bool,
    names: &N,
    processor: &Processor,
    machine: &Machine,
) -> Read
    requires { FitsRun processor.now.scenario machine.now }
    ensures items { result.items ≡ reads_text shows_reads (N.table names.now) processor.now.scenario machine.now }
    ensures short { array_vec_len result ≤ 166 }
{
    let mut text = ArrayVec::new();
    if shows_reads {
        push_all(&mut text, b"READS");
        let spots = processor.reads(machine);
        push_all_read(
            &mut text,
            names,
            processor.rope(),
            machine,
            spots.as_slice(),
        );
        push_all(&mut text, b" ");
    }
    text
}

/// Appends the spots that a step reads, with what stands there, or the sign that there is none.
fn push_all_read<N: Names>(
    text: &mut Read,
    names: &N,
    rope: &Rope,
    machine: &Machine,
    spots: &[Spot],
)
    requires room { array_vec_len text.old ≤ 5 }
    requires few { length spots.now ≤ 8 }
    ensures items { text.new.items ≡ text.old.items
        ++ or_none (flat_map (was_read (N.table names.now) rope.now machine.now.cells) spots.now) }
    ensures short { array_vec_len text.new ≤ array_vec_len text.old + 160 }
{
    let before = text.len();
    push_each(text, names, rope, machine, spots);
    if text.len() == before {
        push_all(text, b" -");
    }
}

/// Appends each spot that a step reads.
fn push_each<N: Names>(text: &mut Read, names: &N, rope: &Rope, machine: &Machine, spots: &[Spot])
    requires room { array_vec_len text.old ≤ 5 }
    requires few { length spots.now ≤ 8 }
    ensures items { text.new.items ≡ text.old.items
        ++ flat_map (was_read (N.table names.now) rope.now machine.now.cells) spots.now }
    ensures short { array_vec_len text.new ≤ array_vec_len text.old + 20 * length spots.now }
{
    for spot in spots {
        push_read(text, names, rope, machine, spot);
    }
}

/// Appends a spot that a step reads, with what stands there: nothing of Z.
fn push_read<N: Names>(text: &mut Read, names: &N, rope: &Rope, machine: &Machine, spot: &Spot)
    requires { array_vec_len text.old ≤ 170 }
    ensures items { text.new.items ≡ text.old.items
        ++ was_read (N.table names.now) rope.now machine.now.cells spot.now }
    ensures short { array_vec_len text.new ≤ array_vec_len text.old + 20 }
{
    if is_z(spot) {
        return;
    }
    push_all(text, b" ");
    push_all(text, spot_name(names, spot).as_slice());
    push_all(text, b"=");
    push_all(text, spot_reading(rope, machine, spot).as_slice());
}

/// Whether a spot is Z.
fn is_z(spot: &Spot) -> bool
    ensures { result ≡ spot_is_z spot.now }
{
    match spot {
        Spot::Cell(cell) => *cell == Cell::Z,
        Spot::InRope(_, _) => false,
    }
}

/// A spot: a cell, or a place of fixed memory by its name, or as a listing has it.
fn spot_name<N: Names>(names: &N, spot: &Spot) -> Text
    ensures items { result.items ≡ spot_name (N.table names.now) spot.now }
    ensures short { array_vec_len result ≤ 12 }
{
    match spot {
        Spot::Cell(cell) => cell_shown(names, *cell),
        Spot::InRope(bank, offset) => fixed_name(names, *bank, *offset),
    }
}

/// A place of fixed memory by its name, or as a listing has it.
fn fixed_name<N: Names>(names: &N, bank: Bank, offset: Offset) -> Text
    ensures items { result.items ≡ unwrap_or (place_name (N.table names.now) (Fixed bank offset))
        (place_text (Fixed bank offset)) }
    ensures short { array_vec_len result ≤ 8 }
{
    match place_name(names, Linear::Fixed(bank, offset)) {
        Some(name) => {
            let mut text = ArrayVec::new();
            push_all(&mut text, name);
            text
        }
        None => place_text(Linear::Fixed(bank, offset)),
    }
}

/// What stands at a spot.
fn spot_reading(rope: &Rope, machine: &Machine, spot: &Spot) -> Text
    ensures items { result.items ≡ spot_reading rope.now machine.now.cells spot.now }
    ensures short { array_vec_len result ≤ 6 }
{
    match spot {
        Spot::Cell(cell) => cell_reading(machine, *cell),
        Spot::InRope(bank, offset) => fixed_reading(rope, *bank, *offset),
    }
}

/// The word at a place of fixed memory, in octal.
fn fixed_reading(rope: &Rope, bank: Bank, offset: Offset) -> Text
    ensures items { result.items ≡ octal_text 5 (word_at rope.now bank offset) }
    ensures len { array_vec_len result ≡ 5 }
{
    let mut text = ArrayVec::new();
    push_octal(&mut text, 5, rope.word(bank, offset).to_u16());
    text
}
