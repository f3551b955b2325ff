//! Which addresses of erasable memory are others in the new rope, as text.

ghost use Rattle.std.specs.Prelude.{◌≡◌, ◌+◌, ◌-◌, ◌/◌, ◌%◌, ◌<◌, ◌≤◌, ◌++◌, true};
ghost use Rattle.arrayvec.specs.ArrayVec.{array_vec_len};
ghost use Rattle.words.specs.Devices.{Writes, failures_after};
ghost use Rattle.rope.specs.Places.{fixed_places};
ghost use Rattle.audit.specs.BankFacts.{count_before};
ghost use Rattle.align.specs.Alignments.{renaming};
ghost use Rattle.align.specs.Pairings.{pairing};
ghost use Rattle.align.specs.RenamedLines.{bank_text, has_slot, is_alike, is_named_at, renamed_line};
ghost use Rattle.align.specs.RenamedLines.{renamed_lines, renamed_text, slot_address, slot_bank, slots};

use crate::checking::{Pairing, name_alike};
use crate::entries::{Entry, WORDS, entry_at};
use crate::lines::{Line, push_words};
use crate::renaming::{ERASABLE_BANK, FIRST_SWITCHED, SLOTS, renamed, slot};
use arrayvec::ArrayVec;
use audit::count_below;
use words::{Write, WriteFailed, push_all, push_octal, write_all};

/// Which address stands for which, and which the words of the old rope name.
#[derive(Clone, Copy, Debug)]
pub(crate) struct Renaming<'a> {
    pub(crate) names: &'a [Entry],
    pub(crate) back: &'a [Entry],
    pub(crate) operands: &'a [Entry],
}

/// Writes a line for each address that is another one in words that are paired.
///
/// After a failure a beginning of it was written.
pub(crate) fn write_renamed<W: Write>(
    r: Renaming<'_>,
    p: Pairing<'_>,
    out: &mut W,
) -> Result<(), WriteFailed>
    ensures written { W.told ≡ true → Writes (W.written out.old) (W.written out.new)
        (renamed_lines (renaming r.entry.names.now r.entry.back.now r.entry.operands.now)
        (pairing p.entry.own.now p.entry.old.now p.entry.new.now p.entry.to_old.now p.entry.to_new.now)) result }
    ensures failures { W.failures out.new ≡ failures_after (W.failures out.old) result }
{
    for entry in 0..SLOTS {
        write_all(out, renamed_line(r, p, entry).as_slice())?;
    }
    Ok(())
}

/// The line of an entry.
#[tactic(auto, unfolding(crate::specs::RenamedLines::renamed_line))]
fn renamed_line(r: Renaming<'_>, p: Pairing<'_>, entry: usize) -> Line
    requires { entry < slots }
    ensures { result.items ≡ renamed_line (renaming r.entry.names.now r.entry.back.now r.entry.operands.now)
        (pairing p.entry.own.now p.entry.old.now p.entry.new.now p.entry.to_old.now p.entry.to_new.now) entry }
{
    let other = renamed(r.names, slot_bank(entry), slot_address(entry));
    if other == slot_address(entry) {
        ArrayVec::new()
    } else {
        renamed_text(entry, other, count_named(r.operands, p, entry))
    }
}

/// The bank of whose words an entry is.
pub(crate) fn slot_bank(entry: usize) -> u16
    requires { entry < slots }
    ensures is { result ≡ slot_bank entry }
    ensures within { result < 36 }
{
    (entry / usize::from(ERASABLE_BANK)).saturating_sub(3) as u16
}

/// The address of an entry.
pub(crate) fn slot_address(entry: usize) -> u16
    requires { entry < slots }
    ensures is { result ≡ slot_address entry }
    ensures within { result < 0o2000 }
{
    if entry < usize::from(FIRST_SWITCHED) {
        entry as u16
    } else {
        FIRST_SWITCHED + (entry % usize::from(ERASABLE_BANK)) as u16
    }
}

/// The line of an entry whose address has become another in so many words.
fn renamed_text(entry: usize, other: u16, words: usize) -> Line
    requires entry { entry < slots }
    requires other { other < 0o2000 }
    ensures { result.items ≡ renamed_text entry other words }
{
    let mut line = ArrayVec::new();
    let address = slot_address(entry);
    if other != address && words != 0 {
        push_all(&mut line, b"RENAMED ");
        push_octal(&mut line, 4, address);
        push_all(&mut line, b" ");
        push_octal(&mut line, 4, other);
        push_bank(&mut line, entry);
        push_words(&mut line, words);
    }
    line
}

/// Appends the bank of whose words an entry is, where it is of one.
fn push_bank(line: &mut Line, entry: usize)
    requires room { array_vec_len line.old ≤ 24 }
    requires entry { entry < slots }
    ensures items { line.new.items ≡ line.old.items ++ bank_text entry }
    ensures len { array_vec_len line.new ≤ array_vec_len line.old + 8 }
{
    if entry >= usize::from(FIRST_SWITCHED) {
        push_all(line, b" BANK ");
        push_octal(line, 2, slot_bank(entry));
    }
}

/// How many words of the old rope name the address of an entry, and are paired.
fn count_named(operands: &[Entry], p: Pairing<'_>, entry: usize) -> usize
    ensures { result ≡ count_before (is_named_at operands.now
        (pairing p.entry.own.now p.entry.old.now p.entry.new.now p.entry.to_old.now p.entry.to_new.now) entry)
        fixed_places }
{
    usize::from(count_below(audit::PLACES, |place| {
        is_named_at(operands, p, entry, usize::from(place))
    }))
}

/// Whether the word at a place of the old rope names the address of an entry, and is paired with an equal one.
fn is_named_at(operands: &[Entry], p: Pairing<'_>, entry: usize, place: usize) -> bool
    requires { place < fixed_places }
    ensures { result ≡ is_named_at operands.now
        (pairing p.entry.own.now p.entry.old.now p.entry.new.now p.entry.to_old.now p.entry.to_new.now) entry place }
{
    has_slot(entry, (place / WORDS) as u16, entry_at(operands, place))
        && is_alike(p, place, entry_at(p.to_new, place))
}

/// Whether the word at a place of the old rope that has this entry is paired with an equal one.
fn is_alike(p: Pairing<'_>, place: usize, entry: Entry) -> bool
    ensures { result ≡ is_alike (pairing p.entry.own.now p.entry.old.now p.entry.new.now p.entry.to_old.now
        p.entry.to_new.now) place entry }
{
    match entry {
        Some(new) => name_alike(p, place, usize::from(new)),
        None => false,
    }
}

/// Whether an address that a word of a bank names has an entry.
fn has_slot(entry: usize, bank: u16, operand: Entry) -> bool
    ensures { result ≡ has_slot entry bank operand }
{
    match operand {
        Some(address) => slot(bank, address) == entry,
        None => false,
    }
}
