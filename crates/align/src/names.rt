//! The names of the old rope with what they stand for in the new one.

ghost use Rattle.std.specs.Prelude.{◌≡◌, ◌+◌, ◌*◌, ◌/◌, ◌%◌, ◌<◌, ◌≤◌, ◌++◌, true, length};
ghost use Rattle.words.specs.Devices.{Writes, failures_after};
ghost use Rattle.align.specs.Alignments.{renaming};
ghost use Rattle.align.specs.CarriedNames.{address_of_place, carried_line, carried_lines, is_kept};
ghost use Rattle.align.specs.CarriedNames.{is_sure_place, keep_switched, known_line, place_in_bank, settled_line};
ghost use Rattle.align.specs.Evidences.{IsKnown};
ghost use Rattle.align.specs.Pairings.{pairing};
ghost use Rattle.rope.specs.Places.{fixed_places};

use crate::alignment::{Alignment, pairing_of, renaming_of};
use crate::carrying::{Line, fixed_line, name_line};
use crate::checking::Pairing;
use crate::entries::{Entry, WORDS, entry_at};
use crate::evidence::{ADDRESSES, Evidence, is_enough, weigh};
use crate::renamed_lines::{Renaming, slot_address, slot_bank};
use crate::renaming::{ERASABLE_BANK, FIRST_FREE, FIRST_SWITCHED, SLOTS, renamed};
use audit::Written;
use space::Eras;
use symbols::{Symbols, Value};
use words::{Write, write_all};

/// Writes a line for each name of a table, in their order, with what it stands for in the new rope, as `START FIXED
/// 02,0003`. In a comment stand those that are near an end of a run which no single changed word makes, as `# UNSURE
/// START FIXED 02,0003`, and with the old place those that are in no run, as
/// `# GONE START FIXED 02,0000`; and erasable places of whose addresses too little is known, as `# UNSURE COUNT
/// ERASABLE 0123`. Numbers, registers and counters are as they were.
///
/// After a failure a beginning of it was written.
pub fn write_carried<W: Write>(alignment: &Alignment, names: &Symbols, out: &mut W) -> Written
    ensures written { W.told ≡ true → Writes (W.written out.old) (W.written out.new)
        (carried_lines (renaming alignment.now.names.items alignment.now.back.items alignment.now.operands.items)
        (pairing alignment.now.own.items alignment.now.old.items alignment.now.new.items alignment.now.to_old.items
        alignment.now.to_new.items) names.now) result }
    ensures failures { W.failures out.new ≡ failures_after (W.failures out.old) result }
{
    write_names(renaming_of(alignment), pairing_of(alignment), names, out)
}

/// Writes the lines of all names.
fn write_names<W: Write>(r: Renaming<'_>, p: Pairing<'_>, names: &Symbols, out: &mut W) -> Written
    ensures written { W.told ≡ true → Writes (W.written out.old) (W.written out.new)
        (carried_lines (renaming r.entry.names.now r.entry.back.now r.entry.operands.now)
        (pairing p.entry.own.now p.entry.old.now p.entry.new.now p.entry.to_old.now p.entry.to_new.now) names.now)
        result }
    ensures failures { W.failures out.new ≡ failures_after (W.failures out.old) result }
{
    let known = weigh(r.operands, p);
    let kept = keep_switched(r.names);
    for index in 0..names.len() {
        let Some(entry) = names.entry(index) else {
            unreachable!()
        };
        let line = carried_line(r, p, &known, kept, entry.0, entry.1);
        write_all(out, line.as_slice())?;
    }
    Ok(())
}

/// The line of a name, where what is known of all addresses is at hand, and whether all of the switched bank stand for
/// themselves.
fn carried_line(
    r: Renaming<'_>,
    p: Pairing<'_>,
    known: &[Evidence; ADDRESSES],
    kept: bool,
    name: &[u8],
    value: Value,
) -> Line
    requires name { length name.now ≤ 8 }
    requires len { length known.now ≡ 0o2000 }
    requires known { IsKnown r.operands.now (pairing p.own.now p.old.now p.new.now p.to_old.now p.to_new.now)
        fixed_places known.now }
    requires kept { kept ≡ keep_switched r.names.now 9216 }
    ensures { result.items ≡ carried_line (renaming r.entry.names.now r.entry.back.now r.entry.operands.now)
        (pairing p.entry.own.now p.entry.old.now p.entry.new.now p.entry.to_old.now p.entry.to_new.now)
        (name.now, value) }
{
    match value {
        Value::Fixed(bank, offset) => {
            let place = WORDS * usize::from(bank.bank().number()) + usize::from(offset.number());
            fixed_line(p, name, place, entry_at(p.to_new, place))
        }
        Value::Erasable(place) => {
            let number = place.number();
            if number < FIRST_FREE {
                name_line(b"", name, value)
            } else {
                let address = usize::from(address_of_place(number));
                known_line(r.names, kept, name, number, known[address])
            }
        }
        Value::Num(_) => name_line(b"", name, value),
    }
}

/// The line of a name of an erasable place that is no register and no counter, by what is known of its address.
fn known_line(names: &[Entry], kept: bool, name: &[u8], place: u16, known: Evidence) -> Line
    requires kept { kept ≡ keep_switched names.now 9216 }
    requires name { length name.now ≤ 8 }
    requires place { place < 0o4000 }
    ensures { result.items ≡ known_line names.now name.now place known }
{
    let other = renamed(names, known.bank, address_of_place(place));
    settled_line(
        is_sure_place(names, kept, place, known),
        name,
        place_in_bank(place, other),
    )
}

/// Whether an erasable place is surely carried.
fn is_sure_place(names: &[Entry], kept: bool, place: u16, known: Evidence) -> bool
    requires { kept ≡ keep_switched names.now 9216 }
    ensures { result ≡ is_sure_place names.now place known }
{
    is_enough(known) && (place < FIRST_SWITCHED || kept)
}

/// The line of a name and an erasable place that it surely stands for, or in a comment.
fn settled_line(sure: bool, name: &[u8], place: u16) -> Line
    requires name { length name.now ≤ 8 }
    requires place { place < 0o4000 }
    ensures { result.items ≡ settled_line sure name.now place }
{
    let value = Value::Erasable(Eras::try_new(place).unwrap());
    if sure {
        name_line(b"", name, value)
    } else {
        name_line(b"# UNSURE ", name, value)
    }
}

/// The address of an erasable place.
fn address_of_place(place: u16) -> u16
    ensures is { result ≡ address_of_place place }
    ensures within { result < 0o2000 }
{
    if place < FIRST_SWITCHED {
        place
    } else {
        FIRST_SWITCHED + place % ERASABLE_BANK
    }
}

/// The place of an address in the bank of another place.
fn place_in_bank(place: u16, address: u16) -> u16
    requires place { place < 0o4000 }
    requires address { address < 0o2000 }
    ensures is { result ≡ place_in_bank place address }
    ensures within { result < 0o4000 }
{
    if place < FIRST_SWITCHED {
        address
    } else {
        place / ERASABLE_BANK * ERASABLE_BANK + address % ERASABLE_BANK
    }
}

/// Whether each address of the switched bank stands for itself, in the words of all banks.
#[tactic(auto, using(crate::proofs::Steps::kept_first, crate::proofs::Steps::kept_next))]
fn keep_switched(names: &[Entry]) -> bool
    ensures { result ≡ keep_switched names.now 9216 }
{
    let mut kept = true;
    for more in 0..SLOTS - 0o1400 {
        kept = is_kept(names, more) && kept;
    }
    kept
}

/// Whether an address of the switched bank stands for itself in the words of a bank.
fn is_kept(names: &[Entry], more: usize) -> bool
    requires { more < 9216 }
    ensures { result ≡ is_kept names.now more }
{
    let entry = 0o1400 + more;
    renamed(names, slot_bank(entry), slot_address(entry)) == slot_address(entry)
}
