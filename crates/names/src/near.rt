//! Addresses by the names of their places.

ghost use Rattle.std.specs.Prelude.{◌≡◌, ◌+◌, ◌-◌, ◌<◌, ◌≤◌, ◌++◌, unwrap_or, None, Some, nat_lt, if◌then◌else◌};
ghost use Rattle.arrayvec.specs.ArrayVec.{array_vec_len};
ghost use Rattle.trace.specs.TraceLines.{octal_digits, place_name};
ghost use Rattle.names.specs.NamedLines.{distance_text, named_place, near_text, nearest_name, needs_no_fb};
ghost use Rattle.names.specs.NamedLines.{place_before, place_told, places_before};
ghost use Rattle.space.specs.declared.place.Linear.TheVariants.{Fixed};

use crate::lines::Line;
use arrayvec::ArrayVec;
use space::{Addr12, Bank, Eras, Linear, Offset};
use symbols::FixedBank;
use trace::{Names, place_name};
use words::{push_all, push_octal};

/// The first address whose place FB selects.
const FIRST_SWITCHED: u16 = 0o2000;

/// Appends an address of a word of a bank: the name of the place to which it leads, or the nearest before it, or the
/// address.
#[tactic(auto, unfolding(crate::specs::NamedLines::place_told))]
pub(crate) fn push_address<N: Names>(line: &mut Line, names: &N, bank: Bank, address: Addr12)
    requires { array_vec_len line.old ≤ 32 }
    ensures items { line.new.items ≡ line.old.items
        ++ named_place (N.table names.now) address (place_told bank address) }
    ensures len { array_vec_len line.new ≤ array_vec_len line.old + 14 }
{
    match place_told(bank, address) {
        Some(place) => push_place(line, names, &place, address),
        None => push_octal(line, 4, address.number()),
    }
}

/// Appends an address that leads to a place.
fn push_place<N: Names>(line: &mut Line, names: &N, place: &Linear, address: Addr12)
    requires { array_vec_len line.old ≤ 32 }
    ensures items { line.new.items ≡ line.old.items
        ++ unwrap_or (place_name (N.table names.now) place.now)
        (near_text (nearest_name (N.table names.now) place.now) address) }
    ensures len { array_vec_len line.new ≤ array_vec_len line.old + 14 }
{
    match place_name(names, *place) {
        Some(name) => push_all(line, name),
        None => push_near(line, names, place, address),
    }
}

/// Appends an address by the nearest name before the place to which it leads, or as it is.
fn push_near<N: Names>(line: &mut Line, names: &N, place: &Linear, address: Addr12)
    requires { array_vec_len line.old ≤ 32 }
    ensures items { line.new.items ≡ line.old.items ++ near_text (nearest_name (N.table names.now) place.now) address }
    ensures len { array_vec_len line.new ≤ array_vec_len line.old + 14 }
{
    for distance in 0..places_before(place) + 1 {
        if let Some(name) = names.symbol_at(&place_before(place, distance)) {
            push_all(line, name);
            push_distance(line, distance);
            return;
        }
    }
    push_octal(line, 4, address.number());
}

/// The place to which an address leads at a word of a bank, where the image tells it.
#[tactic(auto, unfolding(crate::specs::NamedLines::place_told))]
fn place_told(bank: Bank, address: Addr12) -> Option<Linear>
    ensures { result ≡ place_told bank address }
{
    let number = address.number();
    if number < 0o1400 {
        Some(Linear::Erasable(Eras::of_low_bits(number)))
    } else if number < 0o2000 {
        None
    } else if number < 0o4000 {
        own_place(bank, address)
    } else {
        Some(fixed_place(address))
    }
}

/// The place in bank 2 or 3 to which an address leads that needs no FB.
fn fixed_place(address: Addr12) -> Linear
    requires { 0o4000 ≤ address }
    ensures { result ≡ (if nat_lt address 0o6000 then Fixed 2 (address - 0o4000) else Fixed 3 (address - 0o6000)) }
{
    let number = address.number();
    if number < 0o6000 {
        Linear::Fixed(
            FixedBank::two().bank(),
            Offset::of_low_bits(number - 0o4000),
        )
    } else {
        Linear::Fixed(
            FixedBank::three().bank(),
            Offset::of_low_bits(number - 0o6000),
        )
    }
}

/// The place of a word's own bank to which an address from 02000 to 03777 leads, where its words need FB.
fn own_place(bank: Bank, address: Addr12) -> Option<Linear>
    requires from { 0o2000 ≤ address }
    requires to { address < 0o4000 }
    ensures { result ≡ (if needs_no_fb bank then None else Some (Fixed bank (address - 0o2000))) }
{
    if needs_no_fb(bank) {
        None
    } else {
        Some(Linear::Fixed(bank, Offset::of_low_bits(address.number() - FIRST_SWITCHED)))
    }
}

/// Whether the words of a bank are reached whatever FB holds.
fn needs_no_fb(bank: Bank) -> bool
    ensures { result ≡ needs_no_fb bank }
{
    bank.number() == 2 || bank.number() == 3
}

/// How many places stand before a place, in its bank or in erasable memory.
pub fn places_before(place: &Linear) -> u16
    ensures value { result ≡ places_before place.now }
    ensures few { result < 0o4000 }
{
    match place {
        Linear::Erasable(place) => place.number(),
        Linear::Fixed(_, offset) => offset.number(),
    }
}

/// The place so many before a place.
pub fn place_before(place: &Linear, distance: u16) -> Linear
    requires { distance ≤ places_before place.now }
    ensures { result ≡ place_before place.now distance }
{
    match place {
        Linear::Erasable(place) => Linear::Erasable(Eras::of_low_bits(place.number() - distance)),
        Linear::Fixed(bank, offset) => {
            Linear::Fixed(*bank, Offset::of_low_bits(offset.number() - distance))
        }
    }
}

/// Appends a distance as it is added to a name, as ` +12`: at most 6 bytes.
#[tactic(auto, unfolding(trace::specs::TraceLines::short_octal))]
pub fn push_distance<const N: usize>(line: &mut ArrayVec<u8, N>, distance: u16)
    requires room { array_vec_len line.old + 6 ≤ N }
    requires few { distance < 0o4000 }
    ensures items { line.new.items ≡ line.old.items ++ distance_text distance }
    ensures len { array_vec_len line.new ≤ array_vec_len line.old + 6 }
{
    if distance > 0 {
        push_all(line, b" +");
        push_octal(line, octal_digits(distance), distance);
    }
}

/// How many octal digits a number has.
fn octal_digits(number: u16) -> usize
    requires { number < 0o4000 }
    ensures digits { result ≡ octal_digits number }
    ensures few { result ≤ 4 }
{
    match number {
        0..0o10 => 1,
        0o10..0o100 => 2,
        0o100..0o1000 => 3,
        _ => 4,
    }
}
