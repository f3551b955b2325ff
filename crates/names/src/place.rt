//! Where addresses and names lead.

ghost use Rattle.std.specs.Prelude.{◌≡◌, ◌≤◌, ◌<◌, ◌-◌, nat_lt, None, Some, if◌then◌else◌};
ghost use Rattle.space.specs.declared.place.Linear.TheVariants.{Fixed};
ghost use Rattle.names.specs.NamedLines.{needs_no_fb, place_told};
ghost use Rattle.names.specs.Uses.{place_of};

use space::{Addr12, Bank, Eras, Linear, Offset};
use symbols::Value;

/// The first address that EB decides.
const FIRST_OF_EB: u16 = 0o1400;

/// The first address of fixed memory, which FB decides.
const FIRST_OF_FB: u16 = 0o2000;

/// The first address that leads to its place whatever the bank registers hold.
const FIRST_UNBANKED: u16 = 0o4000;

/// The place of a name: a number has none.
pub(crate) fn place_of(value: Value) -> Option<Linear>
    ensures { result ≡ place_of value }
{
    match value {
        Value::Num(_) => None,
        Value::Erasable(place) => Some(Linear::Erasable(place)),
        Value::Fixed(bank, offset) => Some(Linear::Fixed(bank.bank(), offset)),
    }
}

/// The place to which an address leads at a word of a bank, where the image tells it.
#[tactic(auto, unfolding(crate::specs::NamedLines::place_told))]
pub(crate) fn place_told(bank: Bank, address: Addr12) -> Option<Linear>
    ensures { result ≡ place_told bank address }
{
    let number = address.number();
    if number < FIRST_OF_EB {
        Some(Linear::Erasable(Eras::of_low_bits(number)))
    } else if number < FIRST_OF_FB {
        None
    } else if number < FIRST_UNBANKED {
        own_place(bank, number)
    } else {
        Some(unbanked_place(number))
    }
}

// The place of a word's own bank, where its words need FB.
fn own_place(bank: Bank, number: u16) -> Option<Linear>
    requires from { 0o2000 ≤ number }
    requires to { number < 0o4000 }
    ensures { result ≡ (if needs_no_fb bank then None else Some (Fixed bank (number - 0o2000))) }
{
    if bank.number() == 2 || bank.number() == 3 {
        None
    } else {
        Some(Linear::Fixed(bank, Offset::of_low_bits(number - FIRST_OF_FB)))
    }
}

// The place of bank 2 or 3 to which an address leads.
fn unbanked_place(number: u16) -> Linear
    requires from { 0o4000 ≤ number }
    requires to { number < 0o10000 }
    ensures { result ≡ (if nat_lt number 0o6000 then Fixed 2 (number - 0o4000) else Fixed 3 (number - 0o6000)) }
{
    let offset = Offset::of_low_bits(number);
    if number < 0o6000 {
        Linear::Fixed(Bank::try_new(2).unwrap(), offset)
    } else {
        Linear::Fixed(Bank::try_new(3).unwrap(), offset)
    }
}
