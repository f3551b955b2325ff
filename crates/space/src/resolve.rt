//! From addresses to places and back.

ghost use Rattle.std.specs.Prelude.{◌≡◌, ◌<◌, ◌≤◌, ℕ, Bool};
ghost use Rattle.space.specs.Places.{place, selected_bank, window, eb_of, fb_of, sup_of, IsErasable};

use crate::numbers::{Addr12, Bank, Eras, Offset};
use crate::place::{Banks, Linear};

/// The first address whose bank FB selects.
pub(crate) const FIRST_SWITCHED: u16 = 0o2000;

/// The first address that leads to bank 2 or 3 whatever the bank registers hold.
pub const FIRST_FIXED: u16 = 0o4000;

/// The place to which an address leads under the bank registers. An address below 02000 leads to
/// an erasable place.
#[tactic(auto, unfolding(crate::specs::Places::place))]
pub fn resolve(address: Addr12, banks: Banks) -> Linear
    ensures place { result ≡ place address banks.eb banks.fb banks.sup }
    ensures low { address < 0o2000 → IsErasable result }
{
    let address = address.number();
    if address < 0o1400 {
        Linear::Erasable(Eras::new(address))
    } else if address >= FIRST_FIXED {
        Linear::Fixed(Bank::new(address / 0o2000), Offset::new(address % 0o2000))
    } else if address < FIRST_SWITCHED {
        Linear::Erasable(Eras::new(banks.eb * 0o400 + (address - 0o1400)))
    } else {
        Linear::Fixed(
            Bank::new(selected_bank(banks.fb, banks.sup)),
            Offset::new(address - FIRST_SWITCHED),
        )
    }
}

/// The number of the bank that FB selects: from 030 on the superbank bit adds 010.
pub(crate) fn selected_bank(fb: u16, sup: bool) -> u16
    requires { fb < 0o40 }
    ensures bank { result ≡ selected_bank fb sup }
    ensures range { result < 0o50 }
{
    if sup && fb >= 0o30 { fb + 0o10 } else { fb }
}

/// The bank and the offset to which an address leads that needs no bank register.
#[tactic(auto, unfolding(crate::specs::Places::place))]
pub fn resolve_fixed(address: Addr12) -> (Bank, Offset)
    requires { 0o4000 ≤ address }
    ensures { (eb fb : ℕ) (sup : Bool) → place address eb fb sup ≡ Linear.Fixed result.0 result.1 }
{
    let number = address.number();
    (Bank::new(number / 0o2000), Offset::new(number % 0o2000))
}

/// The first address whose place the erasable bank selects.
pub const FIRST_IN_WINDOW: u16 = 0o1400;

/// The erasable place to which an address leads that needs no bank register.
#[tactic(auto, unfolding(crate::specs::Places::place))]
pub fn resolve_unbanked(address: Addr12) -> Eras
    requires { address < 0o1400 }
    ensures { (eb fb : ℕ) (sup : Bool) → place address eb fb sup ≡ Linear.Erasable result }
{
    Eras::new(address.number())
}

/// The address at which a program reaches a place, once the bank registers are set for it.
#[tactic(auto, unfolding(crate::specs::Places::window))]
pub fn window(linear: Linear) -> Addr12
    ensures { result ≡ window linear }
{
    match linear {
        Linear::Erasable(place) => {
            let place = place.number();
            Addr12::new(if place < 0o1400 {
                place
            } else {
                0o1400 + place % 0o400
            })
        }
        Linear::Fixed(bank, offset) => {
            let first = match bank.number() {
                2 => 0o4000,
                3 => 0o6000,
                _ => 0o2000,
            };
            Addr12::new(first + offset.number())
        }
    }
}

/// The bank registers and the superbank bit as they are set for a place. Under them its window
/// leads back to it.
#[tactic(auto, unfolding(crate::specs::Places::eb_of, crate::specs::Places::fb_of, crate::specs::Places::sup_of))]
pub fn banks_of(linear: Linear) -> Banks
    ensures eb { result.eb ≡ eb_of linear }
    ensures fb { result.fb ≡ fb_of linear }
    ensures sup { result.sup ≡ sup_of linear }
    ensures leads_back { place (window linear) result.eb result.fb result.sup ≡ linear }
{
    match linear {
        Linear::Erasable(place) => Banks {
            eb: place.number() / 0o400,
            fb: 0,
            sup: false,
        },
        Linear::Fixed(bank, _) => {
            let bank = bank.number();
            let sup = bank >= 0o40;
            Banks {
                eb: 0,
                fb: if sup { bank - 0o10 } else { bank },
                sup,
            }
        }
    }
}
