//! What a symbol stands for, and the place that it names.

ghost use Rattle.std.specs.Prelude.{◌≡◌, ◌<◌, IfSome, Some};
ghost use Rattle.space.specs.declared.place.Linear.TheVariants as Place;
ghost use Rattle.symbols.specs.Values.{place_of, place_of_number, HasWords};

use crate::bank::FixedBank;
use space::place::Linear;
use space::{Eras, Offset};
use words::Word;

/// What a symbol or an operand stands for.
#[derive(Clone, Copy, Drop)]
pub enum Value {
    /// A number, 0 to 077777.
    Num(Word),
    /// An erasable place.
    Erasable(Eras),
    /// A fixed place.
    Fixed(FixedBank, Offset),
}

/// The place of a value, where it has one: a number's is erasable, or in bank 2 or 3.
pub fn place_of(value: Value) -> Option<Linear>
    ensures place { result ≡ place_of value }
    ensures within { IfSome result HasWords }
{
    match value {
        Value::Num(number) => place_of_number(number.to_u16()),
        Value::Erasable(place) => Some(Linear::Erasable(place)),
        Value::Fixed(bank, offset) => Some(Linear::Fixed(bank.bank(), offset)),
    }
}

// The place of a number.
fn place_of_number(number: u16) -> Option<Linear>
    ensures place { result ≡ place_of_number number }
    ensures within { IfSome result HasWords }
{
    match number {
        0..0o4000 => Eras::try_new(number).map(Linear::Erasable),
        0o4000..0o6000 => place_in(FixedBank::two(), number - 0o4000),
        0o6000..0o10000 => place_in(FixedBank::three(), number - 0o6000),
        _ => None,
    }
}

// The place of an offset in a bank.
fn place_in(bank: FixedBank, offset: u16) -> Option<Linear>
    requires { offset < 0o2000 }
    ensures { result ≡ Some (Place.Fixed bank offset) }
{
    Offset::try_new(offset).map(|offset| Linear::Fixed(bank.bank(), offset))
}
