//! What an operand stands for.

ghost use Rattle.std.specs.Prelude.{◌≡◌, ◌≤◌, ◌<◌, IfOk};
ghost use Rattle.std.specs.Result.{result_map_both};
ghost use Rattle.symbols.specs.Values.{HasWords};
ghost use Rattle.yayul.specs.Layout.{value_here, location_of, location_at, erasable_place, moved, moved_value};
ghost use Rattle.yayul.specs.Layout.{term_value, value_of};
ghost use Rattle.yayul.specs.Inside.Sound.{IsPlace};
ghost use Rattle.yayul.specs.Inside.Representation.{value_at};

use crate::faults::FaultKind;
use crate::language::{Location, Operand, Shift, Term};
use space::place::Linear;
use space::{Eras, Offset};
use symbols::{FixedBank, Symbols, Value, place_of};
use words::Word;

// A number of a value's kind, which may be past the last that the kind has.
#[derive(Clone, Copy, Drop)]
enum Point {
    Num(u16),
    Erasable(u16),
    Fixed(FixedBank, u16),
}

impl Point {
    fn of_value(value: Value) -> Point
        ensures { value_at result ≡ value }
    {
        match value {
            Value::Num(number) => Point::Num(number.to_u16()),
            Value::Erasable(place) => Point::Erasable(place.number()),
            Value::Fixed(bank, offset) => Point::Fixed(bank, offset.number()),
        }
    }

    fn of_location(location: Location) -> Point
        ensures { value_at result ≡ value_here location }
    {
        match location {
            Location::Erasable(number) => Point::Erasable(number),
            Location::Fixed(bank, number) => Point::Fixed(bank, number),
        }
    }

    // The value so many on or back, of the same kind and in the same bank.
    fn moved(self, shift: Shift) -> Result<Value, FaultKind>
        ensures { result ≡ moved_value shift (value_at self) }
    {
        match self {
            Point::Num(number) => {
                let number = moved(0o77777, number, shift)?;
                Ok(Value::Num(Word::of_low_bits(number)))
            }
            Point::Erasable(number) => {
                match Eras::try_new(moved(0o3777, number, shift)?) {
                    Some(place) => Ok(Value::Erasable(place)),
                    None => unreachable!(),
                }
            }
            Point::Fixed(bank, number) => {
                match Offset::try_new(moved(0o1777, number, shift)?) {
                    Some(offset) => Ok(Value::Fixed(bank, offset)),
                    None => unreachable!(),
                }
            }
        }
    }
}

// The value of an operand of a line that stands at a location. A symbol that is not in the table is
// told as `missing`.
pub(crate) fn value_of(
    missing: FaultKind,
    symbols: &Symbols,
    here: Location,
    operand: &Operand,
) -> Result<Value, FaultKind>
    ensures { result ≡ value_of missing symbols.now (value_here here) operand.now }
{
    let point = term_value(missing, symbols, here, &operand.term)?;
    point.moved(operand.shift)
}

// The place of a value as a location.
pub(crate) fn location_at(value: Value) -> Result<Location, FaultKind>
    ensures value { result ≡ location_at value }
    ensures located { IfOk result IsPlace }
{
    match place_of(value) {
        Some(place) => Ok(location_of(place)),
        None => Err(FaultKind::OutOfRange),
    }
}

// A place as a location.
fn location_of(place: Linear) -> Location
    requires { HasWords place }
    ensures value { result ≡ location_of place }
    ensures located { IsPlace result }
{
    match place {
        Linear::Erasable(place) => Location::Erasable(place.number()),
        Linear::Fixed(bank, offset) => match FixedBank::try_new(bank.number()) {
            Some(bank) => Location::Fixed(bank, offset.number()),
            None => unreachable!(),
        },
    }
}

// The number of the erasable place that a value names.
pub(crate) fn erasable_place(value: Value) -> Result<u16, FaultKind>
    ensures value { result ≡ erasable_place value }
    ensures range { IfOk result (λ place. place < 0o4000) }
{
    match location_at(value)? {
        Location::Erasable(number) => Ok(number),
        Location::Fixed(..) => Err(FaultKind::WrongKindOfAddress),
    }
}

fn term_value(
    missing: FaultKind,
    symbols: &Symbols,
    here: Location,
    term: &Term,
) -> Result<Point, FaultKind>
    ensures { result_map_both value_at (λ fault. fault) result
        ≡ term_value missing symbols.now (value_here here) term.now }
{
    match term {
        Term::Number(Some(number)) => Ok(Point::of_value(Value::Num(*number))),
        Term::Number(None) => Err(FaultKind::OutOfRange),
        Term::Named(name) => match symbols.named(name) {
            Some(value) => Ok(Point::of_value(value)),
            None => Err(missing),
        },
        Term::Place(bank, offset) => Ok(Point::Fixed(*bank, offset.number())),
        Term::Here => Ok(Point::of_location(here)),
    }
}

// A number so many on or back, where that is at least 0 and at most `most`.
fn moved(most: u16, number: u16, shift: Shift) -> Result<u16, FaultKind>
    ensures value { result ≡ moved most number shift }
    ensures within { IfOk result (λ moved. moved ≤ most) }
{
    let moved = match shift {
        Shift::Plus(Some(count)) => number.checked_add(count.to_u16()),
        Shift::Minus(Some(count)) => number.checked_sub(count.to_u16()),
        Shift::Plus(None) | Shift::Minus(None) => None,
    };
    match moved {
        Some(moved) if moved <= most => Ok(moved),
        _ => Err(FaultKind::OutOfRange),
    }
}
