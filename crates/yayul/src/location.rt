//! Locations: where the next word stands.

ghost use Rattle.std.specs.Prelude.{◌≡◌, ◌≤◌, if◌then◌else◌, None, Some, IfOk};
ghost use Rattle.yayul.specs.Layout.{value_here, lacks_room, after_words, is_erasable, erased_to, word_place};
ghost use Rattle.yayul.specs.Inside.Sound.{IsLocation};

use crate::faults::FaultKind;
use crate::language::{Location, Numeral};
use space::{Eras, Offset};
use symbols::{FixedBank, Value};

impl Location {
    /// Whether it stands just past the end of erasable memory or of its bank.
    pub(crate) fn is_past_end(self) -> bool
        ensures { result ≡ lacks_room 1 self }
    {
        match self {
            Location::Erasable(number) => number > 0o3777,
            Location::Fixed(_, number) => number > 0o1777,
        }
    }

    /// Whether one or two words from it on reach past the end of erasable memory or of its bank.
    pub(crate) fn lacks_room(self, count: usize) -> bool
        requires { count ≤ 2 }
        ensures { result ≡ lacks_room count self }
    {
        match self {
            Location::Erasable(number) => usize::from(number) + count > 0o4000,
            Location::Fixed(_, number) => usize::from(number) + count > 0o2000,
        }
    }

    /// The location after a word.
    pub(crate) fn after_word(self) -> Location
        requires { IsLocation self }
        ensures { result ≡ after_words 1 self }
    {
        match self {
            Location::Erasable(number) => Location::Erasable(number + 1),
            Location::Fixed(bank, number) => Location::Fixed(bank, number + 1),
        }
    }

    /// Whether it stands in erasable memory.
    pub(crate) fn is_erasable(self) -> bool
        ensures { result ≡ is_erasable self }
    {
        match self {
            Location::Erasable(_) => true,
            Location::Fixed(..) => false,
        }
    }

    /// The location as a value, unless it stands past an end.
    pub(crate) fn value(self) -> Option<Value>
        ensures { result ≡ (if lacks_room 1 self then None else Some (value_here self)) }
    {
        match self {
            Location::Erasable(number) => Eras::try_new(number).map(Value::Erasable),
            Location::Fixed(bank, number) => {
                Offset::try_new(number).map(|offset| Value::Fixed(bank, offset))
            }
        }
    }

    /// The location after so many erasable words and one.
    pub(crate) fn erased_to(self, count: Numeral) -> Result<Location, FaultKind>
        ensures value { result ≡ erased_to self count }
        ensures located { IfOk result IsLocation }
    {
        let count = match count {
            Numeral::NoForm => return Err(FaultKind::BadOperand),
            Numeral::TooLarge => None,
            Numeral::Is(count) => Some(count.to_u16()),
        };
        match (self, count) {
            (Location::Fixed(..), _) => Err(FaultKind::WrongKindOfAddress),
            (Location::Erasable(_), None) => Err(FaultKind::BankFull),
            (Location::Erasable(number), Some(count)) => {
                let end = u32::from(number) + u32::from(count) + 1;
                match u16::try_from(end) {
                    Ok(end) if end <= 0o4000 => Ok(Location::Erasable(end)),
                    _ => Err(FaultKind::BankFull),
                }
            }
        }
    }

    /// The place of a word, where one may stand.
    pub(crate) fn word_place(self) -> Option<(FixedBank, Offset)>
        ensures { result ≡ word_place self }
    {
        match self {
            Location::Erasable(_) => None,
            Location::Fixed(bank, number) => Offset::try_new(number).map(|offset| (bank, offset)),
        }
    }
}
