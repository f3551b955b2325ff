//! Values as text.

ghost use Rattle.std.specs.Prelude.{◌≡◌};
ghost use Rattle.symbols.specs.Values.{value_text};

use crate::values::Value;
use arrayvec::ArrayVec;
use words::{push_all, push_octal};

/// The most bytes of a value's text: `ERASABLE ` and 4 digits, or `FIXED `, 2 digits, a comma and 4 digits.
pub const VALUE_LENGTH: usize = 13;

/// The value of a symbol as text, such as `NUM 00020`, `ERASABLE 0100` or `FIXED 02,0005`.
pub fn value_text(value: Value) -> ArrayVec<u8, VALUE_LENGTH>
    ensures { result.items ≡ value_text value }
{
    let mut text = ArrayVec::new();
    match value {
        Value::Num(number) => {
            push_all(&mut text, b"NUM ");
            push_octal(&mut text, 5, number.to_u16());
        }
        Value::Erasable(place) => {
            push_all(&mut text, b"ERASABLE ");
            push_octal(&mut text, 4, place.number());
        }
        Value::Fixed(bank, offset) => {
            push_all(&mut text, b"FIXED ");
            push_octal(&mut text, 2, bank.bank().number());
            push_all(&mut text, b",");
            push_octal(&mut text, 4, offset.number());
        }
    }
    text
}
