//! Words that are written on a channel which is a register, and so do not go out.

ghost use Rattle.std.specs.Prelude.{◌≡◌};
ghost use Rattle.warnings.specs.Warnings.{is_register_channel, stays_inside};
ghost use Rattle.yayul.specs.Readings.{parts_in};

use crate::fields::text_of;
use crate::roles::Class;
use crate::warning::has_alone;
use agc_text::{Number, octal_value};
use yayul::Reading;

/// Whether a line writes a word on channel 1 or 2.
pub(crate) fn stays_inside(parts: &Reading<'_>) -> bool
    ensures { result ≡ stays_inside (parts_in parts.now) }
{
    has_alone(Class::WritesChannel.has(parts.role), parts)
        && is_register_channel(text_of(parts.operand))
}

// Octal digits of a channel that is L or Q.
fn is_register_channel(text: &[u8]) -> bool
    ensures { result ≡ is_register_channel text.now }
{
    matches!(octal_value(text), Some(Number::Small(number)) if 1 <= number && number <= 2)
}
