//! Bits of A and of an operand: of whole wides, or of their words.

ghost use Rattle.std.specs.Prelude.{◌≡◌, false};
ghost use Rattle.words.specs.BitSums.{and_sum, or_sum, xor_sum};
ghost use Rattle.cpu.specs.Effects.{bitwise, is_whole};

use space::{Eras, Linear};
use words::Wide;

/// Whether a place holds all 16 bits of a wide.
pub(crate) fn is_whole(place: &Linear) -> bool
    ensures { result ≡ is_whole place.now }
{
    match *place {
        Linear::Erasable(place) => place == Eras::A || place == Eras::Q,
        Linear::Fixed(_, _) => false,
    }
}

/// Each bit that stands in both, of whole wides or of their words.
pub(crate) fn and(whole: bool, left: Wide, right: Wide) -> Wide
    ensures { result ≡ bitwise and_sum whole left right }
{
    if whole {
        left.and(right)
    } else {
        left.correct().and(right.correct()).extend()
    }
}

/// Each bit that stands in one at least, of whole wides or of their words.
pub(crate) fn or(whole: bool, left: Wide, right: Wide) -> Wide
    ensures { result ≡ bitwise or_sum whole left right }
{
    if whole {
        left.or(right)
    } else {
        left.correct().or(right.correct()).extend()
    }
}

/// Each bit that stands in exactly one, of whole wides or of their words.
pub(crate) fn xor(whole: bool, left: Wide, right: Wide) -> Wide
    ensures { result ≡ bitwise xor_sum whole left right }
{
    if whole {
        left.xor(right)
    } else {
        left.correct().xor(right.correct()).extend()
    }
}
