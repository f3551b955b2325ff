//! The product and the quotient of words.

ghost use Rattle.std.specs.Prelude.{◌≡◌, ◌<◌, ◌^◌, unsigned_abs};
ghost use Rattle.words.specs.Products.{product, quotient, dividend, dividend_is_minus};

use super::word::Word;

/// The two halves of a product, each with the product's sign.
#[derive(Clone, Copy, PartialEq, Eq, Debug, Drop)]
pub struct Product {
    /// The upper 14 bits of the magnitude.
    pub high: Word,
    /// The lower 14 bits of the magnitude.
    pub low: Word,
}

/// A quotient and its remainder.
#[derive(Clone, Copy, PartialEq, Eq, Debug, Drop)]
pub struct Quotient {
    /// Minus where the signs of dividend and divisor differ, also where it is zero.
    pub quotient: Word,
    /// Minus where the dividend is, also where it is zero; the low word where the quotient does not fit.
    pub remainder: Word,
}

/// The bits of a magnitude.
const MAGNITUDE_BITS: u32 = 14;

/// The greatest magnitude.
const LOW_BITS: u16 = 0o37777;

impl Word {
    /// The product of two words. A zero product is +0 and +0.
    pub fn mul(self, other: Word) -> Product
        ensures { result ≡ product self other }
    {
        let magnitude = u32::from(self.magnitude()) * u32::from(other.magnitude());
        let minus = magnitude != 0 && self.is_minus() != other.is_minus();
        Product {
            high: Word::of_magnitude((magnitude >> MAGNITUDE_BITS) as u16, minus),
            low: Word::of_magnitude((magnitude & 0o37777) as u16, minus),
        }
    }
}

/// The number that two words stand for together.
fn dividend(a: Word, l: Word) -> i32
    ensures value { result ≡ dividend a l }
    ensures range { unsigned_abs result < 2 ^ 28 }
{
    a.value() * 0o40000 + l.value()
}

/// The sign of a dividend, which for zero is that of its first word.
fn dividend_is_minus(a: Word, l: Word) -> bool
    ensures { result ≡ dividend_is_minus a l }
{
    let dividend = dividend(a, l);
    dividend < 0 || dividend == 0 && a.is_minus()
}

/// The quotient and the remainder of the dividend (a, l) by k. A quotient of more than 14 bits, as by a zero, has the
/// greatest magnitude, and leaves l.
pub fn div(a: Word, l: Word, k: Word) -> Quotient
    ensures { result ≡ quotient a l k }
{
    let magnitude = dividend(a, l).unsigned_abs();
    let divisor = u32::from(k.magnitude());
    let minus = dividend_is_minus(a, l);
    let minus_quotient = minus != k.is_minus();
    if magnitude < divisor * 0o40000 {
        Quotient {
            quotient: Word::of_magnitude((magnitude / divisor) as u16, minus_quotient),
            remainder: Word::of_magnitude((magnitude % divisor) as u16, minus),
        }
    } else {
        Quotient {
            quotient: Word::of_magnitude(LOW_BITS, minus_quotient),
            remainder: l,
        }
    }
}
