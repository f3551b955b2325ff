//! Whether a quotient fits.

ghost use Rattle.std.specs.Prelude.{◌≡◌, ◌<◌, ◌^◌, unsigned_abs};
ghost use Rattle.words.specs.Numbers.{value};
ghost use Rattle.words.specs.Products.{dividend, magnitude, quotient_fits};

use words::Word;

/// The sign of a word.
const SIGN: u16 = 0o40000;

/// All bits of a word.
const GREATEST_WORD: u16 = 0o77777;

/// Whether the quotient of the dividend (a, l) by k has 14 bits.
pub fn quotient_fits(a: Word, l: Word, k: Word) -> bool
    ensures { result ≡ quotient_fits a l k }
{
    dividend(a, l).unsigned_abs() < u32::from(magnitude(k)) * 0o40000
}

/// The number that two words stand for together.
fn dividend(a: Word, l: Word) -> i32
    ensures value { result ≡ dividend a l }
    ensures range { unsigned_abs result < 2 ^ 28 }
{
    value(a) * 0o40000 + value(l)
}

/// The number that a word stands for.
fn value(word: Word) -> i32
    ensures { result ≡ value word }
{
    let magnitude = i32::from(magnitude(word));
    if word.to_u16() < SIGN {
        magnitude
    } else {
        -magnitude
    }
}

/// The number without its sign.
fn magnitude(word: Word) -> u16
    ensures value { result ≡ magnitude word }
    ensures range { result < 2 ^ 14 }
{
    let bits = word.to_u16();
    if bits < SIGN {
        bits
    } else {
        GREATEST_WORD - bits
    }
}
