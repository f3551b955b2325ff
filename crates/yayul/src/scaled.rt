//! Decimal constants with a point and with scales.

ghost use Rattle.std.specs.Prelude.{◌≡◌, ◌≤◌, ◌<◌, ◌^◌, ◌*◌, ◌+◌, ◌||◌, ◌∷◌, [], length, nat_lt, is_some, true, IfSome};
ghost use Rattle.agc_text.specs.Fields.{texts, fields};
ghost use Rattle.yayul.specs.Scales.{count_to, signed_power, power_of_ten_in, power_of_two_in, scales_of, raised};
ghost use Rattle.yayul.specs.Scales.{quantity_of, whole_digits, pointed_in, quantity_in, nearest, power_or_none};
ghost use Rattle.yayul.specs.Scales.{magnitude_of, signed_word, one_word, two_words, words_of, quantity_content};
ghost use Rattle.yayul.specs.Scales.{magnitude_content, scaled_content, no_field, scales_beside, ends_in_star};
ghost use Rattle.yayul.specs.Scales.{without_star, decimal_content};

use crate::decimal::{before_point, decimal_in};
use crate::language::{Content, DoubleWord, Precision};
use crate::number::without_last;
use crate::statement::constant_of;
use agc_text::{before_comment, decimal, split_field};
use words::Word;

/// The most digits of a magnitude, before its point and after it.
const MOST_DIGITS: usize = 10;

/// What the digits of a magnitude stay below.
const DIGITS: u128 = 100_000_000_000;

/// The greatest magnitude of a word, and what one of two words stays below.
const GREATEST_MAGNITUDE: u128 = 0o37777;

const MAGNITUDES_OF_TWO: u128 = 1 << 28;

/// A power of ten or two: so many up or so many down.
#[derive(Clone, Copy, Drop)]
pub(crate) struct Power {
    up: u32,
    down: u32,
}

/// A power of ten, and one of two where one stands.
#[derive(Clone, Copy, Drop)]
pub(crate) struct Scales {
    ten: Power,
    two: Option<Power>,
}

/// Digits, so many of them after a point, and whether one stands.
#[derive(Clone, Copy, Drop)]
pub(crate) struct Quantity {
    digits: u128,
    decimals: u32,
    pointed: bool,
}

const LEVEL: Power = Power { up: 0, down: 0 };

/// The scales of a whole number in units of the lower of two words.
const LOWER_WORD: Scales = Scales {
    ten: LEVEL,
    two: Some(Power { up: 0, down: 28 }),
};

// The content of a decimal constant: its text, and what follows it on its line. One word without scales is that of the
// standard language.
pub(crate) fn decimal_content(precision: Precision, text: &[u8], rest: &[u8]) -> Option<Content>
    ensures { result ≡ decimal_content precision text.now (texts (fields rest.now)) }
{
    match precision {
        Precision::One => {
            if has_no_field(rest) {
                constant_of(decimal_in(text))
            } else {
                scaled_content(Precision::One, text, rest)
            }
        }
        Precision::Two => scaled_content(Precision::Two, text, rest),
    }
}

fn has_no_field(rest: &[u8]) -> bool
    ensures { result ≡ no_field (texts (fields rest.now)) }
{
    split_field(before_comment(rest)).is_none()
}

// A sign or none, a quantity and its scales.
fn scaled_content(precision: Precision, text: &[u8], rest: &[u8]) -> Option<Content>
    ensures { result ≡ scaled_content precision text.now (texts (fields rest.now)) }
{
    match text {
        [b'+', magnitude @ ..] => magnitude_content(precision, false, magnitude, rest),
        [b'-', magnitude @ ..] => magnitude_content(precision, true, magnitude, rest),
        _ => magnitude_content(precision, false, text, rest),
    }
}

fn magnitude_content(precision: Precision, minus: bool, text: &[u8], rest: &[u8]) -> Option<Content>
    ensures { result ≡ magnitude_content precision minus text.now (texts (fields rest.now)) }
{
    let quantity = quantity_in(text)?;
    let scales = scales_beside(precision, quantity.pointed, rest)?;
    quantity_content(precision, minus, quantity, scales)
}

// The scales beside a quantity: of one in two words that has no point, where none stand, those of a whole number.
fn scales_beside(precision: Precision, pointed: bool, rest: &[u8]) -> Option<Scales>
    ensures value { result ≡ scales_beside precision pointed (texts (fields rest.now)) }
    ensures ten_up { IfSome result (λ s. s.ten.up ≤ 11) }
    ensures ten_down { IfSome result (λ s. s.ten.down ≤ 12) }
    ensures two_up { IfSome result (λ s. (power_or_none s.two).up ≤ 24) }
    ensures two_down { IfSome result (λ s. (power_or_none s.two).down ≤ 50) }
{
    match precision {
        Precision::One => scales_of(rest),
        Precision::Two => {
            if has_no_field(rest) && !pointed {
                Some(LOWER_WORD)
            } else {
                scales_of(rest)
            }
        }
    }
}

// A quantity that has a point or a power of two.
fn quantity_content(
    precision: Precision,
    minus: bool,
    quantity: Quantity,
    scales: Scales,
) -> Option<Content>
    requires digits { quantity.digits < 10 ^ 11 }
    requires decimals { quantity.decimals ≤ 10 }
    requires ten_up { scales.ten.up ≤ 11 }
    requires ten_down { scales.ten.down ≤ 12 }
    requires two_up { (power_or_none scales.two).up ≤ 24 }
    requires two_down { (power_or_none scales.two).down ≤ 50 }
    ensures { result ≡ quantity_content precision minus quantity scales }
{
    if !quantity.pointed && scales.two.is_none() {
        return None;
    }
    let two = power_or_none(scales.two);
    Some(match precision {
        Precision::One => one_word(minus, magnitude_of(14, quantity, scales.ten, two)),
        Precision::Two => two_words(minus, magnitude_of(28, quantity, scales.ten, two)),
    })
}

fn power_or_none(two: Option<Power>) -> Power
    ensures { result ≡ power_or_none two }
{
    match two {
        Some(two) => two,
        None => LEVEL,
    }
}

// One word of a magnitude of 14 bits.
fn one_word(minus: bool, magnitude: u128) -> Content
    ensures { result ≡ one_word minus magnitude }
{
    Content::Constant(if magnitude <= GREATEST_MAGNITUDE {
        Some(signed_word(minus, magnitude as u16))
    } else {
        None
    })
}

// Two words of a magnitude of 28 bits, each with the sign.
fn two_words(minus: bool, magnitude: u128) -> Content
    ensures { result ≡ two_words minus magnitude }
{
    Content::Constants(if magnitude < MAGNITUDES_OF_TWO {
        Some(DoubleWord {
            first: signed_word(minus, (magnitude / 0o40000) as u16),
            second: signed_word(minus, (magnitude % 0o40000) as u16),
        })
    } else {
        None
    })
}

fn signed_word(minus: bool, magnitude: u16) -> Word
    requires { magnitude < 2 ^ 14 }
    ensures { result ≡ signed_word minus magnitude }
{
    let word = Word::of_low_bits(magnitude);
    if minus { word.neg() } else { word }
}

// A quantity times its scales and 2^bits, to the nearest.
fn magnitude_of(bits: u32, quantity: Quantity, ten: Power, two: Power) -> u128
    requires bits { bits ≤ 28 }
    requires digits { quantity.digits < 10 ^ 11 }
    requires decimals { quantity.decimals ≤ 10 }
    requires ten_up { ten.up ≤ 11 }
    requires ten_down { ten.down ≤ 12 }
    requires two_up { two.up ≤ 24 }
    requires two_down { two.down ≤ 50 }
    ensures { result ≡ magnitude_of bits quantity ten two }
{
    let number = scaled_up(
        quantity.digits,
        power_of_ten(ten.up),
        power_of_two(bits + two.up),
    );
    let unit = unit_of(
        power_of_ten(quantity.decimals + ten.down),
        power_of_two(two.down),
    );
    nearest(number, unit)
}

// Digits times two powers.
fn scaled_up(digits: u128, ten: u128, two: u128) -> u128
    requires digits { digits ≤ 10 ^ 11 }
    requires ten { ten ≤ 10 ^ 11 }
    requires two { two ≤ 2 ^ 52 }
    ensures value { result ≡ digits * ten * two }
    ensures few { result ≤ 10 ^ 22 * 2 ^ 52 }
{
    digits * ten * two
}

// The product of two powers.
fn unit_of(ten: u128, two: u128) -> u128
    requires some { 1 ≤ ten }
    requires some_two { 1 ≤ two }
    requires ten { ten ≤ 10 ^ 22 }
    requires two { two ≤ 2 ^ 50 }
    ensures value { result ≡ ten * two }
    ensures some { 1 ≤ result }
    ensures few { result ≤ 10 ^ 22 * 2 ^ 50 }
{
    ten * two
}

// A quotient to the nearest whole number, halves up.
fn nearest(number: u128, unit: u128) -> u128
    requires number { number ≤ 10 ^ 22 * 2 ^ 52 }
    requires some { 1 ≤ unit }
    requires few { unit ≤ 10 ^ 22 * 2 ^ 50 }
    ensures { result ≡ nearest number unit }
{
    (2 * number + unit) / (2 * unit)
}

fn power_of_two(count: u32) -> u128
    requires { count ≤ 52 }
    ensures value { result ≡ 2 ^ count }
    ensures some { 1 ≤ result }
    ensures few { result ≤ 2 ^ 52 }
    ensures fewer { count ≤ 50 → result ≤ 2 ^ 50 }
{
    1 << count
}

fn power_of_ten(count: u32) -> u128
    requires { count ≤ 22 }
    ensures value { result ≡ 10 ^ count }
    ensures some { 1 ≤ result }
    ensures few { result ≤ 10 ^ 22 }
    ensures fewer { count ≤ 11 → result ≤ 10 ^ 11 }
{
    10_u128.pow(count)
}

// Digits; or digits or none, a point and 1 to 10 digits.
fn quantity_in(text: &[u8]) -> Option<Quantity>
    ensures value { result ≡ quantity_in text.now }
    ensures digits { IfSome result (λ q. q.digits < 10 ^ 11) }
    ensures decimals { IfSome result (λ q. q.decimals ≤ 10) }
{
    let whole = before_point(text);
    if whole.len() < text.len() {
        return pointed_in(whole, &text[whole.len() + 1..]);
    }
    quantity_of(u128::from(decimal(text, MOST_DIGITS)?), 0, false)
}

// Digits or none, and 1 to 10 digits after a point.
fn pointed_in(whole: &[u8], decimals: &[u8]) -> Option<Quantity>
    ensures value { result ≡ pointed_in whole.now decimals.now }
    ensures digits { IfSome result (λ q. q.digits < 10 ^ 11) }
    ensures decimals { IfSome result (λ q. q.decimals ≤ 10) }
{
    let number = whole_digits(whole)?;
    let fraction = decimal(decimals, MOST_DIGITS)?;
    let count = decimals.len() as u32;
    let digits = joined(number, power_of_ten(count), fraction);
    quantity_of(digits, count, true)
}

// A number before a point, in units of its decimals, and these.
fn joined(whole: u64, unit: u128, fraction: u64) -> u128
    requires whole { whole ≤ 10 ^ 10 }
    requires unit { unit ≤ 10 ^ 22 }
    requires fraction { fraction ≤ 10 ^ 10 }
    ensures { result ≡ whole * unit + fraction }
{
    u128::from(whole) * unit + u128::from(fraction)
}

// Up to ten digits, or none.
fn whole_digits(text: &[u8]) -> Option<u64>
    ensures value { result ≡ whole_digits text.now }
    ensures few { IfSome result (λ number. number ≤ 10 ^ 10) }
{
    if text.is_empty() {
        Some(0)
    } else {
        decimal(text, MOST_DIGITS)
    }
}

// Some digits in all, the last of which are decimals.
fn quantity_of(digits: u128, decimals: u32, pointed: bool) -> Option<Quantity>
    requires { decimals ≤ 10 }
    ensures value { result ≡ quantity_of digits decimals pointed }
    ensures digits { IfSome result (λ q. q.digits < 10 ^ 11) }
    ensures decimals { IfSome result (λ q. q.decimals ≤ 10) }
{
    if digits < DIGITS {
        Some(Quantity {
            digits,
            decimals,
            pointed,
        })
    } else {
        None
    }
}

// The scales of a constant: a power of ten or none, and then a power of two or none.
fn scales_of(rest: &[u8]) -> Option<Scales>
    ensures value { result ≡ scales_of (texts (fields rest.now)) }
    ensures ten_up { IfSome result (λ s. s.ten.up ≤ 11) }
    ensures ten_down { IfSome result (λ s. s.ten.down ≤ 12) }
    ensures two_up { IfSome result (λ s. (power_or_none s.two).up ≤ 24) }
    ensures two_down { IfSome result (λ s. (power_or_none s.two).down ≤ 50) }
{
    let Some((first, rest)) = split_field(before_comment(rest)) else {
        return Some(Scales {
            ten: LEVEL,
            two: None,
        });
    };
    let Some((second, rest)) = split_field(rest) else {
        return one_scale(first);
    };
    match split_field(rest) {
        None => Some(Scales {
            ten: power_of_ten_in(first)?,
            two: Some(power_of_two_in(second)?),
        }),
        Some(_) => None,
    }
}

// A power of ten, or one of two.
fn one_scale(text: &[u8]) -> Option<Scales>
    ensures value { result ≡ scales_of (text.now ∷ []) }
    ensures ten_up { IfSome result (λ s. s.ten.up ≤ 11) }
    ensures ten_down { IfSome result (λ s. s.ten.down ≤ 12) }
    ensures two_up { IfSome result (λ s. (power_or_none s.two).up ≤ 24) }
    ensures two_down { IfSome result (λ s. (power_or_none s.two).down ≤ 50) }
{
    if let Some(ten) = power_of_ten_in(text) {
        return Some(Scales { ten, two: None });
    }
    Some(Scales {
        ten: LEVEL,
        two: Some(power_of_two_in(text)?),
    })
}

// A text without a star at its end.
fn without_star(text: &[u8]) -> &[u8]
    ensures { result.now ≡ without_star text.now }
{
    if ends_in_star(text) {
        without_last(text)
    } else {
        text
    }
}

fn ends_in_star(text: &[u8]) -> bool
    ensures { result ≡ ends_in_star text.now }
{
    match text.last() {
        Some(byte) => *byte == b'*',
        None => false,
    }
}

// An `E` and a power of ten.
fn power_of_ten_in(text: &[u8]) -> Option<Power>
    ensures value { result ≡ power_of_ten_in text.now }
    ensures up { IfSome result (λ p. p.up ≤ 11) }
    ensures down { IfSome result (λ p. p.down ≤ 12) }
{
    match text {
        [b'E', power @ ..] => signed_power(11, 12, power),
        _ => None,
    }
}

// A `B` and a power of two, perhaps with a star behind it.
fn power_of_two_in(text: &[u8]) -> Option<Power>
    ensures value { result ≡ power_of_two_in text.now }
    ensures up { IfSome result (λ p. p.up ≤ 24) }
    ensures down { IfSome result (λ p. p.down ≤ 50) }
{
    match text {
        [b'B', power @ ..] => signed_power(24, 50, without_star(power)),
        _ => None,
    }
}

// A power of at most so many up and so many down, with a sign or none.
fn signed_power(up: u32, down: u32, text: &[u8]) -> Option<Power>
    ensures value { result ≡ signed_power up down text.now }
    ensures up { IfSome result (λ p. p.up ≤ up) }
    ensures down { IfSome result (λ p. p.down ≤ down) }
{
    match text {
        [b'+', count @ ..] => Some(raised(count_to(up, count)?)),
        [b'-', count @ ..] => Some(Power {
            up: 0,
            down: count_to(down, count)?,
        }),
        _ => Some(raised(count_to(up, text)?)),
    }
}

fn raised(count: u32) -> Power
    ensures { result ≡ raised count }
{
    Power { up: count, down: 0 }
}

// One or two decimal digits, at most so many.
fn count_to(most: u32, text: &[u8]) -> Option<u32>
    ensures value { result ≡ count_to most text.now }
    ensures few { IfSome result (λ count. count ≤ most) }
{
    match decimal(text, 2) {
        Some(count) if count <= u64::from(most) => Some(count as u32),
        _ => None,
    }
}
