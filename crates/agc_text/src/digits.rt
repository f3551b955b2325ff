//! The numbers that digits give.

ghost use Rattle.std.specs.Prelude.{◌≡◌, ◌<◌, ◌≤◌, ◌*◌, ◌+◌, ◌^◌, ℕ, true, IfSome, SomeIff};
ghost use Rattle.std.specs.Option.{option_map};
ghost use Rattle.agc_text.specs.Digits.{number_of, is_digit, digit_value, digits_value, sized};

/// A number of any count of digits, as it is told.
#[derive(Clone, Copy, PartialEq, Eq, Debug)]
pub enum Number {
    /// The number itself, where it is below 2^32.
    Small(u32),
    /// It is 2^32 or more.
    Large,
}

impl Number {
    // The number with one more digit at its end.
    fn with_digit(self, base: u64, digit: u64) -> Number
        requires some { 1 ≤ base }
        requires base { base ≤ 10 }
        requires digit { digit ≤ 9 }
        ensures { (n : ℕ) → self ≡ sized n → result ≡ sized (n * base + digit) }
    {
        match self {
            Number::Small(number) => {
                let more = u64::from(number) * base + digit;
                match u32::try_from(more) {
                    Ok(number) => Number::Small(number),
                    Err(_) => Number::Large,
                }
            }
            Number::Large => Number::Large,
        }
    }
}

/// The number that 1 to `most` octal digits give, where the field is that.
pub fn octal(field: &[u8], most: usize) -> Option<u64>
    requires { most ≤ 15 }
    ensures { result ≡ number_of 8 most field.now }
{
    few_digits_value(field, 8, most)
}

/// The number that 1 to `most` decimal digits give, where the field is that.
pub fn decimal(field: &[u8], most: usize) -> Option<u64>
    requires { most ≤ 15 }
    ensures value { result ≡ number_of 10 most field.now }
    ensures below { IfSome result (λ number. number < 10 ^ most) }
{
    few_digits_value(field, 10, most)
}

/// The number that 1 or more octal digits give, where the field is that.
pub fn octal_value(field: &[u8]) -> Option<Number>
    ensures { result ≡ option_map sized (digits_value 8 field.now) }
{
    digits_value(field, 8)
}

/// The number that 1 or more decimal digits give, where the field is that.
pub fn decimal_value(field: &[u8]) -> Option<Number>
    ensures { result ≡ option_map sized (digits_value 10 field.now) }
{
    digits_value(field, 10)
}

fn few_digits_value(field: &[u8], base: u64, most: usize) -> Option<u64>
    requires few { most ≤ 15 }
    requires low { 2 ≤ base }
    requires high { base ≤ 10 }
    ensures value { result ≡ number_of base most field.now }
    ensures below { IfSome result (λ number. number < 10 ^ most) }
{
    if field.is_empty() || field.len() > most {
        return None;
    }
    let mut value = 0;
    for byte in field {
        let digit = digit_of(*byte, base)?;
        value = value * base + digit;
    }
    Some(value)
}

fn digits_value(field: &[u8], base: u64) -> Option<Number>
    requires low { 2 ≤ base }
    requires high { base ≤ 10 }
    ensures { result ≡ option_map sized (digits_value base field.now) }
{
    if field.is_empty() {
        return None;
    }
    let mut number = Number::Small(0);
    for byte in field {
        let digit = digit_of(*byte, base)?;
        number = number.with_digit(base, digit);
    }
    Some(number)
}

fn digit_of(byte: u8, base: u64) -> Option<u64>
    ensures { SomeIff result (is_digit base byte ≡ true) (digit_value byte) }
{
    if byte < b'0' {
        return None;
    }
    let digit = u64::from(byte - b'0');
    if digit < base { Some(digit) } else { None }
}
