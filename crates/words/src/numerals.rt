//! Text that goes out, put together with no memory.

ghost use Rattle.std.specs.Prelude.{◌≡◌, ◌+◌, ◌%◌, ◌≤◌, ◌++◌, length, decimal};
ghost use Rattle.arrayvec.specs.ArrayVec.{array_vec_len};
ghost use Rattle.words.specs.Numerals.{digit_zero, octal_text};

use arrayvec::ArrayVec;

mod backward;

pub use self::backward::BackwardText;

/// Appends a text.
pub fn push_all<const N: usize>(line: &mut ArrayVec<u8, N>, text: &[u8])
    requires { array_vec_len line.old + length text.now ≤ N }
    ensures items { line.new.items ≡ line.old.items ++ text.now }
    ensures len { array_vec_len line.new ≡ array_vec_len line.old + length text.now }
{
    for byte in text {
        line.push(*byte);
    }
}

/// Appends a number in decimal, with no zero before it.
#[tactic(auto, using(crate::proofs::Digits::short_decimal))]
pub fn push_decimal<const N: usize>(line: &mut ArrayVec<u8, N>, number: u64)
    requires { array_vec_len line.old + length (decimal number) ≤ N }
    ensures items { line.new.items ≡ line.old.items ++ decimal number }
    ensures len { array_vec_len line.new ≡ array_vec_len line.old + length (decimal number) }
{
    let mut digits = BackwardText::new();
    digits.prepend_decimal(number);
    push_all(line, digits.as_slice());
}

/// Appends the last octal digits of a number, as many as `digits`.
pub fn push_octal<const N: usize>(line: &mut ArrayVec<u8, N>, digits: usize, number: u16)
    requires { array_vec_len line.old + digits ≤ N }
    ensures items { line.new.items ≡ line.old.items ++ octal_text digits number }
    ensures len { array_vec_len line.new ≡ array_vec_len line.old + digits }
{
    if digits > 0 {
        push_octal(line, digits - 1, number / 8);
        line.push(last_octal_digit(number));
    }
}

fn last_octal_digit(number: u16) -> u8
    ensures { result ≡ digit_zero + number % 8 }
{
    b'0' + (number % 8) as u8
}
