//! Numbers as text.

ghost use Rattle.std.specs.Prelude.{◌≡◌, ◌++◌, decimal, OnOk};

use std::alloc::AllocError;
use words::BackwardText;

/// How many digits a number has at most.
pub const DIGITS: usize = 20;

/// Appends the digits of a number.
#[tactic(auto, using(words::proofs::Digits::short_decimal, std::proofs::lemmas::Fmt::decimal_digit))]
pub fn push_number(out: &mut Vec<u8>, number: u64) -> Result<(), AllocError>
    ensures { OnOk result (out.new.items ≡ out.old.items ++ decimal number) }
{
    if number < 10 {
        out.push(b'0' + number as u8)?;
        return Ok(());
    }
    let mut digits = BackwardText::new();
    digits.prepend_decimal(number);
    out.extend_from_slice(digits.as_slice())?;
    Ok(())
}
