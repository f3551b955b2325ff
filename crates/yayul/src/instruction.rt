//! Codes whose words have 15 bits.

ghost use Rattle.std.specs.Prelude.{◌≡◌, ◌≤◌};
ghost use Rattle.yayul.specs.Inside.Codes.{greatest_code, greatest_with_field};

use crate::language::{AddressedCode, PlainCode};
use std::marker::Model;

/// An instruction without an operand, whose code has 15 bits.
#[derive(Clone, Copy, Drop)]
pub(crate) struct PlainInstruction {
    code: PlainCode,
}

impl Model for PlainInstruction {
    ghost use Rattle.std.specs.Prelude.{◌≤◌};
    ghost use Rattle.yayul.specs.Inside.Codes.{greatest_code};
    ghost use Rattle.yayul.specs.declared.language.PlainCode.{PlainCode as Code};

    ghost Value = { Code };

    ghost view = { λ i. i.code };

    ghost invariant = { λ i. i.code.code ≤ greatest_code };

    ghost inverse = { λ c. record { code = c } };
}

impl PlainInstruction {
    pub(crate) fn new(code: PlainCode) -> PlainInstruction
        requires { code.code ≤ greatest_code }
        ensures { result ≡ code }
    {
        PlainInstruction { code }
    }

    /// Its code.
    pub(crate) fn code(self) -> PlainCode
        ensures value { result ≡ self }
        ensures fits { result.code ≤ greatest_code }
    {
        self.code
    }
}

/// A code with a field, which has 15 bits with any field added.
#[derive(Clone, Copy, Drop)]
pub(crate) struct AddressedInstruction {
    code: AddressedCode,
}

impl Model for AddressedInstruction {
    ghost use Rattle.std.specs.Prelude.{◌≤◌};
    ghost use Rattle.yayul.specs.Inside.Codes.{greatest_code, greatest_with_field};
    ghost use Rattle.yayul.specs.declared.language.AddressedCode.{AddressedCode as Code};

    ghost Value = { Code };

    ghost view = { λ i. i.code };

    ghost invariant = { λ i. greatest_with_field i.code ≤ greatest_code };

    ghost inverse = { λ c. record { code = c } };
}

impl AddressedInstruction {
    pub(crate) fn new(code: AddressedCode) -> AddressedInstruction
        requires { greatest_with_field code ≤ greatest_code }
        ensures { result ≡ code }
    {
        AddressedInstruction { code }
    }

    /// Its code.
    pub(crate) fn code(self) -> AddressedCode
        ensures value { result ≡ self }
        ensures fits { greatest_with_field result ≤ greatest_code }
    {
        self.code
    }
}
