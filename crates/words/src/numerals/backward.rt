//! A short text that is put together from its end.

ghost use Rattle.std.specs.Prelude.{◌≡◌, ◌+◌, ◌/◌, ◌%◌, ◌<◌, ◌≤◌, [], ◌∷◌, ◌++◌, length, decimal};
ghost use Rattle.words.specs.Numerals.{octal_text, digit_zero, backward_room};

use std::marker::Model;

/// The most bytes of such a text.
const ROOM: usize = 40;

/// A text of at most 40 bytes that is put together from its end: each byte goes before those that stand.
#[derive(Drop)]
pub struct BackwardText {
    bytes: [u8; 40],
    start: usize,
}

impl Model for BackwardText {
    ghost use Rattle.std.specs.Prelude.{ℕ, List, ◌≤◌, drop};
    ghost use Rattle.std.specs.Coded.{coded_ℕ, coded_list};

    ghost Value = { List ℕ };

    ghost coded = { coded_list coded_ℕ };

    ghost view = { λ t. drop t.start t.bytes };

    ghost invariant = { λ t. t.start ≤ 40 };
}

impl BackwardText {
    /// The text with no bytes.
    pub fn new() -> BackwardText
        ensures { result ≡ [] }
    {
        BackwardText {
            bytes: [0; ROOM],
            start: ROOM,
        }
    }

    /// Its bytes.
    pub fn as_slice(&self) -> &[u8]
        ensures { result.now ≡ self.now }
    {
        &self.bytes[self.start..]
    }

    /// Puts a byte before the text.
    pub fn prepend(&mut self, byte: u8)
        requires { length self.old < backward_room }
        ensures { self.new ≡ byte ∷ self.old }
    {
        self.start -= 1;
        self.bytes[self.start] = byte;
    }

    /// Puts the last octal digits of a number before the text, as many as `digits`.
    pub fn prepend_octal(&mut self, digits: usize, number: u16)
        requires { length self.old + digits ≤ backward_room }
        ensures { self.new ≡ octal_text digits number ++ self.old }
    {
        let mut rest = number;
        for _done in 0..digits {
            self.prepend(b'0' + (rest % 8) as u8);
            rest /= 8;
        }
    }

    /// Puts a number in decimal before the text, with no zero before it.
    pub fn prepend_decimal(&mut self, number: u64)
        requires { length self.old + length (decimal number) ≤ backward_room }
        ensures { self.new ≡ decimal number ++ self.old }
    {
        let mut rest = number;
        while rest >= 100 {
            self.prepend_pair(rest % 100);
            rest /= 100;
        }
        if rest >= 10 {
            self.prepend_pair(rest);
        } else {
            self.prepend(b'0' + rest as u8);
        }
    }

    /// Puts two decimal digits before the text.
    fn prepend_pair(&mut self, pair: u64)
        requires digits { pair < 100 }
        requires room { length self.old + 2 ≤ backward_room }
        ensures { self.new ≡ (digit_zero + pair / 10) ∷ (digit_zero + pair % 10) ∷ self.old }
    {
        self.prepend(b'0' + (pair % 10) as u8);
        self.prepend(b'0' + (pair / 10) as u8);
    }
}
