//! Numbers with a bound: places, addresses, channels, banks and offsets.

ghost use Rattle.std.specs.Prelude.{◌≡◌, ℕ, ◌<◌, ◌%◌};
ghost use Rattle.std.specs.Option.{SomeIff};

use std::marker::Model;

/// An erasable place: 0 to 03777.
#[derive(Clone, Copy, PartialEq, Eq, Debug)]
pub struct Eras {
    place: u16,
}

impl Model for Eras {
    ghost Value = { ℕ };

    ghost view = { λ a. a.place };

    ghost invariant = { λ a. a.place < 0o4000 };

    ghost inverse = { λ n. record { place = n } };
}

impl Eras {
    /// The accumulator, of 16 bits.
    pub const A: Eras = Eras { place: 0 };

    /// The lower word of double numbers.
    pub const L: Eras = Eras { place: 1 };

    /// The return address, of 16 bits.
    pub const Q: Eras = Eras { place: 2 };

    /// The erasable bank, read as the bank times 0400.
    pub const EB: Eras = Eras { place: 3 };

    /// The fixed bank, read as the bank times 02000.
    pub const FB: Eras = Eras { place: 4 };

    /// The address of the next instruction, of 12 bits.
    pub const Z: Eras = Eras { place: 5 };

    /// Both banks in one word.
    pub const BB: Eras = Eras { place: 6 };

    /// The cell that is always zero.
    pub const ZERO: Eras = Eras { place: 7 };

    /// Where a program saves A in an interrupt.
    pub const ARUPT: Eras = Eras { place: 0o10 };

    /// The address to which an interrupt returns.
    pub const ZRUPT: Eras = Eras { place: 0o15 };

    /// The instruction with which an interrupted program goes on.
    pub const BRUPT: Eras = Eras { place: 0o17 };

    /// Rotates right by one bit what is stored.
    pub const CYR: Eras = Eras { place: 0o20 };

    /// Shifts right by one bit what is stored, and keeps its sign.
    pub const SR: Eras = Eras { place: 0o21 };

    /// Rotates left by one bit what is stored.
    pub const CYL: Eras = Eras { place: 0o22 };

    /// Keeps the upper half of what is stored, moved down.
    pub const EDOP: Eras = Eras { place: 0o23 };

    /// The number as an erasable place, where it is one.
    pub fn try_new(number: u16) -> Option<Eras>
        ensures { SomeIff result (number < 0o4000) number }
    {
        if number < 0o4000 {
            Some(Eras { place: number })
        } else {
            None
        }
    }

    pub(crate) fn new(number: u16) -> Eras
        requires { number < 0o4000 }
        ensures { result ≡ number }
    {
        Eras { place: number }
    }

    /// The place of the low 11 bits of a number.
    pub fn of_low_bits(number: u16) -> Eras
        ensures { result ≡ number % 0o4000 }
    {
        Eras {
            place: number % 0o4000,
        }
    }

    /// Its number.
    pub fn number(self) -> u16
        ensures value { result ≡ self }
        ensures range { result < 0o4000 }
    {
        self.place
    }
}

/// An address of 12 bits: 0 to 07777.
#[derive(Clone, Copy, PartialEq, Eq, Debug)]
pub struct Addr12 {
    address: u16,
}

impl Model for Addr12 {
    ghost Value = { ℕ };

    ghost view = { λ a. a.address };

    ghost invariant = { λ a. a.address < 0o10000 };

    ghost inverse = { λ n. record { address = n } };
}

impl Addr12 {
    /// The number as an address, where it is one.
    pub fn try_new(number: u16) -> Option<Addr12>
        ensures { SomeIff result (number < 0o10000) number }
    {
        if number < 0o10000 {
            Some(Addr12 { address: number })
        } else {
            None
        }
    }

    pub(crate) fn new(number: u16) -> Addr12
        requires { number < 0o10000 }
        ensures { result ≡ number }
    {
        Addr12 { address: number }
    }

    /// The address of the low 12 bits of a number.
    pub fn of_low_bits(number: u16) -> Addr12
        ensures { result ≡ number % 0o10000 }
    {
        Addr12 {
            address: number % 0o10000,
        }
    }

    /// Its number.
    pub fn number(self) -> u16
        ensures value { result ≡ self }
        ensures range { result < 0o10000 }
    {
        self.address
    }
}

/// The number of a channel: 0 to 0777.
#[derive(Clone, Copy, PartialEq, Eq, Debug)]
pub struct Chan {
    channel: u16,
}

impl Model for Chan {
    ghost Value = { ℕ };

    ghost view = { λ a. a.channel };

    ghost invariant = { λ a. a.channel < 0o1000 };

    ghost inverse = { λ n. record { channel = n } };
}

impl Chan {
    /// The channel that is L.
    pub const L: Chan = Chan { channel: 1 };

    /// The channel that is Q.
    pub const Q: Chan = Chan { channel: 2 };

    /// The channel of the superbank bit.
    pub const SUPERBANK: Chan = Chan { channel: 7 };

    /// The number as a channel, where it is one.
    pub fn try_new(number: u16) -> Option<Chan>
        ensures { SomeIff result (number < 0o1000) number }
    {
        if number < 0o1000 {
            Some(Chan { channel: number })
        } else {
            None
        }
    }

    /// The channel of the low 9 bits of a number.
    pub fn of_low_bits(number: u16) -> Chan
        ensures { result ≡ number % 0o1000 }
    {
        Chan {
            channel: number % 0o1000,
        }
    }

    /// Its number.
    pub fn number(self) -> u16
        ensures value { result ≡ self }
        ensures range { result < 0o1000 }
    {
        self.channel
    }
}

/// How many fixed banks hold words: 0 to 043.
pub const FIXED_BANKS: u16 = 0o44;

/// How many words a fixed bank holds.
pub const BANK_WORDS: u16 = 0o2000;

/// The number of a fixed bank: 0 to 047. Words stand in banks up to 043.
#[derive(Clone, Copy, PartialEq, Eq, Debug)]
pub struct Bank {
    bank: u16,
}

impl Model for Bank {
    ghost Value = { ℕ };

    ghost view = { λ a. a.bank };

    ghost invariant = { λ a. a.bank < 0o50 };

    ghost inverse = { λ n. record { bank = n } };
}

impl Bank {
    /// The number as a fixed bank, where it is one.
    pub fn try_new(number: u16) -> Option<Bank>
        ensures { SomeIff result (number < 0o50) number }
    {
        if number < 0o50 {
            Some(Bank { bank: number })
        } else {
            None
        }
    }

    pub(crate) fn new(number: u16) -> Bank
        requires { number < 0o50 }
        ensures { result ≡ number }
    {
        Bank { bank: number }
    }

    /// Its number.
    pub fn number(self) -> u16
        ensures value { result ≡ self }
        ensures range { result < 0o50 }
    {
        self.bank
    }
}

/// An offset in a fixed bank: 0 to 01777.
#[derive(Clone, Copy, PartialEq, Eq, Debug)]
pub struct Offset {
    offset: u16,
}

impl Model for Offset {
    ghost Value = { ℕ };

    ghost view = { λ a. a.offset };

    ghost invariant = { λ a. a.offset < 0o2000 };

    ghost inverse = { λ n. record { offset = n } };
}

impl Offset {
    /// The number as an offset, where it is one.
    pub fn try_new(number: u16) -> Option<Offset>
        ensures { SomeIff result (number < 0o2000) number }
    {
        if number < 0o2000 {
            Some(Offset { offset: number })
        } else {
            None
        }
    }

    pub(crate) fn new(number: u16) -> Offset
        requires { number < 0o2000 }
        ensures { result ≡ number }
    {
        Offset { offset: number }
    }

    /// The offset of the low 10 bits of a number.
    pub fn of_low_bits(number: u16) -> Offset
        ensures { result ≡ number % 0o2000 }
    {
        Offset {
            offset: number % 0o2000,
        }
    }

    /// Its number.
    pub fn number(self) -> u16
        ensures value { result ≡ self }
        ensures range { result < 0o2000 }
    {
        self.offset
    }
}
