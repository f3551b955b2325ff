//! What may be assumed of a form.

ghost use Rattle.std.specs.Prelude.{◌≡◌, ◌≤◌, length};
ghost use Rattle.assumed.specs.Wordings.{later_wordings, named_among, wording_name, wording_named};

/// A form of flight sources that is refused, with a wording that may be assumed for it.
#[derive(Clone, Copy, Drop)]
pub enum Wording {
    /// `MM` gives a decimal number, as DEC.
    MajorMode,
    /// `NV` gives a verb and a noun, as VN.
    NounVerb,
    /// `2BCADR` gives the words of 2CADR.
    FarBanks,
    /// `DNPTR` gives the word of CA: 30000 and the address of 12 bits.
    Pointer,
    /// `BBCON*` gives 66100.
    BankWord,
    /// `ERASE 7` reserves seven words more.
    EraseCount,
    /// `X ERASE 7` names the address 7.
    EraseAddress,
    /// Digits with an 8 or a 9 are decimal, where octal ones can stand.
    DecimalDigits,
}

impl Wording {
    /// The wording of a name, as `MM=DEC`.
    pub fn named(name: &[u8]) -> Option<Wording>
        ensures { result ≡ wording_named name.now }
    {
        if name == b"MM=DEC".as_slice() {
            Some(Wording::MajorMode)
        } else if name == b"NV=VN".as_slice() {
            Some(Wording::NounVerb)
        } else if name == b"2BCADR=2CADR".as_slice() {
            Some(Wording::FarBanks)
        } else if name == b"DNPTR=CA".as_slice() {
            Some(Wording::Pointer)
        } else {
            later_named(name)
        }
    }

    /// What it is called.
    pub fn name(self) -> &'static [u8]
        ensures text { result.now ≡ wording_name self }
        ensures short { length result.now ≤ 12 }
    {
        match self {
            Wording::MajorMode => b"MM=DEC",
            Wording::NounVerb => b"NV=VN",
            Wording::FarBanks => b"2BCADR=2CADR",
            Wording::Pointer => b"DNPTR=CA",
            Wording::BankWord => b"BBCON*=66100",
            Wording::EraseCount => b"ERASE=COUNT",
            Wording::EraseAddress => b"ERASE=EQUALS",
            Wording::DecimalDigits => b"8=8D",
        }
    }
}

// One of the later four.
fn later_named(name: &[u8]) -> Option<Wording>
    ensures { result ≡ named_among later_wordings name.now }
{
    if name == b"BBCON*=66100".as_slice() {
        Some(Wording::BankWord)
    } else if name == b"ERASE=COUNT".as_slice() {
        Some(Wording::EraseCount)
    } else if name == b"ERASE=EQUALS".as_slice() {
        Some(Wording::EraseAddress)
    } else if name == b"8=8D".as_slice() {
        Some(Wording::DecimalDigits)
    } else {
        None
    }
}
