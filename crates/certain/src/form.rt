//! The forms of flight sources of which it is not certain what yaYUL makes of them.

ghost use Rattle.std.specs.Prelude.{◌≡◌, ◌<◌, ◌≤◌, length};
ghost use Rattle.certain.specs.Forms.{form_name, form_number, form_numbered, forms};

/// How many forms there are.
pub(crate) const FORMS: u16 = 11;

/// A form of flight sources of which it is not certain what yaYUL makes of it, from the least certain one on.
#[derive(Clone, Copy, Drop)]
pub enum UncertainForm {
    /// 2CADR of banks 030 to 037: the superbank bits of its second word.
    SuperbankBits,
    /// EBANK= before an earlier 2CADR: whether it holds for this one too.
    HeldBank,
    /// GENADR and REMADR.
    GeneralAddress,
    /// 1DNADR to 6DNADR, and DNCHAN.
    Downlist,
    /// A minus before another operator.
    Complement,
    /// OCTAL and 2OCT.
    OctalWords,
    /// A sign before octal digits.
    SignedOctal,
    /// 2DEC, and DEC with a point, E or B.
    ScaledDecimal,
    /// A number from 010000 on, which names a place of a bank.
    PlaceNumber,
    /// VN.
    VerbNoun,
    /// A name that begins with a sign.
    SignedName,
}

impl UncertainForm {
    /// Its number, from the least certain one on.
    pub(crate) fn number(self) -> u16
        ensures { result ≡ form_number self }
    {
        match self {
            UncertainForm::SuperbankBits => 0,
            UncertainForm::HeldBank => 1,
            UncertainForm::GeneralAddress => 2,
            UncertainForm::Downlist => 3,
            UncertainForm::Complement => 4,
            UncertainForm::OctalWords => 5,
            UncertainForm::SignedOctal => 6,
            UncertainForm::ScaledDecimal => 7,
            UncertainForm::PlaceNumber => 8,
            UncertainForm::VerbNoun => 9,
            UncertainForm::SignedName => 10,
        }
    }

    /// The form of a number.
    pub(crate) fn numbered(number: u16) -> UncertainForm
        ensures { result ≡ form_numbered number }
    {
        if number < 4 {
            first_numbered(number)
        } else if number < 8 {
            next_numbered(number)
        } else if number == 8 {
            UncertainForm::PlaceNumber
        } else if number == 9 {
            UncertainForm::VerbNoun
        } else {
            UncertainForm::SignedName
        }
    }

    /// What it is called.
    pub(crate) fn name(self) -> &'static [u8]
        ensures text { result.now ≡ form_name self }
        ensures short { length result.now ≤ 6 }
    {
        match self {
            UncertainForm::SuperbankBits => b"2CADR",
            UncertainForm::HeldBank => b"EBANK=",
            UncertainForm::GeneralAddress => b"GENADR",
            UncertainForm::Downlist => b"1DNADR",
            UncertainForm::Complement => b"-CADR",
            UncertainForm::OctalWords => b"OCTAL",
            UncertainForm::SignedOctal => b"OCT",
            UncertainForm::ScaledDecimal => b"2DEC",
            UncertainForm::PlaceNumber => b"10000",
            UncertainForm::VerbNoun => b"VN",
            UncertainForm::SignedName => b"-NAME",
        }
    }
}

// One of the first four.
fn first_numbered(number: u16) -> UncertainForm
    requires { number < 4 }
    ensures { result ≡ form_numbered number }
{
    if number == 0 {
        UncertainForm::SuperbankBits
    } else if number == 1 {
        UncertainForm::HeldBank
    } else if number == 2 {
        UncertainForm::GeneralAddress
    } else {
        UncertainForm::Downlist
    }
}

// One of the next four.
fn next_numbered(number: u16) -> UncertainForm
    requires least { 4 ≤ number }
    requires below { number < 8 }
    ensures { result ≡ form_numbered number }
{
    if number == 4 {
        UncertainForm::Complement
    } else if number == 5 {
        UncertainForm::OctalWords
    } else if number == 6 {
        UncertainForm::SignedOctal
    } else {
        UncertainForm::ScaledDecimal
    }
}
