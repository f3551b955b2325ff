//! Of which uncertain forms the words of a line are.

ghost use Rattle.std.specs.Prelude.{◌≡◌, ◌==◌, ℕ, nat_le};
ghost use Rattle.std.specs.List.{list_any};
ghost use Rattle.std.specs.Option.{option_map};
ghost use Rattle.agc_text.specs.Digits.{sized};
ghost use Rattle.agc_text.specs.Views.{piece};
ghost use Rattle.yayul.specs.Readings.{parts_in};
ghost use Rattle.certain.specs.LineForms.{address_form, both, decimal_form, downlist_form, ebank_after, ebank_by};
ghost use Rattle.certain.specs.LineForms.{far_complement_forms, far_forms, forms_by, forms_on, held_or, is_held};
ghost use Rattle.certain.specs.LineForms.{is_minus};
ghost use Rattle.certain.specs.LineForms.{is_place_number, lacks_superbank, octal_form, operand_form, second_at};
ghost use Rattle.certain.specs.LineForms.{text_in, used_once};

use crate::form::UncertainForm;
use agc_text::{Field, Number};
use words::Word;
use yayul::{Reading, Role, begins_with_sign, is_signed_name, number_value};

/// The first number that names a place of a bank.
const FIRST_PLACE: u32 = 0o10000;

/// Of which uncertain forms the words of a line are.
#[derive(Clone, Copy, Drop)]
pub(crate) struct LineForms {
    /// That of the first word.
    pub(crate) first: Option<UncertainForm>,
    /// That of the second word, but for its superbank bits.
    pub(crate) second: Option<UncertainForm>,
    /// Whether the second word selects a place of any bank.
    pub(crate) is_far: bool,
}

/// Whether an EBANK= stands before a line, and a 2CADR between them.
#[derive(Clone, Copy, Drop)]
pub(crate) enum EbankUse {
    /// No EBANK= stands.
    Missing,
    /// One stands, and no 2CADR between.
    Unused,
    /// One stands, and a 2CADR between.
    Used,
}

impl EbankUse {
    /// Whether a 2CADR stands between.
    pub(crate) fn is_held(self) -> bool
        ensures { result ≡ is_held self }
    {
        match self {
            EbankUse::Missing | EbankUse::Unused => false,
            EbankUse::Used => true,
        }
    }

    /// The same once a line is passed, by the role of its operator.
    pub(crate) fn after(self, by: Option<Role>) -> EbankUse
        ensures { result ≡ ebank_after self by }
    {
        match by {
            Some(role) => self.after_role(role),
            None => self,
        }
    }

    fn after_role(self, role: Role) -> EbankUse
        ensures { result ≡ ebank_by role self }
    {
        match role {
            Role::Ebank => EbankUse::Unused,
            Role::FarAddress | Role::FarComplement => self.used_once(),
            _ => self,
        }
    }

    fn used_once(self) -> EbankUse
        ensures { result ≡ used_once self }
    {
        match self {
            EbankUse::Missing => EbankUse::Missing,
            EbankUse::Unused | EbankUse::Used => EbankUse::Used,
        }
    }
}

impl LineForms {
    /// The forms of the words of a line; whether the EBANK= before it stands before an earlier 2CADR.
    #[tactic(auto, unfolding(crate::specs::LineForms::forms_on))]
    pub(crate) fn on(reading: &Reading<'_>, held: bool) -> LineForms
        ensures { result ≡ forms_on (parts_in reading.now) held }
    {
        let operator = text_in(reading.operator);
        let operand = text_in(reading.operand);
        match reading.role {
            Some(role) => forms_by(role, operator, operand, reading.offset.is_some(), held),
            None => LineForms::both(None),
        }
    }

    /// Words of one form, or of none.
    pub(crate) fn both(form: Option<UncertainForm>) -> LineForms
        ensures { result ≡ both form }
    {
        LineForms {
            first: form,
            second: form,
            is_far: false,
        }
    }

    /// The form of the second word, by that word.
    pub(crate) fn second_at(&self, word: Word) -> Option<UncertainForm>
        ensures { result ≡ second_at self.now word }
    {
        if self.is_far && lacks_superbank(word) {
            Some(UncertainForm::SuperbankBits)
        } else {
            self.second
        }
    }
}

// The forms of the words of an operator with its operand.
fn forms_by(role: Role, operator: &[u8], operand: &[u8], scaled: bool, held: bool) -> LineForms
    ensures { result ≡ forms_by role operator.now operand.now scaled held }
{
    match role {
        Role::Octal => LineForms::both(octal_form(operator, operand)),
        Role::OctalPair => LineForms::both(Some(UncertainForm::OctalWords)),
        Role::VerbNoun => LineForms::both(Some(UncertainForm::VerbNoun)),
        Role::Decimal => LineForms::both(decimal_form(operand, scaled)),
        Role::DecimalPair => LineForms::both(Some(UncertainForm::ScaledDecimal)),
        Role::Address => LineForms::both(address_form(operator, operand)),
        Role::FixedComplement | Role::CountComplement => {
            LineForms::both(Some(UncertainForm::Complement))
        }
        Role::Downlist => LineForms::both(Some(downlist_form(operator))),
        Role::DownlistChannel => LineForms::both(Some(UncertainForm::Downlist)),
        Role::BankConstant => LineForms::both(held_or(held, operand_form(operand))),
        Role::FarAddress => far_forms(operand_form(operand), held),
        Role::FarComplement => far_complement_forms(held),
        _ => LineForms::both(operand_form(operand)),
    }
}

// Those of the two words of 2CADR.
fn far_forms(form: Option<UncertainForm>, held: bool) -> LineForms
    ensures { result ≡ far_forms form held }
{
    LineForms {
        first: form,
        second: held_or(held, form),
        is_far: true,
    }
}

// Those of their complements.
fn far_complement_forms(held: bool) -> LineForms
    ensures { result ≡ far_complement_forms held }
{
    LineForms {
        first: Some(UncertainForm::Complement),
        second: held_or(held, Some(UncertainForm::Complement)),
        is_far: false,
    }
}

fn held_or(held: bool, form: Option<UncertainForm>) -> Option<UncertainForm>
    ensures { result ≡ held_or held form }
{
    if held {
        Some(UncertainForm::HeldBank)
    } else {
        form
    }
}

fn octal_form(operator: &[u8], operand: &[u8]) -> Option<UncertainForm>
    ensures { result ≡ octal_form operator.now operand.now }
{
    if operator == b"OCTAL".as_slice() {
        Some(UncertainForm::OctalWords)
    } else if begins_with_sign(operand) {
        Some(UncertainForm::SignedOctal)
    } else {
        None
    }
}

fn decimal_form(operand: &[u8], scaled: bool) -> Option<UncertainForm>
    ensures { result ≡ decimal_form operand.now scaled }
{
    if has_byte(operand, b'.') || scaled {
        Some(UncertainForm::ScaledDecimal)
    } else {
        None
    }
}

fn address_form(operator: &[u8], operand: &[u8]) -> Option<UncertainForm>
    ensures { result ≡ address_form operator.now operand.now }
{
    if begins_with_minus(operator) {
        Some(UncertainForm::Complement)
    } else if operator == b"ADRES".as_slice() {
        operand_form(operand)
    } else {
        Some(UncertainForm::GeneralAddress)
    }
}

fn downlist_form(operator: &[u8]) -> UncertainForm
    ensures { result ≡ downlist_form operator.now }
{
    if begins_with_minus(operator) {
        UncertainForm::Complement
    } else {
        UncertainForm::Downlist
    }
}

// The form of an operand that is a name or a number.
fn operand_form(text: &[u8]) -> Option<UncertainForm>
    ensures { result ≡ operand_form text.now }
{
    if is_signed_name(text) {
        Some(UncertainForm::SignedName)
    } else if is_place_number(text) {
        Some(UncertainForm::PlaceNumber)
    } else {
        None
    }
}

// Whether a text is a number that names a place of a bank.
fn is_place_number(text: &[u8]) -> bool
    ensures { result ≡ is_place_number text.now }
{
    match number_value(text) {
        Some(number) => is_place(number),
        None => false,
    }
}

fn is_place(number: Number) -> bool
    ensures { (n : ℕ) → number ≡ sized n → result ≡ nat_le 0o10000 n }
{
    match number {
        Number::Small(number) => FIRST_PLACE <= number,
        Number::Large => true,
    }
}

fn begins_with_minus(text: &[u8]) -> bool
    ensures { result ≡ is_minus text.now }
{
    match text.first() {
        Some(byte) => *byte == b'-',
        None => false,
    }
}

fn has_byte(text: &[u8], wanted: u8) -> bool
    ensures { result ≡ list_any (λ byte. byte == wanted) text.now }
{
    text.iter().any(|byte| *byte == wanted)
}

// Whether a word selects one of the banks 030 to 037, and has no superbank bit.
fn lacks_superbank(word: Word) -> bool
    ensures { result ≡ lacks_superbank word }
{
    word.to_u16() >= 0o60000 && word.to_u16() / 0o100 % 2 == 0
}

// The bytes of a field, none where it does not stand.
fn text_in(field: Option<Field<'_>>) -> &[u8]
    ensures { result.now ≡ text_in (option_map piece field.entry) }
{
    match field {
        Some(field) => field.text,
        None => &[],
    }
}
