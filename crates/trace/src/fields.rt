//! The fields of a line.

ghost use Rattle.std.specs.Prelude.{◌≡◌, ◌+◌, ◌-◌, ◌≤◌, ◌++◌, length, decimal};
ghost use Rattle.arrayvec.specs.ArrayVec.{array_vec_len};
ghost use Rattle.words.specs.Numerals.{octal_text};
ghost use Rattle.yayul.specs.Listing.{bank_text, place_text};
ghost use Rattle.trace.specs.TraceLines.{field, step_fields};

use arrayvec::ArrayVec;
use space::{Linear, window};
use words::{BackwardText, push_all, push_octal};
use yayul::push_blanks;

/// The most bytes of a text that stands in a field.
const TEXT: usize = 48;

/// A text that stands in a field.
pub type Text = ArrayVec<u8, TEXT>;

/// The most bytes of the fields that tell what a step is.
const STEP_FIELDS: usize = 96;

/// The fields that tell what a step is.
pub type StepFields = ArrayVec<u8, STEP_FIELDS>;

/// How wide the column of the place is.
const PLACE_WIDTH: usize = 7;

/// How wide the column of the word is.
const WORD_WIDTH: usize = 5;

/// How wide the column of the text is.
const TEXT_WIDTH: usize = 17;

/// Appends a text, and blanks up to the next column, two at least.
pub(crate) fn push_field<const N: usize>(line: &mut ArrayVec<u8, N>, width: usize, text: &[u8])
    requires { array_vec_len line.old + length text.now + 2 + width ≤ N }
    ensures items { line.new.items ≡ line.old.items ++ field width text.now }
    ensures len { array_vec_len line.new ≡ array_vec_len line.old
        + (length text.now + (2 + (width - length text.now))) }
{
    push_all(line, text);
    push_blanks(line, 2 + width.saturating_sub(text.len()));
}

/// The fields that tell what a step is: a place, a word, and a text.
pub(crate) fn step_fields(place: &[u8], word: &[u8], text: &[u8]) -> StepFields
    requires place { length place.now ≤ 7 }
    requires word { length word.now ≤ 5 }
    requires text { length text.now ≤ 48 }
    ensures items { result.items ≡ step_fields place.now word.now text.now }
    ensures short { array_vec_len result ≤ 66 }
{
    let mut fields = ArrayVec::new();
    push_field(&mut fields, PLACE_WIDTH, place);
    push_field(&mut fields, WORD_WIDTH, word);
    push_field(&mut fields, TEXT_WIDTH, text);
    fields
}

/// A number in decimal.
#[tactic(auto, using(words::proofs::Digits::short_decimal))]
pub fn decimal_text(number: u64) -> BackwardText
    ensures items { result ≡ decimal number }
    ensures short { length result ≤ 20 }
{
    let mut digits = BackwardText::new();
    digits.prepend_decimal(number);
    digits
}

/// A place, as a listing has it.
#[tactic(auto, unfolding(yayul::specs::Listing::place_text))]
pub fn place_text(place: Linear) -> Text
    ensures items { result.items ≡ place_text place }
    ensures len { array_vec_len result ≡ 7 }
{
    let mut text = ArrayVec::new();
    push_bank(&mut text, &place);
    push_all(&mut text, b",");
    push_octal(&mut text, 4, window(place).number());
    text
}

/// Appends the bank of a place.
fn push_bank(text: &mut Text, place: &Linear)
    requires { array_vec_len text.old ≤ 21 }
    ensures items { text.new.items ≡ text.old.items ++ bank_text place.now }
    ensures len { array_vec_len text.new ≡ array_vec_len text.old + 2 }
{
    match place {
        Linear::Erasable(place) => {
            push_all(text, b"E");
            push_octal(text, 1, place.number() / 0o400);
        }
        Linear::Fixed(bank, _) => push_octal(text, 2, bank.number()),
    }
}
