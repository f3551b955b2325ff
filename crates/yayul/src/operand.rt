//! The operands of a source.

ghost use Rattle.std.specs.Prelude.{◌≡◌, ◌∷◌, option_to_list};
ghost use Rattle.std.specs.Option.{option_map};
ghost use Rattle.std.specs.Borrow.{Bor};
ghost use Rattle.yayul.specs.Forms.{shift_in, term_in, operand_in};

use crate::language::{Numeral, Operand, Shift, Term};
use crate::name::name_of;
use crate::number::{begins_with_sign, number_in};
use words::Word;

// An operand and an offset, where they have the form of one: a signed number alone, or a term, with
// an offset or none.
pub(crate) fn operand_of(text: &[u8], offset: Option<&[u8]>) -> Option<Operand>
    ensures { result ≡ operand_in (text.now ∷ option_to_list (option_map (λ field. field.now) offset.entry)) }
{
    let (term, shift) = match offset {
        Some(offset) => (term_in(text)?, shift_in(offset)?),
        None if begins_with_sign(text) => (Term::Here, shift_in(text)?),
        None => (term_in(text)?, Shift::Plus(Some(Word::ZERO))),
    };
    Some(Operand { term, shift })
}

// A symbol or a number, where the text has the form of one.
fn term_in(text: &[u8]) -> Option<Term>
    ensures { result ≡ term_in text.now }
{
    match name_of(text) {
        Some(name) => Some(Term::Named(name)),
        None => match number_in(text) {
            Numeral::Is(number) => Some(Term::Number(Some(number))),
            Numeral::TooLarge => Some(Term::Number(None)),
            Numeral::NoForm => None,
        },
    }
}

// A sign followed by a number, where the text has that form.
pub(crate) fn shift_in(text: &[u8]) -> Option<Shift>
    ensures { result ≡ shift_in text.now }
{
    match text {
        [b'+', number @ ..] => match number_in(number) {
            Numeral::Is(number) => Some(Shift::Plus(Some(number))),
            Numeral::TooLarge => Some(Shift::Plus(None)),
            Numeral::NoForm => None,
        },
        [b'-', number @ ..] => match number_in(number) {
            Numeral::Is(number) => Some(Shift::Minus(Some(number))),
            Numeral::TooLarge => Some(Shift::Minus(None)),
            Numeral::NoForm => None,
        },
        _ => None,
    }
}
