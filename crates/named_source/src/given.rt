//! Whether a program has the words of a rope.

ghost use Rattle.std.specs.Prelude.{◌≡◌, ◌<◌};
ghost use Rattle.rope.specs.Places.{bank_words, banks};
ghost use Rattle.named_source.specs.NamedSources.{bank_given, banks_given, is_same, wanted};
ghost use Rattle.rope.specs.Places.{slot_at};
ghost use Rattle.named_source.specs.GivenBack.{is_written};

use audit::{bank_of, offset_of};
use rope::Rope;
use space::{BANK_WORDS, Bank, FIXED_BANKS, Offset};
use words::Word;

/// Whether what a source has come to has the words of the banks that are written, and no other.
#[tactic(auto, using(crate::proofs::Steps::banks_first, crate::proofs::Steps::banks_next))]
pub(crate) fn is_given(words: &Rope, asked: &Option<Bank>, given: &Rope) -> bool
    ensures { result ≡ banks_given words.now asked.now given.now banks }
{
    let mut right = true;
    for bank in 0..FIXED_BANKS {
        right = is_bank_given(words, asked, given, bank_of(bank)) && right;
    }
    right
}

/// Whether it has those of a bank.
#[tactic(auto, using(crate::proofs::Steps::bank_first, crate::proofs::Steps::bank_next))]
fn is_bank_given(words: &Rope, asked: &Option<Bank>, given: &Rope, bank: Bank) -> bool
    requires { bank < banks }
    ensures { result ≡ bank_given words.now asked.now given.now bank bank_words }
{
    let mut right = true;
    for number in 0..BANK_WORDS {
        right = is_word_given(words, asked, given, bank, offset_of(number)) && right;
    }
    right
}

/// Whether it has that at a place.
fn is_word_given(
    words: &Rope,
    asked: &Option<Bank>,
    given: &Rope,
    bank: Bank,
    offset: Offset,
) -> bool
    ensures { result ≡ is_same (slot_at given.now bank offset) (wanted words.now asked.now bank offset) }
{
    match slot(given, bank, offset) {
        Some(word) => is_written(asked, bank) && word == words.word(bank, offset),
        None => !is_written(asked, bank),
    }
}

/// The word at a place, where one stands.
#[tactic(auto, using(crate::proofs::Steps::some_there, crate::proofs::Steps::none_there))]
fn slot(rope: &Rope, bank: Bank, offset: Offset) -> Option<Word>
    ensures { result ≡ slot_at rope.now bank offset }
{
    if rope.has(bank, offset) {
        Some(rope.word(bank, offset))
    } else {
        None
    }
}

/// Whether the words of a bank are written, where one is asked for or all are.
fn is_written(asked: &Option<Bank>, bank: Bank) -> bool
    ensures { result ≡ is_written asked.now bank }
{
    match asked {
        Some(one) => bank == *one,
        None => true,
    }
}
