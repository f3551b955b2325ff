//! The words by which a program checks its banks.

ghost use Rattle.std.specs.Prelude.{◌≡◌, ◌+◌, ◌<◌, ◌≤◌, true};
ghost use Rattle.rope.specs.Places.{banks, bank_words};
ghost use Rattle.audit.specs.CheckWords.{end_of, with_next, with_loop, check_word, with_check_words, with_checks};
ghost use Rattle.audit.specs.CheckWords.{has_room, HaveRoom, IsFull, AddsCheckWords, Checks};

use crate::lines::{bank_of, offset_of};
use crate::sums::{added, bank_sum};
use rope::Rope;
use space::{BANK_WORDS, Bank, FIXED_BANKS, Linear, window};
use words::Word;

/// A bank has a word, and fewer than three places after its last one.
#[derive(Clone, Copy, PartialEq, Eq, Debug, Drop)]
pub struct NoRoom {
    /// The bank.
    pub bank: Bank,
}

/// How many check words a bank has.
const CHECK_WORDS: u16 = 3;

/// Adds check words to each bank in which a word stands, after its last word: two TC to themselves, and the word that
/// makes the sum of the bank's words its number, or, where the sum so far is negative, the complement of its number.
///
/// Where a bank has no room for them the first such is told, and nothing is added.
pub fn add_check_words(rope: &mut Rope) -> Result<(), NoRoom>
    ensures { AddsCheckWords rope.old rope.new result }
{
    for number in 0..FIXED_BANKS {
        let bank = bank_of(number);
        if !has_room(rope, bank) {
            return Err(NoRoom { bank });
        }
    }
    add_to_banks(rope);
    Ok(())
}

/// Adds the check words of all banks.
fn add_to_banks(rope: &mut Rope)
    requires { HaveRoom rope.old banks }
    ensures { rope.new ≡ with_checks rope.old banks }
{
    for number in 0..FIXED_BANKS {
        add_to_bank(rope, bank_of(number));
    }
}

/// Adds the check words of a bank, where a word stands in it.
#[tactic(auto, unfolding(crate::specs::CheckWords::with_check_words))]
fn add_to_bank(rope: &mut Rope, bank: Bank)
    requires exists { bank < banks }
    requires room { has_room rope.old bank ≡ true }
    ensures { rope.new ≡ with_check_words rope.old bank }
{
    if end_of(rope, bank) == 0 {
        return;
    }
    add_loop(rope, bank);
    add_loop(rope, bank);
    let total = bank_sum(rope, bank);
    add_next(rope, bank, check_word(bank, total));
}

/// Whether a bank has room for its check words.
fn has_room(rope: &Rope, bank: Bank) -> bool
    ensures { result ≡ has_room rope.now bank }
{
    let end = end_of(rope, bank);
    end == 0 || end + CHECK_WORDS <= BANK_WORDS
}

/// Adds a TC to itself after the last word of a bank.
fn add_loop(rope: &mut Rope, bank: Bank)
    requires exists { bank < banks }
    requires room { end_of rope.old bank < bank_words }
    ensures itself { rope.new ≡ with_loop rope.old bank }
    ensures end { end_of rope.new bank ≡ end_of rope.old bank + 1 }
{
    let place = Linear::Fixed(bank, offset_of(end_of(rope, bank)));
    add_next(rope, bank, Word::of_low_bits(window(place).number()));
}

/// Adds a word after the last one of a bank.
#[tactic(auto, using(crate::proofs::Ends::end_next, crate::proofs::Ends::none_at_end))]
fn add_next(rope: &mut Rope, bank: Bank, word: Word)
    requires exists { bank < banks }
    requires room { end_of rope.old bank < bank_words }
    ensures next { rope.new ≡ with_next rope.old bank word }
    ensures end { end_of rope.new bank ≡ end_of rope.old bank + 1 }
{
    let end = end_of(rope, bank);
    rope.put(bank, offset_of(end), word);
}

/// The offset after the last word of a bank, 0 where it has none.
#[tactic(auto, using(crate::proofs::Ends::end_first, crate::proofs::Ends::end_there, crate::proofs::Ends::end_passed))]
fn end_of(rope: &Rope, bank: Bank) -> u16
    ensures end { result ≡ end_of rope.now bank }
    ensures within { result ≤ bank_words }
{
    let mut end = 0;
    for number in 0..BANK_WORDS {
        if rope.has(bank, offset_of(number)) {
            end = number + 1;
        }
    }
    end
}

/// The word that makes a sum what that of a bank is to be.
fn check_word(bank: Bank, total: Word) -> Word
    ensures { result ≡ check_word bank total }
{
    let number = Word::of_low_bits(bank.number());
    let wanted = if total.extend().is_minus() {
        number.neg()
    } else {
        number
    };
    added(wanted, total.neg())
}

/// What check words are worth: where all banks have room the sum of each bank in which a word stands is its number or
/// the complement of it, and each word is where it was; in a bank without a word none stands. It is the contract of a
/// call that does nothing.
#[tactic(auto, using(crate::proofs::CheckSums::checks))]
pub fn check_words_hold(words: &Rope)
    ensures { HaveRoom words.now banks → Checks words.now (with_checks words.now banks) }
{
    let _words = words;
}
