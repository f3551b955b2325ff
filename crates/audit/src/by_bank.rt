//! Texts of fixed memory, bank by bank and word by word.

ghost use Rattle.std.specs.Prelude.{◌≡◌, ℕ, List, true};
ghost use Rattle.std.specs.List.{range_with_len, flat_map};
ghost use Rattle.words.specs.Devices.{Writes, failures_after};
ghost use Rattle.rope.specs.Places.{banks, Words};
ghost use Rattle.audit.specs.ByBank.{by_bank, by_word};
ghost use Rattle.audit.specs.WordLines.{extracode_at};

use crate::lines::{Written, bank_of, offset_of};
use cpu::extracode_after;
use rope::Rope;
use space::{BANK_WORDS, Bank, FIXED_BANKS, Offset};
use words::Write;

/// A text of each bank of a rope.
pub trait BankText {
    /// What is written of a bank, by the words of the rope and the bank's number.
    ghost text: { Self → Words → ℕ → List ℕ };

    /// Writes it.
    ///
    /// After a failure a beginning of it was written.
    fn write<W: Write>(&self, rope: &Rope, bank: Bank, out: &mut W) -> Written
        ensures written { W.told ≡ true → Writes (W.written out.old) (W.written out.new) (text self.now rope.now bank)
            result }
        ensures failures { W.failures out.new ≡ failures_after (W.failures out.old) result };
}

/// Writes the text of a bank, or those of all banks by their numbers.
///
/// After a failure a beginning of it was written.
pub fn write_by_bank<T: BankText, W: Write>(
    text: &T,
    rope: &Rope,
    bank: Option<Bank>,
    out: &mut W,
) -> Written
    ensures written { W.told ≡ true → Writes (W.written out.old) (W.written out.new)
        (by_bank (T.text text.now rope.now) bank) result }
    ensures failures { W.failures out.new ≡ failures_after (W.failures out.old) result }
{
    match bank {
        Some(bank) => text.write(rope, bank, out),
        None => write_banks(text, rope, out),
    }
}

fn write_banks<T: BankText, W: Write>(text: &T, rope: &Rope, out: &mut W) -> Written
    ensures written { W.told ≡ true → Writes (W.written out.old) (W.written out.new)
        (flat_map (T.text text.now rope.now) (range_with_len 0 banks)) result }
    ensures failures { W.failures out.new ≡ failures_after (W.failures out.old) result }
{
    for bank in 0..FIXED_BANKS {
        text.write(rope, bank_of(bank), out)?;
    }
    Ok(())
}

/// A place of fixed memory, and whether its word is read as an extracode.
#[derive(Clone, Copy, Drop)]
pub struct WordAt {
    pub bank: Bank,
    pub offset: Offset,
    pub extra: bool,
}

/// A text of each word of a rope.
pub trait WordText {
    /// What is written of a word, by the words of the rope, its bank and its offset.
    ghost text: { Self → Words → ℕ → ℕ → List ℕ };

    /// Writes it.
    ///
    /// After a failure a beginning of it was written.
    fn write<W: Write>(&self, rope: &Rope, word: WordAt, out: &mut W) -> Written
        requires { word.extra ≡ extracode_at rope.now word.bank word.offset }
        ensures written { W.told ≡ true → Writes (W.written out.old) (W.written out.new)
            (text self.now rope.now word.bank word.offset) result }
        ensures failures { W.failures out.new ≡ failures_after (W.failures out.old) result };
}

/// Writes the texts of a bank's words, offsets rising.
///
/// After a failure a beginning of them was written.
pub fn write_words_of<T: WordText, W: Write>(
    text: &T,
    rope: &Rope,
    bank: Bank,
    out: &mut W,
) -> Written
    ensures written { W.told ≡ true → Writes (W.written out.old) (W.written out.new)
        (by_word (T.text text.now rope.now) bank) result }
    ensures failures { W.failures out.new ≡ failures_after (W.failures out.old) result }
{
    let mut extra = false;
    for number in 0..BANK_WORDS {
        let offset = offset_of(number);
        let word = WordAt {
            bank,
            offset,
            extra,
        };
        text.write(rope, word, out)?;
        extra = extracode_after(rope.word(bank, offset), extra);
    }
    Ok(())
}

/// Of each bank the texts of its words.
#[derive(Drop)]
pub struct EachWord<'a, T> {
    pub text: &'a T,
}

impl<'a, T: WordText> BankText for EachWord<'a, T> {
    ghost text = { λ each words bank. by_word (T.text each.text.now words) bank };

    fn write<W: Write>(&self, rope: &Rope, bank: Bank, out: &mut W) -> Written {
        write_words_of(self.text, rope, bank, out)
    }
}
