//! The words of fixed memory as they are compared.

ghost use Rattle.std.specs.Prelude.{◌≡◌, ◌+◌, ◌<◌, ◌≤◌, ◌==◌, ◌&&◌, ◌++◌, ◌∷◌, [], length, nat_lt, Some, None, IfOk};
ghost use Rattle.std.specs.Prelude.{if◌then◌else◌};
ghost use Rattle.std.specs.List.{range_with_len, flat_map};
ghost use Rattle.rope.specs.Places.{bank_words, banks, fixed_places};
ghost use Rattle.audit.specs.WordLines.{extracode_at};
ghost use Rattle.align.specs.Renamings.{renamed};
ghost use Rattle.align.specs.Tokens.{bank_operands, bank_tokens, compared, ends_checked, filled, is_loop, of_erasable};
ghost use Rattle.align.specs.Tokens.{operand_at, operands, renamed_word, token, token_at, tokens, with_address};

use crate::entries::{CHECK, Entry, PLACES};
use crate::renaming::renamed;
use audit::{bank_of, bank_sum, holds_sum, offset_of};
use cpu::{extracode_after, named_address};
use rope::Rope;
use space::{Addr12, BANK_WORDS, Bank, FIXED_BANKS, Linear, Offset, window};
use std::alloc::{AllocError, Global};
use words::Word;

/// The first address of fixed memory.
const FIRST_FIXED: u16 = 0o2000;

/// The low bits of a word that hold an address, all of them 1.
const ADDRESS: u16 = 0o7777;

/// What an extracode has more.
const EXTRACODE: u16 = 0o100000;

/// What is compared at each place: the word with the greatest address in place of one of fixed memory, or with the
/// address that stands for one of erasable memory, and 100000 more where it is an extracode; one number for all check
/// words; nothing in the zeros that end a bank.
pub(crate) fn tokens_of(
    alloc: Global,
    names: &[Entry],
    rope: &Rope,
) -> Result<Vec<Entry>, AllocError>
    ensures { IfOk result (λ entries. entries.items ≡ tokens names.now rope.now) }
{
    let mut entries = Vec::with_capacity(alloc, PLACES)?;
    for bank in 0..FIXED_BANKS {
        push_bank(&mut entries, names, rope, bank_of(bank))?;
    }
    Ok(entries)
}

/// The address of erasable memory that the word at each place names.
pub(crate) fn operands_of(alloc: Global, rope: &Rope) -> Result<Vec<Entry>, AllocError>
    ensures { IfOk result (λ entries. entries.items ≡ operands rope.now) }
{
    let mut entries = Vec::with_capacity(alloc, PLACES)?;
    for bank in 0..FIXED_BANKS {
        push_operands(&mut entries, rope, bank_of(bank))?;
    }
    Ok(entries)
}

/// Appends the addresses of erasable memory that the words of a bank name.
fn push_operands(entries: &mut Vec<Entry>, rope: &Rope, bank: Bank) -> Result<(), AllocError>
    ensures { IfOk result (λ _. entries.new.items ≡ entries.old.items ++ bank_operands rope.now bank) }
{
    let mut extra = false;
    for number in 0..BANK_WORDS {
        let word = rope.word(bank, offset_of(number));
        entries.push(of_erasable(named_address(word, extra)))?;
        extra = extracode_after(word, extra);
    }
    Ok(())
}

/// An address of erasable memory.
fn of_erasable(address: Option<Addr12>) -> Entry
    ensures { result ≡ of_erasable address }
{
    let number = address?.number();
    if number < FIRST_FIXED {
        Some(number)
    } else {
        None
    }
}

/// Appends what is compared of a bank.
fn push_bank(
    entries: &mut Vec<Entry>,
    names: &[Entry],
    rope: &Rope,
    bank: Bank,
) -> Result<(), AllocError>
    ensures { IfOk result (λ _. entries.new.items ≡ entries.old.items ++ bank_tokens names.now rope.now bank) }
{
    let filled = filled(rope, bank);
    let checked = ends_checked(rope, bank, filled);
    let mut extra = false;
    for number in 0..BANK_WORDS {
        let word = rope.word(bank, offset_of(number));
        entries.push(entry(names, bank, word, extra, number, filled, checked))?;
        extra = extracode_after(word, extra);
    }
    Ok(())
}

/// What is compared of the word at an offset of a bank that has so many, and ends with a check word or does not.
fn entry(
    names: &[Entry],
    bank: Bank,
    word: Word,
    extra: bool,
    offset: u16,
    end: u16,
    is_checked: bool,
) -> Entry
    requires { offset < bank_words }
    ensures { result ≡ (if nat_lt offset end then Some
        (compared names.now bank (offset + 1 == end && is_checked) extra word) else None) }
{
    if offset < end {
        Some(compared(names, bank, word, extra, offset + 1 == end && is_checked))
    } else {
        None
    }
}

/// What is compared of a word that is the check word, or is not.
fn compared(names: &[Entry], bank: Bank, word: Word, extra: bool, is_check: bool) -> u16
    ensures { result ≡ compared names.now bank is_check extra word }
{
    if is_check {
        CHECK
    } else {
        token(names, bank, word, extra)
    }
}

/// Whether the last of so many words of a bank is its check word.
#[tactic(auto, unfolding(crate::specs::Tokens::ends_checked))]
fn ends_checked(rope: &Rope, bank: Bank, end: u16) -> bool
    requires { end ≤ bank_words }
    ensures { result ≡ ends_checked rope.now bank end }
{
    2 < end
        && is_loop(rope, bank, offset_of(end - 3))
        && is_loop(rope, bank, offset_of(end - 2))
        && holds_sum(bank, bank_sum(rope, bank))
}

/// Whether the word at an offset of a bank is a TC to itself.
fn is_loop(rope: &Rope, bank: Bank, offset: Offset) -> bool
    ensures { result ≡ is_loop rope.now bank offset }
{
    rope.word(bank, offset).to_u16() == window(Linear::Fixed(bank, offset)).number()
}

/// How many words of a bank are compared.
#[tactic(auto, using(crate::proofs::Steps::filled_steps))]
fn filled(rope: &Rope, bank: Bank) -> u16
    ensures is { result ≡ filled rope.now bank }
    ensures few { result ≤ bank_words }
{
    let mut filled = 0;
    for number in 0..BANK_WORDS {
        if rope.word(bank, offset_of(number)) != Word::ZERO {
            filled = number + 1;
        }
    }
    filled
}

/// What is compared of a word.
fn token(names: &[Entry], bank: Bank, word: Word, extra: bool) -> u16
    ensures { result ≡ token names.now bank extra word }
{
    let rest = with_address(names, bank, word, named_address(word, extra));
    if extra { rest + EXTRACODE } else { rest }
}

/// A word of a bank with the greatest address in place of its own, where that is one of fixed memory, or in its last
/// ten bits the address that stands for its own, where that is one of erasable memory.
fn with_address(names: &[Entry], bank: Bank, word: Word, address: Option<Addr12>) -> u16
    ensures is { result ≡ with_address names.now bank word address }
    ensures within { result < 0o100000 }
{
    let number = word.to_u16();
    match address {
        Some(address) => {
            if address.number() < FIRST_FIXED {
                number / FIRST_FIXED * FIRST_FIXED + renamed(names, bank.number(), address.number())
            } else {
                number / (ADDRESS + 1) * (ADDRESS + 1) + ADDRESS
            }
        }
        None => number,
    }
}
