//! Which places the words of an image lead to.

ghost use Rattle.std.specs.Prelude.{◌≡◌, ◌++◌, IfOk, OnOk, option_and_then};
ghost use Rattle.std.specs.List.{flat_map, range_with_len};
ghost use Rattle.rope.specs.Places.{banks};
ghost use Rattle.audit.specs.WordLines.{extracode_at};
ghost use Rattle.cpu.specs.Codes.{code_of};
ghost use Rattle.cpu.specs.Operands.{address_of};
ghost use Rattle.names.specs.NamedLines.{place_told};
ghost use Rattle.names.specs.Uses.{bank_mentions, mention_at, mentions, mentions_by};

use crate::instruction::use_at;
use crate::place::place_told;
use audit::{bank_of, offset_of};
use cpu::{extracode_after, named_address};
use rope::Rope;
use space::{BANK_WORDS, Bank, FIXED_BANKS, Linear, Offset};
use std::alloc::{AllocError, Global};
use words::Word;
use xref::Use;

/// A word whose address leads to a place.
#[derive(Clone, Copy, Drop)]
pub struct Mention {
    /// The word's bank.
    pub bank: Bank,
    /// Its offset.
    pub offset: Offset,
    /// Where its address leads.
    pub place: Linear,
    /// What it does there.
    pub used: Use,
}

/// The words of a bank, or of all banks by their numbers, whose addresses lead to a place that the image tells. An
/// `Err` is that memory ran out.
pub fn mentions(alloc: Global, rope: &Rope, bank: Option<Bank>) -> Result<Vec<Mention>, AllocError>
    ensures { IfOk result (λ found. found.items ≡ mentions rope.now bank) }
{
    let mut found = Vec::new(alloc);
    match bank {
        Some(bank) => push_bank(&mut found, rope, bank)?,
        None => push_banks(&mut found, rope)?,
    }
    Ok(found)
}

// Appends those of all banks.
fn push_banks(found: &mut Vec<Mention>, rope: &Rope) -> Result<(), AllocError>
    ensures { OnOk result (found.new.items
        ≡ found.old.items ++ flat_map (bank_mentions rope.now) (range_with_len 0 banks)) }
{
    for number in 0..FIXED_BANKS {
        push_bank(found, rope, bank_of(number))?;
    }
    Ok(())
}

// Appends those of a bank.
fn push_bank(found: &mut Vec<Mention>, rope: &Rope, bank: Bank) -> Result<(), AllocError>
    ensures { OnOk result (found.new.items ≡ found.old.items ++ bank_mentions rope.now bank) }
{
    let mut extra = false;
    for number in 0..BANK_WORDS {
        let offset = offset_of(number);
        push_mention(found, rope, bank, offset, extra)?;
        extra = extracode_after(rope.word(bank, offset), extra);
    }
    Ok(())
}

// Appends what a word leads to, if it leads to a place.
#[tactic(auto, unfolding(crate::specs::Uses::mention_at))]
fn push_mention(
    found: &mut Vec<Mention>,
    rope: &Rope,
    bank: Bank,
    offset: Offset,
    extra: bool,
) -> Result<(), AllocError>
    requires { extra ≡ extracode_at rope.now bank offset }
    ensures { OnOk result (found.new.items ≡ found.old.items ++ mention_at rope.now bank offset) }
{
    let word = rope.word(bank, offset);
    if word == Word::ZERO {
        return Ok(());
    }
    push_place(
        found,
        bank,
        offset,
        use_at(word, extra),
        place_named(word, extra, bank),
    )
}

// The place to which the address of a word leads, where it names one that the image tells.
fn place_named(word: Word, extra: bool, bank: Bank) -> Option<Linear>
    ensures { result ≡ option_and_then (place_told bank) (address_of (code_of extra word)) }
{
    place_told(bank, named_address(word, extra)?)
}

// Appends what leads to a place, if there is one.
fn push_place(
    found: &mut Vec<Mention>,
    bank: Bank,
    offset: Offset,
    used: Use,
    place: Option<Linear>,
) -> Result<(), AllocError>
    ensures { OnOk result (found.new.items ≡ found.old.items ++ mentions_by bank offset used place) }
{
    if let Some(place) = place {
        found.push(Mention {
            bank,
            offset,
            place,
            used,
        })?;
    }
    Ok(())
}
