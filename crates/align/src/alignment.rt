//! Which words of two ropes are the same passages.

ghost use Rattle.std.specs.Prelude.{◌≡◌, ◌≤◌, ℕ, [], true, None, IfOk, replicate};
ghost use Rattle.rope.specs.Places.{fixed_places};
ghost use Rattle.align.specs.Alignments.{IsAlignment, renaming};
ghost use Rattle.align.specs.Pairings.{Entries, is_right, pairing};
ghost use Rattle.align.specs.Renamings.{is_renaming};
ghost use Rattle.align.specs.Tokens.{operands, tokens};

use crate::checking::{Pairing, is_right};
use crate::entries::{Entry, PLACES};
use crate::renamed_lines::Renaming;
use crate::renaming::is_renaming;
use crate::search::search;
use crate::tokens::{operands_of, tokens_of};
use crate::votes::{Named, search_names};
use rope::Rope;
use std::alloc::{AllocError, Global};

/// Which words of two ropes are the same passages: by the number of each place, 1024 times its bank and its offset.
#[derive(Drop)]
pub struct Alignment {
    /// For each address of erasable memory that which stands for it in the words of the new rope, those of the switched
    /// bank for each bank.
    pub names: Vec<Entry>,
    /// For each such address of the new rope that of the old one for which it stands.
    pub back: Vec<Entry>,
    /// At each place of the old rope the address of erasable memory that its word names.
    pub operands: Vec<Entry>,
    /// What is compared at each place of the old rope with its own addresses.
    pub own: Vec<Entry>,
    /// What is compared at each place of the old rope.
    pub old: Vec<Entry>,
    /// What is compared at each place of the new rope.
    pub new: Vec<Entry>,
    /// For each place of the new rope that of the old one with which it is paired.
    pub to_old: Vec<Entry>,
    /// For each place of the old rope that of the new one with which it is paired.
    pub to_new: Vec<Entry>,
}

/// Which address stands for which in an alignment.
pub(crate) fn renaming_of(a: &Alignment) -> Renaming<'_>
    ensures { renaming result.names.now result.back.now result.operands.now
        ≡ renaming a.now.names.items a.now.back.items a.now.operands.items }
{
    Renaming {
        names: a.names.as_slice(),
        back: a.back.as_slice(),
        operands: a.operands.as_slice(),
    }
}

/// Which words are paired in an alignment.
pub(crate) fn pairing_of(a: &Alignment) -> Pairing<'_>
    ensures { pairing result.own.now result.old.now result.new.now result.to_old.now result.to_new.now
        ≡ pairing a.now.own.items a.now.old.items a.now.new.items a.now.to_old.items a.now.to_new.items }
{
    Pairing {
        own: a.own.as_slice(),
        old: a.old.as_slice(),
        new: a.new.as_slice(),
        to_old: a.to_old.as_slice(),
        to_new: a.to_new.as_slice(),
    }
}

/// Pairs the words of two ropes in equal runs of at least so many words, the longest first, with the addresses of
/// erasable memory in the old one's renamed.
///
/// What is found is checked, and where the check refuses it nothing is renamed or paired.
pub fn align(alloc: Global, old: &Rope, new: &Rope, least: usize) -> Result<Alignment, AllocError>
    requires { least ≤ 1024 }
    ensures { IfOk result (λ a. IsAlignment least old.now new.now (renaming a.names.items a.back.items a.operands.items)
        (pairing a.own.items a.old.items a.new.items a.to_old.items a.to_new.items)) }
{
    let own = tokens_of(alloc, &[], old)?;
    let others = tokens_of(alloc, &[], new)?;
    let names = name(alloc, old, new, own.as_slice(), others.as_slice())?;
    let words = tokens_of(alloc, names.names.as_slice(), old)?;
    let pairs = pair(
        alloc,
        own.as_slice(),
        words.as_slice(),
        others.as_slice(),
        least,
    )?;
    Ok(Alignment {
        names: names.names,
        back: names.back,
        operands: names.operands,
        own,
        old: words,
        new: others,
        to_old: pairs.to_old,
        to_new: pairs.to_new,
    })
}

/// Which address of erasable memory stands for which, and which the words of the old rope name.
#[derive(Drop)]
struct Names {
    names: Vec<Entry>,
    back: Vec<Entry>,
    operands: Vec<Entry>,
}

/// Finds which address stands for which in the words of two ropes.
fn name(
    alloc: Global,
    old: &Rope,
    new: &Rope,
    own: &[Entry],
    others: &[Entry],
) -> Result<Names, AllocError>
    ensures renames { IfOk result (λ names. is_renaming names.names.items names.back.items ≡ true) }
    ensures operands { IfOk result (λ names. names.operands.items ≡ operands old.now) }
{
    let operands = operands_of(alloc, old)?;
    let other_operands = operands_of(alloc, new)?;
    let first = Named {
        tokens: own,
        operands: operands.as_slice(),
    };
    let second = Named {
        tokens: others,
        operands: other_operands.as_slice(),
    };
    let (names, back) = search_names(alloc, first, second)?;
    if is_renaming(names.as_slice(), back.as_slice()) {
        Ok(Names {
            names,
            back,
            operands,
        })
    } else {
        unnamed(alloc, operands)
    }
}

/// Renames nothing.
fn unnamed(alloc: Global, operands: Vec<Entry>) -> Result<Names, AllocError>
    ensures renames { IfOk result (λ names. is_renaming names.names.items names.back.items ≡ true) }
    ensures operands { IfOk result (λ names. names.operands.items ≡ operands.items) }
{
    let names = Vec::with_capacity(alloc, 0)?;
    let back = Vec::with_capacity(alloc, 0)?;
    Ok(Names {
        names,
        back,
        operands,
    })
}

/// With which places of the other rope those of each are paired.
#[derive(Drop)]
struct Pairs {
    to_old: Vec<Entry>,
    to_new: Vec<Entry>,
}

/// Pairs the tokens of two ropes.
fn pair(
    alloc: Global,
    own: &[Entry],
    old: &[Entry],
    new: &[Entry],
    least: usize,
) -> Result<Pairs, AllocError>
    requires { least ≤ 1024 }
    ensures { IfOk result (λ pairs. is_right least
        (pairing own.now old.now new.now pairs.to_old.items pairs.to_new.items) ≡ true) }
{
    let (to_old, to_new) = search(alloc, own, old, new, least)?;
    let found = Pairing {
        own,
        old,
        new,
        to_old: to_old.as_slice(),
        to_new: to_new.as_slice(),
    };
    if is_right(least, found) {
        Ok(Pairs { to_old, to_new })
    } else {
        unpaired(alloc)
    }
}

/// Pairs nothing.
fn unpaired(alloc: Global) -> Result<Pairs, AllocError>
    ensures { IfOk result (λ pairs. (least : ℕ) (own old new : Entries)
        → is_right least (pairing own old new pairs.to_old.items pairs.to_new.items) ≡ true) }
{
    let to_old = no_pairs(alloc)?;
    let to_new = no_pairs(alloc)?;
    Ok(Pairs { to_old, to_new })
}

/// No pair at any place.
fn no_pairs(alloc: Global) -> Result<Vec<Entry>, AllocError>
    ensures { IfOk result (λ pairs. pairs.items ≡ replicate fixed_places None) }
{
    let mut pairs = Vec::with_capacity(alloc, PLACES)?;
    pairs.resize(PLACES, None)?;
    Ok(pairs)
}
