//! What is asked for: a routine, the limits of loops, and the cells that keep Q.

ghost use Rattle.std.specs.Prelude.{◌≡◌, IfOk, []};
ghost use Rattle.std.specs.Option.{option_map};
ghost use Rattle.agc_text.specs.Fields.{runs, texts};
ghost use Rattle.bound.specs.Asked.{cell_of, cell_named, kept_named, limit_named, limit_of, limits_named};
ghost use Rattle.bound.specs.Asked.{routine_named, site_of};

use crate::charge::Limit;
use crate::site::{Mode, Site};
use agc_text::{decimal, split_field};
use commands::named_place;
use space::{Addr12, Linear, resolve};
use std::alloc::{AllocError, Global};
use symbols::Symbols;

/// The most digits of how often a way comes to a place.
const MOST_DIGITS: usize = 9;

/// The first word of the routine of a name, or at a place as a session takes it.
pub fn routine_named(symbols: &Symbols, text: &[u8]) -> Option<Site>
    ensures { result ≡ routine_named symbols.now text.now }
{
    match named_place(symbols, text) {
        Some(place) => site_of(place),
        None => None,
    }
}

/// The word at a place, where nothing waits; none in erasable memory.
fn site_of(place: Linear) -> Option<Site>
    ensures { result ≡ site_of place }
{
    match place {
        Linear::Erasable(_) => None,
        Linear::Fixed(bank, _) => Some(Site {
            bank,
            address: resolve::window(place),
            mode: Mode::entry(false),
        }),
    }
}

/// The limits of a text: of each a place, and how often a way comes to it at most.
pub fn limits_named(
    alloc: Global,
    symbols: &Symbols,
    text: &[u8],
) -> Result<Option<Vec<Limit>>, AllocError>
    ensures { IfOk result (λ found. option_map (λ limits. limits.items) found
        ≡ limits_named symbols.now [] (texts (runs text.now))) }
{
    let mut limits = Vec::new(alloc);
    let mut rest = text;
    while let Some((place, after)) = split_field(rest) {
        let Some((number, more)) = split_field(after) else {
            return Ok(None);
        };
        let Some(limit) = limit_named(symbols, place, number) else {
            return Ok(None);
        };
        limits.push(limit)?;
        rest = more;
    }
    Ok(Some(limits))
}

/// The limit of a place and a number.
fn limit_named(symbols: &Symbols, place: &[u8], number: &[u8]) -> Option<Limit>
    ensures { result ≡ limit_named symbols.now place.now number.now }
{
    let place = named_place(symbols, place)?;
    let most = decimal(number, MOST_DIGITS)?;
    limit_of(place, most as u32)
}

/// The limit at a place of fixed memory.
fn limit_of(place: Linear, most: u32) -> Option<Limit>
    ensures { result ≡ limit_of place most }
{
    match place {
        Linear::Erasable(_) => None,
        Linear::Fixed(bank, offset) => Some(Limit { bank, offset, most }),
    }
}

/// The addresses of the cells of a text.
pub fn kept_named(
    alloc: Global,
    symbols: &Symbols,
    text: &[u8],
) -> Result<Option<Vec<Addr12>>, AllocError>
    ensures { IfOk result (λ found. option_map (λ kept. kept.items) found
        ≡ kept_named symbols.now [] (texts (runs text.now))) }
{
    let mut kept = Vec::new(alloc);
    let mut rest = text;
    while let Some((field, after)) = split_field(rest) {
        let Some(cell) = cell_named(symbols, field) else {
            return Ok(None);
        };
        kept.push(cell)?;
        rest = after;
    }
    Ok(Some(kept))
}

/// The address of a cell of erasable memory.
fn cell_named(symbols: &Symbols, field: &[u8]) -> Option<Addr12>
    ensures { result ≡ cell_named symbols.now field.now }
{
    match named_place(symbols, field) {
        Some(place) => cell_of(place),
        None => None,
    }
}

/// The address at which a program reaches a place of erasable memory.
fn cell_of(place: Linear) -> Option<Addr12>
    ensures { result ≡ cell_of place }
{
    match place {
        Linear::Erasable(_) => Some(resolve::window(place)),
        Linear::Fixed(_, _) => None,
    }
}
