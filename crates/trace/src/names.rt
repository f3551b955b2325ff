//! The names of places.

ghost use Rattle.std.specs.Prelude.{◌≡◌, ◌<◌, ◌≤◌, IfOk, IfSome, length};
ghost use Rattle.std.specs.Option.{option_map};
ghost use Rattle.symbols.specs.Values.{SymbolTable};
ghost use Rattle.trace.specs.PlaceNumbers.{AreFirst, IsPlace, place_count, place_number, place_shown};
ghost use Rattle.trace.specs.TraceLines.{place_name, register_name, special_name, stands_for, symbol_at};

use space::{Eras, Linear};
use std::alloc::{AllocError, Global};
use std::marker::Model;
use symbols::{Symbols, Value};

/// How many places erasable memory has.
const ERASABLE_COUNT: usize = 0o4000;

/// How many words a bank has.
const BANK_WORDS: usize = 0o2000;

/// How many places there are: those of erasable memory, and of 40 banks.
const PLACE_COUNT: usize = ERASABLE_COUNT + 0o50 * BANK_WORDS;

/// The names of places: for each the first of some symbols that stands for it, found by one look.
#[derive(Drop)]
pub struct PlaceNames {
    symbols: Symbols,
    // for each place by its number, the position of its symbol: where it has none, one past the last
    positions: Vec<usize>,
}

impl Model for PlaceNames {
    ghost use Rattle.symbols.specs.Values.{SymbolTable};
    ghost use Rattle.trace.specs.PlaceNumbers.{AreFirst};

    ghost Value = { SymbolTable };

    ghost view = { λ n. n.symbols };

    ghost invariant = { λ n. AreFirst n.symbols 0 n.positions.items };
}

/// What names places.
pub trait Names {
    /// The symbols that name them.
    ghost table: { Self → SymbolTable };

    /// The first symbol that stands for a place.
    fn symbol_at(&self, place: &Linear) -> Option<&[u8]>
        ensures name { option_map (λ name. name.now) result ≡ symbol_at (table self.now) place.now }
        ensures short { IfSome result (λ name. length name.now ≤ 8) };
}

impl PlaceNames {
    /// The names that some symbols give. An `Err` is that memory ran out.
    pub fn new(alloc: Global, symbols: Symbols) -> Result<PlaceNames, AllocError>
        ensures { IfOk result (λ names. names ≡ symbols) }
    {
        let positions = first_positions(alloc, &symbols)?;
        Ok(PlaceNames { symbols, positions })
    }
}

/// By one look.
impl Names for PlaceNames {
    ghost table = { λ names. names };

    fn symbol_at(&self, place: &Linear) -> Option<&[u8]> {
        match self.symbols.entry(self.positions[place_number(place)]) {
            Some(symbol) => Some(symbol.0),
            None => None,
        }
    }
}

/// By going over the symbols.
impl Names for Symbols {
    ghost table = { λ symbols. symbols };

    fn symbol_at(&self, place: &Linear) -> Option<&[u8]> {
        for index in 0..self.len() {
            if let Some(symbol) = self.entry(index) {
                if stands_for(place, symbol.1) {
                    return Some(symbol.0);
                }
            }
        }
        None
    }
}

/// The position of the first symbol that stands for it, for each place by its number.
fn first_positions(alloc: Global, symbols: &Symbols) -> Result<Vec<usize>, AllocError>
    ensures { IfOk result (λ positions. AreFirst symbols.now 0 positions.items) }
{
    let mut positions = vec![in alloc; symbols.len(); PLACE_COUNT]?;
    let mut left = symbols.len();
    while left > 0 {
        left -= 1;
        let Some(symbol) = symbols.entry(left) else {
            unreachable!()
        };
        if let Some(place) = place_shown(symbol.1) {
            positions[place_number(&place)] = left;
        }
    }
    Ok(positions)
}

/// The number of a place.
fn place_number(place: &Linear) -> usize
    ensures value { result ≡ place_number place.now }
    ensures range { result < place_count }
    ensures place { IsPlace place.now }
{
    match place {
        Linear::Erasable(place) => usize::from(place.number()),
        Linear::Fixed(bank, offset) => {
            ERASABLE_COUNT + BANK_WORDS * usize::from(bank.number()) + usize::from(offset.number())
        }
    }
}

/// The place that a symbol stands for: none of a number, which may mean a channel as well.
fn place_shown(value: Value) -> Option<Linear>
    ensures place { result ≡ place_shown value }
    ensures within { IfSome result IsPlace }
{
    match value {
        Value::Num(_) => None,
        Value::Erasable(place) => Some(Linear::Erasable(place)),
        Value::Fixed(bank, offset) => Some(Linear::Fixed(bank.bank(), offset)),
    }
}

/// Whether a place is what a symbol stands for.
fn stands_for(place: &Linear, value: Value) -> bool
    ensures { result ≡ stands_for place.now value }
{
    match value {
        Value::Num(_) => false,
        Value::Erasable(number) => match place {
            Linear::Erasable(same) => *same == number,
            Linear::Fixed(..) => false,
        },
        Value::Fixed(bank, offset) => match place {
            Linear::Erasable(_) => false,
            Linear::Fixed(same, at) => *same == bank.bank() && *at == offset,
        },
    }
}

/// The name of a place: a register's letters, or the first symbol that stands for it, or the name of a cell with a use
/// of its own.
pub fn place_name<N: Names>(names: &N, place: Linear) -> Option<&[u8]>
    ensures name { option_map (λ name. name.now) result ≡ place_name (N.table names.now) place }
    ensures short { IfSome result (λ name. length name.now ≤ 8) }
{
    match place {
        Linear::Erasable(number) => match register_name(number) {
            Some(name) => Some(name),
            None => match names.symbol_at(&place) {
                Some(name) => Some(name),
                None => special_name(number),
            },
        },
        Linear::Fixed(_, _) => names.symbol_at(&place),
    }
}

/// The letters of a register.
fn register_name(place: Eras) -> Option<&'static [u8]>
    ensures name { option_map (λ name. name.now) result ≡ register_name place }
    ensures short { IfSome result (λ name. length name.now ≤ 8) }
{
    match place.number() {
        0 => Some(b"A"),
        1 => Some(b"L"),
        2 => Some(b"Q"),
        3 => Some(b"EB"),
        4 => Some(b"FB"),
        5 => Some(b"Z"),
        6 => Some(b"BB"),
        _ => None,
    }
}

/// The name that the manual gives a cell with a use of its own, behind the registers.
fn special_name(place: Eras) -> Option<&'static [u8]>
    ensures name { option_map (λ name. name.now) result ≡ special_name place }
    ensures short { IfSome result (λ name. length name.now ≤ 8) }
{
    match place.number() {
        0o10 => Some(b"ARUPT"),
        0o11 => Some(b"LRUPT"),
        0o12 => Some(b"QRUPT"),
        0o15 => Some(b"ZRUPT"),
        0o16 => Some(b"BBRUPT"),
        0o17 => Some(b"BRUPT"),
        0o20 => Some(b"CYR"),
        0o21 => Some(b"SR"),
        0o22 => Some(b"CYL"),
        0o23 => Some(b"EDOP"),
        0o24 => Some(b"TIME2"),
        0o25 => Some(b"TIME1"),
        0o26 => Some(b"TIME3"),
        0o27 => Some(b"TIME4"),
        0o30 => Some(b"TIME5"),
        0o31 => Some(b"TIME6"),
        0o32 => Some(b"CDUX"),
        0o33 => Some(b"CDUY"),
        0o34 => Some(b"CDUZ"),
        0o35 => Some(b"OPTY"),
        0o36 => Some(b"OPTX"),
        0o37 => Some(b"PIPAX"),
        0o40 => Some(b"PIPAY"),
        0o41 => Some(b"PIPAZ"),
        0o45 => Some(b"INLINK"),
        _ => None,
    }
}
