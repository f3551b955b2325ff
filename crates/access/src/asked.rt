//! What a run is asked for.

ghost use Rattle.std.specs.Prelude.{◌≡◌, ◌<◌};
ghost use Rattle.std.specs.Option.{option_map};
ghost use Rattle.agc_text.specs.Fields.{runs, texts};
ghost use Rattle.agc_text.specs.Tables.{same_name};
ghost use Rattle.commands.specs.Commands.{channel_in};
ghost use Rattle.trace.specs.TraceLines.{cell_name};
ghost use Rattle.access.specs.Asked.{cell_asked, cell_in_fields, cell_moved, cell_of, cell_of_field, cell_shown};
ghost use Rattle.access.specs.Asked.{channel_asked, erasable_named, first_shown, further, view_asked};

use crate::view::View;
use agc_text::{octal, split_field};
use commands::{begins_with_plus, channel_named, erasable_number, named_place};
use cpu::Cell;
use space::{Eras, Linear};
use symbols::{Symbols, Value};
use trace::cell_name;

/// How many cells there are.
const CELLS: u16 = 0o5000;

/// The most digits of how many words behind a place.
const OCTAL_DIGITS: usize = 5;

/// All cells where none is asked for, or the one that is; `None` where no cell is shown so.
pub fn view_asked(symbols: &Symbols, place: Option<&[u8]>) -> Option<View>
    ensures { result ≡ view_asked symbols.now (option_map (λ text. text.now) place.entry) }
{
    match place {
        None => Some(View::All),
        Some(text) => match cell_asked(symbols, text) {
            Some(cell) => Some(View::One(cell)),
            None => None,
        },
    }
}

/// The cell that is asked for: the one that is shown so, else as a session takes it.
fn cell_asked(symbols: &Symbols, text: &[u8]) -> Option<Cell>
    ensures { result ≡ cell_asked symbols.now text.now }
{
    match cell_shown(symbols, text) {
        Some(cell) => Some(cell),
        None => cell_in_fields(symbols, text),
    }
}

/// The cell that is named so: of a symbol of erasable memory its place, else the first that is shown so.
fn cell_shown(symbols: &Symbols, text: &[u8]) -> Option<Cell>
    ensures { result ≡ cell_shown symbols.now text.now }
{
    match symbols.symbol(text) {
        Some(value) => match cell_of(value) {
            Some(cell) => Some(cell),
            None => first_shown(symbols, text),
        },
        None => first_shown(symbols, text),
    }
}

/// The cell as a session takes it, of an erasable place or of a channel, or that so many words behind a place.
fn cell_in_fields(symbols: &Symbols, text: &[u8]) -> Option<Cell>
    ensures { result ≡ cell_in_fields symbols.now (texts (runs text.now)) }
{
    let (field, rest) = split_field(text)?;
    match split_field(rest) {
        None => cell_of_field(symbols, field),
        Some((moved, rest)) => match split_field(rest) {
            None => cell_moved(symbols, field, moved),
            Some(_) => None,
        },
    }
}

/// The cell of an erasable place or of a channel.
fn cell_of_field(symbols: &Symbols, field: &[u8]) -> Option<Cell>
    ensures { result ≡ cell_of_field symbols.now field.now }
{
    match erasable_named(symbols, field) {
        Some(place) => Some(Cell::of_place(place)),
        None => channel_asked(symbols, field),
    }
}

/// An erasable place as a session takes it.
fn erasable_named(symbols: &Symbols, field: &[u8]) -> Option<Eras>
    ensures { result ≡ erasable_named symbols.now field.now }
{
    match named_place(symbols, field) {
        Some(place) => erasable_number(place),
        None => None,
    }
}

/// The cell of a channel, where no symbol has its name.
fn channel_asked(symbols: &Symbols, field: &[u8]) -> Option<Cell>
    ensures { result ≡ channel_asked symbols.now field.now }
{
    match channel_named(symbols, field) {
        Some(channel) => Some(Cell::of_channel(channel)),
        None => None,
    }
}

/// The cell so many words behind an erasable place, where a plus sign stands before them.
fn cell_moved(symbols: &Symbols, field: &[u8], moved: &[u8]) -> Option<Cell>
    ensures { result ≡ cell_moved symbols.now field.now moved.now }
{
    if !begins_with_plus(moved) {
        return None;
    }
    let words = octal(&moved[1..], OCTAL_DIGITS)?;
    match erasable_named(symbols, field) {
        Some(place) => further(words, place),
        None => None,
    }
}

/// The cell so many words behind an erasable place, where there is one.
fn further(words: u64, place: Eras) -> Option<Cell>
    ensures { result ≡ further words place }
{
    if words < 0o4000 && u64::from(place.number()) + words < 0o4000 {
        Some(Cell::of_place(Eras::of_low_bits(place.number() + words as u16)))
    } else {
        None
    }
}

/// The cell of an erasable place.
fn cell_of(value: Value) -> Option<Cell>
    ensures { result ≡ cell_of value }
{
    match value {
        Value::Erasable(place) => Some(Cell::of_place(place)),
        Value::Num(_) => None,
        Value::Fixed(_, _) => None,
    }
}

/// The first cell that is shown so.
#[tactic(auto, using(crate::proofs::Asking::first_steps))]
fn first_shown(symbols: &Symbols, text: &[u8]) -> Option<Cell>
    ensures { result ≡ first_shown symbols.now text.now 0o5000 }
{
    for number in 0..CELLS {
        if is_shown(symbols, number, text) {
            return Cell::try_new(number);
        }
    }
    None
}

/// Whether the cell of a number is shown so.
fn is_shown(symbols: &Symbols, number: u16, text: &[u8]) -> bool
    requires { number < 0o5000 }
    ensures { result ≡ same_name (cell_name symbols.now number) text.now }
{
    match Cell::try_new(number) {
        Some(cell) => cell_name(symbols, cell).as_slice() == text,
        None => unreachable!(),
    }
}
