//! What can be asked about where its word came from.

ghost use Rattle.std.specs.Prelude.{◌≡◌};
ghost use Rattle.agc_text.specs.Fields.{runs, texts};
ghost use Rattle.commands.specs.Subjects.{channel_by, channel_named, erasable_first, place_subject, channel_subject};

use crate::fields::channel_in;
use crate::named_places::place_first;
use crate::places::erasable_number;
use space::{Chan, Eras};
use symbols::Symbols;

/// What has a word that a step has written.
#[derive(Clone, Copy, Drop)]
pub enum Subject {
    /// An erasable place.
    Place(Eras),
    /// A channel.
    Channel(Chan),
}

// The erasable place that some fields begin with.
pub(crate) fn erasable_first(symbols: &Symbols, rest: &[u8]) -> Option<Eras>
    ensures { result ≡ erasable_first symbols.now (texts (runs rest.now)) }
{
    match place_first(symbols, rest) {
        Some(place) => erasable_number(place),
        None => None,
    }
}

// The same, as a subject.
pub(crate) fn place_subject(symbols: &Symbols, rest: &[u8]) -> Option<Subject>
    ensures { result ≡ place_subject symbols.now (texts (runs rest.now)) }
{
    match erasable_first(symbols, rest) {
        Some(place) => Some(Subject::Place(place)),
        None => None,
    }
}

// The channel that a field names, as a subject.
pub(crate) fn channel_subject(symbols: &Symbols, field: &[u8]) -> Option<Subject>
    ensures { result ≡ channel_subject symbols.now field.now }
{
    match channel_named(symbols, field) {
        Some(channel) => Some(Subject::Channel(channel)),
        None => None,
    }
}

/// The channel that a field names, where no symbol has the name.
pub fn channel_named(symbols: &Symbols, field: &[u8]) -> Option<Chan>
    ensures { result ≡ channel_named symbols.now field.now }
{
    if symbols.symbol(field).is_some() {
        return None;
    }
    channel_by(field)
}

// The channel that is named by two letters and its number.
fn channel_by(field: &[u8]) -> Option<Chan>
    ensures { result ≡ channel_by field.now }
{
    if field.len() > 2 && &field[..2] == "CH".as_bytes() {
        channel_in(&field[2..])
    } else {
        None
    }
}
