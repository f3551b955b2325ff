//! To whom the cycles of a step are put down.

use space::Linear;

/// To whom the cycles of a step are put down.
#[derive(Clone, Copy)]
pub enum Account {
    /// An input that is taken.
    Input,
    /// An interrupt that is entered.
    Entry,
    /// A word that waited, as RESUME leaves the one that an interrupt put off. Z leads past its place.
    Waiting,
    /// The word at the place where Z leads.
    Place(Linear),
}
