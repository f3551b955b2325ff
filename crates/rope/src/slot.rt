//! A place of fixed memory.

ghost use Rattle.std.specs.Prelude.{◌≡◌, Some, None, is_some, unwrap_or};

use std::marker::Model;
use words::Word;

/// A place of fixed memory: the word that stands there, 0 where none does, and whether one does.
#[derive(Clone, Copy)]
pub(crate) struct Slot {
    word: Word,
    stands: bool,
}

impl Model for Slot {
    ghost use Rattle.std.specs.Prelude.{◌≡◌, ℕ, false, if◌then◌else◌, Option, Some, None};
    ghost use Rattle.std.specs.Prelude.{is_some, unwrap_or};
    ghost use Rattle.std.specs.Coded.{coded_ℕ, coded_option};

    ghost Value = { Option ℕ };

    ghost coded = { coded_option coded_ℕ };

    ghost view = { λ s. if s.stands then Some s.word else None };

    ghost invariant = { λ s. s.stands ≡ false → s.word ≡ 0 };

    ghost inverse = { λ o. record { word = unwrap_or o 0; stands = is_some o } };
}

impl Slot {
    /// A place where no word stands.
    pub(crate) const EMPTY: Slot = Slot {
        word: Word::ZERO,
        stands: false,
    };

    /// A place where a word stands.
    pub(crate) fn of(word: Word) -> Slot
        ensures { result ≡ Some word }
    {
        Slot { word, stands: true }
    }

    /// The word that stands there, 0 where none does.
    pub(crate) fn word(self) -> Word
        ensures { result ≡ unwrap_or self 0 }
    {
        self.word
    }

    /// Whether a word stands there.
    pub(crate) fn stands(self) -> bool
        ensures { result ≡ is_some self }
    {
        self.stands
    }
}
