//! Symbols' names.

ghost use Rattle.std.specs.Prelude.{◌≡◌, ◌≤◌, length};
ghost use Rattle.std.specs.Option.{SomeIff};

use arrayvec::ArrayVec;
use std::marker::Model;

/// The most bytes of a name.
pub const NAME_LENGTH: usize = 8;

/// The name of a symbol: at most 8 bytes.
#[derive(Drop)]
pub struct Name {
    key: ArrayVec<u8, NAME_LENGTH>,
}

impl Model for Name {
    ghost use Rattle.std.specs.Prelude.{List, ℕ, ◌≤◌, length};

    ghost Value = { List ℕ };

    ghost view = { λ n. n.key.items };

    ghost invariant = { λ n. length n.key.items ≤ 8 };
}

impl Name {
    /// These bytes as a name, where they are few enough.
    pub fn try_new(text: &[u8]) -> Option<Name>
        ensures { SomeIff result (length text.now ≤ NAME_LENGTH) text.now }
    {
        let mut key = ArrayVec::new();
        match key.try_extend_from_slice(text) {
            Ok(()) => Some(Name { key }),
            Err(_) => None,
        }
    }

    // Its bytes, as a table of symbols holds them.
    pub(crate) fn key(&self) -> &ArrayVec<u8, NAME_LENGTH>
        ensures { result.now.items ≡ self.now }
    {
        &self.key
    }

    // The same, without a copy.
    pub(crate) fn into_key(self) -> ArrayVec<u8, NAME_LENGTH>
        ensures value { result.items ≡ self }
        ensures fits { length result.items ≤ NAME_LENGTH }
    {
        self.key
    }
}
