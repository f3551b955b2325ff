//! Symbols and their values, in order of definition.

ghost use Rattle.std.specs.Prelude.{◌≡◌, ◌≤◌, [], ◌∷◌, ◌++◌, IfOk, OnErr, IfSome, is_some, not, if◌then◌else◌, length};
ghost use Rattle.std.specs.Prelude.{slice_get};
ghost use Rattle.std.specs.Option.{option_map};
ghost use Rattle.agc_text.specs.Tables.{value_in};

use crate::name::{NAME_LENGTH, Name};
use crate::values::Value;
use arrayvec::ArrayVec;
use indexmap::IndexMap;
use indexmap::map::Entry;
use std::alloc::{AllocError, Global};
use std::marker::Model;

/// A table of symbols.
#[derive(Drop)]
pub struct Symbols {
    values: IndexMap<ArrayVec<u8, NAME_LENGTH>, Value>,
}

impl Model for Symbols {
    ghost use Rattle.std.specs.Prelude.{List, ℕ, ◌≤◌, length, map};
    ghost use Rattle.std.specs.List.{All};
    ghost use Rattle.symbols.specs.declared.values.Value.{Value as Kind};

    ghost Value = { List (List ℕ × Kind) };

    ghost view = { λ s. map (λ e. (e.0.items, e.1)) s.values.entries };

    ghost invariant = { λ s. All (λ e. length e.0.items ≤ 8) s.values.entries };
}

impl Symbols {
    /// A table without symbols. Nothing is allocated.
    pub fn new(alloc: Global) -> Symbols
        ensures { result ≡ [] }
    {
        Symbols {
            values: IndexMap::new(alloc),
        }
    }

    /// The value of a name, where it is defined.
    pub fn symbol(&self, name: &[u8]) -> Option<Value>
        ensures { result ≡ value_in self.now name.now }
    {
        let values = &self.values;
        let name = Name::try_new(name)?;
        values.get(name.key()).copied()
    }

    /// The value of a name that is held as one, without a copy of it.
    pub fn named(&self, name: &Name) -> Option<Value>
        ensures { result ≡ value_in self.now name.now }
    {
        self.values.get(name.key()).copied()
    }

    /// How many symbols there are.
    pub fn len(&self) -> usize
        ensures { result ≡ length self.now }
    {
        self.values.len()
    }

    /// The name and the value of the symbol that was defined after so many others.
    pub fn entry(&self, index: usize) -> Option<(&[u8], Value)>
        ensures value { option_map (λ e. (e.0.now, e.1)) result ≡ slice_get self.now index }
        ensures fits { IfSome result (λ e. length e.0.now ≤ NAME_LENGTH) }
    {
        let entry = self.values.get_index(index)?;
        Some((entry.0.as_slice(), *entry.1))
    }

    /// Adds a name, and answers whether it does: where the name is there already, nothing changes. After an `Err`,
    /// where memory ran out, nothing has changed either.
    pub fn define(&mut self, name: Name, value: Value) -> Result<bool, AllocError>
        ensures added { IfOk result (λ added. added ≡ not (is_some (value_in self.old name))) }
        ensures ok { IfOk result (λ added. self.new ≡ (if added then self.old ++ (name, value) ∷ [] else self.old)) }
        ensures err { OnErr result (self.new ≡ self.old) }
    {
        let Entry::Vacant(entry) = self.values.entry(name.into_key())? else {
            return Ok(false);
        };
        entry.insert(value);
        Ok(true)
    }
}
