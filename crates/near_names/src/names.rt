//! Sets of names.

ghost use Rattle.std.specs.Prelude.{◌≡◌, ◌<◌, [], Some, length, map, find, slice_get, OnOk};
ghost use Rattle.std.specs.Option.{option_map};
ghost use Rattle.agc_text.specs.Views.{piece};
ghost use Rattle.near_names.specs.Names.{near_name, is_close};
ghost use Rattle.near_names.specs.Names.{is_among, is_short, with_field, with_name};

use crate::nearness::{Closeness, SHORTEST, is_close};
use agc_text::Field;
use std::alloc::{AllocError, Global};
use std::marker::Model;
use symbols::{NAME_LENGTH, Name, Symbols, Value};
use words::Word;

/// Some names, each once.
pub struct NameSet {
    symbols: Symbols,
}

// One function, and not its parts at each place where names are let go.
impl Drop for NameSet {
    fn drop(self) {
        let NameSet { symbols: _ } = self;
    }
}

impl Model for NameSet {
    ghost use Rattle.std.specs.Prelude.{List, ℕ, map};

    ghost Value = { List (List ℕ) };

    ghost view = { λ s. map (λ e. e.0) s.symbols };
}

impl NameSet {
    /// No name.
    pub fn new(alloc: Global) -> NameSet
        ensures { result ≡ [] }
    {
        NameSet {
            symbols: Symbols::new(alloc),
        }
    }

    /// Adds a text, where it is no longer than a label.
    pub fn add(&mut self, text: &[u8]) -> Result<(), AllocError>
        ensures { OnOk result (self.new ≡ with_name self.old text.now) }
    {
        if let Some(name) = Name::try_new(text) {
            self.symbols.define(name, Value::Num(Word::ZERO))?;
        }
        Ok(())
    }

    /// The first that is a text in capitals; else, for a text of three bytes or more, one that is near.
    pub fn near(&self, text: &[u8]) -> Option<&[u8]>
        ensures { option_map (λ name. name.now) result ≡ near_name self.now text.now }
    {
        near_name(&self.symbols, text)
    }

    /// Whether a text is one of them. Where there are none it is not looked for.
    #[tactic(auto, using(crate::proofs::Sets::none_among))]
    pub fn has(&self, text: &[u8]) -> bool
        ensures { result ≡ is_among self.now text.now }
    {
        self.symbols.len() > 0 && self.has_symbol(text)
    }

    // Whether a text is one of them, as it is looked for.
    fn has_symbol(&self, text: &[u8]) -> bool
        ensures { result ≡ is_among self.now text.now }
    {
        self.symbols.symbol(text).is_some()
    }
}

/// Adds a field to some names, where it stands.
pub fn add_field(names: &mut NameSet, field: Option<Field<'_>>) -> Result<(), AllocError>
    ensures { OnOk result (names.new ≡ with_field names.old (option_map piece field.entry)) }
{
    match field {
        Some(field) => names.add(field.text),
        None => Ok(()),
    }
}

// The first of some names that is a text in capitals; else, for a text of three bytes or more, one that is near.
fn near_name<'a>(symbols: &'a Symbols, text: &[u8]) -> Option<&'a [u8]>
    ensures { option_map (λ name. name.now) result ≡ near_name (map (λ e. e.0) symbols.now) text.now }
{
    match close_name(symbols, Closeness::InCapitals, text) {
        Some(name) => Some(name),
        None if text.len() >= SHORTEST => match close_name(symbols, Closeness::AsLong, text) {
            Some(name) => Some(name),
            None => close_name(symbols, Closeness::Near, text),
        },
        None => None,
    }
}

// The first of some names that is close to a text.
#[tactic(auto, using(crate::proofs::Sets::find_here, crate::proofs::Sets::find_on))]
fn close_name<'a>(symbols: &'a Symbols, closeness: Closeness, text: &[u8]) -> Option<&'a [u8]>
    ensures { option_map (λ name. name.now) result ≡ find (is_close closeness text.now) (map (λ e. e.0) symbols.now) }
{
    for index in 0..symbols.len() {
        let name = name_at(symbols, index);
        if is_close(closeness, text, name) {
            return Some(name);
        }
    }
    None
}

// The name that was defined after so many others.
fn name_at(symbols: &Symbols, index: usize) -> &[u8]
    requires { index < length symbols.now }
    ensures { Some result.now ≡ slice_get (map (λ e. e.0) symbols.now) index }
{
    match symbols.entry(index) {
        Some((name, _)) => name,
        None => b"",
    }
}

/// Whether a text is no longer than a label.
pub fn is_short(text: &[u8]) -> bool
    ensures { result ≡ is_short text.now }
{
    text.len() <= NAME_LENGTH
}

/// Whether a text is one of some names. It is brought into its callers, so that each looks for names that it has.
#[inline(always)]
pub fn is_among(names: &[&str], text: &[u8]) -> bool
    ensures { result ≡ is_among (map (λ name. name.now) names.now) text.now }
{
    for name in names {
        if text == name.as_bytes() {
            return true;
        }
    }
    false
}
