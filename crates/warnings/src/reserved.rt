//! Words that are reserved at a place where an earlier line reserves one.

ghost use Rattle.std.specs.Prelude.{◌≡◌, [], OnOk};
ghost use Rattle.yayul.specs.Readings.{parts_in};
ghost use Rattle.warnings.specs.Warnings.{is_reserved, with_place, is_again, names_one, none_reserved};
ghost use Rattle.warnings.specs.Warnings.{reserved_after, stands_again};

use crate::fields::text_of;
use crate::standing::place_after;
use crate::warning::reserves_one;
use near_names::{NameSet, add_field};
use std::alloc::{AllocError, Global};
use std::marker::Model;
use yayul::Reading;

/// Some places, each once.
pub(crate) struct PlaceSet {
    list: Vec<u32>,
}

// One function, and not its parts at each place where places are let go.
impl Drop for PlaceSet {
    fn drop(self) {
        let PlaceSet { list: _ } = self;
    }
}

impl Model for PlaceSet {
    ghost use Rattle.std.specs.Prelude.{List, ℕ};

    ghost Value = { List ℕ };

    ghost view = { λ s. s.list.items };
}

impl PlaceSet {
    // No place.
    fn new(alloc: Global) -> PlaceSet
        ensures { result ≡ [] }
    {
        PlaceSet {
            list: Vec::new(alloc),
        }
    }

    // Adds a place, where it is known.
    fn add(&mut self, place: Option<u32>) -> Result<(), AllocError>
        ensures { OnOk result (self.new ≡ with_place self.old place) }
    {
        match place {
            Some(place) if !self.has(place) => {
                self.list.push(place)?;
                Ok(())
            }
            _ => Ok(()),
        }
    }

    // Whether a place is one of them.
    fn has(&self, place: u32) -> bool
        ensures { result ≡ is_reserved self.now place }
    {
        is_reserved(&self.list, place)
    }

    // Whether a place is known, and one of them.
    fn has_known(&self, place: Option<u32>) -> bool
        ensures { result ≡ is_again self.now place }
    {
        match place {
            Some(place) => self.has(place),
            None => false,
        }
    }
}

fn is_reserved(places: &[u32], place: u32) -> bool
    ensures { result ≡ is_reserved places.now place }
{
    places.contains(&place)
}

/// What the lines say of words that are reserved.
#[derive(Drop)]
pub(crate) struct Reserved {
    /// The place where the next line stands, where the fields of the lines tell it.
    pub(crate) place: Option<u32>,
    /// The places of words that have a label.
    pub(crate) places: PlaceSet,
    /// The labels of words that stand where one of them does.
    pub(crate) again: NameSet,
}

impl Reserved {
    /// What is known before the first line.
    pub(crate) fn new(alloc: Global) -> Reserved
        ensures { result ≡ none_reserved }
    {
        Reserved {
            place: Some(0o4000),
            places: PlaceSet::new(alloc),
            again: NameSet::new(alloc),
        }
    }

    /// Adds what a line says.
    pub(crate) fn note(&mut self, parts: &Reading<'_>) -> Result<(), AllocError>
        ensures { OnOk result (self.new ≡ reserved_after self.old (parts_in parts.now)) }
    {
        if reserves_one(parts) && self.places.has_known(self.place) {
            add_field(&mut self.again, parts.label)?;
        }
        if names_one(parts) {
            self.places.add(self.place)?;
        }
        self.place = place_after(self.place, parts);
        Ok(())
    }

    /// Whether a line reserves a word where an earlier line reserves one.
    pub(crate) fn has_again(&self, parts: &Reading<'_>) -> bool
        ensures { result ≡ stands_again self.now (parts_in parts.now) }
    {
        reserves_one(parts) && self.again.has(text_of(parts.label))
    }
}

// A label beside ERASE alone.
fn names_one(parts: &Reading<'_>) -> bool
    ensures { result ≡ names_one (parts_in parts.now) }
{
    reserves_one(parts) && parts.label.is_some()
}
