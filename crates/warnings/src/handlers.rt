//! Likely mistakes in routines of interrupts: what they do not keep, that they do not end, and a program that runs over
//! the places where they are entered.

ghost use Rattle.std.specs.Prelude.{◌≡◌, ◌&&◌, not, OnOk};
ghost use Rattle.yayul.specs.Readings.{parts_in};
ghost use Rattle.warnings.specs.Warnings.{all_unkept, none_unkept};
ghost use Rattle.warnings.specs.Warnings.{is_register_field, calls, is_way_number, is_way_register, stores_way};
ghost use Rattle.warnings.specs.Warnings.{goes_elsewhere};
ghost use Rattle.warnings.specs.Warnings.{unkept_after, unkept_at, unkept_less, on_straight};
ghost use Rattle.warnings.specs.Warnings.{closes_a, closes_l};
ghost use Rattle.warnings.specs.Warnings.{with_target, is_resume_number, may_resume, no_handlers, handlers_after};
ghost use Rattle.warnings.specs.Warnings.{has_label, loses, loses_unkept, is_begun, is_endless, crosses};

use crate::fields::text_of;
use crate::flow::{gives_word, is_instruction, is_jump_name, sets_vector};
use crate::roles::Class;
use crate::standing::is_same_known;
use crate::warning::{has_alone, is_register_number};
use agc_text::{Number, octal_value};
use near_names::{NameSet, add_field};
use std::alloc::{AllocError, Global};
use symbols::register_place;
use yayul::Reading;

/// Of A, L and Q those that a routine of an interrupt has neither kept nor changed, on the straight way from its
/// vector.
#[derive(Clone, Copy, Drop)]
pub(crate) struct Unkept {
    pub(crate) a: bool,
    pub(crate) l: bool,
    pub(crate) q: bool,
}

impl Unkept {
    /// None of them.
    pub(crate) fn none() -> Unkept
        ensures { result ≡ none_unkept }
    {
        Unkept {
            a: false,
            l: false,
            q: false,
        }
    }

    /// All of them.
    fn all() -> Unkept
        ensures { result ≡ all_unkept }
    {
        Unkept {
            a: true,
            l: true,
            q: true,
        }
    }

    // What is unkept on a straight way, which ends at a label: others may come there.
    fn on_straight(self, parts: &Reading<'_>) -> Unkept
        ensures { result ≡ on_straight self (parts_in parts.now) }
    {
        if parts.label.is_some()
            && !(Class::MovesLocation.has(parts.role) || Class::KeepsLocation.has(parts.role))
        {
            Unkept::none()
        } else {
            self
        }
    }

    /// What is unkept after a line.
    pub(crate) fn after(self, parts: &Reading<'_>) -> Unkept
        ensures { result ≡ unkept_after self (parts_in parts.now) }
    {
        if Class::MovesLocation.has(parts.role) {
            if sets_vector(parts) {
                Unkept::all()
            } else {
                Unkept::none()
            }
        } else if !gives_word(parts) {
            self
        } else if goes_elsewhere(parts) {
            Unkept::none()
        } else {
            self.less(parts)
        }
    }

    // What is unkept after an instruction behind which the next is reached.
    fn less(self, parts: &Reading<'_>) -> Unkept
        ensures { result ≡ unkept_less self (parts_in parts.now) }
    {
        Unkept {
            a: and_not(self.a, closes_a(parts)),
            l: and_not(self.l, closes_l(parts)),
            q: and_not(self.q, Class::KeepsQ.has(parts.role)),
        }
    }

    // Whether a line changes what is unkept.
    fn is_lost(self, parts: &Reading<'_>) -> bool
        ensures { result ≡ loses self (parts_in parts.now) }
    {
        self.a && Class::ChangesA.has(parts.role)
            || self.l && Class::ChangesL.has(parts.role)
            || self.q && calls(parts)
    }
}

/// What the lines say of routines of interrupts.
#[derive(Drop)]
pub(crate) struct Handlers {
    /// What is unkept on the way from the last vector.
    pub(crate) unkept: Unkept,
    /// The labels to which such a way leads while A is unkept.
    pub(crate) a: NameSet,
    /// Those to which one leads while L is.
    pub(crate) l: NameSet,
    /// Those to which one leads while Q is.
    pub(crate) q: NameSet,
    /// Whether RESUME stands.
    pub(crate) resumes: bool,
    /// Whether it may, or a word that does the same.
    pub(crate) may_resume: bool,
    /// Whether RELINT stands.
    pub(crate) relints: bool,
    /// Whether SETLOC to a vector stands.
    pub(crate) vectors: bool,
}

impl Handlers {
    /// What is known before the first line.
    pub(crate) fn new(alloc: Global) -> Handlers
        ensures { result ≡ no_handlers }
    {
        Handlers {
            unkept: Unkept::none(),
            a: NameSet::new(alloc),
            l: NameSet::new(alloc),
            q: NameSet::new(alloc),
            resumes: false,
            may_resume: false,
            relints: false,
            vectors: false,
        }
    }

    /// Adds what a line says.
    pub(crate) fn note(&mut self, parts: &Reading<'_>) -> Result<(), AllocError>
        ensures { OnOk result (self.new ≡ handlers_after self.old (parts_in parts.now)) }
    {
        let way = self.unkept.on_straight(parts);
        add_target(way.a, &mut self.a, parts)?;
        add_target(way.l, &mut self.l, parts)?;
        add_target(way.q, &mut self.q, parts)?;
        self.resumes = self.resumes || Class::Resumes.has(parts.role);
        self.may_resume = self.may_resume || may_resume(parts);
        self.relints = self.relints || Class::Releases.has(parts.role);
        self.vectors = self.vectors || sets_vector(parts);
        self.unkept = way.after(parts);
        Ok(())
    }

    /// What is unkept at a line, where a way from a vector comes straight or by a jump.
    pub(crate) fn unkept_at(&self, unkept: Unkept, parts: &Reading<'_>) -> Unkept
        ensures { result ≡ unkept_at self.now unkept (parts_in parts.now) }
    {
        if Class::MovesLocation.has(parts.role) || Class::KeepsLocation.has(parts.role) {
            unkept
        } else {
            let way = unkept.on_straight(parts);
            Unkept {
                a: way.a || has_label(&self.a, parts),
                l: way.l || has_label(&self.l, parts),
                q: way.q || has_label(&self.q, parts),
            }
        }
    }

    /// Whether a routine changes A, L or Q before it keeps it.
    pub(crate) fn loses_unkept(&self, unkept: Unkept, parts: &Reading<'_>) -> bool
        ensures { result ≡ loses_unkept self.now unkept (parts_in parts.now) }
    {
        self.resumes && self.unkept_at(unkept, parts).is_lost(parts)
    }

    /// Whether an interrupt enters that does not end.
    pub(crate) fn is_endless(&self, filled: Option<u8>, parts: &Reading<'_>) -> bool
        ensures { result ≡ is_endless self.now filled (parts_in parts.now) }
    {
        self.relints
            && !self.may_resume
            && is_begun(filled)
            && is_instruction(parts)
            && parts.label.is_none()
    }

    /// Whether a program runs over the vectors.
    pub(crate) fn crosses(&self, place: Option<u32>, left: bool, parts: &Reading<'_>) -> bool
        ensures { result ≡ crosses self.now place left (parts_in parts.now) }
    {
        self.relints
            && !self.vectors
            && is_same_known(place, Some(0o4004))
            && !left
            && is_instruction(parts)
    }
}

// Adds the label to which a line leads, where something is so.
fn add_target(condition: bool, names: &mut NameSet, parts: &Reading<'_>) -> Result<(), AllocError>
    ensures { OnOk result (names.new ≡ with_target condition names.old (parts_in parts.now)) }
{
    if has_alone(condition && Class::LeadsToFixed.has(parts.role), parts) {
        add_field(names, parts.operand)
    } else {
        Ok(())
    }
}

/// Whether the label of a line is one of some names.
pub(crate) fn has_label(names: &NameSet, parts: &Reading<'_>) -> bool
    ensures { result ≡ has_label names.now (parts_in parts.now) }
{
    match parts.label {
        Some(label) => names.has(label.text),
        None => false,
    }
}

// Whether a vector has no word so far.
fn is_begun(filled: Option<u8>) -> bool
    ensures { result ≡ is_begun filled }
{
    matches!(filled, Some(0))
}

// RESUME, or a number by which it can be made.
fn may_resume(parts: &Reading<'_>) -> bool
    ensures { result ≡ may_resume (parts_in parts.now) }
{
    Class::Resumes.has(parts.role) || is_resume_number(text_of(parts.operand))
}

fn is_resume_number(text: &[u8]) -> bool
    ensures { result ≡ is_resume_number text.now }
{
    matches!(octal_value(text), Some(Number::Small(number)) if number == 0o17 || number == 0o50017)
}

// TC of a place that is no register.
fn calls(parts: &Reading<'_>) -> bool
    ensures { result ≡ calls (parts_in parts.now) }
{
    Class::Call.has(parts.role)
        && parts.operand.is_some()
        && !is_register_field(text_of(parts.operand))
}

// A register or a counter, by name or by number.
fn is_register_field(text: &[u8]) -> bool
    ensures { result ≡ is_register_field text.now }
{
    register_place(text).is_some() || is_register_number(text)
}

/// Whether the next word is not reached from this one, or is another than it names.
pub(crate) fn goes_elsewhere(parts: &Reading<'_>) -> bool
    ensures { result ≡ goes_elsewhere (parts_in parts.now) }
{
    Class::Leaving.has(parts.role) || stores_way(parts)
}

/// Whether a line stores where the next instruction is found.
pub(crate) fn stores_way(parts: &Reading<'_>) -> bool
    ensures { result ≡ stores_way (parts_in parts.now) }
{
    Class::Stores.has(parts.role) && is_way_register(text_of(parts.operand))
}

// FB, Z or BB by name, or a place of 3 to 6 by number.
fn is_way_register(text: &[u8]) -> bool
    ensures { result ≡ is_way_register text.now }
{
    is_jump_name(text) || is_way_number(text)
}

// Octal digits of 3 to 6.
fn is_way_number(text: &[u8]) -> bool
    ensures { result ≡ is_way_number text.now }
{
    matches!(octal_value(text), Some(Number::Small(number)) if (3..=6).contains(&number))
}

// Whether one thing is so, and another is not.
fn and_not(one: bool, other: bool) -> bool
    ensures { result ≡ (one && not other) }
{
    one && !other
}

// Whether A is stored or changed.
fn closes_a(parts: &Reading<'_>) -> bool
    ensures { result ≡ closes_a (parts_in parts.now) }
{
    Class::KeepsA.has(parts.role) || Class::ChangesA.has(parts.role)
}

// Whether L is.
fn closes_l(parts: &Reading<'_>) -> bool
    ensures { result ≡ closes_l (parts_in parts.now) }
{
    Class::KeepsL.has(parts.role) || Class::ChangesL.has(parts.role)
}
