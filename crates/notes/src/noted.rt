//! Which notes some steps of a run have: each kind at each place once.

ghost use Rattle.std.specs.Prelude.{◌≡◌, IfOk, OnOk};
ghost use Rattle.cpu.specs.NextStep.{next_step};
ghost use Rattle.cpu.specs.State.{FitsRun};
ghost use Rattle.notes.specs.Noted.{has_note, kind_number, noted_by, noted_more, nothing_noted, same_note};
ghost use Rattle.notes.specs.Noted.{kind_noted, same_spot, spot_of, step_notes, with_note};

use crate::kind::Kind;
use crate::past::Past;
use crate::quiet::is_quiet_step;
use crate::step::happens;
use cpu::{Machine, NextStep, Processor};
use space::Linear;
use std::alloc::{AllocError, Global};
use std::marker::Model;
use trace::entry_place;
use yayul::NamedPlaces;

/// What has happened, and where: the place of an instruction or of an interrupt's entry, and none of an input, or of a
/// word that waited.
#[derive(Clone, Copy, PartialEq, Eq, Debug, Drop)]
pub struct Note {
    /// What has happened.
    pub kind: Kind,
    /// Where.
    pub place: Option<Linear>,
}

/// The notes of some steps, and what those steps have left.
#[derive(Drop)]
pub struct NotedSteps {
    past: Past,
    notes: Vec<Note>,
}

impl Model for NotedSteps {
    ghost use Rattle.notes.specs.Noted.{Noted};

    ghost Value = { Noted };

    ghost view = { λ n. record { past = n.past; notes = n.notes.items } };
}

impl NotedSteps {
    /// No step was noted.
    pub fn nothing(alloc: Global) -> NotedSteps
        ensures { result ≡ nothing_noted }
    {
        NotedSteps {
            past: Past::none(),
            notes: Vec::new(alloc),
        }
    }

    /// The same again.
    pub fn copied(&self, alloc: Global) -> Result<NotedSteps, AllocError>
        ensures { IfOk result (λ copy. copy ≡ self.now) }
    {
        let mut notes = Vec::new(alloc);
        notes.extend_from_slice(&self.notes)?;
        Ok(NotedSteps {
            past: self.past,
            notes,
        })
    }

    /// The notes, in the order in which they came.
    pub fn notes(&self) -> &[Note]
        ensures { result.now ≡ self.now.notes }
    {
        &self.notes
    }

    /// Notes what happens in the next step, of a program whose words name some places.
    pub fn note(
        &mut self,
        named: &NamedPlaces,
        processor: &Processor,
        machine: &Machine,
    ) -> Result<(), AllocError>
        requires fits { FitsRun processor.now.scenario machine.now }
        ensures { OnOk result (self.new ≡ noted_more named.now processor.now.scenario machine.now self.old) }
    {
        let step = processor.next_step(machine);
        if is_quiet_step(named, processor, machine, &self.past, &step) {
            return Ok(());
        }
        self.note_step(named, processor, machine, &step)
    }

    /// Notes what happens in a step, which may be any.
    #[inline(never)]
    fn note_step(
        &mut self,
        named: &NamedPlaces,
        processor: &Processor,
        machine: &Machine,
        step: &NextStep,
    ) -> Result<(), AllocError>
        ensures { OnOk result (self.new ≡ noted_by named.now processor.now.scenario.rope machine.now step.now
            self.old) }
    {
        self.note_kinds(named, processor, machine, step)?;
        self.past.note(machine, step);
        Ok(())
    }

    /// Notes each kind that happens in a step.
    fn note_kinds(
        &mut self,
        named: &NamedPlaces,
        processor: &Processor,
        machine: &Machine,
        step: &NextStep,
    ) -> Result<(), AllocError>
        ensures { OnOk result (self.new ≡ record self.old {
          notes =
              step_notes named.now processor.now.scenario.rope machine.now step.now self.old;
        }) }
    {
        self.note_kind(named, processor, machine, step, Kind::Quotient)?;
        self.note_kind(named, processor, machine, step, Kind::Skip)?;
        self.note_kind(named, processor, machine, step, Kind::NoWord)?;
        self.note_kind(named, processor, machine, step, Kind::InErasable)?;
        self.note_kind(named, processor, machine, step, Kind::NoHandler)?;
        self.note_kind(named, processor, machine, step, Kind::OtherBank)?;
        self.note_kind(named, processor, machine, step, Kind::NotKept)?;
        self.note_kind(named, processor, machine, step, Kind::MinusZero)?;
        self.note_kind(named, processor, machine, step, Kind::Overwritten)?;
        self.note_kind(named, processor, machine, step, Kind::Shared)?;
        self.note_kind(named, processor, machine, step, Kind::FixedBank)
    }

    /// Notes a kind, where that happens in a step.
    #[tactic(auto, unfolding(crate::specs::Noted::kind_noted))]
    fn note_kind(
        &mut self,
        named: &NamedPlaces,
        processor: &Processor,
        machine: &Machine,
        step: &NextStep,
        kind: Kind,
    ) -> Result<(), AllocError>
        ensures { OnOk result (self.new ≡ record self.old {
          notes =
              kind_noted named.now processor.now.scenario.rope machine.now step.now self.old kind self.old.notes;
        }) }
    {
        if !happens(named, processor, machine, &self.past, step, kind) {
            return Ok(());
        }
        self.add(Note {
            kind,
            place: spot_of(step),
        })
    }

    /// Adds a note, where it is not there yet.
    fn add(&mut self, note: Note) -> Result<(), AllocError>
        ensures { OnOk result (self.new ≡ record self.old { notes = with_note self.old.notes note }) }
    {
        if has_note(&self.notes, &note) {
            return Ok(());
        }
        self.notes.push(note)?;
        Ok(())
    }
}

/// Whether a note is among some.
pub fn has_note(notes: &[Note], note: &Note) -> bool
    ensures { result ≡ has_note notes.now note.now }
{
    notes.iter().any(|other| same_note(note, other))
}

/// Whether two notes are the same: of one kind, at one place.
fn same_note(one: &Note, other: &Note) -> bool
    ensures { result ≡ same_note one.now other.now }
{
    kind_number(one.kind) == kind_number(other.kind) && same_spot(one.place, other.place)
}

/// Whether two places are the same, or there is none.
fn same_spot(one: Option<Linear>, other: Option<Linear>) -> bool
    ensures { result ≡ same_spot one other }
{
    match (one, other) {
        (None, None) => true,
        (Some(_), None) | (None, Some(_)) => false,
        (Some(one), Some(other)) => one == other,
    }
}

/// The number of a kind.
fn kind_number(kind: Kind) -> u8
    ensures { result ≡ kind_number kind }
{
    match kind {
        Kind::Quotient => 0,
        Kind::Skip => 1,
        Kind::NoWord => 2,
        Kind::InErasable => 3,
        Kind::NoHandler => 4,
        Kind::OtherBank => 5,
        Kind::NotKept => 6,
        Kind::MinusZero => 7,
        Kind::Overwritten => 8,
        Kind::Shared => 9,
        Kind::FixedBank => 10,
    }
}

/// Where a step is noted: where Z leads, or where an interrupt is entered. An input is nowhere, and so is a word that
/// waited.
fn spot_of(step: &NextStep) -> Option<Linear>
    ensures { result ≡ spot_of step.now }
{
    match step {
        NextStep::Takes(_) => None,
        NextStep::Enters(interrupt) => Some(entry_place(*interrupt)),
        NextStep::Executes(fetched) => {
            if fetched.waited {
                None
            } else {
                Some(fetched.place)
            }
        }
    }
}
