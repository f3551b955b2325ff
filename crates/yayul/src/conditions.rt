//! The faults that a line may have, each where its condition holds.

ghost use Rattle.std.specs.Prelude.{◌≡◌, ◌<◌, ◌∷◌, [], ◌++◌, ◌&&◌, not, ℕ, is_some, IfOk};
ghost use Rattle.std.specs.Result.{result_err};
ghost use Rattle.agc_text.specs.Tables.{value_in};
ghost use Rattle.yayul.specs.Layout.{standing, label_faults, bare_faults, label_alone, refused, erase, equals, width};
ghost use Rattle.yayul.specs.Layout.{lacks_room, is_missing, is_twice, and_then, location_at, erasable_place};
ghost use Rattle.yayul.specs.Layout.{early_value, is_later};
ghost use Rattle.yayul.specs.Survey.{word_kinds, content_kinds, place_of_words};
ghost use Rattle.yayul.specs.Inside.Answers.{layout_of, tested_faults, held_faults};
ghost use Rattle.yayul.specs.Inside.Representation.{holds_word};
ghost use Rattle.yayul.specs.Inside.Sound.{IsLocation};

use crate::faults::FaultKind;
use crate::language::{Content, Label, Language, Location, Numeral, Operand, Operation, Term};
use crate::layout::{Layout, Placing};
use crate::values::{erasable_place, location_at, value_of};
use crate::word::{fault_in, words_at};
use space::Offset;
use symbols::{FixedBank, Name, Symbols, Value};

/// As many faults as the fields of a line may have.
pub(crate) type Conditions = [Option<FaultKind>; 5];

impl Layout {
    /// The layout faults of a line's fields.
    pub(crate) fn conditions(
        &self,
        placing: &Placing,
        label: &Label,
        operation: &Operation,
    ) -> Conditions
        ensures { (line : ℕ) → standing result ≡ held_faults line self.now placing.now label.now operation.now }
    {
        match operation {
            Operation::Nothing => self.alone_conditions(label),
            Operation::Unknown => self.refused_conditions(label, FaultKind::UnknownOperator),
            Operation::Setloc(operand) => bare_conditions(label, &self.target_of(operand)),
            Operation::Bank(range, number) => {
                bare_conditions(label, &placing.bank_target(*range, *number))
            }
            Operation::Erase(count) => self.erase_conditions(label, *count),
            Operation::Equals(operand) => self.equals_conditions(label, operand),
            Operation::Ebank(operand) => bare_conditions(label, &self.erasable_of(operand)),
            Operation::Gives(Some(content)) => self.give_conditions(placing, label, content),
            Operation::Gives(None) => self.refused_conditions(label, FaultKind::BadOperand),
        }
    }

    // The faults of a line that may have a label, and has these of its own.
    fn labelled(
        &self,
        label: &Label,
        first: Option<FaultKind>,
        second: Option<FaultKind>,
        third: Option<FaultKind>,
    ) -> Conditions
        ensures { standing result
            ≡ standing (label_faults (layout_of self.now) label.now ++ first ∷ second ∷ third ∷ []) }
    {
        [
            FaultKind::BadLabel.when(label.is_malformed()),
            FaultKind::TwiceDefined.when(self.is_twice(label)),
            first,
            second,
            third,
        ]
    }

    fn alone_conditions(&self, label: &Label) -> Conditions
        ensures { standing result ≡ (label_alone (layout_of self.now) label.now).faults }
    {
        let full = FaultKind::BankFull.when(self.lacks_place(label));
        self.labelled(label, full, None, None)
    }

    // The faults of a line that may have a label, and has a fault of its own.
    fn refused_conditions(&self, label: &Label, kind: FaultKind) -> Conditions
        ensures { standing result ≡ (refused (layout_of self.now) label.now kind).faults }
    {
        self.labelled(label, Some(kind), None, None)
    }

    fn erase_conditions(&self, label: &Label, count: Numeral) -> Conditions
        ensures { standing result ≡ (erase (layout_of self.now) label.now count).faults }
    {
        let full = FaultKind::BankFull.when(self.lacks_place(label));
        self.labelled(label, full, fault_of(&self.location.erased_to(count)), None)
    }

    fn equals_conditions(&self, label: &Label, operand: &Option<Operand>) -> Conditions
        ensures { (line : ℕ) → standing result ≡ (equals line (layout_of self.now) label.now operand.now).faults }
    {
        let fault = match operand {
            Some(operand) if self.is_later(operand) => None,
            _ => fault_of(&self.value_of(operand)),
        };
        let missing = FaultKind::BadLabel.when(label.is_missing());
        self.labelled(label, missing, fault, None)
    }

    // The faults of a line that gives these words.
    fn give_conditions(&self, placing: &Placing, label: &Label, content: &Content) -> Conditions
        ensures { standing result ≡ tested_faults (layout_of self.now) placing.now.rope label.now (width content.now) }
    {
        let width = content.width();
        self.labelled(
            label,
            FaultKind::BankFull.when(self.location.lacks_room(width)),
            FaultKind::PlaceTaken.when(self.is_taken(placing, width)),
            FaultKind::CodeInErasable.when(self.location.is_erasable()),
        )
    }

    // Whether a label stands on an earlier line.
    fn is_twice(&self, label: &Label) -> bool
        ensures { result ≡ is_twice (layout_of self.now) label.now }
    {
        match label {
            Label::Named(name) => self.symbols.named(name).is_some() || self.is_promised(name),
            Label::Missing => false,
            Label::Malformed => false,
        }
    }

    // Whether a name waits for a value.
    fn is_promised(&self, name: &Name) -> bool
        ensures { result ≡ is_some (value_in self.now.promised name.now) }
    {
        self.promised.len() > 0 && self.promised.named(name).is_some()
    }

    // Whether a label stands where no word may.
    fn lacks_place(&self, label: &Label) -> bool
        ensures { result ≡ (not (is_missing label.now) && lacks_room 1 self.now.location) }
    {
        !label.is_missing() && self.location.is_past_end()
    }

    // Whether a word stands already where the first of so many would, or the second where there are two.
    fn is_taken(&self, placing: &Placing, count: usize) -> bool
        ensures { result ≡ holds_word placing.now.rope self.now.location count }
    {
        placing.is_taken_at(self.location)
            || (count > 1 && placing.is_taken_at(self.location.after_word()))
    }

    // The location that an operand names.
    pub(crate) fn target_of(&self, operand: &Option<Operand>) -> Result<Location, FaultKind>
        ensures value { result ≡ and_then location_at (early_value (layout_of self.now) operand.now) }
        ensures located { IfOk result IsLocation }
    {
        location_at(self.value_of(operand)?)
    }

    // The value of an operand, its symbols those of earlier lines.
    pub(crate) fn value_of(&self, operand: &Option<Operand>) -> Result<Value, FaultKind>
        ensures { result ≡ early_value (layout_of self.now) operand.now }
    {
        match operand {
            Some(operand) => value_of(
                FaultKind::UsedTooEarly,
                &self.symbols,
                self.location,
                operand,
            ),
            None => Err(FaultKind::BadOperand),
        }
    }

    // The erasable place that an operand names.
    pub(crate) fn erasable_of(&self, operand: &Option<Operand>) -> Result<u16, FaultKind>
        ensures value { result ≡ and_then erasable_place (early_value (layout_of self.now) operand.now) }
        ensures range { IfOk result (λ place. place < 0o4000) }
    {
        erasable_place(self.value_of(operand)?)
    }

    /// Whether an operand is a symbol that a later line may define.
    pub(crate) fn is_later(&self, operand: &Operand) -> bool
        ensures { result ≡ is_later (layout_of self.now) operand.now }
    {
        match (self.language, &operand.term) {
            (Language::Flight, Term::Named(name)) => self.symbols.named(name).is_none(),
            _ => false,
        }
    }

    /// The word faults of a line's fields, by the symbols of the whole source; of words whose operand has no form those
    /// of extracode alone.
    pub(crate) fn word_conditions(
        &self,
        symbols: &Symbols,
        formless: bool,
        operation: &Operation,
    ) -> [Option<FaultKind>; 2]
        ensures { standing result ≡ word_kinds symbols.now (layout_of self.now) formless operation.now }
    {
        match operation {
            Operation::Gives(Some(content)) if formless => {
                [None, content.extracode().fault(self.extracode)]
            }
            Operation::Gives(Some(content)) => self.content_conditions(symbols, content),
            _ => [None, None],
        }
    }

    fn content_conditions(&self, symbols: &Symbols, content: &Content) -> [Option<FaultKind>; 2]
        ensures { standing result ≡ content_kinds symbols.now (layout_of self.now) content.now }
    {
        let words = words_at(
            symbols,
            self.place_of_words(),
            self.extracode,
            self.eb,
            content,
        );
        [fault_in(&words), content.extracode().fault(self.extracode)]
    }

    // Where words stand, else a place of no account.
    fn place_of_words(&self) -> (FixedBank, Offset)
        ensures { result ≡ place_of_words self.now.location }
    {
        match self.location.word_place() {
            Some(place) => place,
            None => (FixedBank::two(), Offset::of_low_bits(0)),
        }
    }
}

// The faults of a line that takes no label and comes to something.
fn bare_conditions<T>(label: &Label, outcome: &Result<T, FaultKind>) -> Conditions
    ensures { standing result ≡ standing (bare_faults label.now outcome.now) }
{
    [
        FaultKind::BadLabel.when(!label.is_missing()),
        fault_of(outcome),
        None,
        None,
        None,
    ]
}

fn fault_of<T>(outcome: &Result<T, FaultKind>) -> Option<FaultKind>
    ensures { result ≡ result_err outcome.now }
{
    match outcome {
        Ok(_) => None,
        Err(kind) => Some(*kind),
    }
}
