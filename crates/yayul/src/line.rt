//! What each line does to the layout: the symbols of a source, and the words that its lines ask for.

ghost use Rattle.std.specs.Prelude.{◌≡◌, ◌≤◌, ◌<◌, ◌+◌, ◌/◌, length, ◌∷◌, [], ◌++◌, ℕ, List, false, IfOk, OnOk, Ok};
ghost use Rattle.std.specs.Prelude.{Some};
ghost use Rattle.std.specs.List.{list_all};
ghost use Rattle.std.specs.Result.{result_unwrap_or};
ghost use Rattle.agc_text.specs.Bytes.{is_text_byte};
ghost use Rattle.symbols.specs.declared.values.Value.{Value as Symbol};
ghost use Rattle.yayul.specs.Layout.{Layout as LaidOut, standing, start, word_place, width, lacks_room, is_twice};
ghost use Rattle.yayul.specs.Layout.{label_alone, and_then, promised, with_promise, equals, erase, gives, defined};
ghost use Rattle.yayul.specs.Layout.{statement_effect, statement_on, text_faults};
ghost use Rattle.yayul.specs.Inside.Answers.{layout_of, least_kind, held_faults, tested_faults, Agrees, LeadsOn};
ghost use Rattle.yayul.specs.Inside.Answers.{LineLeadsOn, TakesWords, passed};
ghost use Rattle.yayul.specs.Inside.Representation.{request_of, holds_word};
ghost use Rattle.yayul.specs.Inside.Sound.{IsLocation};

use crate::bank::ErasableBank;
use crate::faults::{FaultKind, least_fault};
use crate::flight::{flight_statement, measured, most_lines};
use crate::language::{Content, Label, Language, Location, Numeral, Operand, Operation, Statement};
use crate::layout::{Layout, Placing};
use crate::mark::Mark;
use crate::request::{Promise, WordRequest};
use crate::statement::statement_of;
use agc_text::{LINE_LENGTH, is_text};
use arrayvec::ArrayVec;
use std::alloc::{AllocError, Global};
use symbols::{FixedBank, NAME_LENGTH, Symbols, Value};
use words::Word;

impl Layout {
    /// What stands before the first line. Nothing is allocated.
    pub(crate) fn start(alloc: Global, language: Language) -> Layout
        ensures { layout_of result ≡ start language }
    {
        Layout {
            language,
            location: Location::Fixed(FixedBank::two(), 0),
            symbols: Symbols::new(alloc),
            promised: Symbols::new(alloc),
            promises: Vec::new(alloc),
            extracode: false,
            eb: ErasableBank::of_place(0),
        }
    }

    /// Lays out a line, which has this number, and answers what it shows in the listing.
    pub(crate) fn line(
        &mut self,
        placing: &mut Placing,
        line: u32,
        text: &[u8],
    ) -> Result<Mark, FaultKind>
        ensures { (s : LaidOut) → Agrees line s self.old placing.old
            → LineLeadsOn line s text.now self.new placing.new result }
    {
        if let Some(kind) = text_fault(self.language, line, text) {
            return Err(kind);
        }
        let statement = self.statement_on(text);
        let mark = Mark::of(self.location, &statement);
        let Statement { label, operation } = statement;
        self.operation(placing, line, label, operation)?;
        Ok(mark)
    }

    /// What a line says where it stands.
    pub(crate) fn statement_on(&self, text: &[u8]) -> Statement
        ensures { result ≡ statement_on (layout_of self.now) text.now }
    {
        match self.language {
            Language::Standard => statement_of(text),
            Language::Flight => flight_statement(self.location, text),
        }
    }

    // Does what a line's fields say, or tells the least of their faults.
    #[inline(always)]
    pub(crate) fn operation(
        &mut self,
        placing: &mut Placing,
        line: u32,
        label: Label,
        operation: Operation,
    ) -> Result<(), FaultKind>
        ensures { (s : LaidOut) → Agrees line s self.old placing.old
            → LeadsOn line (statement_effect line s label operation) self.new placing.new result }
    {
        if let Some(kind) = least_fault(&self.conditions(placing, &label, &operation)) {
            return Err(kind);
        }
        match self.perform(placing, line, label, operation) {
            Ok(()) => Ok(()),
            Err(_) => Err(FaultKind::NoMemory),
        }
    }

    // Does what a line says on which no fault stands.
    fn perform(
        &mut self,
        placing: &mut Placing,
        line: u32,
        label: Label,
        operation: Operation,
    ) -> Result<(), AllocError>
        requires { held_faults line self.old placing.old label operation ≡ [] }
        ensures { (s : LaidOut) → Agrees line s self.old placing.old
            → OnOk result (Agrees (line + 1) (statement_effect line s label operation).after self.new placing.new) }
    {
        match operation {
            Operation::Nothing => self.label_alone(label),
            Operation::Setloc(operand) => {
                let target = self.target_of(&operand);
                self.relocate(target);
                Ok(())
            }
            Operation::Bank(range, number) => {
                self.relocate(placing.bank_target(range, number));
                Ok(())
            }
            Operation::Erase(count) => self.erase(label, count),
            Operation::Equals(operand) => self.equals(line, label, operand),
            Operation::Ebank(operand) => {
                let place = self.erasable_of(&operand);
                self.switch(place);
                Ok(())
            }
            Operation::Gives(Some(content)) => self.give(placing, line, label, content),
            Operation::Unknown | Operation::Gives(None) => Ok(()),
        }
    }

    // A line with a label alone, or without a field.
    fn label_alone(&mut self, label: Label) -> Result<(), AllocError>
        requires { (label_alone (layout_of self.old) label).faults ≡ [] }
        ensures { OnOk result (layout_of self.new ≡ (label_alone (layout_of self.old) label).after) }
    {
        match self.location.value() {
            Some(value) => self.define(label, value),
            None => Ok(()),
        }
    }

    // Moves the location to a target, where there is one.
    fn relocate(&mut self, target: Result<Location, FaultKind>)
        requires { IfOk target IsLocation }
        ensures { layout_of self.new
            ≡ (record (layout_of self.old) { location = result_unwrap_or target self.old.location }) }
    {
        if let Ok(location) = target {
            self.location = location;
        }
    }

    // EQUALS and =: the label has the value of the operand, or waits for it.
    fn equals(
        &mut self,
        line: u32,
        label: Label,
        operand: Option<Operand>,
    ) -> Result<(), AllocError>
        requires { (equals line (layout_of self.old) label operand).faults ≡ [] }
        ensures { OnOk result (layout_of self.new ≡ (equals line (layout_of self.old) label operand).after) }
    {
        match operand {
            Some(operand) if self.is_later(&operand) => self.promise(line, label, operand),
            operand => match self.value_of(&operand) {
                Ok(value) => self.define(label, value),
                Err(_) => Ok(()),
            },
        }
    }

    // The label waits for the value of an operand.
    fn promise(&mut self, line: u32, label: Label, operand: Operand) -> Result<(), AllocError>
        requires { (promised line (layout_of self.old) label operand).faults ≡ [] }
        ensures { OnOk result (layout_of self.new ≡ with_promise line (layout_of self.old) label operand) }
    {
        match label {
            Label::Named(name) => {
                self.promised.define(name, Value::Num(Word::ZERO))?;
                self.hold(line, operand)
            }
            Label::Missing | Label::Malformed => Ok(()),
        }
    }

    // Holds the promise of the name that was promised last.
    fn hold(&mut self, line: u32, operand: Operand) -> Result<(), AllocError>
        ensures { OnOk result ((before : List (List ℕ × Symbol)) (name : List ℕ) (value : Symbol)
            → self.old.promised ≡ before ++ (name, value) ∷ []
            → layout_of self.new ≡ (record (layout_of self.old) {
              promises = (layout_of self.old).promises ++ record { line = line; name = name; operand = operand }
                  ∷ [];
            })) }
    {
        let name = self.last_promised();
        self.promises.push(Promise {
            line,
            name,
            operand,
        })?;
        Ok(())
    }

    // The name that was promised last.
    fn last_promised(&self) -> ArrayVec<u8, NAME_LENGTH>
        ensures { (before : List (List ℕ × Symbol)) (name : List ℕ) (value : Symbol)
            → self.now.promised ≡ before ++ (name, value) ∷ [] → result.items ≡ name }
    {
        let last = self.promised.len().saturating_sub(1);
        match self.promised.entry(last) {
            Some(entry) => copy_of(entry.0),
            None => ArrayVec::new(),
        }
    }

    // The erasable bank of 2CADR becomes that of a place, where there is one.
    fn switch(&mut self, place: Result<u16, FaultKind>)
        requires { IfOk place (λ place. place < 0o4000) }
        ensures { layout_of self.new ≡ (record (layout_of self.old) {
          eb = result_unwrap_or (and_then (λ n. Ok (n / 0o400)) place) self.old.eb;
        }) }
    {
        if let Ok(place) = place {
            self.eb = ErasableBank::of_place(place);
        }
    }

    // ERASE: passes erasable words.
    fn erase(&mut self, label: Label, count: Numeral) -> Result<(), AllocError>
        requires { (erase (layout_of self.old) label count).faults ≡ [] }
        ensures { OnOk result (layout_of self.new ≡ (erase (layout_of self.old) label count).after) }
    {
        let Some(value) = self.location.value() else {
            unreachable!()
        };
        let Ok(end) = self.location.erased_to(count) else {
            unreachable!()
        };
        self.define(label, value)?;
        self.location = end;
        Ok(())
    }

    // A line that gives words.
    fn give(
        &mut self,
        placing: &mut Placing,
        line: u32,
        label: Label,
        content: Content,
    ) -> Result<(), AllocError>
        requires { tested_faults (layout_of self.old) placing.old.rope label (width content) ≡ [] }
        ensures { (s : LaidOut) → Agrees line s self.old placing.old
            → OnOk result (Agrees (line + 1) (gives line s label content).after self.new placing.new) }
    {
        let Some(place) = self.location.word_place() else {
            unreachable!()
        };
        self.define(label, Value::Fixed(place.0, place.1))?;
        let request = WordRequest {
            line,
            bank: place.0,
            offset: place.1,
            content,
            extracode: self.extracode,
            eb: self.eb,
        };
        self.ask(placing, request)
    }

    // Asks for words from the location on, and moves past them.
    fn ask(&mut self, placing: &mut Placing, request: WordRequest) -> Result<(), AllocError>
        requires here { word_place self.old.location ≡ Some (request.bank, request.offset) }
        requires room { lacks_room (width request.content) self.old.location ≡ false }
        requires free { holds_word placing.old.rope self.old.location (width request.content) ≡ false }
        ensures layout { OnOk result (layout_of self.new ≡ passed (layout_of self.old) request.content) }
        ensures words { OnOk result (TakesWords self.old.symbols (request_of request) placing.old placing.new) }
    {
        let bank = request.bank;
        let end = request.offset.number() + request.content.width() as u16;
        let extracode = request.content.extends(self.extracode);
        placing.take(&self.symbols, request)?;
        self.location = Location::Fixed(bank, end);
        self.extracode = extracode;
        Ok(())
    }

    // Gives the name of a label its value.
    fn define(&mut self, label: Label, value: Value) -> Result<(), AllocError>
        requires { is_twice (layout_of self.old) label ≡ false }
        ensures { OnOk result (layout_of self.new ≡ defined (layout_of self.old) label value) }
    {
        if let Label::Named(name) = label {
            self.symbols.define(name, value)?;
        }
        Ok(())
    }
}

// A copy of a name.
fn copy_of(name: &[u8]) -> ArrayVec<u8, NAME_LENGTH>
    requires { length name.now ≤ NAME_LENGTH }
    ensures { result.items ≡ name.now }
{
    let mut copy = ArrayVec::new();
    match copy.try_extend_from_slice(name) {
        Ok(()) => copy,
        Err(_) => unreachable!(),
    }
}

// The least fault of a line's bytes, its length and its number.
fn text_fault(language: Language, line: u32, text: &[u8]) -> Option<FaultKind>
    ensures { result ≡ least_kind (text_faults language line text.now) }
{
    least_fault(&conditions_of_text(language, line, text, is_text(text)))
}

/// The faults of a line's bytes, its length and its number, each where its condition holds; the line holds text alone,
/// or does not.
pub(crate) fn conditions_of_text(
    language: Language,
    line: u32,
    text: &[u8],
    is_text: bool,
) -> [Option<FaultKind>; 3]
    requires { is_text ≡ list_all is_text_byte text.now }
    ensures { standing result ≡ text_faults language line text.now }
{
    [
        FaultKind::NotAscii.when(!is_text),
        FaultKind::LongLine.when(measured(language, text).len() > LINE_LENGTH),
        FaultKind::TooManyLines.when(line == most_lines(language) + 1),
    ]
}
