//! The laws of notation: what the program writes of numbers, places, registers, cells, symbols, inputs and
//! breakpoints is read as these. They are contracts of calls that do nothing.
#![tactic(auto)]

ghost use Rattle.std.specs.Prelude.{ℕ, List};
ghost use Rattle.feed.specs.Given.{CanBeGivenAt};
ghost use Rattle.feed.specs.declared.input.Input.{Input};
ghost use Rattle.space.specs.declared.place.Linear.{Linear};
ghost use Rattle.symbols.specs.Values.{SymbolTable};
ghost use Rattle.commands.specs.declared.command.Breakpoint.{Breakpoint};
ghost use Rattle.notation_laws.specs.ReadBack.{BreakpointReadsBack, CellReadsBack, HasOneText, InputReadsBack};
ghost use Rattle.notation_laws.specs.ReadBack.{IsPlace, NamesAgree, NearestReadsBack, NumbersReadBack};
ghost use Rattle.notation_laws.specs.ReadBack.{NamedPlaceReadsBack, PlaceReadsBack, StaysRead};
ghost use Rattle.notation_laws.specs.SymbolRows.{SymbolsReadBack};

/// A word, a channel, an erasable place, a number of steps and a cycle are read as they are written.
#[tactic(auto, using(crate::proofs::Digits::numbers_read_back))]
pub fn numbers_read_back()
    ensures { NumbersReadBack }
{}

/// A place as a listing has it is read as that place; and words of fixed memory have it in the same form.
#[tactic(auto, using(crate::proofs::Places::place_reads_back, crate::proofs::Places::has_one_text))]
pub fn places_read_back()
    ensures back { (place : Linear) → IsPlace place → PlaceReadsBack place }
    ensures text { (bank offset : ℕ) → HasOneText bank offset }
{}

/// What traces, sessions and feeds call registers and counters is in the one table by which sources are assembled.
#[tactic(auto, using(crate::proofs::Registers::names_agree))]
pub fn names_agree()
    ensures { NamesAgree }
{}

/// What is read as a place without symbols is read as it with those of a source, where these stand apart.
pub fn symbols_change_nothing()
    ensures { (symbols : SymbolTable) (text : List ℕ) (place : Linear) → StaysRead symbols text place }
{}

/// The nearest symbol before a place, with how far it is, is read as the place.
pub fn distances_read_back()
    ensures { (symbols : SymbolTable) (place : Linear) → NearestReadsBack symbols place }
{}

/// The name of a place is read as it: a register's, a symbol, the symbol before an operand with how far it is; and
/// where a place has none, what a listing has.
pub fn named_places_read_back()
    ensures { (symbols : SymbolTable) (place : Linear) → NamedPlaceReadsBack symbols place }
{}

/// A cell, an erasable place or a channel, is read as what it is.
pub fn cells_read_back()
    ensures { (symbols : SymbolTable) (c : ℕ) → CellReadsBack symbols c }
{}

/// An input after its cycle is a line of a feed, and what `add` takes.
#[tactic(auto, using(crate::proofs::Inputs::input_reads_back))]
pub fn inputs_read_back()
    ensures { (cycle : ℕ) (input : Input) → CanBeGivenAt cycle input → InputReadsBack cycle input }
{}

/// What `breaks` tells of a breakpoint that a line sets is, behind `break`, the line that sets it.
pub fn breakpoints_read_back()
    ensures { (symbols : SymbolTable) (breakpoint : Breakpoint) → BreakpointReadsBack symbols breakpoint }
{}

/// What a listing has of symbols is read as a table of these.
pub fn symbols_read_back()
    ensures { (symbols : SymbolTable) → SymbolsReadBack symbols }
{}
