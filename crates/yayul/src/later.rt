//! The values of names that wait for symbols of later lines.

ghost use Rattle.std.specs.Prelude.{◌≡◌, ℕ, List, map, OnOk};
ghost use Rattle.agc_text.specs.Tables.{value_in};
ghost use Rattle.yayul.specs.Later.{awaited, kept, round, four_rounds, settled, promise_kind, promise_fault};
ghost use Rattle.yayul.specs.Later.{first_fault, label_kind, waiting_kind};
ghost use Rattle.yayul.specs.Inside.Answers.{layout_of};
ghost use Rattle.yayul.specs.Inside.Representation.{promise_of};

use crate::faults::{Fault, FaultKind};
use crate::language::{Label, Location, Operand, Operation};
use crate::layout::Layout;
use crate::request::Promise;
use crate::values::value_of;
use std::alloc::AllocError;
use symbols::{FixedBank, Name, Symbols, Value};

/// Gives the names that wait their values, where these come to be known. An `Err` is that memory ran out.
pub(crate) fn settle(symbols: &mut Symbols, promises: &[Promise]) -> Result<(), AllocError>
    ensures { OnOk result (symbols.new ≡ settled (map promise_of promises.now) symbols.old) }
{
    four_rounds(symbols, promises)?;
    four_rounds(symbols, promises)
}

fn four_rounds(symbols: &mut Symbols, promises: &[Promise]) -> Result<(), AllocError>
    ensures { OnOk result (symbols.new ≡ four_rounds (map promise_of promises.now) symbols.old) }
{
    round(symbols, promises)?;
    round(symbols, promises)?;
    round(symbols, promises)?;
    round(symbols, promises)
}

// All names that wait, in the order of their lines.
fn round(symbols: &mut Symbols, promises: &[Promise]) -> Result<(), AllocError>
    ensures { OnOk result (symbols.new ≡ round (map promise_of promises.now) symbols.old) }
{
    for promise in promises {
        keep(symbols, promise)?;
    }
    Ok(())
}

// Gives a name its value, where its operand has one and it has none yet.
fn keep(symbols: &mut Symbols, promise: &Promise) -> Result<(), AllocError>
    ensures { OnOk result (symbols.new ≡ kept symbols.old (promise_of promise.now)) }
{
    let Some(name) = Name::try_new(promise.name.as_slice()) else {
        unreachable!()
    };
    match awaited(symbols, &promise.operand) {
        Ok(value) => {
            symbols.define(name, value)?;
            Ok(())
        }
        Err(_) => Ok(()),
    }
}

// The value of an operand that is a symbol, wherever its line stands.
fn awaited(symbols: &Symbols, operand: &Operand) -> Result<Value, FaultKind>
    ensures { result ≡ awaited symbols.now operand.now }
{
    let here = Location::Fixed(FixedBank::two(), 0);
    value_of(FaultKind::UsedTooEarly, symbols, here, operand)
}

// What is wrong with a name that waits, which has this value or none, by the symbols of the whole source.
fn promise_kind(symbols: &Symbols, value: Option<Value>, operand: &Operand) -> Option<FaultKind>
    ensures { (name : List ℕ) → value ≡ value_in symbols.now name → result ≡ promise_kind symbols.now name operand.now }
{
    match (awaited(symbols, operand), value) {
        (Err(kind), _) => Some(kind),
        (Ok(_), None) => Some(FaultKind::UsedTooEarly),
        (Ok(_), Some(_)) => None,
    }
}

// The fault of a name that waits.
fn promise_fault(symbols: &Symbols, promise: &Promise) -> Option<Fault>
    ensures { result ≡ promise_fault symbols.now (promise_of promise.now) }
{
    let value = symbols.symbol(promise.name.as_slice());
    match promise_kind(symbols, value, &promise.operand) {
        Some(kind) => Some(Fault {
            line: promise.line,
            number: kind.number(),
        }),
        None => None,
    }
}

/// The first fault of names that wait.
pub(crate) fn first_fault(symbols: &Symbols, promises: &[Promise]) -> Option<Fault>
    ensures { result ≡ first_fault symbols.now (map promise_of promises.now) }
{
    let mut found = None;
    for promise in promises {
        found = found.or(promise_fault(symbols, promise));
    }
    found
}

impl Layout {
    /// What is wrong with a name that a line lets wait, by the symbols of the whole source.
    pub(crate) fn waiting_condition(
        &self,
        symbols: &Symbols,
        label: &Label,
        operation: &Operation,
    ) -> Option<FaultKind>
        ensures { result ≡ waiting_kind symbols.now (layout_of self.now) label.now operation.now }
    {
        match operation {
            Operation::Equals(Some(operand)) => self.label_condition(symbols, label, operand),
            _ => None,
        }
    }

    fn label_condition(
        &self,
        symbols: &Symbols,
        label: &Label,
        operand: &Operand,
    ) -> Option<FaultKind>
        ensures { result ≡ label_kind symbols.now (layout_of self.now) label.now operand.now }
    {
        match label {
            Label::Named(name) if self.is_later(operand) => {
                promise_kind(symbols, symbols.named(name), operand)
            }
            _ => None,
        }
    }
}
