//! The lines that give names their values.

ghost use Rattle.std.specs.Prelude.{◌≡◌, ◌++◌, ◌≤◌, IfOk, length};
ghost use Rattle.named_source.specs.NamedSources.{all_names, erasable_lines, fixed_lines, is_first, label_lines};
ghost use Rattle.named_source.specs.NamedSources.{labels_of, name_lines, no_label_line, number_line, with_label};
ghost use Rattle.named_source.specs.GivenBack.{is_written};

use crate::label::is_label;
use crate::lines::{Appended, Line};
use arrayvec::ArrayVec;
use space::{Bank, Eras, Linear, Offset};
use std::alloc::{AllocError, Global};
use symbols::{FixedBank, Name, Symbols, Value, value_text};
use trace::{Names, PlaceNames};
use words::{Word, push_all, push_octal};
use yayul::push_blanks;

/// The names that may be labels.
pub(crate) fn labels_of(alloc: Global, names: &Symbols) -> Result<Symbols, AllocError>
    ensures { IfOk result (λ labels. labels ≡ labels_of names.now) }
{
    let mut labels = Symbols::new(alloc);
    for index in 0..names.len() {
        let Some(entry) = names.entry(index) else {
            unreachable!()
        };
        add_label(&mut labels, entry.0, entry.1)?;
    }
    Ok(labels)
}

/// Adds a name, where it may be a label.
fn add_label(labels: &mut Symbols, name: &[u8], value: Value) -> Appended
    requires { length name.now ≤ 8 }
    ensures { IfOk result (λ _. labels.new ≡ with_label labels.old (name.now, value)) }
{
    if is_label(name) {
        labels.define(Name::try_new(name).unwrap(), value)?;
    }
    Ok(())
}

/// Appends the lines of all names.
pub(crate) fn push_names(
    out: &mut Vec<u8>,
    labels: &PlaceNames,
    names: &Symbols,
    asked: &Option<Bank>,
) -> Appended
    ensures { IfOk result (λ _. out.new.items ≡ out.old.items ++ all_names labels.now asked.now names.now) }
{
    for index in 0..names.len() {
        let Some(entry) = names.entry(index) else {
            unreachable!()
        };
        let lines = name_lines(labels, asked, entry.0, entry.1);
        out.extend_from_slice(lines.as_slice())?;
    }
    Ok(())
}

/// The lines of a name.
fn name_lines(labels: &PlaceNames, asked: &Option<Bank>, name: &[u8], value: Value) -> Line
    requires { length name.now ≤ 8 }
    ensures { result.items ≡ name_lines labels.now asked.now (name.now, value) }
{
    if is_label(name) {
        label_lines(labels, asked, name, value)
    } else {
        no_label_line(name, value)
    }
}

/// The line of a name that may be no label.
fn no_label_line(name: &[u8], value: Value) -> Line
    requires { length name.now ≤ 8 }
    ensures { result.items ≡ no_label_line name.now value }
{
    let mut line = ArrayVec::new();
    push_all(&mut line, b"# ");
    push_all(&mut line, name);
    push_all(&mut line, b" ");
    push_all(&mut line, value_text(value).as_slice());
    push_all(&mut line, b"\n");
    line
}

/// The lines that give a label its value.
fn label_lines(labels: &PlaceNames, asked: &Option<Bank>, name: &[u8], value: Value) -> Line
    requires { length name.now ≤ 8 }
    ensures { result.items ≡ label_lines labels.now asked.now name.now value }
{
    match value {
        Value::Num(number) => number_line(name, number),
        Value::Erasable(place) => erasable_lines(name, place),
        Value::Fixed(bank, offset) => {
            if is_written(asked, bank) && is_first(labels, name, bank, offset) {
                ArrayVec::new()
            } else {
                fixed_lines(name, bank, offset)
            }
        }
    }
}

/// The line that gives a label a number.
fn number_line(name: &[u8], number: Word) -> Line
    requires { length name.now ≤ 8 }
    ensures { result.items ≡ number_line name.now number }
{
    let mut line = ArrayVec::new();
    push_all(&mut line, name);
    push_blanks(&mut line, 9 - name.len());
    push_all(&mut line, b"EQUALS  ");
    push_octal(&mut line, 5, number.to_u16());
    push_all(&mut line, b"\n");
    line
}

/// The lines that give a label an erasable place.
fn erasable_lines(name: &[u8], place: Eras) -> Line
    requires { length name.now ≤ 8 }
    ensures { result.items ≡ erasable_lines name.now place }
{
    let mut line = ArrayVec::new();
    push_all(&mut line, b"         SETLOC  ");
    push_octal(&mut line, 4, place.number());
    push_all(&mut line, b"\n");
    push_all(&mut line, name);
    push_blanks(&mut line, 9 - name.len());
    push_all(&mut line, b"ERASE\n");
    line
}

/// The lines that give a label a place of fixed memory.
fn fixed_lines(name: &[u8], bank: FixedBank, offset: Offset) -> Line
    requires { length name.now ≤ 8 }
    ensures { result.items ≡ fixed_lines name.now bank offset }
{
    let mut line = ArrayVec::new();
    push_all(&mut line, b"         BANK    ");
    push_octal(&mut line, 2, bank.bank().number());
    push_all(&mut line, b"\n         SETLOC  +");
    push_octal(&mut line, 4, offset.number());
    push_all(&mut line, b"\n");
    push_all(&mut line, name);
    push_all(&mut line, b"\n");
    line
}

/// Whether the words of a bank are written, where one is asked for or all are.
fn is_written(asked: &Option<Bank>, bank: FixedBank) -> bool
    ensures { result ≡ is_written asked.now bank }
{
    match asked {
        Some(one) => bank.bank() == *one,
        None => true,
    }
}

/// Whether a name stands as the label of a word's line.
fn is_first(labels: &PlaceNames, name: &[u8], bank: FixedBank, offset: Offset) -> bool
    ensures { result ≡ is_first labels.now name.now bank offset }
{
    match labels.symbol_at(&Linear::Fixed(bank.bank(), offset)) {
        Some(first) => name == first,
        None => false,
    }
}
