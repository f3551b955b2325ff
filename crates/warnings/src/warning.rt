//! What in a source is likely a mistake, though it is no fault.

ghost use Rattle.std.specs.Prelude.{◌≡◌, ◌+◌, ◌<◌, ◌≤◌, ◌++◌, map, length, drop, IfOk, OnOk};
ghost use Rattle.std.specs.Option.{option_map};
ghost use Rattle.agc_text.specs.Views.{piece};
ghost use Rattle.yayul.specs.ReadLines.{parts_on};
ghost use Rattle.yayul.specs.Readings.{parts_in};
ghost use Rattle.warnings.specs.Warnings.{has_alone, warned_if, is_standard, is_unused};
ghost use Rattle.warnings.specs.Warnings.{is_register_number, indexed_after, reads_number, reserves_one};
ghost use Rattle.near_names.specs.Names.{with_field};
ghost use Rattle.warnings.specs.Warnings.{with_single, lacks_word, name_warnings, flow_warnings};
ghost use Rattle.warnings.specs.Warnings.{operand_warnings, place_warnings, with_read, banks_after};
ghost use Rattle.warnings.specs.Warnings.{names_of, at_start, line_warnings, warned_lines, warnings};
ghost use Rattle.warnings.specs.Warnings.{handlers_after, reserved_after, leads_after, way_warnings};

use crate::fields::text_of;
use crate::flow::{Before, overruns, runs_out, starts_with_constant};
use crate::handlers::Handlers;
use crate::outputs::stays_inside;
use crate::registers::takes_register;
use crate::reserved::Reserved;
use crate::roles::Class;
use crate::switched::{Banks, Target, target_in, written_target};
use crate::told::Warning;
use crate::unreached::{Leads, is_unreached};
use agc_text::{Field, Number, octal_value};
use near_names::{NameSet, add_field, is_short};
use std::alloc::{AllocError, Global};
use yayul::{Language, ReadLine, Reading, SourceLines, Span, Symbols, is_operator};

/// How many lines are looked at, at most.
const LINES: usize = 262_145;

/// The warnings of a source of a language, in the order of lines, by the values of its symbols; those of labels that
/// no operand names where they are asked for.
#[tactic(auto, unfolding(crate::specs::Warnings::warnings))]
pub fn warnings(
    alloc: Global,
    source: &SourceLines<'_>,
    symbols: &Symbols,
    unused: bool,
) -> Result<Vec<Warning>, AllocError>
    ensures { IfOk result (λ found. found.items
        ≡ warnings source.now.language unused symbols.now source.now.text) }
{
    let language = source.language();
    let lines = source.lines();
    let names = Names::of(alloc, language, symbols, lines)?;
    let mut found = Vec::new(alloc);
    names.warn(language, unused, symbols, lines, &mut found)?;
    Ok(found)
}

// The names of a source.
struct Names {
    /// Those for which one word is reserved.
    singles: NameSet,
    /// Those that an operand is.
    operands: NameSet,
    /// Those that are read.
    read: NameSet,
    /// What is known of banks.
    banks: Banks,
    /// What is known of routines of interrupts.
    handlers: Handlers,
    /// What is known of words that are reserved.
    reserved: Reserved,
    /// What is known of where jumps lead.
    leads: Leads,
}

// One function, and not its parts at each place where names are let go.
impl Drop for Names {
    fn drop(self) {
        let Names {
            singles: _,
            operands: _,
            read: _,
            banks: _,
            handlers: _,
            reserved: _,
            leads: _,
        } = self;
    }
}

impl Names {
    // The names of some lines.
    fn of(
        alloc: Global,
        language: Language,
        symbols: &Symbols,
        lines: &[ReadLine<'_>],
    ) -> Result<Names, AllocError>
        ensures { IfOk result (λ names. names ≡ names_of language symbols.now (map parts_on lines.now)) }
    {
        let mut names = Names {
            singles: NameSet::new(alloc),
            operands: NameSet::new(alloc),
            read: NameSet::new(alloc),
            banks: Banks::none(),
            handlers: Handlers::new(alloc),
            reserved: Reserved::new(alloc),
            leads: Leads::none(),
        };
        for line in lines {
            let parts = line.reading();
            names.note(written_target(language, symbols, &parts), &parts)?;
        }
        Ok(names)
    }

    // Adds the names of a line whose operand has a target.
    fn note(&mut self, target: Target, parts: &Reading<'_>) -> Result<(), AllocError>
        ensures singles { OnOk result (self.new.singles ≡ with_single self.old.singles (parts_in parts.now)) }
        ensures operands { OnOk result (self.new.operands
            ≡ with_field self.old.operands (option_map piece parts.now.operand)) }
        ensures read { OnOk result (self.new.read ≡ with_read self.old.read (parts_in parts.now)) }
        ensures banks { OnOk result (self.new.banks ≡ banks_after self.old.banks target (parts_in parts.now)) }
        ensures handlers { OnOk result (self.new.handlers ≡ handlers_after self.old.handlers (parts_in parts.now)) }
        ensures reserved { OnOk result (self.new.reserved ≡ reserved_after self.old.reserved (parts_in parts.now)) }
        ensures leads { OnOk result (self.new.leads ≡ leads_after self.old.leads (parts_in parts.now)) }
    {
        if reserves_one(parts) {
            add_field(&mut self.singles, parts.label)?;
        }
        if Class::ReadsWord.has(parts.role) {
            add_field(&mut self.read, parts.operand)?;
        }
        add_field(&mut self.operands, parts.operand)?;
        self.banks = self.banks.next(target, parts);
        self.handlers.note(parts)?;
        self.reserved.note(parts)?;
        self.leads = self.leads.next(parts);
        Ok(())
    }

    // Appends the warnings of the lines.
    fn warn(
        &self,
        language: Language,
        unused: bool,
        symbols: &Symbols,
        lines: &[ReadLine<'_>],
        found: &mut Vec<Warning>,
    ) -> Result<(), AllocError>
        requires { length lines.now ≤ LINES }
        ensures { OnOk result (found.new.items
            ≡ found.old.items ++ warned_lines language unused symbols.now self.now at_start 1
            (map parts_on lines.now)) }
    {
        let mut before = Before::at_start();
        for (index, line) in lines.iter().enumerate() {
            let after = lines_after(lines, index);
            let parts = line.reading();
            let line = index as u32 + 1;
            let target = target_in(language, symbols, &parts);
            self.warn_of(language, unused, before, target, after, line, &parts, found)?;
            before = before.next(&self.handlers, target, &parts);
        }
        Ok(())
    }

    // Appends the warnings of a line whose operand has a target.
    fn warn_of(
        &self,
        language: Language,
        unused: bool,
        before: Before,
        target: Target,
        after: &[ReadLine<'_>],
        line: u32,
        parts: &Reading<'_>,
        found: &mut Vec<Warning>,
    ) -> Result<(), AllocError>
        ensures { OnOk result (found.new.items
            ≡ found.old.items ++ line_warnings language unused self.now before target (map parts_on after.now) line
            (parts_in parts.now)) }
    {
        self.warn_of_label(language, unused, before, line, parts, found)?;
        self.warn_of_flow(language, before, after, line, parts, found)?;
        self.warn_of_operand(before, target, line, parts, found)
    }

    // Appends those of its label.
    fn warn_of_label(
        &self,
        language: Language,
        unused: bool,
        before: Before,
        line: u32,
        parts: &Reading<'_>,
        found: &mut Vec<Warning>,
    ) -> Result<(), AllocError>
        ensures { OnOk result (found.new.items
            ≡ found.old.items ++ name_warnings language unused self.now before line (parts_in parts.now)) }
    {
        let label = parts.label;
        let again = is_standard(language) && self.reserved.has_again(parts);
        let unnamed = unused && is_unused(&self.operands, parts);
        warn_if(is_operator(language, text_of(label)), line, 1, label, found)?;
        warn_if(takes_register(before.place, parts), line, 7, label, found)?;
        warn_if(again, line, 15, label, found)?;
        warn_if(unnamed, line, 8, label, found)
    }

    // Appends those of its operator.
    fn warn_of_flow(
        &self,
        language: Language,
        before: Before,
        after: &[ReadLine<'_>],
        line: u32,
        parts: &Reading<'_>,
        found: &mut Vec<Warning>,
    ) -> Result<(), AllocError>
        ensures { OnOk result (found.new.items
            ≡ found.old.items ++ flow_warnings language self.now before (map parts_on after.now) line
            (parts_in parts.now)) }
    {
        if is_standard(language) {
            let instructs = self.banks.instructs;
            let starts = starts_with_constant(instructs, before.place, parts);
            let ends = runs_out(&self.read, before, after, parts);
            warn_if(ends, line, 4, parts.operator, found)?;
            warn_if(starts, line, 11, parts.operator, found)?;
            self.warn_of_ways(before, line, parts, found)?;
        }
        warn_if(overruns(before, parts), line, 5, parts.operator, found)
    }

    // Appends those of routines of interrupts, of their vectors, and of what is never reached.
    fn warn_of_ways(
        &self,
        before: Before,
        line: u32,
        parts: &Reading<'_>,
        found: &mut Vec<Warning>,
    ) -> Result<(), AllocError>
        ensures { OnOk result (found.new.items
            ≡ found.old.items ++ way_warnings self.now before line (parts_in parts.now)) }
    {
        let operator = parts.operator;
        let lost = self.handlers.loses_unkept(before.unkept, parts);
        let endless = self.handlers.is_endless(before.filled, parts);
        let crosses = self.handlers.crosses(before.place, before.left, parts);
        let unreached = is_unreached(self.leads.unnamed, before, parts);
        warn_if(lost, line, 12, operator, found)?;
        warn_if(endless, line, 13, operator, found)?;
        warn_if(crosses, line, 14, operator, found)?;
        warn_if(unreached, line, 16, operator, found)
    }

    // Appends those of its operand, which has a target.
    fn warn_of_operand(
        &self,
        before: Before,
        target: Target,
        line: u32,
        parts: &Reading<'_>,
        found: &mut Vec<Warning>,
    ) -> Result<(), AllocError>
        ensures { OnOk result (found.new.items
            ≡ found.old.items ++ operand_warnings self.now before target line (parts_in parts.now)) }
    {
        let is_read = reads_number(before.indexed, parts);
        let lacks = lacks_word(&self.singles, parts);
        warn_if(is_read, line, 2, parts.operand, found)?;
        warn_if(lacks, line, 3, parts.operand, found)?;
        self.warn_of_place(before, target, line, parts, found)
    }

    // Appends those of a bank that is not set, and of a channel that is a register.
    fn warn_of_place(
        &self,
        before: Before,
        target: Target,
        line: u32,
        parts: &Reading<'_>,
        found: &mut Vec<Warning>,
    ) -> Result<(), AllocError>
        ensures { OnOk result (found.new.items
            ≡ found.old.items ++ place_warnings self.now before target line (parts_in parts.now)) }
    {
        let erasable = self.banks.needs_erasable_bank(target, parts);
        let fixed = self.banks.needs_fixed_bank(before.common, target, parts);
        let stays = stays_inside(parts);
        warn_if(erasable, line, 6, parts.operand, found)?;
        warn_if(fixed, line, 9, parts.operand, found)?;
        warn_if(stays, line, 10, parts.operand, found)
    }
}

// The lines after the one at an index.
fn lines_after<'a, 'b>(lines: &'a [ReadLine<'b>], index: usize) -> &'a [ReadLine<'b>]
    requires { index < length lines.now }
    ensures { result.now ≡ drop (index + 1) lines.now }
{
    &lines[index + 1..]
}

// Appends a warning of a number at a field of a line, where it stands and a condition holds.
fn warn_if(
    condition: bool,
    line: u32,
    number: u8,
    field: Option<Field<'_>>,
    found: &mut Vec<Warning>,
) -> Result<(), AllocError>
    ensures { OnOk result (found.new.items
        ≡ found.old.items ++ warned_if condition line number (option_map piece field.entry)) }
{
    match field {
        Some(field) if condition => {
            let span = Span {
                start: field.start,
                width: field.text.len(),
            };
            found.push(Warning {
                line,
                number,
                span,
                doubt: None,
            })?;
            Ok(())
        }
        _ => Ok(()),
    }
}

// Whether a source has no forms of flight programs.
fn is_standard(language: Language) -> bool
    ensures { result ≡ is_standard language }
{
    matches!(language, Language::Standard)
}

/// Whether this is so of the operator, and no offset stands.
pub(crate) fn has_alone(condition: bool, parts: &Reading<'_>) -> bool
    ensures { result ≡ has_alone condition (parts_in parts.now) }
{
    condition && parts.offset.is_none()
}

// Whether no operand names the label of a line.
fn is_unused(operands: &NameSet, parts: &Reading<'_>) -> bool
    ensures { result ≡ is_unused operands.now (parts_in parts.now) }
{
    is_short(text_of(parts.label)) && !operands.has(text_of(parts.label))
}

/// Whether a word that adds to the next address stands last before the word that follows a line.
pub(crate) fn indexed_after(indexed: bool, parts: &Reading<'_>) -> bool
    ensures { result ≡ indexed_after indexed (parts_in parts.now) }
{
    if parts.operator.is_some() && !Class::KeepsLocation.has(parts.role) {
        Class::Index.has(parts.role)
    } else {
        indexed
    }
}

// Whether a line reads a word by the number of a register or a counter, and nothing is added to its address.
fn reads_number(indexed: bool, parts: &Reading<'_>) -> bool
    ensures { result ≡ reads_number indexed (parts_in parts.now) }
{
    !indexed
        && has_alone(Class::Reads.has(parts.role), parts)
        && is_register_number(text_of(parts.operand))
}

// Whether a line takes two words of a name for which one is reserved.
fn lacks_word(singles: &NameSet, parts: &Reading<'_>) -> bool
    ensures { result ≡ lacks_word singles.now (parts_in parts.now) }
{
    has_alone(Class::TakesPair.has(parts.role), parts) && singles.has(text_of(parts.operand))
}

/// ERASE without an operand.
pub(crate) fn reserves_one(parts: &Reading<'_>) -> bool
    ensures { result ≡ reserves_one (parts_in parts.now) }
{
    Class::Erase.has(parts.role) && parts.operand.is_none()
}

/// Octal digits of a place that a register or a counter has.
pub(crate) fn is_register_number(text: &[u8]) -> bool
    ensures { result ≡ is_register_number text.now }
{
    matches!(octal_value(text), Some(Number::Small(number)) if number < 0o61)
}
