//! The pass over the lines of a source, and what is left to do after the last.

ghost use Rattle.std.specs.Prelude.{◌≡◌, ◌++◌, ℕ, map, OnOk};
ghost use Rattle.agc_text.specs.Lines.{lines};
ghost use Rattle.yayul.specs.Layout.{Layout as LaidOut, start};
ghost use Rattle.yayul.specs.Program.{program, finished, completed, GivesProgram};
ghost use Rattle.yayul.specs.Inside.Answers.{Agrees, Keeps, LaysOut, TellsOn};
ghost use Rattle.yayul.specs.Inside.Representation.{request_of, shown_by_mark, lines_show};
ghost use Rattle.yayul.specs.Inside.Waiting.{Holds};

use crate::assembled::Program;
use crate::faults::{Fault, FaultKind};
use crate::language::Language;
use crate::later::{first_fault, settle};
use crate::layout::{Layout, Placing};
use crate::mark::Marks;
use crate::source_rows::SourceRows;
use agc_text::next_line;
use std::alloc::Global;
use symbols::Symbols;

/// Want of memory, for which no line is to blame.
pub(crate) const NO_MEMORY: Fault = Fault { line: 0, number: 2 };

/// Assembles a source of a language: its program, or its least fault. A fault of number 2 says nothing of the
/// source but that memory ran out, and stands on line 0.
pub fn assemble(alloc: Global, language: Language, source: &[u8]) -> Result<Program, Fault>
    ensures { GivesProgram (program language source.now) result }
{
    let mut marks = Marks::new(alloc);
    let Ok(mut placing) = Placing::start(alloc) else {
        return Err(NO_MEMORY);
    };
    let layout = lay_out(alloc, language, source, &mut placing, &mut marks)?;
    finish(alloc, placing, layout, language, source, marks)
}

/// Lays out the lines of a source, up to the first fault, places their words, and appends what each shows in the
/// listing.
fn lay_out(
    alloc: Global,
    language: Language,
    source: &[u8],
    placing: &mut Placing,
    marks: &mut Marks,
) -> Result<Layout, Fault>
    requires { Keeps 1 (start language) placing.old }
    ensures lays_out { LaysOut language (lines source.now) placing.new result }
    ensures marks { OnOk result (map shown_by_mark marks.new
        ≡ map shown_by_mark marks.old ++ lines_show 1 (start language) (lines source.now)) }
{
    let mut layout = Layout::start(alloc, language);
    let mut rest = source;
    let mut line = 1;
    while let Some((text, after)) = next_line(rest) {
        match layout.line(placing, line, text) {
            Ok(mark) => match marks.push(mark) {
                Ok(()) => rest = after,
                Err(_) => return Err(NO_MEMORY),
            },
            Err(kind) => return Err(fault_on(line, kind)),
        }
        line += 1;
    }
    Ok(layout)
}

// A fault on a line; where memory ran out no line is to blame.
fn fault_on(line: u32, kind: FaultKind) -> Fault
    ensures { TellsOn line kind result }
{
    match kind {
        FaultKind::NoMemory => NO_MEMORY,
        _ => Fault {
            line,
            number: kind.number(),
        },
    }
}

/// The program of the lines of a source, or the first fault of names that wait, or the least fault of words.
fn finish(
    alloc: Global,
    placing: Placing,
    layout: Layout,
    language: Language,
    source: &[u8],
    marks: Marks,
) -> Result<Program, Fault>
    ghost laid_out: { LaidOut }
    requires agrees { (line : ℕ) × Agrees line laid_out layout placing }
    requires shown { map shown_by_mark marks ≡ lines_show 1 (start language) (lines source.now) }
    ensures { GivesProgram (finished laid_out (record { language = language; text = source.now })) result }
{
    let Layout {
        mut symbols,
        promises,
        ..
    } = layout;
    let Ok(()) = settle(&mut symbols, &promises) else {
        return Err(NO_MEMORY);
    };
    match first_fault(&symbols, &promises) {
        Some(fault) => Err(fault),
        None => complete(alloc, placing, symbols, language, source, marks),
    }
}

/// The program of the lines of a source, or the least fault of their words.
fn complete(
    alloc: Global,
    placing: Placing,
    symbols: Symbols,
    language: Language,
    source: &[u8],
    marks: Marks,
) -> Result<Program, Fault>
    ghost laid_out: { LaidOut }
    requires known { symbols ≡ laid_out.symbols }
    requires held { (line : ℕ) × Holds line laid_out.symbols laid_out.requests (map request_of placing.waiting.items)
        placing.rope placing.fault }
    requires shown { map shown_by_mark marks ≡ lines_show 1 (start language) (lines source.now) }
    ensures { GivesProgram (completed laid_out (record { language = language; text = source.now })) result }
{
    let rope = placing.complete(&symbols)?;
    match Vec::from_slice(alloc, source) {
        Ok(text) => {
            let rows = SourceRows::new(language, text, marks);
            Ok(Program::new(rope, symbols, rows))
        }
        Err(_) => Err(NO_MEMORY),
    }
}
