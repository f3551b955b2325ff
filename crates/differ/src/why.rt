//! How what two runs do not have in common came about.

ghost use Rattle.std.specs.Prelude.{◌≡◌, ◌-◌, ◌+◌, ◌≤◌, ◌^◌, ◌++◌, true, IfOk, IfSome};
ghost use Rattle.arrayvec.specs.ArrayVec.{array_vec_len};
ghost use Rattle.words.specs.Devices.{Writes, failures_after};
ghost use Rattle.cpu.specs.State.{FitsRun};
ghost use Rattle.differ.specs.Causes.{same_text, way_text};
ghost use Rattle.differ.specs.DifferText.{Keeps, end_by, followed_on, link_part, named, next_after, next_of};
ghost use Rattle.differ.specs.DifferText.{number_text};
ghost use Rattle.differ.specs.DifferText.{part_line, why_line, why_part, why_text};

use crate::causes::{Followed, first_read, following, last_writer};
use crate::text::{Line, NamedRun, machine_after, write_lines};
use arrayvec::ArrayVec;
use cpu::{Cell, Machine, NextStep};
use trace::{PlaceNames, Text, cell_name, fetched_text, input_text, interrupt_name};
use words::{Write, WriteFailed, push_all, push_decimal, write_all};

/// Writes how a cell came to be what it is in each of two runs, where that is asked for and there is such a cell.
pub(crate) fn write_asked<W: Write>(
    one: &mut NamedRun,
    other: &mut NamedRun,
    why: Option<u64>,
    start: Option<Followed>,
    out: &mut W,
) -> Result<(), WriteFailed>
    requires few { IfSome start (λ f. f.here ≤ 2 ^ 40 - 2) }
    requires other_few { IfSome start (λ f. f.there ≤ 2 ^ 40 - 2) }
    ensures one { Keeps one.old one.new }
    ensures other { Keeps other.old other.new }
    ensures written { W.told ≡ true → Writes (W.written out.old) (W.written out.new)
        (why_part (named one.old) (named other.old) why start) result }
    ensures failures { W.failures out.new ≡ failures_after (W.failures out.old) result }
{
    match (why, start) {
        (Some(links), Some(start)) => write_why(one, other, links, start, out),
        _ => write_all(out, b""),
    }
}

/// Writes how a cell came to be what it is in each of two runs: of each the step that wrote it last, and then the same
/// of the first cell that both read and that was not the same, as long as both are the same step; at most so many
/// times.
fn write_why<W: Write>(
    one: &mut NamedRun,
    other: &mut NamedRun,
    links: u64,
    start: Followed,
    out: &mut W,
) -> Result<(), WriteFailed>
    requires few { start.here ≤ 2 ^ 40 - 2 }
    requires other_few { start.there ≤ 2 ^ 40 - 2 }
    ensures one { Keeps one.old one.new }
    ensures other { Keeps other.old other.new }
    ensures written { W.told ≡ true → Writes (W.written out.old) (W.written out.new)
        (why_text (named one.old) (named other.old) links start) result }
    ensures failures { W.failures out.new ≡ failures_after (W.failures out.old) result }
{
    let mut at = start;
    let mut left = links;
    while left > 0 {
        match write_link(one, other, at, out)? {
            None => return Ok(()),
            Some(next) => at = next,
        }
        left -= 1;
    }
    write_all(out, b"MORE\n")
}

/// Writes the step of each run that wrote a cell last, and answers what is followed on from them, or writes that they
/// part there.
#[tactic(auto, unfolding(crate::specs::DifferText::link_part, crate::specs::DifferText::next_after))]
fn write_link<W: Write>(
    one: &mut NamedRun,
    other: &mut NamedRun,
    at: Followed,
    out: &mut W,
) -> Result<Option<Followed>, WriteFailed>
    requires few { at.here ≤ 2 ^ 40 - 2 }
    requires other_few { at.there ≤ 2 ^ 40 - 2 }
    ensures one { Keeps one.old one.new }
    ensures other { Keeps other.old other.new }
    ensures written { W.told ≡ true → Writes (W.written out.old) (W.written out.new)
        (link_part (named one.old) (named other.old) at) result }
    ensures failures { W.failures out.new ≡ failures_after (W.failures out.old) result }
    ensures next { IfOk result (λ f. f ≡ next_after (named one.old) (named other.old) at) }
    ensures few { IfOk result (λ o. IfSome o (λ f. f.here ≤ 2 ^ 40 - 2)) }
    ensures other_few { IfOk result (λ o. IfSome o (λ f. f.there ≤ 2 ^ 40 - 2)) }
{
    let here = last_writer(&mut one.processor, at.cell, at.here);
    let there = last_writer(&mut other.processor, at.cell, at.there);
    let head = why_line(&one.names, at.cell);
    write_lines(true, head.as_slice(), one, here, other, there, out)?;
    let next = next_of(one, other, at.cell, here, there);
    write_end(here, there, &next, out)?;
    Ok(next)
}

/// What is followed on from the steps that wrote a cell, where both runs have one.
fn next_of(
    one: &mut NamedRun,
    other: &mut NamedRun,
    cell: Cell,
    here: Option<u64>,
    there: Option<u64>,
) -> Option<Followed>
    requires few { IfSome here (λ n. n ≤ 2 ^ 40 - 2) }
    requires other_few { IfSome there (λ n. n ≤ 2 ^ 40 - 2) }
    ensures next { result ≡ next_of (named one.old) (named other.old) cell here there }
    ensures at { IfSome result (λ f. f.here ≤ 2 ^ 40 - 2) }
    ensures other_at { IfSome result (λ f. f.there ≤ 2 ^ 40 - 2) }
    ensures one { Keeps one.old one.new }
    ensures other { Keeps other.old other.new }
{
    match (here, there) {
        (Some(a), Some(b)) => followed_on(one, other, cell, a, b),
        _ => None,
    }
}

/// What is followed on from two steps that wrote a cell: where they are the same, the first cell that they read and
/// that was not.
#[tactic(auto, unfolding(crate::specs::DifferText::followed_on))]
fn followed_on(
    one: &mut NamedRun,
    other: &mut NamedRun,
    cell: Cell,
    a: u64,
    b: u64,
) -> Option<Followed>
    requires few { a ≤ 2 ^ 40 - 2 }
    requires other_few { b ≤ 2 ^ 40 - 2 }
    ensures next { result ≡ followed_on (named one.old) (named other.old) cell a b }
    ensures at { IfSome result (λ f. f.here ≤ 2 ^ 40 - 2) }
    ensures other_at { IfSome result (λ f. f.there ≤ 2 ^ 40 - 2) }
    ensures one { Keeps one.old one.new }
    ensures other { Keeps other.old other.new }
{
    let before = a.saturating_sub(1);
    let other_before = b.saturating_sub(1);
    let here = machine_after(&mut one.processor, before);
    let there = machine_after(&mut other.processor, other_before);
    if !is_same_way(one, &here, other, &there) {
        return None;
    }
    let read = first_read(&one.processor, &other.processor, &here, &there, cell);
    following(before, other_before, read)
}

/// Whether the next steps are the same, wherever they stand.
fn is_same_way(one: &NamedRun, here: &Machine, other: &NamedRun, there: &Machine) -> bool
    requires fits { FitsRun one.now.processor.scenario here.now }
    requires other_fits { FitsRun other.now.processor.scenario there.now }
    ensures { result ≡ same_text (way_text one.now.names one.now.processor.scenario here.now)
        (way_text other.now.names other.now.processor.scenario there.now) }
{
    way_text(one, here).as_slice() == way_text(other, there).as_slice()
}

/// What the next step is: an input, the entry of an interrupt, or an instruction.
#[tactic(auto, unfolding(crate::specs::Causes::way_text))]
fn way_text(run: &NamedRun, machine: &Machine) -> Text
    requires { FitsRun run.now.processor.scenario machine.now }
    ensures { result.items ≡ way_text run.now.names run.now.processor.scenario machine.now }
{
    match run.processor.next_step(machine) {
        NextStep::Takes(input) => input_text(&input),
        NextStep::Enters(interrupt) => {
            let mut text = ArrayVec::new();
            push_all(&mut text, interrupt_name(interrupt));
            text
        }
        NextStep::Executes(fetched) => {
            fetched_text(&run.names, &run.processor, machine, &fetched)
        }
    }
}

/// Writes at which steps two runs part, where nothing is followed on.
fn write_end<W: Write>(
    here: Option<u64>,
    there: Option<u64>,
    next: &Option<Followed>,
    out: &mut W,
) -> Result<(), WriteFailed>
    ensures written { W.told ≡ true → Writes (W.written out.old) (W.written out.new)
        (end_by here there next.now) result }
    ensures failures { W.failures out.new ≡ failures_after (W.failures out.old) result }
{
    match next {
        None => write_all(out, part_line(here, there).as_slice()),
        Some(_) => write_all(out, b""),
    }
}

/// The line that names a cell.
fn why_line(names: &PlaceNames, cell: Cell) -> Line
    ensures { result.items ≡ why_line names.now cell }
{
    let mut line = ArrayVec::new();
    push_all(&mut line, b"WHY ");
    push_all(&mut line, cell_name(names, cell).as_slice());
    push_all(&mut line, b"\n");
    line
}

/// The line that says at which steps two runs part.
fn part_line(here: Option<u64>, there: Option<u64>) -> Line
    ensures { result.items ≡ part_line here there }
{
    let mut line = ArrayVec::new();
    push_all(&mut line, b"PART AT ");
    push_number(&mut line, here);
    push_all(&mut line, b" WITH ");
    push_number(&mut line, there);
    push_all(&mut line, b"\n");
    line
}

/// Appends the number of a step, or that there is none.
#[tactic(auto, using(words::proofs::Digits::short_decimal))]
fn push_number(line: &mut Line, number: Option<u64>)
    requires { array_vec_len line.old ≤ 60 }
    ensures items { line.new.items ≡ line.old.items ++ number_text number }
    ensures short { array_vec_len line.new ≤ array_vec_len line.old + 20 }
{
    match number {
        None => push_all(line, b"START"),
        Some(number) => push_decimal(line, number),
    }
}
