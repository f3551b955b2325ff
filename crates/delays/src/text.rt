//! How long interrupts waited, for how long none could come, and how long calls of routines took, as text.

ghost use Rattle.std.specs.Prelude.{◌≡◌, ◌+◌, ◌-◌, ◌/◌, ◌%◌, ◌*◌, ◌<◌, [], Some, ◌≤◌, ◌++◌, codes, get_or, length};
ghost use Rattle.std.specs.Prelude.{true, IfSome};
ghost use Rattle.arrayvec.specs.ArrayVec.{array_vec_len};
ghost use Rattle.words.specs.Devices.{Writes, failures_after};
ghost use Rattle.trace.specs.TraceLines.{interrupt_name, symbol_at};
ghost use Rattle.std.specs.Option.{option_map};
ghost use Rattle.cover.specs.Tallies.{account_count};
ghost use Rattle.rope.specs.Places.{bank_words, Words};
ghost use Rattle.symbols.specs.Values.{SymbolTable};
ghost use Rattle.space.specs.declared.place.Linear.TheVariants.{Fixed};
ghost use Rattle.yayul.specs.Listing.{place_text};
ghost use Rattle.delays.specs.DelayText.{call_row, figures_in, best_row, name_after, open_row, open_span};
ghost use Rattle.delays.specs.DelayText.{open_span_row, open_wait, open_wait_row, part_text, parts, parts_text};
ghost use Rattle.delays.specs.DelayText.{parts_to, place_row, routine_name, routine_row, span_name, span_row, to_row};
ghost use Rattle.delays.specs.DelayText.{wait_row};
ghost use Rattle.delays.specs.Spans.{span_rows, wait_rows};
ghost use Rattle.delays.specs.Stretches.{no_best};

use crate::mark::{Begun, Best, Mark, NO_BEST, Stretch, better};
use crate::rows::{Rows, best_row, heading};
use crate::tally::{Delays, SPAN_ROWS, START_ROW, WAIT_ROWS};
use access::account_line;
use arrayvec::ArrayVec;
use cover::ACCOUNTS;
use feed::interrupt::Interrupt;
use names::Line;
use rope::Rope;
use space::{BANK_WORDS, Bank, Linear, Offset};
use trace::{Names, PlaceNames, interrupt_name, place_text};
use words::{Write, WriteFailed, push_all, write_all};

/// The part of the first interrupt: before it stands what is open.
const FIRST_WAIT: usize = WAIT_ROWS + 2;

/// The part of the first span.
const FIRST_SPAN: usize = FIRST_WAIT + WAIT_ROWS;

/// The part of the first routine.
const FIRST_CALL: usize = FIRST_SPAN + SPAN_ROWS;

/// How many parts there are.
const PARTS: usize = FIRST_CALL + ACCOUNTS;

/// The number of the first account of fixed memory.
const FIRST_FIXED: usize = 3 + 0o4000;

/// Writes how long interrupts waited and for how long none could come: the cycles of each cause; then as
/// `OPEN ..` a wait and a span that have not ended after the last step; as
/// `WAIT       102       12        0      530    12345 DOWNRUPT` of each interrupt the cycles of the longest wait,
/// their mean, the least, how many there were, and the step that ended the longest; and as `SPAN ..` the same of the
/// spans that began at a place, and where the longest ended; and as `CALL ..` of the calls of a routine. Below a row
/// stands of how many cycles of each cause the longest was.
///
/// After a failure a beginning of it was written.
pub fn write_delays<W: Write>(
    delays: &Delays,
    names: &PlaceNames,
    rope: &Rope,
    out: &mut W,
) -> Result<(), WriteFailed>
    ensures written { W.told ≡ true → Writes (W.written out.old) (W.written out.new)
        (parts_text names.now rope.now (figures_in delays.now)) result }
    ensures failures { W.failures out.new ≡ failures_after (W.failures out.old) result }
{
    write_parts(delays, names, rope, PARTS, out)
}

/// Writes so many parts.
fn write_parts<W: Write>(
    delays: &Delays,
    names: &PlaceNames,
    rope: &Rope,
    count: usize,
    out: &mut W,
) -> Result<(), WriteFailed>
    requires { count ≤ parts }
    ensures written { W.told ≡ true → Writes (W.written out.old) (W.written out.new)
        (parts_to names.now rope.now (figures_in delays.now) count) result }
    ensures failures { W.failures out.new ≡ failures_after (W.failures out.old) result }
{
    for part in 0..count {
        write_part(delays, names, rope, part, out)?;
    }
    Ok(())
}

/// Writes a part.
fn write_part<W: Write>(
    delays: &Delays,
    names: &PlaceNames,
    rope: &Rope,
    part: usize,
    out: &mut W,
) -> Result<(), WriteFailed>
    requires { part < parts }
    ensures written { W.told ≡ true → Writes (W.written out.old) (W.written out.new)
        (part_text names.now rope.now (figures_in delays.now) part) result }
    ensures failures { W.failures out.new ≡ failures_after (W.failures out.old) result }
{
    if is_blank(delays, part) {
        return Ok(());
    }
    let rows = part_rows(delays, names, rope, part);
    write_all(out, rows.as_slice())
}

/// Whether a part is surely empty, as that of nearly each place is: no spans begin there, and no routine is called.
fn is_blank(delays: &Delays, part: usize) -> bool
    requires { part < parts }
    ensures { result ≡ true → (symbols : SymbolTable) (words : Words)
        → part_text symbols words (figures_in delays.now) part ≡ [] }
{
    if part < FIRST_SPAN {
        false
    } else if part < FIRST_CALL {
        delays.has_no_span(part - FIRST_SPAN)
    } else {
        delays.has_no_call(part - FIRST_CALL)
    }
}

/// The rows of a part.
#[tactic(auto, unfolding(crate::specs::DelayText::part_text))]
fn part_rows(delays: &Delays, names: &PlaceNames, rope: &Rope, part: usize) -> Rows
    requires { part < parts }
    ensures { result.items ≡ part_text names.now rope.now (figures_in delays.now) part }
{
    if part == 0 {
        heading(delays)
    } else if part < FIRST_WAIT {
        open_row(delays, names, rope, part - 1)
    } else if part < FIRST_SPAN {
        wait_row(delays, part - FIRST_WAIT)
    } else if part < FIRST_CALL {
        span_row(delays, names, rope, part - FIRST_SPAN)
    } else {
        call_row(delays, names, rope, part - FIRST_CALL)
    }
}

/// The row of a wait that is open after the last step, or, after those of all interrupts, of the span that is.
fn open_row(delays: &Delays, names: &PlaceNames, rope: &Rope, row: usize) -> Rows
    requires { row ≤ wait_rows }
    ensures { result.items ≡ open_row names.now rope.now (figures_in delays.now) row }
{
    if row < WAIT_ROWS {
        open_wait_row(&delays.now(), delays.since(row), row)
    } else {
        open_span_row(names, rope, &delays.now(), delays.closed())
    }
}

/// The row of a wait that is open at a moment, if it is.
fn open_wait_row(now: &Mark, since: Option<Mark>, row: usize) -> Rows
    requires { row < wait_rows }
    ensures { result.items ≡ open_wait_row now.now since row }
{
    let mut line: Line = ArrayVec::new();
    push_all(&mut line, b"WAIT ");
    push_all(&mut line, wait_name(row).as_slice());
    best_row(b"OPEN  ", &open_wait(now, since), line.as_slice(), b"")
}

/// A wait that is open at a moment.
fn open_wait(now: &Mark, since: Option<Mark>) -> Best
    ensures { result ≡ open_wait now.now since }
{
    match since {
        Some(since) => {
            let stretch = Stretch {
                from: since,
                to: *now,
                step: since.step,
                end: 0,
            };
            better(&NO_BEST, &stretch)
        }
        None => NO_BEST,
    }
}

/// The row of a span that is open at a moment, if it is.
#[tactic(auto, using(crate::proofs::Texts::no_row))]
fn open_span_row(names: &PlaceNames, rope: &Rope, now: &Mark, begun: Option<Begun>) -> Rows
    requires { IfSome begun (λ begun. begun.by < span_rows) }
    ensures { result.items ≡ open_span_row names.now rope.now now.now begun }
{
    match begun {
        Some(begun) => {
            let mut line = ArrayVec::new();
            push_all(&mut line, b"SPAN ");
            push_all(&mut line, span_name(names, rope, begun.by).as_slice());
            row_of_open(&open_span(now, &begun), &line)
        }
        None => ArrayVec::new(),
    }
}

/// The row of what is open.
fn row_of_open(best: &Best, name: &Rows) -> Rows
    requires { array_vec_len name.now ≤ 60 }
    ensures { result.items ≡ best_row (codes "OPEN  ") best.now name.now.items [] }
{
    best_row(b"OPEN  ", best, name.as_slice(), b"")
}

/// A span that is open at a moment.
fn open_span(now: &Mark, begun: &Begun) -> Best
    ensures { result ≡ open_span now.now (Some begun.now) }
{
    let stretch = Stretch {
        from: begun.mark,
        to: *now,
        step: begun.mark.step.saturating_add(1),
        end: 0,
    };
    better(&NO_BEST, &stretch)
}

/// The row of an interrupt; 0 is none, and has none.
fn wait_row(delays: &Delays, row: usize) -> Rows
    requires { row < wait_rows }
    ensures { result.items ≡ wait_row (get_or delays.now.waited row no_best) row }
{
    let name = wait_name(row);
    best_row(b"WAIT  ", &delays.waited(row), name.as_slice(), b"")
}

/// The name of an interrupt.
fn wait_name(row: usize) -> Line
    requires { row < wait_rows }
    ensures items { result.items ≡ interrupt_name row ++ codes "\n" }
    ensures short { array_vec_len result ≤ 48 }
{
    let mut line = ArrayVec::new();
    match Interrupt::try_new(row as u8) {
        Some(interrupt) => push_all(&mut line, interrupt_name(interrupt)),
        None => push_all(&mut line, b"RUPT10"),
    }
    push_all(&mut line, b"\n");
    line
}

/// The rows of the spans that begin at a place.
fn span_row(delays: &Delays, names: &PlaceNames, rope: &Rope, row: usize) -> Rows
    requires { row < span_rows }
    ensures { result.items ≡ span_row names.now rope.now (get_or delays.now.spans row no_best) row }
{
    rows_of_spans(&delays.spans(row), names, rope, row)
}

/// The rows of some spans that begin at a place. Where there are none no name is looked for.
#[tactic(auto, using(crate::proofs::Texts::no_row))]
fn rows_of_spans(best: &Best, names: &PlaceNames, rope: &Rope, row: usize) -> Rows
    ensures { result.items ≡ span_row names.now rope.now best.now row }
{
    if best.count == 0 {
        return ArrayVec::new();
    }
    let name = span_name(names, rope, row);
    let to = to_row(names, rope, best.longest.end);
    best_row(b"SPAN  ", best, name.as_slice(), to.as_slice())
}

/// Where a span begins or ends.
fn span_name(names: &PlaceNames, rope: &Rope, row: usize) -> Line
    ensures items { result.items ≡ span_name names.now rope.now row }
    ensures short { array_vec_len result ≤ 48 }
{
    if row < START_ROW {
        return account_line(names, rope, row);
    }
    let mut line = ArrayVec::new();
    push_all(&mut line, b"START\n");
    line
}

/// The row of where it ends.
fn to_row(names: &PlaceNames, rope: &Rope, row: usize) -> Rows
    ensures items { result.items ≡ to_row names.now rope.now row }
    ensures short { array_vec_len result ≤ 120 }
{
    let mut rows = ArrayVec::new();
    push_all(
        &mut rows,
        b"  TO                                               ",
    );
    push_all(&mut rows, span_name(names, rope, row).as_slice());
    rows
}

/// The row of the calls of the routine at a place.
fn call_row(delays: &Delays, names: &PlaceNames, rope: &Rope, row: usize) -> Rows
    requires { row < account_count }
    ensures { result.items ≡ call_row names.now rope.now (get_or delays.now.called row no_best) row }
{
    row_of_calls(&delays.called(row), names, rope, row)
}

/// The row of some calls of the routine at a place. Where there are none no name is looked for.
#[tactic(auto, using(crate::proofs::Texts::no_row))]
fn row_of_calls(best: &Best, names: &PlaceNames, rope: &Rope, row: usize) -> Rows
    requires { row < account_count }
    ensures { result.items ≡ call_row names.now rope.now best.now row }
{
    if best.count == 0 {
        return ArrayVec::new();
    }
    let name = routine_name(names, rope, row);
    best_row(b"CALL  ", best, name.as_slice(), b"")
}

/// A routine.
fn routine_name(names: &PlaceNames, rope: &Rope, row: usize) -> Line
    requires { row < account_count }
    ensures items { result.items ≡ routine_name names.now rope.now row }
    ensures short { array_vec_len result ≤ 48 }
{
    if row < FIRST_FIXED {
        account_line(names, rope, row)
    } else {
        routine_row(names, row - FIRST_FIXED)
    }
}

/// A routine in fixed memory, by the number of its place.
fn routine_row(names: &PlaceNames, number: usize) -> Line
    requires { number < bank_words * 0o50 }
    ensures items { result.items ≡ routine_row names.now number }
    ensures short { array_vec_len result ≤ 48 }
{
    let words = usize::from(BANK_WORDS);
    match (
        Bank::try_new((number / words) as u16),
        Offset::try_new((number % words) as u16),
    ) {
        (Some(bank), Some(offset)) => place_row(names, bank, offset),
        _ => unreachable!(),
    }
}

/// A place of fixed memory, and its name if it has one.
fn place_row(names: &PlaceNames, bank: Bank, offset: Offset) -> Line
    ensures items { result.items ≡ place_row names.now (Fixed bank offset) }
    ensures short { array_vec_len result ≤ 48 }
{
    let mut line = ArrayVec::new();
    let place = Linear::Fixed(bank, offset);
    push_all(&mut line, place_text(place).as_slice());
    push_name(&mut line, names.symbol_at(&place));
    push_all(&mut line, b"\n");
    line
}

/// Appends a name, where there is one.
fn push_name(line: &mut Line, name: Option<&[u8]>)
    requires room { array_vec_len line.old ≤ 30 }
    requires short { IfSome name (λ name. length name.now ≤ 8) }
    ensures items { line.new.items ≡ line.old.items ++ name_after (option_map (λ name. name.now) name.entry) }
    ensures len { array_vec_len line.new ≤ array_vec_len line.old + 9 }
{
    if let Some(name) = name {
        push_all(line, b" ");
        push_all(line, name);
    }
}
