//! Trials one after another that come to the same, in one line.

ghost use Rattle.std.specs.Prelude.{◌≡◌, ◌+◌, ◌≤◌, ◌<◌, ◌^◌, ◌++◌, true, Some, length, take, IfOk, if◌then◌else◌};
ghost use Rattle.std.specs.List.{flat_map};
ghost use Rattle.arrayvec.specs.ArrayVec.{array_vec_len};
ghost use Rattle.words.specs.Devices.{Writes, one_more};
ghost use Rattle.whatif.specs.Failing.{has_write_failed};
ghost use Rattle.space.specs.declared.place.Linear.TheVariants.{Erasable};
ghost use Rattle.yayul.specs.Listing.{place_text};
ghost use Rattle.whatif.specs.Spans.{difference_text, end_line, is_never, joins};
ghost use Rattle.whatif.specs.Spans.{others_text, others_told, sent_line, span_line, span_text, without_line};
ghost use Rattle.whatif.specs.Spans.{without_text};
ghost use Rattle.whatif.specs.Together.{closed, number_of, one, open_text, opened};

use crate::answer::{Answer, is_same_flag};
use crate::fault::TrialFault;
use crate::finish::{Difference, Finish};
use crate::going::Going;
use crate::others::{Others, Telling};
use crate::seen::Seen;
use crate::sent::Sent;
use arrayvec::ArrayVec;
use space::place::Linear;
use trace::place_text;
use words::{Write, push_all, push_decimal, push_octal, write_all};

/// The most bytes of a line: its words, five numbers of 64 bits and a line feed.
const LINE: usize = 192;

/// A line.
type Line = ArrayVec<u8, LINE>;

/// Trials one after another that come to the same.
#[derive(Drop)]
pub(crate) struct Span<C> {
    pub(crate) first: u64,
    pub(crate) last: u64,
    pub(crate) count: u64,
    pub(crate) came: C,
}

/// One trial more, after those that are open: where it comes to something else, these are told.
pub(crate) fn with_trial<S: Seen, W: Write>(
    told: S::Way,
    pending: Option<Span<S::Came>>,
    cycle: u64,
    came: S::Came,
    out: &mut W,
) -> Result<Span<S::Came>, TrialFault>
    requires few { number_of pending < 2 ^ 63 }
    ensures written { W.told ≡ true → Writes (W.written out.old) (W.written out.new)
        (closed (S.joins_by told) (S.tells told) pending cycle came) result }
    ensures failures { W.failures out.new ≡
        (if has_write_failed result then one_more (W.failures out.old) else W.failures out.old) }
    ensures span { IfOk result (λ span. span ≡ opened (S.joins_by told) pending cycle came) }
{
    match pending {
        None => Ok(one(cycle, came)),
        Some(mut span) => {
            if S::joins(told, &span, cycle, &came) {
                span.last = cycle;
                span.count += 1;
                return Ok(span);
            }
            S::write_span(told, &span, out)?;
            Ok(one(cycle, came))
        }
    }
}

/// A trial alone.
fn one<C>(cycle: u64, came: C) -> Span<C>
    ensures { result ≡ one cycle came }
{
    Span {
        first: cycle,
        last: cycle,
        count: 1,
        came,
    }
}

/// Tells the trials that are open at the end.
pub(crate) fn write_open<S: Seen, W: Write>(
    told: S::Way,
    pending: &Option<Span<S::Came>>,
    out: &mut W,
) -> Result<(), TrialFault>
    ensures written { W.told ≡ true → Writes (W.written out.old) (W.written out.new)
        (open_text (S.tells told) pending.now) result }
    ensures failures { W.failures out.new ≡
        (if has_write_failed result then one_more (W.failures out.old) else W.failures out.old) }
{
    match pending {
        None => Ok(()),
        Some(span) => S::write_span(told, span, out),
    }
}

/// Whether a trial comes to the same as those of a span, or never comes as they do not.
pub(crate) fn joins(told: Telling, span: &Span<Finish>, cycle: u64, finish: &Finish) -> bool
    ensures { result ≡ joins told span.now cycle finish.now }
{
    span.came.answer.is_same(&finish.answer)
        && is_same_flag(is_never(told, span.first), is_never(told, cycle))
}

/// Whether a trial at a cycle never comes.
fn is_never(told: Telling, cycle: u64) -> bool
    ensures { result ≡ is_never told cycle }
{
    told.end <= cycle
}

/// Tells some trials: their line, a line for each other word that is told, and the line of where the first of them has
/// come out.
pub(crate) fn write_span<W: Write>(
    told: Telling,
    span: &Span<Finish>,
    out: &mut W,
) -> Result<(), TrialFault>
    ensures written { W.told ≡ true → Writes (W.written out.old) (W.written out.new) (span_text told span.now) result }
    ensures failures { W.failures out.new ≡
        (if has_write_failed result then one_more (W.failures out.old) else W.failures out.old) }
{
    write_line(told, span, out)?;
    write_others(others_told(told.others, span.came.answer.others()), out)?;
    write_end(span.came.place, &span.came.difference, out)
}

/// The other words that are told.
fn others_told(told: Others, others: &[Sent]) -> &[Sent]
    ensures { result.now ≡ others_told told others.now }
{
    match told {
        Others::All => others,
        Others::First => first_of(others),
    }
}

/// The first, where one stands.
fn first_of(others: &[Sent]) -> &[Sent]
    ensures { result.now ≡ take 1 others.now }
{
    if others.is_empty() {
        return others;
    }
    &others[..1]
}

/// Writes the line of where a run has come out.
fn write_end<W: Write>(
    place: Linear,
    difference: &Option<Difference>,
    out: &mut W,
) -> Result<(), TrialFault>
    ensures written { W.told ≡ true → Writes (W.written out.old) (W.written out.new) (end_line place difference.now)
        result }
    ensures failures { W.failures out.new ≡
        (if has_write_failed result then one_more (W.failures out.old) else W.failures out.old) }
{
    write_text(end_line(place, difference).as_slice(), out)
}

/// Writes the lines of some words.
fn write_others<W: Write>(others: &[Sent], out: &mut W) -> Result<(), TrialFault>
    ensures written { W.told ≡ true → Writes (W.written out.old) (W.written out.new) (others_text others.now) result }
    ensures failures { W.failures out.new ≡
        (if has_write_failed result then one_more (W.failures out.old) else W.failures out.old) }
{
    for sent in others {
        write_sent(sent, out)?;
    }
    Ok(())
}

/// Writes the line of a word.
fn write_sent<W: Write>(sent: &Sent, out: &mut W) -> Result<(), TrialFault>
    ensures written { W.told ≡ true → Writes (W.written out.old) (W.written out.new) (sent_line sent.now) result }
    ensures failures { W.failures out.new ≡
        (if has_write_failed result then one_more (W.failures out.old) else W.failures out.old) }
{
    write_text(sent_line(*sent).as_slice(), out)
}

/// Writes the line of some trials.
fn write_line<W: Write>(told: Telling, span: &Span<Finish>, out: &mut W) -> Result<(), TrialFault>
    ensures written { W.told ≡ true → Writes (W.written out.old) (W.written out.new) (span_line told span.now) result }
    ensures failures { W.failures out.new ≡
        (if has_write_failed result then one_more (W.failures out.old) else W.failures out.old) }
{
    write_text(span_line(told, span).as_slice(), out)
}

/// Tells what the run without a trial puts out, and where it has come out.
pub(crate) fn write_without<W: Write>(
    without: &Going<Answer>,
    out: &mut W,
) -> Result<(), TrialFault>
    ensures written { W.told ≡ true → Writes (W.written out.old) (W.written out.new)
        (without_text without.now.machine without.now.seen) result }
    ensures failures { W.failures out.new ≡
        (if has_write_failed result then one_more (W.failures out.old) else W.failures out.old) }
{
    write_text(without_line(&without.seen).as_slice(), out)?;
    write_end(without.machine.next_place(), &None, out)
}

/// Writes a text.
pub(crate) fn write_text<W: Write>(text: &[u8], out: &mut W) -> Result<(), TrialFault>
    ensures written { W.told ≡ true → Writes (W.written out.old) (W.written out.new) text.now result }
    ensures failures { W.failures out.new ≡
        (if has_write_failed result then one_more (W.failures out.old) else W.failures out.old) }
{
    match write_all(out, text) {
        Ok(()) => Ok(()),
        Err(_) => Err(TrialFault::WriteFailed),
    }
}

/// The line of the run without a trial.
#[tactic(auto, using(words::proofs::Digits::short_decimal))]
fn without_line(answer: &Answer) -> Line
    ensures { result.items ≡ without_line answer.now }
{
    let mut line = ArrayVec::new();
    push_all(&mut line, b"WITHOUT WORDS ");
    push_decimal(&mut line, answer.others().len() as u64);
    if answer.strays() {
        push_all(&mut line, b" ERASABLE");
    }
    push_all(&mut line, b"\n");
    line
}

/// The line of some trials.
#[tactic(auto, using(words::proofs::Digits::short_decimal))]
fn span_line(told: Telling, span: &Span<Finish>) -> Line
    ensures { result.items ≡ span_line told span.now }
{
    let mut line = ArrayVec::new();
    push_all(&mut line, b"FROM ");
    push_decimal(&mut line, span.first);
    push_all(&mut line, b" TO ");
    push_decimal(&mut line, span.last);
    push_all(&mut line, b" COUNT ");
    push_decimal(&mut line, span.count);
    push_all(&mut line, b" ALIKE ");
    push_decimal(&mut line, span.came.answer.alike());
    push_all(&mut line, b" OTHERS ");
    push_decimal(&mut line, span.came.answer.others().len() as u64);
    if span.came.answer.strays() {
        push_all(&mut line, b" ERASABLE");
    }
    if is_never(told, span.first) {
        push_all(&mut line, b" NEVER");
    }
    push_all(&mut line, b"\n");
    line
}

/// The line of where a run has come out.
fn end_line(place: Linear, difference: &Option<Difference>) -> Line
    ensures { result.items ≡ end_line place difference.now }
{
    let mut line = ArrayVec::new();
    push_all(&mut line, b"END ");
    push_all(&mut line, place_text(place).as_slice());
    if let Some(difference) = difference {
        push_difference(&mut line, difference);
    }
    push_all(&mut line, b"\n");
    line
}

/// Appends an erasable place whose word differs, with both words.
fn push_difference(line: &mut Line, difference: &Difference)
    requires { array_vec_len line.old ≤ 32 }
    ensures items { line.new.items ≡ line.old.items ++ difference_text (Some difference.now) }
    ensures short { array_vec_len line.new ≤ array_vec_len line.old + 32 }
{
    push_all(line, b" CELL ");
    push_all(
        line,
        place_text(Linear::Erasable(difference.place)).as_slice(),
    );
    push_all(line, b" ");
    push_octal(line, 5, difference.word.to_u16());
    push_all(line, b" NOT ");
    push_octal(line, 5, difference.other.to_u16());
}

/// The line of a word.
fn sent_line(sent: Sent) -> Line
    ensures { result.items ≡ sent_line sent }
{
    let mut line = ArrayVec::new();
    push_all(&mut line, b"CH ");
    push_octal(&mut line, 3, sent.channel.number());
    push_all(&mut line, b" ");
    push_octal(&mut line, 5, sent.word.to_u16());
    push_all(&mut line, b"\n");
    line
}
