//! The verdict on each test, in a line.

ghost use Rattle.std.specs.Prelude.{◌≡◌, ◌==◌, ◌+◌, ◌≤◌, ◌<◌, ◌^◌, ◌++◌, codes, decimal, if◌then◌else◌, length, true};
ghost use Rattle.agc_text.specs.Fields.{runs, texts};
ghost use Rattle.agc_text.specs.Lines.{lines};
ghost use Rattle.arrayvec.specs.ArrayVec.{array_vec_len};
ghost use Rattle.words.specs.Devices.{Writes, failures_after};
ghost use Rattle.expect.specs.Statements.{statements};
ghost use Rattle.expect.specs.Facts.{facts_of};
ghost use Rattle.expect.specs.Verdicts.{are_all_met, back_text, came_text, condition_text, failed_of, failed_text};
ghost use Rattle.expect.specs.Verdicts.{failure_text, first_failing, front_text, is_that, name_text, relation_text};
ghost use Rattle.expect.specs.Verdicts.{signed_text, sought_text};
ghost use Rattle.expect.specs.Verdicts.{verdict_line, verdict_word, verdicts, wanted_text, where_text, word_came_text};
ghost use Rattle.expect.specs.Verdicts.{word_text};

use crate::claim::{Claim, Condition, Relation, Sought};
use crate::known::{Known, cited};
use crate::reading::name_of;
use crate::statement::next_statement;
use crate::watch::{Failure, Watch};
use agc_text::split_field;
use arrayvec::ArrayVec;
use words::{Word, Write, WriteFailed, push_all, push_decimal, push_octal, write_all};

/// Room for what is told of a failure.
const FAILURE: usize = 320;

/// The bit of the sign.
const SIGN: u16 = 0o40000;

type FailureText = ArrayVec<u8, FAILURE>;

/// Writes a line for each test of a text, before which so many lines stand: whether its claims are met, and if not
/// which line fails first, at which step, after how many cycles, and what came, or is known.
///
/// After a failure a beginning of it was written.
pub fn write_verdicts<W: Write>(
    before: u64,
    text: &[u8],
    watches: &[Watch],
    known: &Known<'_>,
    out: &mut W,
) -> Result<(), WriteFailed>
    requires { before + length text.now ≤ 2 ^ 20 }
    ensures written { W.told ≡ true → Writes (W.written out.old) (W.written out.new)
        (verdicts (facts_of known.now) 0 watches.now (statements before (lines text.now))) result }
    ensures failures { W.failures out.new ≡ failures_after (W.failures out.old) result }
{
    let mut rest = text;
    let mut line = before;
    let mut tests = 0;
    while let Some(statement) = next_statement(rest, line) {
        rest = statement.rest;
        line = statement.line;
        match name_of(statement.fields) {
            Some(name) => {
                tests += 1;
                write_verdict(name, &first_failing(tests, watches), known, out)?;
            }
            None => {}
        }
    }
    Ok(())
}

/// Whether all claims are met.
pub fn are_all_met(watches: &[Watch]) -> bool
    ensures { result ≡ are_all_met watches.now }
{
    watches.iter().all(|watch| watch.failure.is_none())
}

/// The first claim of a test that fails, and where.
fn first_failing(test: u64, watches: &[Watch]) -> Option<(Watch, Failure)>
    ensures { result ≡ first_failing test watches.now }
{
    for watch in watches {
        let failed = failed_of(test, watch);
        if failed.is_some() {
            return failed;
        }
    }
    None
}

/// A claim of a test that fails, and where; of another test none.
fn failed_of(test: u64, watch: &Watch) -> Option<(Watch, Failure)>
    ensures { result ≡ failed_of test watch.now }
{
    if watch.stated.test != test {
        return None;
    }
    match watch.failure {
        Some(failure) => Some((*watch, failure)),
        None => None,
    }
}

/// Writes the line of a test.
fn write_verdict<W: Write>(
    name: &[u8],
    failed: &Option<(Watch, Failure)>,
    known: &Known<'_>,
    out: &mut W,
) -> Result<(), WriteFailed>
    ensures written { W.told ≡ true → Writes (W.written out.old) (W.written out.new)
        (verdict_line (facts_of known.now) (texts (runs name.now)) failed.now) result }
    ensures failures { W.failures out.new ≡ failures_after (W.failures out.old) result }
{
    write_all(out, verdict_word(failed))?;
    write_name(name, out)?;
    write_failure(failed, known, out)
}

/// Whether a test is met, in a word.
fn verdict_word(failed: &Option<(Watch, Failure)>) -> &'static [u8]
    ensures { result.now ≡ verdict_word failed.now }
{
    match failed {
        None => b"ok  ",
        Some(_) => b"FAIL",
    }
}

/// Writes a name, with one blank before each of its fields.
fn write_name<W: Write>(name: &[u8], out: &mut W) -> Result<(), WriteFailed>
    ensures written { W.told ≡ true → Writes (W.written out.old) (W.written out.new) (name_text (texts (runs name.now)))
        result }
    ensures failures { W.failures out.new ≡ failures_after (W.failures out.old) result }
{
    let mut rest = name;
    while let Some((field, following)) = split_field(rest) {
        write_field(field, out)?;
        rest = following;
    }
    Ok(())
}

/// Writes a field after a blank.
fn write_field<W: Write>(field: &[u8], out: &mut W) -> Result<(), WriteFailed>
    ensures written { W.told ≡ true → Writes (W.written out.old) (W.written out.new) (codes " " ++ field.now) result }
    ensures failures { W.failures out.new ≡ failures_after (W.failures out.old) result }
{
    write_all(out, b" ")?;
    write_all(out, field)
}

/// Writes what is told of a failure, and the end of the line in any case.
fn write_failure<W: Write>(
    failed: &Option<(Watch, Failure)>,
    known: &Known<'_>,
    out: &mut W,
) -> Result<(), WriteFailed>
    ensures written { W.told ≡ true → Writes (W.written out.old) (W.written out.new)
        (failure_text (facts_of known.now) failed.now) result }
    ensures failures { W.failures out.new ≡ failures_after (W.failures out.old) result }
{
    match failed {
        Some((watch, failure)) => write_failed(watch, failure, known, out),
        None => write_all(out, b"\n"),
    }
}

/// Writes its line, its step, the cycles after it, what came or the line that tells of it, and what is wanted.
fn write_failed<W: Write>(
    watch: &Watch,
    failure: &Failure,
    known: &Known<'_>,
    out: &mut W,
) -> Result<(), WriteFailed>
    ensures written { W.told ≡ true → Writes (W.written out.old) (W.written out.new)
        (failed_text (facts_of known.now) watch.now failure.now) result }
    ensures failures { W.failures out.new ≡ failures_after (W.failures out.old) result }
{
    write_all(out, front_text(watch, failure, known).as_slice())?;
    write_all(out, cited(known, &watch.stated.claim))?;
    write_all(out, back_text(watch, failure).as_slice())
}

/// Where a test fails, and what came.
fn front_text(watch: &Watch, failure: &Failure, known: &Known<'_>) -> FailureText
    ensures { result.items ≡ front_text (facts_of known.now) watch.now failure.now }
{
    let mut text = ArrayVec::new();
    push_where(&mut text, watch.stated.line, failure);
    push_came(
        &mut text,
        known,
        &watch.stated.claim,
        watch.seen,
        failure.word,
    );
    text
}

/// What is wanted in place of it, and the end of the line.
fn back_text(watch: &Watch, failure: &Failure) -> FailureText
    ensures { result.items ≡ back_text watch.now failure.now }
{
    let mut text = ArrayVec::new();
    push_all(&mut text, b"; wanted ");
    push_wanted(&mut text, &watch.stated.claim, failure.word);
    push_all(&mut text, b"\n");
    text
}

/// Appends where a test fails.
#[tactic(auto, using(words::proofs::Digits::short_decimal))]
fn push_where(text: &mut FailureText, line: u64, failure: &Failure)
    requires { array_vec_len text.old ≤ 0 }
    ensures items { text.new.items ≡ text.old.items ++ where_text line failure.now }
    ensures len { array_vec_len text.new ≤ 90 }
{
    push_all(text, b": line ");
    push_decimal(text, line);
    push_all(text, b", step ");
    push_decimal(text, failure.step);
    push_all(text, b", cycle ");
    push_decimal(text, failure.cycles);
    push_all(text, b": ");
}

/// Appends what came, where a claim has counted so many.
fn push_came(
    text: &mut FailureText,
    known: &Known<'_>,
    claim: &Claim,
    seen: u64,
    word: Option<Word>,
)
    requires { array_vec_len text.old ≤ 90 }
    ensures items { text.new.items ≡ text.old.items ++ came_text (facts_of known.now) claim.now seen word }
    ensures len { array_vec_len text.new ≤ array_vec_len text.old + 90 }
{
    match claim {
        Claim::Calls(_, _) => push_number(text, b"it is called ", seen, b" times"),
        Claim::CallsWithin(_, _) => push_long(text, seen),
        Claim::Notes(_) => {}
        Claim::Check => push_counts(text, known.errors, known.warnings),
        Claim::Covered(_) => push_number(text, b"it executes ", known.executed, b" instructions"),
        _ => push_word_that_came(text, word),
    }
}

/// Appends how much `check` tells.
fn push_counts(text: &mut FailureText, errors: u64, warnings: u64)
    requires { array_vec_len text.old ≤ 90 }
    ensures items { text.new.items ≡ text.old.items
        ++ ((codes "check: errors " ++ decimal errors ++ codes ", warnings ") ++ (decimal warnings ++ codes ": ")) }
    ensures len { array_vec_len text.new ≤ array_vec_len text.old + 90 }
{
    push_number(text, b"check: errors ", errors, b", warnings ");
    push_number(text, b"", warnings, b": ");
}

/// Appends a number between two texts.
#[tactic(auto, using(words::proofs::Digits::short_decimal))]
fn push_number(text: &mut FailureText, before: &[u8], number: u64, after: &[u8])
    requires room { array_vec_len text.old ≤ 150 }
    requires before { length before.now ≤ 20 }
    requires after { length after.now ≤ 20 }
    ensures items { text.new.items ≡ text.old.items ++ (before.now ++ (decimal number ++ after.now)) }
    ensures len { array_vec_len text.new ≤ array_vec_len text.old + (length before.now + length after.now + 20) }
{
    push_all(text, before);
    push_decimal(text, number);
    push_all(text, after);
}

/// Appends that a routine is called for longer, or not at all.
fn push_long(text: &mut FailureText, seen: u64)
    requires { array_vec_len text.old ≤ 90 }
    ensures items { text.new.items ≡ text.old.items
        ++ (if seen == 0 then codes "it is not called" else codes "a call takes longer") }
    ensures len { array_vec_len text.new ≤ array_vec_len text.old + 40 }
{
    if seen == 0 {
        push_all(text, b"it is not called");
    } else {
        push_all(text, b"a call takes longer");
    }
}

/// Appends the word that came.
fn push_word_that_came(text: &mut FailureText, word: Option<Word>)
    requires { array_vec_len text.old ≤ 90 }
    ensures items { text.new.items ≡ text.old.items ++ word_came_text word }
    ensures len { array_vec_len text.new ≤ array_vec_len text.old + 40 }
{
    match word {
        Some(word) => {
            push_all(text, b"it is ");
            push_word(text, word);
        }
        None => push_all(text, b"nothing came"),
    }
}

/// Appends a word, in octal and in decimal.
fn push_word(text: &mut FailureText, word: Word)
    requires { array_vec_len text.old ≤ 170 }
    ensures items { text.new.items ≡ text.old.items ++ word_text word }
    ensures len { array_vec_len text.new ≤ array_vec_len text.old + 30 }
{
    push_octal(text, 5, word.to_u16());
    push_all(text, b" (");
    push_signed(text, word);
    push_all(text, b")");
}

/// Appends the number that a word stands for.
#[tactic(auto, using(words::proofs::Digits::short_decimal))]
fn push_signed(text: &mut FailureText, word: Word)
    requires { array_vec_len text.old ≤ 180 }
    ensures items { text.new.items ≡ text.old.items ++ signed_text word }
    ensures len { array_vec_len text.new ≤ array_vec_len text.old + 21 }
{
    let bits = word.to_u16();
    if bits < SIGN {
        push_decimal(text, u64::from(bits));
    } else {
        push_all(text, b"-");
        push_decimal(text, u64::from(word.neg().to_u16()));
    }
}

/// Appends what a claim wants in place of what came.
#[tactic(auto, using(words::proofs::Digits::short_decimal))]
fn push_wanted(text: &mut FailureText, claim: &Claim, came: Option<Word>)
    requires { array_vec_len text.old ≤ 150 }
    ensures items { text.new.items ≡ text.old.items ++ wanted_text claim.now came }
    ensures len { array_vec_len text.new ≤ array_vec_len text.old + 60 }
{
    match claim {
        Claim::Puts(sought) => push_sought(text, sought, came),
        Claim::PutsNoMore(_, _) => push_all(text, b"no word"),
        Claim::Never(condition) => {
            push_all(text, b"not ");
            push_condition(text, condition);
        }
        Claim::Always(condition) | Claim::AtEnd(condition) | Claim::At(_, condition) => {
            push_condition(text, condition)
        }
        Claim::Calls(_, times) => push_decimal(text, *times),
        Claim::CallsWithin(_, most) => push_number(text, b"within ", *most, b" cycles"),
        Claim::Notes(_) => push_all(text, b"no other note"),
        Claim::Check => push_all(text, b"none"),
        Claim::Covered(least) => push_number(text, b"", *least, b" or more"),
    }
}

/// Appends a word on a channel that is wanted, or when.
fn push_sought(text: &mut FailureText, sought: &Sought, came: Option<Word>)
    requires { array_vec_len text.old ≤ 150 }
    ensures items { text.new.items ≡ text.old.items ++ sought_text sought.now came }
    ensures len { array_vec_len text.new ≤ array_vec_len text.old + 50 }
{
    if is_that(sought.word, came) {
        push_number(text, b"within ", sought.within, b" cycles");
    } else {
        push_word(text, sought.word);
    }
}

/// Whether a word is what came.
fn is_that(word: Word, came: Option<Word>) -> bool
    ensures { result ≡ is_that word came }
{
    match came {
        Some(came) => came == word,
        None => false,
    }
}

/// Appends a condition.
fn push_condition(text: &mut FailureText, condition: &Condition)
    requires { array_vec_len text.old ≤ 160 }
    ensures items { text.new.items ≡ text.old.items ++ condition_text condition.now }
    ensures len { array_vec_len text.new ≤ array_vec_len text.old + 40 }
{
    push_all(text, relation_text(condition.relation));
    push_all(text, b" ");
    push_word(text, condition.word);
}

/// A relation.
fn relation_text(relation: Relation) -> &'static [u8]
    ensures text { result.now ≡ relation_text relation }
    ensures short { length result.now ≤ 2 }
{
    match relation {
        Relation::Same => b"=",
        Relation::Other => b"<>",
        Relation::Less => b"<",
        Relation::Greater => b">",
        Relation::AtMost => b"<=",
        Relation::AtLeast => b">=",
    }
}
