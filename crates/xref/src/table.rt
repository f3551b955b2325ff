//! The rows of a cross-reference.

ghost use Rattle.std.specs.Prelude.{◌≡◌, ◌≤◌, ◌++◌, codes, length, filter, map, true};
ghost use Rattle.arrayvec.specs.ArrayVec.{array_vec_len};
ghost use Rattle.words.specs.Devices.{Writes, failures_after};
ghost use Rattle.yayul.specs.Listing.{number_column};
ghost use Rattle.xref.specs.Xref.{is_definition, mention_row, rows_in, rows_of, told, use_column, xref_head, xref_text};

use crate::mention::Mention;
use crate::use_of::{Use, use_text};
use arrayvec::ArrayVec;
use words::{Write, WriteFailed, push_all, push_decimal, write_all};
use yayul::push_blanks;

/// The most bytes of a part of a row.
const PART: usize = 40;

/// How many places a name has at least.
const NAME_PLACES: usize = 8;

/// How many places the number of a line has at least.
const NUMBER_PLACES: usize = 5;

/// Writes how many names are defined, and for each of them, in the order of the lines, a row for each line that
/// mentions it. No memory is taken.
///
/// After a failure a beginning of it was written.
#[tactic(auto, unfolding(crate::specs::Xref::xref_text))]
pub fn write_cross_reference<W: Write>(
    mentions: &[Mention<'_>],
    out: &mut W,
) -> Result<(), WriteFailed>
    ensures written { W.told ≡ true → Writes (W.written out.old) (W.written out.new) (xref_text (map told mentions.now))
        result }
    ensures failures { W.failures out.new ≡ failures_after (W.failures out.old) result }
{
    write_all(out, head(mentions).as_slice())?;
    write_all_rows(mentions, out)
}

// Writes the rows of all names that are defined.
fn write_all_rows<W: Write>(mentions: &[Mention<'_>], out: &mut W) -> Result<(), WriteFailed>
    ensures written { W.told ≡ true → Writes (W.written out.old) (W.written out.new)
        (rows_in (map told mentions.now) (map told mentions.now)) result }
    ensures failures { W.failures out.new ≡ failures_after (W.failures out.old) result }
{
    for index in 0..mentions.len() {
        let mention = &mentions[index];
        if mention.used.defines() {
            write_rows(mention.name, mentions, out)?;
        }
    }
    Ok(())
}

// Writes the rows of a name.
fn write_rows<W: Write>(
    name: &[u8],
    mentions: &[Mention<'_>],
    out: &mut W,
) -> Result<(), WriteFailed>
    ensures written { W.told ≡ true → Writes (W.written out.old) (W.written out.new)
        (rows_of name.now (map told mentions.now)) result }
    ensures failures { W.failures out.new ≡ failures_after (W.failures out.old) result }
{
    for index in 0..mentions.len() {
        let mention = &mentions[index];
        if mention.name == name {
            write_row(mention, out)?;
        }
    }
    Ok(())
}

// Writes the row of a line that mentions a name.
fn write_row<W: Write>(mention: &Mention<'_>, out: &mut W) -> Result<(), WriteFailed>
    ensures written { W.told ≡ true → Writes (W.written out.old) (W.written out.new) (mention_row (told mention.now))
        result }
    ensures failures { W.failures out.new ≡ failures_after (W.failures out.old) result }
{
    write_all(out, number_column(mention.line).as_slice())?;
    write_use(mention.name, mention.used, out)
}

/// Writes a name, and what a line does with it.
///
/// After a failure a beginning of it was written.
pub fn write_use<W: Write>(name: &[u8], used: Use, out: &mut W) -> Result<(), WriteFailed>
    ensures written { W.told ≡ true → Writes (W.written out.old) (W.written out.new)
        (name.now ++ use_column name.now used) result }
    ensures failures { W.failures out.new ≡ failures_after (W.failures out.old) result }
{
    write_all(out, name)?;
    write_all(out, use_column(name, used).as_slice())
}

// The number of a line in a comment, right in its places, and a blank.
#[tactic(auto, using(words::proofs::Digits::short_decimal), unfolding(yayul::specs::Listing::number_column))]
fn number_column(number: u64) -> ArrayVec<u8, PART>
    ensures { result.items ≡ codes "# " ++ number_column number }
{
    let mut digits: ArrayVec<u8, PART> = ArrayVec::new();
    push_decimal(&mut digits, number);
    let mut column = ArrayVec::new();
    push_all(&mut column, b"# ");
    push_blanks(&mut column, NUMBER_PLACES.saturating_sub(digits.len()));
    push_all(&mut column, digits.as_slice());
    push_all(&mut column, b" ");
    column
}

/// What stands after a name: blanks, what a line does with it, and a line feed.
pub fn use_column(name: &[u8], used: Use) -> ArrayVec<u8, PART>
    ensures { result.items ≡ use_column name.now used }
{
    let mut column = ArrayVec::new();
    push_blanks(&mut column, NAME_PLACES.saturating_sub(name.len()));
    push_all(&mut column, b" ");
    push_all(&mut column, use_text(used));
    push_all(&mut column, b"\n");
    column
}

// The row before the names.
#[tactic(auto, using(words::proofs::Digits::short_decimal))]
fn head(mentions: &[Mention<'_>]) -> ArrayVec<u8, PART>
    ensures { result.items ≡ xref_head (map told mentions.now) }
{
    let mut line = ArrayVec::new();
    push_all(&mut line, b"# XREF ");
    push_decimal(&mut line, count_definitions(mentions));
    push_all(&mut line, b"\n");
    line
}

// How many names are defined.
fn count_definitions(mentions: &[Mention<'_>]) -> u64
    ensures { result ≡ length (filter is_definition (map told mentions.now)) }
{
    let mut count = 0;
    for mention in mentions {
        if mention.used.defines() {
            count += 1;
        }
    }
    count
}
