//! The rows of the cross-reference of an image.

ghost use Rattle.std.specs.Prelude.{◌≡◌, ◌+◌, ◌<◌, ◌≤◌, ◌^◌, ◌++◌, codes, filter, if◌then◌else◌, is_some, length, true};
ghost use Rattle.arrayvec.specs.ArrayVec.{array_vec_len};
ghost use Rattle.words.specs.Devices.{Writes, failures_after};
ghost use Rattle.yayul.specs.Listing.{place_text};
ghost use Rattle.xref.specs.declared.use_of.Use.TheVariants.{Defined};
ghost use Rattle.names.specs.Uses.{has_place, row_where, rows_by, rows_in, rows_of, use_row, uses_head, uses_text};

use crate::mention::Mention;
use crate::place::place_of;
use arrayvec::ArrayVec;
use space::Linear;
use symbols::{Symbols, Value};
use trace::place_text;
use words::{Write, WriteFailed, push_all, push_decimal, write_all};
use xref::{Use, write_use};

/// The most bytes of a part of a row.
const PART: usize = 40;

/// Writes how many names have a place, and for each of them, in the order of the table, a row for its own place and one
/// for each of some words whose address leads there. No memory is taken.
///
/// After a failure a beginning of it was written.
#[tactic(auto, unfolding(crate::specs::Uses::uses_text))]
pub fn write_uses<W: Write>(
    names: &Symbols,
    mentions: &[Mention],
    out: &mut W,
) -> Result<(), WriteFailed>
    ensures written { W.told ≡ true → Writes (W.written out.old) (W.written out.new) (uses_text names.now mentions.now)
        result }
    ensures failures { W.failures out.new ≡ failures_after (W.failures out.old) result }
{
    write_all(out, head(names).as_slice())?;
    write_names(names, mentions, out)
}

// Writes the rows of all names.
fn write_names<W: Write>(
    names: &Symbols,
    mentions: &[Mention],
    out: &mut W,
) -> Result<(), WriteFailed>
    ensures written { W.told ≡ true → Writes (W.written out.old) (W.written out.new) (rows_in names.now mentions.now)
        result }
    ensures failures { W.failures out.new ≡ failures_after (W.failures out.old) result }
{
    for index in 0..names.len() {
        let Some(symbol) = names.entry(index) else {
            unreachable!()
        };
        write_name(symbol.0, place_of(symbol.1), mentions, out)?;
    }
    Ok(())
}

// Writes the rows of a name, if it has a place.
fn write_name<W: Write>(
    name: &[u8],
    place: Option<Linear>,
    mentions: &[Mention],
    out: &mut W,
) -> Result<(), WriteFailed>
    ensures written { W.told ≡ true → Writes (W.written out.old) (W.written out.new)
        (rows_by mentions.now name.now place) result }
    ensures failures { W.failures out.new ≡ failures_after (W.failures out.old) result }
{
    match place {
        Some(place) => write_place(name, place, mentions, out),
        None => Ok(()),
    }
}

// Writes the row of a place, and those of what leads there.
fn write_place<W: Write>(
    name: &[u8],
    place: Linear,
    mentions: &[Mention],
    out: &mut W,
) -> Result<(), WriteFailed>
    ensures written { W.told ≡ true → Writes (W.written out.old) (W.written out.new)
        (use_row name.now place Defined ++ rows_of name.now place mentions.now) result }
    ensures failures { W.failures out.new ≡ failures_after (W.failures out.old) result }
{
    write_row(name, place, Use::Defined, out)?;
    write_rows(name, &place, mentions, out)
}

// Writes the rows of those that lead to a place.
fn write_rows<W: Write>(
    name: &[u8],
    place: &Linear,
    mentions: &[Mention],
    out: &mut W,
) -> Result<(), WriteFailed>
    ensures written { W.told ≡ true → Writes (W.written out.old) (W.written out.new)
        (rows_of name.now place.now mentions.now) result }
    ensures failures { W.failures out.new ≡ failures_after (W.failures out.old) result }
{
    for mention in mentions {
        write_where(name, place, mention, out)?;
    }
    Ok(())
}

// Writes the row of a word, if that leads to a place.
fn write_where<W: Write>(
    name: &[u8],
    place: &Linear,
    mention: &Mention,
    out: &mut W,
) -> Result<(), WriteFailed>
    ensures written { W.told ≡ true → Writes (W.written out.old) (W.written out.new)
        (row_where name.now place.now mention.now) result }
    ensures failures { W.failures out.new ≡ failures_after (W.failures out.old) result }
{
    if mention.place == *place {
        let own = Linear::Fixed(mention.bank, mention.offset);
        return write_row(name, own, mention.used, out);
    }
    Ok(())
}

// Writes a row of a name.
fn write_row<W: Write>(
    name: &[u8],
    place: Linear,
    used: Use,
    out: &mut W,
) -> Result<(), WriteFailed>
    ensures written { W.told ≡ true → Writes (W.written out.old) (W.written out.new) (use_row name.now place used)
        result }
    ensures failures { W.failures out.new ≡ failures_after (W.failures out.old) result }
{
    write_all(out, place_column(place).as_slice())?;
    write_use(name, used, out)
}

// A place in a comment, and a blank.
fn place_column(place: Linear) -> ArrayVec<u8, PART>
    ensures { result.items ≡ codes "# " ++ place_text place ++ codes " " }
{
    let mut column = ArrayVec::new();
    push_all(&mut column, b"# ");
    push_all(&mut column, place_text(place).as_slice());
    push_all(&mut column, b" ");
    column
}

// The row before the names.
#[tactic(auto, using(words::proofs::Digits::short_decimal))]
fn head(names: &Symbols) -> ArrayVec<u8, PART>
    ensures { result.items ≡ uses_head names.now }
{
    let mut line = ArrayVec::new();
    push_all(&mut line, b"# XREF ");
    push_decimal(&mut line, count_places(names));
    push_all(&mut line, b"\n");
    line
}

// How many names have a place.
fn count_places(names: &Symbols) -> u64
    ensures { result ≡ length (filter has_place names.now) }
{
    let mut count = 0;
    for index in 0..names.len() {
        let Some(symbol) = names.entry(index) else {
            unreachable!()
        };
        count = counted(count, place_of(symbol.1));
    }
    count
}

// One more, where there is a place.
fn counted(count: u64, place: Option<Linear>) -> u64
    requires { count + 1 < 2 ^ 64 }
    ensures { result ≡ (if is_some place then count + 1 else count) }
{
    match place {
        Some(_) => count + 1,
        None => count,
    }
}
