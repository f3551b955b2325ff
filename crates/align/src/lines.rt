//! What has become of the words of a rope, as text.

ghost use Rattle.std.specs.Prelude.{◌≡◌, ◌+◌, ◌<◌, ◌≤◌, ◌-◌, ◌++◌, true, codes, length, nat_lt, ◌&&◌, ◌^◌, IfSome};
ghost use Rattle.std.specs.Prelude.{if◌then◌else◌};
ghost use Rattle.arrayvec.specs.ArrayVec.{array_vec_len};
ghost use Rattle.words.specs.Devices.{Writes, failures_after};
ghost use Rattle.rope.specs.Places.{banks, bank_words, fixed_places, place_number};
ghost use Rattle.audit.specs.BankFacts.{count_before};
ghost use Rattle.align.specs.Pairings.{pairing};
ghost use Rattle.align.specs.declared.view.View.TheVariants.{Passage};
ghost use Rattle.align.specs.Alignments.{renaming};
ghost use Rattle.align.specs.AlignTexts.{alignment_lines};
ghost use Rattle.align.specs.RenamedLines.{renamed_lines};
ghost use Rattle.align.specs.AlignLines.{bank_lines, belong, ends, free_line, is_other, is_other_at, is_same_at, joins};
ghost use Rattle.align.specs.AlignLines.{line_at, name_of_place, paired_line, partner_before, replaced};
ghost use Rattle.align.specs.AlignLines.{sides, stand_free, stands_free, stretch_line, totals_line};
ghost use Rattle.align.specs.AlignLines.{view_lines, word_of, words_before, words_text};

use crate::alignment::{Alignment, pairing_of, renaming_of};
use crate::entries::{BANKS, Entry, PLACES, WORDS, entry_at, is_entry, is_first, is_free, is_next};
use crate::renamed_lines::write_renamed;
use crate::view::View;
use arrayvec::ArrayVec;
use audit::{Written, bank_of, count_below, offset_of};
use rope::Rope;
use space::{Linear, window};
use words::{Word, Write, push_all, push_decimal, push_octal, write_all};

/// The most bytes of a line: two places of 7 or two counts of at most 20 digits, and what stands between.
const LINE: usize = 80;

pub(crate) type Line = ArrayVec<u8, LINE>;

/// Writes what has become of the words of two ropes, by the places with which they are paired: of those of the new rope
/// a line for each run that stands at another place, as `MOVED 10,2272 10,2275 WORDS 512`, for words that are in no
/// run, as `NEW 10,2272 WORDS 3`, or where they stand in place of as many of the old one, as `CHANGED 13,2113 13,2116
/// WORDS 1`; of the other words of the old one that are in no run, as `GONE 14,2221 WORDS 3`; then which addresses of
/// erasable memory are others in words that are paired, as `RENAMED 0100 0123 WORDS 12`, or in the words of a bank, as
/// `RENAMED 1512 1600 BANK 10 WORDS 3`; and then how many words are where they were, and how many of all that are
/// paired have another address, as `SAME WORDS 24885 OTHER ADDRESSES 156`.
///
/// After a failure a beginning of it was written.
pub fn write_alignment<W: Write>(
    old: &Rope,
    new: &Rope,
    alignment: &Alignment,
    out: &mut W,
) -> Written
    ensures written { W.told ≡ true → Writes (W.written out.old) (W.written out.new)
        (alignment_lines old.now new.now (renaming alignment.now.names.items alignment.now.back.items
        alignment.now.operands.items) (pairing alignment.now.own.items alignment.now.old.items
        alignment.now.new.items alignment.now.to_old.items alignment.now.to_new.items)) result }
    ensures failures { W.failures out.new ≡ failures_after (W.failures out.old) result }
{
    write_view(View::New, new_sides(alignment), out)?;
    write_view(View::Old, old_sides(alignment), out)?;
    write_rest(old, new, alignment, out)
}

/// Writes which addresses are others, and how many words are where they were.
fn write_rest<W: Write>(old: &Rope, new: &Rope, alignment: &Alignment, out: &mut W) -> Written
    ensures written { W.told ≡ true → Writes (W.written out.old) (W.written out.new)
        (renamed_lines (renaming alignment.now.names.items alignment.now.back.items alignment.now.operands.items)
        (pairing alignment.now.own.items alignment.now.old.items alignment.now.new.items alignment.now.to_old.items
        alignment.now.to_new.items) ++ totals_line old.now new.now alignment.now.to_old.items) result }
    ensures failures { W.failures out.new ≡ failures_after (W.failures out.old) result }
{
    write_renamed(renaming_of(alignment), pairing_of(alignment), out)?;
    write_all(
        out,
        totals_line(old, new, alignment.to_old.as_slice()).as_slice(),
    )
}

/// Writes where the words of a passage stand in a rope, as the old rope and the new one of an alignment: a line for
/// each run, as
/// `FOUND 02,4000 10,2272 WORDS 512`, and for words that are in no run, as `MISSING 02,4000 WORDS 3`.
///
/// After a failure a beginning of it was written.
pub fn write_found<W: Write>(alignment: &Alignment, out: &mut W) -> Written
    ensures written { W.told ≡ true → Writes (W.written out.old) (W.written out.new)
        (view_lines Passage (sides alignment.now.to_new.items alignment.now.old.items alignment.now.to_old.items
        alignment.now.new.items)) result }
    ensures failures { W.failures out.new ≡ failures_after (W.failures out.old) result }
{
    write_view(View::Passage, old_sides(alignment), out)
}

/// Both sides of the words that are told.
#[derive(Clone, Copy, Debug)]
struct Sides<'a> {
    /// With which places of the other rope those of the one are paired.
    pairs: &'a [Entry],
    /// What is compared at the places of the one.
    here: &'a [Entry],
    /// With which places of the one rope those of the other are paired.
    back: &'a [Entry],
    /// What is compared at the places of the other.
    there: &'a [Entry],
}

/// The sides of an alignment as the words of the new rope are told.
fn new_sides(a: &Alignment) -> Sides<'_>
    ensures { sides result.pairs.now result.here.now result.back.now result.there.now
        ≡ sides a.now.to_old.items a.now.new.items a.now.to_new.items a.now.old.items }
{
    Sides {
        pairs: a.to_old.as_slice(),
        here: a.new.as_slice(),
        back: a.to_new.as_slice(),
        there: a.old.as_slice(),
    }
}

/// The sides of an alignment as the words of the old rope are told.
fn old_sides(a: &Alignment) -> Sides<'_>
    ensures { sides result.pairs.now result.here.now result.back.now result.there.now
        ≡ sides a.now.to_new.items a.now.old.items a.now.to_old.items a.now.new.items }
{
    let new = new_sides(a);
    Sides {
        pairs: new.back,
        here: new.there,
        back: new.pairs,
        there: new.here,
    }
}

/// Writes what has become of the words of a rope, bank by bank, by the places of the other rope with which they are
/// paired.
///
/// After a failure a beginning of it was written.
fn write_view<W: Write>(view: View, s: Sides<'_>, out: &mut W) -> Written
    ensures written { W.told ≡ true → Writes (W.written out.old) (W.written out.new)
        (view_lines view (sides s.entry.pairs.now s.entry.here.now s.entry.back.now s.entry.there.now)) result }
    ensures failures { W.failures out.new ≡ failures_after (W.failures out.old) result }
{
    for bank in 0..BANKS {
        write_bank(view, s, bank, out)?;
    }
    Ok(())
}

/// Writes what has become of the words of a bank.
fn write_bank<W: Write>(view: View, s: Sides<'_>, bank: usize, out: &mut W) -> Written
    requires { bank < banks }
    ensures written { W.told ≡ true → Writes (W.written out.old) (W.written out.new)
        (bank_lines view (sides s.entry.pairs.now s.entry.here.now s.entry.back.now s.entry.there.now) bank) result }
    ensures failures { W.failures out.new ≡ failures_after (W.failures out.old) result }
{
    let mut words = 0;
    for offset in 0..WORDS {
        let place = WORDS * bank + offset;
        words = words_with(s.pairs, s.here, place, words);
        write_place(view, s, (bank, offset), words, out)?;
    }
    Ok(())
}

/// How many words up to one belong together, where so many up to the one before do.
fn words_with(pairs: &[Entry], here: &[Entry], place: usize, words: usize) -> usize
    requires { words ≤ 1024 }
    ensures is { result ≡ (if joins pairs.now here.now place then words + 1 else 1) }
    ensures some { 1 ≤ result }
    ensures few { result ≤ words + 1 }
{
    if joins(pairs, here, place) {
        words + 1
    } else {
        1
    }
}

/// Writes the line of the words that end at a place, where so many belong together up to it.
#[tactic(auto, unfolding(crate::specs::AlignLines::line_at))]
fn write_place<W: Write>(
    view: View,
    s: Sides<'_>,
    at: (usize, usize),
    words: usize,
    out: &mut W,
) -> Written
    requires bank { at.0 < banks }
    requires offset { at.1 < bank_words }
    requires words { words ≡ words_before s.pairs.now s.here.now at.0 (at.1 + 1) }
    requires some { 1 ≤ words }
    requires few { words ≤ 1024 }
    ensures written { W.told ≡ true → Writes (W.written out.old) (W.written out.new)
        (line_at view (sides s.entry.pairs.now s.entry.here.now s.entry.back.now s.entry.there.now) at.0 at.1) result }
    ensures failures { W.failures out.new ≡ failures_after (W.failures out.old) result }
{
    let place = WORDS * at.0 + at.1;
    if !ends(s.pairs, s.here, place) {
        return Ok(());
    }
    let (pair, token) = (entry_at(s.pairs, place), entry_at(s.here, place));
    write_all(
        out,
        stretch_line(view, s, words, place, pair, token).as_slice(),
    )
}

/// Whether the word at a place belongs with the one before it.
#[tactic(auto, unfolding(crate::specs::AlignLines::joins))]
fn joins(pairs: &[Entry], here: &[Entry], place: usize) -> bool
    ensures { result ≡ joins pairs.now here.now place }
{
    !is_first(place)
        && belong(
            entry_at(pairs, place - 1),
            entry_at(pairs, place),
            entry_at(here, place),
        )
}

/// Whether no word after that at a place belongs with it.
#[tactic(auto, unfolding(crate::specs::AlignLines::ends))]
fn ends(pairs: &[Entry], here: &[Entry], place: usize) -> bool
    requires { place < fixed_places }
    ensures { result ≡ ends pairs.now here.now place }
{
    !joins(pairs, here, place + 1)
}

/// Whether two entries belong together, at the second of which this token stands.
fn belong(first: Entry, second: Entry, token: Entry) -> bool
    ensures { result ≡ belong first second token }
{
    match (first, second) {
        (None, None) => token.is_some(),
        _ => is_next(first, second),
    }
}

/// The line of so many words that belong together and end at a place.
fn stretch_line(
    view: View,
    s: Sides<'_>,
    words: usize,
    place: usize,
    pair: Entry,
    token: Entry,
) -> Line
    requires place { place < fixed_places }
    requires some { 1 ≤ words }
    requires few { words ≤ 1024 }
    ensures { result.items ≡ stretch_line view
        (sides s.entry.pairs.now s.entry.here.now s.entry.back.now s.entry.there.now) words place pair token }
{
    match (pair, token) {
        (Some(there), _) => {
            let there = usize::from(there);
            if there < PLACES {
                paired_line(view, place, there, words)
            } else {
                ArrayVec::new()
            }
        }
        (None, Some(_)) => free_line(view, place, words, replaced(s, place, words)),
        (None, None) => ArrayVec::new(),
    }
}

/// The line of so many words that are paired and end at a place.
fn paired_line(view: View, here: usize, there: usize, words: usize) -> Line
    requires here { here < fixed_places }
    requires there { there < fixed_places }
    requires some { 1 ≤ words }
    ensures { result.items ≡ paired_line view here there words }
{
    match view {
        View::New => {
            if there == here {
                ArrayVec::new()
            } else {
                places_line(b"MOVED ", there, here, words)
            }
        }
        View::Old => ArrayVec::new(),
        View::Passage => places_line(b"FOUND ", here, there, words),
    }
}

/// A title, two places at which so many words end, and how many.
fn places_line(title: &[u8], first: usize, second: usize, words: usize) -> Line
    requires title { length title.now ≤ 8 }
    requires first { first < fixed_places }
    requires second { second < fixed_places }
    requires some { 1 ≤ words }
    ensures { result.items ≡ title.now ++ name_of_place (first + 1 - words) ++ codes " "
        ++ name_of_place (second + 1 - words) ++ words_text words }
{
    let mut line = ArrayVec::new();
    push_all(&mut line, title);
    push_name(&mut line, (first + 1).saturating_sub(words));
    push_all(&mut line, b" ");
    push_name(&mut line, (second + 1).saturating_sub(words));
    push_words(&mut line, words);
    line
}

/// The line of so many words that are paired with none and end at a place, by the partner of the word before them where
/// they stand in place of others.
fn free_line(view: View, place: usize, words: usize, partner: Option<usize>) -> Line
    requires place { place < fixed_places }
    requires some { 1 ≤ words }
    requires partner { IfSome partner (λ partner. partner + words < fixed_places) }
    ensures { result.items ≡ free_line view place words partner }
{
    match (view, partner) {
        (View::New, None) => place_line(b"NEW ", place, words),
        (View::New, Some(partner)) => places_line(b"CHANGED ", partner + words, place, words),
        (View::Old, None) => place_line(b"GONE ", place, words),
        (View::Old, Some(_)) => ArrayVec::new(),
        (View::Passage, _) => place_line(b"MISSING ", place, words),
    }
}

/// A title, a place at which so many words end, and how many.
fn place_line(title: &[u8], place: usize, words: usize) -> Line
    requires title { length title.now ≤ 8 }
    requires place { place < fixed_places }
    requires some { 1 ≤ words }
    ensures { result.items ≡ title.now ++ name_of_place (place + 1 - words) ++ words_text words }
{
    let mut line = ArrayVec::new();
    push_all(&mut line, title);
    push_name(&mut line, (place + 1).saturating_sub(words));
    push_words(&mut line, words);
    line
}

/// Where so many words that are paired with none and end at a place stand in place of as many of the other rope: the
/// partner of the word before them.
fn replaced(s: Sides<'_>, place: usize, words: usize) -> Option<usize>
    requires place { place < fixed_places }
    requires few { words ≤ 1024 }
    ensures is { result ≡ replaced (sides s.entry.pairs.now s.entry.here.now s.entry.back.now s.entry.there.now) place
        words }
    ensures within { IfSome result (λ partner. partner + words < fixed_places) }
{
    let partner = usize::from(partner_before(s, place, words)?);
    if is_replaced(s, partner, words) {
        Some(partner)
    } else {
        None
    }
}

/// The partner of the word before so many that end at a place.
fn partner_before(s: Sides<'_>, place: usize, words: usize) -> Entry
    requires { place < fixed_places }
    ensures { result ≡ partner_before (sides s.entry.pairs.now s.entry.here.now s.entry.back.now s.entry.there.now)
        place words }
{
    if is_first((place + 1).saturating_sub(words)) {
        None
    } else {
        entry_at(s.pairs, place.saturating_sub(words))
    }
}

/// Whether just so many words that are paired with none stand in the other rope after a place.
fn is_replaced(s: Sides<'_>, partner: usize, words: usize) -> bool
    requires partner { partner < 2 ^ 16 }
    requires few { words ≤ 1024 }
    ensures is { result ≡ (nat_lt (partner + words) fixed_places
        && (stand_free s.entry.back.now s.entry.there.now (partner + 1) words
        && ends s.entry.back.now s.entry.there.now (partner + words))) }
{
    partner + words < PLACES
        && stand_free(s.back, s.there, partner + 1, words)
        && ends(s.back, s.there, partner + words)
}

/// Whether at so many places from one on, none the first of a bank, something is compared and nothing paired.
#[tactic(auto, using(crate::proofs::Steps::free_first, crate::proofs::Steps::free_next))]
fn stand_free(pairs: &[Entry], here: &[Entry], place: usize, count: usize) -> bool
    requires place { place ≤ 2 ^ 16 }
    requires few { count ≤ 1024 }
    ensures { result ≡ stand_free pairs.now here.now place count }
{
    let mut free = true;
    for more in 0..count {
        free = stands_free(pairs, here, place + more) && free;
    }
    free
}

/// Whether something is compared at a place that is no first one of a bank, and nothing paired.
pub(crate) fn stands_free(pairs: &[Entry], here: &[Entry], place: usize) -> bool
    ensures { result ≡ stands_free pairs.now here.now place }
{
    !is_first(place) && is_free(entry_at(pairs, place)) && entry_at(here, place).is_some()
}

/// Appends a place.
#[tactic(auto, unfolding(crate::specs::AlignLines::name_of_place, audit::specs::WordLines::place_text))]
fn push_name(line: &mut Line, place: usize)
    requires room { array_vec_len line.old ≤ 40 }
    requires place { place < fixed_places }
    ensures items { line.new.items ≡ line.old.items ++ name_of_place place }
    ensures len { array_vec_len line.new ≡ array_vec_len line.old + 7 }
{
    let bank = bank_of((place / WORDS) as u16);
    let offset = offset_of((place % WORDS) as u16);
    push_octal(line, 2, bank.number());
    push_all(line, b",");
    push_octal(line, 4, window(Linear::Fixed(bank, offset)).number());
}

/// Appends how many words.
#[tactic(auto, using(words::proofs::Digits::short_decimal))]
pub(crate) fn push_words(line: &mut Line, words: usize)
    requires room { array_vec_len line.old ≤ 32 }
    ensures { line.new.items ≡ line.old.items ++ words_text words }
{
    push_all(line, b" WORDS ");
    push_decimal(line, words as u64);
    push_all(line, b"\n");
}

/// The line that tells how many words are where they were, and how many of all that are paired have another address.
#[tactic(auto, unfolding(crate::specs::AlignLines::totals_line), using(words::proofs::Digits::short_decimal))]
fn totals_line(old: &Rope, new: &Rope, to_old: &[Entry]) -> Line
    ensures { result.items ≡ totals_line old.now new.now to_old.now }
{
    let mut line = ArrayVec::new();
    push_all(&mut line, b"SAME WORDS ");
    push_decimal(&mut line, count_same(to_old) as u64);
    push_all(&mut line, b" OTHER ADDRESSES ");
    push_decimal(&mut line, count_others(old, new, to_old) as u64);
    push_all(&mut line, b"\n");
    line
}

/// How many words are paired with the same place.
fn count_same(to_old: &[Entry]) -> usize
    ensures { result ≡ count_before (is_same_at to_old.now) fixed_places }
{
    usize::from(count_below(audit::PLACES, |place| {
        let place = usize::from(place);
        is_entry(entry_at(to_old, place), place)
    }))
}

/// How many words are paired with another one.
fn count_others(old: &Rope, new: &Rope, to_old: &[Entry]) -> usize
    ensures { result ≡ count_before (is_other_at old.now new.now to_old.now) fixed_places }
{
    usize::from(count_below(audit::PLACES, |place| {
        let place = usize::from(place);
        is_other(old, new, place, entry_at(to_old, place))
    }))
}

/// Whether a place of the new rope is paired with one where another word stands.
fn is_other(old: &Rope, new: &Rope, place: usize, pair: Entry) -> bool
    requires { place < fixed_places }
    ensures { result ≡ is_other old.now new.now place pair }
{
    match pair {
        Some(pair) => {
            let pair = usize::from(pair);
            pair < PLACES && word_of(old, pair) != word_of(new, place)
        }
        None => false,
    }
}

/// The word at a place.
fn word_of(rope: &Rope, place: usize) -> Word
    requires { place < fixed_places }
    ensures { result ≡ word_of rope.now place }
{
    rope.word(
        bank_of((place / WORDS) as u16),
        offset_of((place % WORDS) as u16),
    )
}
