//! Where the next instruction stands; symbols by the beginnings of their names; and words one after another.

ghost use Rattle.std.specs.Prelude.{◌≡◌, ◌+◌, ◌-◌, ◌*◌, ◌<◌, ◌≤◌, ◌++◌, ◌^◌, min, length, true, IfOk};
ghost use Rattle.arrayvec.specs.ArrayVec.{array_vec_len};
ghost use Rattle.words.specs.Devices.{Writes, failures_after};
ghost use Rattle.cpu.specs.Run.{run};
ghost use Rattle.names.specs.NamedLines.{nearest_name};
ghost use Rattle.debugger.specs.History.{history, sight};
ghost use Rattle.debugger.specs.Whys.{kind_part, last_outside};
ghost use Rattle.debugger.specs.Standing.{nearest_text};
ghost use Rattle.debugger.specs.Standing.{place_line, waiting_line, where_line, entered_line, entered_text};
ghost use Rattle.debugger.specs.Standing.{where_text, begins_with, found_line, found_text, places_from};
ghost use Rattle.debugger.specs.Standing.{place_after, word_there, words_text, standing_text, rows_text};
ghost use Rattle.replay.specs.View.{HasShown};
ghost use Rattle.debugger.specs.Executions.{HasLooked};
ghost use Rattle.debugger.specs.Desks.{Looks};

use crate::desk::Desk;
use crate::link_texts::{Piece, kind_part};
use crate::rows::{RowKind, write_list_row, write_row};
use crate::short::word_at;
use crate::texts::{Text, number_line};
use arrayvec::ArrayVec;
use calls::standing_place;
use cpu::{Fetched, Machine, Processor};
use names::{place_before, places_before, push_distance};
use replay::{Keeper, Session};
use space::place::Linear;
use space::{Eras, Offset};
use symbols::{Symbols, Value, value_text};
use trace::{Names, fetched_text, place_text};
use words::{Write, WriteFailed, push_all, push_decimal, push_octal, write_all};
use yayul::SourceRows;

/// The most bytes of the lines of words: 18 for each of 2,048.
const WORDS_TEXT: usize = 36_864;

/// The lines of words.
pub(crate) type WordsText = ArrayVec<u8, WORDS_TEXT>;

impl<'a, K: Keeper> Desk<'a, K> {
    /// `where`: where the next instruction stands, and the interrupt that is served.
    #[tactic(auto, unfolding(crate::specs::Standing::where_text))]
    pub(crate) fn tell_where<W: Write>(&mut self, out: &mut W) -> Result<(), WriteFailed>
        ensures writes { W.told ≡ true → Writes (W.written out.old) (W.written out.new)
            (where_text self.old.symbols.now self.old.rows.now self.old.session.now.scenario self.old.position)
            result }
        ensures looked { Looks (4 * self.old.session.now.n) self.old self.new }
        ensures failures { W.failures out.new ≡ failures_after (W.failures out.old) result }
    {
        if self.tell_standing(out)? {
            return write_all(out, self.entered_text().as_slice());
        }
        Ok(())
    }

    /// Writes the line of the next instruction, and its row; and answers whether an interrupt is served.
    fn tell_standing<W: Write>(&mut self, out: &mut W) -> Result<bool, WriteFailed>
        ensures writes { W.told ≡ true → Writes (W.written out.old) (W.written out.new)
            (standing_text self.old.symbols.now self.old.rows.now self.old.session.now.scenario
            (run self.old.session.now.scenario self.old.position))
            result }
        ensures inside { IfOk result (λ inside. inside ≡
            (run self.old.session.now.scenario self.old.position).inside) }
        ensures looked { Looks self.old.session.now.n self.old self.new }
        ensures shown { HasShown self.old.session.now self.old.position self.new.session.now }
        ensures failures { W.failures out.new ≡ failures_after (W.failures out.old) result }
    {
        match self.session.with_present(self.position) {
            Ok((machine, _, processor)) => {
                write_standing(self.symbols, self.rows, machine, processor, out)?;
                Ok(machine.inside())
            }
            Err(_) => unreachable!(),
        }
    }

    /// The line of the interrupt that is served.
    pub(crate) fn entered_text(&mut self) -> Text
        ensures text { result.items ≡ entered_text self.old.symbols.now self.old.session.now.scenario
            (last_outside self.old.session.now.scenario self.old.position) }
        ensures short { array_vec_len result ≤ 76 }
        ensures looked { Looks (3 * self.old.session.now.n) self.old self.new }
    {
        match self
            .session
            .seek_back(self.position, |machine| !machine.inside())
        {
            Some(step) => entered_line(self.session, self.symbols, step),
            None => ArrayVec::new(),
        }
    }

    /// `mem` of a place and a number: so many words from there on.
    pub(crate) fn words(&mut self, place: &Linear, count: u64) -> WordsText
        ensures text { result.items ≡ words_text (history self.old.session.now.scenario)
            ((history self.old.session.now.scenario).after self.old.position) place.now count }
        ensures looked { Looks self.old.session.now.n self.old self.new }
        ensures shown { HasShown self.old.session.now self.old.position self.new.session.now }
    {
        match self.session.with_present(self.position) {
            Ok((machine, _, processor)) => words_text(machine, processor, place, count),
            Err(_) => unreachable!(),
        }
    }

    /// `list` and `value`: the rows of so many places from one on.
    pub(crate) fn rows<W: Write>(
        &mut self,
        kind: RowKind,
        place: &Linear,
        count: u64,
        out: &mut W,
    ) -> Result<(), WriteFailed>
        ensures writes { W.told ≡ true → Writes (W.written out.old) (W.written out.new)
            (rows_text kind self.old.symbols.now self.old.rows.now self.old.session.now.scenario.rope
            (history self.old.session.now.scenario)
            ((history self.old.session.now.scenario).after self.old.position) place.now count) result }
        ensures looked { Looks self.old.session.now.n self.old self.new }
        ensures shown { HasShown self.old.session.now self.old.position self.new.session.now }
        ensures failures { W.failures out.new ≡ failures_after (W.failures out.old) result }
    {
        match self.session.with_present(self.position) {
            Ok((machine, _, processor)) => {
                write_rows(
                    kind,
                    self.symbols,
                    self.rows,
                    machine,
                    processor,
                    place,
                    count,
                    out,
                )
            }
            Err(_) => unreachable!(),
        }
    }
}

/// How many of so many places from one on there are.
fn row_count(place: &Linear, count: u64) -> u16
    ensures value { result ≡ min count (places_from place.now) }
    ensures within { result ≤ places_from place.now }
{
    count.min(u64::from(places_from(place))) as u16
}

/// Writes the line of the next instruction, and its row.
fn write_standing<W: Write>(
    symbols: &Symbols,
    rows: &SourceRows,
    machine: &Machine,
    processor: &Processor,
    out: &mut W,
) -> Result<(), WriteFailed>
    ensures writes { W.told ≡ true → Writes (W.written out.old) (W.written out.new)
        (standing_text symbols.now rows.now processor.now.scenario machine.now) result }
    ensures failures { W.failures out.new ≡ failures_after (W.failures out.old) result }
{
    let place = standing_place(machine);
    write_all(out, where_line(symbols, processor, machine).as_slice())?;
    write_list_row(symbols, rows, machine, processor, &place, out)
}

/// Writes the rows of so many places from one on.
#[tactic(auto, unfolding(crate::specs::Standing::rows_text))]
fn write_rows<W: Write>(
    kind: RowKind,
    symbols: &Symbols,
    rows: &SourceRows,
    machine: &Machine,
    processor: &Processor,
    place: &Linear,
    count: u64,
    out: &mut W,
) -> Result<(), WriteFailed>
    ensures writes { W.told ≡ true → Writes (W.written out.old) (W.written out.new)
        (rows_text kind symbols.now rows.now processor.now.scenario.rope (history processor.now.scenario)
        (sight processor.now.scenario.rope machine.now) place.now count) result }
    ensures failures { W.failures out.new ≡ failures_after (W.failures out.old) result }
{
    for index in 0..row_count(place, count) {
        let there = place_after(place, index);
        write_row(kind, symbols, rows, machine, processor, &there, out)?;
    }
    Ok(())
}

/// The line of the step that entered the interrupt that is served: the one after so many.
#[tactic(auto, using(words::proofs::Digits::short_decimal))]
fn entered_line<K: Keeper>(session: &mut Session<K>, symbols: &Symbols, step: u64) -> Text
    requires within { step < session.old.n }
    requires fits { step + 1 < 2 ^ 64 }
    ensures items { result.items ≡ entered_line symbols.now session.old.scenario step }
    ensures short { array_vec_len result ≤ 76 }
    ensures looked { HasLooked session.old session.new (session.old.n - step) }
{
    let mut text = ArrayVec::new();
    push_all(&mut text, b"IN ");
    push_all(&mut text, kind_at(session, symbols, step).as_slice());
    push_all(&mut text, b" BY ");
    push_decimal(&mut text, step + 1);
    push_all(&mut text, b"\n");
    text
}

/// What the step is after so many.
#[tactic(auto, using(crate::proofs::Looking::looked_near, crate::proofs::Looking::fits_at))]
fn kind_at<K: Keeper>(session: &mut Session<K>, symbols: &Symbols, step: u64) -> Piece
    requires { step < session.old.n }
    ensures kind { result.items ≡ kind_part symbols.now session.old.scenario (run session.old.scenario step) }
    ensures short { array_vec_len result ≤ 48 }
    ensures looked { HasLooked session.old session.new (session.old.n - step) }
{
    match session.with_present(step) {
        Ok((machine, _, processor)) => kind_part(symbols, processor, machine),
        Err(_) => unreachable!(),
    }
}

/// The line of the next instruction.
fn where_line(symbols: &Symbols, processor: &Processor, machine: &Machine) -> Text
    ensures { result.items ≡ where_line symbols.now processor.now.scenario.rope machine.now }
{
    match machine.waiting_word() {
        Some(_) => waiting_line(symbols, processor, machine),
        None => place_line(symbols, &machine.next_place()),
    }
}

/// The line of a word that waits, with the instruction that it is.
fn waiting_line(symbols: &Symbols, processor: &Processor, machine: &Machine) -> Text
    ensures { result.items ≡ waiting_line symbols.now processor.now.scenario.rope machine.now }
{
    let (word, extra) = processor.next_word(machine);
    let fetched = Fetched {
        place: machine.next_place(),
        word,
        extra,
        waited: true,
        added: None,
    };
    let instruction = fetched_text(symbols, processor, machine, &fetched);
    let mut text = ArrayVec::new();
    push_all(&mut text, b"WHERE BRUPT ");
    push_octal(&mut text, 5, word.to_u16());
    push_all(&mut text, b" ");
    push_all(&mut text, instruction.as_slice());
    push_all(&mut text, b"\n");
    text
}

/// The line of a place.
fn place_line(symbols: &Symbols, place: &Linear) -> Text
    ensures { result.items ≡ place_line symbols.now place.now }
{
    let mut text = ArrayVec::new();
    push_all(&mut text, b"WHERE ");
    push_all(&mut text, place_text(*place).as_slice());
    push_nearest(&mut text, symbols, place);
    push_all(&mut text, b"\n");
    text
}

/// Appends the symbol that stands nearest before a place, and how far before.
pub(crate) fn push_nearest(text: &mut Text, symbols: &Symbols, place: &Linear)
    requires { array_vec_len text.old ≤ 20 }
    ensures items { text.new.items ≡ text.old.items ++ nearest_text (nearest_name symbols.now place.now) }
    ensures short { array_vec_len text.new ≤ array_vec_len text.old + 16 }
{
    for distance in 0..places_before(place) + 1 {
        if let Some(name) = symbols.symbol_at(&place_before(place, distance)) {
            push_all(text, b" ");
            push_all(text, name);
            push_distance(text, distance);
            return;
        }
    }
}

/// `find`: the symbols whose names begin so.
#[tactic(auto, unfolding(crate::specs::Standing::found_text))]
pub(crate) fn find<W: Write>(
    symbols: &Symbols,
    beginning: &[u8],
    out: &mut W,
) -> Result<(), WriteFailed>
    ensures writes { W.told ≡ true → Writes (W.written out.old) (W.written out.new)
        (found_text symbols.now beginning.now) result }
    ensures failures { W.failures out.new ≡ failures_after (W.failures out.old) result }
{
    let mut found = 0;
    for index in 0..symbols.len() {
        let Some((name, value)) = symbols.entry(index) else {
            unreachable!()
        };
        if begins_with(beginning, name) {
            write_all(out, found_line(name, value).as_slice())?;
            found += 1;
        }
    }
    write_all(out, number_line(b"COUNT ", found).as_slice())
}

/// Whether a name begins so.
fn begins_with(beginning: &[u8], name: &[u8]) -> bool
    ensures { result ≡ begins_with beginning.now name.now }
{
    beginning.len() <= name.len() && &name[..beginning.len()] == beginning
}

/// The line of a symbol.
fn found_line(name: &[u8], value: Value) -> Text
    requires { length name.now ≤ 8 }
    ensures { result.items ≡ found_line (name.now, value) }
{
    let mut text = ArrayVec::new();
    push_all(&mut text, b"FIND ");
    push_all(&mut text, name);
    push_all(&mut text, b" ");
    push_all(&mut text, value_text(value).as_slice());
    push_all(&mut text, b"\n");
    text
}

/// The lines of so many words from a place on.
#[tactic(auto, unfolding(crate::specs::Standing::words_text))]
fn words_text(machine: &Machine, processor: &Processor, place: &Linear, count: u64) -> WordsText
    ensures { result.items ≡ words_text (history processor.now.scenario) (sight processor.now.scenario.rope machine.now)
        place.now count }
{
    let mut text = ArrayVec::new();
    let places = places_from(place);
    let count = count.min(u64::from(places)) as u16;
    for index in 0..count {
        push_word(&mut text, machine, processor, &place_after(place, index));
    }
    text
}

/// Appends the line of the word at a place.
fn push_word(text: &mut WordsText, machine: &Machine, processor: &Processor, place: &Linear)
    requires { array_vec_len text.old ≤ 36846 }
    ensures items { text.new.items ≡ text.old.items
        ++ word_there (history processor.now.scenario) (sight processor.now.scenario.rope machine.now) place.now }
    ensures len { array_vec_len text.new ≡ array_vec_len text.old + 18 }
{
    push_all(text, b"MEM ");
    push_all(text, place_text(*place).as_slice());
    push_all(text, b" ");
    push_octal(text, 5, word_at(machine, processor, *place).to_u16());
    push_all(text, b"\n");
}

/// How many places there are from a place on.
fn places_from(place: &Linear) -> u16
    ensures value { result ≡ places_from place.now }
    ensures few { result ≤ 0o4000 }
{
    match place {
        Linear::Erasable(place) => 0o4000 - place.number(),
        Linear::Fixed(_, offset) => 0o2000 - offset.number(),
    }
}

/// The place so many after a place.
fn place_after(place: &Linear, words: u16) -> Linear
    requires { words < places_from place.now }
    ensures { result ≡ place_after place.now words }
{
    match place {
        Linear::Erasable(place) => Linear::Erasable(Eras::of_low_bits(place.number() + words)),
        Linear::Fixed(bank, offset) => {
            Linear::Fixed(*bank, Offset::of_low_bits(offset.number() + words))
        }
    }
}
