//! Reads the words of a subcommand by its rows.

ghost use Rattle.std.specs.Prelude.{◌≡◌, ◌≢◌, ◌⊎◌, ◌&&◌, ◌||◌, not, Err, Ok, OnOk, IfErr, map, nat_lt, is_some, codes};
ghost use Rattle.std.specs.Option.{option_map, option_map_or};
ghost use Rattle.std.specs.List.{list_all};
ghost use Rattle.std.specs.String.{string_bytes};
ghost use Rattle.command_line.specs.declared.reader.Refusal.TheVariants.{NoMemory};
ghost use Rattle.command_line.specs.Values.{accepts};
ghost use Rattle.command_line.specs.Rules.{is_given};
ghost use Rattle.command_line.specs.Reading.{given_of, reading_of, at_start, read_on, finish, take_word, take_letters};
ghost use Rattle.command_line.specs.Reading.{awaits_number, take_option, help_met, option_met, take_help, take_plain};
ghost use Rattle.command_line.specs.Reading.{awaits};
ghost use Rattle.command_line.specs.Reading.{take_placed, is_open, take_whole, begin, settle, refusal_of, option_row};
ghost use Rattle.command_line.specs.Reading.{next_placed, give, is_named};

use crate::forms::{is_number, letters_in, option_in};
use crate::reader::{Given, Reader, Refusal};
use crate::row::Row;
use crate::rules::{first_conflict, is_missing};
use crate::values::{accepts, takes_many, takes_number, takes_value, word_count};
use std::alloc::Global;

impl<'a> Reader<'a> {
    /// Before the first word.
    pub(crate) fn new(alloc: Global, rows: &'static [Row]) -> Reader<'a>
        ensures { reading_of result ≡ at_start rows.now }
    {
        Reader {
            given: Vec::new(alloc),
            tried: 0,
            open_row: None,
            places: rows,
            is_after: false,
            word: "",
        }
    }

    /// Reads all words.
    pub(crate) fn read(&mut self, rows: &'static [Row], words: &'a [String]) -> Result<(), Refusal>
        ensures read { OnOk result (read_on rows.now (map string_bytes words.now) (reading_of self.old)
            ≡ Ok (reading_of self.new)) }
        ensures refused { IfErr result (λ e. e ≢ NoMemory
            → read_on rows.now (map string_bytes words.now) (reading_of self.old) ≡ Err e) }
    {
        for word in words {
            self.word = word.as_str();
            self.take_word(rows, word.as_str())?;
        }
        self.finish(rows)
    }

    // The end of the words.
    #[tactic(auto, unfolding(crate::specs::Reading::finish))]
    fn finish(&mut self, rows: &'static [Row]) -> Result<(), Refusal>
        ensures read { OnOk result (finish rows.now (reading_of self.old) ≡ Ok (reading_of self.new)) }
        ensures refused { IfErr result (λ e. e ≢ NoMemory → finish rows.now (reading_of self.old) ≡ Err e) }
    {
        self.settle()?;
        if first_conflict(self.given.as_slice()).is_some() {
            Err(Refusal::Conflict)
        } else if is_missing(rows, self.given.as_slice()) {
            Err(Refusal::Missing)
        } else {
            Ok(())
        }
    }

    #[tactic(auto, unfolding(crate::specs::Reading::take_word))]
    fn take_word(&mut self, rows: &'static [Row], word: &'a str) -> Result<(), Refusal>
        ensures read { OnOk result (take_word rows.now word.now (reading_of self.old) ≡ Ok (reading_of self.new)) }
        ensures refused { IfErr result (λ e. e ≢ NoMemory → take_word rows.now word.now (reading_of self.old) ≡ Err e) }
    {
        if self.is_after {
            return self.take_placed(word);
        }
        if word == "--" {
            self.is_after = true;
            return Ok(());
        }
        if let Some((name, value)) = option_in(word) {
            return self.take_option(rows, name, value);
        }
        match letters_in(word) {
            Some(letters) if !(awaits_number(self.places) && is_number(letters)) => {
                self.take_letters(letters)
            }
            _ => self.take_plain(word),
        }
    }

    #[tactic(auto, unfolding(crate::specs::Reading::take_option))]
    fn take_option(
        &mut self,
        rows: &'static [Row],
        name: &str,
        value: Option<&'a str>,
    ) -> Result<(), Refusal>
        ensures read { OnOk result (take_option rows.now name.now (option_map (λ s. s.now) value.entry)
            (reading_of self.old)
            ≡ Ok (reading_of self.new)) }
        ensures refused { IfErr result (λ e. e ≢ NoMemory
            → take_option rows.now name.now (option_map (λ s. s.now) value.entry) (reading_of self.old) ≡ Err e) }
    {
        match option_row(rows, name) {
            Some(row) => self.take_row(row, value),
            None if name == "help" => self.take_help(value),
            None => Err(Refusal::UnknownOption),
        }
    }

    // The option of a row: with a value in its word, or without.
    fn take_row(&mut self, row: &'static Row, value: Option<&'a str>) -> Result<(), Refusal>
        ensures read { OnOk result (option_met row.now (option_map (λ s. s.now) value.entry) (reading_of self.old)
            ≡ Ok (reading_of self.new)) }
        ensures refused { IfErr result (λ e. e ≢ NoMemory
            → option_met row.now (option_map (λ s. s.now) value.entry) (reading_of self.old) ≡ Err e) }
    {
        match value {
            Some(text) if takes_value(row.value) => self.take_whole(row, text),
            Some(_) => Err(Refusal::UnneededValue),
            None if takes_value(row.value) => self.begin(row),
            None => self.take_whole(row, ""),
        }
    }

    // Letters behind a hyphen: of these only a first h means something.
    #[tactic(auto, unfolding(crate::specs::Reading::take_letters))]
    fn take_letters(&mut self, letters: &str) -> Result<(), Refusal>
        ensures read { OnOk result (take_letters letters.now (reading_of self.old) ≡ Ok (reading_of self.new)) }
        ensures refused { IfErr result (λ e. e ≢ NoMemory → take_letters letters.now (reading_of self.old) ≡ Err e) }
    {
        let bytes = letters.as_bytes();
        if !bytes.is_empty() && bytes[0] == b'h' {
            self.take_help(None)
        } else {
            Err(Refusal::UnknownLetter)
        }
    }

    #[tactic(auto, unfolding(crate::specs::Reading::take_help))]
    fn take_help(&mut self, value: Option<&str>) -> Result<(), Refusal>
        ensures read { OnOk result (help_met (option_map (λ s. s.now) value.entry) (reading_of self.old)
            ≡ Ok (reading_of self.new)) }
        ensures refused { IfErr result (λ e. e ≢ NoMemory
            → help_met (option_map (λ s. s.now) value.entry) (reading_of self.old) ≡ Err e) }
    {
        if value.is_some() {
            return Err(Refusal::UnneededValue);
        }
        self.settle()?;
        Err(Refusal::Help)
    }

    // An option that stands in one word with its value, or has none.
    #[tactic(auto, unfolding(crate::specs::Reading::take_whole))]
    fn take_whole(&mut self, row: &'static Row, value: &'a str) -> Result<(), Refusal>
        ensures read { OnOk result (take_whole row.now value.now (reading_of self.old) ≡ Ok (reading_of self.new)) }
        ensures refused { IfErr result (λ e. e ≢ NoMemory
            → take_whole row.now value.now (reading_of self.old) ≡ Err e) }
    {
        self.begin(row)?;
        self.add(row, value)?;
        self.settle()
    }

    // A word that is no option: a value of the option before it, or the next argument that is told by its place.
    #[tactic(auto, unfolding(crate::specs::Reading::take_plain))]
    fn take_plain(&mut self, word: &'a str) -> Result<(), Refusal>
        ensures read { OnOk result (take_plain word.now (reading_of self.old) ≡ Ok (reading_of self.new)) }
        ensures refused { IfErr result (λ e. e ≢ NoMemory → take_plain word.now (reading_of self.old) ≡ Err e) }
    {
        let open_row = self.open_row;
        match open_row {
            Some(row) if self.awaits(row) => self.add(row, word),
            _ => self.take_placed(word),
        }
    }

    // Whether an option has not all of its values.
    #[tactic(auto, using(crate::proofs::Views::given_length))]
    fn awaits(&self, row: &Row) -> bool
        ensures { result ≡ awaits row.now (reading_of self.now) }
    {
        row.long.is_some() && self.given.len() - self.tried < word_count(row.value)
    }

    #[tactic(auto, unfolding(crate::specs::Reading::take_placed))]
    fn take_placed(&mut self, word: &'a str) -> Result<(), Refusal>
        ensures read { OnOk result (take_placed word.now (reading_of self.old) ≡ Ok (reading_of self.new)) }
        ensures refused { IfErr result (λ e. e ≢ NoMemory → take_placed word.now (reading_of self.old) ≡ Err e) }
    {
        let Some((row, rest)) = next_placed(self.places) else {
            return Err(Refusal::Unexpected);
        };
        if !is_open(row, self.open_row) {
            self.begin(row)?;
        }
        self.add(row, word)?;
        if !takes_many(row.value) {
            self.places = rest;
        }
        Ok(())
    }

    // A value of an argument.
    #[tactic(auto, using(crate::proofs::Views::given_push))]
    fn add(&mut self, row: &'static Row, value: &'a str) -> Result<(), Refusal>
        ensures read { OnOk result (reading_of self.new ≡ give row.now value.now (reading_of self.old)) }
        ensures refused { IfErr result (λ e. e ≡ NoMemory) }
    {
        self.given.push(Given { row, value })?;
        Ok(())
    }

    // Begins the values of an argument, once those of the one before are tried.
    #[tactic(auto, unfolding(crate::specs::Reading::begin))]
    fn begin(&mut self, row: &'static Row) -> Result<(), Refusal>
        ensures read { OnOk result (begin row.now (reading_of self.old) ≡ Ok (reading_of self.new)) }
        ensures refused { IfErr result (λ e. begin row.now (reading_of self.old) ≡ Err e) }
    {
        self.settle()?;
        self.open_row = Some(row);
        Ok(())
    }

    // Tries the values of the argument that is open.
    #[tactic(auto, using(crate::proofs::Views::given_views), unfolding(crate::specs::Reading::settle))]
    fn settle(&mut self) -> Result<(), Refusal>
        ensures read { OnOk result (settle (reading_of self.old) ≡ Ok (reading_of self.new)) }
        ensures refused { IfErr result (λ e. settle (reading_of self.old) ≡ Err e) }
    {
        let Some(row) = self.open_row else {
            return Ok(());
        };
        let given = self.given.as_slice();
        match refusal_of(row, &given[..self.tried], &given[self.tried..]) {
            Some(refusal) => Err(refusal),
            None => {
                self.tried = self.given.len();
                self.open_row = None;
                Ok(())
            }
        }
    }
}

// Whether an argument is the one that is open.
fn is_open(row: &Row, open_row: Option<&'static Row>) -> bool
    ensures { result ≡ is_open row.now (option_map (λ it. it.now) open_row.entry) }
{
    match open_row {
        Some(it) => it.name == row.name,
        None => false,
    }
}

// Whether the next argument that is told by its place is a number.
fn awaits_number(places: &'static [Row]) -> bool
    ensures { result ≡ awaits_number places.now }
{
    match next_placed(places) {
        Some((row, _)) => takes_number(row.value),
        None => false,
    }
}

// The first row of an argument that is told by its place, and the rows after it.
fn next_placed(rows: &'static [Row]) -> Option<(&'static Row, &'static [Row])>
    ensures { option_map (λ it. (it.0.now, it.1.now)) result ≡ next_placed rows.now }
{
    for (i, row) in rows.iter().enumerate() {
        if row.long.is_none() {
            return Some((row, &rows[i + 1..]));
        }
    }
    None
}

/// The row of an option.
pub(crate) fn option_row(rows: &'static [Row], name: &str) -> Option<&'static Row>
    ensures { option_map (λ it. it.now) result ≡ option_row rows.now name.now }
{
    for row in rows {
        if is_named(name, row.long) {
            return Some(row);
        }
    }
    None
}

fn is_named(name: &str, long: Option<&'static str>) -> bool
    ensures { result ≡ is_named name.now long.entry }
{
    match long {
        Some(text) => text == name,
        None => false,
    }
}

// Why the values of an argument are refused, where some were given before.
#[tactic(auto, using(crate::proofs::Views::given_length), unfolding(crate::specs::Reading::refusal_of))]
fn refusal_of(row: &Row, before: &[Given<'_>], values: &[Given<'_>]) -> Option<Refusal>
    ensures { result ≡ refusal_of row.now (given_of before.now) (given_of values.now) }
{
    if values.is_empty() {
        Some(Refusal::NoValue)
    } else if values.len() < word_count(row.value) {
        Some(Refusal::TooFewValues)
    } else if !takes_many(row.value) && is_given(before, row.name) {
        Some(Refusal::Repeated)
    } else if wrong_value(row, values).is_some() {
        Some(Refusal::WrongValue)
    } else {
        None
    }
}

/// Whether an argument is among those given.
pub(crate) fn is_given(given: &[Given<'_>], name: &str) -> bool
    ensures { result ≡ is_given (given_of given.now) name.now }
{
    for it in given {
        if it.row.name == name {
            return true;
        }
    }
    false
}

/// The first value that an argument does not take.
pub(crate) fn wrong_value<'a>(row: &Row, values: &[Given<'a>]) -> Option<&'a str>
    ensures { is_some result ≡ not (list_all (λ it. accepts row.now.value it.1) (given_of values.now)) }
{
    for it in values {
        if !accepts(row.value, it.value) {
            return Some(it.value);
        }
    }
    None
}
