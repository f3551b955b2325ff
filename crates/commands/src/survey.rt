//! What `survey` takes.

ghost use Rattle.std.specs.Prelude.{◌≡◌, ◌≤◌, ◌<◌, ◌==◌, ◌++◌, ◌∷◌, [], length, All, IfSome, Some, option_and_then};
ghost use Rattle.std.specs.Option.{option_map};
ghost use Rattle.agc_text.specs.Fields.{runs, texts};
ghost use Rattle.arrayvec.specs.ArrayVec.{array_vec_len};
ghost use Rattle.commands.specs.Extended.{if_none};
ghost use Rattle.commands.specs.Surveys.{most_surveyed, most_buckets, steps_from, buckets_in, subject_then};
ghost use Rattle.commands.specs.Surveys.{subjects_in, survey_in};

use crate::fields::count_in;
use crate::named_places::after_place;
use crate::subject::{Subject, channel_subject, place_subject};
use agc_text::split_field;
use arrayvec::ArrayVec;
use space::Chan;
use std::marker::Model;
use symbols::Symbols;

/// The most words that a survey watches.
pub const MOST_SURVEYED: usize = 8;

/// The most buckets of a survey.
pub const MOST_BUCKETS: u64 = 4_096;

/// What is surveyed: some steps, in at most so many buckets, and some words.
#[derive(Drop)]
pub struct Surveyed {
    /// The first step.
    pub first: u64,
    /// The last step.
    pub last: u64,
    /// The most buckets.
    pub buckets: u64,
    /// What has the words.
    pub subjects: Subjects,
}

/// At most 8 subjects. They take no memory.
#[derive(Drop)]
pub struct Subjects {
    list: ArrayVec<Subject, MOST_SURVEYED>,
}

impl Model for Subjects {
    ghost use Rattle.std.specs.Prelude.{List};
    ghost use Rattle.commands.specs.declared.subject.Subject.{Subject};

    ghost Value = { List Subject };

    ghost view = { λ s. s.list.items };
}

impl Subjects {
    // No subjects.
    fn none() -> Subjects
        ensures { result ≡ [] }
    {
        Subjects {
            list: ArrayVec::new(),
        }
    }

    // Whether there is no room for one more.
    fn is_full(&self) -> bool
        ensures value { result ≡ (length self.now == most_surveyed) }
        ensures few { length self.now ≤ most_surveyed }
    {
        self.list.is_full()
    }

    // One more, after the others.
    fn push(&mut self, subject: Subject)
        requires { length self.old < most_surveyed }
        ensures { self.new ≡ self.old ++ subject ∷ [] }
    {
        append(&mut self.list, subject);
    }

    /// The subjects.
    pub fn as_slice(&self) -> &[Subject]
        ensures value { result.now ≡ self.now }
        ensures few { length result.now ≤ most_surveyed }
    {
        self.list.as_slice()
    }
}

// What an empty place of the list holds.
impl Default for Subject {
    fn default() -> Subject {
        Subject::Channel(Chan::L)
    }
}

// Adds a subject at the end.
fn append<const N: usize>(list: &mut ArrayVec<Subject, N>, subject: Subject)
    requires { array_vec_len list.old < N }
    ensures { list.new.items ≡ list.old.items ++ subject ∷ [] }
{
    list.push(subject);
}

// What `survey` takes: two steps, how many buckets, and what is watched.
pub(crate) fn survey_in(symbols: &Symbols, rest: &[u8]) -> Option<Surveyed>
    requires { All (λ field. length field ≤ 80) (texts (runs rest.now)) }
    ensures { result ≡ survey_in symbols.now (texts (runs rest.now)) }
{
    let (first, rest) = split_field(rest)?;
    let (last, rest) = split_field(rest)?;
    let (buckets, rest) = split_field(rest)?;
    let (first, last) = steps_from(count_in(first)?, count_in(last)?)?;
    let buckets = buckets_in(buckets)?;
    let subjects = subjects_in(symbols, rest)?;
    Some(Surveyed {
        first,
        last,
        buckets,
        subjects,
    })
}

// The first and the last of some steps, of which there is one at least.
fn steps_from(first: u64, last: u64) -> Option<(u64, u64)>
    ensures { result ≡ steps_from first last }
{
    if 1 <= first && first <= last {
        return Some((first, last));
    }
    None
}

// How many buckets.
fn buckets_in(field: &[u8]) -> Option<u64>
    ensures { result ≡ buckets_in field.now }
{
    match count_in(field) {
        Some(buckets) if 1 <= buckets && buckets <= MOST_BUCKETS => Some(buckets),
        Some(_) => None,
        None => None,
    }
}

// Erasable places and channels, one after another.
fn subjects_in(symbols: &Symbols, rest: &[u8]) -> Option<Subjects>
    requires { All (λ field. length field ≤ 80) (texts (runs rest.now)) }
    ensures { result ≡ subjects_in symbols.now most_surveyed (texts (runs rest.now)) }
{
    let mut subjects = Subjects::none();
    let mut left = rest;
    'fields: loop {
        let Some((subject, more)) = subject_then(symbols, left) else {
            return if_all_read(left, subjects);
        };
        if subjects.is_full() {
            return None;
        }
        subjects.push(subject);
        left = more;
    }
}

// Some subjects, where no field is left.
fn if_all_read(left: &[u8], subjects: Subjects) -> Option<Subjects>
    ensures { result ≡ if_none (texts (runs left.now)) (Some subjects) }
{
    match split_field(left) {
        None => Some(subjects),
        Some(_) => None,
    }
}

// The erasable place or, where no symbol has the name, the channel that some fields begin with, and what is left.
fn subject_then<'a>(symbols: &Symbols, rest: &'a [u8]) -> Option<(Subject, &'a [u8])>
    requires { All (λ field. length field ≤ 80) (texts (runs rest.now)) }
    ensures found { option_map (λ r. (r.0, texts (runs r.1.now))) result
        ≡ subject_then symbols.now (texts (runs rest.now)) }
    ensures short { IfSome result (λ r. All (λ field. length field ≤ 80) (texts (runs r.1.now))) }
{
    let (field, more) = split_field(rest)?;
    match place_subject(symbols, rest) {
        Some(subject) => Some((subject, after_place(rest))),
        None => match channel_subject(symbols, field) {
            Some(subject) => Some((subject, more)),
            None => None,
        },
    }
}
