//! A source, joined of its files.

ghost use Rattle.std.specs.Prelude.{◌≡◌, ◌≤◌, ◌++◌, true, length, IfOk, OnOk};
ghost use Rattle.std.specs.Result.{result_map_both};
ghost use Rattle.agc_text.specs.Lines.{lines};
ghost use Rattle.included.specs.Included.{Gives, Tells, TellsText, bar, begun, feed_after};
ghost use Rattle.included.specs.Included.{feed_in, first_line, has_files};
ghost use Rattle.included.specs.Included.{include, is_ended, join_lines, joined, name_at, name_line, place_at, start};
ghost use Rattle.included.specs.Included.{take_line, text_for, with_line};

use crate::names::{before_return, included_name, is_inside, is_open};
use crate::place::Place;
use crate::refusal::{Refusal, Unjoined, Why};
use crate::texts::{NoText, Texts};
use agc_text::next_line;
use std::alloc::{AllocError, Global};
use std::marker::Model;

/// How many levels of files there may be within the source.
const MOST_LEVELS: usize = 8;

/// A source, joined of its files: the text without carriage returns before line feeds, in which the lines of a file
/// stand in place of the line that stands for it; and of which line of which file each line is.
#[derive(Drop)]
pub struct Joined {
    // The names of the files, each with a line feed.
    names: Vec<u8>,
    // Of each line of the text.
    places: Vec<Place>,
    text: Vec<u8>,
    // How many bytes may still be read.
    left: usize,
}

impl Model for Joined {
    ghost use Rattle.included.specs.Included.{State};

    ghost Value = { State };

    ghost view = { λ j. record { names = j.names.items; places = j.places.items; text = j.text.items; left = j.left } };
}

impl Joined {
    /// Nothing of a source of a name, which may have so many bytes with its files. An `Err` is that memory ran out.
    pub fn start(alloc: Global, most: usize, name: &[u8], text: &[u8]) -> Result<Joined, AllocError>
        ensures { IfOk result (λ j. j ≡ start most name.now text.now) }
    {
        let mut names = Vec::new(alloc);
        names.extend_from_slice(name)?;
        names.push(b'\n')?;
        Ok(Joined {
            names,
            places: Vec::new(alloc),
            text: Vec::new(alloc),
            left: most.saturating_sub(text.len()),
        })
    }

    /// The text.
    pub fn text(&self) -> &[u8]
        ensures { result.now ≡ self.now.text }
    {
        &self.text
    }

    /// Of which line of which file each line of the text is.
    pub fn places(&self) -> &[Place]
        ensures { result.now ≡ self.now.places }
    {
        &self.places
    }

    /// Of which line of which file a line of the text is.
    pub fn place_of(&self, line: u64) -> Option<Place>
        ensures { result ≡ place_at self.now.places line }
    {
        let before = line.checked_sub(1)?;
        self.places.get(before as usize).copied()
    }

    /// The name of a file, by where it begins among the names.
    pub fn name_of(&self, file: usize) -> &[u8]
        ensures { result.now ≡ name_at self.now.names file }
    {
        let names = self.names.as_slice();
        first_line(&names[file.min(names.len())..])
    }

    /// Whether a file was read.
    pub fn has_files(&self) -> bool
        ensures { result ≡ has_files self.now.names }
    {
        has_files(&self.names)
    }

    // A line of a place is one more, with its line feed or without.
    fn push(&mut self, place: Place, line: &[u8], has_feed: bool) -> Result<(), AllocError>
        ensures { OnOk result (self.new ≡ with_line self.old place (line.now ++ feed_in has_feed)) }
    {
        if line.is_empty() && !has_feed {
            return Ok(());
        }
        self.places.push(place)?;
        self.text.extend_from_slice(line)?;
        if has_feed {
            self.text.push(b'\n')?;
        }
        Ok(())
    }

    // Where the name of the next file begins among the names.
    fn next_file(&self) -> usize
        ensures { result ≡ length self.now.names }
    {
        self.names.len()
    }

    // A file begins.
    fn name(&mut self, name: &[u8], text: &[u8]) -> Result<(), AllocError>
        requires { length text.now ≤ self.old.left }
        ensures { OnOk result (self.new ≡ begun self.old name.now text.now) }
    {
        self.names.extend_from_slice(name)?;
        self.names.push(b'\n')?;
        self.left -= text.len();
        Ok(())
    }

    // The text of the file of a name, which then begins.
    #[tactic(auto, using(crate::proofs::Steps::text_steps))]
    fn begin<D: Texts>(
        &mut self,
        files: &D,
        alloc: Global,
        levels: usize,
        around: &[u8],
        place: Place,
        name: &[u8],
    ) -> Result<Vec<u8>, Unjoined>
        ensures text { D.told ≡ true
            → TellsText (text_for (D.texts files.now) levels around.now place self.old name.now)
            self.old self.new name.now (result_map_both (λ text. text.items) (λ e. e) result) }
        ensures some { OnOk result (1 ≤ levels) }
    {
        if let Some(why) = bar(levels, around, name) {
            return Err(Unjoined::Refused(Refusal { place, why }));
        }
        match files.text(alloc, name, self.left) {
            Ok(text) => {
                self.name(name, &text)?;
                Ok(text)
            }
            Err(NoText::NoMemory) => Err(Unjoined::NoMemory),
            Err(NoText::Missing) => Err(Unjoined::Refused(Refusal {
                place,
                why: Why::Missing,
            })),
            Err(NoText::TooLarge) => Err(Unjoined::Refused(Refusal {
                place,
                why: Why::TooLarge,
            })),
        }
    }
}

/// Why the file of a name is not read, whatever its text is.
fn bar(levels: usize, around: &[u8], name: &[u8]) -> Option<Why>
    ensures { result ≡ bar levels around.now name.now }
{
    if !is_inside(name) {
        Some(Why::Outside)
    } else if is_open(around, name) {
        Some(Why::Loop)
    } else if levels == 0 {
        Some(Why::TooDeep)
    } else {
        None
    }
}

/// The first line of a text.
fn first_line(text: &[u8]) -> &[u8]
    ensures { result.now ≡ first_line (lines text.now) }
{
    match next_line(text) {
        Some((line, _)) => line,
        None => b"",
    }
}

/// Whether two names stand.
fn has_files(names: &[u8]) -> bool
    ensures { result ≡ has_files names.now }
{
    match next_line(names) {
        Some((_, rest)) => next_line(rest).is_some(),
        None => false,
    }
}

/// A file of which lines are joined.
#[derive(Clone, Copy)]
struct Level<'a> {
    // The names of the files that are being read, each with a line feed.
    around: &'a [u8],
    // How many levels of files there may be within it.
    levels: usize,
    // Where its name begins among the names.
    file: usize,
    // Whether its last line has a line feed.
    is_ended: bool,
}

/// Joins a source of a name and its files, which may have so many bytes together.
///
/// Where a line stands for a file that is not read, the first such is answered, and the names of the files up to it
/// stand. An `Err` is that memory ran out.
#[tactic(auto, unfolding(crate::specs::Included::joined))]
pub fn join<D: Texts>(
    alloc: Global,
    files: &D,
    most: usize,
    name: &[u8],
    text: &[u8],
) -> Result<(Joined, Option<Refusal>), AllocError>
    ensures { D.told ≡ true
        → IfOk result (λ r. Gives (joined (D.texts files.now) most name.now text.now) r.0 r.1) }
{
    let mut joined = Joined::start(alloc, most, name, text)?;
    let around = with_name(alloc, b"", name)?;
    let level = Level {
        around: around.as_slice(),
        levels: MOST_LEVELS,
        file: 0,
        is_ended: is_ended(text),
    };
    match join_lines(files, alloc, level, text, &mut joined) {
        Ok(()) => Ok((joined, None)),
        Err(Unjoined::Refused(refusal)) => Ok((joined, Some(refusal))),
        Err(Unjoined::NoMemory) => Err(AllocError),
    }
}

/// Joins the lines of a file.
#[cycle(joining)]
#[tactic(auto, using(crate::proofs::Steps::joins_steps))]
fn join_lines<D: Texts>(
    files: &D,
    alloc: Global,
    level: Level<'_>,
    text: &[u8],
    joined: &mut Joined,
) -> Result<(), Unjoined>
    ensures { D.told ≡ true
        → Tells (join_lines (include (D.texts files.now) level.entry.levels level.entry.around.now)
        level.entry.is_ended level.entry.file 0 joined.old (lines text.now)) joined.new result }
{
    let mut rest = text;
    let mut number = 0;
    while let Some((line, following)) = next_line(rest) {
        rest = following;
        number += 1;
        let place = Place {
            file: level.file,
            line: number,
        };
        let has_feed = has_feed(level.is_ended, rest);
        take_line(
            files,
            alloc,
            level,
            place,
            before_return(line),
            has_feed,
            joined,
        )?;
    }
    Ok(())
}

/// Joins a line, or the file for which it stands.
#[cycle(joining)]
fn take_line<D: Texts>(
    files: &D,
    alloc: Global,
    level: Level<'_>,
    place: Place,
    line: &[u8],
    has_feed: bool,
    joined: &mut Joined,
) -> Result<(), Unjoined>
    ensures { D.told ≡ true
        → Tells (take_line (include (D.texts files.now) level.entry.levels level.entry.around.now)
        place joined.old line.now (feed_in has_feed)) joined.new result }
{
    let Some(name) = included_name(line) else {
        joined.push(place, line, has_feed)?;
        return Ok(());
    };
    let file = joined.next_file();
    let text = joined.begin(files, alloc, level.levels, level.around, place, name)?;
    let around = with_name(alloc, level.around, name)?;
    let inner = Level {
        around: around.as_slice(),
        levels: level.levels - 1,
        file,
        is_ended: true,
    };
    join_lines(files, alloc, inner, text.as_slice(), joined)
}

/// The names of the files that are being read, and one more.
fn with_name(alloc: Global, around: &[u8], name: &[u8]) -> Result<Vec<u8>, AllocError>
    ensures { IfOk result (λ names. names.items ≡ around.now ++ name_line name.now) }
{
    let mut names = Vec::new(alloc);
    names.extend_from_slice(around)?;
    names.extend_from_slice(name)?;
    names.push(b'\n')?;
    Ok(names)
}

/// Whether a line has a line feed: the last one may lack it.
fn has_feed(is_ended: bool, rest: &[u8]) -> bool
    ensures { feed_in result ≡ feed_after is_ended (lines rest.now) }
{
    if is_ended {
        return true;
    }
    next_line(rest).is_some()
}

/// Whether a line feed stands last.
fn is_ended(text: &[u8]) -> bool
    ensures { result ≡ is_ended text.now }
{
    let length = text.len();
    length > 0 && text[length - 1] == b'\n'
}
