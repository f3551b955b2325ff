//! Whether a bound is right.

ghost use Rattle.std.specs.Prelude.{◌≡◌, ◌+◌, ◌*◌, ◌≤◌, ◌<◌, ◌^◌, ◌&&◌};
ghost use Rattle.bound.specs.Inside.Checks.{all_count, all_hold, gain_at, leg_holds, number_at, room_after};
ghost use Rattle.bound.specs.Inside.Checks.{row_holds, turn_holds, turn_holds_by, weight_at};

use crate::charge::Charge;
use crate::counted::{Counted, is_counted};
use crate::site::Site;
use crate::turn::{Leg, Turn, turn_at};
use rope::Rope;
use space::Addr12;

/// A number for a word.
#[derive(Clone, Copy)]
pub(crate) struct Row {
    /// The word.
    pub(crate) site: Site,
    /// The number.
    pub(crate) number: u32,
}

/// A counted loop, and what it costs to come to its head.
#[derive(Clone, Copy)]
pub(crate) struct Count {
    /// The loop.
    pub(crate) counted: Counted,
    /// The cycles.
    pub(crate) weight: u32,
}

/// Whether loops are counted ones of a routine, whose words are those of a table.
pub(crate) fn all_count(
    rope: &Rope,
    kept: &[Addr12],
    rows: &[Row],
    routine: &Site,
    counts: &[Count],
) -> bool
    ensures { result ≡ all_count rope.now kept.now rows.now routine.now counts.now }
{
    counts.iter().all(|count| is_counted(rope, kept, rows, routine, &count.counted))
}

/// Whether each number of a table, with what it costs to stand at its word, has room for where the word leads.
#[tactic(auto, unfolding(crate::specs::Inside::Checks::all_hold))]
pub(crate) fn all_hold(
    rope: &Rope,
    kept: &[Addr12],
    charges: &[Charge],
    counts: &[Count],
    known: &[Row],
    rows: &[Row],
    base: u32,
) -> bool
    ensures { result ≡ all_hold rope.now kept.now charges.now counts.now known.now rows.now base }
{
    rows.iter().all(|row| row_holds(rope, kept, charges, counts, known, rows, base, row))
}

/// The same of one row.
fn row_holds(
    rope: &Rope,
    kept: &[Addr12],
    charges: &[Charge],
    counts: &[Count],
    known: &[Row],
    rows: &[Row],
    base: u32,
    row: &Row,
) -> bool
    ensures { result ≡ row_holds rope.now kept.now charges.now counts.now known.now rows.now base row.now }
{
    let room = u64::from(row.number)
        + u64::from(weight_at(charges, &row.site))
        + u64::from(gain_at(counts, &row.site));
    let left = room_after(counts, &row.site, room);
    turn_holds_by(known, rows, base, left, &turn_at(rope, kept, &row.site))
}

/// The same of what is left of room, if anything is.
fn turn_holds_by(known: &[Row], rows: &[Row], base: u32, room: Option<u64>, turn: &Turn) -> bool
    ensures { result ≡ turn_holds_by known.now rows.now base room turn.now }
{
    match room {
        Some(room) => turn_holds(known, rows, base, room, turn),
        None => false,
    }
}

/// What it costs to stand at a word as the head of a counted loop.
fn gain_at(counts: &[Count], site: &Site) -> u32
    ensures { result ≡ gain_at counts.now site.now }
{
    for count in counts {
        if count.counted.is_head(site) {
            return count.weight;
        }
    }
    0
}

/// What is left of room at a word once the rounds of each counted loop that it enters are paid.
fn room_after(counts: &[Count], site: &Site, room: u64) -> Option<u64>
    ensures { result ≡ room_after counts.now site.now room }
{
    let mut left = room;
    for count in counts {
        if count.counted.is_entry(site) {
            let cost = rounds_cost(count.counted.from, count.weight);
            if left < cost {
                return None;
            }
            left -= cost;
        }
    }
    Some(left)
}

/// What the rounds of a counted loop cost that is entered once.
fn rounds_cost(from: u16, weight: u32) -> u64
    ensures { result ≡ (from + 1) * weight }
{
    (u64::from(from) + 1) * u64::from(weight)
}

/// Whether there is room for where an instruction leads.
fn turn_holds(known: &[Row], rows: &[Row], base: u32, room: u64, turn: &Turn) -> bool
    ensures { result ≡ turn_holds known.now rows.now base room turn.now }
{
    match turn {
        Turn::Back(cycles) => u64::from(*cycles) + u64::from(base) <= room,
        Turn::Through(routine, leg) => match number_at(known, routine) {
            Some(more) => leg_holds(rows, room, more, leg),
            None => false,
        },
        Turn::One(leg) => leg_holds(rows, room, 0, leg),
        Turn::Two(one, other) => both_hold(rows, room, one, other),
        Turn::Four(a, b, c, d) => both_hold(rows, room, a, b) && both_hold(rows, room, c, d),
        Turn::Stop(_) => false,
    }
}

/// Whether there is room for two ways on.
fn both_hold(rows: &[Row], room: u64, one: &Leg, other: &Leg) -> bool
    ensures { result ≡ (leg_holds rows.now room 0 one.now && leg_holds rows.now room 0 other.now) }
{
    leg_holds(rows, room, 0, one) && leg_holds(rows, room, 0, other)
}

/// Whether there is room for a way on, of which some cycles more are counted.
fn leg_holds(rows: &[Row], room: u64, more: u32, leg: &Leg) -> bool
    ensures { result ≡ leg_holds rows.now room more leg.now }
{
    match number_at(rows, &leg.to) {
        Some(number) => { u64::from(number) + (u64::from(leg.cycles) + u64::from(more)) <= room }
        None => false,
    }
}

/// The number of a word in a table.
pub(crate) fn number_at(rows: &[Row], site: &Site) -> Option<u32>
    ensures { result ≡ number_at rows.now site.now }
{
    match rows.iter().find(|row| row.site.is(site)) {
        Some(row) => Some(row.number),
        None => None,
    }
}

/// What it costs to stand at a word.
pub(crate) fn weight_at(charges: &[Charge], site: &Site) -> u32
    ensures { result ≡ weight_at charges.now site.now }
{
    for charge in charges {
        if charge.limit.has(site) {
            return charge.weight;
        }
    }
    0
}
