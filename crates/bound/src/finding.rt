//! The bound of a routine.

ghost use Rattle.std.specs.Prelude.{◌≡◌, ◌+◌, ◌≤◌, ◌++◌, ℕ, IfOk, IfSome, List, OnOk, Some, map};
ghost use Rattle.bound.specs.Bounds.{IsFound, IsWhole};
ghost use Rattle.bound.specs.Inside.Checks.{AreBounds, allowed, number_at};
ghost use Rattle.bound.specs.Inside.Searches.{AreOf, IsAttempt, IsNewAttempt, last_of};

use crate::candidates::loops_in;
use crate::charge::{Charge, Limit};
use crate::checking::{Count, Row, all_count, all_hold, number_at};
use crate::counted::Counted;
use crate::graph::{Explored, Graph};
use crate::looping::{all_stay, is_in};
use crate::search::{BASE, Numbered, number};
use crate::site::Site;
use crate::turn::Why;
use rope::Rope;
use space::Addr12;
use std::alloc::{AllocError, Global};

/// The most attempts to find bounds: two for each routine that is called.
const MOST_ATTEMPTS: usize = 4096;

/// The most cycles that are told.
const MOST_CYCLES: u64 = 0xFFFF_FFFF;

/// What is answered of a routine.
#[derive(Clone, Copy, PartialEq, Eq, Debug)]
pub enum Answer {
    /// It takes at most so many cycles.
    Most(u32),
    /// At a word it is found, by a cause, that no bound is.
    Refused(Site, Why),
}

/// What is answered of a routine, with the loops that are counted by CCS of it and of those that it uses, as far as
/// these were found.
#[derive(Drop)]
pub struct Found {
    /// The answer.
    pub answer: Answer,
    /// The loops.
    pub loops: Vec<Counted>,
}

/// What comes of an attempt.
#[derive(Drop)]
pub(crate) enum Attempt {
    /// The routine takes at most so many cycles, and these loops of it are counted.
    Most(u32, Vec<Counted>),
    /// At a word it calls one of which no bound is known.
    Calls(Site, Site),
    /// At a word it is found, by a cause, that no bound is.
    Stops(Site, Why),
}

/// The most cycles of a routine, or why they are not told. Some addresses are of cells that keep Q: TC of one is a
/// return. No way comes to the place of a limit more often than the limit allows, and none to the head of a loop that
/// is counted by CCS more often than its constant and 1 for each time that it enters the loop.
pub fn bound(
    alloc: Global,
    rope: &Rope,
    kept: &[Addr12],
    limits: &[Limit],
    routine: &Site,
) -> Result<Found, AllocError>
    ensures { IfOk result (λ found. IsFound rope.now kept.now limits.now routine.now found.answer found.loops.items) }
{
    let mut known = Vec::new(alloc);
    let mut begun = Vec::new(alloc);
    let mut loops = Vec::new(alloc);
    for _ in 0..MOST_ATTEMPTS {
        if let Some(most) = number_at(known.as_slice(), routine) {
            return Ok(Found {
                answer: Answer::Most(most),
                loops,
            });
        }
        let site = last_of(begun.as_slice(), routine);
        match try_bound(alloc, rope, kept, limits, known.as_slice(), &site)? {
            Attempt::Most(number, more) => {
                known.push(Row { site, number })?;
                let _last = begun.pop();
                add_loops(&mut loops, more.as_slice())?;
            }
            Attempt::Calls(at, callee) => {
                if callee.is(routine) || is_in(begun.as_slice(), &callee) {
                    return Ok(Found {
                        answer: Answer::Refused(at, Why::Recursive),
                        loops,
                    });
                }
                begun.push(callee)?;
            }
            Attempt::Stops(at, why) => {
                return Ok(Found {
                    answer: Answer::Refused(at, why),
                    loops,
                });
            }
        }
    }
    Ok(Found {
        answer: Answer::Refused(*routine, Why::ManyRoutines),
        loops,
    })
}

/// Adds loops to some.
fn add_loops(loops: &mut Vec<Counted>, more: &[Counted]) -> Result<(), AllocError>
    ensures { OnOk result (loops.new.items ≡ loops.old.items ++ more.now) }
{
    for counted in more {
        loops.push(*counted)?;
    }
    Ok(())
}

/// The last of the routines in progress.
fn last_of(begun: &[Site], routine: &Site) -> Site
    ensures { result ≡ last_of routine.now begun.now }
{
    let mut last = *routine;
    for site in begun {
        last = *site;
    }
    last
}

/// Tries to find the bound of a routine, where those of some are known.
fn try_bound(
    alloc: Global,
    rope: &Rope,
    kept: &[Addr12],
    limits: &[Limit],
    known: &[Row],
    routine: &Site,
) -> Result<Attempt, AllocError>
    requires { AreBounds rope.now kept.now limits.now known.now }
    ensures attempt { IfOk result (λ attempt. IsAttempt rope.now kept.now limits.now routine.now attempt) }
    ensures fresh { IfOk result (λ attempt. IsNewAttempt known.now attempt) }
{
    let mut graph = Graph::of(alloc, routine)?;
    match graph.explore(rope, kept, known, routine)? {
        Explored::Whole => number_and_check(alloc, rope, kept, limits, known, &graph, routine),
        Explored::Calls(at, callee) => Ok(Attempt::Calls(at, callee)),
        Explored::Stops(at, why) => Ok(Attempt::Stops(at, why)),
    }
}

/// Tries to find the bound of a routine of some words.
fn number_and_check(
    alloc: Global,
    rope: &Rope,
    kept: &[Addr12],
    limits: &[Limit],
    known: &[Row],
    graph: &Graph,
    routine: &Site,
) -> Result<Attempt, AllocError>
    requires bounds { AreBounds rope.now kept.now limits.now known.now }
    requires are { AreOf rope.now kept.now routine.now graph.now.sites.items }
    requires whole { IsWhole rope.now kept.now limits.now routine.now }
    ensures attempt { IfOk result (λ attempt. IsAttempt rope.now kept.now limits.now routine.now attempt) }
    ensures none { IfOk result (λ attempt. (known : List Row) → IsNewAttempt known attempt) }
{
    let loops = loops_in(alloc, rope, kept, limits, graph, routine)?;
    match number(alloc, graph, limits, loops.as_slice())? {
        Numbered::All(rows, weights, gains) => {
            let charges = charges(alloc, limits, weights.as_slice())?;
            let counts = counts(alloc, loops.as_slice(), gains.as_slice())?;
            Ok(checked(
                rope,
                kept,
                charges.as_slice(),
                counts.as_slice(),
                known,
                rows.as_slice(),
                routine,
                loops,
            ))
        }
        Numbered::Loops(at, round) => {
            Ok(unbounded(rope, kept, limits, graph, at, round.as_slice(), routine))
        }
    }
}

/// A word of a loop, where no limit bounds this.
fn unbounded(
    rope: &Rope,
    kept: &[Addr12],
    limits: &[Limit],
    graph: &Graph,
    at: usize,
    round: &[Site],
    routine: &Site,
) -> Attempt
    requires are { AreOf rope.now kept.now routine.now graph.now.sites.items }
    requires whole { IsWhole rope.now kept.now limits.now routine.now }
    ensures attempt { IsAttempt rope.now kept.now limits.now routine.now result }
    ensures none { (known : List Row) → IsNewAttempt known result }
{
    match graph.site(at) {
        Some(site) if is_in(round, &site) && all_stay(rope, kept, limits, round) => {
            Attempt::Stops(site, Why::Unbounded)
        }
        _ => Attempt::Stops(*routine, Why::ManyCycles),
    }
}

/// The bound by numbers, costs and loops that were found, where these are right.
fn checked(
    rope: &Rope,
    kept: &[Addr12],
    charges: &[Charge],
    counts: &[Count],
    known: &[Row],
    rows: &[Row],
    routine: &Site,
    loops: Vec<Counted>,
) -> Attempt
    requires bounds { AreBounds rope.now kept.now (map (λ charge. charge.limit) charges.now) known.now }
    requires loops { map (λ count. count.counted) counts.now ≡ loops.items }
    requires whole { IsWhole rope.now kept.now (map (λ charge. charge.limit) charges.now) routine.now }
    ensures attempt { IsAttempt rope.now kept.now (map (λ charge. charge.limit) charges.now) routine.now result }
    ensures none { (known : List Row) → IsNewAttempt known result }
{
    if !all_hold(rope, kept, charges, counts, known, rows, BASE) {
        return Attempt::Stops(*routine, Why::ManyCycles);
    }
    match most(charges, rows, routine) {
        Some(most) if all_count(rope, kept, rows, routine, counts) => Attempt::Most(most, loops),
        _ => Attempt::Stops(*routine, Why::ManyCycles),
    }
}

/// The cycles that the number of a word and the costs of limits allow.
fn most(charges: &[Charge], rows: &[Row], routine: &Site) -> Option<u32>
    ensures { IfSome result (λ most. (number : ℕ) × (number_at rows.now routine.now ≡ Some number)
        × (number + allowed charges.now ≤ most + BASE)) }
{
    let number = number_at(rows, routine)?;
    let costs = allowed(charges)?;
    let most = (u64::from(number) + costs).saturating_sub(u64::from(BASE));
    u32::try_from(most).ok()
}

/// What it costs to come to each place of a limit as often as it allows, unless that is too much.
fn allowed(charges: &[Charge]) -> Option<u64>
    ensures { IfSome result (λ sum. (sum ≡ allowed charges.now) × (sum ≤ MOST_CYCLES)) }
{
    let mut sum: u64 = 0;
    for charge in charges {
        let cost = u64::from(charge.limit.most).checked_mul(u64::from(charge.weight))?;
        if cost > MOST_CYCLES - sum {
            return None;
        }
        sum += cost;
    }
    Some(sum)
}

/// Limits, each with its cost.
fn charges(alloc: Global, limits: &[Limit], weights: &[u32]) -> Result<Vec<Charge>, AllocError>
    ensures { IfOk result (λ charges. map (λ charge. charge.limit) charges.items ≡ limits.now) }
{
    let mut charges = Vec::new(alloc);
    for (number, limit) in limits.iter().enumerate() {
        let weight = if number < weights.len() {
            weights[number]
        } else {
            0
        };
        charges.push(Charge {
            limit: *limit,
            weight,
        })?;
    }
    Ok(charges)
}

/// Counted loops, each with its cost.
fn counts(alloc: Global, loops: &[Counted], gains: &[u32]) -> Result<Vec<Count>, AllocError>
    ensures { IfOk result (λ counts. map (λ count. count.counted) counts.items ≡ loops.now) }
{
    let mut counts = Vec::new(alloc);
    for (number, counted) in loops.iter().enumerate() {
        let weight = if number < gains.len() {
            gains[number]
        } else {
            0
        };
        counts.push(Count {
            counted: *counted,
            weight,
        })?;
    }
    Ok(counts)
}
