//! The words of a routine, with the ways between them. The ways that are found are not relied upon: a bound is checked
//! afterwards.

ghost use Rattle.std.specs.Prelude.{◌≡◌, ◌<◌, ◌≤◌, ◌∷◌, [], IfOk, MatchOption, OnOk, length, true};
ghost use Rattle.std.specs.List.{position, slice_index_or};
ghost use Rattle.bound.specs.Bounds.{AreApart};
ghost use Rattle.bound.specs.Inside.Checks.{same};
ghost use Rattle.bound.specs.Inside.Searches.{AreOf, IsExplored, IsFoundWhole, IsNew, is_in, targets};
ghost use Rattle.bound.specs.Inside.Searches.{stop_at, with_all, with_site};

use crate::checking::{Row, number_at};
use crate::site::Site;
use crate::turn::{Leg, Turn, Why, turn_at};
use rope::Rope;
use space::Addr12;
use std::alloc::{AllocError, Global};

/// The most words of a routine, each counted for each way to come to it.
const MOST_WORDS: usize = 8192;

/// A way from a word to another, by their numbers.
#[derive(Clone, Copy)]
pub(crate) struct Edge {
    pub(crate) from: usize,
    pub(crate) to: usize,
    pub(crate) cycles: u32,
}

/// The words of a routine, the ways between them, and those back to where it was called.
#[derive(Drop)]
pub(crate) struct Graph {
    pub(crate) sites: Vec<Site>,
    pub(crate) edges: Vec<Edge>,
    pub(crate) backs: Vec<Edge>,
}

/// What was found of a routine.
#[derive(Clone, Copy)]
pub(crate) enum Explored {
    /// All of its words.
    Whole,
    /// At a word it calls a routine of which no bound is known.
    Calls(Site, Site),
    /// At a word it is not told where it leads.
    Stops(Site, Why),
}

impl Graph {
    /// Its first word alone.
    pub(crate) fn of(alloc: Global, routine: &Site) -> Result<Graph, AllocError>
        ensures { IfOk result (λ graph. graph.sites.items ≡ routine.now ∷ []) }
    {
        let mut sites = Vec::new(alloc);
        sites.push(*routine)?;
        Ok(Graph {
            sites,
            edges: Vec::new(alloc),
            backs: Vec::new(alloc),
        })
    }

    /// Adds all words to which ways lead.
    pub(crate) fn explore(
        &mut self,
        rope: &Rope,
        kept: &[Addr12],
        known: &[Row],
        routine: &Site,
    ) -> Result<Explored, AllocError>
        requires are { AreOf rope.now kept.now routine.now self.old.sites.items }
        requires apart { AreApart self.old.sites.items }
        requires first { is_in self.old.sites.items routine.now ≡ true }
        ensures found { IfOk result (λ explored. IsExplored rope.now kept.now routine.now explored) }
        ensures fresh { IfOk result (λ explored. IsNew known.now explored) }
        ensures whole { IfOk result (λ explored. IsFoundWhole rope.now kept.now known.now routine.now explored) }
        ensures all { OnOk result (AreOf rope.now kept.now routine.now self.new.sites.items) }
    {
        for from in 0..MOST_WORDS {
            let Some(site) = self.site(from) else {
                return Ok(Explored::Whole);
            };
            let turn = turn_at(rope, kept, &site);
            if let Some(stop) = stop_at(&site, known, &turn) {
                return Ok(stop);
            }
            self.add_all(from, known, &turn)?;
        }
        match self.site(MOST_WORDS) {
            None => Ok(Explored::Whole),
            Some(_) => Ok(Explored::Stops(*routine, Why::ManyWords)),
        }
    }

    /// The word of a number.
    pub(crate) fn site(&self, number: usize) -> Option<Site>
        ensures { MatchOption result (length self.now.sites.items ≤ number)
            (λ p. (number < length self.now.sites.items) × (p ≡ slice_index_or self.now.sites.items number p)) }
    {
        if number < self.sites.len() {
            Some(self.sites[number])
        } else {
            None
        }
    }

    /// Adds the ways on of an instruction.
    fn add_all(&mut self, from: usize, known: &[Row], turn: &Turn) -> Result<(), AllocError>
        ensures { OnOk result (self.new.sites.items ≡ with_all self.old.sites.items (targets turn.now)) }
    {
        match turn {
            Turn::Back(cycles) => self.add_back(from, u32::from(*cycles)),
            Turn::Through(callee, leg) => self.add(
                from,
                leg,
                number_at(known, callee).unwrap_or(0),
            ),
            Turn::One(leg) => self.add(from, leg, 0),
            Turn::Two(one, other) => {
                self.add(from, one, 0)?;
                self.add(from, other, 0)
            }
            Turn::Four(a, b, c, d) => {
                self.add(from, a, 0)?;
                self.add(from, b, 0)?;
                self.add(from, c, 0)?;
                self.add(from, d, 0)
            }
            Turn::Stop(_) => Ok(()),
        }
    }

    /// Adds a way back.
    fn add_back(&mut self, from: usize, cycles: u32) -> Result<(), AllocError>
        ensures { OnOk result (self.new.sites.items ≡ self.old.sites.items) }
    {
        self.backs.push(Edge {
            from,
            to: from,
            cycles,
        })?;
        Ok(())
    }

    /// Adds a way on, and its word where it is a new one.
    fn add(&mut self, from: usize, leg: &Leg, more: u32) -> Result<(), AllocError>
        ensures { OnOk result (self.new.sites.items ≡ with_site self.old.sites.items leg.now.to) }
    {
        let cycles = u32::from(leg.cycles).saturating_add(more);
        let to = match self.number_of(&leg.to) {
            Some(to) => to,
            None => {
                self.sites.push(leg.to)?;
                self.sites.len() - 1
            }
        };
        self.edges.push(Edge { from, to, cycles })?;
        Ok(())
    }

    /// The number of a word.
    fn number_of(&self, site: &Site) -> Option<usize>
        ensures { result ≡ position (λ p. same p site.now) self.now.sites.items }
    {
        self.sites.iter().position(|other| other.is(site))
    }
}

/// What is found at a word that does not lead on: it is not told where, or it calls a routine of which no bound is
/// known.
fn stop_at(site: &Site, known: &[Row], turn: &Turn) -> Option<Explored>
    ensures { result ≡ stop_at site.now known.now turn.now }
{
    match turn {
        Turn::Stop(why) => Some(Explored::Stops(*site, *why)),
        Turn::Through(callee, _) if number_at(known, callee).is_none() => {
            Some(Explored::Calls(*site, *callee))
        }
        _ => None,
    }
}
