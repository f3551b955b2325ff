//! The search for numbers that have room for all ways. What is found here is not relied upon: it is checked afterwards.

use crate::charge::Limit;
use crate::checking::Row;
use crate::counted::Counted;
use crate::graph::{Edge, Graph};
use crate::site::Site;
use std::alloc::{AllocError, Global};

/// What is added to each number of cycles that a word has, so that none is below 0.
pub(crate) const BASE: u32 = 0x4000_0000;

/// What was found of a routine's words: numbers for them and what it costs to come to each limit and to the head of
/// each counted loop, or a word of a loop without a bound.
#[derive(Drop)]
pub(crate) enum Numbered {
    /// Numbers, and costs of limits and of counted loops.
    All(Vec<Row>, Vec<u32>, Vec<u32>),
    /// The number of a word of a loop, and the words of the loop.
    Loops(usize, Vec<Site>),
}

/// The numbers of words while they grow, and for each the word that its way leads to.
#[derive(Drop)]
struct Numbers {
    values: Vec<u32>,
    best: Vec<usize>,
    // Whose numbers stay.
    fixed: Vec<bool>,
    // What it costs to come to each.
    costs: Vec<u32>,
    // What it costs to enter counted loops at each.
    spends: Vec<u32>,
}

/// A place to which a way comes only so often: that of a limit, or the head of a counted loop.
#[derive(Clone, Copy)]
enum Head {
    Limit(Limit),
    Loop(Counted),
}

impl Head {
    /// Whether a word stands there.
    fn has(&self, site: &Site) -> bool {
        match self {
            Head::Limit(limit) => limit.has(site),
            Head::Loop(counted) => counted.is_head(site),
        }
    }

    /// What it costs to enter its loop at a word, where it costs so much to come to it.
    fn spend(&self, weight: u32, site: &Site) -> u32 {
        match self {
            Head::Loop(counted) if counted.is_entry(site) => {
                weight.saturating_mul(u32::from(counted.from) + 1)
            }
            _ => 0,
        }
    }
}

/// Finds numbers for the words of a routine, and costs of limits and counted loops, those of inner loops first.
pub(crate) fn number(
    alloc: Global,
    graph: &Graph,
    limits: &[Limit],
    loops: &[Counted],
) -> Result<Numbered, AllocError> {
    let heads = heads_of(alloc, limits, loops)?;
    let heads = heads.as_slice();
    let mut weights = Vec::new(alloc);
    let mut done = Vec::new(alloc);
    for _ in heads {
        weights.push(0)?;
        done.push(false)?;
    }
    for _ in heads {
        if let Some(head) = next_head(heads, done.as_slice()) {
            let mut numbers = numbers_to(
                alloc,
                graph,
                heads,
                weights.as_slice(),
                done.as_slice(),
                head,
            )?;
            if let Some(at) = settle(graph, &mut numbers) {
                return loop_at(alloc, graph, &numbers, at);
            }
            let weight = longest_round(graph, heads, head, &numbers);
            if head < weights.len() && head < done.len() {
                weights[head] = weight;
                done[head] = true;
            }
        }
    }
    number_all(alloc, graph, heads, weights.as_slice(), limits.len())
}

/// The places of limits, and then the heads of counted loops.
fn heads_of(alloc: Global, limits: &[Limit], loops: &[Counted]) -> Result<Vec<Head>, AllocError> {
    let mut heads = Vec::new(alloc);
    for limit in limits {
        heads.push(Head::Limit(*limit))?;
    }
    for counted in loops {
        heads.push(Head::Loop(*counted))?;
    }
    Ok(heads)
}

/// Finds the numbers of all words, where costs are found, of which the first are those of limits.
fn number_all(
    alloc: Global,
    graph: &Graph,
    heads: &[Head],
    weights: &[u32],
    limits: usize,
) -> Result<Numbered, AllocError> {
    let mut numbers = numbers_back(alloc, graph, heads, weights)?;
    if let Some(at) = settle(graph, &mut numbers) {
        return loop_at(alloc, graph, &numbers, at);
    }
    if let Some(at) = endless(graph, &mut numbers) {
        return loop_at(alloc, graph, &numbers, at);
    }
    let mut rows = Vec::new(alloc);
    for (number, site) in graph.sites.as_slice().iter().enumerate() {
        let value = value_of(numbers.values.as_slice(), number);
        rows.push(Row {
            site: *site,
            number: value,
        })?;
    }
    let mut costs = Vec::new(alloc);
    let mut gains = Vec::new(alloc);
    for (number, weight) in weights.iter().enumerate() {
        if number < limits {
            costs.push(*weight)?;
        } else {
            gains.push(*weight)?;
        }
    }
    Ok(Numbered::All(rows, costs, gains))
}

/// The place of the innermost loop of those that are left.
fn next_head(heads: &[Head], done: &[bool]) -> Option<usize> {
    let mut found = None;
    let mut least = 0;
    for (number, head) in heads.iter().enumerate() {
        let rank = rank_of(heads, head);
        let is_left = number < done.len() && !done[number];
        if is_left && (found.is_none() || rank < least) {
            found = Some(number);
            least = rank;
        }
    }
    found
}

/// Where a place stands in the order of loops, inner ones first: counted loops by their words; a limit is taken to be
/// of a loop within the counted loop in which it stands, and of limits that which allows more as the inner one.
fn rank_of(heads: &[Head], head: &Head) -> u64 {
    match head {
        Head::Loop(counted) => u64::from(counted.span()) * 0x2_0000_0000 + 0x1_0000_0000,
        Head::Limit(limit) => {
            u64::from(span_around(heads, limit)) * 0x2_0000_0000
                + u64::from(u32::MAX.saturating_sub(limit.most))
        }
    }
}

/// The words of the smallest counted loop in which the place of a limit stands.
fn span_around(heads: &[Head], limit: &Limit) -> u16 {
    let mut span = u16::MAX;
    for head in heads {
        if let Head::Loop(counted) = head {
            if counted.has_place(limit) && counted.span() < span {
                span = counted.span();
            }
        }
    }
    span
}

/// The place at which a word stands.
fn head_of(heads: &[Head], site: &Site) -> Option<usize> {
    for (number, head) in heads.iter().enumerate() {
        if head.has(site) {
            return Some(number);
        }
    }
    None
}

/// What it costs to enter counted loops at a word.
fn spend_of(heads: &[Head], weights: &[u32], site: &Site) -> u32 {
    let mut sum: u32 = 0;
    for (number, head) in heads.iter().enumerate() {
        sum = sum.saturating_add(head.spend(value_of(weights, number), site));
    }
    sum
}

/// Numbers of which those at a limit's place alone are known: the cycles to there are looked for, by way of no place of
/// a limit that is left.
fn numbers_to(
    alloc: Global,
    graph: &Graph,
    heads: &[Head],
    weights: &[u32],
    done: &[bool],
    head: usize,
) -> Result<Numbers, AllocError> {
    let mut numbers = Numbers::none(alloc);
    for site in graph.sites.as_slice() {
        let other = head_of(heads, site);
        let is_target = other == Some(head);
        let is_left = match other {
            Some(other) => other < done.len() && !done[other],
            None => false,
        };
        let value = if is_target { BASE } else { 0 };
        let spend = spend_of(heads, weights, site);
        numbers.add(value, is_left, cost_of(weights, other), spend)?;
    }
    Ok(numbers)
}

/// Numbers of which none is known but those of words that lead back.
fn numbers_back(
    alloc: Global,
    graph: &Graph,
    heads: &[Head],
    weights: &[u32],
) -> Result<Numbers, AllocError> {
    let mut numbers = Numbers::none(alloc);
    for site in graph.sites.as_slice() {
        let spend = spend_of(heads, weights, site);
        numbers.add(0, false, cost_of(weights, head_of(heads, site)), spend)?;
    }
    for edge in graph.backs.as_slice() {
        let cost = value_of(numbers.costs.as_slice(), edge.from);
        let spend = value_of(numbers.spends.as_slice(), edge.from);
        if edge.from < numbers.values.len() {
            numbers.values[edge.from] = BASE
                .saturating_add(edge.cycles)
                .saturating_add(spend)
                .saturating_sub(cost);
        }
    }
    Ok(numbers)
}

impl Numbers {
    /// None.
    fn none(alloc: Global) -> Numbers {
        Numbers {
            values: Vec::new(alloc),
            best: Vec::new(alloc),
            fixed: Vec::new(alloc),
            costs: Vec::new(alloc),
            spends: Vec::new(alloc),
        }
    }

    /// One word more.
    fn add(&mut self, value: u32, is_fixed: bool, cost: u32, spend: u32) -> Result<(), AllocError> {
        self.values.push(value)?;
        self.best.push(0)?;
        self.fixed.push(is_fixed)?;
        self.costs.push(cost)?;
        self.spends.push(spend)?;
        Ok(())
    }

    /// Lets the number of a word grow to what a way on asks for. Answers whether it did.
    fn grow(&mut self, edge: &Edge) -> bool {
        let ahead = value_of(self.values.as_slice(), edge.to);
        let from = edge.from;
        if ahead == 0 || is_fixed(self.fixed.as_slice(), from) {
            return false;
        }
        let cost = value_of(self.costs.as_slice(), from);
        let spend = value_of(self.spends.as_slice(), from);
        let value = ahead
            .saturating_add(edge.cycles)
            .saturating_add(spend)
            .saturating_sub(cost);
        if from < self.values.len() && from < self.best.len() && value > self.values[from] {
            self.values[from] = value;
            self.best[from] = edge.to;
            true
        } else {
            false
        }
    }
}

/// Lets numbers grow until they stay. Answers the number of a word of a loop where they never do.
fn settle(graph: &Graph, numbers: &mut Numbers) -> Option<usize> {
    for _ in 0..graph.sites.len() {
        if grown(graph, numbers).is_none() {
            return None;
        }
    }
    let from = grown(graph, numbers)?;
    Some(looping(graph, numbers.best.as_slice(), from))
}

/// The number of a word of a loop from which no way leads back, if there is one. Words without a number have an edge of
/// theirs as their way.
fn endless(graph: &Graph, numbers: &mut Numbers) -> Option<usize> {
    let mut found = None;
    for edge in graph.edges.as_slice() {
        let from = edge.from;
        if from < numbers.best.len() && value_of(numbers.values.as_slice(), from) == 0 {
            numbers.best[from] = edge.to;
            found = Some(from);
        }
    }
    Some(looping(graph, numbers.best.as_slice(), found?))
}

/// Lets each number grow once. Answers a word whose number did.
fn grown(graph: &Graph, numbers: &mut Numbers) -> Option<usize> {
    let mut grown = None;
    for edge in graph.edges.as_slice().iter().rev() {
        if numbers.grow(edge) {
            grown = Some(edge.from);
        }
    }
    grown
}

/// The number of a word of the loop to which the ways of growing numbers lead.
fn looping(graph: &Graph, best: &[usize], from: usize) -> usize {
    let mut at = from;
    for _ in 0..graph.sites.len() {
        at = next_of(best, at);
    }
    at
}

/// The word to which the way of a word leads.
fn next_of(best: &[usize], at: usize) -> usize {
    if at < best.len() { best[at] } else { at }
}

/// The loop in which a word stands.
fn loop_at(
    alloc: Global,
    graph: &Graph,
    numbers: &Numbers,
    first: usize,
) -> Result<Numbered, AllocError> {
    let mut words = Vec::new(alloc);
    let mut at = first;
    for _ in 0..graph.sites.len() {
        if let Some(site) = graph.site(at) {
            words.push(site)?;
        }
        at = next_of(numbers.best.as_slice(), at);
        if at == first {
            break;
        }
    }
    Ok(Numbered::Loops(first, words))
}

/// The cycles of the longest round from a limit's place to itself.
fn longest_round(graph: &Graph, heads: &[Head], head: usize, numbers: &Numbers) -> u32 {
    let mut longest = 0;
    for edge in graph.edges.as_slice() {
        let ahead = value_of(numbers.values.as_slice(), edge.to);
        let round = ahead.saturating_add(edge.cycles).saturating_sub(BASE);
        if is_at(graph, heads, edge.from, head) && ahead != 0 && round > longest {
            longest = round;
        }
    }
    longest
}

/// Whether a word stands at a limit's place.
fn is_at(graph: &Graph, heads: &[Head], number: usize, head: usize) -> bool {
    match graph.sites.get(number) {
        Some(site) => head_of(heads, site) == Some(head),
        None => false,
    }
}

/// What it costs to come to a limit's place.
fn cost_of(weights: &[u32], head: Option<usize>) -> u32 {
    match head {
        Some(head) => value_of(weights, head),
        None => 0,
    }
}

/// One of some numbers.
fn value_of(values: &[u32], number: usize) -> u32 {
    if number < values.len() {
        values[number]
    } else {
        0
    }
}

/// Whether the number of a word stays.
fn is_fixed(fixed: &[bool], number: usize) -> bool {
    number < fixed.len() && fixed[number]
}
