//! The search for loops that are counted by CCS. Each that is found is checked.

use crate::charge::Limit;
use crate::checking::Row;
use crate::counted::{Counted, constant_at, is_counted, names_of};
use crate::graph::Graph;
use crate::site::{Mode, Site};
use crate::turn::at_address;
use rope::Rope;
use space::Addr12;
use std::alloc::{AllocError, Global};

/// The loops of a routine that are counted by CCS, and whose heads stand at no place of a limit.
pub(crate) fn loops_in(
    alloc: Global,
    rope: &Rope,
    kept: &[Addr12],
    limits: &[Limit],
    graph: &Graph,
    routine: &Site,
) -> Result<Vec<Counted>, AllocError> {
    let mut rows = Vec::new(alloc);
    for site in graph.sites.as_slice() {
        rows.push(Row {
            site: *site,
            number: 0,
        })?;
    }
    let mut loops = Vec::new(alloc);
    for site in graph.sites.as_slice() {
        if let Some(counted) = candidate(rope, limits, site) {
            let is_new = !has_loop(loops.as_slice(), &counted);
            if is_new && is_counted(rope, kept, rows.as_slice(), routine, &counted) {
                loops.push(counted)?;
            }
        }
    }
    Ok(loops)
}

/// The loop whose last word may stand at a site, unless its head stands at the place of a limit.
fn candidate(rope: &Rope, limits: &[Limit], last: &Site) -> Option<Counted> {
    let head = place_named(last, names_of(rope, last, b"TCF")?)?;
    let cell = names_of(rope, &head, b"TS")?;
    let entry = place_named(
        last,
        Addr12::of_low_bits(head.address.number().wrapping_sub(1)),
    )?;
    let from = constant_at(rope, &entry)?;
    if head.bank.number() != last.bank.number() || limits.iter().any(|limit| limit.has(&head)) {
        return None;
    }
    Some(Counted {
        bank: last.bank,
        head: head.address,
        last: last.address,
        cell,
        from,
    })
}

/// The word at an address, where nothing waits.
fn place_named(from: &Site, address: Addr12) -> Option<Site> {
    at_address(from, address, Mode::entry(from.mode.banked))
}

/// Whether a loop is among some.
fn has_loop(loops: &[Counted], counted: &Counted) -> bool {
    loops.iter().any(|other| {
        other.bank.number() == counted.bank.number() && other.head.number() == counted.head.number()
    })
}
