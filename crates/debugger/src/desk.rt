//! The desk of a session: the session, what replies are told by, and where the debugger stands.

ghost use Rattle.std.specs.Prelude.{◌≡◌, ◌≤◌};
ghost use Rattle.cpu.specs.Run.{outs};
ghost use Rattle.debugger.specs.Tallies.{tally_of};

use crate::inputs::first_added;
use crate::tail::Tail;
use commands::Breakpoints;
use replay::{Keeper, Session};
use symbols::Symbols;
use yayul::SourceRows;

/// A session with the symbols and the rows of its source, the line from which on inputs stand that were added, the step
/// that is looked at, the breakpoints, whether the outputs of new steps are counted in place of being told, and the
/// last outputs.
#[derive(Drop)]
pub(crate) struct Desk<'a, K: Keeper> {
    pub(crate) session: &'a mut Session<K>,
    pub(crate) symbols: &'a Symbols,
    pub(crate) rows: &'a SourceRows,
    pub(crate) first_added: u128,
    pub(crate) position: u64,
    pub(crate) breakpoints: Breakpoints,
    pub(crate) quiet: bool,
    pub(crate) tail: &'a mut Tail,
    ghost within: { position ≤ session.now.n },
    ghost kept: { tail.now ≡ tally_of (outs session.now.scenario session.now.n) },
}

impl<'a, K: Keeper> Desk<'a, K> {
    ghost use Rattle.std.specs.Prelude.{[], false};
    ghost use Rattle.debugger.specs.Terms.{first_added};

    /// The desk of a session that has made no step, over a tail of no output.
    pub(crate) fn new(
        session: &'a mut Session<K>,
        symbols: &'a Symbols,
        rows: &'a SourceRows,
        tail: &'a mut Tail,
    ) -> Desk<'a, K>
        requires start { session.old.n ≡ 0 }
        requires empty { tail.old ≡ tally_of [] }
        ensures session { result.session.now ≡ session.old }
        ensures lent { result.session.ghost_name ≡ session.entry.ghost_name }
        ensures symbols { result.symbols.now ≡ symbols.now }
        ensures rows { result.rows.now ≡ rows.now }
        ensures first { result.first_added ≡ first_added session.old.scenario }
        ensures position { result.position ≡ 0 }
        ensures breakpoints { result.breakpoints ≡ [] }
        ensures quiet { result.quiet ≡ false }
    {
        let first_added = first_added(session);
        Desk {
            session,
            symbols,
            rows,
            first_added,
            position: 0,
            breakpoints: Breakpoints::new(),
            quiet: false,
            tail,
        }
    }
}
