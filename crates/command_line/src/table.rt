//! The table of the subcommands, in the order of the help.

use crate::rope_rows::{align, compare, damages, find, parity, sums, upgrade, words};
use crate::row::Subcommand;
use crate::run_rows::{access, bound, cover, debug, delays, differ, reach, run, trace, whatif};
use crate::source_rows::{asm, check, expect, explain};

/// The subcommands.
pub fn subcommands() -> [Subcommand; 22] {
    [
        asm(),
        run(),
        trace(),
        cover(),
        reach(),
        bound(),
        access(),
        delays(),
        whatif(),
        differ(),
        debug(),
        check(),
        expect(),
        explain(),
        upgrade(),
        words(),
        compare(),
        align(),
        find(),
        sums(),
        parity(),
        damages(),
    ]
}
