//! What a person at a terminal is told besides, on standard error: programs at the other end of a pipe read the lines
//! alone.

use std::io::IsTerminal;
use words::{Std, write_all};
use workshop::{Summary, WorkshopFault, write_end};

/// What tells more of a fault of a source or a feed.
const TELLS_FAULTS: &[u8] =
    b"agcws check SRC FEED tells in words what is wrong, and how it is mended.\n";

/// What tells more of any other fault.
const TELLS_NUMBERS: &[u8] = b"agcws explain and the number tell what it means.\n";

/// What is said of a run before the line that tells how it has ended.
const ALL_STEPS: &[u8] = b"All N steps are made. A larger N goes on from here:\n";

/// Tells what tells more of a fault.
pub fn tell_more(rt: &HostRuntime, fault: &WorkshopFault) -> Result<(), WorkshopFault> {
    let stderr = rt.stderr();
    if stderr.is_terminal() {
        let hint = match fault {
            WorkshopFault::Source(_) | WorkshopFault::Feed(_) => TELLS_FAULTS,
            _ => TELLS_NUMBERS,
        };
        write_all(&mut Std::new(stderr), hint)?;
    }
    Ok(())
}

/// Tells that a run was cut off by its number of steps, and where.
pub fn tell_reached(rt: &HostRuntime, summary: &Summary) -> Result<(), WorkshopFault> {
    let stderr = rt.stderr();
    if stderr.is_terminal() {
        let mut stderr = Std::new(stderr);
        write_all(&mut stderr, ALL_STEPS)?;
        write_end(summary, &mut stderr)?;
    }
    Ok(())
}
