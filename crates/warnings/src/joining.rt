//! Two lists of warnings as one.

ghost use Rattle.std.specs.Prelude.{◌≡◌, ◌≤◌, ◌++◌, length, IfOk, OnOk};
ghost use Rattle.warnings.specs.Joined.{count_before, joined};

use crate::told::Warning;
use std::alloc::{AllocError, Global};

/// Two lists of warnings, each in the order of lines, in that order; of one line those of the first list come first.
pub fn joined(
    alloc: Global,
    warnings: &[Warning],
    others: &[Warning],
) -> Result<Vec<Warning>, AllocError>
    ensures { IfOk result (λ all. all.items ≡ joined warnings.now others.now) }
{
    let mut all = Vec::new(alloc);
    let mut rest = others;
    for warning in warnings {
        let (earlier, later) = rest.split_at(count_before(warning.line, rest));
        push_all(&mut all, earlier)?;
        all.push(*warning)?;
        rest = later;
    }
    push_all(&mut all, rest)?;
    Ok(all)
}

/// How many of some warnings in order stand before a line.
pub fn count_before(line: u32, warnings: &[Warning]) -> usize
    ensures value { result ≡ count_before line warnings.now }
    ensures within { result ≤ length warnings.now }
{
    for (index, warning) in warnings.iter().enumerate() {
        if line <= warning.line {
            return index;
        }
    }
    warnings.len()
}

// Appends some warnings.
fn push_all(all: &mut Vec<Warning>, warnings: &[Warning]) -> Result<(), AllocError>
    ensures { OnOk result (all.new.items ≡ all.old.items ++ warnings.now) }
{
    all.extend_from_slice(warnings)?;
    Ok(())
}
