//! The law of assumptions. It is the contract of a call that does nothing.

ghost use Rattle.assumed.specs.Sources.{StaysWithoutAssumptions};

/// Without assumptions a source is assembled as it stands.
pub fn stays_without_assumptions(source: &[u8])
    ensures { StaysWithoutAssumptions source.now }
{
    let _source = source;
}
