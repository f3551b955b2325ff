//! What a call is. The law is the contract of a call that does nothing.

ghost use Rattle.cpu.specs.State.{Scenario, State};
ghost use Rattle.calls.specs.Calling.{EntersByCalling};

/// A step enters a routine exactly where it executes TC that stands in fixed memory and leads to another place there;
/// the routine returns to the place after it.
pub fn routine_is_called()
    ensures { (scenario : Scenario) (s : State) → EntersByCalling scenario s }
{}
