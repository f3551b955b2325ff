//! Laws of sessions. Each is the contract of a call that does nothing.

ghost use Rattle.std.specs.Prelude.{◌≡◌, ◌+◌, ◌-◌, ◌≤◌, ℕ, Bool, List, Option};
ghost use Rattle.cpu.specs.State.{Scenario};
ghost use Rattle.symbols.specs.Values.{SymbolTable};
ghost use Rattle.yayul.specs.Program.{Source};
ghost use Rattle.cpu.specs.declared.spot.Spot.{Spot};
ghost use Rattle.commands.specs.declared.extended.LinkLines.{LinkLines};
ghost use Rattle.commands.specs.declared.subject.Subject.{Subject};
ghost use Rattle.debugger.specs.declared.manner.Manner.{Manner};
ghost use Rattle.debugger.specs.Calling.{RoutinesAreInProgress, RoutinesInsideAreInProgress};
ghost use Rattle.debugger.specs.Moved.{IndexIsTold};
ghost use Rattle.debugger.specs.OriginsTold.{StandsAsTold};
ghost use Rattle.debugger.specs.OutputsOnce.{OutputsAreToldOnce};
ghost use Rattle.debugger.specs.ReadBack.{NoneAtFirst, SessionReadsBack};
ghost use Rattle.debugger.specs.Serving.{EntryIsTold};
ghost use Rattle.debugger.specs.SteppedTail.{HaveTheirSteps};
ghost use Rattle.debugger.specs.Surveys.{bucket_lines, width_of};
ghost use Rattle.debugger.specs.ValueTold.{ValueIsTold};
ghost use Rattle.debugger.specs.WhyEnds.{WhyEnds};
ghost use Rattle.debugger.specs.Whys.{why_text};
ghost use Rattle.debugger.specs.WhysSince.{since_text};

/// Whatever an extended session was asked before, what `inputs` replies is a feed: its lines give the inputs that were
/// added, in order, and no others.
pub fn inputs_read_back()
    ensures none_at_first { (scenario : Scenario) → NoneAtFirst scenario }
    ensures reads_back { (symbols : SymbolTable) (source : Source) (scenario : Scenario) (answers : List Bool)
        (additions : List (Option ℕ)) (lines : List (List ℕ)) →
        SessionReadsBack symbols source scenario answers additions lines }
{}

/// The step that `why` tells as the INDEX of an instruction is one, the last instruction before it: what it read waited
/// from then on, while inputs alone came, and moved the operand.
pub fn index_is_told()
    ensures { (scenario : Scenario) (t sum : ℕ) → IndexIsTold scenario t sum }
{}

/// A session tells each output once while it makes steps, or counts it once while `quiet` is on, in order, however one
/// goes back and forth; what else it replies is what it would reply where no step puts out.
pub fn outputs_are_told_once()
    ensures { (manner : Manner) (symbols : SymbolTable) (source : Source) (scenario : Scenario) (answers : List Bool)
        (additions : List (Option ℕ)) (lines : List (List ℕ)) →
        OutputsAreToldOnce manner symbols source scenario answers additions lines }
{}

/// What `tail` with steps tells of are the outputs of the steps that were made, in order, each with the step that put
/// it out.
pub fn outputs_have_their_steps()
    ensures { (scenario : Scenario) (n : ℕ) → HaveTheirSteps scenario n }
{}

/// The step that a mark and `where` tell as the one that entered the interrupt has entered it, and it is served ever
/// since.
pub fn entry_is_told()
    ensures { (symbols : SymbolTable) (scenario : Scenario) (p : ℕ) → EntryIsTold symbols scenario p }
{}

/// `why` with `interrupts` tells each step of the chain where `why` tells it by IN STEP.
pub fn levels_are_told()
    ensures { (scenario : Scenario) (t u : ℕ) → StandsAsTold scenario t u }
{}

/// How `why` ends says what is so: where fewer steps are told than were asked for, no step before them wrote what is
/// left, which holds what it held at the start.
pub fn why_ends()
    ensures { (symbols : SymbolTable) (scenario : Scenario) (lines : LinkLines) (k p : ℕ) (xs : List Spot)
        → WhyEnds symbols scenario lines k p xs }
{}

/// `why` since step 1, or since 0, is `why`: what it tells, and how it ends.
pub fn since_start_is_why()
    ensures { (symbols : SymbolTable) (scenario : Scenario) (lines : LinkLines) (since k p : ℕ) (xs : List Spot)
        → since ≤ 1 →
        since_text symbols scenario lines since k p xs ≡ why_text symbols scenario lines k p xs }
{}

/// The buckets of a survey leave no step out: with any more of them nothing more would be told.
pub fn surveys_leave_no_step_out()
    ensures { (scenario : Scenario) (subjects : List Subject) (from last buckets more : ℕ) → 1 ≤ buckets →
        bucket_lines scenario subjects (width_of (last - from) buckets) last (buckets + more) 0 from
        ≡ bucket_lines scenario subjects (width_of (last - from) buckets) last buckets 0 from }
{}

/// Each routine that is told to be in progress was entered by the step and from the place that are told, while no
/// interrupt was served, one after another, and has not returned since.
pub fn routines_are_in_progress()
    ensures { (scenario : Scenario) (p : ℕ) → RoutinesAreInProgress scenario p }
{}

/// The same of those that the interrupt made which is served: it was when each was entered, and has been ever since.
pub fn routines_inside_are_in_progress()
    ensures { (scenario : Scenario) (p : ℕ) → RoutinesInsideAreInProgress scenario p }
{}

/// What `value` tells of a word is its value: the fraction exactly, in 14 decimals.
pub fn value_is_told()
    ensures { (w : ℕ) → ValueIsTold w }
{}
