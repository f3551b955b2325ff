//! Laws of how a state came about. Each is the contract of a call that does nothing.

ghost use Rattle.std.specs.Prelude.{ℕ, List};
ghost use Rattle.cpu.specs.declared.spot.Spot.{Spot};
ghost use Rattle.cpu.specs.Links.{Link};
ghost use Rattle.cpu.specs.Dependence.{DependsOnSources, LeavesRest, ControlFixesLink, DependsOnOrigins};
ghost use Rattle.cpu.specs.Beside.{SumDependsOnSources, WordDependsOnSources, OutputDependsOnSources};
ghost use Rattle.cpu.specs.Beside.{FlagsDependOnLink, ControlFixesFlags, RequestsDependOnSources, ControlFixesRequests};
ghost use Rattle.cpu.specs.Chains.{ChainExplains, ChainFixes, WritesAmong};
ghost use Rattle.cpu.specs.declared.account.Account.{Account};
ghost use Rattle.cpu.specs.Profiles.{ProfileAddsUp};

use crate::machine::Machine;
use crate::processor::Processor;

/// What a step writes in a cell depends on the link and on what stands at the cell's sources, and on nothing else.
#[tactic(auto, using(crate::proofs::Linking::depends_on_sources))]
pub fn step_depends_on_sources(
    processor: &Processor,
    machine: &Machine,
    other_processor: &Processor,
    other: &Machine,
)
    ensures { (x : Spot) → DependsOnSources processor.now.scenario machine.now other_processor.now.scenario other.now
        x }
{
    let _processor = processor;
    let _machine = machine;
    let _other_processor = other_processor;
    let _other = other;
}

/// The sum that waits after an instruction depends on the link and on its sources, and on nothing else; so an index has
/// a source.
#[tactic(auto, using(crate::proofs::LeavingBeside::sum_depends_on_sources))]
pub fn sum_depends_on_sources(
    processor: &Processor,
    machine: &Machine,
    other_processor: &Processor,
    other: &Machine,
)
    ensures { SumDependsOnSources processor.now.scenario machine.now other_processor.now.scenario other.now }
{
    let _processor = processor;
    let _machine = machine;
    let _other_processor = other_processor;
    let _other = other;
}

/// The word that waits after an instruction depends on the link and on its sources, and on nothing else.
#[tactic(auto, using(crate::proofs::LeavingBeside::word_depends_on_sources))]
pub fn word_depends_on_sources(
    processor: &Processor,
    machine: &Machine,
    other_processor: &Processor,
    other: &Machine,
)
    ensures { WordDependsOnSources processor.now.scenario machine.now other_processor.now.scenario other.now }
{
    let _processor = processor;
    let _machine = machine;
    let _other_processor = other_processor;
    let _other = other;
}

/// What a step puts out depends on the link, on its sources and on the cycles before, and on nothing else.
#[tactic(auto, using(crate::proofs::LeavingBeside::output_depends_on_sources))]
pub fn output_depends_on_sources(
    processor: &Processor,
    machine: &Machine,
    other_processor: &Processor,
    other: &Machine,
)
    ensures { OutputDependsOnSources processor.now.scenario machine.now other_processor.now.scenario other.now }
{
    let _processor = processor;
    let _machine = machine;
    let _other_processor = other_processor;
    let _other = other;
}

/// The flags after a step depend on the link and on the flags before, and on nothing else; so what controls fixes them.
#[tactic(auto, using(crate::proofs::LeavingFlags::flags_by))]
pub fn flags_depend_on_link(
    processor: &Processor,
    machine: &Machine,
    other_processor: &Processor,
    other: &Machine,
)
    ensures by_link { FlagsDependOnLink processor.now.scenario machine.now other_processor.now.scenario other.now }
    ensures by_control { ControlFixesFlags processor.now.scenario machine.now other_processor.now.scenario other.now }
{
    let _processor = processor;
    let _machine = machine;
    let _other_processor = other_processor;
    let _other = other;
}

/// The interrupts asked for after a step depend on the link, on its sources and on those asked for before, and on
/// nothing else; so what controls fixes them, with the word of a counter that asks by it.
#[tactic(auto, using(crate::proofs::LeavingFlags::requests_by))]
pub fn requests_depend_on_sources(
    processor: &Processor,
    machine: &Machine,
    other_processor: &Processor,
    other: &Machine,
)
    ensures by_link { RequestsDependOnSources processor.now.scenario machine.now other_processor.now.scenario
        other.now }
    ensures by_control { ControlFixesRequests processor.now.scenario machine.now other_processor.now.scenario
        other.now }
{
    let _processor = processor;
    let _machine = machine;
    let _other_processor = other_processor;
    let _other = other;
}

/// A cell that a step does not write holds what it held.
#[tactic(auto, using(crate::proofs::Leaving::leaves_rest))]
pub fn step_leaves_rest(processor: &Processor, machine: &Machine)
    ensures { (c : ℕ) → LeavesRest processor.now.scenario machine.now c }
{
    let _processor = processor;
    let _machine = machine;
}

/// The link is fixed by what controls.
#[tactic(auto, using(crate::proofs::Linking::control_fixes_link))]
pub fn control_fixes_link(
    processor: &Processor,
    machine: &Machine,
    other_processor: &Processor,
    other: &Machine,
)
    ensures { ControlFixesLink processor.now.scenario machine.now other_processor.now.scenario other.now }
{
    let _processor = processor;
    let _machine = machine;
    let _other_processor = other_processor;
    let _other = other;
}

/// What stands at spots after steps depends on the links up to there and on the origins, and on nothing else.
#[tactic(auto, using(crate::proofs::Linking::depends_on_origins))]
pub fn run_depends_on_origins(processor: &Processor, other: &Processor)
    ensures { (m n k : ℕ) (xs : List Spot) → DependsOnOrigins processor.now.scenario m other.now.scenario n k xs }
{
    let _processor = processor;
    let _other = other;
}

/// What stands at spots after steps depends on the links since the end of a chain and on its origins, and on nothing
/// else.
pub fn run_chain_explains(processor: &Processor)
    ensures { (p : ℕ) (xs : List Spot) (ts : List ℕ) → ChainExplains processor.now.scenario p xs ts }
{
    let _processor = processor;
}

/// What stands at spots depends on the links of a chain and on its origins, and on nothing else, whatever goes on
/// between.
pub fn chain_fixes(processor: &Processor, other: &Processor)
    ensures { (p n : ℕ) (ts us : List ℕ) (xs : List Spot)
        → ChainFixes processor.now.scenario p ts other.now.scenario n us xs }
{
    let _processor = processor;
    let _other = other;
}

/// A step writes at one of some spots where it writes one of the cells among them: a set of cells does for a list of
/// spots.
#[tactic(auto, using(crate::proofs::CellSets::writes_among))]
pub fn step_writes_among(processor: &Processor)
    ensures { (link : Link) (xs : List Spot) → WritesAmong link xs }
{
    let _processor = processor;
}

/// The cycles of all accounts add up to the run's, and their counts to its steps.
pub fn profile_adds_up(processor: &Processor)
    ensures { (n : ℕ) (accounts : List Account) → ProfileAddsUp processor.now.scenario n accounts }
{
    let _processor = processor;
}
