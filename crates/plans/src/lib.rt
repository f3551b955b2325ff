//! What is to be done where a command line gives some arguments: with which files, in which forms, in which language,
//! by which engine.
#![tactic(auto)]

mod making;
mod plan;
mod steps;

pub use making::planned;
pub use plan::{
    Accesses, Assembly, Check, Image, Kind, Listed, Original, Pair, Plan, Profile, Program,
    Reachable, Reaching, Routine, Run, Shown, Tests, Timed, Tracing, Trials, Verdicts, Words,
};
pub use steps::Steps;
