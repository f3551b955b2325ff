//! A session over a run of the computer: it goes forward, and shows each earlier step.
//!
//! For every source that assembles, timed input list and list of session calls, the present machine and channel output
//! are the reference run's after n steps; at most 2·floor(log2(n+1))+2 machine images of fixed size are held; every
//! earlier step t is shown as the reference run has it, executing fewer than n-t steps again; and a call refused for
//! memory changes nothing.
//!
//! This is the contract of [`follow`], which makes any list of calls of a [`Session`], tells the answer of each to an
//! [`Observer`], and cites the definition `TimeTravel` of `specs/Calls.antt`. Each call has the same in a contract of
//! its own. The images stand in a [`Keeper`]: in slots that are all made at once ([`SlotKeeper`]), or in a vector that
//! grows
//! ([`VecKeeper`]).
#![tactic(auto)]

mod calls;
mod keeper;
pub mod laws;
mod looking;
mod refusal;
mod restoring;
mod retracing;
mod searching;
mod session;
mod settling;
mod showing;
mod slot_keeper;
mod stop;
mod testing;
mod thinning;
mod travelling;
mod vec_keeper;
mod watching;

pub use calls::{Call, Observer, follow};
pub use keeper::Keeper;
pub use looking::Onlooker;
pub use refusal::Refusal;
pub use retracing::StepWriter;
pub use session::{STEP_LIMIT, Session};
pub use slot_keeper::SlotKeeper;
pub use stop::Stop;
pub use testing::StepTest;
pub use vec_keeper::VecKeeper;
pub use watching::{Stepper, Watcher};
