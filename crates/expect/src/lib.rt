//! What a program must do, stated as a text of tests, and whether a run does it.
#![tactic(auto)]

mod calls;
mod channel;
mod claim;
mod condition;
mod fields;
mod heading;
mod judging;
mod kinds;
mod known;
mod line;
mod notes;
mod reading;
mod refusal;
mod statement;
mod verdict;
mod watch;

pub use claim::{Allowed, Claim, Condition, Relation, Sought, Spot, Stated};
pub use heading::{Expectation, expectation_in};
pub use judging::{judge, settle};
pub use known::{Known, ask_for_check, ask_for_instructions, ask_for_notes};
pub use reading::claims_in;
pub use refusal::{Asked, ExpectFault, Refusal, Wrong};
pub use verdict::{are_all_met, write_verdicts};
pub use watch::{Call, Failure, Watch};
