//! The computer: its state, its instructions, its inputs, and one step.
#![tactic(auto)]

mod account;
mod address;
mod bits;
mod burst;
mod cell_set;
mod channel_lines;
mod channels;
mod disassembly;
mod dispatch;
mod execute;
mod flows;
mod inputs;
mod instruction;
mod instructions;
pub mod laws;
pub mod link_laws;
mod machine;
mod next_step;
mod operand;
mod output;
mod plain;
mod processor;
mod reads;
mod restart;
mod sinks;
mod source;
mod spot;
mod stepping;

pub use account::Account;
pub use cell_set::CellSet;
pub use channel_lines::{channel_line, write_channel_line};
pub use disassembly::{disassemble, extracode_after};
pub use feed::{AddFault, Input};
pub use instruction::Instruction;
pub use machine::Machine;
pub use next_step::{Fetched, NextStep};
pub use operand::{instruction_name, named_address};
pub use output::Output;
pub use processor::Processor;
pub use spot::{Cell, Spot};
pub use stepping::make_step;
