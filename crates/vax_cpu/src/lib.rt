//! The processor: attempts at instructions, over any port.
#![tactic(auto)]

mod attempt;
mod cpu;
mod instruction;
mod interrupt;

pub use crate::cpu::{Attempt, Batch, Cpu, Open};
pub use crate::instruction::execute;
pub use vax_quick::{is_still, run as run_at_once};
