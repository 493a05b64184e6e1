//! Runs a bare program: its memory and its registers at the start, and a processor over that memory, of which every page is resident.
#![tactic(auto)]

mod runs;
mod start;

pub use crate::runs::{Stopped, run};
pub use crate::start::{core_at, memory_of, space_of};
