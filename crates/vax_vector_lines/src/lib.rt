//! The lines of test vectors: steps are chosen from an opcode, a seed and a number, made, and written as JSON objects, one a line.
#![tactic(auto)]

mod case_lines;
mod told;
mod write;

pub use write::{Extent, write_all, write_cases};
