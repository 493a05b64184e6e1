//! Chooses what steps begin with, from an opcode, a seed and a number: every form of operand that an instruction may have and
//! the reserved ones, operands at their edges, and references to pages that may not be read or written.
#![tactic(auto)]

mod dice;
mod operands;
mod start;

pub use start::{Case, PAGES, start_of};
