//! String instructions over any port, in parts (VAX MACRO and Instruction Set Reference Manual, character string instructions).
//!
//! A part makes at most 512 units of an instruction. What remains stands in R0 to R5, so that a later part goes on by the registers
//! and the opcode alone.
#![tactic(auto)]

mod compare;
mod escape;
mod first;
mod later;
mod matching;
mod moves;
mod operands;
mod registers;
mod run;
mod scratch;
mod search;

pub use crate::first::start;
pub use crate::later::resume;
pub use crate::scratch::Scratch;
