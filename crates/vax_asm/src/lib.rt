//! The assembler: from a source in MACRO-32 to its module.
//!
//! [`assemble`] reads a source statement by statement, as its macros, repeats and conditions open, and fills in what rests on later
//! definitions once all of it is read. [`place`] carries out one statement, and [`refusal`] tells the fault
//! that its text alone decides. (VAX MACRO and Instruction Set Reference Manual, "VAX
//! MACRO assembler directives".)
#![tactic(auto)]

mod error;
mod met;
mod placing;
mod refusing;
mod tokens;
mod types;
mod walk;

pub use error::AsmError;
pub use placing::{Placed, place};
pub use refusing::refusal;
pub use vax_macro::FaultKind;
pub use walk::{Walk, assemble};
