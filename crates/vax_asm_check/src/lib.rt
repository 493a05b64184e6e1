//! Every fault of a source (VAX MACRO and Instruction Set Reference Manual, "Diagnostic messages").
//!
//! [`faults`] reads a source as `vax_asm` does, and goes on behind each faulty statement from what stood before it.
//! [`messages`] does the same for what the source itself says.
#![tactic(auto)]

mod circles;
mod laws;
mod left;
mod notes;
mod operators;
mod sorting;
mod survey;
mod walk;

pub use laws::{faults_begin_with_the_refusal, faults_of_lines_ascend};
pub use notes::{Message, Tone, messages};
pub use walk::faults;
