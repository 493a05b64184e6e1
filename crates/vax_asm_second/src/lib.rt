//! The second pass of the assembler: what the statements of a source have left becomes a module, once all names have their
//! values (VAX MACRO and Instruction Set Reference Manual, "VAX MACRO assembler directives").
//!
//! [`fill_in`] writes each section's bytes with its fields filled in, lists what the linker fills in, and finds the first of the
//! faults that the whole source decides. [`all_faults`] lists all of these.
#![tactic(auto)]

mod contents;
mod faults;
mod fields;
mod laying;
mod lists;
mod modules;
mod types;

pub use faults::earlier;
pub use lists::all_faults;
pub use modules::fill_in;
pub use types::{Fault, FillError};
