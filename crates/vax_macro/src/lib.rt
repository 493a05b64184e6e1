//! Macros, repeats and conditions of MACRO-32: from the lines of a source to its statements.
//!
//! An [`Expander`] reads a source line by line. It gives one statement after another, with macros, repeats and
//! conditions carried out, under the names that are handed in to each call. (VAX MACRO and Instruction Set Reference
//! Manual, "Macro arguments" and the directives `.MACRO` to `.ENDR`.)
#![tactic(auto)]

mod arguments;
mod conditions;
mod counts;
mod directives;
mod error;
mod expander;
mod further;
mod heads;
mod line_types;
mod lines;
mod names;
mod opcodes;
mod reader;
mod state;
mod state_types;
mod strings;
mod template_types;
mod templates;
mod values;

pub use error::{FaultKind, MacroError};
pub use expander::{Expander, Line};
pub use state_types::Begin;
