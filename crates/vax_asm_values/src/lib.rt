//! The values of definitions while a source is assembled (VAX MACRO and Instruction Set Reference Manual, "Direct
//! assignment statement").
//!
//! A definition is to come, has a value, or is an expression whose names mean other definitions. [`Definitions`] keeps
//! what each is worth by the others so far: an expression has its value as soon as all that it rests on has one, in
//! whichever order the definitions come. One that comes back to itself never has a value.
//!
//! Definitions can be marked. What is changed after the mark is written down in a journal, so that they go back to the mark
//! in time with the changes alone.
#![tactic(auto)]

mod board;
mod copies;
mod definitions;
mod journal;
mod types;

pub use definitions::Definitions;
pub use types::{Expression, Meaning};
