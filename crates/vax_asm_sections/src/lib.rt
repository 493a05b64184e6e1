//! The sections of a module while it is assembled: what has gone into each, where the next statement goes, and how
//! they are aligned (VAX MACRO and Instruction Set Reference Manual, `.PSECT` and `.ALIGN`).
#![tactic(auto)]

mod journal;
mod layout;
mod types;

pub use types::{Attributes, Building, Layout, Piece, Refusal};
