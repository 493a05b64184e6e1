//! The names and the definitions of a module while it is assembled (VAX MACRO and Instruction Set Reference Manual,
//! "Symbols", "Local labels" and "Direct assignment statement").
//!
//! [`Scope`] joins `vax_asm_names`, which says what definition a use of a name means, and `vax_asm_values`, which keeps what the
//! definitions are worth. An expression is bound where it stands; labels and assignments define names.
#![tactic(auto)]

mod known;
mod masks;
mod place;
mod scope;
mod tables;

pub use known::KnownNames;
pub use place::uses_place;
pub use scope::Scope;
pub use vax_asm_names::{LabelError, Linkage};
