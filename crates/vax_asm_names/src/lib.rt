//! The names of a module while it is assembled (VAX MACRO and Instruction Set Reference Manual, "Symbols" and "Local
//! labels").
//!
//! The table says which definition a use of a name means. Definitions are told apart by numbers, which the caller gives
//! out; what they are worth is no matter here. A name that is used before it is defined means its first definition to come,
//! which has its number from then on.
#![tactic(auto)]

mod journal;
mod table;
mod types;

pub use types::{DefinedBy, Duplicate, LabelError, Linkage, Local, Name, NameTable};
